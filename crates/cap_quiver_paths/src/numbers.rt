// The paths of a quiver by their numbers.
ghost use Rattle.std.specs.Prelude.{◌≡◌, ◌*◌, ◌<◌, ◌≤◌, length};
ghost use Rattle.cap_quiver_paths.specs.Numbers.{AreNumbers};

use cap_names::Items;

/// The paths of a quiver by their numbers: the ends of each, the unit of each object, and which path two make one after the other.
#[derive(Drop)]
pub struct Numbers {
    objects: u32,
    ends: Items<(u32, u32)>,
    units: Items<u32>,
    joins: Items<u32>,
    ghost are: { AreNumbers objects ends units joins },
}

impl Numbers {
    ghost use Rattle.cap_quiver_paths.specs.Numbers.{numbers_of, AreNumbers};
    ghost use Rattle.cap_quiver_paths.specs.Read.{numbers_in};

    /// The numbers by their lists.
    pub(crate) fn from_lists(
        objects: u32,
        ends: Vec<(u32, u32)>,
        units: Vec<u32>,
        joins: Vec<u32>,
    ) -> Numbers
        requires { AreNumbers objects ends.items units.items joins.items }
        ensures { numbers_in result ≡ numbers_of objects ends.items units.items joins.items }
    {
        Numbers {
            objects,
            ends: Items::new(ends),
            units: Items::new(units),
            joins: Items::new(joins),
        }
    }

    /// How many paths there are.
    pub fn count(&self) -> u32
        ensures value { result ≡ (numbers_in self.now).count }
        ensures limit { result ≤ 128 }
    {
        self.ends.len() as u32
    }

    /// How many objects there are.
    pub fn objects(&self) -> u32
        ensures value { result ≡ (numbers_in self.now).objects }
        ensures limit { result ≤ 16 }
    {
        self.objects
    }

    /// The object where a path begins, and the one where it ends.
    pub fn ends(&self, a: u32) -> (u32, u32)
        requires { a < (numbers_in self.now).count }
        ensures { result ≡ ((numbers_in self.now).start a, (numbers_in self.now).finish a) }
    {
        self.ends.as_slice()[a as usize]
    }

    /// The unit of an object.
    pub fn unit(&self, x: u32) -> u32
        requires { x < (numbers_in self.now).objects }
        ensures { result ≡ (numbers_in self.now).unit x }
    {
        self.units.as_slice()[x as usize]
    }

    /// The first path followed by the second, and the number of paths where that is none.
    pub fn join(&self, a: u32, b: u32) -> u32
        ensures { result ≡ (numbers_in self.now).join a b }
    {
        let count = self.ends.len();
        if (a as usize) < count && (b as usize) < count {
            self.joins.as_slice()[a as usize * count + b as usize]
        } else {
            count as u32
        }
    }
}
