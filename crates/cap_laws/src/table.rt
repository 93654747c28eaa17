// Multiplication tables of finite linear categories.
ghost use Rattle.std.specs.Prelude.{◌≡◌, ◌<◌, length};
ghost use Rattle.cap_laws.specs.Table.{TableData, IsTable, ends_of, hom_of};

use cap_field::Field;

/// A valid multiplication table: objects and basis elements are numbers from 0, coefficients are residues over the basis of a Hom in order.
/// It has at most 16 objects and 128 basis elements.
pub trait Table {
    ghost table: { Self → TableData };

    /// The field of the coefficients.
    fn field(&self) -> Field
        ensures { (table self.now).prime ≡ result };

    /// The number of objects.
    fn objects(&self) -> u32
        ensures { result ≡ (table self.now).objects };

    /// The basis elements from x to y, in order.
    fn hom(&self, x: u32, y: u32) -> &[u32]
        requires source { x < (table self.now).objects }
        requires target { y < (table self.now).objects }
        ensures { result.now ≡ hom_of (table self.now) x y };

    /// The source and the target of a basis element.
    fn ends(&self, basis: u32) -> (u32, u32)
        requires { basis < length (table self.now).basis }
        ensures { result ≡ ends_of (table self.now) basis };

    /// The unit of x, over the basis from x to x.
    fn unit(&self, x: u32) -> &[u16]
        requires { x < (table self.now).objects }
        ensures { result.now ≡ (table self.now).unit x };

    /// The product of two basis elements that meet, over the basis from the source of i to the target of j.
    fn product(&self, i: u32, j: u32) -> &[u16]
        requires first { i < length (table self.now).basis }
        requires second { j < length (table self.now).basis }
        requires meet { (ends_of (table self.now) i).1 ≡ (ends_of (table self.now) j).0 }
        ensures { result.now ≡ (table self.now).product i j };

    ghost valid: { (t : Self) → IsTable (table t) };
}
