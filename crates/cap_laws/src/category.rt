// Categories, linear and additive ones. A category is a value; objects and morphisms are data.
// Each call has two meanings: its answer, a function on data of every size of which the laws speak, and the sizes that it meets.
ghost use Rattle.std.specs.Prelude.{◌≡◌, IsTrue, ◌↔◌, ◌<◌, ℕ};
ghost use Rattle.cap_laws.specs.Answers.{Answers, Copies, Size};
ghost use Rattle.cap_laws.specs.Linear.{CategoryData, IsLinear};
ghost use Rattle.cap_laws.specs.Universal.{IsZeroObject, IsDirectSum};

use crate::{CatFault, Sum};
use cap_field::Field;
use std::alloc::Global;

/// A category: objects, morphisms with a source and a target, identities, composition and congruence.
/// The ghost members `.._meets` tell the sizes of the matrices that a call meets.
pub trait Cat {
    type Obj: Drop;

    type Mor: Drop;

    ghost category: { Self → CategoryData Self.Obj Self.Mor };

    ghost identity_meets: { Self → Self.Obj → Size → Type 0 };

    ghost compose_meets: { Self → Self.Mor → Self.Mor → Size → Type 0 };

    ghost congruent_meets: { Self → Self.Mor → Self.Mor → Size → Type 0 };

    /// The source of f.
    fn source<'a>(&self, f: &'a Self::Mor) -> &'a Self::Obj
        requires { (category self.now).is_morphism f.now }
        ensures { result.now ≡ (category self.now).source f.now };

    /// The target of f.
    fn target<'a>(&self, f: &'a Self::Mor) -> &'a Self::Obj
        requires { (category self.now).is_morphism f.now }
        ensures { result.now ≡ (category self.now).target f.now };

    /// Whether two objects are equal as data.
    fn same_object(&self, a: &Self::Obj, b: &Self::Obj) -> bool
        requires left { (category self.now).is_object a.now }
        requires right { (category self.now).is_object b.now }
        ensures { IsTrue result ↔ (a.now ≡ b.now) };

    /// Whether two morphisms are equal as data.
    fn same_morphism(&self, f: &Self::Mor, g: &Self::Mor) -> bool
        requires left { (category self.now).is_morphism f.now }
        requires right { (category self.now).is_morphism g.now }
        ensures { IsTrue result ↔ (f.now ≡ g.now) };

    /// An object equal to a; nothing but memory can be wanting.
    fn copy_object(&self, alloc: Global, a: &Self::Obj) -> Result<Self::Obj, CatFault>
        requires { (category self.now).is_object a.now }
        ensures { Copies a.now result };

    /// A morphism equal to f; nothing but memory can be wanting.
    fn copy_morphism(&self, alloc: Global, f: &Self::Mor) -> Result<Self::Mor, CatFault>
        requires { (category self.now).is_morphism f.now }
        ensures { Copies f.now result };

    /// The identity of a.
    fn identity(&self, alloc: Global, a: &Self::Obj) -> Result<Self::Mor, CatFault>
        requires { (category self.now).is_object a.now }
        ensures { Answers (identity_meets self.now a.now) (λ x. x ≡ (category self.now).identity a.now) result };

    /// f·g, first f, then g.
    fn compose(&self, alloc: Global, f: &Self::Mor, g: &Self::Mor) -> Result<Self::Mor, CatFault>
        requires left { (category self.now).is_morphism f.now }
        requires right { (category self.now).is_morphism g.now }
        requires meet { (category self.now).target f.now ≡ (category self.now).source g.now }
        ensures { Answers (compose_meets self.now f.now g.now) (λ x. x ≡ (category self.now).compose f.now g.now) result };

    /// Whether two morphisms with equal ends are congruent.
    fn congruent(&self, alloc: Global, f: &Self::Mor, g: &Self::Mor) -> Result<bool, CatFault>
        requires left { (category self.now).is_morphism f.now }
        requires right { (category self.now).is_morphism g.now }
        requires sources { (category self.now).source f.now ≡ (category self.now).source g.now }
        requires targets { (category self.now).target f.now ≡ (category self.now).target g.now }
        ensures { Answers (congruent_meets self.now f.now g.now) (λ b. IsTrue b ↔ (category self.now).congruent f.now g.now) result };

    ghost linear: { (c : Self) → IsLinear (category c) };
}

/// A linear category over a prime field: morphisms with equal ends are added and multiplied by residues.
pub trait Preadditive: Cat {
    ghost zero_meets: { Self → Self.Obj → Self.Obj → Size → Type 0 };

    ghost add_meets: { Self → Self.Mor → Self.Mor → Size → Type 0 };

    ghost scale_meets: { Self → ℕ → Self.Mor → Size → Type 0 };

    /// The field of the residues that morphisms are multiplied by.
    fn field(&self) -> Field
        ensures { (Self.category self.now).prime ≡ result };

    /// The zero morphism from a to b.
    fn zero(&self, alloc: Global, a: &Self::Obj, b: &Self::Obj) -> Result<Self::Mor, CatFault>
        requires left { (Self.category self.now).is_object a.now }
        requires right { (Self.category self.now).is_object b.now }
        ensures { Answers (zero_meets self.now a.now b.now) (λ x. x ≡ (Self.category self.now).zero a.now b.now) result };

    /// f + g, of morphisms with equal ends.
    fn add(&self, alloc: Global, f: &Self::Mor, g: &Self::Mor) -> Result<Self::Mor, CatFault>
        requires left { (Self.category self.now).is_morphism f.now }
        requires right { (Self.category self.now).is_morphism g.now }
        requires sources { (Self.category self.now).source f.now ≡ (Self.category self.now).source g.now }
        requires targets { (Self.category self.now).target f.now ≡ (Self.category self.now).target g.now }
        ensures { Answers (add_meets self.now f.now g.now) (λ x. x ≡ (Self.category self.now).add f.now g.now) result };

    /// n·f, for a residue n.
    fn scale(&self, alloc: Global, n: u16, f: &Self::Mor) -> Result<Self::Mor, CatFault>
        requires residue { n < (Self.category self.now).prime }
        requires test { (Self.category self.now).is_morphism f.now }
        ensures { Answers (scale_meets self.now n f.now) (λ x. x ≡ (Self.category self.now).scale n f.now) result };
}

/// An additive category: a zero object and direct sums.
pub trait Additive: Preadditive {
    ghost use Rattle.cap_laws.specs.declared.values.Sum.{Sum};

    ghost zero_object_of: { Self → Self.Obj };

    ghost sum_of: { Self → Self.Obj → Self.Obj → Sum Self.Mor };

    ghost zero_object_meets: { Self → Size → Type 0 };

    ghost direct_sum_meets: { Self → Self.Obj → Self.Obj → Size → Type 0 };

    /// An object whose identity is zero.
    fn zero_object(&self, alloc: Global) -> Result<Self::Obj, CatFault>
        ensures { Answers (zero_object_meets self.now) (λ x. x ≡ zero_object_of self.now) result };

    /// A direct sum of a and b.
    fn direct_sum(
        &self,
        alloc: Global,
        a: &Self::Obj,
        b: &Self::Obj,
    ) -> Result<Sum<Self::Mor>, CatFault>
        requires left { (Self.category self.now).is_object a.now }
        requires right { (Self.category self.now).is_object b.now }
        ensures { Answers (direct_sum_meets self.now a.now b.now) (λ x. x ≡ sum_of self.now a.now b.now) result };

    ghost zero_object_is: { (c : Self) → IsZeroObject (Self.category c) (zero_object_of c) };

    ghost sum_is: { (c : Self) (a b : Self.Obj) → (Self.category c).is_object a → (Self.category c).is_object b → let d = sum_of c a b in IsDirectSum (Self.category c) ((Self.category c).target d.i1) a b d.i1 d.i2 d.p1 d.p2 };
}
