// Categories with solved systems, weak kernels, weak cokernels, and abelian categories.
ghost use Rattle.std.specs.Prelude.{◌≡◌, Option, List};
ghost use Rattle.cap_laws.specs.Answers.{Answers, Size};
ghost use Rattle.cap_laws.specs.Linear.{Arrow};
ghost use Rattle.cap_laws.specs.Universal.{IsKernel, IsCokernel, IsWeakKernel, IsWeakCokernel, IsLift, IsColift, IsAbelian};

use crate::{Additive, CatFault, Preadditive, System};
use cap_names::Items;
use std::alloc::Global;

/// A linear category in which two-sided systems of linear equations are solved.
pub trait Lifts: Preadditive {
    ghost use Rattle.cap_laws.specs.Systems.{IsSystem, AnswersSystem};
    ghost use Rattle.cap_laws.specs.declared.values.System.{System};

    ghost solution_of: { Self → System Self.Obj Self.Mor → Option (List Self.Mor) };

    ghost system_meets: { Self → System Self.Obj Self.Mor → Size → Type 0 };

    /// Morphisms for the unknowns that solve the equations; `None` exactly where there are none.
    fn solve_system(
        &self,
        alloc: Global,
        s: &System<Self::Obj, Self::Mor>,
    ) -> Result<Option<Items<Self::Mor>>, CatFault>
        requires { IsSystem (Self.category self.now) s.now }
        ensures { Answers (system_meets self.now s.now) (λ x. x ≡ solution_of self.now s.now) result };

    ghost solves: { (c : Self) (s : System Self.Obj Self.Mor) → IsSystem (Self.category c) s → AnswersSystem (Self.category c) s (solution_of c s) };
}

/// A linear category with weak kernels.
pub trait WeakKernels: Preadditive {
    ghost weak_kernel_of: { Self → Self.Mor → Self.Mor };

    ghost weak_kernel_meets: { Self → Self.Mor → Size → Type 0 };

    /// A weak kernel of f, into f's source.
    fn weak_kernel(&self, alloc: Global, f: &Self::Mor) -> Result<Self::Mor, CatFault>
        requires { (Self.category self.now).is_morphism f.now }
        ensures { Answers (weak_kernel_meets self.now f.now) (λ x. x ≡ weak_kernel_of self.now f.now) result };

    ghost weak_kernel_is: { (c : Self) (a b : Self.Obj) (f : Self.Mor) → Arrow (Self.category c) a b f → IsWeakKernel (Self.category c) ((Self.category c).source (weak_kernel_of c f)) a b f (weak_kernel_of c f) };
}

/// A linear category with weak cokernels.
pub trait WeakCokernels: Preadditive {
    ghost weak_cokernel_of: { Self → Self.Mor → Self.Mor };

    ghost weak_cokernel_meets: { Self → Self.Mor → Size → Type 0 };

    /// A weak cokernel of f, out of f's target.
    fn weak_cokernel(&self, alloc: Global, f: &Self::Mor) -> Result<Self::Mor, CatFault>
        requires { (Self.category self.now).is_morphism f.now }
        ensures { Answers (weak_cokernel_meets self.now f.now) (λ x. x ≡ weak_cokernel_of self.now f.now) result };

    ghost weak_cokernel_is: { (c : Self) (a b : Self.Obj) (f : Self.Mor) → Arrow (Self.category c) a b f → IsWeakCokernel (Self.category c) a b ((Self.category c).target (weak_cokernel_of c f)) f (weak_cokernel_of c f) };
}

/// An abelian category, in which lifts and colifts are found or refuted.
pub trait Abelian: Additive {
    ghost kernel_of: { Self → Self.Mor → Self.Mor };

    ghost cokernel_of: { Self → Self.Mor → Self.Mor };

    ghost lift_of: { Self → Self.Mor → Self.Mor → Option Self.Mor };

    ghost colift_of: { Self → Self.Mor → Self.Mor → Option Self.Mor };

    ghost kernel_meets: { Self → Self.Mor → Size → Type 0 };

    ghost cokernel_meets: { Self → Self.Mor → Size → Type 0 };

    ghost lift_meets: { Self → Self.Mor → Self.Mor → Size → Type 0 };

    ghost colift_meets: { Self → Self.Mor → Self.Mor → Size → Type 0 };

    /// A kernel of f, into f's source.
    fn kernel(&self, alloc: Global, f: &Self::Mor) -> Result<Self::Mor, CatFault>
        requires { (Self.category self.now).is_morphism f.now }
        ensures { Answers (kernel_meets self.now f.now) (λ x. x ≡ kernel_of self.now f.now) result };

    /// A cokernel of f, out of f's target.
    fn cokernel(&self, alloc: Global, f: &Self::Mor) -> Result<Self::Mor, CatFault>
        requires { (Self.category self.now).is_morphism f.now }
        ensures { Answers (cokernel_meets self.now f.now) (λ x. x ≡ cokernel_of self.now f.now) result };

    /// Some u with u·b congruent to t, for t and b with one target; `None` exactly where there is none.
    fn lift(
        &self,
        alloc: Global,
        t: &Self::Mor,
        b: &Self::Mor,
    ) -> Result<Option<Self::Mor>, CatFault>
        requires left { (Self.category self.now).is_morphism t.now }
        requires right { (Self.category self.now).is_morphism b.now }
        requires targets { (Self.category self.now).target t.now ≡ (Self.category self.now).target b.now }
        ensures { Answers (lift_meets self.now t.now b.now) (λ x. x ≡ lift_of self.now t.now b.now) result };

    /// Some u with a·u congruent to t, for a and t with one source; `None` exactly where there is none.
    fn colift(
        &self,
        alloc: Global,
        a: &Self::Mor,
        t: &Self::Mor,
    ) -> Result<Option<Self::Mor>, CatFault>
        requires left { (Self.category self.now).is_morphism a.now }
        requires right { (Self.category self.now).is_morphism t.now }
        requires sources { (Self.category self.now).source a.now ≡ (Self.category self.now).source t.now }
        ensures { Answers (colift_meets self.now a.now t.now) (λ x. x ≡ colift_of self.now a.now t.now) result };

    ghost kernel_is: { (c : Self) (a b : Self.Obj) (f : Self.Mor) → Arrow (Self.category c) a b f → IsKernel (Self.category c) ((Self.category c).source (kernel_of c f)) a b f (kernel_of c f) };

    ghost cokernel_is: { (c : Self) (a b : Self.Obj) (f : Self.Mor) → Arrow (Self.category c) a b f → IsCokernel (Self.category c) a b ((Self.category c).target (cokernel_of c f)) f (cokernel_of c f) };

    ghost lift_is: { (c : Self) (x a b : Self.Obj) (t f : Self.Mor) → Arrow (Self.category c) x b t → Arrow (Self.category c) a b f → IsLift (Self.category c) x a b t f (lift_of c t f) };

    ghost colift_is: { (c : Self) (a b x : Self.Obj) (f t : Self.Mor) → Arrow (Self.category c) a b f → Arrow (Self.category c) a x t → IsColift (Self.category c) a b x f t (colift_of c f t) };

    ghost abelian: { (c : Self) → IsAbelian (Self.category c) };
}
