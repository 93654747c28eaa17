// What a category offers: data that can be compared and copied, objects that can be read, and primitives.
ghost use Rattle.std.specs.Prelude.{◌≡◌, ◌↔◌, ◌^◌, ◌≤◌, ℕ, List, Option, Some, IsSome, IsTrue, IfOk};
ghost use Rattle.cap_laws.specs.Linear.{IsLinear};
ghost use Rattle.cap_names.specs.declared.identifiers.Handle.{Handle};
ghost use Rattle.cap_ops.specs.Arrows.{over, arguments};
ghost use Rattle.cap_ops.specs.Told.{Known, HasPlainEnds};
ghost use Rattle.cap_ops.specs.Primitives.{OfferData, prime_of, PrimGives, PrimsMean, HasOneOutcome, HasFewObjects};
ghost use Rattle.cap_ops.specs.Values.{Fits};

use crate::keys::{Arg, PrimOut};
use crate::plans::Kind;
use cap_field::Field;
use cap_laws::CatFault;
use cap_names::{Handle, NoMemory, OpId};
use std::alloc::Global;

/// Data that can be compared, counted and copied.
pub trait Datum: Sized + Drop {
    /// The residues and parts that the datum counts.
    ghost cells_of: { Self → ℕ };

    /// Whether two data are equal.
    fn same(&self, b: &Self) -> bool
        ensures { IsTrue result ↔ (self.now ≡ b.now) };

    /// How many residues and parts the datum has, at most 2^32.
    fn cells(&self) -> u64
        ensures count { result ≡ cells_of self.now }
        ensures few { result ≤ 2 ^ 32 };

    /// An equal datum.
    fn copy(&self, alloc: Global) -> Result<Self, NoMemory>
        ensures { IfOk result (λ x. x ≡ self.now) };
}

/// Objects that can be read by the handles that were told.
pub trait Objects<O> {
    /// The object of a handle, where it was told.
    ghost told: { Self → Handle → Option O };

    /// The object of a handle that was told.
    fn object(&self, h: Handle) -> &O
        requires { IsSome (told self.now h) }
        ensures { told self.now h ≡ Some result.now };
}

/// A category that offers primitives.
pub trait Offer {
    /// The data of objects.
    type O: Datum;

    /// The data of morphisms; their ends are not among them.
    type M: Datum;

    /// The category, and what its primitives do.
    ghost offered: { Self → OfferData Self.O Self.M };

    /// The kind of category.
    fn kind(&self) -> Kind
        ensures { result ≡ (offered self.now).kind };

    /// The field of the residues that morphisms are multiplied by.
    fn field(&self) -> Field
        ensures { prime_of (offered self.now) ≡ result };

    /// The default weight of an operation's primitive; None where the kind doesn't offer it.
    fn offers(&self, op: OpId) -> Option<u32>
        ensures { result ≡ (offered self.now).weight op.0 };

    /// The answer of an operation's primitive, with its new objects, where no matrix past the limits is met; else the
    /// size of one.
    fn prim<B: Objects<Self::O>>(
        &self,
        alloc: Global,
        op: OpId,
        args: &[Arg<Self::M>],
        objects: &B,
    ) -> Result<PrimOut<Self::O, Self::M>, CatFault>
        requires is_offered { IsSome ((offered self.now).weight op.0) }
        requires fits { Fits (over (prime_of (offered self.now))) op.0 (arguments args.now) }
        requires known { Known (offered self.now).category (B.told objects.now) (arguments args.now) }
        ensures { PrimGives (offered self.now) (B.told objects.now) op.0 args.now result };

    ghost plain_ends: { (c : Self) → HasPlainEnds (offered c).category };

    ghost linear: { (c : Self) → IsLinear (offered c).category };

    ghost prims_mean: { (c : Self) → PrimsMean (offered c) };

    ghost one_outcome: { (c : Self) → HasOneOutcome (offered c) };

    ghost few_objects: { (c : Self) → HasFewObjects (offered c) };
}
