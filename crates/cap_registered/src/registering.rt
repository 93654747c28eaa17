// The registrations of a category.
ghost use Rattle.std.specs.Prelude.{◌≡◌, ℕ, ◌+◌, ◌<◌, ◌==◌, None, if◌then◌else◌, length};
ghost use Rattle.std.specs.List.{All, slice_index_or};
ghost use Rattle.cap_ops.specs.Derivations.{IsWeight};
ghost use Rattle.cap_ops.specs.Offered.{offered_weights};
ghost use Rattle.cap_sound.specs.Weights.{AreRanged};
ghost use Rattle.cap_registered.specs.Registrations.{registered_weights};
ghost use Rattle.cap_registered.specs.Kept.{kept};

use crate::commands::{before_final, registration};
use cap_check::CheckedObj;
use cap_grammar::{Item, Placed};
use cap_names::{MorLit, Name, OpId};
use cap_ops::{Kind, OPERATIONS, Regs, offered};

/// The weight of an operation when it is asked for: one that it has stays, and none comes where the operation is not offered.
fn kept(before: Option<u32>, default: Option<u32>, written: Option<u64>) -> Option<u32>
    requires { IsWeight written }
    ensures { result ≡ kept before default written }
{
    match (before, default, written) {
        (None, Some(_), Some(weight)) => Some(weight as u32),
        (None, Some(weight), None) => Some(weight),
        (before, _, _) => before,
    }
}

/// The primitives that a kind offers, with their default weights.
fn defaults(kind: Kind) -> Regs
    ensures value { result.weights ≡ offered_weights kind }
    ensures ranged { All IsWeight result.weights }
{
    offered(kind)
}

/// Registers an operation, where it is one that is offered and not registered.
fn register(regs: &mut Regs, defaults: &Regs, op: OpId, written: Option<u64>)
    requires ranged { IsWeight written }
    requires defaults { All IsWeight defaults.now.weights }
    requires weights { All IsWeight regs.old.weights }
    ensures long { length regs.new.weights ≡ length regs.old.weights }
    ensures ranged { All IsWeight regs.new.weights }
    ensures each { (k : ℕ) → k < OPERATIONS → slice_index_or regs.new.weights k None ≡ (if op.0 == k + 1 then kept (slice_index_or regs.old.weights k None) (slice_index_or defaults.now.weights k None) written else slice_index_or regs.old.weights k None) }
{
    let number = op.0 as usize;
    if number >= 1 && number <= OPERATIONS {
        let place = number - 1;
        regs.weights[place] = kept(regs.weights[place], defaults.weights[place], written);
    }
}

/// What the parts of a prelude register in the category of this name and kind.
pub fn registered(parts: &[Placed<Item<CheckedObj, MorLit>>], name: &Name, kind: Kind) -> Regs
    requires { AreRanged parts.now }
    ensures weights { result.weights ≡ registered_weights kind name.now parts.now }
    ensures ranged { All IsWeight result.weights }
{
    let defaults = defaults(kind);
    let mut regs = Regs {
        weights: [None; 44],
    };
    'asks: for part in before_final(parts, *name) {
        if let Some((op, weight)) = registration(part, *name) {
            register(&mut regs, &defaults, op, weight);
        }
    }
    regs
}
