// Why a step has no reply.
use cap_history::Event;
use cap_names::NoMemory;
use thiserror::Error;

/// The history is full, with so many entries and cells; or memory ran out. Nothing has changed.
#[derive(Debug, Clone, Copy, PartialEq, Eq, Error)]
pub enum StepRefusal {
    #[error("the history is full, with {entries} entries and {cells} cells")]
    Full { entries: u32, cells: u64 },
    #[error("out of memory")]
    NoMemory,
}

impl From<NoMemory> for StepRefusal {
    ghost use Rattle.cap_store.specs.declared.refusals.StepRefusal.TheVariants.{NoMemory as no_memory};
    ghost use Rattle.std.specs.Prelude.{◌≡◌};

    ghost from_gives = { λ _ e. e ≡ no_memory };

    fn from(_e: NoMemory) -> StepRefusal {
        StepRefusal::NoMemory
    }
}

/// The history is full, with so many entries and cells, and the event comes back; or memory ran out. Nothing has changed.
#[derive(Debug, Drop)]
pub enum EnterRefusal<O, M> {
    Full {
        event: Event<O, M>,
        entries: u32,
        cells: u64,
    },
    NoMemory,
}

impl<O: Drop, M: Drop> From<NoMemory> for EnterRefusal<O, M> {
    ghost use Rattle.cap_store.specs.declared.refusals.EnterRefusal.TheVariants.{NoMemory as no_memory};
    ghost use Rattle.std.specs.Prelude.{◌≡◌};

    ghost from_gives = { λ _ e. e ≡ no_memory };

    fn from(_e: NoMemory) -> EnterRefusal<O, M> {
        EnterRefusal::NoMemory
    }
}
