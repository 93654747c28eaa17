// The state of a category, with its history.
ghost use Rattle.std.specs.Prelude.{◌≡◌, ◌≤◌, ◌++◌, ◌∷◌, [], ℕ, IfOk, OnOk, OnErr, MatchBool, MatchOption};
ghost use Rattle.cap_ops.specs.Derivations.{AreCosts};
ghost use Rattle.cap_history.specs.May.{May, IsShortReply};
ghost use Rattle.cap_history.specs.Replies.{Replies, IsOpen, IsFinal, IsFull, HasRoom, entry};
ghost use Rattle.cap_store.specs.State.{Log, Steps, GivesBack, reply_of};

use crate::adding::{add, added};
use crate::parts::Parts;
use crate::refusals::{EnterRefusal, StepRefusal};
use cap_history::{Entry, Event, Reply, copy_event, copy_reply};
use cap_names::{NoMemory, SessionNo};
use cap_ops::{Datum, Kind, Plan, Regs, RuleCost};
use std::alloc::Global;
use std::marker::Model;

/// How many entries, and how many cells, a history has room for.
const MOST_ENTRIES: usize = 200_000;

const MOST_CELLS: u64 = 16_777_216;

/// The state of a category. Contracts see it as what it was made with, and its history.
#[derive(Drop)]
pub struct CatState<O: Datum, M: Datum> {
    pub(crate) kind: Kind,
    pub(crate) offered: Regs,
    pub(crate) costs: [RuleCost; 59],
    pub(crate) parts: Parts<O, M>,
}

impl<O: Datum, M: Datum> Model for CatState<O, M> {
    ghost use Rattle.cap_store.specs.State.{Log};
    ghost use Rattle.cap_store.specs.Inside.{IsState};
    ghost use Rattle.cap_store.specs.Parts.{kept_of};

    ghost Value = { Log O M };

    ghost view = { λ s. record { setup = record { kind = s.kind; offered = s.offered; costs = s.costs }; entries = s.parts.entries.items } };

    ghost invariant = { λ s. IsState O.cells_of M.cells_of (record { kind = s.kind; offered = s.offered; costs = s.costs }) (kept_of s.parts) };
}

impl<O: Datum, M: Datum> CatState<O, M> {
    /// The state of a category of this kind that offers these primitives, by rules of these costs. Nothing has happened yet.
    pub fn new(alloc: Global, kind: Kind, offered: Regs, costs: [RuleCost; 59]) -> CatState<O, M>
        requires { AreCosts costs }
        ensures { result ≡ record { setup = record { kind = kind; offered = offered; costs = costs }; entries = [] } }
    {
        CatState {
            kind,
            offered,
            costs,
            parts: Parts {
                regs: Regs {
                    weights: [None; 44],
                },
                finality: None,
                objects: Vec::new(alloc),
                names: Vec::new(alloc),
                cache: Vec::new(alloc),
                cells: 0,
                entries: Vec::new(alloc),
            },
        }
    }

    /// What has happened, in order.
    pub fn history(&self) -> &[Entry<O, M>]
        ensures { result.now ≡ self.now.entries }
    {
        self.parts.entries.as_slice()
    }

    /// What has happened, in order, for good.
    pub fn into_history(self) -> Vec<Entry<O, M>>
        ensures { result.items ≡ self.entries }
    {
        self.parts.entries
    }

    /// The plan, once registering has ended.
    pub fn plan(&self) -> Option<Plan>
        ensures { MatchOption result (IsOpen self.now.entries) (λ p. (at : ℕ) × IsFinal self.now.entries at p) }
    {
        match self.parts.finality {
            None => None,
            Some(finality) => Some(finality.plan),
        }
    }

    /// Whether the history has no room for an entry.
    fn is_full(&self) -> bool
        ensures { MatchBool result (IsFull O.cells_of M.cells_of self.now.entries) (HasRoom O.cells_of M.cells_of self.now.entries) }
    {
        self.parts.entries.len() >= MOST_ENTRIES || self.parts.cells >= MOST_CELLS
    }

    /// Adds an entry whose reply is the history's. Without memory nothing changes.
    fn extend(&mut self, alloc: Global, entry: Entry<O, M>) -> Result<(), NoMemory>
        requires may { May self.old.entries entry.event }
        requires room { HasRoom O.cells_of M.cells_of self.old.entries }
        requires replies { Replies self.old.setup self.old.entries entry.event entry.reply }
        requires short { IsShortReply entry.reply }
        ensures ok { OnOk result (self.new ≡ record self.old { entries = self.old.entries ++ entry ∷ [] }) }
        ensures err { OnErr result (self.new ≡ self.old) }
    {
        let added = added(alloc, &self.parts, &entry.event, &entry.reply)?;
        add(&mut self.parts, entry, added)
    }

    /// Adds an event with its reply to the history, unless that is full, and answers the reply with a copy of the entry.
    /// A full history gives the event back. A refusal changes nothing.
    pub fn enter(
        &mut self,
        alloc: Global,
        session: SessionNo,
        event: Event<O, M>,
    ) -> Result<(Reply<O, M>, Entry<O, M>), EnterRefusal<O, M>>
        requires { May self.old.entries event }
        ensures steps { Steps O.cells_of M.cells_of self.old session event (reply_of result) self.new }
        ensures copy { IfOk result (λ x. x.1 ≡ entry session event x.0) }
        ensures back { GivesBack event result }
    {
        if self.is_full() {
            return Err(EnterRefusal::Full {
                event,
                entries: self.parts.entries.len() as u32,
                cells: self.parts.cells,
            });
        }
        let reply = self.reply_to(alloc, &event)?;
        let answer = copy_reply(alloc, &reply)?;
        let copy = Entry {
            session,
            event: copy_event(alloc, &event)?,
            reply: copy_reply(alloc, &reply)?,
        };
        let entry = Entry {
            session,
            event,
            reply,
        };
        self.extend(alloc, entry)?;
        Ok((answer, copy))
    }

    /// Adds an event with its reply to the history, unless that is full. A refusal changes nothing.
    pub fn step(
        &mut self,
        alloc: Global,
        session: SessionNo,
        event: Event<O, M>,
    ) -> Result<Reply<O, M>, StepRefusal>
        requires { May self.old.entries event }
        ensures { Steps O.cells_of M.cells_of self.old session event result self.new }
    {
        if self.is_full() {
            return Err(StepRefusal::Full {
                entries: self.parts.entries.len() as u32,
                cells: self.parts.cells,
            });
        }
        let reply = self.reply_to(alloc, &event)?;
        let answer = copy_reply(alloc, &reply)?;
        let entry = Entry {
            session,
            event,
            reply,
        };
        self.extend(alloc, entry)?;
        Ok(answer)
    }
}
