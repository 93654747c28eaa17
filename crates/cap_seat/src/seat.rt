// A session's place before a category.
ghost use Rattle.std.specs.Prelude.{◌≡◌, [], ◌≤◌, false, List, IfOk, OnErr};
ghost use Rattle.cap_ops.specs.Ends.{IsOperation};
ghost use Rattle.cap_rules.specs.Table.{rule_table};
ghost use Rattle.cap_legal.specs.Legal.{TrueEvent, Legal};
ghost use Rattle.cap_desk.specs.Books.{frame};
ghost use Rattle.cap_seat.specs.Memories.{remembering};
ghost use Rattle.cap_seat.specs.Seats.{Holds, Tries, Waits, SeatAsks, SeatPuts, IsPlain};

use crate::entering::{enter_try, push_reserved};
use crate::memory::Memory;
use crate::tries::{Tried, Try};
use cap_board::{Asked, PutAnswer};
use cap_desk::Desk;
use cap_history::{Event, Reply};
use cap_keys::copy_key;
use cap_names::{Handle, Items, Name, NoMemory, OpId, SessionNo};
use cap_ops::{Datum, Key, MOST_WEIGHT, Offer, PrimOut};
use std::alloc::Global;
use std::marker::Model;

/// A desk with the session that stands before it, the objects that it was told, what it tried, and whether it knows the plan.
/// Contracts see it as these, and the desk as its offer, what it has seen and its hand.
#[derive(Drop)]
pub struct Seat<C: Offer, D: Desk<C> + Drop> {
    pub(crate) desk: D,
    pub(crate) session: SessionNo,
    pub(crate) known: Vec<Items<(Handle, C::O)>>,
    pub(crate) tries: Vec<Try<C::O, C::M>>,
    pub(crate) knows: bool,
}

impl<C: Offer, D: Desk<C> + Drop> Model for Seat<C, D> {
    ghost use Rattle.std.specs.List.{flat_map};
    ghost use Rattle.cap_seat.specs.Seats.{Sitting};

    ghost Value = { Sitting C C.O C.M };

    ghost view = { λ s. record { offer = D.offer s.desk; session = s.session; seen = D.seen s.desk; known = flat_map (λ told. told) s.known.items; tries = s.tries.items; knows = s.knows; hand = D.hand s.desk } };
}

impl<C: Offer, D: Desk<C> + Drop> Seat<C, D> {
    /// The seat of a session that was told nothing yet, before this desk.
    pub fn new(alloc: Global, desk: D, session: SessionNo) -> Seat<C, D>
        requires { Legal (frame (C.offered (D.offer desk)) C.O.cells_of C.M.cells_of) (D.seen desk) }
        ensures is { result ≡ record { offer = D.offer desk; session = session; seen = D.seen desk; known = []; tries = []; knows = false; hand = D.hand desk } }
        ensures holds { Holds (C.offered (D.offer desk)) C.O.cells_of C.M.cells_of result }
    {
        Seat {
            desk,
            session,
            known: Vec::new(alloc),
            tries: Vec::new(alloc),
            knows: false,
        }
    }

    /// The desk.
    pub fn into_desk(self) -> D
        ensures offer { D.offer result ≡ self.offer }
        ensures seen { D.seen result ≡ self.seen }
        ensures hand { D.hand result ≡ self.hand }
    {
        self.desk
    }

    /// The desk, and what was told here.
    pub fn into_parts(self) -> (D, Memory<C::O>)
        ensures offer { D.offer result.0 ≡ self.offer }
        ensures seen { D.seen result.0 ≡ self.seen }
        ensures hand { D.hand result.0 ≡ self.hand }
        ensures memory { result.1 ≡ record { known = self.known; knows = self.knows } }
    {
        let memory = Memory {
            known: self.known,
            knows: self.knows,
        };
        (self.desk, memory)
    }

    /// The seat of a session that remembers this, before this desk.
    pub fn with_memory(
        alloc: Global,
        desk: D,
        session: SessionNo,
        memory: Memory<C::O>,
    ) -> Seat<C, D>
        requires { Holds (C.offered (D.offer desk)) C.O.cells_of C.M.cells_of (remembering (D.offer desk) session (D.seen desk) memory (D.hand desk)) }
        ensures is { result ≡ remembering (D.offer desk) session (D.seen desk) memory (D.hand desk) }
    {
        Seat {
            desk,
            session,
            known: memory.known,
            tries: Vec::new(alloc),
            knows: memory.knows,
        }
    }

    /// From now on the events are those of this session, which knows what was told before.
    pub fn change_session(&mut self, session: SessionNo)
        ensures { self.new ≡ record self.old { session = session } }
    {
        self.session = session;
    }

    /// What was tried since this was last called, in order.
    pub fn take_tries(&mut self, alloc: Global) -> Vec<Try<C::O, C::M>>
        ensures tries { result.items ≡ self.old.tries }
        ensures rest { self.new ≡ record self.old { tries = [] } }
    {
        std::mem::replace(&mut self.tries, Vec::new(alloc))
    }

    /// Tries an event whose reply tells no objects.
    fn try_plain(
        &mut self,
        alloc: Global,
        event: Event<C::O, C::M>,
    ) -> Result<Tried<C::O, C::M>, NoMemory>
        requires plain { IsPlain event }
        requires is_true { TrueEvent (C.offered self.old.offer) rule_table self.old.seen event }
        requires legal { Legal (frame (C.offered self.old.offer) C.O.cells_of C.M.cells_of) self.old.seen }
        ensures legal { Legal (frame (C.offered self.old.offer) C.O.cells_of C.M.cells_of) self.new.seen }
        ensures tries { IfOk result (λ a. Tries (C.offered self.old.offer) C.O.cells_of C.M.cells_of D.others self.old event a self.new) }
        ensures err { OnErr result (Waits D.others self.old self.new) }
    {
        enter_try(alloc, &mut self.desk, self.session, &mut self.tries, event)
    }

    /// Makes an event whose reply tells no objects.
    fn make_plain(
        &mut self,
        alloc: Global,
        event: Event<C::O, C::M>,
    ) -> Result<Tried<C::O, C::M>, NoMemory>
        requires plain { IsPlain event }
        requires is_true { TrueEvent (C.offered self.old.offer) rule_table self.old.seen event }
        requires holds { Holds (C.offered self.old.offer) C.O.cells_of C.M.cells_of self.old }
        ensures holds { Holds (C.offered self.new.offer) C.O.cells_of C.M.cells_of self.new }
        ensures tries { IfOk result (λ a. Tries (C.offered self.old.offer) C.O.cells_of C.M.cells_of D.others self.old event a self.new) }
        ensures err { OnErr result (Waits D.others self.old self.new) }
    {
        self.try_plain(alloc, event)
    }

    /// Registers a primitive with a weight from 1 to 1,000,000.
    pub fn register(
        &mut self,
        alloc: Global,
        op: OpId,
        weight: u32,
    ) -> Result<Tried<C::O, C::M>, NoMemory>
        requires operation { IsOperation op.0 }
        requires from { 1 ≤ weight }
        requires to { weight ≤ MOST_WEIGHT }
        requires holds { Holds (C.offered self.old.offer) C.O.cells_of C.M.cells_of self.old }
        ensures holds { Holds (C.offered self.new.offer) C.O.cells_of C.M.cells_of self.new }
        ensures tries { IfOk result (λ a. Tries (C.offered self.old.offer) C.O.cells_of C.M.cells_of D.others self.old (Event.Register op weight) a self.new) }
        ensures err { OnErr result (Waits D.others self.old self.new) }
    {
        self.make_plain(alloc, Event::Register { op, weight })
    }

    /// Ends registering.
    pub fn finalise(&mut self, alloc: Global) -> Result<Tried<C::O, C::M>, NoMemory>
        requires { Holds (C.offered self.old.offer) C.O.cells_of C.M.cells_of self.old }
        ensures holds { Holds (C.offered self.new.offer) C.O.cells_of C.M.cells_of self.new }
        ensures tries { IfOk result (λ a. Tries (C.offered self.old.offer) C.O.cells_of C.M.cells_of D.others self.old Event.Finalise a self.new) }
        ensures err { OnErr result (Waits D.others self.old self.new) }
    {
        self.make_plain(alloc, Event::Finalise)
    }

    /// Asks for the plan.
    pub fn plan(&mut self, alloc: Global) -> Result<Tried<C::O, C::M>, NoMemory>
        requires { Holds (C.offered self.old.offer) C.O.cells_of C.M.cells_of self.old }
        ensures holds { Holds (C.offered self.new.offer) C.O.cells_of C.M.cells_of self.new }
        ensures tries { IfOk result (λ a. Tries (C.offered self.old.offer) C.O.cells_of C.M.cells_of D.others self.old Event.PlanOf a self.new) }
        ensures err { OnErr result (Waits D.others self.old self.new) }
    {
        self.make_plain(alloc, Event::PlanOf)
    }

    /// Declares an object.
    fn try_declare(
        &mut self,
        alloc: Global,
        name: Name,
        object: C::O,
    ) -> Result<Tried<C::O, C::M>, NoMemory>
        requires is_object { (C.offered self.old.offer).category.is_object object }
        requires legal { Legal (frame (C.offered self.old.offer) C.O.cells_of C.M.cells_of) self.old.seen }
        ensures legal { Legal (frame (C.offered self.old.offer) C.O.cells_of C.M.cells_of) self.new.seen }
        ensures tries { IfOk result (λ a. Tries (C.offered self.old.offer) C.O.cells_of C.M.cells_of D.others self.old (Event.Declare name object) a self.new) }
        ensures err { OnErr result (Waits D.others self.old self.new) }
    {
        self.known.reserve(1)?;
        let mut told = Vec::new(alloc);
        told.reserve(1)?;
        let copy = object.copy(alloc)?;
        let event = Event::Declare { name, object };
        match enter_try(alloc, &mut self.desk, self.session, &mut self.tries, event)? {
            Tried::Replied(Reply::Object(handle)) => {
                push_reserved(&mut told, (handle, copy));
                push_reserved(&mut self.known, Items::new(told));
                Ok(Tried::Replied(Reply::Object(handle)))
            }
            Tried::Replied(Reply::NameTaken { handle, object }) => {
                Ok(Tried::Replied(Reply::NameTaken { handle, object }))
            }
            Tried::Replied(_) => unreachable!(),
            Tried::Full { entries, cells } => Ok(Tried::Full { entries, cells }),
        }
    }

    /// Gives an object of the category a name.
    pub fn declare(
        &mut self,
        alloc: Global,
        name: Name,
        object: C::O,
    ) -> Result<Tried<C::O, C::M>, NoMemory>
        requires is_object { (C.offered self.old.offer).category.is_object object }
        requires holds { Holds (C.offered self.old.offer) C.O.cells_of C.M.cells_of self.old }
        ensures holds { Holds (C.offered self.new.offer) C.O.cells_of C.M.cells_of self.new }
        ensures tries { IfOk result (λ a. Tries (C.offered self.old.offer) C.O.cells_of C.M.cells_of D.others self.old (Event.Declare name object) a self.new) }
        ensures err { OnErr result (Waits D.others self.old self.new) }
    {
        self.try_declare(alloc, name, object)
    }

    /// Asks for a key.
    pub(crate) fn try_ask(
        &mut self,
        alloc: Global,
        key: &Key<C::M>,
    ) -> Result<Asked<C::M>, NoMemory>
        requires is_true { TrueEvent (C.offered self.old.offer) rule_table self.old.seen (Event.Ask key.now) }
        requires legal { Legal (frame (C.offered self.old.offer) C.O.cells_of C.M.cells_of) self.old.seen }
        ensures legal { Legal (frame (C.offered self.old.offer) C.O.cells_of C.M.cells_of) self.new.seen }
        ensures asks { IfOk result (λ a. SeatAsks (C.offered self.old.offer) C.O.cells_of C.M.cells_of D.others self.old key.now a self.new) }
        ensures err { OnErr result (Waits D.others self.old self.new) }
    {
        self.known.reserve(1)?;
        let event = Event::Ask(copy_key(alloc, key)?);
        match enter_try(alloc, &mut self.desk, self.session, &mut self.tries, event)? {
            Tried::Replied(Reply::Hit(told)) => {
                push_reserved(&mut self.known, told.objects);
                self.knows = true;
                Ok(Asked::Hit(told.value))
            }
            Tried::Replied(Reply::Miss(choice)) => {
                self.knows = true;
                Ok(Asked::Miss(choice))
            }
            Tried::Replied(Reply::NotFinal) => Ok(Asked::NotFinal),
            Tried::Replied(_) => unreachable!(),
            Tried::Full { entries, cells } => Ok(Asked::Full { entries, cells }),
        }
    }

    /// Puts the result of a key.
    pub(crate) fn try_put(
        &mut self,
        alloc: Global,
        key: &Key<C::M>,
        out: PrimOut<C::O, C::M>,
    ) -> Result<PutAnswer<C::M>, NoMemory>
        requires is_true { TrueEvent (C.offered self.old.offer) rule_table self.old.seen (Event.Put key.now out) }
        requires legal { Legal (frame (C.offered self.old.offer) C.O.cells_of C.M.cells_of) self.old.seen }
        ensures legal { Legal (frame (C.offered self.old.offer) C.O.cells_of C.M.cells_of) self.new.seen }
        ensures puts { IfOk result (λ a. SeatPuts (C.offered self.old.offer) C.O.cells_of C.M.cells_of D.others self.old key.now out a self.new) }
        ensures err { OnErr result (Waits D.others self.old self.new) }
    {
        self.known.reserve(1)?;
        let event = Event::Put {
            key: copy_key(alloc, key)?,
            out,
        };
        match enter_try(alloc, &mut self.desk, self.session, &mut self.tries, event)? {
            Tried::Replied(Reply::Kept(told)) => {
                push_reserved(&mut self.known, told.objects);
                Ok(PutAnswer::Entry(told.value))
            }
            Tried::Replied(Reply::Found(told)) => {
                push_reserved(&mut self.known, told.objects);
                Ok(PutAnswer::Entry(told.value))
            }
            Tried::Replied(_) => unreachable!(),
            Tried::Full { entries, cells } => Ok(PutAnswer::Full { entries, cells }),
        }
    }
}
