// The board that is a list.
ghost use Rattle.std.specs.Prelude.{◌≡◌, ◌↔◌, ◌∷◌, [], ◌++◌, ◌+◌, ◌^◌, ◌<◌, ◌≤◌, length, Err, IfOk, OnOk, OnErr, MatchBool};
ghost use Rattle.cap_ops.specs.Derivations.{ArePlannable, IsPlan, means};
ghost use Rattle.cap_ops.specs.Ends.{IsOperation};
ghost use Rattle.cap_ops.specs.Primitives.{AreOffered};
ghost use Rattle.cap_ops.specs.declared.plans.Plan.{Plan};
ghost use Rattle.cap_run.specs.Plans.{costs_of};
ghost use Rattle.cap_settle.specs.Settled.{settled, OutFits};
ghost use Rattle.cap_list_board.specs.Lists.{empty_lists, IsEntryAt, IsKept};
ghost use Rattle.cap_list_board.specs.Answers.{AskAnswer, ListAsks, HasRoom, HasNoRoom, with_entry, ListPuts};
ghost use Rattle.cap_list_board.specs.Holds.{Holds};
ghost use Rattle.cap_list_board.specs.declared.entries.Seen.TheVariants.{Put as seen_put};

use crate::copies::copy_answer;
use crate::entries::{Entry, Seen};
use crate::places::{place_of, push_reserved};
use crate::refusals::DeclareRefusal;
use cap_board::{Asked, PutAnswer};
use cap_keys::{copy_key, copy_objects, copy_value};
use cap_names::{Handle, NoMemory};
use cap_ops::{Key, Offer, Plan, PrimOut, Regs, RuleCost, Value, choice_of};
use cap_plan::plan;
use cap_settle::settle;
use cap_terms::RuleSet;
use std::alloc::Global;
use std::marker::Model;

/// A board that keeps its objects, its entries and its asks and puts in lists. Contracts see it as these lists.
#[derive(Drop)]
pub struct ListBoard<C: Offer> {
    pub(crate) offer: C,
    rules: RuleSet,
    limit: u32,
    plan: Option<Plan>,
    pub(crate) objects: Vec<C::O>,
    entries: Vec<Entry<C::M>>,
    seen: Vec<Seen<C::O, C::M>>,
}

impl<C: Offer> Model for ListBoard<C> {
    ghost use Rattle.cap_list_board.specs.Lists.{Lists};

    ghost Value = { Lists C C.O C.M };

    ghost view = { λ b. record { offer = b.offer; rules = b.rules; limit = b.limit; plan = b.plan; objects = b.objects.items; entries = b.entries.items; seen = b.seen.items } };
}

impl<C: Offer> ListBoard<C> {
    /// A board of an offer that answers by these rules and keeps at most so many entries. It isn't final.
    pub fn new(alloc: Global, offer: C, rules: RuleSet, limit: u32) -> ListBoard<C>
        ensures is { result ≡ empty_lists offer rules limit }
        ensures holds { Holds (C.offered offer) result }
    {
        ListBoard {
            offer,
            rules,
            limit,
            plan: None,
            objects: Vec::new(alloc),
            entries: Vec::new(alloc),
            seen: Vec::new(alloc),
        }
    }

    /// Makes the board final, with the plan of these registrations and of the costs of its rules.
    pub fn finalise(&mut self, regs: &Regs, costs: &[RuleCost])
        requires open { self.old.plan ≡ None }
        requires costs { costs.now ≡ costs_of self.old.rules }
        requires plannable { ArePlannable regs.now.weights costs.now }
        requires offered { AreOffered (C.offered self.old.offer) regs.now.weights }
        requires holds { Holds (C.offered self.old.offer) self.old }
        ensures holds { Holds (C.offered self.new.offer) self.new }
        ensures plan { (p : Plan) × (self.new ≡ record self.old { plan = Some p }) × IsPlan (means regs.now costs.now (C.offered self.old.offer).kind) p }
    {
        let kind = self.offer.kind();
        self.plan = Some(plan(regs, costs, kind));
    }

    /// Tells an object of the category, and answers its handle, which is the next, where one is left.
    pub fn declare(&mut self, object: C::O) -> Result<Handle, DeclareRefusal>
        requires is_object { (C.offered self.old.offer).category.is_object object }
        requires holds { Holds (C.offered self.old.offer) self.old }
        ensures holds { Holds (C.offered self.new.offer) self.new }
        ensures told { IfOk result (λ h. (h.0 ≡ length self.old.objects) × (self.new ≡ record self.old { objects = self.old.objects ++ object ∷ [] })) }
        ensures err { OnErr result (self.new ≡ self.old) }
        ensures no_handle { (result ≡ Err DeclareRefusal.NoHandle) ↔ (2 ^ 32 ≤ length self.old.objects + 1) }
    {
        let place = self.objects().len();
        if place >= 4_294_967_295 {
            return Err(DeclareRefusal::NoHandle);
        }
        match self.add_object(object) {
            Ok(()) => Ok(Handle(place as u32)),
            Err(NoMemory) => Err(DeclareRefusal::NoMemory),
        }
    }

    /// Adds an object to those that were told.
    fn add_object(&mut self, object: C::O) -> Result<(), NoMemory>
        ensures ok { OnOk result (self.new ≡ record self.old { objects = self.old.objects ++ object ∷ [] }) }
        ensures err { OnErr result (self.new ≡ self.old) }
    {
        self.objects.push(object)?;
        Ok(())
    }

    /// The objects told, in order of handle.
    pub fn objects(&self) -> &[C::O]
        ensures { result.now ≡ self.now.objects }
    {
        self.objects.as_slice()
    }

    /// The kept entries, in order of their puts.
    pub fn entries(&self) -> &[Entry<C::M>]
        ensures { result.now ≡ self.now.entries }
    {
        self.entries.as_slice()
    }

    /// The asks and puts with their answers, in order.
    pub fn seen(&self) -> &[Seen<C::O, C::M>]
        ensures { result.now ≡ self.now.seen }
    {
        self.seen.as_slice()
    }

    /// The value that is kept at a place.
    fn value_at(
        &self,
        alloc: Global,
        place: usize,
        key: &Key<C::M>,
    ) -> Result<Value<C::M>, NoMemory>
        requires { IsEntryAt self.now.entries key.now place }
        ensures { IfOk result (λ v. IsKept self.now.entries key.now v) }
    {
        copy_value(alloc, &self.entries[place].value)
    }

    /// How many entries are kept.
    fn count(&self) -> u32
        requires { length self.now.entries ≤ self.now.limit }
        ensures { result ≡ length self.now.entries }
    {
        let _limit = self.limit;
        self.entries.len() as u32
    }

    /// What the lists answer to an ask.
    fn answer_of(&self, alloc: Global, key: &Key<C::M>) -> Result<Asked<C::M>, NoMemory>
        requires operation { IsOperation key.now.op.0 }
        requires few { length self.now.entries ≤ self.now.limit }
        ensures { IfOk result (λ a. AskAnswer self.now key.now a) }
    {
        if let Some(place) = place_of(self.entries(), key) {
            return Ok(Asked::Hit(self.value_at(alloc, place, key)?));
        }
        match self.plan {
            None => Ok(Asked::NotFinal),
            Some(plan) => {
                if self.entries.len() < self.limit as usize {
                    Ok(Asked::Miss(choice_of(&plan, key.op)))
                } else {
                    Ok(Asked::Full {
                        entries: self.count(),
                        cells: 0,
                    })
                }
            }
        }
    }

    /// Answers an ask, and adds it with its answer.
    pub(crate) fn answer_ask(
        &mut self,
        alloc: Global,
        key: &Key<C::M>,
    ) -> Result<Asked<C::M>, NoMemory>
        requires operation { IsOperation key.now.op.0 }
        requires few { length self.old.entries ≤ self.old.limit }
        ensures ok { IfOk result (λ a. ListAsks self.old key.now a self.new) }
        ensures err { OnErr result (self.new ≡ self.old) }
    {
        let answer = self.answer_of(alloc, key)?;
        let seen = Seen::Ask {
            key: copy_key(alloc, key)?,
            answer: copy_answer(alloc, &answer)?,
        };
        self.seen.push(seen)?;
        Ok(answer)
    }

    /// Whether one more entry with these new objects may be kept.
    fn has_room(&self, out: &PrimOut<C::O, C::M>) -> bool
        requires handles { length self.now.objects < 2 ^ 32 }
        ensures { MatchBool result (HasRoom self.now out.now) (HasNoRoom self.now out.now) }
    {
        if self.entries.len() >= self.limit as usize {
            return false;
        }
        out.fresh.len() < 4_294_967_296 - self.objects.len()
    }

    /// Adds a put with its answer.
    fn add_put(
        &mut self,
        alloc: Global,
        key: &Key<C::M>,
        out: PrimOut<C::O, C::M>,
        answer: PutAnswer<C::M>,
    ) -> Result<(), NoMemory>
        ensures ok { OnOk result (self.new ≡ record self.old { seen = self.old.seen ++ seen_put key.now out answer ∷ [] }) }
        ensures err { OnErr result (self.new ≡ self.old) }
    {
        let key = copy_key(alloc, key)?;
        self.seen.push(Seen::Put { key, out, answer })?;
        Ok(())
    }

    /// Adds objects, an entry and a put; without memory for all of them none.
    fn add_all(
        &mut self,
        fresh: Vec<C::O>,
        entry: Entry<C::M>,
        put: Seen<C::O, C::M>,
    ) -> Result<(), NoMemory>
        ensures ok { OnOk result (self.new ≡ record self.old { objects = self.old.objects ++ fresh.items; entries = self.old.entries ++ entry ∷ []; seen = self.old.seen ++ put ∷ [] }) }
        ensures err { OnErr result (self.new ≡ self.old) }
    {
        let mut fresh = fresh;
        self.entries.reserve(1)?;
        self.seen.reserve(1)?;
        self.objects.append(&mut fresh)?;
        push_reserved(&mut self.entries, entry);
        push_reserved(&mut self.seen, put);
        Ok(())
    }

    /// Keeps the result of a new key, whose new objects get the next handles, and adds its put.
    fn keep(
        &mut self,
        alloc: Global,
        key: &Key<C::M>,
        out: PrimOut<C::O, C::M>,
    ) -> Result<PutAnswer<C::M>, NoMemory>
        requires room { HasRoom self.old out }
        requires fits { OutFits (length self.old.objects) out.out }
        ensures ok { IfOk result (λ a. (a ≡ PutAnswer.Entry (settled (length self.old.objects) out.out)) × (self.new ≡ record (with_entry self.old key.now out) { seen = self.old.seen ++ seen_put key.now out a ∷ [] })) }
        ensures err { OnErr result (self.new ≡ self.old) }
    {
        let value = settle(alloc, self.objects.len() as u32, &out.out)?;
        let fresh = copy_objects(alloc, out.fresh.as_slice())?;
        let entry = Entry {
            key: copy_key(alloc, key)?,
            value: copy_value(alloc, &value)?,
        };
        let put = Seen::Put {
            key: copy_key(alloc, key)?,
            out,
            answer: PutAnswer::Entry(copy_value(alloc, &value)?),
        };
        self.add_all(fresh, entry, put)?;
        Ok(PutAnswer::Entry(value))
    }

    /// Answers a put whose key is kept at this place.
    fn found(
        &mut self,
        alloc: Global,
        place: usize,
        key: &Key<C::M>,
        out: PrimOut<C::O, C::M>,
    ) -> Result<PutAnswer<C::M>, NoMemory>
        requires here { IsEntryAt self.old.entries key.now place }
        ensures ok { IfOk result (λ a. ListPuts self.old key.now out a self.new) }
        ensures err { OnErr result (self.new ≡ self.old) }
    {
        let value = self.value_at(alloc, place, key)?;
        let answer = PutAnswer::Entry(copy_value(alloc, &value)?);
        self.add_put(alloc, key, out, answer)?;
        Ok(PutAnswer::Entry(value))
    }

    /// Answers a put, and adds it with its answer.
    pub(crate) fn answer_put(
        &mut self,
        alloc: Global,
        key: &Key<C::M>,
        out: PrimOut<C::O, C::M>,
    ) -> Result<PutAnswer<C::M>, NoMemory>
        requires handles { length self.old.objects < 2 ^ 32 }
        requires few { length self.old.entries ≤ self.old.limit }
        requires fits { length self.old.objects + length out.fresh < 2 ^ 32 → OutFits (length self.old.objects) out.out }
        ensures ok { IfOk result (λ a. ListPuts self.old key.now out a self.new) }
        ensures err { OnErr result (self.new ≡ self.old) }
    {
        if let Some(place) = place_of(self.entries(), key) {
            return self.found(alloc, place, key, out);
        }
        if self.has_room(&out) {
            return self.keep(alloc, key, out);
        }
        let entries = self.count();
        self.add_put(alloc, key, out, PutAnswer::Full { entries, cells: 0 })?;
        Ok(PutAnswer::Full { entries, cells: 0 })
    }
}
