// The reply of a state to an event.
ghost use Rattle.std.specs.Prelude.{◌≡◌, ◌<◌, ◌≤◌, IfOk, length};
ghost use Rattle.cap_ops.specs.Cells.{IsShortResult};
ghost use Rattle.cap_ops.specs.Ends.{IsOperation};
ghost use Rattle.cap_history.specs.May.{IsAsked, MayPut, IsShortReply, May};
ghost use Rattle.cap_history.specs.Replies.{RegisterReplies, FinaliseReplies, DeclareReplies, AskReplies, PutReplies, PlanReplies, Replies};

use crate::lookups::{kept_in, named_in};
use crate::state::CatState;
use crate::telling::told;
use cap_history::{Event, HeldPlan, Reply};
use cap_keys::copy_value;
use cap_names::{Handle, Name, NoMemory, OpId};
use cap_ops::{Datum, Key, PrimOut, choice_of};
use cap_plan::plan;
use cap_settle::settle;
use std::alloc::Global;

impl<O: Datum, M: Datum> CatState<O, M> {
    fn register_reply(&self, op: OpId) -> Reply<O, M>
        requires { IsOperation op.0 }
        ensures { RegisterReplies self.now.setup self.now.entries op result }
    {
        if let Some(finality) = self.parts.finality {
            return Reply::AlreadyFinal { at: finality.at };
        }
        let place = op.0 as usize - 1;
        match (self.offered.weights[place], self.parts.regs.weights[place]) {
            (None, _) => Reply::NotOffered,
            (Some(_), Some(weight)) => Reply::Twice { weight },
            (Some(_), None) => Reply::Done,
        }
    }

    fn finalise_reply(&self, alloc: Global) -> Result<Reply<O, M>, NoMemory>
        ensures { IfOk result (λ r. FinaliseReplies self.now.setup self.now.entries r) }
    {
        if let Some(finality) = self.parts.finality {
            return Ok(Reply::AlreadyFinal { at: finality.at });
        }
        let plan = plan(&self.parts.regs, &self.costs, self.kind);
        Ok(Reply::Final(HeldPlan::new(alloc, plan)?))
    }

    fn declare_reply(&self, alloc: Global, name: &Name, object: &O) -> Result<Reply<O, M>, NoMemory>
        ensures { IfOk result (λ r. DeclareReplies self.now.setup self.now.entries name.now object.now r) }
    {
        match named_in(&self.parts.names, name) {
            None => Ok(Reply::Object(Handle(self.parts.objects.len() as u32))),
            Some(handle) => {
                let known = &self.parts.objects[handle.0 as usize];
                if known.same(object) {
                    return Ok(Reply::Object(handle));
                }
                let object = known.copy(alloc)?;
                Ok(Reply::NameTaken { handle, object })
            }
        }
    }

    fn ask_reply(&self, alloc: Global, key: &Key<M>) -> Result<Reply<O, M>, NoMemory>
        requires { IsAsked key.now }
        ensures replies { IfOk result (λ r. AskReplies self.now.setup self.now.entries key.now r) }
        ensures short { IfOk result IsShortReply }
    {
        let Some(finality) = self.parts.finality else {
            return Ok(Reply::NotFinal);
        };
        match kept_in(&self.parts.cache, key) {
            None => Ok(Reply::Miss(choice_of(&finality.plan, key.op))),
            Some(value) => {
                let value = copy_value(alloc, value)?;
                Ok(Reply::Hit(told(alloc, &self.parts.objects, &[], value)?))
            }
        }
    }

    fn put_reply(
        &self,
        alloc: Global,
        key: &Key<M>,
        out: &PrimOut<O, M>,
    ) -> Result<Reply<O, M>, NoMemory>
        requires { MayPut self.now.entries key.now out.now }
        ensures replies { IfOk result (λ r. PutReplies self.now.setup self.now.entries key.now out.now r) }
        ensures short { IfOk result IsShortReply }
    {
        match kept_in(&self.parts.cache, key) {
            None => {
                let value = settle(alloc, self.parts.objects.len() as u32, &out.out)?;
                let fresh = out.fresh.as_slice();
                Ok(Reply::Kept(told(alloc, &self.parts.objects, fresh, value)?))
            }
            Some(value) => {
                let value = copy_value(alloc, value)?;
                Ok(Reply::Found(told(alloc, &self.parts.objects, &[], value)?))
            }
        }
    }

    fn plan_reply(&self, alloc: Global) -> Result<Reply<O, M>, NoMemory>
        ensures { IfOk result (λ r. PlanReplies self.now.setup self.now.entries r) }
    {
        match self.parts.finality {
            None => Ok(Reply::NotFinal),
            Some(finality) => Ok(Reply::PlanIs(HeldPlan::new(alloc, finality.plan)?)),
        }
    }

    /// The reply to an event.
    pub(crate) fn reply_to(
        &self,
        alloc: Global,
        event: &Event<O, M>,
    ) -> Result<Reply<O, M>, NoMemory>
        requires { May self.now.entries event.now }
        ensures replies { IfOk result (λ r. Replies self.now.setup self.now.entries event.now r) }
        ensures short { IfOk result IsShortReply }
    {
        match event {
            Event::Register { op, .. } => Ok(self.register_reply(*op)),
            Event::Finalise => self.finalise_reply(alloc),
            Event::Declare { name, object } => self.declare_reply(alloc, name, object),
            Event::Ask(key) => self.ask_reply(alloc, key),
            Event::Put { key, out } => self.put_reply(alloc, key, out),
            Event::PlanOf => self.plan_reply(alloc),
        }
    }
}
