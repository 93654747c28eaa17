// A plan in a reply.
ghost use Rattle.std.specs.Prelude.{◌≡◌, IfOk};

use cap_names::NoMemory;
use cap_ops::Plan;
use std::alloc::Global;
use std::marker::Model;

/// A plan in memory of its own, so that a reply is small. Contracts see it as the plan.
#[derive(Debug, Drop)]
pub struct HeldPlan {
    plan: Box<Plan>,
}

impl Model for HeldPlan {
    ghost use Rattle.cap_ops.specs.declared.plans.Plan.{Plan};

    ghost Value = { Plan };

    ghost view = { λ h. h.plan.value };
}

impl HeldPlan {
    /// This plan, held.
    pub fn new(alloc: Global, plan: Plan) -> Result<HeldPlan, NoMemory>
        ensures { IfOk result (λ h. h ≡ plan) }
    {
        Ok(HeldPlan {
            plan: Box::new(alloc, plan)?,
        })
    }

    /// The plan.
    pub fn plan(&self) -> Plan
        ensures { result ≡ self.now }
    {
        *self.plan
    }
}
