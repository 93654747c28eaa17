// Whole scripts on one thread.
ghost use Rattle.std.specs.Prelude.{◌≡◌, [], IfOk};
ghost use Rattle.cap_check.specs.Unbuilt.{unbuilt};
ghost use Rattle.cap_session.specs.Preludes.{IsAtFirst};
ghost use Rattle.cap_session.specs.Reports.{IsPlainReport};

use crate::course::Course;
use crate::prelude::{OwnSeat, run_parts};
use crate::reports::report;
use crate::sessions::{hand_over, run_one_by_one};
use cap_check::Checked;
use cap_data::{MorData, ObjData};
use cap_fitting::{law_forms_fit, law_literals_fit};
use cap_io::Gate;
use cap_names::{Items, NoMemory, SessionNo};
use cap_one_report::law_runs_are_in_turn;
use cap_report::{Report, Situation};
use cap_right_laws::law_accounts_are_right;
use cap_rules::rules;
use std::alloc::Global;

/// A run in which nothing has happened.
pub(crate) fn at_first<'g, G: Gate>(alloc: Global) -> Course<OwnSeat<'g, G>>
    ensures { IsAtFirst result }
{
    Course {
        standing: Situation {
            tables: Items::new(Vec::new(alloc)),
            categories: Items::new(Vec::new(alloc)),
            bound: Items::new(Vec::new(alloc)),
        },
        seats: Vec::new(alloc),
        events: Vec::new(alloc),
        done: Vec::new(alloc),
    }
}

/// Runs a script without faults whose kinds are built: the prelude, and then its sessions one after another. The report
/// accounts for the script, each history is right, and in each the sessions stand one after another.
pub fn run_plain<G: Gate>(
    alloc: Global,
    script: &Checked,
    gate: &G,
) -> Result<Report<ObjData, MorData>, NoMemory>
    requires { unbuilt script.now.prelude ≡ [] }
    ensures { IfOk result (λ r. IsPlainReport script.now r) }
{
    let rules = rules(alloc)?;
    let mut course = at_first(alloc);
    run_parts(alloc, &rules, &mut course, script.prelude(), gate)?;
    let mut traces = Vec::new(alloc);
    traces.push(hand_over(alloc, &mut course, SessionNo(0)))?;
    let sessions = script.sessions();
    run_one_by_one(alloc, &rules, &mut course, sessions, &mut traces, gate)?;
    report(alloc, course.seats, traces)
}
