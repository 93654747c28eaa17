// Whole scripts, each session in a thread of its own.
ghost use Rattle.std.specs.Prelude.{◌≡◌, [], IfOk};
ghost use Rattle.cap_check.specs.Unbuilt.{unbuilt};
ghost use Rattle.cap_session.specs.Reports.{IsRunReport};

use crate::jobs::{Common, run_jobs, seat_all};
use crate::plain::at_first;
use crate::prelude::run_parts;
use crate::reports::report;
use crate::sessions::hand_over;
use crate::shares::{close_all, join_all, make_jobs, share_all};
use cap_check::Checked;
use cap_data::{MorData, ObjData};
use cap_fitting::{law_forms_fit, law_literals_fit};
use cap_io::Gate;
use cap_names::{NoMemory, SessionNo};
use cap_report::Report;
use cap_right_laws::law_accounts_are_right;
use cap_rules::rules;
use cap_thread_laws::law_runs_at_once_account;
use std::alloc::Global;
use std::sync::Wait;
use std::thread::Threads;

/// Runs a script without faults whose kinds are built: the prelude, and then its sessions, each in a thread of its own. Each
/// event is made in its category's turn. The report accounts for the script, and each history is right.
pub fn run_sessions<R: Threads + Wait + Sync, G: Gate>(
    rt: &R,
    alloc: Global,
    script: &Checked,
    gate: &G,
) -> Result<Report<ObjData, MorData>, NoMemory>
    requires { unbuilt script.now.prelude ≡ [] }
    ensures { IfOk result (λ r. IsRunReport script.now r) }
{
    let rules = rules(alloc)?;
    let mut course = at_first(alloc);
    run_parts(alloc, &rules, &mut course, script.prelude(), gate)?;
    let mut traces = Vec::new(alloc);
    traces.push(hand_over(alloc, &mut course, SessionNo(0)))?;
    let sessions = script.sessions();
    let mut categories = share_all(alloc, course.seats, sessions.len() as u32 + 1)?;
    let jobs = make_jobs(alloc, categories.as_mut_slice(), sessions)?;
    let seated = seat_all(rt, alloc, gate, categories.as_slice(), jobs)?;
    let common = Common {
        rules: &rules,
        standing: &course.standing,
        sessions,
    };
    let ended = run_jobs(rt, alloc, gate, common, seated)?;
    let traces = join_all(categories.as_mut_slice(), ended, traces)?;
    let seats = close_all(alloc, categories, gate)?;
    report(alloc, seats, traces)
}
