// The judgement of a text of certificates.
ghost use Rattle.std.specs.Prelude.{◌≡◌, ◌<◌, ◌-◌, ◌^◌, IfOk, length};
ghost use Rattle.cap_ops.specs.Derivations.{AreCosts};
ghost use Rattle.cap_judge.specs.Judged.{IsJudgement, the_costs};

use super::judgement::Judgement;
use cap_cert::{CertsFault, Verdict, read_certs, verify};
use cap_names::NoMemory;
use cap_ops::RuleCost;
use std::alloc::Global;

/// The costs of the 59 rules.
pub fn rule_costs() -> [RuleCost; 59]
    ensures value { result ≡ the_costs }
    ensures costs { AreCosts result }
{
    cap_rules::costs()
}

/// What is said of a text of certificates: refused where it is no such text, rejected with the first false line, else accepted.
pub fn judge(alloc: Global, bytes: &[u8]) -> Result<Judgement, NoMemory>
    requires { length bytes.now < 2 ^ 32 - 1 }
    ensures { IfOk result (IsJudgement bytes.now) }
{
    match read_certs(alloc, bytes) {
        Ok(certs) => match verify(&certs, &rule_costs()) {
            Verdict::Yes => Ok(Judgement::Accepted),
            Verdict::No { line } => Ok(Judgement::Rejected { line }),
        },
        Err(CertsFault::BadScript(bad)) => Ok(Judgement::Refused(bad)),
        Err(CertsFault::NoMemory) => Err(NoMemory),
    }
}
