// The law of plain evaluation. This function runs nothing: a caller learns the law from the contract.
ghost use Rattle.cap_run_laws.specs.Meant.{RunMeans};

use cap_ops::Offer;

/// By a true plan of sound rules, the value of plain evaluation has the operation's meaning.
pub fn law_run_means<C: Offer>()
    ensures { (c : C) → RunMeans (C.offered c) }
{}
