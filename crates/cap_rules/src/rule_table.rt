// The rules as a set.
ghost use Rattle.std.specs.Prelude.{◌≡◌, [], ◌∷◌, IfOk};
ghost use Rattle.cap_rules.specs.Table.{AreCounted, AreTyped, marked_numbers, rule_table};

use crate::bodies::BODIES;
use crate::codes::decode;
use crate::cost_table::costs;
use cap_names::NoMemory;
use cap_terms::{Rule, RuleSet};
use std::alloc::Global;

/// The 59 derivation rules, in order of number. Those with a mark hold in abelian categories alone.
pub fn rules(alloc: Global) -> Result<RuleSet, NoMemory>
    ensures exact { IfOk result (λ set. set ≡ rule_table) }
    ensures typed { IfOk result AreTyped }
    ensures counted { IfOk result AreCounted }
    ensures marked { IfOk result (λ set. marked_numbers set ≡ 38 ∷ 46 ∷ 47 ∷ 48 ∷ 49 ∷ []) }
{
    let costs = costs();
    let mut rules = Vec::new(alloc);
    for (i, code) in BODIES.iter().enumerate() {
        let body = decode(alloc, *code)?;
        rules.push(Rule {
            cost: costs[i],
            body,
        })?;
    }
    Ok(RuleSet::new(rules))
}
