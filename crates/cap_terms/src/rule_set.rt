// Sets of rules.
use crate::body::Rule;
use cap_names::RuleNo;
use std::marker::Model;

/// Derivation rules with the numbers 1, 2, .. in order.
#[derive(Debug, Drop)]
pub struct RuleSet {
    rules: Vec<Rule>,
}

impl Model for RuleSet {
    ghost use Rattle.std.specs.Prelude.{List};
    ghost use Rattle.cap_terms.specs.declared.body.Rule.{Rule};

    ghost Value = { List Rule };

    ghost use Rattle.cap_terms.specs.Rules.{AreNumbered};

    ghost view = { λ s. s.rules.items };

    ghost invariant = { λ s. AreNumbered s.rules.items };
}

impl RuleSet {
    ghost use Rattle.std.specs.Prelude.{◌≡◌, ◌≤◌, ◌-◌, length, Some, slice_get};
    ghost use Rattle.cap_terms.specs.Rules.{AreNumbered};

    /// The set of these rules.
    pub fn new(rules: Vec<Rule>) -> RuleSet
        requires { AreNumbered rules.items }
        ensures { result ≡ rules.items }
    {
        RuleSet { rules }
    }

    /// The rule with a number.
    pub fn rule(&self, no: RuleNo) -> &Rule
        requires { (1 ≤ no.0) × (no.0 ≤ length self.now) }
        ensures found { slice_get self.now (no.0 - 1) ≡ Some result.now }
        ensures numbered { result.now.cost.no ≡ no }
    {
        &self.rules[no.0 as usize - 1]
    }
}
