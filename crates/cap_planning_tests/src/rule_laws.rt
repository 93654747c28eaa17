// The soundness of the rules at concrete categories: the residues modulo a prime, and the category with one morphism between any two objects.
use cap_laws::examples::{NullCategory, Scalars};
use cap_rule_laws::laws::{law_meanings_fit, sound_abelian, sound_linear};

#[test]
fn soundness_is_taken_by_calls(_rt: HostRuntime) {
    sound_linear::<Scalars>();
    sound_linear::<NullCategory>();
    sound_abelian::<NullCategory>();
    law_meanings_fit::<Scalars>();
}
