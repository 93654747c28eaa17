// The soundness of the rules. These functions run nothing: a caller learns the law from the contract.
ghost use Rattle.cap_rule_laws.specs.Soundness.{AllSound, AllUnmarkedSound};
ghost use Rattle.cap_rule_laws.specs.SoundnessFits.{MeaningFits};
ghost use Rattle.cap_rules.specs.Table.{rule_table};

use cap_laws::{Abelian, Cat, Preadditive};

/// In every linear category each rule without the mark A is sound: where each call's answer has its meaning, so has
/// the body's.
pub fn sound_linear<C: Preadditive>()
    ensures { (c : C) → AllUnmarkedSound (C.category c) rule_table }
{}

/// In every abelian category each of the 59 rules is sound.
pub fn sound_abelian<C: Abelian>()
    ensures { (c : C) → AllSound (C.category c) rule_table }
{}

/// On arguments that fit an operation, an answer that has the operation's meaning has its sort and ends.
pub fn law_meanings_fit<C: Cat>()
    ensures { (c : C) → MeaningFits (C.category c) }
{}
