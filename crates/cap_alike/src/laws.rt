// The laws of categories that are alike, each a call that does nothing.
ghost use Rattle.cap_alike.specs.Laws.{AlikePair, StructureGoes, NotionsGo, MeaningsGo};

/// Two categories that are alike. Nothing is called of it: laws are said of it.
pub trait AlikeCategories {
    /// The two, which of their objects and morphisms are paired, and that they are alike.
    ghost pair: { Self → AlikePair };
}

/// Of two categories that are alike, one is linear, additive or abelian exactly where the other is.
pub fn law_alike_structure<A: AlikeCategories>()
    ensures { (a : A) → StructureGoes (A.pair a) }
{}

/// Each universal property holds in one exactly where it holds of the partners in the other.
pub fn law_alike_notions<A: AlikeCategories>()
    ensures { (a : A) → NotionsGo (A.pair a) }
{}

/// An answer has the meaning of an operation in one exactly where its partner has it in the other.
pub fn law_alike_meanings<A: AlikeCategories>()
    ensures { (a : A) → MeaningsGo (A.pair a) }
{}
