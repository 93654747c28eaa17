// Objects and morphisms of a Freyd category, as data.
ghost use Rattle.std.specs.Prelude.{◌≡◌};

/// An object: a morphism r→a below, which gives relations among the generators a. Where morphisms are matrices, its rows are relations.
#[derive(Debug, Drop)]
pub struct Presentation<M> {
    pub relation: M,
}

impl<M> Presentation<M> {
    /// The relation.
    pub fn relation(&self) -> &M
        ensures { result.now ≡ self.now.relation }
    {
        &self.relation
    }
}

/// A morphism: the objects that it goes from and to, and a morphism below between the targets of their relations.
#[derive(Debug, Drop)]
pub struct PresentationMor<M> {
    pub from: Presentation<M>,
    pub to: Presentation<M>,
    pub alpha: M,
}

impl<M> PresentationMor<M> {
    /// The morphism below.
    pub fn alpha(&self) -> &M
        ensures { result.now ≡ self.now.alpha }
    {
        &self.alpha
    }
}
