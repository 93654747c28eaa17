// Relations between paths.
use cap_names::Items;

/// A relation: the sum of its terms, each a coefficient and the arrows of a path, is to be 0.
#[derive(Debug, Drop)]
pub struct Relation {
    pub terms: Items<(u16, Items<u32>)>,
}
