// Literals of objects and morphisms, with table objects and basis elements as numbers from 0.
use crate::items::Items;

/// An entry of a matrix literal: an integer, or the coefficients of a morphism in the basis of its ends.
#[derive(Debug, Clone, PartialEq, Eq, Drop)]
pub enum EntryLit {
    Int(i64),
    Coeffs(Items<i64>),
}

/// A matrix literal: its rows. One without rows stands for any matrix without rows or without columns.
#[derive(Debug, Clone, PartialEq, Eq, Drop)]
pub struct MatLit {
    pub rows: Items<Items<EntryLit>>,
}

/// An object literal: a dimension (`vec`), a list of table objects (`add`), a relation between two lists (`freyd`),
/// or the dimensions at the table objects with matrices at basis elements (`rep`).
#[derive(Debug, Clone, PartialEq, Eq, Drop)]
pub enum ObjLit {
    Dim(u32),
    Parts(Items<u32>),
    Relation {
        src: Items<u32>,
        tgt: Items<u32>,
        rho: MatLit,
    },
    Dims {
        dims: Items<u32>,
        maps: Items<(u32, MatLit)>,
    },
}

/// A morphism literal: a matrix, or one matrix for each table object (`rep`).
#[derive(Debug, Clone, PartialEq, Eq, Drop)]
pub enum MorLit {
    Rows(MatLit),
    Parts(Items<MatLit>),
}
