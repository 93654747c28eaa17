// A quiver with relations.
ghost use Rattle.cap_quiver.specs.Limits.{FitsQuiver};

use crate::basis::basis_arrows;
use crate::faults::{BadQuiver, QuiverFault};
use crate::limits::{ends_inside, relations_fit};
use crate::path_table::PathTable;
use crate::quotients::quotient;
use cap_field::Field;
use cap_laws::Table;
use cap_lincat::LinTable;
use cap_names::{Items, NoMemory};
use cap_quiver_paths::{Relation, Walk, all_paths, first_bad, numbered, term_numbers};
use std::alloc::Global;

/// A quiver with relations over a field: objects and arrows are numbers from 0, an arrow has a source and a target,
/// and paths as long as the bound or longer are 0.
#[derive(Drop)]
pub struct Quiver {
    field: Field,
    objects: u32,
    arrows: Items<(u32, u32)>,
    relations: Items<Relation>,
    bound: u32,
    ghost fit: { FitsQuiver field objects arrows relations bound },
}

impl Quiver {
    ghost use Rattle.std.specs.Prelude.{◌≡◌, ℕ, ◌<◌, ◌≤◌, ◌↔◌, IsTrue, IfOk, IfErr, OnOk, length};
    ghost use Rattle.cap_quiver_laws.specs.Paths.{IsPathList};
    ghost use Rattle.cap_quiver_laws.specs.Ideal.{IsRelation};
    ghost use Rattle.cap_quiver_laws.specs.QuiverTable.{IsQuiverTable};
    ghost use Rattle.cap_quiver_paths.specs.Data.{quiver, HasManyShort};
    ghost use Rattle.cap_quiver.specs.Limits.{FitsQuiver};
    ghost use Rattle.cap_quiver.specs.Answers.{quiver_in, relations_in, IsQuiverFault};

    /// Whether a quiver with relations can be made of these: ends of arrows are objects, coefficients are residues, and there are
    /// at most 16 objects, 64 arrows, 64 relations with at most 16 terms each, and a bound from 1 to 16.
    pub fn fits(
        field: Field,
        objects: u32,
        arrows: &[(u32, u32)],
        relations: &[Relation],
        bound: u32,
    ) -> bool
        ensures { IsTrue result ↔ FitsQuiver field objects arrows.now relations.now bound }
    {
        if objects > 16 || bound < 1 || bound > 16 || arrows.len() > 64 || relations.len() > 64 {
            return false;
        }
        ends_inside(objects, arrows) && relations_fit(field, relations)
    }

    /// The quiver with these arrows, each by its ends, and these relations; a path has fewer arrows than the bound.
    pub fn new(
        field: Field,
        objects: u32,
        arrows: Vec<(u32, u32)>,
        relations: Vec<Relation>,
        bound: u32,
    ) -> Quiver
        requires { FitsQuiver field objects arrows.items relations.items bound }
        ensures field { result.field ≡ field }
        ensures quiver { quiver_in result ≡ quiver objects arrows.items bound }
        ensures relations { result.relations ≡ relations.items }
    {
        Quiver {
            field,
            objects,
            arrows: Items::new(arrows),
            relations: Items::new(relations),
            bound,
        }
    }

    /// The table of all paths shorter than the bound, where they are listed.
    fn table_of_paths(&self, alloc: Global, paths: &[Walk]) -> Result<PathTable, NoMemory>
        requires paths { IsPathList (quiver_in self.now) paths.now }
        requires few { length paths.now ≤ 128 }
        requires good { (r : ℕ) → r < length self.now.relations → IsRelation (quiver_in self.now) (relations_in self.now) r }
        ensures { IfOk result (λ t. IsQuiverTable self.now.field (quiver_in self.now) (relations_in self.now) (⟦<LinTable as Table>⟧.table t.table) t.paths) }
    {
        let arrows = self.arrows.as_slice();
        let relations = self.relations.as_slice();
        let numbers = numbered(alloc, self.objects, arrows, self.bound, paths)?;
        let terms = term_numbers(alloc, arrows, self.bound, paths, relations)?;
        let made = quotient(alloc, self.field, &numbers, relations, terms.as_slice())?;
        let (table, basis) = made;
        let list = basis_arrows(alloc, paths, basis.as_slice())?;
        Ok(PathTable {
            table,
            paths: Items::new(list),
        })
    }

    /// The quotient of the paths by the two-sided ideal of the relations: its basis is the paths that are no combination of
    /// those before them modulo the ideal, by length, then by arrow numbers in dictionary order, units by object.
    pub fn table(&self, alloc: Global) -> Result<PathTable, QuiverFault>
        ensures made { IfOk result (λ t. IsQuiverTable self.now.field (quiver_in self.now) (relations_in self.now) (⟦<LinTable as Table>⟧.table t.table) t.paths) }
        ensures few { OnOk result (¬ HasManyShort (quiver_in self.now) 128) }
        ensures fault { IfErr result (λ e. IsQuiverFault self.now e) }
    {
        let arrows = self.arrows.as_slice();
        if let Some(n) = first_bad(arrows, self.relations.as_slice()) {
            return Err(QuiverFault::Bad(BadQuiver::BadRelation { n: n as u32 + 1 }));
        }
        let Some(paths) = all_paths(alloc, self.objects, arrows, self.bound)? else {
            return Err(QuiverFault::Bad(BadQuiver::TooManyPaths));
        };
        let table = self.table_of_paths(alloc, paths.as_slice())?;
        Ok(table)
    }
}
