// Quivers with known algebras, and what is refused.
use cap_field::Field;
use cap_names::Items;
use cap_quiver::{BadQuiver, PathTable, Quiver, QuiverFault, Relation};
use std::alloc::{AllocError, Global};
use std::test::Fail;

/// A quiver: its objects, arrows, relations and bound.
#[derive(Drop)]
struct Case<'a> {
    objects: u32,
    arrows: &'a [(u32, u32)],
    relations: &'a [&'a [(u16, &'a [u32])]],
    bound: u32,
}

/// A relation by its terms.
fn relation(alloc: Global, terms: &[(u16, &[u32])]) -> Result<Relation, AllocError> {
    let mut list = Vec::new(alloc);
    for (coefficient, arrows) in terms {
        let path = arrows.to_vec(alloc)?;
        list.push((*coefficient, Items::new(path)))?;
    }
    Ok(Relation {
        terms: Items::new(list),
    })
}

/// Relations by their terms.
fn relations(alloc: Global, lists: &[&[(u16, &[u32])]]) -> Result<Vec<Relation>, AllocError> {
    let mut relations = Vec::new(alloc);
    for terms in lists {
        relations.push(relation(alloc, terms)?)?;
    }
    Ok(relations)
}

/// The table of a quiver modulo 3.
fn table_of(alloc: Global, case: &Case) -> Result<PathTable, QuiverFault> {
    let list = relations(alloc, case.relations)?;
    let arrows = case.arrows.to_vec(alloc)?;
    let (objects, bound) = (case.objects, case.bound);
    if let Some(field) = Field::from_prime(3) {
        if Quiver::fits(field, objects, arrows.as_slice(), list.as_slice(), bound) {
            return Quiver::new(field, objects, arrows, list, bound).table(alloc);
        }
    }
    Err(QuiverFault::NoMemory)
}

#[test]
fn algebras_have_their_dimensions(rt: HostRuntime) -> Result<(), Fail> {
    // One loop; A to B to C with x·y = 0; a commuting square; the preprojective algebra of type A3; the exterior algebra on three
    // generators; a loop x with x·x = x, whose powers from the third on are 0.
    let algebras: [(u32, Case); 6] = [
        (
            2,
            Case {
                objects: 1,
                arrows: &[(0, 0)],
                relations: &[],
                bound: 2,
            },
        ),
        (
            5,
            Case {
                objects: 3,
                arrows: &[(0, 1), (1, 2)],
                relations: &[&[(1, &[0, 1])]],
                bound: 3,
            },
        ),
        (
            9,
            Case {
                objects: 4,
                arrows: &[(0, 1), (1, 3), (0, 2), (2, 3)],
                relations: &[&[(1, &[0, 1]), (2, &[2, 3])]],
                bound: 3,
            },
        ),
        (
            10,
            Case {
                objects: 3,
                arrows: &[(0, 1), (1, 0), (1, 2), (2, 1)],
                relations: &[
                    &[(1, &[0, 1])],
                    &[(1, &[1, 0]), (2, &[2, 3])],
                    &[(1, &[3, 2])],
                ],
                bound: 6,
            },
        ),
        (
            8,
            Case {
                objects: 1,
                arrows: &[(0, 0), (0, 0), (0, 0)],
                relations: &[
                    &[(1, &[0, 0])],
                    &[(1, &[1, 1])],
                    &[(1, &[2, 2])],
                    &[(1, &[0, 1]), (1, &[1, 0])],
                    &[(1, &[0, 2]), (1, &[2, 0])],
                    &[(1, &[1, 2]), (1, &[2, 1])],
                ],
                bound: 4,
            },
        ),
        (
            1,
            Case {
                objects: 1,
                arrows: &[(0, 0)],
                relations: &[&[(1, &[0, 0]), (2, &[0])]],
                bound: 3,
            },
        ),
    ];
    for (dimension, case) in &algebras {
        let made = table_of(rt.alloc(), case).ok().ok_or("a table")?;
        assert!(rt; made.count() == *dimension);
    }
    Ok(())
}

#[test]
fn what_is_wrong_is_told(rt: HostRuntime) -> Result<(), Fail> {
    // The first of two relations, with an arrow that there is not; ends that differ, though a term is 0 modulo 3; 129 paths.
    let faults: [(BadQuiver, Case); 3] = [
        (
            BadQuiver::BadRelation { n: 1 },
            Case {
                objects: 2,
                arrows: &[(0, 1)],
                relations: &[&[(1, &[7])], &[(1, &[1])]],
                bound: 3,
            },
        ),
        (
            BadQuiver::BadRelation { n: 2 },
            Case {
                objects: 2,
                arrows: &[(0, 1), (1, 0)],
                relations: &[&[(1, &[0, 1])], &[(1, &[0, 1]), (0, &[1, 0])]],
                bound: 3,
            },
        ),
        (
            BadQuiver::TooManyPaths,
            Case {
                objects: 13,
                arrows: &[
                    (0, 1),
                    (0, 1),
                    (0, 1),
                    (0, 1),
                    (0, 1),
                    (0, 1),
                    (0, 1),
                    (0, 1),
                    (1, 2),
                    (1, 2),
                    (1, 2),
                    (1, 2),
                    (1, 2),
                    (1, 2),
                    (1, 2),
                    (1, 2),
                    (1, 2),
                    (1, 2),
                    (1, 2),
                    (1, 2),
                ],
                relations: &[],
                bound: 3,
            },
        ),
    ];
    for (fault, case) in &faults {
        let made = table_of(rt.alloc(), case);
        assert!(rt; made.is_err_and(|e| e == QuiverFault::Bad(*fault)));
    }
    Ok(())
}

#[test]
fn basis_paths_come_by_length_and_then_by_arrows(rt: HostRuntime) -> Result<(), Fail> {
    let square = Case {
        objects: 2,
        arrows: &[(0, 1), (1, 0), (0, 1)],
        relations: &[&[(1, &[0, 1]), (1, &[2, 1])], &[(1, &[1, 0])]],
        bound: 4,
    };
    let made = table_of(rt.alloc(), &square).ok().ok_or("a table")?;
    let wanted: [&[u32]; 8] = [&[], &[], &[0], &[1], &[2], &[0, 1], &[1, 2], &[0, 1, 2]];
    for b in 0..made.count() {
        assert!(rt; (b as usize) < wanted.len());
        assert!(rt; made.basis_path(b) == wanted[b as usize]);
    }
    Ok(())
}
