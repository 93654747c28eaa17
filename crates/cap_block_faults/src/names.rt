// Names and what they are bound to.
ghost use Rattle.std.specs.Prelude.{◌≡◌, option_map, find};
ghost use Rattle.cap_block_faults.specs.Names.{is_among, is_block_named, is_category_named, has_block, has_category, objects_in, lines_in, is_quiver_in, objects_of, lines_of, is_quiver, over_in, over_of, is_basis_line, has_basis};

use cap_grammar::{BlockLine, Item, MorTok, ObjTok, Over, Placed};
use cap_names::Name;

/// What stands before the sessions, with places.
pub type Part = Placed<Item<ObjTok, MorTok>>;

pub fn is_among(names: &[Name], name: Name) -> bool
    ensures { result ≡ is_among names.now name }
{
    names.contains(&name)
}

fn is_block_named(part: &Part, name: Name) -> bool
    ensures { result ≡ is_block_named name part.now }
{
    match &part.node {
        Item::Block(block) => block.name == name,
        _ => false,
    }
}

fn is_category_named(part: &Part, name: Name) -> bool
    ensures { result ≡ is_category_named name part.now }
{
    match &part.node {
        Item::Category { name: other, .. } => *other == name,
        _ => false,
    }
}

/// Whether a block of this name is among the parts.
pub fn has_block(parts: &[Part], name: Name) -> bool
    ensures { result ≡ has_block parts.now name }
{
    parts.iter().any(|part| is_block_named(part, name))
}

/// Whether a category of this name is among the parts.
pub fn has_category(parts: &[Part], name: Name) -> bool
    ensures { result ≡ has_category parts.now name }
{
    parts.iter().any(|part| is_category_named(part, name))
}

fn objects_in(part: &Part) -> &[Name]
    ensures { result.now ≡ objects_in part.now.node }
{
    match &part.node {
        Item::Block(block) => block.objects.as_slice(),
        _ => &[],
    }
}

fn lines_in(part: &Part) -> &[BlockLine]
    ensures { result.now ≡ lines_in part.now.node }
{
    match &part.node {
        Item::Block(block) => block.lines.as_slice(),
        _ => &[],
    }
}

fn is_quiver_in(part: &Part) -> bool
    ensures { result ≡ is_quiver_in part.now.node }
{
    match &part.node {
        Item::Block(block) => block.bound.is_some(),
        _ => false,
    }
}

fn over_in(part: &Part) -> Option<Over>
    ensures { result ≡ over_in part.now.node }
{
    match &part.node {
        Item::Category { over, .. } => Some(*over),
        _ => None,
    }
}

fn block_named(parts: &[Part], name: Name) -> Option<&Part>
    ensures { option_map (λ p. p.now) result ≡ find (is_block_named name) parts.now }
{
    parts.iter().find(|part| is_block_named(part, name))
}

fn category_named(parts: &[Part], name: Name) -> Option<&Part>
    ensures { option_map (λ p. p.now) result ≡ find (is_category_named name) parts.now }
{
    parts.iter().find(|part| is_category_named(part, name))
}

/// The objects of the block of this name, in order.
pub fn objects_of(parts: &[Part], name: Name) -> &[Name]
    ensures { result.now ≡ objects_of parts.now name }
{
    match block_named(parts, name) {
        Some(part) => objects_in(part),
        None => &[],
    }
}

/// The lines of the block of this name, in order.
pub fn lines_of(parts: &[Part], name: Name) -> &[BlockLine]
    ensures { result.now ≡ lines_of parts.now name }
{
    match block_named(parts, name) {
        Some(part) => lines_in(part),
        None => &[],
    }
}

/// Whether the block of this name is a quiver.
pub fn is_quiver(parts: &[Part], name: Name) -> bool
    ensures { result ≡ is_quiver parts.now name }
{
    match block_named(parts, name) {
        Some(part) => is_quiver_in(part),
        None => false,
    }
}

/// What the category of this name is over.
pub fn over_of(parts: &[Part], name: Name) -> Option<Over>
    ensures { result ≡ over_of parts.now name }
{
    match category_named(parts, name) {
        Some(part) => over_in(part),
        None => None,
    }
}

fn is_basis_line(line: &BlockLine, name: Name) -> bool
    ensures { result ≡ is_basis_line name line.now }
{
    match line {
        BlockLine::Basis { name: other, .. } | BlockLine::Arrow { name: other, .. } => {
            *other == name
        }
        _ => false,
    }
}

/// Whether these lines have a basis element or an arrow of this name.
pub fn has_basis(lines: &[BlockLine], name: Name) -> bool
    ensures { result ≡ has_basis lines.now name }
{
    lines.iter().any(|line| is_basis_line(line, name))
}
