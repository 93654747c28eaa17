// The first fault of a block. Behind a line with a fault no line is looked at.
ghost use Rattle.std.specs.Prelude.{◌≡◌, ◌++◌, IfOk, OnOk, is_some};
ghost use Rattle.std.specs.List.{list_any};
ghost use Rattle.cap_block_faults.specs.Marks.{faults, first};
ghost use Rattle.cap_block_faults.specs.Blocks.{lines_marks, end_marks, block_marks};
ghost use Rattle.cap_faults.specs.Lines.{AreLines, HaveSameFirst};

use cap_block_faults::{Mark, Part, first_fault, put_end, put_head, put_line};
use cap_grammar::{Block, Place};
use cap_names::BadScript;
use std::alloc::{AllocError, Global};

fn has_fault(marks: &[Mark]) -> bool
    ensures { result ≡ list_any is_some marks.now }
{
    marks.iter().any(|mark| mark.is_some())
}

/// Puts the marks of the lines up to the first fault; answers whether they are those of all lines.
fn put_lines(marks: &mut Vec<Mark>, block: &Block) -> Result<bool, AllocError>
    ensures { IfOk result (AreLines block.now marks.old.items marks.new.items) }
{
    let lines = block.lines.as_slice();
    'lines: for (i, line) in lines.iter().enumerate() {
        let from = marks.len();
        put_line(marks, block.objects.as_slice(), &lines[..i], line)?;
        if has_fault(&marks[from..]) {
            return Ok(false);
        }
    }
    Ok(true)
}

/// Puts the marks of the lines and of the last line, or of the lines up to the first fault.
fn put_others(marks: &mut Vec<Mark>, block: &Block) -> Result<(), AllocError>
    ensures { IfOk result (λ _. HaveSameFirst marks.new.items (marks.old.items ++ (lines_marks block.now ++ end_marks block.now))) }
{
    let whole = put_lines(marks, block)?;
    if !whole {
        return Ok(());
    }
    put_end(marks, block)?;
    Ok(())
}

/// The first fault of a block behind these parts, which may be one too many.
pub fn block_fault(
    alloc: Global,
    full: bool,
    parts: &[Part],
    block: &Block,
    places: &[Place],
) -> Result<Option<BadScript>, AllocError>
    ensures { IfOk result (λ f. f ≡ first (faults places.now (block_marks full parts.now block.now))) }
{
    let mut marks = Vec::new(alloc);
    put_head(&mut marks, full, parts, block)?;
    put_others(&mut marks, block)?;
    Ok(first_fault(places, &marks))
}
