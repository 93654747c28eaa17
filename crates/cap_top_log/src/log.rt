// The log of a run.
ghost use Rattle.std.specs.Prelude.{◌≡◌, ◌++◌, OnOk, IfOk, zip};
ghost use Rattle.cap_top_log.specs.Log.{entry_line, entries_text, history_text, item_category, category_names, histories_text, log_text};

use crate::events::push_event;
use crate::replies::push_reply;
use cap_checked::CheckedObj;
use cap_data::{MorData, ObjData};
use cap_grammar::{Item, Placed};
use cap_history::Entry;
use cap_names::{MorLit, Name, NoMemory};
use cap_report::{History, Report};
use cap_top_text::{push_number, push_text};
use std::alloc::Global;

/// Writes the line of an entry.
fn push_entry(
    alloc: Global,
    out: &mut Vec<u8>,
    place: u64,
    entry: &Entry<ObjData, MorData>,
) -> Result<(), NoMemory>
    ensures { OnOk result (out.new.items ≡ out.old.items ++ entry_line place entry.now) }
{
    push_number(alloc, out, place)?;
    push_text(out, " s")?;
    push_number(alloc, out, entry.session.0 as u64)?;
    push_text(out, " ")?;
    push_event(alloc, out, &entry.event)?;
    push_text(out, " -> ")?;
    push_reply(alloc, out, &entry.event, &entry.reply)?;
    push_text(out, "\n")
}

/// Writes the lines of entries.
fn push_entries(
    alloc: Global,
    out: &mut Vec<u8>,
    entries: &[Entry<ObjData, MorData>],
) -> Result<(), NoMemory>
    ensures { OnOk result (out.new.items ≡ out.old.items ++ entries_text 0 entries.now) }
{
    for place in 0..entries.len() {
        push_entry(alloc, out, place as u64, &entries[place])?;
    }
    Ok(())
}

/// Writes the history of the category with this name.
fn push_history(
    alloc: Global,
    out: &mut Vec<u8>,
    name: Name,
    entries: &[Entry<ObjData, MorData>],
) -> Result<(), NoMemory>
    ensures { OnOk result (out.new.items ≡ out.old.items ++ history_text name entries.now) }
{
    push_text(out, "log ")?;
    push_text(out, name.as_str())?;
    push_text(out, "\n")?;
    push_entries(alloc, out, entries)
}

/// The name of a category, where a part of a prelude is one.
fn item_category(item: &Item<CheckedObj, MorLit>) -> Option<Name>
    ensures { result ≡ item_category item.now }
{
    match item {
        Item::Category { name, .. } => Some(*name),
        _ => None,
    }
}

/// The names of the categories of a prelude, in order.
fn category_names(
    alloc: Global,
    prelude: &[Placed<Item<CheckedObj, MorLit>>],
) -> Result<Vec<Name>, NoMemory>
    ensures { IfOk result (λ names. names.items ≡ category_names prelude.now) }
{
    let mut names = Vec::new(alloc);
    'parts: for part in prelude {
        if let Some(name) = item_category(&part.node) {
            names.push(name)?;
        }
    }
    Ok(names)
}

/// Writes histories under names.
fn push_histories(
    alloc: Global,
    out: &mut Vec<u8>,
    names: &[Name],
    histories: &[History<ObjData, MorData>],
) -> Result<(), NoMemory>
    ensures { OnOk result (out.new.items ≡ out.old.items ++ histories_text (zip names.now histories.now)) }
{
    'histories: for (name, history) in names.iter().zip(histories) {
        push_history(alloc, out, *name, history.entries.as_slice())?;
    }
    Ok(())
}

/// The log of a report for its script: each category's history.
pub fn log_text(
    alloc: Global,
    prelude: &[Placed<Item<CheckedObj, MorLit>>],
    report: &Report<ObjData, MorData>,
) -> Result<Vec<u8>, NoMemory>
    ensures { IfOk result (λ text. text.items ≡ log_text prelude.now report.now) }
{
    let names = category_names(alloc, prelude)?;
    let mut out = Vec::new(alloc);
    push_histories(
        alloc,
        &mut out,
        names.as_slice(),
        report.histories.as_slice(),
    )?;
    Ok(out)
}
