// The text of a run.
ghost use Rattle.std.specs.Prelude.{◌≡◌, ◌++◌, [], OnOk, IfOk, map, zip};
ghost use Rattle.cap_history.specs.Reading.{more_objects, objects};
ghost use Rattle.cap_top_text.specs.Kept.{AreObjects};
ghost use Rattle.cap_top_text.specs.Text.{parts_text, behind_parts, commands_text, session_text, sessions_text, run_text, report_text, empty_book};

use crate::book::Book;
use crate::data::push_text;
use crate::lines::{Histories, push_command, push_item};
use cap_checked::CheckedObj;
use cap_data::{MorData, ObjData};
use cap_grammar::{Command, Item, Placed, SessionPart};
use cap_history::{Entry, Event, Reply};
use cap_names::{Items, MorLit, NoMemory};
use cap_report::{Done, History, Report, Trace};
use std::alloc::Global;

/// Puts objects behind the others.
fn with_all<'a>(objects: &mut Vec<&'a ObjData>, fresh: &'a [ObjData]) -> Result<(), NoMemory>
    ensures { OnOk result (map (λ x. x.now) objects.new.items ≡ map (λ x. x.now) objects.old.items ++ fresh.now) }
{
    'fresh: for object in fresh {
        objects.push(object)?;
    }
    Ok(())
}

/// Puts the objects that an entry brings behind the others.
fn with_objects<'a>(
    objects: &mut Vec<&'a ObjData>,
    entry: &'a Entry<ObjData, MorData>,
) -> Result<(), NoMemory>
    ensures { OnOk result (map (λ x. x.now) objects.new.items ≡ more_objects (map (λ x. x.now) objects.old.items) entry.now.event entry.now.reply) }
{
    match (&entry.event, &entry.reply) {
        (Event::Declare { object, .. }, Reply::Object(handle)) => {
            if handle.0 as usize == objects.len() {
                objects.push(object)?;
            }
            Ok(())
        }
        (Event::Put { out, .. }, Reply::Kept(_)) => with_all(objects, out.fresh.as_slice()),
        _ => Ok(()),
    }
}

/// The objects of a category, in order of handle.
fn objects_in<'a>(
    alloc: Global,
    entries: &'a [Entry<ObjData, MorData>],
) -> Result<Vec<&'a ObjData>, NoMemory>
    ensures { IfOk result (λ all. map (λ x. x.now) all.items ≡ objects entries.now) }
{
    let mut objects = Vec::new(alloc);
    'entries: for entry in entries {
        with_objects(&mut objects, entry)?;
    }
    Ok(objects)
}

/// The objects of each category.
fn all_objects<'a>(
    alloc: Global,
    histories: &'a [History<ObjData, MorData>],
) -> Result<Vec<Vec<&'a ObjData>>, NoMemory>
    ensures { IfOk result (λ all. map (λ list. map (λ x. x.now) list.items) all.items ≡ map (λ history. objects history.entries) histories.now) }
{
    let mut all = Vec::new(alloc);
    'histories: for history in histories {
        all.push(objects_in(alloc, history.entries.as_slice())?)?;
    }
    Ok(all)
}

/// An equal book.
fn copied(alloc: Global, book: &Book) -> Result<Book, NoMemory>
    ensures { IfOk result (λ copy. copy ≡ book.now) }
{
    let mut made = Vec::new(alloc);
    made.extend_from_slice(book.made.as_slice())?;
    let mut bound = Vec::new(alloc);
    bound.extend_from_slice(book.bound.as_slice())?;
    let mut seen = Vec::new(alloc);
    seen.extend_from_slice(book.seen.as_slice())?;
    Ok(Book {
        made: Items::new(made),
        bound: Items::new(bound),
        seen: Items::new(seen),
    })
}

/// Writes the lines of a prelude.
fn push_parts(
    alloc: Global,
    out: &mut Vec<u8>,
    histories: &Histories,
    book: &mut Book,
    parts: &[Placed<Item<CheckedObj, MorLit>>],
    done: &[Done<MorData>],
) -> Result<(), NoMemory>
    requires { AreObjects histories.now }
    ensures text { OnOk result (out.new.items ≡ out.old.items ++ parts_text histories.now.all.now book.old (zip parts.now done.now)) }
    ensures book { OnOk result (book.new ≡ behind_parts book.old (zip parts.now done.now)) }
{
    'parts: for (part, one) in parts.iter().zip(done) {
        push_item(alloc, out, histories, book, &part.node, &one.answer)?;
    }
    Ok(())
}

/// Writes the lines of a session's commands.
fn push_commands(
    alloc: Global,
    out: &mut Vec<u8>,
    histories: &Histories,
    book: &mut Book,
    commands: &[Placed<Command<CheckedObj, MorLit>>],
    done: &[Done<MorData>],
) -> Result<(), NoMemory>
    requires { AreObjects histories.now }
    ensures { OnOk result (out.new.items ≡ out.old.items ++ commands_text histories.now.all.now book.old (zip commands.now done.now)) }
{
    'commands: for (command, one) in commands.iter().zip(done) {
        push_command(alloc, out, histories, book, &command.node, &one.answer)?;
    }
    Ok(())
}

/// Writes a session.
fn push_session(
    alloc: Global,
    out: &mut Vec<u8>,
    histories: &Histories,
    book: &Book,
    session: &SessionPart<CheckedObj, MorLit>,
    done: &[Done<MorData>],
) -> Result<(), NoMemory>
    requires { AreObjects histories.now }
    ensures { OnOk result (out.new.items ≡ out.old.items ++ session_text histories.now.all.now book.now session.now done.now) }
{
    let mut own = copied(alloc, book)?;
    push_text(out, "session ")?;
    push_text(out, session.name.as_str())?;
    push_text(out, "\n")?;
    push_commands(
        alloc,
        out,
        histories,
        &mut own,
        session.commands.as_slice(),
        done,
    )
}

/// Writes the sessions.
fn push_sessions(
    alloc: Global,
    out: &mut Vec<u8>,
    histories: &Histories,
    book: &Book,
    sessions: &[Placed<SessionPart<CheckedObj, MorLit>>],
    traces: &[Trace<ObjData, MorData>],
) -> Result<(), NoMemory>
    requires { AreObjects histories.now }
    ensures { OnOk result (out.new.items ≡ out.old.items ++ sessions_text histories.now.all.now book.now (zip sessions.now traces.now)) }
{
    'sessions: for (session, trace) in sessions.iter().zip(traces) {
        push_session(
            alloc,
            out,
            histories,
            book,
            &session.node,
            trace.done.as_slice(),
        )?;
    }
    Ok(())
}

/// The text of a report for the script with this prelude and these sessions.
pub fn report_text(
    alloc: Global,
    prelude: &[Placed<Item<CheckedObj, MorLit>>],
    sessions: &[Placed<SessionPart<CheckedObj, MorLit>>],
    report: &Report<ObjData, MorData>,
) -> Result<Vec<u8>, NoMemory>
    ensures { IfOk result (λ text. text.items ≡ report_text (record { prelude = prelude.now; sessions = sessions.now }) report.now) }
{
    let mut out = Vec::new(alloc);
    let objects = all_objects(alloc, report.histories.as_slice())?;
    let histories = Histories {
        all: report.histories.as_slice(),
        objects: objects.as_slice(),
    };
    let mut book = Book {
        made: Items::new(Vec::new(alloc)),
        bound: Items::new(Vec::new(alloc)),
        seen: Items::new(Vec::new(alloc)),
    };
    let Some((first, others)) = report.traces.as_slice().split_first() else {
        return Ok(out);
    };
    push_parts(
        alloc,
        &mut out,
        &histories,
        &mut book,
        prelude,
        first.done.as_slice(),
    )?;
    push_sessions(alloc, &mut out, &histories, &book, sessions, others)?;
    Ok(out)
}
