// The lines of commands and of the parts of a prelude, over the histories of a run.
ghost use Rattle.std.specs.Prelude.{◌≡◌, ◌++◌, [], OnOk, IfOk, map, slice_get, find, position, option_map};
ghost use Rattle.std.specs.List.{position_or_len};
ghost use Rattle.cap_history.specs.Reading.{objects, registered, weights};
ghost use Rattle.cap_report.specs.Histories.{history_of};
ghost use Rattle.cap_report.specs.Named.{category_name, bound_name};
ghost use Rattle.cap_top_text.specs.Kept.{AreObjects};
ghost use Rattle.cap_top_text.specs.Lines.{is_made, home_of, bound_in, home_name, kind_of, subject, plan_text, answer_line, written_in, text_in, behind_in, command_text, behind_command, with_name, over_text, refused_text, category_text, with_made, item_text, behind_item};

use crate::book::{Book, Bound, Made};
use crate::data::{push_number, push_text};
use crate::home::Home;
use crate::values::{mention_answer, push_operation, push_refusal, push_value};
use cap_cert::write_cert;
use cap_checked::CheckedObj;
use cap_data::{MorData, ObjData};
use cap_grammar::{Command, Item, Over};
use cap_history::{Entry, Event, Reply};
use cap_names::{Handle, Items, MorLit, Name, NoMemory};
use cap_ops::{Kind, Plan, Regs};
use cap_report::{History, LineAnswer};
use std::alloc::Global;

/// The histories of a run, and the objects of each in order of handle.
#[derive(Clone, Copy)]
pub struct Histories<'a> {
    pub all: &'a [History<ObjData, MorData>],
    pub objects: &'a [Vec<&'a ObjData>],
}

/// The place of the category of this name among those that were made.
fn place_in(made: &[Made], name: Name) -> Option<usize>
    ensures { result ≡ position (is_made name) made.now }
{
    made.iter().position(|m| m.name == name)
}

#[tactic(auto, using(cap_checked::proofs::Places::place_some, cap_checked::proofs::Places::place_none))]
/// How many categories were made before that of this name.
fn number_in(made: &[Made], name: Name) -> usize
    ensures { result ≡ position_or_len (is_made name) made.now }
{
    match place_in(made, name) {
        Some(place) => place,
        None => made.len(),
    }
}

/// What the category of this name is over.
fn over_in(made: &[Made], name: Name) -> Option<Over>
    ensures { result ≡ option_map (λ m. m.over) (find (is_made name) made.now) }
{
    match made.iter().find(|m| m.name == name) {
        Some(m) => Some(m.over),
        None => None,
    }
}

/// The category of this name.
pub fn home_of(made: &[Made], name: Name) -> Home
    ensures { result ≡ home_of made.now name }
{
    Home {
        name,
        number: number_in(made, name),
        over: over_in(made, name),
    }
}

/// The category of the value of this name.
fn bound_in(bound: &[Bound], name: Name) -> Option<Name>
    ensures { result ≡ bound_in bound.now name }
{
    match bound.iter().find(|b| b.name == name) {
        Some(b) => Some(b.category),
        None => None,
    }
}

/// The name of a command's category.
pub fn home_name(bound: &[Bound], command: &Command<CheckedObj, MorLit>) -> Option<Name>
    ensures { result ≡ home_name bound.now command.now }
{
    match command {
        Command::Register { cat, .. } => Some(*cat),
        Command::Finalise { cat } => Some(*cat),
        Command::Plan { cat } => Some(*cat),
        Command::Object { cat, .. } => Some(*cat),
        Command::Src { of, .. } => bound_in(bound, of.name),
        Command::Tgt { of, .. } => bound_in(bound, of.name),
        Command::Let { cat, .. } => Some(*cat),
        Command::Call { cat, .. } => Some(*cat),
    }
}

/// The name that a command binds.
pub fn bound_name(command: &Command<CheckedObj, MorLit>) -> Option<Name>
    ensures { result ≡ bound_name command.now }
{
    match command {
        Command::Object { name, .. } => Some(*name),
        Command::Src { name, .. } => Some(*name),
        Command::Tgt { name, .. } => Some(*name),
        Command::Let { name, .. } => Some(*name),
        Command::Call { name, .. } => Some(*name),
        _ => None,
    }
}

/// What the line of a refusal begins with: the name that would be bound, else that of the category.
fn subject(command: &Command<CheckedObj, MorLit>, home: Name) -> Name
    ensures { result ≡ subject command.now home }
{
    match bound_name(command) {
        Some(own) => own,
        None => home,
    }
}

/// The weights behind an entry.
fn registered(regs: Regs, entry: &Entry<ObjData, MorData>) -> Regs
    ensures { result.weights ≡ registered regs.weights entry.now.event entry.now.reply }
{
    let mut regs = regs;
    match (&entry.event, &entry.reply) {
        (Event::Register { op, weight }, Reply::Done) => {
            let place = (op.0 as usize).saturating_sub(1);
            if place < 44 {
                regs.weights[place] = Some(*weight);
            }
            regs
        }
        _ => regs,
    }
}

/// The registrations of a history.
fn registrations(entries: &[Entry<ObjData, MorData>]) -> Regs
    ensures { result.weights ≡ weights entries.now }
{
    let mut regs = Regs {
        weights: [None; 44],
    };
    'entries: for entry in entries {
        regs = registered(regs, entry);
    }
    regs
}

/// The kind of what a category is over.
fn kind_of(over: Over) -> Kind
    ensures { result ≡ kind_of over }
{
    match over {
        Over::Vec(_) => Kind::Mat,
        Over::Add(_) => Kind::Add,
        Over::Freyd(_) => Kind::Freyd,
        Over::Rep(_) => Kind::Rep,
    }
}

#[tactic(auto, unfolding(crate::specs::Lines::plan_text))]
/// Writes the certificate of a plan.
fn push_plan(
    alloc: Global,
    out: &mut Vec<u8>,
    home: &Home,
    entries: &[Entry<ObjData, MorData>],
    plan: &Plan,
) -> Result<(), NoMemory>
    ensures { OnOk result (out.new.items ≡ out.old.items ++ plan_text home.now.name home.now.over entries.now plan.now) }
{
    let Some(over) = home.over else {
        return Ok(());
    };
    let regs = registrations(entries);
    let text = write_cert(alloc, &home.name, kind_of(over), &regs, plan)?;
    out.extend_from_slice(text.as_slice())?;
    Ok(())
}

/// Writes the line of an answer.
fn push_answer(
    alloc: Global,
    out: &mut Vec<u8>,
    home: &Home,
    entries: &[Entry<ObjData, MorData>],
    seen: &[(usize, Handle)],
    subject: Name,
    answer: &LineAnswer<MorData>,
) -> Result<(), NoMemory>
    ensures { OnOk result (out.new.items ≡ out.old.items ++ answer_line home.now entries.now seen.now subject answer.now) }
{
    match answer {
        LineAnswer::Category => Ok(()),
        LineAnswer::Registered { op, weight } => {
            push_text(out, home.name.as_str())?;
            push_text(out, " registers ")?;
            push_operation(out, *op)?;
            push_text(out, " ")?;
            push_number(alloc, out, *weight as u64)?;
            push_text(out, "\n")
        }
        LineAnswer::Final => {
            push_text(out, home.name.as_str())?;
            push_text(out, " final\n")
        }
        LineAnswer::Plan(plan) => push_plan(alloc, out, home, entries, &plan.plan()),
        LineAnswer::Refused(refusal) => {
            push_text(out, subject.as_str())?;
            push_text(out, " ! ")?;
            push_refusal(alloc, out, home, seen, refusal)?;
            push_text(out, "\n")
        }
        _ => {
            push_text(out, subject.as_str())?;
            push_text(out, " = ")?;
            push_value(alloc, out, home, seen, answer)?;
            push_text(out, "\n")
        }
    }
}

/// The objects of the category with this number.
fn objects_of<'a>(histories: &Histories<'a>, number: usize) -> &'a [&'a ObjData]
    requires { AreObjects histories.now }
    ensures { map (λ x. x.now) result.now ≡ objects (history_of histories.now.all.now number) }
{
    match histories.objects.get(number) {
        Some(objects) => objects.as_slice(),
        None => &[],
    }
}

/// The entries of the category with this number.
fn entries_of<'a>(histories: &Histories<'a>, number: usize) -> &'a [Entry<ObjData, MorData>]
    ensures { result.now ≡ history_of histories.now.all.now number }
{
    match histories.all.get(number) {
        Some(history) => history.entries.as_slice(),
        None => &[],
    }
}

/// Binds a name in a category.
fn bind(book: &mut Book, bound: &Option<Name>, category: Name) -> Result<(), NoMemory>
    ensures { OnOk result (book.new ≡ record book.old { bound = with_name book.old.bound bound.now category }) }
{
    match bound {
        Some(name) => {
            book.bound.push(Bound {
                name: *name,
                category,
            })?;
            Ok(())
        }
        None => Ok(()),
    }
}

/// Writes the lines of a command.
pub fn push_command(
    alloc: Global,
    out: &mut Vec<u8>,
    histories: &Histories,
    book: &mut Book,
    command: &Command<CheckedObj, MorLit>,
    answer: &LineAnswer<MorData>,
) -> Result<(), NoMemory>
    requires { AreObjects histories.now }
    ensures text { OnOk result (out.new.items ≡ out.old.items ++ command_text histories.now.all.now book.old command.now answer.now) }
    ensures book { OnOk result (book.new ≡ behind_command book.old command.now answer.now) }
{
    let Some(name) = home_name(book.bound.as_slice(), command) else {
        return Ok(());
    };
    let home = home_of(book.made.as_slice(), name);
    let bound = bound_name(command);
    let subject = subject(command, name);
    let objects = objects_of(histories, home.number);
    let entries = entries_of(histories, home.number);
    mention_answer(alloc, out, &home, objects, &mut book.seen, answer)?;
    push_answer(
        alloc,
        out,
        &home,
        entries,
        book.seen.as_slice(),
        subject,
        answer,
    )?;
    bind(book, &bound, name)?;
    Ok(())
}

/// Writes the words of a category's kind, with what it is over.
fn push_over(alloc: Global, out: &mut Vec<u8>, over: &Over) -> Result<(), NoMemory>
    ensures { OnOk result (out.new.items ≡ out.old.items ++ over_text over.now) }
{
    match over {
        Over::Vec(prime) => {
            push_text(out, "vec ")?;
            push_number(alloc, out, *prime)
        }
        Over::Add(block) => {
            push_text(out, "add ")?;
            push_text(out, block.as_str())
        }
        Over::Freyd(block) => {
            push_text(out, "freyd ")?;
            push_text(out, block.as_str())
        }
        Over::Rep(block) => {
            push_text(out, "rep ")?;
            push_text(out, block.as_str())
        }
    }
}

/// Writes the refusal of a block or a category, where it is one.
fn push_refused(
    alloc: Global,
    out: &mut Vec<u8>,
    name: Name,
    answer: &LineAnswer<MorData>,
) -> Result<(), NoMemory>
    ensures { OnOk result (out.new.items ≡ out.old.items ++ refused_text name answer.now) }
{
    let LineAnswer::Refused(refusal) = answer else {
        return Ok(());
    };
    let home = Home {
        name,
        number: 0,
        over: None,
    };
    push_text(out, name.as_str())?;
    push_text(out, " ! ")?;
    push_refusal(alloc, out, &home, &[], refusal)?;
    push_text(out, "\n")
}

/// Writes the line of a category.
fn push_category(
    alloc: Global,
    out: &mut Vec<u8>,
    book: &mut Book,
    name: Name,
    over: &Over,
    answer: &LineAnswer<MorData>,
) -> Result<(), NoMemory>
    ensures text { OnOk result (out.new.items ≡ out.old.items ++ category_text name over.now answer.now) }
    ensures book { OnOk result (book.new ≡ with_made book.old name over.now answer.now) }
{
    match answer {
        LineAnswer::Category => {
            push_text(out, name.as_str())?;
            push_text(out, ": ")?;
            push_over(alloc, out, over)?;
            push_text(out, "\n")?;
            book.made.push(Made { name, over: *over })?;
            Ok(())
        }
        _ => push_refused(alloc, out, name, answer),
    }
}

/// Writes the lines of a part of a prelude.
pub fn push_item(
    alloc: Global,
    out: &mut Vec<u8>,
    histories: &Histories,
    book: &mut Book,
    item: &Item<CheckedObj, MorLit>,
    answer: &LineAnswer<MorData>,
) -> Result<(), NoMemory>
    requires { AreObjects histories.now }
    ensures text { OnOk result (out.new.items ≡ out.old.items ++ item_text histories.now.all.now book.old item.now answer.now) }
    ensures book { OnOk result (book.new ≡ behind_item book.old item.now answer.now) }
{
    match item {
        Item::Block(block) => push_refused(alloc, out, block.name, answer),
        Item::Category { name, over } => push_category(alloc, out, book, *name, over, answer),
        Item::Command(command) => push_command(alloc, out, histories, book, command, answer),
    }
}
