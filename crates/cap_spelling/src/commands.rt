// The symbols of commands.
ghost use Rattle.std.specs.Prelude.{◌≡◌, ◌++◌, ◌∷◌, [], OnOk};
ghost use Rattle.cap_grammar.specs.declared.symbol.Fixed.TheVariants as word;
ghost use Rattle.cap_grammar.specs.declared.symbol.Symbol.TheVariants as symbol;
ghost use Rattle.cap_spelling.specs.Spelling.{ref_symbols, weight_symbols, morphism_symbols, command_symbols};

use crate::literals::push_object;
use crate::matrices::push_morphism;
use crate::words::{number_symbol, push_args, push_ref};
use cap_grammar::{Command, Fixed, MorTok, ObjTok, RefTok, Symbol};
use cap_names::Name;
use std::alloc::AllocError;

fn push_weight(out: &mut Vec<Symbol>, weight: Option<u64>) -> Result<(), AllocError>
    ensures { OnOk result (out.new.items ≡ out.old.items ++ weight_symbols weight) }
{
    if let Some(weight) = weight {
        out.push(number_symbol(weight))?;
    }
    Ok(())
}

/// A word and a name.
fn push_named(out: &mut Vec<Symbol>, word: Fixed, name: Name) -> Result<(), AllocError>
    ensures { OnOk result (out.new.items ≡ out.old.items ++ symbol.Fixed word ∷ symbol.Name name ∷ []) }
{
    out.push(Symbol::Fixed(word))?;
    out.push(Symbol::Name(name))?;
    Ok(())
}

/// What `let` begins with.
fn push_let(out: &mut Vec<Symbol>, name: Name) -> Result<(), AllocError>
    ensures { OnOk result (out.new.items ≡ out.old.items ++ symbol.Fixed word.Let ∷ symbol.Name name ∷ symbol.Fixed word.Equals ∷ []) }
{
    out.push(Symbol::Fixed(Fixed::Let))?;
    out.push(Symbol::Name(name))?;
    out.push(Symbol::Fixed(Fixed::Equals))?;
    Ok(())
}

/// A source, a target and a literal.
fn push_literal(
    out: &mut Vec<Symbol>,
    src: RefTok,
    tgt: RefTok,
    literal: &MorTok,
) -> Result<(), AllocError>
    ensures { OnOk result (out.new.items ≡ out.old.items ++ (ref_symbols src ++ symbol.Fixed word.To ∷ (ref_symbols tgt ++ morphism_symbols literal.now))) }
{
    push_ref(out, src)?;
    out.push(Symbol::Fixed(Fixed::To))?;
    push_ref(out, tgt)?;
    push_morphism(out, literal)?;
    Ok(())
}

pub(crate) fn push_command(
    out: &mut Vec<Symbol>,
    command: &Command<ObjTok, MorTok>,
) -> Result<(), AllocError>
    ensures { OnOk result (out.new.items ≡ out.old.items ++ command_symbols command.now) }
{
    match command {
        Command::Register { cat, op, weight } => {
            push_named(out, Fixed::Register, *cat)?;
            out.push(Symbol::Operation(*op))?;
            push_weight(out, *weight)?;
        }
        Command::Finalise { cat } => push_named(out, Fixed::Finalise, *cat)?,
        Command::Plan { cat } => push_named(out, Fixed::Plan, *cat)?,
        Command::Object { cat, name, lit } => {
            push_named(out, Fixed::Object, *cat)?;
            out.push(Symbol::Name(*name))?;
            out.push(Symbol::Fixed(Fixed::Equals))?;
            push_object(out, lit)?;
        }
        Command::Src { name, of } => {
            push_let(out, *name)?;
            out.push(Symbol::Fixed(Fixed::Src))?;
            push_ref(out, *of)?;
        }
        Command::Tgt { name, of } => {
            push_let(out, *name)?;
            out.push(Symbol::Fixed(Fixed::Tgt))?;
            push_ref(out, *of)?;
        }
        Command::Let {
            name,
            cat,
            src,
            tgt,
            lit,
        } => {
            push_let(out, *name)?;
            out.push(Symbol::Name(*cat))?;
            push_literal(out, *src, *tgt, lit)?;
        }
        Command::Call {
            name,
            cat,
            op,
            args,
        } => {
            push_let(out, *name)?;
            out.push(Symbol::Name(*cat))?;
            out.push(Symbol::Operation(*op))?;
            push_args(out, args.as_slice())?;
        }
    }
    out.push(Symbol::Fixed(Fixed::Newline))?;
    Ok(())
}
