// The symbols of numbers, names, references and sums.
ghost use Rattle.std.specs.Prelude.{◌≡◌, ◌++◌, ◌∷◌, [], OnOk};
ghost use Rattle.std.specs.List.{flat_map};
ghost use Rattle.cap_grammar.specs.declared.symbol.Fixed.TheVariants as word;
ghost use Rattle.cap_grammar.specs.declared.symbol.Symbol.TheVariants as symbol;
ghost use Rattle.cap_spelling.specs.Spelling.{number_symbol, name_symbols, int_symbols, ref_symbols, path_symbols, term_symbols, sum_symbols, combo_symbols, arg_symbols};

use cap_grammar::{ArgTok, Fixed, IntTok, RefTok, Symbol, TermTok};
use cap_names::Name;
use std::alloc::AllocError;

/// The symbol of a number.
pub(crate) fn number_symbol(number: u64) -> Symbol
    ensures { result ≡ number_symbol number }
{
    if number == 0 {
        Symbol::Nought
    } else {
        Symbol::Number(number)
    }
}

pub(crate) fn push_int(out: &mut Vec<Symbol>, integer: IntTok) -> Result<(), AllocError>
    ensures { OnOk result (out.new.items ≡ out.old.items ++ int_symbols integer) }
{
    if integer.minus {
        out.push(Symbol::Fixed(Fixed::Minus))?;
    }
    out.push(number_symbol(integer.digits))?;
    Ok(())
}

pub(crate) fn push_ref(out: &mut Vec<Symbol>, reference: RefTok) -> Result<(), AllocError>
    ensures { OnOk result (out.new.items ≡ out.old.items ++ ref_symbols reference) }
{
    out.push(Symbol::Name(reference.name))?;
    if let Some(part) = reference.part {
        out.push(Symbol::Fixed(Fixed::Dot))?;
        out.push(number_symbol(part))?;
    }
    Ok(())
}

pub(crate) fn push_arg(out: &mut Vec<Symbol>, arg: ArgTok) -> Result<(), AllocError>
    ensures { OnOk result (out.new.items ≡ out.old.items ++ arg_symbols arg) }
{
    match arg {
        ArgTok::Ref(reference) => push_ref(out, reference),
        ArgTok::Int(integer) => push_int(out, integer),
    }
}

pub(crate) fn push_args(out: &mut Vec<Symbol>, args: &[ArgTok]) -> Result<(), AllocError>
    ensures { OnOk result (out.new.items ≡ out.old.items ++ flat_map arg_symbols args.now) }
{
    'each: for arg in args {
        push_arg(out, *arg)?;
    }
    Ok(())
}

pub(crate) fn push_names(out: &mut Vec<Symbol>, names: &[Name]) -> Result<(), AllocError>
    ensures { OnOk result (out.new.items ≡ out.old.items ++ flat_map name_symbols names.now) }
{
    'names: for name in names {
        out.push(Symbol::Name(*name))?;
    }
    Ok(())
}

fn push_more_names(out: &mut Vec<Symbol>, names: &[Name]) -> Result<(), AllocError>
    ensures { OnOk result (out.new.items ≡ out.old.items ++ flat_map (λ n. symbol.Fixed word.Star ∷ name_symbols n) names.now) }
{
    'names: for name in names {
        out.push(Symbol::Fixed(Fixed::Star))?;
        out.push(Symbol::Name(*name))?;
    }
    Ok(())
}

pub(crate) fn push_path(out: &mut Vec<Symbol>, path: &[Name]) -> Result<(), AllocError>
    ensures { OnOk result (out.new.items ≡ out.old.items ++ path_symbols path.now) }
{
    if let [first, others @ ..] = path {
        out.push(Symbol::Name(*first))?;
        push_more_names(out, others)?;
    }
    Ok(())
}

fn push_term(out: &mut Vec<Symbol>, term: &TermTok) -> Result<(), AllocError>
    ensures { OnOk result (out.new.items ≡ out.old.items ++ term_symbols term.now) }
{
    push_int(out, term.coeff)?;
    push_path(out, term.path.as_slice())?;
    Ok(())
}

fn push_more_terms(out: &mut Vec<Symbol>, terms: &[TermTok]) -> Result<(), AllocError>
    ensures { OnOk result (out.new.items ≡ out.old.items ++ flat_map (λ t. symbol.Fixed word.Plus ∷ term_symbols t) terms.now) }
{
    'terms: for term in terms {
        out.push(Symbol::Fixed(Fixed::Plus))?;
        push_term(out, term)?;
    }
    Ok(())
}

pub(crate) fn push_sum(out: &mut Vec<Symbol>, sum: &[TermTok]) -> Result<(), AllocError>
    ensures { OnOk result (out.new.items ≡ out.old.items ++ sum_symbols sum.now) }
{
    if let [first, others @ ..] = sum {
        push_term(out, first)?;
        push_more_terms(out, others)?;
    }
    Ok(())
}

pub(crate) fn push_combo(out: &mut Vec<Symbol>, combo: &[TermTok]) -> Result<(), AllocError>
    ensures { OnOk result (out.new.items ≡ out.old.items ++ combo_symbols combo.now) }
{
    if let [first, others @ ..] = combo {
        push_term(out, first)?;
        push_more_terms(out, others)?;
    } else {
        out.push(Symbol::Nought)?;
    }
    Ok(())
}
