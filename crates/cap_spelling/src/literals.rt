// The symbols of object literals.
ghost use Rattle.std.specs.Prelude.{◌≡◌, ◌++◌, OnOk};
ghost use Rattle.std.specs.List.{flat_map};
ghost use Rattle.cap_spelling.specs.Spelling.{number_symbols, list_symbols, map_symbols, maps_symbols, object_symbols};

use crate::matrices::push_rows;
use crate::words::{number_symbol, push_names, push_path};
use cap_grammar::{Fixed, ObjTok, RowsTok, Symbol};
use cap_names::{Items, Name};
use std::alloc::AllocError;

fn push_list(out: &mut Vec<Symbol>, names: &[Name]) -> Result<(), AllocError>
    ensures { OnOk result (out.new.items ≡ out.old.items ++ list_symbols names.now) }
{
    out.push(Symbol::Fixed(Fixed::Open))?;
    push_names(out, names)?;
    out.push(Symbol::Fixed(Fixed::Close))?;
    Ok(())
}

fn push_numbers(out: &mut Vec<Symbol>, numbers: &[u64]) -> Result<(), AllocError>
    ensures { OnOk result (out.new.items ≡ out.old.items ++ flat_map number_symbols numbers.now) }
{
    'numbers: for number in numbers {
        out.push(number_symbol(*number))?;
    }
    Ok(())
}

fn push_map(out: &mut Vec<Symbol>, map: &(Items<Name>, RowsTok)) -> Result<(), AllocError>
    ensures { OnOk result (out.new.items ≡ out.old.items ++ map_symbols map.now) }
{
    push_path(out, map.0.as_slice())?;
    out.push(Symbol::Fixed(Fixed::Equals))?;
    push_rows(out, &map.1)?;
    Ok(())
}

fn push_each_map(out: &mut Vec<Symbol>, maps: &[(Items<Name>, RowsTok)]) -> Result<(), AllocError>
    ensures { OnOk result (out.new.items ≡ out.old.items ++ flat_map map_symbols maps.now) }
{
    'maps: for map in maps {
        push_map(out, map)?;
    }
    Ok(())
}

fn push_maps(
    out: &mut Vec<Symbol>,
    maps: &Option<Items<(Items<Name>, RowsTok)>>,
) -> Result<(), AllocError>
    ensures { OnOk result (out.new.items ≡ out.old.items ++ maps_symbols maps.now) }
{
    if let Some(maps) = maps {
        out.push(Symbol::Fixed(Fixed::Maps))?;
        push_each_map(out, maps.as_slice())?;
    }
    Ok(())
}

pub(crate) fn push_object(out: &mut Vec<Symbol>, literal: &ObjTok) -> Result<(), AllocError>
    ensures { OnOk result (out.new.items ≡ out.old.items ++ object_symbols literal.now) }
{
    match literal {
        ObjTok::Dim(number) => out.push(number_symbol(*number))?,
        ObjTok::Parts(names) => push_list(out, names.as_slice())?,
        ObjTok::Relation { src, tgt, rho } => {
            push_list(out, src.as_slice())?;
            out.push(Symbol::Fixed(Fixed::To))?;
            push_list(out, tgt.as_slice())?;
            push_rows(out, rho)?;
        }
        ObjTok::Dims { dims, maps } => {
            out.push(Symbol::Fixed(Fixed::Dims))?;
            push_numbers(out, dims.as_slice())?;
            push_maps(out, maps)?;
        }
    }
    Ok(())
}
