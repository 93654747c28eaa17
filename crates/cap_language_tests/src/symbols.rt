// What no clause says: worked examples, and that the call succeeds where there is memory.
use cap_grammar::Symbol;
use cap_names::OpId;
use cap_symbols::symbols;
use std::alloc::{AllocError, Global};
use std::process::Abort;
use std::test::Fail;

/// The symbols of a small text with their places.
fn shown(rt: &impl Abort, alloc: Global, text: &[u8]) -> Result<String, AllocError> {
    let mut line = String::new(alloc);
    assert!(rt; text.len() < 1000);
    match symbols(alloc, text) {
        Ok((symbols, places)) => {
            for (symbol, place) in symbols.iter().zip(places.iter()) {
                match symbol {
                    Symbol::Fixed(fixed) => line.push_str(cap_symbols::fixed_text(*fixed))?,
                    Symbol::Operation(OpId(op)) => {
                        line.push_str("op ")?;
                        line.push_str(op.to_string(alloc)?.as_str())?;
                    }
                    Symbol::Name(name) => {
                        line.push_str("name ")?;
                        line.push_str(name.as_str())?;
                    }
                    Symbol::Number(number) => line.push_str(number.to_string(alloc)?.as_str())?,
                    Symbol::Nought => line.push_str("nought")?,
                }
                line.push_str(" at ")?;
                line.push_str(place.line.to_string(alloc)?.as_str())?;
                line.push_str(":")?;
                line.push_str(place.column.to_string(alloc)?.as_str())?;
                line.push_str(", ")?;
            }
        }
        Err(fault) => line.push_str(fault.to_string(alloc)?.as_str())?,
    }
    Ok(line)
}

#[test]
fn small_texts_have_these_symbols(rt: HostRuntime) -> Result<(), Fail> {
    let table: [(&[u8], &str); 7] = [
        (b"", ""),
        (
            b"vec Vec add Add",
            "vec at 1:1, name Vec at 1:5, add at 1:9, op 4 at 1:13, ",
        ),
        (
            b"0 00 007\n 12",
            "nought at 1:1, 0 at 1:3, 7 at 1:6, \n at 1:9, 12 at 2:2, ",
        ),
        (
            b"a->b # -> c\n]",
            "name a at 1:1, -> at 1:2, name b at 1:4, \n at 1:12, ] at 2:1, ",
        ),
        (b"9999999999999999", "9999999999999999 at 1:1, "),
        (b"Product product", "op 12 at 1:1, product at 1:9, "),
        (b"a ?", "byte 2 is in no token"),
    ];
    for (text, expected) in &table {
        let line = shown(&rt, rt.alloc(), text)?;
        assert_eq!(rt; line.as_str(), *expected);
    }
    Ok(())
}
