// Literals with one byte for each symbol.
use cap_grammar::{Fixed, ObjTok, Symbol};
use cap_literals::{
    arg_of, combo_of, int_of, list_of, morphism_of, object_of, path_of, ref_of, rows_of, sum_of,
};
use cap_names::{Items, Name};
use cap_reading::ReadError;
use std::alloc::{AllocFailed, Global};
use std::test::Fail;

/// A part, its text, whether a value is read, and how many symbols are left.
static CASES: [(&'static str, &'static [u8], bool, usize); 42] = [
    ("int", b"-5a", true, 1),
    ("int", b"z0", true, 1),
    ("int", b"--5", false, 2),
    ("int", b"-", false, 0),
    ("ref", b"a.2b", true, 1),
    ("ref", b"a.b", false, 1),
    ("arg", b"a.1", true, 0),
    ("arg", b"-3-", true, 1),
    ("arg", b"=", false, 1),
    ("list", b"[ab]c", true, 1),
    ("list", b"[]", true, 0),
    ("list", b"[a;", false, 1),
    ("path", b"a*b*c=", true, 1),
    ("path", b"=", false, 1),
    ("path", b"a*", false, 0),
    ("combo", b"0;", true, 1),
    ("combo", b"0a+2b", true, 0),
    ("combo", b"-0a;", true, 1),
    ("combo", b"z;", false, 1),
    ("combo", b"0+1a", true, 3),
    ("combo", b"2;", false, 1),
    ("combo", b"1a+;", false, 1),
    ("sum", b"2a*b+-1c;", true, 1),
    ("sum", b"2a+0;", false, 1),
    ("rows", b"[1-2;(34)5]", true, 0),
    ("rows", b"[]]", true, 1),
    ("rows", b"[()]", true, 0),
    ("rows", b"[1;]", false, 1),
    ("rows", b"[;1]", false, 3),
    ("rows", b"[(1", false, 0),
    ("object", b"7a", true, 1),
    ("object", b"[ab];", true, 1),
    ("object", b"[ab]>[c][12]", true, 0),
    ("object", b"[ab]>;", false, 1),
    ("object", b"D20Ma*b=[1]c=[];", true, 1),
    ("object", b"D1;", true, 1),
    ("object", b"DM", false, 1),
    ("object", b"a", false, 1),
    ("morphism", b"[12;3];", true, 1),
    ("morphism", b"{[1][]}", true, 0),
    ("morphism", b"{[1];", false, 1),
    ("morphism", b"1", false, 1),
];

/// A digit is its number, `z` the token `00`, `D` is `dims`, `M` is `maps`, `>` is `->`, and a letter is a name.
fn symbol_of(byte: u8) -> Symbol {
    match byte {
        b'0' => Symbol::Nought,
        b'1'..=b'9' => Symbol::Number((byte - b'0') as u64),
        b'z' => Symbol::Number(0),
        b'D' => Symbol::Fixed(Fixed::Dims),
        b'M' => Symbol::Fixed(Fixed::Maps),
        b'>' => Symbol::Fixed(Fixed::To),
        b'[' => Symbol::Fixed(Fixed::Open),
        b']' => Symbol::Fixed(Fixed::Close),
        b'(' => Symbol::Fixed(Fixed::OpenRound),
        b')' => Symbol::Fixed(Fixed::CloseRound),
        b'{' => Symbol::Fixed(Fixed::OpenBrace),
        b'}' => Symbol::Fixed(Fixed::CloseBrace),
        b';' => Symbol::Fixed(Fixed::Semicolon),
        b'=' => Symbol::Fixed(Fixed::Equals),
        b'.' => Symbol::Fixed(Fixed::Dot),
        b'*' => Symbol::Fixed(Fixed::Star),
        b'+' => Symbol::Fixed(Fixed::Plus),
        b'-' => Symbol::Fixed(Fixed::Minus),
        _ => match Name::new(&[byte]) {
            Some(name) => Symbol::Name(name),
            None => Symbol::Fixed(Fixed::Newline),
        },
    }
}

fn symbols(alloc: Global, text: &[u8]) -> Result<Vec<Symbol>, AllocFailed<Symbol>> {
    let mut symbols = Vec::new(alloc);
    for byte in text {
        symbols.push(symbol_of(*byte))?;
    }
    Ok(symbols)
}

/// Whether there is a value, and how many symbols are left.
fn seen<T>(read: &Result<(T, &[Symbol]), ReadError<'_, Symbol>>) -> Option<(bool, usize)> {
    match read {
        Ok((_, rest)) => Some((true, rest.len())),
        Err(ReadError::Syntax(rest)) => Some((false, rest.len())),
        Err(ReadError::Memory) => None,
    }
}

fn seen_of(alloc: Global, part: &str, text: &[Symbol]) -> Option<(bool, usize)> {
    match part {
        "int" => seen(&int_of(text)),
        "ref" => seen(&ref_of(text)),
        "arg" => seen(&arg_of(text)),
        "list" => seen(&list_of(alloc, text)),
        "path" => seen(&path_of(alloc, text)),
        "combo" => seen(&combo_of(alloc, text)),
        "sum" => seen(&sum_of(alloc, text)),
        "rows" => seen(&rows_of(alloc, text)),
        "object" => seen(&object_of(alloc, text)),
        _ => seen(&morphism_of(alloc, text)),
    }
}

#[test]
fn literals_and_faults(rt: HostRuntime) -> Result<(), Fail> {
    for (part, text, read, left) in &CASES {
        let symbols = symbols(rt.alloc(), text)?;
        assert_eq!(rt;
            seen_of(rt.alloc(), part, symbols.as_slice()),
            Some((*read, *left))
        );
    }
    Ok(())
}

#[test]
fn values_of_literals(rt: HostRuntime) -> Result<(), Fail> {
    let text = symbols(rt.alloc(), b"0a+-7b")?;
    match combo_of(rt.alloc(), text.as_slice()) {
        Ok((terms, _)) => {
            assert_eq!(rt; terms.len(), 2);
            assert_eq!(rt; terms.as_slice()[0].coeff.digits, 0);
            assert!(rt; terms.as_slice()[1].coeff.minus);
            assert_eq!(rt; terms.as_slice()[1].coeff.digits, 7);
        }
        Err(_) => assert!(rt; false),
    }
    let text = symbols(rt.alloc(), b"D20;")?;
    let expected = ObjTok::Dims {
        dims: Items::new(vec![in rt.alloc(); 2, 0]?),
        maps: None,
    };
    match object_of(rt.alloc(), text.as_slice()) {
        Ok((value, _)) => assert!(rt; value == expected),
        Err(_) => assert!(rt; false),
    }
    Ok(())
}
