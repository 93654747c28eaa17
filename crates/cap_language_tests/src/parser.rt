//! Scripts of symbols, and where reading them fails.

use cap_grammar::{Command, Fixed, Item, Over, Place, Symbol};
use cap_names::{Name, OpId};
use cap_parser::{ScriptFault, read_script};
use std::alloc::{AllocError, Global};
use std::process::Abort;

/// The symbols of a text of words between blanks, `|` for an LF. Of the reserved words it knows those of the tests.
fn symbols(rt: &impl Abort, alloc: Global, text: &str) -> Result<Vec<Symbol>, AllocError> {
    let mut symbols = Vec::new(alloc);
    for word in text.split(' ') {
        let symbol = match word {
            "|" => Symbol::Fixed(Fixed::Newline),
            "table" => Symbol::Fixed(Fixed::Table),
            "prime" => Symbol::Fixed(Fixed::Prime),
            "objects" => Symbol::Fixed(Fixed::Objects),
            "unit" => Symbol::Fixed(Fixed::Unit),
            "end" => Symbol::Fixed(Fixed::End),
            "category" => Symbol::Fixed(Fixed::Category),
            "vec" => Symbol::Fixed(Fixed::Vec),
            "session" => Symbol::Fixed(Fixed::Session),
            "let" => Symbol::Fixed(Fixed::Let),
            "src" => Symbol::Fixed(Fixed::Src),
            "object" => Symbol::Fixed(Fixed::Object),
            "dims" => Symbol::Fixed(Fixed::Dims),
            "maps" => Symbol::Fixed(Fixed::Maps),
            "finalise" => Symbol::Fixed(Fixed::Finalise),
            "=" => Symbol::Fixed(Fixed::Equals),
            "->" => Symbol::Fixed(Fixed::To),
            "[" => Symbol::Fixed(Fixed::Open),
            "]" => Symbol::Fixed(Fixed::Close),
            "KernelObject" => Symbol::Operation(OpId(19)),
            "0" => Symbol::Nought,
            "5" => Symbol::Number(5),
            name => match Name::new(name.as_bytes()) {
                Some(name) => Symbol::Name(name),
                None => {
                    assert!(rt; false);
                    Symbol::Nought
                }
            },
        };
        symbols.push(symbol)?;
    }
    Ok(symbols)
}

/// The places of so many symbols, all in line 1: columns 1, 2 and so on.
fn columns(alloc: Global, count: usize) -> Result<Vec<Place>, AllocError> {
    let mut places = Vec::new(alloc);
    let mut column = 0_u32;
    for _ in 0..count {
        column = column.saturating_add(1);
        places.push(Place { line: 1, column })?;
    }
    Ok(places)
}

fn are_columns(places: &[Place], columns: &[u32]) -> bool {
    if places.len() != columns.len() {
        return false;
    }
    let mut same = true;
    for (place, column) in places.iter().zip(columns.iter()) {
        same = same && place.line == 1 && place.column == *column;
    }
    same
}

#[test]
fn nodes_keep_the_places_of_their_symbols(rt: HostRuntime) -> Result<(), AllocError> {
    let alloc = rt.alloc();
    let text = "| category V vec 5 | | session S | finalise V | | let x = V KernelObject f | end";
    let symbols = symbols(&rt, alloc, text)?;
    let places = columns(alloc, symbols.len())?;
    let end = Place {
        line: 1,
        column: 23,
    };
    let (symbols, places) = (symbols.as_slice(), places.as_slice());
    assert!(rt; symbols.len() == places.len());
    let Ok(script) = read_script(alloc, symbols, places, end) else {
        assert!(rt; false);
        return Ok(());
    };
    let prelude = script.prelude.as_slice();
    assert_eq!(rt; prelude.len(), 1);
    match prelude[0].node {
        Item::Category {
            over: Over::Vec(prime),
            ..
        } => assert_eq!(rt; prime, 5),
        _ => assert!(rt; false),
    }
    assert!(rt; are_columns(prelude[0].places.as_slice(), [2, 3, 4, 5, 6].as_slice()));
    let sessions = script.sessions.as_slice();
    assert_eq!(rt; sessions.len(), 1);
    assert!(rt; are_columns(sessions[0].places.as_slice(), [8, 9, 10, 22, 23].as_slice()));
    let commands = sessions[0].node.commands.as_slice();
    assert_eq!(rt; commands.len(), 2);
    match &commands[1].node {
        Command::Call { args, .. } => assert_eq!(rt; args.len(), 1),
        _ => assert!(rt; false),
    }
    assert!(rt; are_columns(commands[0].places.as_slice(), [11, 12, 13].as_slice()));
    assert!(rt;
        are_columns(
            commands[1].places.as_slice(),
            [15, 16, 17, 18, 19, 20, 21].as_slice()
        )
    );
    Ok(())
}

#[test]
fn faults_are_where_no_script_goes_on(rt: HostRuntime) -> Result<(), AllocError> {
    let alloc = rt.alloc();
    let cases = [
        ("session S |", 3),
        ("session S | finalise V | end session", 7),
        ("table T prime 5 | objects |", 6),
        ("object V X = dims 5 maps maps |", 7),
        ("category V vec 5 | | finalise", 7),
        ("let x = src src |", 4),
        ("end |", 0),
    ];
    for (text, before) in cases {
        let symbols = symbols(&rt, alloc, text)?;
        let places = columns(alloc, symbols.len())?;
        let end = Place { line: 2, column: 1 };
        let (symbols, places) = (symbols.as_slice(), places.as_slice());
        assert!(rt; symbols.len() == places.len());
        match read_script(alloc, symbols, places, end) {
            Err(ScriptFault::Syntax(found)) => assert_eq!(rt; found, before),
            _ => assert!(rt; false),
        }
    }
    Ok(())
}
