// What no clause says: worked examples, printed text, and that calls which want memory succeed.
use cap_names::{
    BadScript, EntryLit, Items, MatLit, Name, NoMemory, ObjLit, OpId, Reason, TokenFault,
    TokenKind, TooLarge, line_column, op_by_name, op_name, tokens,
};
use std::alloc::{AllocError, Global};
use std::collections::HashSet;
use std::process::Abort;
use std::test::Fail;

/// The tokens of a small text, one letter for each kind with its place, or the bad byte.
fn shown(rt: &impl Abort, alloc: Global, text: &[u8]) -> Result<String, AllocError> {
    let mut line = String::new(alloc);
    assert!(rt; text.len() < 1000);
    match tokens(alloc, text) {
        Ok(tokens) => {
            for token in &tokens {
                let kind = match token.kind {
                    TokenKind::Word => "W",
                    TokenKind::Number => "N",
                    TokenKind::Mark => "M",
                    TokenKind::Newline => "L",
                };
                line.push_str(kind)?;
                line.push_str(token.start.to_string(alloc)?.as_str())?;
                line.push_str("-")?;
                line.push_str(token.end.to_string(alloc)?.as_str())?;
                line.push_str(" ")?;
            }
        }
        Err(fault) => line.push_str(fault.to_string(alloc)?.as_str())?,
    }
    Ok(line)
}

#[test]
fn small_texts_have_these_tokens(rt: HostRuntime) -> Result<(), Fail> {
    let table: [(&[u8], &str); 26] = [
        (b"", ""),
        (b"a 1", "W0-1 N2-3 "),
        (b"a ?", "byte 2 is in no token"),
        (b"x-->y", "W0-1 M1-2 M2-4 W4-5 "),
        (b"->>", "byte 2 is in no token"),
        (b"->->", "M0-2 M2-4 "),
        (b">", "byte 0 is in no token"),
        (b"a > b", "byte 2 is in no token"),
        (b"12ab", "N0-2 W2-4 "),
        (b"a_1_", "W0-4 "),
        (b"_a", "byte 0 is in no token"),
        (b"-5", "M0-1 N1-2 "),
        (b"[1 2; 3]", "M0-1 N1-2 N3-4 M4-5 N6-7 M7-8 "),
        (
            b"(){};=.*+",
            "M0-1 M1-2 M2-3 M3-4 M4-5 M5-6 M6-7 M7-8 M8-9 ",
        ),
        (b"\n\n", "L0-1 L1-2 "),
        (b" \t\r", ""),
        (b"\x0b", "byte 0 is in no token"),
        (b"a#b\x00\xff?\nc", "W0-1 L6-7 W7-8 "),
        (b"# all", ""),
        (b"a\x00", "byte 1 is in no token"),
        (b"a\xc3\xa9", "byte 1 is in no token"),
        (b"abcdefghijklmnopqrstuvwxyz012345", "W0-32 "),
        (
            b"abcdefghijklmnopqrstuvwxyz0123456",
            "byte 32 is in no token",
        ),
        (b"1234567890123456", "N0-16 "),
        (b" 12345678901234567 ?", "byte 17 is in no token"),
        (b"1234567890123456a", "N0-16 W16-17 "),
    ];
    for (text, want) in table {
        let line = shown(&rt, rt.alloc(), text)?;
        assert_eq!(rt; line.as_str(), want);
    }
    Ok(())
}

#[test]
fn places_are_lines_and_columns(rt: HostRuntime) {
    let table: [(&[u8], usize, u32, u32); 7] = [
        (b"", 0, 1, 1),
        (b"ab\ncd", 0, 1, 1),
        (b"ab\ncd", 2, 1, 3),
        (b"ab\ncd", 3, 2, 1),
        (b"ab\ncd", 5, 2, 3),
        (b"\n\n", 2, 3, 1),
        (b"category V vec # x", 18, 1, 19),
    ];
    for (text, place, line, column) in table {
        assert!(rt; text.len() < 1000 && place <= text.len());
        assert_eq!(rt; line_column(text, place), (line, column), "at {place}");
    }
}

#[test]
fn operations_have_these_names(rt: HostRuntime) {
    let table: [(u8, &str); 5] = [
        (1, "Identity"),
        (16, "Kernel"),
        (29, "Inverse"),
        (36, "Image"),
        (44, "IsExact"),
    ];
    for (number, name) in table {
        assert_eq!(rt; op_by_name(name.as_bytes()), Some(OpId(number)));
        assert!(rt; 1 <= number && number <= 44);
        assert_eq!(rt; op_name(OpId(number)), name);
    }
    for number in 1..45 {
        assert_eq!(rt;
            op_by_name(op_name(OpId(number)).as_bytes()),
            Some(OpId(number))
        );
    }
    for word in ["", "kernel", "Kernels", "Kerne", "register"] {
        assert_eq!(rt; op_by_name(word.as_bytes()), None);
    }
}

#[test]
fn words_are_names(rt: HostRuntime) -> Result<(), Fail> {
    for word in ["a", "Z", "f_1", "abcdefghijklmnopqrstuvwxyz012345"] {
        let name = Name::new(word.as_bytes()).ok_or("a name")?;
        assert_eq!(rt; name.as_str(), word);
        assert_eq!(rt; name.to_string(rt.alloc())?.as_str(), word);
    }
    for word in [
        "",
        "1a",
        "_a",
        "a-b",
        "a b",
        "abcdefghijklmnopqrstuvwxyz0123456",
    ] {
        assert_eq!(rt; Name::new(word.as_bytes()), None);
    }
    let short = Name::new(b"ab").ok_or("a name")?;
    let long = Name::new(b"ab_").ok_or("a name")?;
    let other = Name::new(b"b").ok_or("a name")?;
    assert!(rt; short == short && short != long);
    assert!(rt; short < long && long < other);
    assert_eq!(rt; format!(in rt.alloc(); "{short:?}")?.as_str(), "\"ab\"");
    let mut bound = HashSet::new(rt.alloc());
    assert!(rt; bound.insert(short)? && !bound.insert(short)?);
    assert!(rt; bound.contains(&short) && !bound.contains(&long));
    Ok(())
}

#[test]
fn reasons_and_faults_have_these_texts(rt: HostRuntime) -> Result<(), Fail> {
    let reasons = [
        (Reason::Token, "token"),
        (Reason::Syntax, "syntax"),
        (Reason::Known, "known"),
        (Reason::Taken, "taken"),
        (Reason::Sort, "sort"),
        (Reason::Prime, "prime"),
        (Reason::Limit, "limit"),
    ];
    for (reason, word) in reasons {
        assert_eq!(rt; reason.word(), word);
    }
    let size = TooLarge {
        rows: 1,
        cols: 3000,
    };
    assert_eq!(rt;
        size.to_string(rt.alloc())?.as_str(),
        "a matrix of 1 rows and 3000 columns is past the limits"
    );
    let fault = BadScript {
        line: 3,
        column: 22,
        reason: Reason::Syntax,
    };
    assert_eq!(rt;
        fault.to_string(rt.alloc())?.as_str(),
        "bad script: line 3 column 22 syntax"
    );
    assert_eq!(rt; NoMemory.to_string(rt.alloc())?.as_str(), "out of memory");
    assert_eq!(rt;
        TokenFault::NoMemory.to_string(rt.alloc())?.as_str(),
        "out of memory"
    );
    Ok(())
}

#[test]
fn lists_are_copied_and_compared(rt: HostRuntime) -> Result<(), Fail> {
    let mut row = Items::new(Vec::new(rt.alloc()));
    assert!(rt; row.is_empty());
    row.push(EntryLit::Int(-1))?;
    row.push(EntryLit::Coeffs(Items::new(vec![in rt.alloc(); 2, 3]?)))?;
    assert_eq!(rt; row.len(), 2);
    assert!(rt; row.as_slice().get(0) == Some(&EntryLit::Int(-1)));
    let mut rows = Items::new(Vec::new(rt.alloc()));
    rows.push(row)?;
    let rho = MatLit { rows };
    let copy = rho.clone()?;
    assert!(rt; copy == rho);
    let src = Items::new(vec![in rt.alloc(); 0]?);
    let tgt = src.clone()?;
    let object = ObjLit::Relation { src, tgt, rho };
    assert!(rt; object == object.clone()?);
    assert!(rt; object != ObjLit::Dim(1));
    assert_eq!(rt; copy.rows.into_vec().len(), 1);
    Ok(())
}
