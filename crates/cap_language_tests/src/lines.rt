//! A text with empty lines and without a last LF.

use cap_grammar::{Fixed, Place, Symbol};
use cap_lines::{place_node, position, whole_lines};

const NEWLINE: Symbol = Symbol::Fixed(Fixed::Newline);

const END: Symbol = Symbol::Fixed(Fixed::End);

fn place(line: u32, column: u32) -> Place {
    Place { line, column }
}

#[test]
fn empty_lines_go_and_the_last_line_ends(rt: HostRuntime) {
    let alloc = rt.alloc();
    let symbols = [NEWLINE, END, NEWLINE, NEWLINE, END, Symbol::Nought];
    let places = [
        place(1, 1),
        place(2, 1),
        place(2, 4),
        place(3, 1),
        place(4, 2),
        place(4, 6),
    ];
    let Ok((kept, kept_places)) = whole_lines(alloc, &symbols, &places, place(4, 7)) else {
        assert!(rt; false);
        return;
    };
    assert!(rt; kept.as_slice() == [END, NEWLINE, END, Symbol::Nought, NEWLINE].as_slice());
    assert!(rt;
        kept_places.as_slice()
            == [
                place(2, 1),
                place(2, 4),
                place(4, 2),
                place(4, 6),
                place(4, 7)
            ]
            .as_slice()
    );
    for (number, before) in [(0, 1), (1, 2), (2, 4), (3, 5), (4, 6), (5, 6)] {
        assert_eq!(rt; position(&symbols, number), before);
    }
    let Ok((placed, others)) = place_node(alloc, 7_u8, kept_places.as_slice(), 2) else {
        assert!(rt; false);
        return;
    };
    assert_eq!(rt; placed.node, 7);
    assert!(rt; placed.places.as_slice() == [place(2, 1), place(2, 4)].as_slice());
    assert_eq!(rt; others.len(), 3);
}
