// The reserved words and the marks, as they are written.
ghost use Rattle.std.specs.Prelude.{◌≡◌, MatchOption};
ghost use Rattle.cap_grammar.specs.declared.symbol.Fixed.{Fixed};
ghost use Rattle.cap_grammar.specs.Texts.{fixed_text};
ghost use Rattle.cap_symbols.specs.Words.{all_fixed};

use cap_grammar::Fixed;

/// The reserved words and the marks.
const ALL: [Fixed; 40] = [
    Fixed::Table,
    Fixed::Quiver,
    Fixed::Prime,
    Fixed::Bound,
    Fixed::Objects,
    Fixed::Basis,
    Fixed::Unit,
    Fixed::Product,
    Fixed::Arrow,
    Fixed::Relation,
    Fixed::End,
    Fixed::Category,
    Fixed::Vec,
    Fixed::Add,
    Fixed::Freyd,
    Fixed::Rep,
    Fixed::Session,
    Fixed::Register,
    Fixed::Finalise,
    Fixed::Plan,
    Fixed::Object,
    Fixed::Let,
    Fixed::Src,
    Fixed::Tgt,
    Fixed::Dims,
    Fixed::Maps,
    Fixed::To,
    Fixed::Open,
    Fixed::Close,
    Fixed::OpenRound,
    Fixed::CloseRound,
    Fixed::OpenBrace,
    Fixed::CloseBrace,
    Fixed::Semicolon,
    Fixed::Equals,
    Fixed::Dot,
    Fixed::Star,
    Fixed::Plus,
    Fixed::Minus,
    Fixed::Newline,
];

fn all() -> &'static [Fixed; 40]
    ensures { result.now ≡ all_fixed }
{
    &ALL
}

/// How a reserved word or a mark is written.
pub fn fixed_text(fixed: Fixed) -> &'static str
    ensures { result.now ≡ fixed_text fixed }
{
    match fixed {
        Fixed::Table => "table",
        Fixed::Quiver => "quiver",
        Fixed::Prime => "prime",
        Fixed::Bound => "bound",
        Fixed::Objects => "objects",
        Fixed::Basis => "basis",
        Fixed::Unit => "unit",
        Fixed::Product => "product",
        Fixed::Arrow => "arrow",
        Fixed::Relation => "relation",
        Fixed::End => "end",
        Fixed::Category => "category",
        Fixed::Vec => "vec",
        Fixed::Add => "add",
        Fixed::Freyd => "freyd",
        Fixed::Rep => "rep",
        Fixed::Session => "session",
        Fixed::Register => "register",
        Fixed::Finalise => "finalise",
        Fixed::Plan => "plan",
        Fixed::Object => "object",
        Fixed::Let => "let",
        Fixed::Src => "src",
        Fixed::Tgt => "tgt",
        Fixed::Dims => "dims",
        Fixed::Maps => "maps",
        Fixed::To => "->",
        Fixed::Open => "[",
        Fixed::Close => "]",
        Fixed::OpenRound => "(",
        Fixed::CloseRound => ")",
        Fixed::OpenBrace => "{",
        Fixed::CloseBrace => "}",
        Fixed::Semicolon => ";",
        Fixed::Equals => "=",
        Fixed::Dot => ".",
        Fixed::Star => "*",
        Fixed::Plus => "+",
        Fixed::Minus => "-",
        Fixed::Newline => "\n",
    }
}

/// The reserved word or the mark that is written so.
pub(crate) fn fixed_by_text(text: &[u8]) -> Option<Fixed>
    ensures { MatchOption result ((w : Fixed) → fixed_text w ≡ text.now → ⊥) (λ w. fixed_text w ≡ text.now) }
{
    'words: for fixed in all() {
        if fixed_text(*fixed).as_bytes() == text {
            return Some(*fixed);
        }
    }
    None
}
