// Reading certificates token by token.
ghost use Rattle.std.specs.Prelude.{◌≡◌, ◌<◌, ◌^◌, ◌+◌, ◌≤◌, ◌&&◌, ◌==◌, codes, nat_lt, not};
ghost use Rattle.cap_cert.specs.Reading.{line_end, value};
ghost use Rattle.cap_cert.specs.Machine.{go, is, is_number, may_begin, kind_named, kind_goes, place_of, reg_goes, line_goes, op_goes, way_goes, next_by, read_behind, step, state_of, IsInside, IsInsideNext};

use super::machine::{Next, State};
use super::words::{
    is, is_name, is_number, is_within, kind_named, operation_word, place_of, value,
};
use cap_ops::{MOST_WEIGHT, NO_PLAN, OPERATIONS};

/// To where, if the test passes.
fn go(test: bool, to: Next) -> Option<Next>
    ensures { result ≡ go test to }
{
    if test { Some(to) } else { None }
}

/// Whether a certificate may begin behind so many.
#[tactic(auto, unfolding(crate::specs::Machine::may_begin))]
fn may_begin(strict: bool, read: usize) -> bool
    ensures { result ≡ may_begin strict read }
{
    !strict || read < 16
}

/// Whether the text begins a certificate behind so many.
fn is_first(strict: bool, read: usize, text: &[u8]) -> bool
    ensures { result ≡ (is (codes "certificate") text.now && may_begin strict read) }
{
    is("certificate", text) && may_begin(strict, read)
}

/// Whether the text is the number of the version.
#[tactic(auto, using(crate::proofs::WordTests::number_only))]
fn is_version(text: &[u8]) -> bool
    ensures { result ≡ (is_number text.now && value text.now == 1) }
{
    is_number(text) && value(text) == 1
}

/// Whether the text ends a line.
fn is_end(text: &[u8]) -> bool
    ensures { result ≡ is line_end text.now }
{
    is("\n", text)
}

/// What comes behind a kind's word.
fn behind_kind(text: &[u8]) -> Option<Next>
    ensures { result ≡ kind_goes (kind_named text.now) }
{
    match kind_named(text) {
        Some(_) => Some(Next::HeadEnd),
        None => None,
    }
}

/// What comes behind the first word of a line.
fn behind_line(place: u8, text: &[u8]) -> Option<Next>
    ensures { result ≡ line_goes place (is (codes "reg") text.now) (is (codes "op") text.now) }
{
    if is("reg", text) {
        go((place as usize) < OPERATIONS, Next::RegName(place))
    } else {
        go(is("op", text), Next::OpName(0))
    }
}

/// What comes behind the name of a registered operation.
fn behind_reg(place: u8, text: &[u8]) -> Option<Next>
    ensures { result ≡ reg_goes place (place_of text.now) }
{
    match place_of(text) {
        Some(found) => go(found >= place, Next::Weight(found)),
        None => None,
    }
}

/// What comes behind the first word of an operation's line, or of the last.
fn behind_op(place: u8, text: &[u8]) -> Option<Next>
    ensures { result ≡ op_goes place (nat_lt place OPERATIONS) (is (codes "op") text.now) (is (codes "end") text.now) }
{
    if (place as usize) < OPERATIONS {
        go(is("op", text), Next::OpName(place))
    } else {
        go(is("end", text), Next::LastEnd)
    }
}

/// What comes behind the word that says how an operation is done.
fn behind_way(place: u8, text: &[u8]) -> Option<Next>
    ensures { result ≡ way_goes place (is (codes "prim") text.now) (is (codes "rule") text.now) (is (codes "missing") text.now) }
{
    if is("prim", text) {
        return Some(Next::Bound(place));
    }
    if is("rule", text) {
        return Some(Next::Rule(place));
    }
    go(is("missing", text), Next::OpEnd(place))
}

/// What comes behind a token, if the token can come.
fn next_by(strict: bool, read: usize, next: Next, text: &[u8]) -> Option<Next>
    requires { IsInsideNext strict read next }
    ensures { result ≡ next_by strict read next text.now }
{
    match next {
        Next::Start => go(is_first(strict, read, text), Next::Version),
        Next::Version => go(is_version(text), Next::Name),
        Next::Name => go(is_name(text), Next::Kind),
        Next::Kind => behind_kind(text),
        Next::HeadEnd => go(is_end(text), Next::Line(0)),
        Next::Line(place) => behind_line(place, text),
        Next::RegName(place) => behind_reg(place, text),
        Next::Weight(place) => go(
            is_within(strict, 1, MOST_WEIGHT as u64, text),
            Next::RegEnd(place),
        ),
        Next::RegEnd(place) => go(is_end(text), Next::Line(place + 1)),
        Next::OpLine(place) => behind_op(place, text),
        Next::OpName(place) => go(is(operation_word(place as usize), text), Next::Way(place)),
        Next::Way(place) => behind_way(place, text),
        Next::Rule(place) => go(is_within(strict, 1, 59, text), Next::Bound(place)),
        Next::Bound(place) => go(is_within(strict, 0, NO_PLAN, text), Next::OpEnd(place)),
        Next::OpEnd(place) => go(is_end(text), Next::OpLine(place + 1)),
        Next::LastEnd => go(is_end(text), Next::Start),
    }
}

/// How many certificates are read behind a token.
fn read_behind(read: usize, next: Next) -> usize
    requires { read + 1 < 2 ^ 64 }
    ensures { result ≡ read_behind read next }
{
    match next {
        Next::LastEnd => read + 1,
        _ => read,
    }
}

/// The state behind a token, if the token can come.
pub fn step(strict: bool, state: State, text: &[u8]) -> Option<State>
    requires inside { IsInside strict state }
    requires room { state.read + 1 < 2 ^ 64 }
    ensures { result ≡ step strict state text.now }
{
    match next_by(strict, state.read, state.next, text) {
        Some(next) => Some(State {
            read: read_behind(state.read, state.next),
            next,
        }),
        None => None,
    }
}
