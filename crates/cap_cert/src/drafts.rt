// Certificates put together token by token.
ghost use Rattle.std.specs.Prelude.{◌≡◌, ◌<◌, ◌≤◌, ◌+◌, ◌^◌, ◌++◌, OnOk, OnErr, IfSome, codes, suc};
ghost use Rattle.cap_cert.specs.Machine.{is, kind_named, IsInsideNext};
ghost use Rattle.cap_cert.specs.Drafts.{blank, named, number_in, rule_of, kind_or, bound_or, with_primitive, act, line_behind, made, cert_named};

use super::certs::Cert;
use super::machine::Next;
use super::words::{is, is_within, kind_named, value};
use cap_names::{Name, NoMemory, RuleNo};
use cap_ops::{Choice, Kind, MOST_WEIGHT, NO_PLAN, Plan, Regs};

/// What is read of a certificate.
#[derive(Debug, Clone, Copy)]
pub struct Draft {
    pub name: Option<Name>,
    pub kind: Kind,
    pub regs: Regs,
    pub plan: Plan,
    pub first_line: u32,
}

/// A certificate of which nothing is read.
pub fn blank(line: u32) -> Draft
    ensures { result ≡ blank line }
{
    Draft {
        name: None,
        kind: Kind::Mat,
        regs: Regs {
            weights: [None; 44],
        },
        plan: Plan {
            choices: [Choice::Missing; 44],
            bounds: [NO_PLAN; 44],
        },
        first_line: line,
    }
}

/// The text as a name, where it is a word.
#[tactic(auto, using(crate::proofs::WordTests::named_is), unfolding(crate::specs::Drafts::named))]
fn named(text: &[u8]) -> Option<Name>
    ensures { result ≡ named text.now }
{
    Name::new(text)
}

/// The number, where it is from low to high.
#[tactic(auto, using(crate::proofs::WordTests::number_only, crate::proofs::WordTests::within_number), unfolding(crate::specs::Drafts::number_in))]
fn number_in(low: u64, high: u64, text: &[u8]) -> Option<u64>
    ensures value { result ≡ number_in low high text.now }
    ensures within { IfSome result (λ n. n ≤ high) }
{
    if is_within(true, low, high, text) {
        Some(value(text))
    } else {
        None
    }
}

/// The weight that the text is.
fn weight_in(text: &[u8]) -> Option<u32>
    ensures { result ≡ number_in 1 MOST_WEIGHT text.now }
{
    match number_in(1, MOST_WEIGHT as u64, text) {
        Some(number) => Some(number as u32),
        None => None,
    }
}

/// The rule that the text is the number of.
fn rule_in(text: &[u8]) -> Choice
    ensures { result ≡ rule_of (number_in 1 59 text.now) }
{
    match number_in(1, 59, text) {
        Some(number) => Choice::Rule(RuleNo(number as u8)),
        None => Choice::Missing,
    }
}

/// The bound that the text is.
fn bound_in(text: &[u8]) -> u64
    ensures { result ≡ bound_or (number_in 0 NO_PLAN text.now) }
{
    match number_in(0, NO_PLAN, text) {
        Some(number) => number,
        None => NO_PLAN,
    }
}

/// The kind that the text names.
fn kind_in(text: &[u8]) -> Kind
    ensures { result ≡ kind_or (kind_named text.now) }
{
    match kind_named(text) {
        Some(kind) => kind,
        None => Kind::Mat,
    }
}

/// Takes a token on a line into the draft.
pub fn act(draft: &mut Draft, strict: bool, read: usize, next: Next, text: &[u8], line: u32)
    requires { IsInsideNext strict read next }
    ensures { draft.new ≡ act line next text.now draft.old }
{
    match next {
        Next::Start => *draft = blank(line),
        Next::Name => draft.name = named(text),
        Next::Kind => draft.kind = kind_in(text),
        Next::Weight(place) => draft.regs.weights[place as usize] = weight_in(text),
        Next::Way(place) => {
            if is("prim", text) {
                draft.plan.choices[place as usize] = Choice::Prim;
            }
        }
        Next::Rule(place) => draft.plan.choices[place as usize] = rule_in(text),
        Next::Bound(place) => draft.plan.bounds[place as usize] = bound_in(text),
        _ => {}
    }
}

/// The number of the line behind a token.
pub fn line_behind(line: u32, next: Next) -> u32
    requires { line + 1 < 2 ^ 32 }
    ensures { result ≡ line_behind line next }
{
    match next {
        Next::HeadEnd | Next::RegEnd(_) | Next::OpEnd(_) | Next::LastEnd => line + 1,
        _ => line,
    }
}

/// Puts the certificate that a token ends behind the others, if it ends one.
pub fn push_made(certs: &mut Vec<Cert>, next: Next, draft: &Draft) -> Result<(), NoMemory>
    ensures { OnOk result (certs.new.items ≡ certs.old.items ++ made next draft.now) }
{
    if let Next::LastEnd = next {
        if let Some(name) = draft.name {
            certs.push(Cert {
                name,
                kind: draft.kind,
                regs: draft.regs,
                plan: draft.plan,
                first_line: draft.first_line,
            })?;
        }
    }
    Ok(())
}
