// Which words, numbers and names tokens are.
ghost use Rattle.std.specs.Prelude.{◌≡◌, ◌↔◌, ◌<◌, [], slice_index_or, IsTrue, Contains, IfSome, IfNone, codes, map};
ghost use Rattle.cap_names.specs.Words.{IsNumber, IsWord};
ghost use Rattle.cap_names.specs.Operations.{operation_names};
ghost use Rattle.cap_cert.specs.Reading.{IsNameText, script_words, value};
ghost use Rattle.cap_cert.specs.Texts.{operation_word};
ghost use Rattle.cap_cert.specs.Machine.{is, is_number, is_name, is_within, kind_named, place_of};

use cap_names::{Name, OpId, op_by_name, op_name};
use cap_ops::{Kind, OPERATIONS};

/// The words that scripts keep for themselves, besides the names of the operations.
const SCRIPT_WORDS: [&str; 26] = [
    "table", "prime", "objects", "basis", "unit", "product", "end", "quiver", "bound", "arrow",
    "relation", "category", "vec", "add", "freyd", "rep", "session", "register", "finalise",
    "plan", "object", "let", "src", "tgt", "dims", "maps",
];

/// Whether the text is this word.
#[tactic(auto, unfolding(crate::specs::Machine::is))]
pub fn is(word: &str, text: &[u8]) -> bool
    ensures { result ≡ is word.now text.now }
{
    text == word.as_bytes()
}

/// Whether the text is a number: 1 to 16 digits.
fn has_digits(text: &[u8]) -> bool
    ensures { IsTrue result ↔ IsNumber text.now }
{
    !text.is_empty() && text.len() <= 16 && text.iter().all(|byte| byte.is_ascii_digit())
}

/// Whether the text is a number.
#[tactic(auto, using(crate::proofs::WordTests::number_is))]
pub fn is_number(text: &[u8]) -> bool
    ensures { result ≡ is_number text.now }
{
    has_digits(text)
}

/// The number that digits write.
pub fn value(text: &[u8]) -> u64
    requires { IsNumber text.now }
    ensures { result ≡ value text.now }
{
    let mut number: u64 = 0;
    'bytes: for byte in text {
        number = number * 10 + (*byte - b'0') as u64;
    }
    number
}

/// Whether the text is a number, from low to high where the limits are asked for.
#[tactic(auto, using(crate::proofs::WordTests::number_only), unfolding(crate::specs::Machine::is_within))]
pub fn is_within(strict: bool, low: u64, high: u64, text: &[u8]) -> bool
    ensures { result ≡ is_within strict low high text.now }
{
    if !is_number(text) {
        return false;
    }
    if strict {
        let number = value(text);
        number >= low && number <= high
    } else {
        true
    }
}

fn script_words() -> &'static [&'static str; 26]
    ensures { map (λ word. word.now) result.now ≡ script_words }
{
    &SCRIPT_WORDS
}

/// The word at a place among them.
fn script_word(place: usize) -> &'static str
    requires { place < 26 }
    ensures { result.now ≡ slice_index_or script_words place [] }
{
    script_words()[place]
}

/// Whether scripts keep the word for themselves.
fn is_script_word(text: &[u8]) -> bool
    ensures { IsTrue result ↔ Contains script_words text.now }
{
    'words: for place in 0..26 {
        if is(script_word(place), text) {
            return true;
        }
    }
    false
}

/// Whether the text is a word.
fn is_word(text: &[u8]) -> bool
    ensures { IsTrue result ↔ IsWord text.now }
{
    Name::new(text).is_some()
}

/// Whether the text is the name of an operation.
#[tactic(auto, using(crate::proofs::WordTests::named_listed))]
fn is_operation(text: &[u8]) -> bool
    ensures { IsTrue result ↔ Contains operation_names text.now }
{
    match op_by_name(text) {
        Some(_) => true,
        None => false,
    }
}

/// Whether the text may be a name: a word that neither scripts nor operations have.
fn is_free(text: &[u8]) -> bool
    ensures { IsTrue result ↔ IsNameText text.now }
{
    if !is_word(text) || is_script_word(text) {
        return false;
    }
    !is_operation(text)
}

/// Whether the text may be a name.
#[tactic(auto, using(crate::proofs::WordTests::name_is))]
pub fn is_name(text: &[u8]) -> bool
    ensures { result ≡ is_name text.now }
{
    is_free(text)
}

/// The kind of this word.
#[tactic(auto, unfolding(crate::specs::Machine::kind_named))]
pub fn kind_named(text: &[u8]) -> Option<Kind>
    ensures { result ≡ kind_named text.now }
{
    if text == "vec".as_bytes() {
        Some(Kind::Mat)
    } else if text == "add".as_bytes() {
        Some(Kind::Add)
    } else if text == "freyd".as_bytes() {
        Some(Kind::Freyd)
    } else if text == "rep".as_bytes() {
        Some(Kind::Rep)
    } else {
        None
    }
}

/// The place of the operation of this name, from 0.
pub fn place_of(text: &[u8]) -> Option<u8>
    ensures { result ≡ place_of text.now }
{
    match op_by_name(text) {
        Some(op) => Some(op.0 - 1),
        None => None,
    }
}

/// The name of the operation at a place.
#[tactic(auto, unfolding(crate::specs::Texts::operation_word))]
pub fn operation_word(place: usize) -> &'static str
    requires { place < OPERATIONS }
    ensures { result.now ≡ operation_word place }
{
    op_name(OpId(place as u8 + 1))
}
