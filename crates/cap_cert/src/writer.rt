// The text of a certificate.
ghost use Rattle.std.specs.Prelude.{◌≡◌, ◌++◌, ◌∷◌, ◌<◌, [], OnOk, IfOk, string_bytes, map, codes, length};
ghost use Rattle.std.specs.List.{flat_map};
ghost use Rattle.std.specs.Fmt.{decimal};
ghost use Rattle.cap_ops.specs.Offered.{word_of};
ghost use Rattle.cap_cert.specs.Texts.{line_text, reg_line, op_line, op_lines, way_of, ways_of, way_words, regs_from, spelled_plan, cert_text};

use super::words::operation_word;
use cap_names::{Name, NoMemory};
use cap_ops::{Choice, Kind, OPERATIONS, Plan, Regs, kind_word};
use std::alloc::{AllocError, Global};

/// Writes a blank and a word at the end of a text.
fn push_word(out: &mut String, word: &str) -> Result<(), AllocError>
    ensures { OnOk result (string_bytes out.new ≡ string_bytes out.old ++ codes " " ++ word.now) }
{
    out.push_str(" ")?;
    out.push_str(word)?;
    Ok(())
}

/// Writes a blank and a number at the end of a text.
fn push_number(alloc: Global, out: &mut String, number: u64) -> Result<(), AllocError>
    ensures { OnOk result (string_bytes out.new ≡ string_bytes out.old ++ codes " " ++ decimal number) }
{
    let digits = number.to_string(alloc)?;
    push_word(out, digits.as_str())
}

/// Writes the first line of a certificate at the end of a text.
fn push_head(out: &mut String, name: &Name, kind: Kind) -> Result<(), AllocError>
    ensures { OnOk result (string_bytes out.new ≡ string_bytes out.old ++ line_text (codes "certificate" ∷ codes "1" ∷ name.now ∷ word_of kind ∷ [])) }
{
    out.push_str("certificate 1")?;
    push_word(out, name.as_str())?;
    push_word(out, kind_word(kind))?;
    out.push_str("\n")?;
    Ok(())
}

/// Writes the line of a registered operation at the end of a text.
fn push_reg(alloc: Global, out: &mut String, place: usize, weight: u32) -> Result<(), AllocError>
    requires { place < OPERATIONS }
    ensures { OnOk result (string_bytes out.new ≡ string_bytes out.old ++ line_text (reg_line (place, decimal weight))) }
{
    out.push_str("reg")?;
    push_word(out, operation_word(place))?;
    push_number(alloc, out, weight as u64)?;
    out.push_str("\n")?;
    Ok(())
}

/// Writes how an operation is done at the end of a text, each word behind a blank.
fn push_way(alloc: Global, out: &mut String, choice: Choice, bound: u64) -> Result<(), AllocError>
    ensures { OnOk result (string_bytes out.new ≡ string_bytes out.old ++ flat_map (λ word. codes " " ++ word) (way_words (way_of choice bound))) }
{
    match choice {
        Choice::Prim => {
            push_word(out, "prim")?;
            push_number(alloc, out, bound)
        }
        Choice::Rule(rule) => {
            push_word(out, "rule")?;
            push_number(alloc, out, rule.0 as u64)?;
            push_number(alloc, out, bound)
        }
        Choice::Missing => push_word(out, "missing"),
    }
}

/// Writes the line of an operation at the end of a text.
fn push_op(
    alloc: Global,
    out: &mut String,
    place: usize,
    choice: Choice,
    bound: u64,
) -> Result<(), AllocError>
    requires { place < OPERATIONS }
    ensures { OnOk result (string_bytes out.new ≡ string_bytes out.old ++ line_text (op_line place (way_of choice bound))) }
{
    out.push_str("op")?;
    push_word(out, operation_word(place))?;
    push_way(alloc, out, choice, bound)?;
    out.push_str("\n")?;
    Ok(())
}

#[tactic(auto, using(crate::proofs::Pushed::regs_none, crate::proofs::Pushed::regs_some, crate::proofs::Pushed::regs_end, crate::proofs::Pushed::line_more))]
/// Writes the lines of the registered operations at the end of a text.
fn push_regs(alloc: Global, out: &mut String, weights: &[Option<u32>; 44]) -> Result<(), AllocError>
    ensures { OnOk result (string_bytes out.new ≡ string_bytes out.old ++ flat_map line_text (map reg_line (regs_from 0 weights.now))) }
{
    'places: for place in 0..44 {
        if let Some(weight) = weights[place] {
            push_reg(alloc, out, place, weight)?;
        }
    }
    Ok(())
}

#[tactic(auto, using(crate::proofs::Pushed::ops_more, crate::proofs::Pushed::ops_end, crate::proofs::Pushed::line_more))]
/// Writes the lines of all operations at the end of a text.
fn push_ops(
    alloc: Global,
    out: &mut String,
    choices: &[Choice; 44],
    bounds: &[u64; 44],
) -> Result<(), AllocError>
    ensures { OnOk result (string_bytes out.new ≡ string_bytes out.old ++ flat_map line_text (op_lines 0 (ways_of choices.now bounds.now))) }
{
    'places: for place in 0..44 {
        push_op(alloc, out, place, choices[place], bounds[place])?;
    }
    Ok(())
}

/// The certificate of a plan for these registrations, of a category with this name and kind.
pub fn write_cert(
    alloc: Global,
    name: &Name,
    kind: Kind,
    regs: &Regs,
    plan: &Plan,
) -> Result<Vec<u8>, NoMemory>
    ensures { IfOk result (λ text. text.items ≡ cert_text (spelled_plan name.now kind regs.now plan.now)) }
{
    let mut text = String::new(alloc);
    push_head(&mut text, name, kind)?;
    push_regs(alloc, &mut text, &regs.weights)?;
    push_ops(alloc, &mut text, &plan.choices, &plan.bounds)?;
    text.push_str("end\n")?;
    Ok(text.into_bytes())
}
