// Integers, matrices and morphism literals.
ghost use Rattle.std.specs.Prelude.{◌≡◌, map, IfOk};
ghost use Rattle.cap_checked.specs.Checked.{integer, entry, matrix, morphism_lit};

use cap_grammar::{EntryTok, IntTok, MorTok, RowsTok};
use cap_names::{EntryLit, Items, MatLit, MorLit, NoMemory};
use std::alloc::Global;

fn integer(token: IntTok) -> i64
    ensures { result ≡ integer token }
{
    let digits = token.digits.min(9_223_372_036_854_775_807) as i64;
    if token.minus { -digits } else { digits }
}

fn integers(alloc: Global, tokens: &[IntTok]) -> Result<Items<i64>, NoMemory>
    ensures { IfOk result (λ xs. xs ≡ map integer tokens.now) }
{
    let mut integers = Vec::new(alloc);
    'tokens: for token in tokens {
        integers.push(integer(*token))?;
    }
    Ok(Items::new(integers))
}

fn entry(alloc: Global, token: &EntryTok) -> Result<EntryLit, NoMemory>
    ensures { IfOk result (λ x. x ≡ entry token.now) }
{
    match token {
        EntryTok::Int(integer_token) => Ok(EntryLit::Int(integer(*integer_token))),
        EntryTok::Coeffs(tokens) => {
            let coeffs = integers(alloc, tokens.as_slice())?;
            Ok(EntryLit::Coeffs(coeffs))
        }
    }
}

fn row(alloc: Global, tokens: &[EntryTok]) -> Result<Items<EntryLit>, NoMemory>
    ensures { IfOk result (λ xs. xs ≡ map entry tokens.now) }
{
    let mut entries = Vec::new(alloc);
    'tokens: for token in tokens {
        let entry = entry(alloc, token)?;
        entries.push(entry)?;
    }
    Ok(Items::new(entries))
}

fn rows(alloc: Global, tokens: &[Items<EntryTok>]) -> Result<Items<Items<EntryLit>>, NoMemory>
    ensures { IfOk result (λ xs. xs ≡ map (map entry) tokens.now) }
{
    let mut rows = Vec::new(alloc);
    'tokens: for token in tokens {
        let row = row(alloc, token.as_slice())?;
        rows.push(row)?;
    }
    Ok(Items::new(rows))
}

/// The matrix of a matrix literal.
pub fn matrix(alloc: Global, token: &RowsTok) -> Result<MatLit, NoMemory>
    ensures { IfOk result (λ x. x ≡ matrix token.now) }
{
    let rows = rows(alloc, token.rows.as_slice())?;
    Ok(MatLit { rows })
}

fn matrices(alloc: Global, tokens: &[RowsTok]) -> Result<Items<MatLit>, NoMemory>
    ensures { IfOk result (λ xs. xs ≡ map matrix tokens.now) }
{
    let mut matrices = Vec::new(alloc);
    'tokens: for token in tokens {
        let matrix = matrix(alloc, token)?;
        matrices.push(matrix)?;
    }
    Ok(Items::new(matrices))
}

/// The morphism of a morphism literal.
pub fn morphism_lit(alloc: Global, token: &MorTok) -> Result<MorLit, NoMemory>
    ensures { IfOk result (λ x. x ≡ morphism_lit token.now) }
{
    match token {
        MorTok::Rows(token) => {
            let rows = matrix(alloc, token)?;
            Ok(MorLit::Rows(rows))
        }
        MorTok::Parts(tokens) => {
            let parts = matrices(alloc, tokens.as_slice())?;
            Ok(MorLit::Parts(parts))
        }
    }
}
