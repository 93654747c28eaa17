// Rows of coefficients that are 0 or a basis element.
ghost use Rattle.std.specs.Prelude.{◌≡◌, ◌≢◌, ℕ, ◌<◌, ◌≤◌, length, slice_index};
ghost use Rattle.cap_lincat.specs.Kinds.{IsRowKind, Agree};

/// What a row of coefficients is: 0, a basis element, or something else.
#[derive(Debug, Clone, Copy)]
pub enum RowKind {
    Zero,
    Element(u32),
    Other,
}

/// The first place from `from` on at which a row is not 0, or its length.
fn first_entry(row: &[u16], from: usize) -> usize
    requires { from ≤ length row.now }
    ensures low { from ≤ result }
    ensures high { result ≤ length row.now }
    ensures zeros { (k : ℕ) → from ≤ k → k < result → slice_index row.now k ≡ 0 }
{
    for k in from..row.len() {
        if row[k] != 0 {
            return k;
        }
    }
    row.len()
}

/// What a row over the basis of a Hom is.
pub(crate) fn kind_of(row: &[u16], hom: &[u32]) -> RowKind
    ensures { IsRowKind row.now hom.now result }
{
    let at = first_entry(row, 0);
    if at == row.len() {
        return RowKind::Zero;
    }
    if at < hom.len() && row[at] == 1 && first_entry(row, at + 1) == row.len() {
        return RowKind::Element(hom[at]);
    }
    RowKind::Other
}

/// Whether two rows are equal, where their kinds tell it.
pub(crate) fn agree(left: RowKind, right: RowKind) -> Option<bool>
    ensures { Agree left right result }
{
    match left {
        RowKind::Zero => match right {
            RowKind::Zero => Some(true),
            RowKind::Element(_) => Some(false),
            RowKind::Other => None,
        },
        RowKind::Element(a) => match right {
            RowKind::Zero => Some(false),
            RowKind::Element(b) => Some(a == b),
            RowKind::Other => None,
        },
        RowKind::Other => None,
    }
}
