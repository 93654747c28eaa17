// Remainders without a division, for inner loops.
ghost use Rattle.std.specs.Prelude.{◌≡◌, ℕ, ◌*◌, ◌/◌, ◌%◌, ◌≤◌};

/// The remainder of a number below 2^16 modulo `p`, without a division: `m` is 2^16 / p.
/// For inner loops; the quotient is a high product, at most one too small.
#[inline]
pub fn reduced(x: u16, p: u16, m: u16) -> u16
    requires low { 2 ≤ p }
    requires high { p ≤ 251 }
    requires ratio { m ≡ 65536 / p }
    ensures { result ≡ x % p }
{
    let q = ((x as u32 * m as u32) >> 16) as u16;
    let r = x - q * p;
    if r < p { r } else { r - p }
}
