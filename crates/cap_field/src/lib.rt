// Prime fields: residues modulo a prime of a fixed table.
#![tactic(auto)]

ghost use Rattle.std.specs.Prelude.{◌≡◌, ℕ, ◌+◌, ◌-◌, ◌*◌, ◌%◌, ◌<◌, ◌≤◌, MatchOption, true, false};
ghost use Rattle.cap_field.specs.Residue.{is_tabled, IsResidueOf};

mod remainder;

pub use remainder::reduced;
use std::marker::Model;

/// A prime of the table: the primes below 100, and 101 and 251. Contracts see it as that prime.
#[derive(Clone, Copy, Debug, PartialEq, Eq)]
pub struct Field {
    p: u16,
}

impl Model for Field {
    ghost use Rattle.std.specs.Prelude.{◌≡◌, ℕ, true};
    ghost use Rattle.cap_field.specs.Residue.{is_tabled};

    ghost Value = { ℕ };

    ghost view = { λ f. f.p };

    ghost invariant = { λ f. is_tabled f.p ≡ true };

    ghost inverse = { λ v. record { p = v } };
}

impl Field {
    /// The field of `p` elements; `None` exactly where `p` is not in the table.
    pub fn from_prime(p: u32) -> Option<Field>
        ensures { MatchOption result (is_tabled p ≡ false) (λ f. (f ≡ p) × (is_tabled p ≡ true)) }
    {
        match p {
            2
            | 3
            | 5
            | 7
            | 11
            | 13
            | 17
            | 19
            | 23
            | 29
            | 31
            | 37
            | 41
            | 43
            | 47
            | 53
            | 59
            | 61
            | 67
            | 71
            | 73
            | 79
            | 83
            | 89
            | 97
            | 101
            | 251 => Some(Field { p: p as u16 }),
            _ => None,
        }
    }

    /// The number of elements.
    pub fn prime(self) -> u32
        ensures value { result ≡ self }
        ensures tabled { is_tabled self ≡ true }
        ensures low { 2 ≤ result }
        ensures high { result ≤ 251 }
    {
        self.p as u32
    }

    /// The residue of an integer, of a negative one too: between 0 and p - 1, and apart from `n` by a multiple of p.
    pub fn residue(self, n: i64) -> u16
        ensures { IsResidueOf self n result }
    {
        n.rem_euclid(self.p as i64) as u16
    }

    /// The sum of two residues.
    pub fn add(self, a: u16, b: u16) -> u16
        requires a { a < self }
        requires b { b < self }
        ensures { result ≡ (a + b) % self }
    {
        let s = a + b;
        if s < self.p { s } else { s - self.p }
    }

    /// The difference of two residues.
    pub fn sub(self, a: u16, b: u16) -> u16
        requires a { a < self }
        requires b { b < self }
        ensures { result ≡ (a + (self - b)) % self }
    {
        if b <= a { a - b } else { a + (self.p - b) }
    }

    /// The product of two residues.
    pub fn mul(self, a: u16, b: u16) -> u16
        requires a { a < self }
        requires b { b < self }
        ensures { result ≡ (a * b) % self }
    {
        ((a as u32 * b as u32) % self.p as u32) as u16
    }

    /// The residue that adds up with `a` to 0.
    pub fn neg(self, a: u16) -> u16
        requires { a < self }
        ensures { result ≡ (self - a) % self }
    {
        if a == 0 { 0 } else { self.p - a }
    }

    /// The inverse of a nonzero residue, as its power p - 2.
    pub fn inv(self, a: u16) -> u16
        requires nonzero { 0 < a }
        requires below { a < self }
        ensures below { result < self }
        ensures inverse { (a * result) % self ≡ 1 }
    {
        let p = self.p as u32;
        let mut base = a as u32;
        let mut left = p - 2;
        let mut product: u32 = 1;
        while left > 0 {
            if left % 2 == 1 {
                product = product * base % p;
            }
            base = base * base % p;
            left /= 2;
        }
        product as u16
    }
}

#[cfg(test)]
mod tests {
    use super::*;

    const TABLE: [u32; 27] = [
        2, 3, 5, 7, 11, 13, 17, 19, 23, 29, 31, 37, 41, 43, 47, 53, 59, 61, 67, 71, 73, 79, 83, 89,
        97, 101, 251,
    ];

    #[test]
    fn fields_of_the_table_and_no_others(rt: HostRuntime) {
        for p in TABLE {
            let field = Field::from_prime(p).expect(&rt, "a prime of the table");
            assert_eq!(rt; field.prime(), p);
        }
        for p in [0, 1, 4, 9, 91, 99, 100, 103, 249, 250, 256, 257] {
            assert!(rt; Field::from_prime(p).is_none(), "{p}");
        }
    }

    #[test]
    fn residues_of_integers(rt: HostRuntime) {
        for (p, n, residue) in [
            (5, 7, 2),
            (5, -1, 4),
            (5, -5, 0),
            (2, -3, 1),
            (251, 251, 0),
            (251, -252, 250),
            (7, i64::MIN, 6),
            (251, i64::MAX, 159),
        ] {
            let field = Field::from_prime(p).expect(&rt, "a prime of the table");
            assert_eq!(rt; field.residue(n), residue, "{n} modulo {p}");
        }
    }

    #[test]
    fn sums_differences_products_and_negatives(rt: HostRuntime) {
        for (p, a, b, sum, difference, product, negative) in [
            (2, 1, 1, 0, 0, 1, 1),
            (3, 1, 2, 0, 2, 2, 2),
            (7, 5, 4, 2, 1, 6, 2),
            (101, 100, 100, 99, 0, 1, 1),
            (251, 250, 249, 248, 1, 2, 1),
            (251, 3, 200, 203, 54, 98, 248),
            (251, 0, 0, 0, 0, 0, 0),
        ] {
            let field = Field::from_prime(p).expect(&rt, "a prime of the table");
            assert!(rt; (a as u32) < p && (b as u32) < p);
            assert_eq!(rt; field.add(a, b), sum, "{a} + {b} modulo {p}");
            assert_eq!(rt; field.sub(a, b), difference, "{a} - {b} modulo {p}");
            assert_eq!(rt; field.mul(a, b), product, "{a} * {b} modulo {p}");
            assert_eq!(rt; field.neg(a), negative, "-{a} modulo {p}");
        }
    }

    #[test]
    fn inverses(rt: HostRuntime) {
        for (p, a, inverse) in [
            (2, 1, 1),
            (7, 3, 5),
            (101, 50, 99),
            (251, 100, 123),
            (251, 250, 250),
        ] {
            let field = Field::from_prime(p).expect(&rt, "a prime of the table");
            assert!(rt; 0 < a && (a as u32) < p);
            assert_eq!(rt; field.inv(a), inverse, "1 / {a} modulo {p}");
        }
    }

    #[test]
    fn remainders_without_a_division(rt: HostRuntime) {
        for (x, p) in [
            (0, 2),
            (65535, 2),
            (65535, 3),
            (62750, 251),
            (62749, 251),
            (501, 251),
            (100, 101),
        ] {
            assert!(rt; 2 <= p && p <= 251);
            assert_eq!(rt;
                reduced(x, p, (65536 / p as u32) as u16),
                x % p,
                "{x} modulo {p}"
            );
        }
    }
}
