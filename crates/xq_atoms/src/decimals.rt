//! Decimals: whole numbers of millionths.
ghost use Rattle.std.specs.Prelude.{◌≡◌, ◌↔◌, ◌<◌, ◌^◌, ℤ, pos, ◌*ℤ◌, IsSome, IfSome};
ghost use Rattle.xq_atoms.specs.Decimal.{IsDecimal};

use std::marker::Model;

/// One more than the greatest number of millionths: 10^25.
const LIMIT: i128 = 10_000_000_000_000_000_000_000_000;

/// A decimal: a whole number of millionths whose magnitude is below 10^25.
/// Contracts see the number of millionths.
#[derive(Clone, Copy, Debug, PartialEq, Eq)]
pub struct Decimal {
    millionths: i128,
}

impl Model for Decimal {
    ghost use Rattle.std.specs.Prelude.{ℤ};
    ghost use Rattle.xq_atoms.specs.Decimal.{IsDecimal};

    ghost Value = { ℤ };

    ghost view = { λ d. d.millionths };

    ghost invariant = { λ d. IsDecimal d.millionths };

    ghost inverse = { λ m. record { millionths = m } };
}

impl Decimal {
    /// The decimal of so many millionths, or None where their magnitude is 10^25 or more.
    pub fn from_millionths(millionths: i128) -> Option<Decimal>
        ensures within { IsSome result ↔ IsDecimal millionths }
        ensures value { IfSome result (λ decimal. decimal ≡ millionths) }
    {
        if -LIMIT < millionths && millionths < LIMIT {
            Some(Decimal { millionths })
        } else {
            None
        }
    }

    /// The decimal that equals the integer.
    pub fn from_int(integer: i64) -> Decimal
        ensures { result ≡ integer *ℤ pos 1000000 }
    {
        Decimal {
            millionths: i128::from(integer) * 1_000_000,
        }
    }

    /// The whole number of millionths.
    pub fn millionths(self) -> i128
        ensures value { result ≡ self }
        ensures within { IsDecimal result }
    {
        self.millionths
    }
}
