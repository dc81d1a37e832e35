//! Counting the rows that a source has given, and those that it has looked at.
ghost use Rattle.std.specs.Prelude.{◌≡◌};
ghost use Rattle.xq_sources.specs.Meters.{no_readings, with_looks as with_looks_lem, with_rows as with_rows_lem, with_singles as with_singles_lem};

use std::marker::Model;

/// How many rows a source has given, and how many it has looked at in searches. Each count stands
/// still at `u64::MAX`. Contracts see the three counts.
#[derive(Clone, Copy, Debug, PartialEq, Eq)]
pub struct Meter {
    rows: u64,
    singles: u64,
    looks: u64,
}

impl Model for Meter {
    ghost use Rattle.xq_sources.specs.Meters.{Readings, AreReadings};

    ghost Value = { Readings };

    ghost view = { λ m. record { rows = m.rows; singles = m.singles; looks = m.looks } };

    ghost invariant = { λ m. AreReadings
        (record { rows = m.rows; singles = m.singles; looks = m.looks }) };

    ghost inverse = { λ r. record { rows = r.rows; singles = r.singles; looks = r.looks } };
}

impl Meter {
    /// The meter of a source that has given no row and looked at none.
    pub fn new() -> Meter
        ensures { result ≡ no_readings }
    {
        Meter {
            rows: 0,
            singles: 0,
            looks: 0,
        }
    }

    /// How many rows were given by ranges of rows.
    pub fn rows(self) -> u64
        ensures { result ≡ self.rows }
    {
        self.rows
    }

    /// How many rows were given singly, as one row or as those above a node.
    pub fn singles(self) -> u64
        ensures { result ≡ self.singles }
    {
        self.singles
    }

    /// How many rows were looked at in searches of a whole tree.
    pub fn looks(self) -> u64
        ensures { result ≡ self.looks }
    {
        self.looks
    }

    /// The meter after so many more rows of a range.
    pub fn with_rows(self, count: usize) -> Meter
        ensures { result ≡ with_rows_lem self count }
    {
        Meter {
            rows: self.rows.saturating_add(count as u64),
            singles: self.singles,
            looks: self.looks,
        }
    }

    /// The meter after so many more single rows.
    pub fn with_singles(self, count: usize) -> Meter
        ensures { result ≡ with_singles_lem self count }
    {
        Meter {
            rows: self.rows,
            singles: self.singles.saturating_add(count as u64),
            looks: self.looks,
        }
    }

    /// The meter after a look at so many more rows.
    pub fn with_looks(self, count: usize) -> Meter
        ensures { result ≡ with_looks_lem self count }
    {
        Meter {
            rows: self.rows,
            singles: self.singles,
            looks: self.looks.saturating_add(count as u64),
        }
    }
}
