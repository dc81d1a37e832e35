//! Rows as they are judged, whatever they are kept as.
ghost use Rattle.std.specs.Prelude.{◌≡◌, ◌↔◌, ◌<◌, ◌≤◌, List, length, map, slice_range, IfOk, IfErr, IsTrue};
ghost use Rattle.std.specs.List.{IsDistinct};
ghost use Rattle.std.specs.Str.{bytes_eq};
ghost use Rattle.xq_trees.specs.Rows.{Row, row_of, row_at, row_name};

use crate::{Kind, NodeRow};
use xq_atoms::Want;

/// Rows in a list, whatever they are kept as.
pub trait TreeRows {
    ghost listed: { Self → List Row };

    /// How many rows there are.
    fn count(&self) -> usize
        ensures { result ≡ length (listed self.now) };

    /// The number of nodes below that at a place.
    fn size(&self, at: usize) -> u32
        requires { at < length (listed self.now) }
        ensures { result ≡ (row_at (listed self.now) at).size };

    /// Its level.
    fn level(&self, at: usize) -> u32
        requires { at < length (listed self.now) }
        ensures { result ≡ (row_at (listed self.now) at).level };

    /// Its kind.
    fn kind(&self, at: usize) -> Kind
        requires { at < length (listed self.now) }
        ensures { result ≡ (row_at (listed self.now) at).label.kind };

    /// Its name.
    fn name(&self, at: usize) -> &str
        requires { at < length (listed self.now) }
        ensures { result.now ≡ (row_at (listed self.now) at).label.name };

    /// Its value.
    fn value(&self, at: usize) -> &str
        requires { at < length (listed self.now) }
        ensures { result.now ≡ (row_at (listed self.now) at).label.value };
}

/// Rows that tell whether names are distinct.
pub trait NamedRows: TreeRows {
    /// Whether the names of the rows from one place to before another are distinct.
    fn has_distinct_names(&self, low: usize, high: usize) -> Result<bool, Want>
        requires rises { low ≤ high }
        requires within { high ≤ length (Self.listed self.now) }
        ensures distinct { IfOk result (λ distinct. IsTrue distinct ↔ IsDistinct bytes_eq
            (map row_name (slice_range (Self.listed self.now) low high))) }
        ensures want { IfErr result (λ want. want ≡ Want.Memory) };
}

impl<'a> TreeRows for &'a [NodeRow] {
    ghost listed = { λ rows. map row_of rows.now };

    #[inline]
    fn count(&self) -> usize {
        self.len()
    }

    #[inline]
    fn size(&self, at: usize) -> u32 {
        self[at].size
    }

    #[inline]
    fn level(&self, at: usize) -> u32 {
        self[at].level
    }

    #[inline]
    fn kind(&self, at: usize) -> Kind {
        self[at].kind
    }

    #[inline]
    fn name(&self, at: usize) -> &str {
        self[at].name.as_str()
    }

    #[inline]
    fn value(&self, at: usize) -> &str {
        self[at].value.as_str()
    }
}
