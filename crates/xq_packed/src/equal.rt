//! How far rows are the same as others.
ghost use Rattle.std.specs.Prelude.{ℕ, ◌≡◌, ◌≢◌, ◌↔◌, ◌-◌, ◌<◌, ◌≤◌, length, slice_index_or, string_bytes, All, IsTrue};
ghost use Rattle.xq_trees.specs.Rows.{row_at};
ghost use Rattle.xq_packed.specs.Packed.{AreSame};
ghost use Rattle.xq_packed.specs.private.Alike.{AreAlike, AreWithin, IsAlike, no_shape};
ghost use Rattle.xq_packed.specs.private.Copies.{IsKnown};
ghost use Rattle.xq_packed.specs.private.Shapes.{value_end, name_at};

use crate::PackedRows;
use crate::names::NameTable;
use crate::shapes::{Shape, start_at};

/// How many numbers of names are kept at hand while rows are compared.
const KEPT: usize = 16;

/// How many rows are compared together, and then their values as one text.
const TOGETHER: usize = 256;

/// The places of rows that are compared with others there, and where the values of both begin in
/// their texts.
#[derive(Clone, Copy)]
struct RowRange {
    low: usize,
    high: usize,
    start: usize,
    other: usize,
}

/// Whether a name is the same as one among others, by their numbers. Of some names that were asked
/// for before, it is known.
#[inline]
fn is_same_name(
    known: &mut [Option<(u32, u32)>],
    names: &NameTable,
    others: &NameTable,
    number: u32,
    other: u32,
) -> bool
    requires some { 0 < length known.old }
    requires known { All (IsKnown others.now names.now) known.old }
    requires number { number < length names.now }
    requires other { other < length others.now }
    ensures same { IsTrue result → name_at names.now number ≡ name_at others.now other }
    ensures known { All (IsKnown others.now names.now) known.new }
{
    let at = other as usize % known.len();
    if let Some((before, found)) = known[at] {
        if before == other && found == number {
            return true;
        }
    }
    if names.get(number) != others.get(other) {
        return false;
    }
    known[at] = Some((other, number));
    true
}

/// Whether two rows are the same but for their values, which end as far after the places where
/// those of their runs begin.
#[inline]
fn is_alike(
    known: &mut [Option<(u32, u32)>],
    names: &NameTable,
    others: &NameTable,
    mine: Shape,
    its: Shape,
    run: RowRange,
) -> bool
    requires some { 0 < length known.old }
    requires known { All (IsKnown others.now names.now) known.old }
    requires mine { (run.start ≤ value_end mine) × (mine.name < length names.now) }
    requires its { (run.other ≤ value_end its) × (its.name < length others.now) }
    ensures alike { IsTrue result → IsAlike names.now others.now run.start run.other mine its }
    ensures known { All (IsKnown others.now names.now) known.new }
{
    mine.size == its.size
        && mine.level == its.level
        && mine.kind == its.kind
        && mine.value_end() - run.start == its.value_end() - run.other
        && is_same_name(known, names, others, mine.name, its.name)
}

/// Whether the rows of runs are the same but for their values, which are as long.
fn are_alike(
    names: &NameTable,
    others: &NameTable,
    mine: &[Shape],
    its: &[Shape],
    run: RowRange,
) -> bool
    requires mine { AreWithin names.now run.start mine.now run.low run.high }
    requires its { AreWithin others.now run.other its.now run.low run.high }
    ensures { IsTrue result
        → AreAlike names.now others.now run.start run.other mine.now its.now run.low run.high }
{
    let mut known = [None; KEPT];
    for at in run.low..run.high {
        if !is_alike(&mut known, names, others, mine[at], its[at], run) {
            return false;
        }
    }
    true
}

impl PackedRows {
    /// Whether the rows from one place to before another are the same as others there.
    fn is_run_same(&self, other: &PackedRows, low: usize, high: usize) -> bool
        requires order { low ≤ high }
        requires mine { high ≤ length self.now.rows }
        requires its { high ≤ length other.now.rows }
        ensures { IsTrue result → AreSame self.now.rows other.now.rows low high }
    {
        let run = RowRange {
            low,
            high,
            start: start_at(&self.shapes, low),
            other: start_at(&other.shapes, low),
        };
        if !are_alike(&self.names, &other.names, &self.shapes, &other.shapes, run) {
            return false;
        }
        let mine = &self.text[run.start..start_at(&self.shapes, high)];
        let its = &other.text[run.other..start_at(&other.shapes, high)];
        mine == its
    }

    /// Whether the row at a place is the same as another there.
    fn is_same_at(&self, other: &PackedRows, at: usize) -> bool
        requires mine { at < length self.now.rows }
        requires its { at < length other.now.rows }
        ensures { IsTrue result ↔ (row_at self.now.rows at ≡ row_at other.now.rows at) }
    {
        let mine = self.shape_at(at);
        let its = other.shape_at(at);
        mine.size == its.size
            && mine.level == its.level
            && mine.kind == its.kind
            && self.name_at(at) == other.name_at(at)
            && self.value_at(at) == other.value_at(at)
    }

    /// A place from one on, and not after another, up to which the rows are the same as others:
    /// where many are compared together, they are up to there.
    fn same_runs(&self, other: &PackedRows, low: usize, high: usize) -> usize
        requires order { low ≤ high }
        requires mine { high ≤ length self.now.rows }
        requires its { high ≤ length other.now.rows }
        ensures after { low ≤ result }
        ensures before { result ≤ high }
        ensures same { AreSame self.now.rows other.now.rows low result }
    {
        let mut at = low;
        while at < high {
            let stop = at + TOGETHER.min(high - at);
            if !self.is_run_same(other, at, stop) {
                return at;
            }
            at = stop;
        }
        at
    }

    /// The first place from one on, and before another, at which the row is not the same as that of
    /// others; the other place where all are the same.
    pub fn same_until(&self, other: &PackedRows, low: usize, high: usize) -> usize
        requires order { low ≤ high }
        requires mine { high ≤ length self.now.rows }
        requires its { high ≤ length other.now.rows }
        ensures after { low ≤ result }
        ensures before { result ≤ high }
        ensures same { AreSame self.now.rows other.now.rows low result }
        ensures differ { result < high
            → row_at self.now.rows result ≢ row_at other.now.rows result }
    {
        let from = self.same_runs(other, low, high);
        for at in from..high {
            if !self.is_same_at(other, at) {
                return at;
            }
        }
        high
    }
}
