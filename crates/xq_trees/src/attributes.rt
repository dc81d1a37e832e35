//! Whether the attributes of one element have distinct names, found out without memory.
ghost use Rattle.std.specs.Prelude.{◌≡◌, ◌↔◌, IsTrue, IsPermutation, IsSortedByKey, map};
ghost use Rattle.std.specs.List.{IsAllAdjacentAnswer, IsDistinct};
ghost use Rattle.std.specs.List.Sorted.{IsNonDecreasingBy, IsStrictlyIncreasing};
ghost use Rattle.std.specs.Str.{bytes_eq};
ghost use Rattle.std.specs.Cmp.Lexicographic.{slice_cmp};
ghost use Rattle.std.specs.Ordering.{is_lt, nat_cmp};
ghost use Rattle.xq_trees.specs.private.Checks.{name_of, pre_of, rank_of};

use crate::NodeRow;
use std::cmp::Ordering;

/// The order of names: a shorter one comes first, and of two of one length that with the lesser
/// bytes.
/// Names that are numbered, as `n1` to `n10`, ascend in it.
fn compare_names(first: &NodeRow, second: &NodeRow) -> Ordering
    ensures { result ≡ slice_cmp nat_cmp (rank_of first.now) (rank_of second.now) }
{
    let lengths = first.name.len().cmp(&second.name.len());
    lengths.then_with(|| first.name.as_str().cmp(second.name.as_str()))
}

/// Puts the rows into the order of their names.
fn sort_by_name(run: &mut [NodeRow])
    ensures permutation { IsPermutation run.old run.new }
    ensures sorted { IsSortedByKey rank_of (slice_cmp nat_cmp) run.new }
{
    run.sort_unstable_by(compare_names);
}

/// Puts the rows into document order.
fn sort_by_place(run: &mut [NodeRow])
    ensures permutation { IsPermutation run.old run.new }
    ensures sorted { IsNonDecreasingBy pre_of run.new }
{
    run.sort_unstable_by_key(|row| row.pre);
}

/// Whether each name comes before the next.
fn names_ascend(run: &[NodeRow]) -> bool
    ensures { IsAllAdjacentAnswer (λ x y b. b
        ≡ is_lt (slice_cmp nat_cmp (rank_of x) (rank_of y))) run.now result }
{
    run.is_sorted_by(|first, second| compare_names(first, second).is_lt())
}

/// Whether the names of the rows are distinct: seen in one walk where they ascend. Else the rows
/// change places for it, and go back.
pub fn has_distinct_names(run: &mut [NodeRow]) -> bool
    requires { IsStrictlyIncreasing (map pre_of run.old) }
    ensures distinct { IsTrue result ↔ IsDistinct bytes_eq (map name_of run.old) }
    ensures kept { run.new ≡ run.old }
{
    if names_ascend(run) {
        return true;
    }
    sort_by_name(run);
    let distinct = names_ascend(run);
    sort_by_place(run);
    distinct
}
