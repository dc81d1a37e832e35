//! The axis following-sibling.
ghost use Rattle.std.specs.Prelude.{◌≡◌, ◌+◌, ◌≤◌, ◌&&◌, [], length, slice_get, IfOk};
ghost use Rattle.xq_trees.specs.Forest.{count};
ghost use Rattle.xq_trees.specs.Tree.{nodes};
ghost use Rattle.xq_trees.specs.declared.Axis.TheVariants as axes;
ghost use Rattle.xq_sources.specs.Sources.{tree_at};
ghost use Rattle.xq_axes.specs.Scans.{region};
ghost use Rattle.xq_axes.specs.private.Hits.{is_wanted, below_where, IsRising};
ghost use Rattle.xq_axes.specs.Many.{AreThere};
ghost use Rattle.xq_axes.specs.private.Waiting.{has_siblings, rows_below, next_place as next_place_lem, IsOn};

use crate::contexts::Contexts;
use crate::levels::Levels;
use crate::passing::{end_of_node, end_of_row};
use crate::picks::{Found, Judge, Picker, Places, Verdict};
use crate::tests::is_plain;
use crate::walks::walk;
use std::alloc::Global;
use xq_atoms::Want;
use xq_meaning::Test;
use xq_sources::{LentRow, RowLender};

/// The greatest place that can be asked for.
const LAST: u64 = u32::MAX as u64;

/// Judges rows after contexts by the levels at which contexts wait for siblings.
#[derive(Drop)]
struct Onward<'a> {
    contexts: Contexts<'a>,
    levels: Levels,
    /// The last place of the rows that are read at once.
    last: u32,
}

/// Whether a row is a context that waits for siblings.
fn waits(is_context: bool, level: u32, is_plain: bool) -> bool
    ensures { result ≡ (is_context && has_siblings level is_plain) }
{
    is_context && level > 0 && is_plain
}

/// Whether a row is a sibling of a context.
fn is_sibling(is_awaited: bool, is_plain: bool) -> bool
    ensures { result ≡ (is_awaited && is_plain) }
{
    is_awaited && is_plain
}

impl Judge for Onward<'_> {
    ghost axis = { λ _. axes.FollowingSibling };

    ghost contexts = { λ j. j.contexts.places.now };

    ghost has_judged = { λ start now t s n. (now.contexts.places.now ≡ start.contexts.places.now)
        × (now.last ≡ s.high)
        × IsOn t start.contexts.places.now n now.contexts.met now.levels };

    fn judge(&mut self, row: &LentRow<'_>) -> Result<Verdict, Want> {
        let is_context = self.contexts.meets(row.pre);
        let is_plain = is_plain(row.kind);
        let waits = waits(is_context, row.level, is_plain);
        let is_awaited = self.levels.meet(u64::from(row.level), waits)?;
        Ok(Verdict {
            is_hit: is_sibling(is_awaited, is_plain),
            over: self.contexts.rows_over(row, self.last),
        })
    }
}

impl<'a> Onward<'a> {
    /// Nothing met yet.
    fn new(alloc: Global, places: &'a [u32]) -> Onward<'a>
        ensures places { result.contexts.places.now ≡ places.now }
        ensures met { result.contexts.met ≡ 0 }
        ensures levels { result.levels ≡ [] }
    {
        Onward {
            contexts: Contexts::new(places),
            levels: Levels::new(alloc),
            last: 0,
        }
    }

    /// The row that is read next, where those before `next` were: the next context where no row is
    /// awaited, and that after the last row where there is none.
    fn next_place(&self, next: u64, last: u64) -> u64
        requires { last ≤ 4294967295 }
        ensures { result ≡ next_place_lem self.now.levels (slice_get
            self.now.contexts.places.now self.now.contexts.met) next last }
    {
        if !self.levels.is_empty() {
            return next;
        }
        let place = match self.contexts.next() {
            None => last + 1,
            Some(place) => u64::from(place),
        };
        place.max(next)
    }
}

/// The places of the nodes that are following siblings of one of the nodes at the places, which
/// rise, and pass the test: in document order, each once.
pub fn search_on<L: RowLender>(
    alloc: Global,
    source: &mut L,
    tree: usize,
    places: &[u32],
    test: &Test,
) -> Result<Places, Want>
    ensures found { L.is_clean source.new → AreThere (L.forest source.old) tree places.now
        → let t = tree_at (L.forest source.old) tree in
        IsRising places.now → IfOk result (λ found. found.items
        ≡ below_where (is_wanted axes.FollowingSibling test.now t places.now) (count (nodes t))) }
    ensures rows { L.is_clean source.new
        → (L.meter source.new).rows ≤ (L.meter source.old).rows
        + length (region axes.FollowingSibling (tree_at (L.forest source.old) tree) places.now) }
    ensures singles { (L.meter source.new).singles
        ≤ (L.meter source.old).singles + length places.now }
    ensures looks { (L.meter source.new).looks ≡ (L.meter source.old).looks }
    ensures keeps { L.forest source.new ≡ L.forest source.old }
    ensures was_clean { L.is_clean source.new → L.is_clean source.old }
{
    if places.is_empty() {
        return Ok(Places::new(alloc));
    }
    let last = end_of_node(alloc, source, tree, 0)?.min(LAST);
    let mut picker = Picker {
        judge: Onward::new(alloc, places),
        test,
        found: Found::new(alloc),
    };
    let mut low = picker.judge.next_place(0, last);
    let mut width = 0;
    while low <= last {
        width = picker.judge.levels.wider(width);
        let high = low.saturating_add(u64::from(width)).min(last);
        picker.judge.last = high as u32;
        walk(alloc, source, tree, low as u32, high as u32, &mut picker)?;
        low = picker.judge.next_place(high + 1, last);
    }
    picker.found.into_places()
}
