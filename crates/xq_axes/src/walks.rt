//! Reading the rows of a range in turn.
ghost use Rattle.std.specs.Prelude.{◌≡◌, ◌+◌, ◌-◌, ◌≤◌, ℕ, length, IfOk, OnOk};
ghost use Rattle.xq_trees.specs.Tree.{Tree};
ghost use Rattle.xq_sources.specs.Lent.{placed_lent};
ghost use Rattle.xq_sources.specs.Sources.{tree_at};
ghost use Rattle.xq_axes.specs.Reads.{Span, span, span_end, IsRowIn, AreRowsIn};

use std::alloc::Global;
use xq_atoms::Want;
use xq_sources::{LentRow, LentRows, RowLender};

/// What is made of the rows of a range, one after another.
pub trait Visitor {
    /// From the first state on, the rows of the tree in the span before the place were visited.
    ghost has_read: { Self → Self → Tree → Span → ℕ → Type 0 };

    /// Takes one more row, and tells how many of those right after it need no visit.
    fn visit(&mut self, row: &LentRow<'_>) -> Result<u32, Want>
        ensures { (start : Self) (t : Tree) (s : Span) (n : ℕ)
            → IsRowIn t s n (placed_lent row.now) → has_read start self.old t s n
            → IfOk result (λ over. (n + 1 + over ≤ span_end t s)
            × has_read start self.new t s (n + 1 + over)) };
}

/// Visits the rows in turn, but for those that need no visit, and tells how many it went over: at
/// least all of them.
fn visit_all<V: Visitor>(rows: &LentRows<'_>, visitor: &mut V) -> Result<u64, Want>
    ensures all { IfOk result (λ passed. length rows.now ≤ passed) }
    ensures read { (start : V) (t : Tree) (s : Span) (n : ℕ) → s.high ≤ 4294967295
        → AreRowsIn t s n rows.now → n + length rows.now ≤ span_end t s
        → V.has_read start visitor.old t s n
        → IfOk result (λ passed. (n + passed ≤ span_end t s)
        × V.has_read start visitor.new t s (n + passed)) }
{
    let count = rows.len();
    let mut passed = 0usize;
    while passed < count {
        let row = rows.row(passed);
        let over = visitor.visit(&row)?;
        passed = passed.saturating_add(1).saturating_add(over as usize);
    }
    Ok(passed as u64)
}

/// Visits the rows of the tree from `low` to `high` that need it; each is read once at most.
pub fn walk<L: RowLender, V: Visitor>(
    alloc: Global,
    source: &mut L,
    tree: usize,
    low: u32,
    high: u32,
    visitor: &mut V,
) -> Result<(), Want>
    ensures read { L.is_clean source.new
        → let t = tree_at (L.forest source.old) tree in
        (start : V) → V.has_read start visitor.old t (span low high) low
        → OnOk result (V.has_read start visitor.new t (span low high)
        (span_end t (span low high))) }
    ensures rows { L.is_clean source.new
        → (L.meter source.new).rows ≤ (L.meter source.old).rows
        + (span_end (tree_at (L.forest source.old) tree) (span low high) - low) }
    ensures singles { (L.meter source.new).singles ≡ (L.meter source.old).singles }
    ensures looks { (L.meter source.new).looks ≡ (L.meter source.old).looks }
    ensures keeps { L.forest source.new ≡ L.forest source.old }
    ensures was_clean { L.is_clean source.new → L.is_clean source.old }
{
    let mut next = u64::from(low);
    while next <= u64::from(high) {
        source.fetch(alloc, tree, next as u32, high)?;
        let rows = source.lent();
        if rows.is_empty() {
            break;
        }
        let passed = visit_all(&rows, visitor)?;
        next = next.saturating_add(passed);
    }
    Ok(())
}
