//! Picking rows by how they stand to context nodes.
ghost use Rattle.std.specs.Prelude.{◌≡◌, ◌+◌, ◌≤◌, ◌∷◌, [], ◌++◌, ◌&&◌, if◌then◌else◌, ℕ, List, IfOk, OnOk};
ghost use Rattle.xq_trees.specs.Tree.{Tree};
ghost use Rattle.xq_trees.specs.declared.Axis.{Axis as AxisLem};
ghost use Rattle.xq_sources.specs.Lent.{placed_lent, row_lent};
ghost use Rattle.xq_axes.specs.Reads.{Span, span_end, IsRowIn};
ghost use Rattle.xq_axes.specs.private.Hits.{is_hit as is_hit_lem, is_wanted, row_passes, below_where, AreUnhit};

use crate::tests::passes;
use crate::walks::Visitor;
use smallvec::SmallVec;
use std::alloc::Global;
use std::marker::Model;
use xq_atoms::Want;
use xq_meaning::Test;
use xq_sources::LentRow;

/// Places in a tree. A few take no allocation: most steps from one node lead to few.
pub type Places = SmallVec<u32, 4>;

/// How many places take no allocation.
const FEW: usize = 4;

/// Places that are found one after another. A few take no allocation; more lie in a `Vec`, to which
/// each is added as fast as to any: most steps from one node lead to few, and those from many nodes
/// to many.
#[derive(Drop)]
pub struct Found {
    few: Places,
    many: Vec<u32>,
}

impl Model for Found {
    ghost use Rattle.std.specs.Prelude.{◌++◌};
    ghost use Rattle.xq_axes.specs.private.Found.{Found as Items};

    ghost Value = { Items };

    ghost view = { λ found. record { items = found.few.items ++ found.many.items } };
}

impl Found {
    /// No place.
    pub fn new(alloc: Global) -> Found
        ensures items { result.items ≡ [] }
    {
        Found {
            few: Places::new(alloc),
            many: Vec::new(alloc),
        }
    }

    /// Adds a place.
    #[inline]
    pub fn push(&mut self, place: u32) -> Result<(), Want>
        ensures ok { OnOk result (self.new.items ≡ self.old.items ++ place ∷ []) }
    {
        if self.many.is_empty() {
            return self.push_few(place);
        }
        self.many.push(place)?;
        Ok(())
    }

    /// Adds a place, where there may be few.
    #[inline(never)]
    fn push_few(&mut self, place: u32) -> Result<(), Want>
        ensures ok { OnOk result (self.new.items ≡ self.old.items ++ place ∷ []) }
    {
        self.extend(&[place])
    }

    /// Adds places.
    pub fn extend(&mut self, places: &[u32]) -> Result<(), Want>
        ensures ok { OnOk result (self.new.items ≡ self.old.items ++ places.now) }
    {
        if self.many.is_empty() {
            if places.len() <= FEW.saturating_sub(self.few.len()) {
                self.few.extend_from_slice(places)?;
                return Ok(());
            }
            spill(&mut self.few, &mut self.many)?;
        }
        self.many.extend_from_slice(places)?;
        Ok(())
    }

    /// The places.
    pub fn into_places(self) -> Result<Places, Want>
        ensures { IfOk result (λ places. places.items ≡ self.items) }
    {
        let Found { mut few, many } = self;
        if few.is_empty() {
            return Ok(Places::from_vec(many));
        }
        few.extend_from_slice(&many)?;
        Ok(few)
    }
}

/// Moves a few places to where many lie, and none so far.
fn spill(few: &mut Places, many: &mut Vec<u32>) -> Result<(), Want>
    ensures { many.old.items ≡ [] → OnOk result (few.new.items ++ many.new.items ≡ few.old.items) }
{
    many.reserve(4 * FEW)?;
    many.extend_from_slice(few.as_slice())?;
    few.clear();
    Ok(())
}

/// Adds the place to those found, if it is told that it is wanted.
pub fn push_if(found: &mut Vec<u32>, is_wanted: bool, place: u32) -> Result<(), Want>
    ensures { OnOk result (found.new.items
        ≡ found.old.items ++ (if is_wanted then place ∷ [] else [])) }
{
    if is_wanted {
        found.push(place)?;
    }
    Ok(())
}

/// What is told of a row: whether it is on the axis, and how many of those right after it need no
/// look, since none of them is.
#[derive(Clone, Copy)]
pub struct Verdict {
    pub is_hit: bool,
    pub over: u32,
}

/// Tells of rows, one after another, whether they are on an axis from one of the context nodes.
pub trait Judge {
    /// The axis.
    ghost axis: { Self → AxisLem };

    /// The places of the context nodes.
    ghost contexts: { Self → List ℕ };

    /// From the first state on, the rows of the tree in the span before the place were judged.
    ghost has_judged: { Self → Self → Tree → Span → ℕ → Type 0 };

    /// Whether the row, the next one, is on the axis, and how many after it are not.
    fn judge(&mut self, row: &LentRow<'_>) -> Result<Verdict, Want>
        ensures { (start : Self) (t : Tree) (s : Span) (n : ℕ)
            → IsRowIn t s n (placed_lent row.now) → has_judged start self.old t s n
            → IfOk result (λ verdict. let is_hit = is_hit_lem (axis start) t (contexts start) in
            let next = n + 1 + verdict.over in
            (verdict.is_hit ≡ is_hit n) × (next ≤ span_end t s)
            × AreUnhit is_hit (n + 1) next × has_judged start self.new t s next) };
}

/// Picks the rows that are on an axis and pass a test.
#[derive(Drop)]
pub struct Picker<'a, J> {
    pub judge: J,
    pub test: &'a Test,
    pub found: Found,
}

impl<J> Picker<'_, J> {
    /// Takes the row if it is on the axis, as it is told, and passes the test.
    #[inline]
    pub fn pick(&mut self, is_hit: bool, row: &LentRow<'_>) -> Result<(), Want>
        ensures judge { self.new.judge ≡ self.old.judge }
        ensures test { self.new.test.now ≡ self.old.test.now }
        ensures found { OnOk result (self.new.found.items ≡ self.old.found.items
            ++ (if is_hit && row_passes self.old.test.now
            (row_lent row.now) then row.now.pre ∷ [] else [])) }
    {
        if is_hit && passes(self.test, row) {
            self.found.push(row.pre)?;
        }
        Ok(())
    }
}

impl<J: Judge> Visitor for Picker<'_, J> {
    ghost has_read = { λ start now t s n. J.has_judged start.judge now.judge t s n
        × (now.test.now ≡ start.test.now)
        × (now.found.items ≡ below_where
        (is_wanted (J.axis start.judge) start.test.now t (J.contexts start.judge)) n) };

    fn visit(&mut self, row: &LentRow<'_>) -> Result<u32, Want> {
        let verdict = self.judge.judge(row)?;
        self.pick(verdict.is_hit, row)?;
        Ok(verdict.over)
    }
}
