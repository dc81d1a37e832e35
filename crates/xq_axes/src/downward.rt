//! Axes to what is below the context nodes: child, attribute, descendant and descendant-or-self.
ghost use Rattle.std.specs.Prelude.{◌≡◌, ◌+◌, ◌-◌, ◌<◌, ◌≤◌, ◌&&◌, ℕ, length, min, true, false, nat_lt, slice_get, slice_set, slice_index_or, if◌then◌else◌, IfOk, OnOk};
ghost use Rattle.xq_trees.specs.Forest.{count};
ghost use Rattle.xq_trees.specs.Tree.{nodes};
ghost use Rattle.xq_sources.specs.Sources.{tree_at};
ghost use Rattle.xq_axes.specs.Reads.{span, span_end};
ghost use Rattle.xq_axes.specs.Scans.{region};
ghost use Rattle.xq_axes.specs.private.Hits.{is_wanted, below_where, IsRising, IsReached};
ghost use Rattle.xq_axes.specs.declared.picks.Picker.{Picker as PickerLem};
ghost use Rattle.xq_axes.specs.declared.downward.Below.{Below as BelowLem};
ghost use Rattle.xq_axes.specs.declared.downward.Downward.{Downward as DownwardLem};
ghost use Rattle.xq_axes.specs.declared.downward.Downward.TheVariants.{Child, Attribute, Descendant, DescendantOrSelf};
ghost use Rattle.xq_axes.specs.private.Downward.{axis_of, is_chosen as is_chosen_lem, is_own as is_own_lem, is_child as is_child_lem, rows_over as rows_over_lem, end_of, IsJudged, IsSearched, IsNext, ReadsBelow};

use crate::contexts::Contexts;
use crate::names::add_named;
use crate::passing::end_of_row;
use crate::picks::{Found, Judge, Picker, Places, Verdict};
use crate::tests::is_plain;
use crate::walks::{Visitor, walk};
use std::alloc::Global;
use xq_atoms::Want;
use xq_meaning::Test;
use xq_sources::{LentRow, RowLender};

/// How many levels a tree may have.
const LEVELS: usize = 101;

/// From how many rows below a context on places of names are asked for: fewer are read as fast.
pub const MANY_ROWS: u32 = 64;

/// An axis to what is below the context nodes.
#[derive(Clone, Copy)]
pub enum Downward {
    Child,
    Attribute,
    Descendant,
    DescendantOrSelf,
}

/// Such an axis as a type of its own, so that what is done with each row is compiled for it.
pub trait Direction: Copy {
    /// Which one it is.
    ghost which: { Self → DownwardLem };

    fn which(self) -> Downward
        ensures { result ≡ which self };
}

/// To children.
#[derive(Clone, Copy)]
pub struct ToChildren;

impl Direction for ToChildren {
    ghost which = { λ _. Child };

    fn which(self) -> Downward {
        Downward::Child
    }
}

/// To attributes.
#[derive(Clone, Copy)]
pub struct ToAttributes;

impl Direction for ToAttributes {
    ghost which = { λ _. Attribute };

    fn which(self) -> Downward {
        Downward::Attribute
    }
}

/// To descendants.
#[derive(Clone, Copy)]
pub struct ToDescendants;

impl Direction for ToDescendants {
    ghost which = { λ _. Descendant };

    fn which(self) -> Downward {
        Downward::Descendant
    }
}

/// To descendants and the contexts themselves.
#[derive(Clone, Copy)]
pub struct ToDescendantsOrSelf;

impl Direction for ToDescendantsOrSelf {
    ghost which = { λ _. DescendantOrSelf };

    fn which(self) -> Downward {
        Downward::DescendantOrSelf
    }
}

impl Downward {
    /// Whether a row below a context is on the axis, by whether its parent is a context, whether
    /// it is one itself, and whether it is no attribute.
    fn is_chosen(self, is_child: bool, is_context: bool, is_plain: bool) -> bool
        ensures { result ≡ is_chosen_lem self is_child is_context is_plain }
    {
        match self {
            Downward::Child => is_child && is_plain,
            Downward::Attribute => is_child && !is_plain,
            Downward::Descendant => is_plain,
            Downward::DescendantOrSelf => is_context || is_plain,
        }
    }

    /// Whether a context that stands in no other is on the axis from itself.
    fn is_own(self) -> bool
        ensures { result ≡ is_own_lem self }
    {
        matches!(self, Downward::DescendantOrSelf)
    }
}

/// What is known of the rows so far, one context's rows after another's.
#[derive(Clone, Copy)]
pub struct Below<'a, D> {
    direction: D,
    contexts: Contexts<'a>,
    /// By level, whether the last row there that was looked at is that of a context.
    marks: [bool; LEVELS],
    /// Whether the last row that is no attribute is that of a context.
    is_open: bool,
    /// The place of the last row below the context that stands in no other.
    last: u32,
}

impl<D: Direction> Judge for Below<'_, D> {
    ghost axis = { λ b. axis_of (D.which b.direction) };

    ghost contexts = { λ b. b.contexts.places.now };

    ghost has_judged = { λ start now t s n. (now.direction ≡ start.direction)
        × (now.contexts.places.now ≡ start.contexts.places.now)
        × (now.last ≡ s.high)
        × IsJudged (D.which start.direction) t start.contexts.places.now s n now.contexts.met
        now.marks now.is_open };

    fn judge(&mut self, row: &LentRow<'_>) -> Result<Verdict, Want> {
        let is_plain = is_plain(row.kind);
        if let Downward::Descendant = self.direction.which() {
            return Ok(Verdict {
                is_hit: is_plain,
                over: 0,
            });
        }
        let level = row.level as usize;
        if level >= LEVELS {
            return Err(Want::Store);
        }
        let is_child = self.is_child(level);
        let is_context = self.contexts.meets(row.pre);
        self.mark(level, is_context, is_plain);
        Ok(Verdict {
            is_hit: self
                .direction
                .which()
                .is_chosen(is_child, is_context, is_plain),
            over: self.rows_over(row, is_context, is_plain),
        })
    }
}

impl<'a, D: Direction> Below<'a, D> {
    /// Whether the level above is marked.
    fn is_below_mark(&self, level: usize) -> bool
        requires { level ≤ length self.now.marks }
        ensures { result ≡ (nat_lt 0 level && slice_index_or self.now.marks (level - 1) false) }
    {
        level > 0 && self.marks[level - 1]
    }

    /// Whether the parent of the row that comes next is a context. To attributes only rows of
    /// attributes are asked for.
    fn is_child(&self, level: usize) -> bool
        requires { level ≤ length self.now.marks }
        ensures { result ≡ is_child_lem (D.which self.now.direction) self.now.is_open
            (nat_lt 0 level && slice_index_or self.now.marks (level - 1) false) }
    {
        match self.direction.which() {
            Downward::Attribute => self.is_open,
            _ => self.is_below_mark(level),
        }
    }

    /// Takes note of the row, the next one: whether it is a context.
    fn mark(&mut self, level: usize, is_context: bool, is_plain: bool)
        requires { level < length self.now.marks }
        ensures direction { self.new.direction ≡ self.old.direction }
        ensures contexts { self.new.contexts ≡ self.old.contexts }
        ensures marks { self.new.marks ≡ slice_set self.old.marks level is_context }
        ensures is_open { self.new.is_open ≡ (if is_plain then is_context else self.old.is_open) }
        ensures last { self.new.last ≡ self.old.last }
    {
        self.marks[level] = is_context;
        if is_plain {
            self.is_open = is_context;
        }
    }

    /// How many rows right after the row, already noted, are on the axis from no context: to
    /// children those below a row that is no context and holds none, to attributes those before the
    /// next context.
    fn rows_over(&self, row: &LentRow<'_>, is_context: bool, is_plain: bool) -> u32
        ensures { result ≡ rows_over_lem (D.which self.now.direction) is_context is_plain
            (slice_get self.now.contexts.places.now self.now.contexts.met) row.now.pre
            row.now.size self.now.last }
    {
        if is_context {
            return 0;
        }
        match self.direction.which() {
            Downward::Child => {
                if self.contexts.is_next_within(end_of_row(row)) {
                    return 0;
                }
                row.size
            }
            Downward::Attribute => {
                if !is_plain {
                    return 0;
                }
                self.contexts.stop(self.last).saturating_sub(row.pre)
            }
            _ => 0,
        }
    }

    /// Nothing known yet.
    fn new(direction: D, places: &'a [u32]) -> Below<'a, D>
        ensures direction { result.direction ≡ direction }
        ensures places { result.contexts.places.now ≡ places.now }
        ensures met { result.contexts.met ≡ 0 }
        ensures marks { length result.marks ≡ 101 }
    {
        Below {
            direction,
            contexts: Contexts::new(places),
            marks: [false; LEVELS],
            is_open: false,
            last: 0,
        }
    }

    /// Takes the row of a context that stands in no other, and tells whether it is on its own axis.
    fn enter(&mut self, row: &LentRow<'_>) -> Result<bool, Want>
        ensures own { IfOk result (λ own. own ≡ is_own_lem (D.which self.old.direction)) }
        ensures direction { self.new.direction ≡ self.old.direction }
        ensures places { self.new.contexts.places.now ≡ self.old.contexts.places.now }
        ensures marks { OnOk result ((row.now.level < 101)
            × (self.new.marks ≡ slice_set self.old.marks row.now.level true)) }
        ensures open { OnOk result (self.new.is_open ≡ true) }
        ensures last { OnOk result (self.new.last
            ≡ min (row.now.pre + row.now.size) 4294967295) }
        ensures met { IsRising self.old.contexts.places.now
            → IsReached self.old.contexts.places.now self.old.contexts.met row.now.pre
            → OnOk result (IsReached self.old.contexts.places.now self.new.contexts.met
            (row.now.pre + 1)) }
    {
        let level = row.level as usize;
        if level >= LEVELS {
            return Err(Want::Store);
        }
        self.marks[level] = true;
        self.is_open = true;
        self.last = row.pre.saturating_add(row.size);
        let _ = self.contexts.meets(row.pre);
        Ok(self.direction.which().is_own())
    }
}

/// Takes what is on the axis from `low` to `high`, the rows below a context, where these are many,
/// the axis is that of descendants and the lender tells where such elements are; gives whether it
/// did. No row is read.
fn take_told<'t, 'c, L: RowLender, D: Direction + Drop>(
    source: &L,
    tree: usize,
    low: u32,
    high: u32,
    picker: &mut Picker<'t, Below<'c, D>>,
) -> Result<bool, Want>
    ensures told { L.is_clean source.now
        → let t = tree_at (L.forest source.now) tree in
        let s = span low high in
        let has_read = ⟦<Picker<'t, Below<'c, D>> as Visitor>⟧.has_read in
        (start : PickerLem (BelowLem D)) → has_read start picker.old t s low
        → IfOk result (λ is_told. is_told ≡ true → has_read start picker.new t s (span_end t s)) }
    ensures untold { IfOk result (λ is_told. is_told ≡ false → picker.new ≡ picker.old) }
{
    let Downward::Descendant = picker.judge.direction.which() else {
        return Ok(false);
    };
    if high.saturating_sub(low) < MANY_ROWS {
        return Ok(false);
    }
    add_named(source, tree, low, high, picker.test, &mut picker.found)
}

/// Finds what is on the axis from `low` to `high`, the rows below a context; each is read once at
/// most.
fn find_below<'t, 'c, L: RowLender, D: Direction + Drop>(
    alloc: Global,
    source: &mut L,
    tree: usize,
    low: u32,
    high: u32,
    picker: &mut Picker<'t, Below<'c, D>>,
) -> Result<(), Want>
    ensures read { L.is_clean source.new
        → let t = tree_at (L.forest source.old) tree in
        let s = span low high in
        let has_read = ⟦<Picker<'t, Below<'c, D>> as Visitor>⟧.has_read in
        (start : PickerLem (BelowLem D)) → has_read start picker.old t s low
        → OnOk result (has_read start picker.new t s (span_end t s)) }
    ensures rows { L.is_clean source.new
        → (L.meter source.new).rows ≤ (L.meter source.old).rows
        + (span_end (tree_at (L.forest source.old) tree) (span low high) - low) }
    ensures singles { (L.meter source.new).singles ≡ (L.meter source.old).singles }
    ensures looks { (L.meter source.new).looks ≡ (L.meter source.old).looks }
    ensures keeps { L.forest source.new ≡ L.forest source.old }
    ensures was_clean { L.is_clean source.new → L.is_clean source.old }
{
    if take_told(source, tree, low, high, picker)? {
        return Ok(());
    }
    walk(alloc, source, tree, low, high, picker)
}

/// Finds what is on the axis in the rows of a context that stands in no other, and gives the place
/// after them.
fn search_one<L: RowLender, D: Direction + Drop>(
    alloc: Global,
    source: &mut L,
    tree: usize,
    place: u32,
    picker: &mut Picker<'_, Below<'_, D>>,
) -> Result<u64, Want>
    ensures keeps { L.forest source.new ≡ L.forest source.old }
    ensures was_clean { L.is_clean source.new → L.is_clean source.old }
    ensures searched { L.is_clean source.new
        → let t = tree_at (L.forest source.old) tree in
        let vs = picker.old.judge.contexts.places.now in
        let direction = picker.old.judge.direction in
        let test = picker.old.test.now in
        (n : ℕ) → n ≤ place → IsNext vs n place
        → IsSearched (D.which direction) test t vs n picker.old.judge.contexts.met
        (length picker.old.judge.marks) picker.old.found.items
        → IfOk result (λ next. (place < next) × (picker.new.judge.direction ≡ direction)
        × (picker.new.judge.contexts.places.now ≡ vs) × (picker.new.test.now ≡ test)
        × IsSearched (D.which direction) test t vs next picker.new.judge.contexts.met
        (length picker.new.judge.marks) picker.new.found.items) }
    ensures ends { L.is_clean source.new → let t = tree_at (L.forest source.old) tree in
        IfOk result (λ next. (next ≡ end_of t place + 1) × (end_of t place < count (nodes t))) }
    ensures rows { L.is_clean source.new → let t = tree_at (L.forest source.old) tree in
        ReadsBelow t place (L.meter source.old).rows (L.meter source.new).rows }
    ensures singles { (L.meter source.new).singles ≤ (L.meter source.old).singles + 1 }
    ensures looks { (L.meter source.new).looks ≡ (L.meter source.old).looks }
{
    source.fetch_row(alloc, tree, place)?;
    let Some(row) = source.lent().get(0) else {
        return Err(Want::Store);
    };
    let size = row.size;
    let is_own = picker.judge.enter(&row)?;
    picker.pick(is_own, &row)?;
    let low = place.saturating_add(1);
    let high = place.saturating_add(size);
    find_below(alloc, source, tree, low, high, picker)?;
    Ok(u64::from(high) + 1)
}

/// The places of the nodes that are on the axis from one of the places, which rise, and pass the
/// test: in document order, each once.
pub fn search_below<L: RowLender, D: Direction + Drop>(
    alloc: Global,
    source: &mut L,
    tree: usize,
    direction: D,
    places: &[u32],
    test: &Test,
) -> Result<Places, Want>
    ensures found { L.is_clean source.new
        → let t = tree_at (L.forest source.old) tree in
        IsRising places.now → IfOk result (λ found. found.items
        ≡ below_where (is_wanted (axis_of (D.which direction)) test.now t places.now)
        (count (nodes t))) }
    ensures rows { L.is_clean source.new
        → (L.meter source.new).rows ≤ (L.meter source.old).rows
        + length (region (axis_of (D.which direction)) (tree_at (L.forest source.old) tree)
        places.now) }
    ensures singles { (L.meter source.new).singles
        ≤ (L.meter source.old).singles + length places.now }
    ensures looks { (L.meter source.new).looks ≡ (L.meter source.old).looks }
    ensures keeps { L.forest source.new ≡ L.forest source.old }
    ensures was_clean { L.is_clean source.new → L.is_clean source.old }
{
    let mut picker = Picker {
        judge: Below::new(direction, places),
        test,
        found: Found::new(alloc),
    };
    let mut next = 0u64;
    for place in places {
        if u64::from(*place) < next {
            continue;
        }
        next = search_one(alloc, source, tree, *place, &mut picker)?;
    }
    picker.found.into_places()
}
