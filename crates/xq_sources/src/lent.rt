//! Rows as they are lent: read where they lie, and not copied.
ghost use Rattle.std.specs.Prelude.{ℕ, ◌≡◌, ◌^◌, ◌<◌, ◌≤◌, ◌++◌, ◌+◌, ◌∷◌, drop, length, map, slice_get, slice_range, take, IfOk, IfSome, IfNone, OnOk, IsTrue, ◌↔◌, []};
ghost use Rattle.std.specs.List.{enumerate_from};
ghost use Rattle.std.specs.Option.{option_map};
ghost use Rattle.xq_trees.specs.Rows.{placed, row_at, row_of};
ghost use Rattle.xq_packed.specs.Changes.{moved};
ghost use Rattle.xq_sources.specs.Lent.{placed_lent, lent_at, unplaced, placed_between};

use std::alloc::Global;
use std::marker::Model;
use xq_atoms::Want;
use xq_packed::{PackedRow, PackedRows};
use xq_trees::{Kind, NodeRow};

/// Where the name and the value of a row lie.
#[derive(Drop)]
enum TextsForm<'a> {
    Listed(&'a NodeRow),
    Packed(PackedRow<'a>),
}

/// The name and the value of a row that is lent: each is looked for where it is asked for alone.
#[derive(Drop)]
pub struct LentTexts<'a> {
    form: TextsForm<'a>,
}

impl<'a> Model for LentTexts<'a> {
    ghost use Rattle.xq_sources.specs.Texts.{Texts, texts_code};

    ghost Value = { Texts };

    ghost coded = { texts_code };

    ghost use Rattle.xq_sources.specs.private.Forms.{texts_of_form};

    ghost view = { λ texts. texts_of_form texts.form };
}

impl<'a> LentTexts<'a> {
    /// The name; empty where the row's kind has none.
    #[inline]
    fn name(&self) -> &'a str
        ensures { result.now ≡ self.now.name }
    {
        match &self.form {
            TextsForm::Listed(row) => row.name.as_str(),
            TextsForm::Packed(row) => row.name(),
        }
    }

    /// The value; empty where the row's kind has none.
    #[inline]
    fn value(&self) -> &'a str
        ensures { result.now ≡ self.now.value }
    {
        match &self.form {
            TextsForm::Listed(row) => row.value.as_str(),
            TextsForm::Packed(row) => row.value(),
        }
    }
}

/// A node with its place among the rows of its tree, as it is lent.
#[derive(Drop)]
pub struct LentRow<'a> {
    pub pre: u32,
    pub size: u32,
    pub level: u32,
    pub kind: Kind,
    pub texts: LentTexts<'a>,
}

impl<'a> LentRow<'a> {
    /// The row, lent.
    #[inline]
    pub fn new(row: &'a NodeRow) -> LentRow<'a>
        ensures { placed_lent result ≡ placed row.now }
    {
        LentRow {
            pre: row.pre,
            size: row.size,
            level: row.level,
            kind: row.kind,
            texts: LentTexts {
                form: TextsForm::Listed(row),
            },
        }
    }

    /// Its name; empty where its kind has none.
    #[inline]
    pub fn name(&self) -> &'a str
        ensures { result.now ≡ self.now.texts.name }
    {
        self.texts.name()
    }

    /// Its value; empty where its kind has none.
    #[inline]
    pub fn value(&self) -> &'a str
        ensures { result.now ≡ self.now.texts.value }
    {
        self.texts.value()
    }

    /// A copy of the row, to keep.
    pub fn to_row(&self, alloc: Global) -> Result<NodeRow, Want>
        ensures { IfOk result (λ row. placed row ≡ placed_lent self.now) }
    {
        Ok(NodeRow {
            pre: self.pre,
            size: self.size,
            level: self.level,
            kind: self.kind,
            name: String::from_str(alloc, self.name())?,
            value: String::from_str(alloc, self.value())?,
        })
    }
}

/// The row at a place among the packed rows from `base` on, lent.
#[inline]
fn packed_row(rows: &PackedRows, base: usize, at: usize) -> LentRow<'_>
    requires within { base + at < length rows.now.rows }
    requires room { base + at < 2 ^ 32 }
    ensures { placed_lent result ≡ (at, row_at (drop base rows.now.rows) at) }
{
    let row = PackedRow::new(rows, base + at);
    LentRow {
        pre: at as u32,
        size: row.size(),
        level: row.level(),
        kind: row.kind(),
        texts: LentTexts {
            form: TextsForm::Packed(row),
        },
    }
}

/// Adds a row after packed ones: on the level `to` where it is on the level `from`, otherwise as
/// far below or above. Where no tree has a row on that level, `Want::Store` is answered.
fn append_row(rows: &mut PackedRows, row: &NodeRow, from: u32, to: u32) -> Result<(), Want>
    ensures { OnOk result (rows.new.rows
        ≡ rows.old.rows ++ moved from to (row_of row.now) ∷ []) }
{
    let Some(level) = row.level.saturating_sub(from).checked_add(to) else {
        return Err(Want::Store);
    };
    rows.push_parts(
        row.size,
        level,
        row.kind,
        row.name.as_str(),
        row.value.as_str(),
    )
}

/// Adds these rows after packed ones, with their levels moved so.
fn append_listed(rows: &mut PackedRows, listed: &[NodeRow], from: u32, to: u32) -> Result<(), Want>
    ensures { OnOk result (rows.new.rows
        ≡ rows.old.rows ++ map (moved from to) (map row_of listed.now)) }
{
    for row in listed {
        append_row(rows, row, from, to)?;
    }
    Ok(())
}

/// Where rows lie that are lent.
#[derive(Clone, Copy)]
enum Form<'a> {
    /// In a list.
    Listed(&'a [NodeRow]),
    /// Among packed rows, those from the first place on: of them from the second place, counted
    /// from there, to before the third.
    Packed(&'a PackedRows, usize, usize, usize),
}

/// Rows beside one another, as they are lent. Contracts see them with their places.
#[derive(Drop)]
pub struct LentRows<'a> {
    form: Form<'a>,
}

impl<'a> Model for LentRows<'a> {
    ghost use Rattle.std.specs.Prelude.{ℕ, List};
    ghost use Rattle.std.specs.Coded.{coded×, coded_ℕ, coded_list};
    ghost use Rattle.xq_trees.specs.Rows.{Row};
    ghost use Rattle.xq_trees.specs.Codes.{row_code};

    ghost Value = { List (ℕ × Row) };

    ghost coded = { coded_list (coded× coded_ℕ row_code) };

    ghost use Rattle.xq_sources.specs.private.Forms.{rows_of_form, IsForm};

    ghost view = { λ lent. rows_of_form lent.form };

    ghost invariant = { λ lent. IsForm lent.form };
}

impl<'a> LentRows<'a> {
    /// The rows, lent.
    #[inline]
    pub fn new(rows: &'a [NodeRow]) -> LentRows<'a>
        ensures { result ≡ map placed rows.now }
    {
        LentRows {
            form: Form::Listed(rows),
        }
    }

    /// Packed rows from one place to before another, those that there are, lent. The place of a row
    /// is that among all of the packed rows.
    #[inline]
    pub fn packed(rows: &'a PackedRows, low: usize, high: usize) -> LentRows<'a>
        ensures { result ≡ placed_between rows.now.rows low high }
    {
        LentRows::packed_after(rows, 0, low, high)
    }

    /// Packed rows from `base` on, from one place to before another, lent: all places are counted
    /// from there.
    #[inline]
    pub fn packed_after(rows: &'a PackedRows, base: usize, low: usize, high: usize) -> LentRows<'a>
        requires { base ≤ length rows.now.rows }
        ensures { result ≡ placed_between (drop base rows.now.rows) low high }
    {
        let high = high.min(rows.len() - base);
        let low = low.min(high);
        LentRows {
            form: Form::Packed(rows, base, low, high),
        }
    }

    /// All packed rows, lent.
    #[inline]
    pub fn all(rows: &'a PackedRows) -> LentRows<'a>
        ensures { result ≡ enumerate_from 0 rows.now.rows }
    {
        LentRows::packed(rows, 0, rows.len())
    }

    /// How many rows there are.
    #[inline]
    pub fn len(&self) -> usize
        ensures { result ≡ length self.now }
    {
        match self.form {
            Form::Listed(rows) => rows.len(),
            Form::Packed(_, _, low, high) => high - low,
        }
    }

    /// Whether there is no row.
    #[inline]
    pub fn is_empty(&self) -> bool
        ensures { IsTrue result ↔ (self.now ≡ []) }
    {
        self.len() == 0
    }

    /// The row at a place among them, where there is one.
    #[inline]
    pub fn get(&self, at: usize) -> Option<LentRow<'a>>
        ensures row { option_map placed_lent result ≡ slice_get self.now at }
        ensures within { IfSome result (λ _. at < length self.now) }
        ensures none { IfNone result (length self.now ≤ at) }
    {
        match self.form {
            Form::Listed(rows) => match rows.get(at) {
                Some(row) => Some(LentRow::new(row)),
                None => None,
            },
            Form::Packed(rows, base, low, high) => {
                if at < high - low {
                    Some(packed_row(rows, base, low + at))
                } else {
                    None
                }
            }
        }
    }

    /// The first of the rows, so many, those that there are.
    pub fn first(&self, count: usize) -> LentRows<'a>
        ensures { result ≡ take count self.now }
    {
        match self.form {
            Form::Listed(rows) => LentRows::new(&rows[..count.min(rows.len())]),
            Form::Packed(rows, base, low, high) => {
                LentRows::packed_after(rows, base, low, low + count.min(high - low))
            }
        }
    }

    /// The row at a place among them.
    #[inline]
    pub fn row(&self, at: usize) -> LentRow<'a>
        requires { at < length self.now }
        ensures { placed_lent result ≡ lent_at self.now at }
    {
        let Some(row) = self.get(at) else {
            unreachable!();
        };
        row
    }

    /// A place from one among them on up to which the rows are the same as others: packed rows are
    /// the same up to the first that isn't. Of others nothing is told.
    pub fn same_until(&self, other: &LentRows<'_>, low: usize) -> usize
        requires mine { low ≤ length self.now }
        requires its { low ≤ length other.now }
        ensures after { low ≤ result }
        ensures mine { result ≤ length self.now }
        ensures its { result ≤ length other.now }
        ensures same { (k : ℕ) → low ≤ k → k < result → lent_at self.now k ≡ lent_at other.now k }
    {
        let Form::Packed(rows, base, start, end) = self.form else {
            return low;
        };
        let Form::Packed(others, front, first, last) = other.form else {
            return low;
        };
        if base != front || start != first {
            return low;
        }
        let stop = base + end.min(last);
        rows.same_until(others, base + start + low, stop) - base - start
    }

    /// Adds the rows, without their places, after packed ones: on the level `to` where they are on
    /// the level `from`, others as far below or above as here. Where no tree has a row on such a
    /// level, `Want::Store` is answered.
    pub fn append_to(&self, rows: &mut PackedRows, from: u32, to: u32) -> Result<(), Want>
        ensures { OnOk result (rows.new.rows
            ≡ rows.old.rows ++ map (moved from to) (unplaced self.now)) }
    {
        match self.form {
            Form::Listed(listed) => append_listed(rows, listed, from, to),
            Form::Packed(packed, base, low, high) => {
                rows.append_run(packed, base + low, base + high, from, to)
            }
        }
    }

    /// The rows from one place among them to before another, those that there are.
    pub fn between(&self, low: usize, high: usize) -> LentRows<'a>
        ensures { result ≡ slice_range self.now low high }
    {
        match self.form {
            Form::Listed(rows) => {
                let high = high.min(rows.len());
                let (_, part) = rows[..high].split_at(low.min(high));
                LentRows::new(part)
            }
            Form::Packed(rows, base, start, end) => {
                let high = high.min(end - start);
                LentRows::packed_after(rows, base, start + low.min(high), start + high)
            }
        }
    }
}
