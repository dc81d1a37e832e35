//! Rows of sixteen bytes beside one text of their values, with their names numbered.
#![tactic(auto)]

ghost use Rattle.std.specs.Prelude.{map, All, ℕ, ◌≡◌, ◌↔◌, ◌^◌, ◌<◌, ◌++◌, take, ◌∷◌, [], length, string_bytes, slice_get, IfSome, IfNone, IfErr, OnOk, OnErr, IsTrue};
ghost use Rattle.std.specs.Option.{option_map};
ghost use Rattle.xq_trees.specs.Tree.{most_levels};
ghost use Rattle.xq_trees.specs.Rows.{row_of, row_at};
ghost use Rattle.xq_packed.specs.Packed.{row, with_name, IsExtended, IsNumberOf, NoneNamed};
ghost use Rattle.xq_packed.specs.private.Shapes.{Describes};

use std::alloc::Global;
use std::marker::Model;
use xq_atoms::Want;
use xq_trees::{Kind, MAX_LEVEL, NodeRow};

mod changes;
mod equal;
mod judged;
mod lists;
mod names;
mod packed_tree;
mod row;
mod runs;
mod shapes;
mod sizes;
mod value_places;

use names::NameTable;
pub use packed_tree::PackedTree;
pub use row::PackedRow;
use shapes::{Shape, end_after, start_at};
pub use value_places::ValuePlaces;

/// The most rows: their places have four bytes.
pub const MOST_ROWS: usize = 0xFFFF_FFFF;

/// What a row takes beside its value and its name.
const BYTES_OF_A_SHAPE: usize = 16;

/// Rows in a list, without their places. Contracts see the rows and the distinct names among which
/// theirs are, in the order of their numbers.
#[derive(Drop)]
pub struct PackedRows {
    shapes: Vec<Shape>,
    /// The values of the rows, one after another.
    text: String,
    names: NameTable,
}

impl Model for PackedRows {
    ghost use Rattle.std.specs.Prelude.{string_bytes};
    ghost use Rattle.xq_packed.specs.Packed.{Packed, packed_code};

    ghost Value = { Packed };

    ghost coded = { packed_code };

    ghost use Rattle.xq_packed.specs.private.Shapes.{rows_of_shapes, IsKept};

    ghost view = { λ p. record {
      rows = rows_of_shapes (string_bytes p.text) p.names 0 p.shapes.items;
      names = p.names;
    } };

    ghost invariant = { λ p. IsKept (string_bytes p.text) p.names p.shapes.items };
}

impl PackedRows {
    /// No row.
    pub fn new(alloc: Global) -> PackedRows
        ensures rows { result.rows ≡ [] }
        ensures names { result.names ≡ [] }
    {
        PackedRows {
            shapes: Vec::new(alloc),
            text: String::new(alloc),
            names: NameTable::new(alloc),
        }
    }

    /// How many rows there are: their places have four bytes.
    #[inline]
    pub fn len(&self) -> usize
        ensures rows { result ≡ length self.now.rows }
        ensures room { result < 2 ^ 32 }
    {
        self.shapes.len()
    }

    /// How many bytes the rows take, without room to grow: sixteen each, their values, and their
    /// names, each once.
    pub fn bytes(&self) -> usize {
        let shapes = self.len().saturating_mul(BYTES_OF_A_SHAPE);
        shapes
            .saturating_add(self.text.len())
            .saturating_add(self.names.bytes())
    }

    /// Whether there is no row.
    #[inline]
    pub fn is_empty(&self) -> bool
        ensures { IsTrue result ↔ (self.now.rows ≡ []) }
    {
        self.len() == 0
    }

    /// Adds a row of these parts after the others; where it is refused, they are as before. It is
    /// refused by `Want::Store` where no tree has it: on too deep a level.
    pub fn push_parts(
        &mut self,
        size: u32,
        level: u32,
        kind: Kind,
        name: &str,
        value: &str,
    ) -> Result<(), Want>
        ensures rows { OnOk result (self.new.rows
            ≡ self.old.rows ++ row size level kind name.now value.now ∷ []) }
        ensures names { OnOk result (self.new.names ≡ with_name self.old.names name.now) }
        ensures fits { OnOk result (level < most_levels) }
        ensures err { OnErr result (self.new ≡ self.old) }
        ensures want { level < most_levels → IfErr result (λ want. want ≡ Want.Memory) }
    {
        if level > MAX_LEVEL {
            return Err(Want::Store);
        }
        if self.shapes.len() >= MOST_ROWS {
            return Err(Want::Memory);
        }
        let (end_low, end_high) = end_after(self.text.len(), value.len())?;
        self.shapes.reserve(1)?;
        self.text.reserve(value.len())?;
        let name = self.names.number_among(name)?;
        self.text.push_str(value)?;
        self.shapes.push_reserved(Shape {
            size,
            name,
            end_low,
            end_high,
            level: level as u8,
            kind,
        });
        Ok(())
    }

    /// Adds a row after the others; where it is refused, they are as before. It is refused by
    /// `Want::Store` where no tree has it: on too deep a level.
    pub fn push(&mut self, row: &NodeRow) -> Result<(), Want>
        ensures rows { OnOk result (self.new.rows ≡ self.old.rows ++ row_of row.now ∷ []) }
        ensures names { OnOk result (self.new.names
            ≡ with_name self.old.names (string_bytes row.now.name)) }
        ensures fits { OnOk result (row.now.level < most_levels) }
        ensures err { OnErr result (self.new ≡ self.old) }
        ensures want { row.now.level < most_levels
            → IfErr result (λ want. want ≡ Want.Memory) }
    {
        self.push_parts(
            row.size,
            row.level,
            row.kind,
            row.name.as_str(),
            row.value.as_str(),
        )
    }

    /// Adds these rows after the others, one by one: where one is refused, as `push` refuses it,
    /// those before it were added.
    pub fn extend(&mut self, rows: &[NodeRow]) -> Result<(), Want>
        ensures all { OnOk result (IsExtended self.old self.new (map row_of rows.now)) }
        ensures fit { OnOk result (All (λ row. row.level < most_levels) rows.now) }
        ensures some { OnErr result ((count : ℕ)
            × IsExtended self.old self.new (map row_of (take count rows.now))) }
        ensures want { All (λ row. row.level < most_levels) rows.now
            → IfErr result (λ want. want ≡ Want.Memory) }
    {
        for row in rows {
            self.push(row)?;
        }
        Ok(())
    }

    /// The number of a name, which is that of the rows that have it, and of no others; none where
    /// no row has it.
    pub fn number_of(&self, name: &str) -> Option<u32>
        ensures number { IfSome result (λ number. IsNumberOf self.now.names number name.now) }
        ensures none { IfNone result (NoneNamed self.now.rows name.now) }
    {
        self.names.number_of(name)
    }

    /// The shape of the row at a place.
    #[inline]
    fn shape_at(&self, at: usize) -> Shape
        requires { at < length self.now.rows }
        ensures { Describes self.now.names result (row_at self.now.rows at) }
    {
        self.shapes[at]
    }

    /// The name of the row at a place.
    #[inline]
    fn name_at(&self, at: usize) -> &str
        requires { at < length self.now.rows }
        ensures { result.now ≡ (row_at self.now.rows at).label.name }
    {
        self.names.get(self.shapes[at].name)
    }

    /// The value of the row at a place.
    #[inline]
    fn value_at(&self, at: usize) -> &str
        requires { at < length self.now.rows }
        ensures { result.now ≡ (row_at self.now.rows at).label.value }
    {
        let start = start_at(&self.shapes, at);
        let end = self.shapes[at].value_end();
        &self.text[start..end]
    }

    /// The row at a place.
    #[inline]
    pub fn get(&self, at: usize) -> Option<PackedRow<'_>>
        ensures row { option_map (λ found. found.row) result ≡ slice_get self.now.rows at }
        ensures names { IfSome result (λ found. found.names ≡ self.now.names) }
    {
        if at < self.len() {
            Some(PackedRow::new(self, at))
        } else {
            None
        }
    }
}
