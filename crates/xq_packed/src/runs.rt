//! Runs of rows that are copied after others.
ghost use Rattle.std.specs.Prelude.{ℕ, List, ◌≡◌, ◌+◌, ◌-◌, ◌<◌, ◌≤◌, ◌++◌, map, take, length, slice_range, vec_len, vec_capacity, All, IfOk, IfErr, OnOk, OnErr};
ghost use Rattle.xq_trees.specs.Tree.{most_levels};
ghost use Rattle.xq_packed.specs.Packed.{IsNumbered, with_name, with_names};
ghost use Rattle.xq_packed.specs.Changes.{moved, AreMovable};
ghost use Rattle.xq_packed.specs.private.Shapes.{value_end, name_at};
ghost use Rattle.xq_packed.specs.private.Copies.{IsKnown, IsReadable, IsMovedTo, AreMovedAfter, AreShiftedAfter, with_named};
ghost use Rattle.xq_packed.specs.declared.shapes.Shape.{Shape};

use crate::names::NameTable;
use crate::shapes::{Shape, end_after, start_at};
use crate::{MOST_ROWS, PackedRows};
use xq_atoms::Want;
use xq_trees::MAX_LEVEL;

/// How many numbers of names are kept at hand while rows are copied.
const KEPT: usize = 16;

/// How rows are moved that are copied: their values from one place in a text to another, their
/// levels from one to another.
#[derive(Clone, Copy)]
struct Move {
    low: usize,
    base: usize,
    from: u32,
    to: u32,
}

/// The number of the name that has a number among others. Of some names that were asked for before,
/// it is known.
fn number_again(
    known: &mut [Option<(u32, u32)>],
    names: &mut NameTable,
    others: &NameTable,
    number: u32,
) -> Result<u32, Want>
    requires some { 0 < length known.old }
    requires known { All (IsKnown others.now names.old) known.old }
    requires numbered { number < length others.now }
    ensures number { IfOk result (λ found. IsNumbered names.new found
        (name_at others.now number)) }
    ensures names { OnOk result (names.new
        ≡ with_name names.old (name_at others.now number)) }
    ensures known { OnOk result (All (IsKnown others.now names.new) known.new) }
    ensures err { OnErr result (names.new ≡ names.old) }
    ensures want { IfErr result (λ want. want ≡ Want.Memory) }
{
    let at = number as usize % known.len();
    if let Some((other, found)) = known[at] {
        if other == number {
            return Ok(found);
        }
    }
    let found = names.number_among(others.get(number))?;
    known[at] = Some((number, found));
    Ok(found)
}

/// The shape with another number of the name, moved.
fn moved_shape(shape: Shape, name: u32, way: Move) -> Result<Shape, Want>
    requires { way.low ≤ value_end shape }
    ensures moved { IfOk result (IsMovedTo way.low way.base way.from way.to shape name) }
    ensures fits { OnOk result (shape.level - way.from + way.to < most_levels) }
    ensures want { shape.level - way.from + way.to < most_levels
        → IfErr result (λ want. want ≡ Want.Memory) }
{
    let level = u32::from(shape.level)
        .saturating_sub(way.from)
        .saturating_add(way.to);
    if level > MAX_LEVEL {
        return Err(Want::Store);
    }
    let (end_low, end_high) = end_after(shape.value_end() - way.low, way.base)?;
    Ok(Shape {
        size: shape.size,
        name,
        end_low,
        end_high,
        level: level as u8,
        kind: shape.kind,
    })
}

/// Adds the shapes of a run of rows whose names are numbered among others, moved. Where one is
/// refused, some of them were added.
fn append_shapes(
    shapes: &mut Vec<Shape>,
    names: &mut NameTable,
    others: &NameTable,
    run: &[Shape],
    way: Move,
) -> Result<(), Want>
    requires { All (IsReadable others.now way.low) run.now }
    ensures moved { OnOk result (AreMovedAfter others.now names.new way.low way.base way.from way.to
        shapes.old.items run.now shapes.new.items) }
    ensures names { OnOk result (names.new ≡ with_named others.now names.old run.now) }
    ensures fit { OnOk result (All (λ shape. shape.level - way.from + way.to < most_levels)
        run.now) }
    ensures front { (more : List Shape) × (shapes.new.items ≡ shapes.old.items ++ more) }
    ensures some { OnErr result ((count : ℕ) × (names.new
        ≡ with_named others.now names.old (take count run.now))) }
    ensures want { All (λ shape. shape.level - way.from + way.to < most_levels) run.now
        → IfErr result (λ want. want ≡ Want.Memory) }
{
    let mut known = [None; KEPT];
    for shape in run {
        let name = number_again(&mut known, names, others, shape.name)?;
        shapes.push(moved_shape(*shape, name, way)?)?;
    }
    Ok(())
}

/// Adds the shapes from one place to before another once more, moved, where there is room. Where
/// one is refused, some of them were added.
fn repeat_shapes(shapes: &mut Vec<Shape>, low: usize, high: usize, way: Move) -> Result<(), Want>
    requires order { low ≤ high }
    requires inside { high ≤ length shapes.old.items }
    requires ends { All (λ shape. way.low ≤ value_end shape)
        (slice_range shapes.old.items low high) }
    requires room { vec_len shapes.old + (high - low) ≤ vec_capacity shapes.old }
    ensures moved { OnOk result (AreShiftedAfter way.low way.base way.from way.to shapes.old.items
        (slice_range shapes.old.items low high) shapes.new.items) }
    ensures fit { OnOk result (All (λ shape. shape.level - way.from + way.to < most_levels)
        (slice_range shapes.old.items low high)) }
    ensures front { (more : List Shape) × (shapes.new.items ≡ shapes.old.items ++ more) }
    ensures want { All (λ shape. shape.level - way.from + way.to < most_levels)
        (slice_range shapes.old.items low high) → IfErr result (λ want. want ≡ Want.Memory) }
{
    for at in low..high {
        let shape = shapes[at];
        shapes.push_reserved(moved_shape(shape, shape.name, way)?);
    }
    Ok(())
}

impl PackedRows {
    /// Adds the rows of others from one place to before another, those that there are, after these:
    /// on the level `to` where they are on the level `from`, others as far below or above as there.
    /// Where it is refused, the rows are as before. It is refused by `Want::Store` where no tree
    /// has one of them: on too deep a level.
    pub fn append_run(
        &mut self,
        other: &PackedRows,
        low: usize,
        high: usize,
        from: u32,
        to: u32,
    ) -> Result<(), Want>
        ensures rows { OnOk result (self.new.rows
            ≡ self.old.rows ++ map (moved from to) (slice_range other.now.rows low high)) }
        ensures names { OnOk result (self.new.names
            ≡ with_names self.old.names (slice_range other.now.rows low high)) }
        ensures fit { OnOk result (AreMovable from to (slice_range other.now.rows low high)) }
        ensures err { OnErr result (self.new.rows ≡ self.old.rows) }
        ensures some { OnErr result ((count : ℕ) × (self.new.names
            ≡ with_names self.old.names (take count (slice_range other.now.rows low high)))) }
        ensures want { AreMovable from to (slice_range other.now.rows low high)
            → IfErr result (λ want. want ≡ Want.Memory) }
    {
        let high = high.min(other.shapes.len());
        let low = low.min(high);
        let run = &other.shapes[low..high];
        if run.len() > MOST_ROWS - self.shapes.len() {
            return Err(Want::Memory);
        }
        let start = start_at(&other.shapes, low);
        let values = &other.text[start..start_at(&other.shapes, high)];
        // One row more: a root is put above most runs that are copied.
        self.shapes.reserve(run.len() + 1)?;
        self.text.reserve(values.len())?;
        let way = Move {
            low: start,
            base: self.text.len(),
            from,
            to,
        };
        let count = self.shapes.len();
        let done = append_shapes(&mut self.shapes, &mut self.names, &other.names, run, way);
        if let Err(want) = done {
            self.shapes.truncate(count);
            return Err(want);
        }
        self.text.push_str(values)?;
        Ok(())
    }

    /// Adds rows of these from one place to before another, those that there are, once more after
    /// the last: on the level `to` where they are on the level `from`, others as far below or above
    /// as there. Where it is refused, the rows are as before. It is refused by `Want::Store` where
    /// no tree has one of them: on too deep a level.
    pub fn append_own(&mut self, low: usize, high: usize, from: u32, to: u32) -> Result<(), Want>
        ensures rows { OnOk result (self.new.rows
            ≡ self.old.rows ++ map (moved from to) (slice_range self.old.rows low high)) }
        ensures names { self.new.names ≡ self.old.names }
        ensures fit { OnOk result (AreMovable from to (slice_range self.old.rows low high)) }
        ensures err { OnErr result (self.new ≡ self.old) }
        ensures want { AreMovable from to (slice_range self.old.rows low high)
            → IfErr result (λ want. want ≡ Want.Memory) }
    {
        let count = self.shapes.len();
        let high = high.min(count);
        let low = low.min(high);
        if high - low > MOST_ROWS - count {
            return Err(Want::Memory);
        }
        let start = start_at(&self.shapes, low);
        let end = start_at(&self.shapes, high);
        self.shapes.reserve(high - low)?;
        self.text.reserve(end - start)?;
        let way = Move {
            low: start,
            base: self.text.len(),
            from,
            to,
        };
        let done = repeat_shapes(&mut self.shapes, low, high, way);
        if let Err(want) = done {
            self.shapes.truncate(count);
            return Err(want);
        }
        self.text.extend_from_within(start..end)?;
        Ok(())
    }

    /// Keeps the first rows, as many as this, of those that there are. Their names stay, and so do
    /// those of the others.
    pub fn truncate(&mut self, count: usize)
        ensures rows { self.new.rows ≡ take count self.old.rows }
        ensures names { self.new.names ≡ self.old.names }
    {
        let count = count.min(self.shapes.len());
        let end = start_at(&self.shapes, count);
        self.shapes.truncate(count);
        self.text.truncate(end);
    }
}
