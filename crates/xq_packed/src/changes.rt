//! Rows that are changed where they stand, and a root that is put above them.
ghost use Rattle.std.specs.Prelude.{◌≡◌, ◌+◌, ◌<◌, ◌↔◌, ◌∷◌, [], map, length, All, IsTrue, IfErr, OnOk, OnErr};
ghost use Rattle.xq_trees.specs.Tree.{most_levels};
ghost use Rattle.xq_packed.specs.Packed.{row, with_name};
ghost use Rattle.xq_packed.specs.Changes.{moved, AreMovable, with_longer_last, with_size};
ghost use Rattle.xq_packed.specs.private.Shapes.{sunk};

use crate::shapes::{Shape, end_after};
use crate::{MOST_ROWS, PackedRows};
use xq_atoms::Want;
use xq_trees::{Kind, MAX_LEVEL};

/// Whether no row is on the last level that a tree may have.
fn may_sink(shapes: &[Shape]) -> bool
    ensures { IsTrue result ↔ All (λ shape. shape.level + 1 < most_levels) shapes.now }
{
    for shape in shapes {
        if u32::from(shape.level) >= MAX_LEVEL {
            return false;
        }
    }
    true
}

/// Puts each row one level further down.
fn sink(shapes: &mut [Shape])
    requires { All (λ shape. shape.level + 1 < most_levels) shapes.old }
    ensures { shapes.new ≡ map sunk shapes.old }
{
    for at in 0..shapes.len() {
        shapes[at].level += 1;
    }
}

impl PackedRows {
    /// Makes the value of the last row longer by this text. Nothing is changed where there is no
    /// row, or where memory is wanting.
    pub fn extend_last(&mut self, value: &str) -> Result<(), Want>
        ensures rows { OnOk result (self.new.rows ≡ with_longer_last value.now self.old.rows) }
        ensures names { self.new.names ≡ self.old.names }
        ensures err { OnErr result (self.new ≡ self.old) }
        ensures want { IfErr result (λ want. want ≡ Want.Memory) }
    {
        let count = self.shapes.len();
        if count == 0 {
            return Ok(());
        }
        let (end_low, end_high) = end_after(self.text.len(), value.len())?;
        self.text.push_str(value)?;
        let last = self.shapes[count - 1];
        self.shapes[count - 1] = Shape {
            end_low,
            end_high,
            ..last
        };
        Ok(())
    }

    /// Gives the row at a place another size.
    pub fn set_size(&mut self, at: usize, size: u32)
        requires { at < length self.old.rows }
        ensures rows { self.new.rows ≡ with_size at size self.old.rows }
        ensures names { self.new.names ≡ self.old.names }
    {
        self.shapes[at].size = size;
    }

    /// Puts a row of level 0 without a value before all others, which go one level further down;
    /// where it is refused, they are as before. It is refused by `Want::Store` where one of them is
    /// on the last level already.
    pub fn put_root(&mut self, size: u32, kind: Kind, name: &str) -> Result<(), Want>
        ensures rows { OnOk result (self.new.rows
            ≡ row size 0 kind name.now [] ∷ map (moved 0 1) self.old.rows) }
        ensures names { OnOk result (self.new.names ≡ with_name self.old.names name.now) }
        ensures fits { OnOk result (AreMovable 0 1 self.old.rows) }
        ensures err { OnErr result (self.new ≡ self.old) }
        ensures want { AreMovable 0 1 self.old.rows
            → IfErr result (λ want. want ≡ Want.Memory) }
    {
        if !may_sink(&self.shapes) {
            return Err(Want::Store);
        }
        if self.shapes.len() >= MOST_ROWS {
            return Err(Want::Memory);
        }
        self.shapes.reserve(1)?;
        let name = self.names.number_among(name)?;
        let root = Shape {
            size,
            name,
            end_low: 0,
            end_high: 0,
            level: 0,
            kind,
        };
        sink(&mut self.shapes);
        self.shapes.insert(0, root)?;
        Ok(())
    }
}
