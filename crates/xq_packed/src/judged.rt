//! Packed rows as they are judged.
ghost use Rattle.std.specs.Prelude.{◌≡◌, ◌↔◌, map, nat_eq, IfOk, IfErr, IsTrue};
ghost use Rattle.std.specs.List.{IsDistinct, list_any};
ghost use Rattle.xq_packed.specs.private.Shapes.{number_of as number_of_lem};

use crate::PackedRows;
use crate::shapes::Shape;
use indexmap::IndexSet;
use std::alloc::Global;
use xq_atoms::Want;
use xq_trees::{Kind, NamedRows, TreeRows};

/// How many names are compared one with another. Most nodes have no more attributes, and no table
/// is made of their names then.
const FEW: usize = 8;

impl TreeRows for PackedRows {
    ghost listed = { λ packed. packed.rows };

    #[inline]
    fn count(&self) -> usize {
        self.len()
    }

    #[inline]
    fn size(&self, at: usize) -> u32 {
        self.shape_at(at).size
    }

    #[inline]
    fn level(&self, at: usize) -> u32 {
        u32::from(self.shape_at(at).level)
    }

    #[inline]
    fn kind(&self, at: usize) -> Kind {
        self.shape_at(at).kind
    }

    #[inline]
    fn name(&self, at: usize) -> &str {
        self.name_at(at)
    }

    #[inline]
    fn value(&self, at: usize) -> &str {
        self.value_at(at)
    }
}

/// Whether the number of each name is less than the next.
fn numbers_ascend(shapes: &[Shape]) -> bool
    ensures { IsTrue result → IsDistinct nat_eq (map number_of_lem shapes.now) }
{
    shapes.is_sorted_by(|first, second| first.name < second.name)
}

/// Whether a row has the name with the number.
fn has_number(shapes: &[Shape], number: u32) -> bool
    ensures { result ≡ list_any (nat_eq number) (map number_of_lem shapes.now) }
{
    for at in 0..shapes.len() {
        if number == shapes[at].name {
            return true;
        }
    }
    false
}

/// Whether the names have distinct numbers, each looked for among those after it.
fn are_few_distinct(shapes: &[Shape]) -> bool
    ensures { IsTrue result ↔ IsDistinct nat_eq (map number_of_lem shapes.now) }
{
    let mut rest = shapes;
    while let Some((first, after)) = rest.split_first() {
        if has_number(after, first.name) {
            return false;
        }
        rest = after;
    }
    true
}

/// Whether the names have distinct numbers.
fn are_numbers_distinct(alloc: Global, shapes: &[Shape]) -> Result<bool, Want>
    ensures distinct { IfOk result (λ distinct. IsTrue distinct
        ↔ IsDistinct nat_eq (map number_of_lem shapes.now)) }
    ensures want { IfErr result (λ want. want ≡ Want.Memory) }
{
    let mut seen = IndexSet::new(alloc);
    for shape in shapes {
        if !seen.insert(shape.name)? {
            return Ok(false);
        }
    }
    Ok(true)
}

impl NamedRows for PackedRows {
    fn has_distinct_names(&self, low: usize, high: usize) -> Result<bool, Want> {
        let alloc = self.names.allocator();
        let run = &self.shapes[low..high];
        if run.len() <= FEW {
            return Ok(are_few_distinct(run));
        }
        if numbers_ascend(run) {
            return Ok(true);
        }
        are_numbers_distinct(alloc, run)
    }
}
