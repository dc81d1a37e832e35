//! Elements and documents that are built where they are kept: no tree is made apart from the others.
ghost use Rattle.std.specs.Prelude.{◌≡◌, true, false, map, IfOk, OnErr};
ghost use Rattle.xq_trees.specs.Items.{item_view};
ghost use Rattle.xq_meaning.specs.Content.{element_tree, document_tree};
ghost use Rattle.xq_meaning.specs.Readings.{items_at};
ghost use Rattle.xq_build.specs.Plants.{Plants};

use crate::elements::{lone_string, lone_text};
use std::alloc::Global;
use xq_atoms::Want;
use xq_sources::TreeStore;
use xq_trees::{Item, Kind};

/// Adds the element that [`element`](crate::element) builds after the other trees, where it can be
/// built among them, and says whether it did: only where there are no items, one atomic value whose
/// text is not empty, or roots of constructed trees alone. Else, and where it is refused, the trees
/// are as before.
///
/// The name is one that `name_of` answers.
pub fn plant_element<W: TreeStore>(
    alloc: Global,
    world: &mut W,
    name: &str,
    items: &[Item],
) -> Result<bool, Want>
    ensures grown { IfOk result (λ did. did ≡ true → Plants (element_tree name.now
        (W.forest world.old) (items_at (W.forest world.old) (map item_view items.now)))
        (W.forest world.old) (W.forest world.new)) }
    ensures left { IfOk result (λ did. did ≡ false → W.forest world.new ≡ W.forest world.old) }
    ensures kept { OnErr result (W.forest world.new ≡ W.forest world.old) }
    ensures was_clean { W.is_clean world.new → W.is_clean world.old }
{
    if items.is_empty() {
        return world.plant_lone(Kind::Element, name, "");
    }
    if let Some(value) = lone_string(items) {
        return world.plant_around(name, value);
    }
    if let Some(value) = lone_text(alloc, items)? {
        return world.plant_around(name, value.as_str());
    }
    world.append_parent(Kind::Element, name, items)
}

/// Adds the document that [`document`](crate::document) builds after the other trees, where it can
/// be built among them, and says whether it did: only where the items are roots of constructed
/// trees alone. Else, and where it is refused, the trees are as before.
pub fn plant_document<W: TreeStore>(world: &mut W, items: &[Item]) -> Result<bool, Want>
    ensures grown { IfOk result (λ did. did ≡ true → Plants (document_tree
        (W.forest world.old) (items_at (W.forest world.old) (map item_view items.now)))
        (W.forest world.old) (W.forest world.new)) }
    ensures left { IfOk result (λ did. did ≡ false → W.forest world.new ≡ W.forest world.old) }
    ensures kept { OnErr result (W.forest world.new ≡ W.forest world.old) }
    ensures was_clean { W.is_clean world.new → W.is_clean world.old }
{
    world.append_parent(Kind::Document, "", items)
}
