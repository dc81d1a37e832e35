//! Values of one item.
ghost use Rattle.std.specs.Prelude.{◌≡◌, ◌∷◌, [], IfOk, IfErr};
ghost use Rattle.xq_atoms.specs.Atom.{atomic_of};
ghost use Rattle.xq_trees.specs.Items.{Value, item_views};

use std::alloc::Global;
use xq_atoms::{Atom, Want};
use xq_trees::{Item, Items};

/// The sequence of one atom.
pub fn one(alloc: Global, atom: Atom) -> Result<Items, Want>
    ensures value { IfOk result (λ items. item_views items ≡ Value (atomic_of atom) ∷ []) }
    ensures want { IfErr result (λ want. want ≡ Want.Memory) }
{
    let mut items = Vec::new(alloc);
    items.push(Item::Atom(atom))?;
    Ok(items)
}
