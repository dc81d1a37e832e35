//! The value of a slot, which tuples share.
ghost use Rattle.std.specs.Prelude.{◌≡◌, ◌∷◌, [], map, length, true, IfOk, IfErr};
ghost use Rattle.xq_atoms.specs.Atom.{atomic_of};
ghost use Rattle.xq_trees.specs.Items.{item_view, item_views};
ghost use Rattle.xq_tuples.specs.Views.{slot_items};

use std::alloc::{AllocError, Global};
use std::rc::Rc;
use std::slice;
use xq_atoms::{Atom, Want};
use xq_trees::{Item, Items};

/// The value of a slot. Tuples share the values that they have in common, so that a tuple is copied
/// without a copy of a list. One item that has no text lies in place and takes no allocation, as
/// most do that a `for` binds.
#[derive(Drop)]
pub enum SlotValue {
    Lone(Item),
    Shared(Rc<Items>),
}

impl SlotValue {
    /// The items.
    #[inline]
    pub fn items(&self) -> &[Item]
        ensures { map item_view result.now ≡ slot_items self.now }
    {
        match self {
            SlotValue::Lone(item) => slice::from_ref(item),
            SlotValue::Shared(items) => items.as_slice(),
        }
    }

    /// The value of one item.
    pub fn of_item(alloc: Global, item: Item) -> Result<SlotValue, Want>
        ensures value { IfOk result (λ value. slot_items value ≡ item_view item ∷ []) }
        ensures want { IfErr result (λ want. want ≡ Want.Memory) }
    {
        if is_light(&item) {
            return Ok(SlotValue::Lone(item));
        }
        let mut items = Vec::with_capacity(alloc, 1)?;
        items.push(item)?;
        Ok(SlotValue::Shared(Rc::new(alloc, items)?))
    }

    /// The value of these items.
    pub fn of_items(alloc: Global, items: Items) -> Result<SlotValue, Want>
        ensures value { IfOk result (λ value. slot_items value ≡ item_views items) }
        ensures want { IfErr result (λ want. want ≡ Want.Memory) }
    {
        let mut items = items;
        if is_one_light(&items) {
            if let Some(item) = items.pop() {
                return Ok(SlotValue::Lone(item));
            }
        }
        Ok(SlotValue::Shared(Rc::new(alloc, items)?))
    }
}

/// Whether a copy of the item takes no allocation.
fn is_light(item: &Item) -> bool {
    match item {
        Item::Node(_) => true,
        Item::Atom(atom) => !matches!(atom, Atom::Str(_) | Atom::Untyped(_)),
    }
}

/// Whether there is one item, and a copy of it takes no allocation.
fn is_one_light(items: &[Item]) -> bool
    ensures { result ≡ true → length items.now ≡ 1 }
{
    match items {
        [item] => is_light(item),
        _ => false,
    }
}

/// A copy of the atom, whose text is shared.
fn same_atom(atom: &Atom) -> Result<Atom, AllocError>
    ensures { IfOk result (λ copy. atomic_of copy ≡ atomic_of atom.now) }
{
    Ok(match atom {
        Atom::Int(integer) => Atom::Int(*integer),
        Atom::Dec(decimal) => Atom::Dec(*decimal),
        Atom::Str(text) => Atom::Str(text.clone()?),
        Atom::Bool(truth) => Atom::Bool(*truth),
        Atom::Untyped(text) => Atom::Untyped(text.clone()?),
    })
}

/// A copy of the item, whose text is shared.
fn same_item(item: &Item) -> Result<Item, AllocError>
    ensures { IfOk result (λ copy. item_view copy ≡ item_view item.now) }
{
    match item {
        Item::Node(node) => Ok(Item::Node(*node)),
        Item::Atom(atom) => Ok(Item::Atom(same_atom(atom)?)),
    }
}

impl Clone for SlotValue {
    ghost use Rattle.std.specs.Prelude.{◌≡◌};
    ghost use Rattle.xq_tuples.specs.Views.{slot_items};

    ghost is_clone = { λ value copy. slot_items copy ≡ slot_items value };

    fn clone(&self) -> Result<SlotValue, AllocError> {
        match self {
            SlotValue::Lone(item) => Ok(SlotValue::Lone(same_item(item)?)),
            SlotValue::Shared(items) => Ok(SlotValue::Shared(items.clone()?)),
        }
    }
}
