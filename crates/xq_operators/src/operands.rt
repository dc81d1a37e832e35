//! Operands, atomized: one atom, as most of them are, is put into no list.
ghost use Rattle.std.specs.Prelude.{◌≡◌, map, IfOk};
ghost use Rattle.xq_atoms.specs.Atom.{atomic_of};
ghost use Rattle.xq_trees.specs.Items.{item_views};
ghost use Rattle.xq_meaning.specs.Items.{atomized};
ghost use Rattle.xq_meaning.specs.Readings.{items_at};
ghost use Rattle.xq_operators.specs.private.Operands.{operand_atoms};

use crate::atoms::{into_atom, into_atoms};
use std::alloc::Global;
use std::slice::from_ref;
use xq_atoms::{Atom, Want};
use xq_sources::RowLender;
use xq_trees::Items;

/// The atoms of an operand.
#[derive(Drop)]
pub enum Operand {
    One(Atom),
    Any(Vec<Atom>),
}

impl Operand {
    /// The atoms.
    pub fn atoms(&self) -> &[Atom]
        ensures { map atomic_of result.now ≡ operand_atoms self.now }
    {
        match self {
            Operand::One(atom) => from_ref(atom),
            Operand::Any(atoms) => atoms.as_slice(),
        }
    }

    /// The atoms of the items, in order, each read from the trees.
    pub fn of_items<L: RowLender>(
        alloc: Global,
        source: &mut L,
        items: Items,
    ) -> Result<Operand, Want>
        ensures value { L.is_clean source.new → IfOk result (λ operand. operand_atoms operand
            ≡ atomized (L.forest source.old) (items_at (L.forest source.old) (item_views
            items))) }
        ensures keeps { L.forest source.new ≡ L.forest source.old }
        ensures was_clean { L.is_clean source.new → L.is_clean source.old }
    {
        let mut items = items;
        if items.len() != 1 {
            return Ok(Operand::Any(into_atoms(alloc, source, items)?));
        }
        let Some(item) = items.pop() else {
            unreachable!();
        };
        Ok(Operand::One(into_atom(alloc, source, item)?))
    }
}
