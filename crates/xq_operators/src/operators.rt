//! Operators between values (XQuery 3.1, sections 3.4 to 3.7).
ghost use Rattle.std.specs.Prelude.{◌≡◌, List, map, false};
ghost use Rattle.xq_trees.specs.Tree.{Tree};
ghost use Rattle.xq_trees.specs.Items.{item_view, item_views};
ghost use Rattle.xq_atoms.specs.Answers.{Gives};
ghost use Rattle.xq_functions.specs.Answers as Answers;
ghost use Rattle.xq_functions.specs.Kinds as Kinds;
ghost use Rattle.xq_meaning.specs.Operators.{operated, signed as signed_lem};
ghost use Rattle.xq_meaning.specs.Items.{atomized as atomized_lem};
ghost use Rattle.xq_meaning.specs.Readings.{items_at, AreIn};
ghost use Rattle.xq_meaning.specs.Doing.{on_trees};
ghost use Rattle.xq_operators.specs.Views.{Goes, GivesSequence};

use crate::atoms::atomized;
use crate::operands::Operand;
use std::alloc::Global;
use xq_atoms::{Code, Fault};
use xq_expressions::{ComparisonOperator, Sign};
use xq_functions::{
    compare_nodes, is_on_atoms, operate_on_atoms, select_nodes, signed, unite_nodes,
};
use xq_meaning::Operator;
use xq_sources::TreeStore;
use xq_trees::{Item, Items};

/// What an operator gives from two values.
pub fn operate<W: TreeStore>(
    alloc: Global,
    world: &mut W,
    operator: Operator,
    left: Items,
    right: Items,
) -> Result<Items, Fault>
    ensures goes { Goes (W.forest world.old) (W.forest world.new) (W.is_clean world.old)
        (W.is_clean world.new) }
    ensures gives { W.is_clean world.new → AreIn (W.forest world.old) (item_views left)
        → AreIn (W.forest world.old) (item_views right)
        → GivesSequence (on_trees
        (λ trees. operated operator trees (items_at (W.forest world.old) (item_views left))
        (items_at (W.forest world.old) (item_views right))) (W.forest world.old))
        (W.forest world.new) result }
{
    if !is_on_atoms(operator) {
        return operate_on_nodes(alloc, operator, &left, &right);
    }
    let left = Operand::of_items(alloc, world, left)?;
    let right = Operand::of_items(alloc, world, right)?;
    operate_on_atoms(alloc, operator, left.atoms(), right.atoms())
}

/// What an operator that takes nodes gives from two values.
fn operate_on_nodes(
    alloc: Global,
    operator: Operator,
    left: &[Item],
    right: &[Item],
) -> Result<Items, Fault>
    ensures { Kinds.is_on_atoms operator ≡ false → (trees : List Tree)
        → AreIn trees (map item_view left.now) → AreIn trees (map item_view right.now)
        → Gives (Answers.items_of trees) (operated operator trees
        (Answers.lent_items trees left.now) (Answers.lent_items trees right.now)) result }
{
    match operator {
        Operator::Comparison(ComparisonOperator::Node(comparison)) => {
            compare_nodes(alloc, comparison, left, right)
        }
        Operator::Union => unite_nodes(alloc, left, right),
        Operator::SetOperation(operator) => select_nodes(alloc, operator, left, right),
        _ => Err(Fault::Code(Code::XPTY0004)),
    }
}

/// Signs before a value (XQuery 3.1, section 3.5).
pub fn sign<W: TreeStore>(
    alloc: Global,
    world: &mut W,
    signs: &[Sign],
    items: &[Item],
) -> Result<Items, Fault>
    ensures goes { Goes (W.forest world.old) (W.forest world.new) (W.is_clean world.old)
        (W.is_clean world.new) }
    ensures gives { W.is_clean world.new → AreIn (W.forest world.old) (map item_view items.now)
        → GivesSequence (on_trees (λ trees. signed_lem signs.now (atomized_lem trees (items_at
        (W.forest world.old) (map item_view items.now))))
        (W.forest world.old)) (W.forest world.new) result }
{
    let atoms = atomized(alloc, world, items)?;
    signed(alloc, signs, &atoms)
}
