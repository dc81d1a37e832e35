//! A plan asked over trees.
ghost use Rattle.std.specs.Prelude.{◌≡◌, ◌≤◌, ◌++◌, ◌∷◌, [], IfNone, IfOk, IfSome, length, map, string_bytes, string_len};
ghost use Rattle.xq_atoms.specs.Answers.{GivesUnlessWanting};
ghost use Rattle.xq_trees.specs.Items.{item_view};
ghost use Rattle.xq_trees.specs.declared.Kind.TheVariants.{Document};
ghost use Rattle.xq_meaning.specs.Readings.{items_at, AreIn, Extends};
ghost use Rattle.xq_queries.specs.ReadBack.{HaveNumbersInRange};
ghost use Rattle.xq_queries.specs.Reads.{ReadsAndCopies, ReadsAndPrints};
ghost use Rattle.xq_queries.specs.Values.{document, if_document as if_document_lem, made_document, or_no_document, plan_value, reply_text};
ghost use Rattle.xq_meaning.specs.Print.{longest_text};
ghost use Rattle.xq_queries.specs.private.Copying.{CopiesItems};
ghost use Rattle.xq_queries.specs.private.Ranges.{IsViewInRange, AreViewsInRange};

use std::alloc::Global;
use xq_atoms::{Atom, Code, Fault, Want};
use xq_axes::copy;
use xq_build::print_items;
use xq_eval::eval;
use xq_meaning::Plan;
use xq_packed::PackedTree;
use xq_sources::{Addresses, RowLender, TreeStore};
use xq_trees::Item;

/// The text of the plan's value over the trees of `world`, which begin with the documents at
/// `addresses`: its items as expressions that give them. It is refused with the code of the plan's
/// error, or as `prof:REPLY` where the text is over 16,777,216 bytes. Where there is a text, the
/// numbers of the value are within the bounds of their types.
///
/// Where the plan is a document by its address and k scans, it reads at most k times as many rows
/// as that document has, by ranges and singly, whatever the outcome; and to print the value at most
/// the rows below each item by ranges, and that of each node singly.
///
/// `Want::Memory` where a growth was refused; `Want::Store` where the trees could not be read. What
/// was constructed stays in `world`. What is promised holds where `world` is clean as the call
/// ends.
pub fn ask<W: TreeStore>(
    alloc: Global,
    plan: &Plan,
    world: &mut W,
    addresses: &Addresses,
) -> Result<String, Fault>
    ensures gives { W.is_clean world.new → length addresses.now ≤ length (W.forest world.old)
        → GivesUnlessWanting string_bytes
        (reply_text (plan_value plan.now addresses.now (W.forest world.old))) result }
    ensures short { IfOk result (λ text. string_len text ≤ longest_text) }
    ensures in_range { W.is_clean world.new → length addresses.now ≤ length (W.forest world.old)
        → IfOk result (λ text. HaveNumbersInRange
        (plan_value plan.now addresses.now (W.forest world.old))) }
    ensures reads { W.is_clean world.new → length addresses.now ≤ length (W.forest world.old)
        → ReadsAndPrints plan.now addresses.now (W.forest world.old) (W.meter world.old)
        (W.meter world.new) }
    ensures grows { Extends (W.forest world.old) (W.forest world.new) }
    ensures was_clean { W.is_clean world.new → W.is_clean world.old }
{
    let items = eval(alloc, plan, world, addresses)?;
    are_in_range(&items);
    print_items(alloc, world, &items)
}

/// Nothing: a number is within the bounds of its type.
fn is_in_range(item: &Item)
    ensures { IsViewInRange (item_view item.now) }
{
    match item {
        Item::Atom(Atom::Int(integer)) => {
            let _integer = *integer;
        }
        Item::Atom(Atom::Dec(decimal)) => {
            let _millionths = decimal.millionths();
        }
        Item::Atom(_) | Item::Node(_) => {}
    }
}

/// Nothing: the numbers among the items are within the bounds of their types.
fn are_in_range(items: &[Item])
    ensures { AreViewsInRange (map item_view items.now) }
{
    for item in items {
        is_in_range(item);
    }
}

/// The tree of the one document node that the plan's value is, over the trees of `world`, as for
/// [`ask`]. It is refused with the code of the plan's error, or as `prof:NOTDOC` where the value is
/// anything else. Where the plan is a document by its address and k scans, it reads as [`ask`] does
/// to evaluate it, and then to copy the node each of its rows once by ranges, and its own singly. A
/// document that was constructed for it, the last of all trees, is taken from them without a copy.
pub fn make<W: TreeStore>(
    alloc: Global,
    plan: &Plan,
    world: &mut W,
    addresses: &Addresses,
) -> Result<PackedTree, Fault>
    ensures gives { W.is_clean world.new → length addresses.now ≤ length (W.forest world.old)
        → GivesUnlessWanting (λ tree. tree)
        (made_document (plan_value plan.now addresses.now (W.forest world.old))) result }
    ensures document { IfOk result (λ tree. tree.root.kind ≡ Document) }
    ensures reads { W.is_clean world.new → length addresses.now ≤ length (W.forest world.old)
        → ReadsAndCopies plan.now addresses.now (W.forest world.old) (W.meter world.old)
        (W.meter world.new) }
    ensures grows { Extends (W.forest world.old) (W.forest world.new) }
    ensures was_clean { W.is_clean world.new → W.is_clean world.old }
{
    let earlier = world.trees();
    let items = eval(alloc, plan, world, addresses)?;
    if let Some(tree) = uprooted(world, earlier, &items) {
        return if_document(tree).ok_or(Fault::Code(Code::ProfNotdoc));
    }
    match document_of(alloc, world, &items)? {
        Some(tree) => Ok(tree),
        None => Err(Fault::Code(Code::ProfNotdoc)),
    }
}

/// The last of the trees, where it was constructed since there were `earlier` of them and the items
/// are its root alone: it is taken away and needs no copy. Else None, and all stays as it is.
fn uprooted<W: TreeStore>(world: &mut W, earlier: usize, items: &[Item]) -> Option<PackedTree>
    ensures found { IfSome result (λ tree. if_document_lem tree.root.kind tree
        ≡ document (
          items_at (W.forest world.old) (map item_view items.now),
          W.forest world.old,
        )) }
    ensures taken { IfSome result (λ tree. (earlier ≤ length (W.forest world.new))
        × (W.forest world.old ≡ W.forest world.new ++ tree ∷ [])) }
    ensures kept { IfNone result (W.forest world.new ≡ W.forest world.old) }
    ensures meter { W.meter world.new ≡ W.meter world.old }
    ensures was_clean { W.is_clean world.new → W.is_clean world.old }
{
    let [Item::Node(node)] = items else {
        return None;
    };
    let last = world.trees().checked_sub(1)?;
    if node.pre != 0 || node.tree != last || last < earlier {
        return None;
    }
    world.take_last()
}

/// The tree, where its root is a document node.
fn if_document(tree: PackedTree) -> Option<PackedTree>
    ensures found { result ≡ if_document_lem tree.root.kind tree }
    ensures kind { IfSome result (λ tree. tree.root.kind ≡ Document) }
{
    if tree.is_document() { Some(tree) } else { None }
}

/// The tree of the one document node that the items are; None for others.
fn document_of<L: RowLender>(
    alloc: Global,
    source: &mut L,
    items: &[Item],
) -> Result<Option<PackedTree>, Want>
    ensures found { L.is_clean source.new → IfOk result (λ found.
        found ≡ document (
          items_at (L.forest source.old) (map item_view items.now),
          L.forest source.old,
        )) }
    ensures kind { IfOk result (λ found. IfSome found (λ tree. tree.root.kind ≡ Document)) }
    ensures reads { L.is_clean source.new → CopiesItems (L.forest source.old)
        (items_at (L.forest source.old) (map item_view items.now))
        (L.meter source.old) (L.meter source.new) }
    ensures keeps { L.forest source.new ≡ L.forest source.old }
    ensures was_clean { L.is_clean source.new → L.is_clean source.old }
{
    match items {
        [Item::Node(node)] => {
            let tree = copy(alloc, source, *node)?;
            Ok(if_document(tree))
        }
        [] | [Item::Atom(_)] | [_, _, ..] => Ok(None),
    }
}
