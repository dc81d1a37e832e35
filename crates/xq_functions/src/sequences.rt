//! Functions on sequences (F&O 3.1, sections 14.1 and 14.2), whatever their items are.
ghost use Rattle.std.specs.Prelude.{◌≡◌, List, reverse};
ghost use Rattle.xq_trees.specs.Tree.{Tree};
ghost use Rattle.xq_meaning.specs.Functions as Functions;
ghost use Rattle.xq_functions.specs.Answers.{items_of};
ghost use Rattle.xq_functions.specs.Judgements.{judged_as};

use xq_atoms::Code;
use xq_trees::Items;

/// The first item, or nothing (fn:head).
pub fn head(mut items: Items) -> Items
    ensures { (trees : List Tree) →
        items_of trees result ≡ Functions.head (items_of trees items) }
{
    items.truncate(1);
    items
}

/// All items but the first (fn:tail).
pub fn tail(mut items: Items) -> Items
    ensures { (trees : List Tree) →
        items_of trees result ≡ Functions.tail (items_of trees items) }
{
    if !items.is_empty() {
        items.remove(0);
    }
    items
}

/// The items from the last to the first (fn:reverse).
pub fn reversed(mut items: Items) -> Items
    ensures { (trees : List Tree) → items_of trees result ≡ reverse (items_of trees items) }
{
    items.reverse();
    items
}

/// At most one item (fn:zero-or-one); FORG0003 for more.
pub fn zero_or_one(items: Items) -> Result<Items, Code>
    ensures { (trees : List Tree) →
        judged_as (items_of trees) result ≡ Functions.zero_or_one (items_of trees items) }
{
    if items.len() > 1 {
        return Err(Code::FORG0003);
    }
    Ok(items)
}

/// One item or more (fn:one-or-more); FORG0004 for none.
pub fn one_or_more(items: Items) -> Result<Items, Code>
    ensures { (trees : List Tree) →
        judged_as (items_of trees) result ≡ Functions.one_or_more (items_of trees items) }
{
    if items.is_empty() {
        return Err(Code::FORG0004);
    }
    Ok(items)
}

/// One item (fn:exactly-one); FORG0005 for none and for more.
pub fn exactly_one(items: Items) -> Result<Items, Code>
    ensures { (trees : List Tree) →
        judged_as (items_of trees) result ≡ Functions.exactly_one (items_of trees items) }
{
    if items.len() != 1 {
        return Err(Code::FORG0005);
    }
    Ok(items)
}
