//! Lists that are gone through by handing their items on.
ghost use Rattle.std.specs.Prelude.{◌≡◌, ◌++◌, ◌∷◌, [], IfOk, reverse};

use sqlite_items::Items;
use std::alloc::{AllocError, Global};

/// The items of a list, the last first, so that the first is taken off at no cost.
pub fn reversed<T: Drop>(alloc: Global, list: Items<T>) -> Result<Vec<T>, AllocError>
    ensures { IfOk result (λ found. found.items ≡ reverse list) }
{
    let mut left = list;
    let mut found = Vec::with_capacity(alloc, left.len())?;
    while let Some(item) = left.pop() {
        found.push(item)?;
    }
    Ok(found)
}

/// The items that are left, the last first, and one that comes before them.
pub fn with_next<T: Drop>(left: Vec<T>, next: T) -> Result<Vec<T>, AllocError>
    ensures { IfOk result (λ after. after.items ≡ left.items ++ next ∷ []) }
{
    let mut after = left;
    after.push(next)?;
    Ok(after)
}
