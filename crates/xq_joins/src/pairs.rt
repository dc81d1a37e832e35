//! Keys that a test compares: one is in the slot that is bound next.
ghost use Rattle.std.specs.Prelude.{◌≡◌, ◌<◌, IfSome};
ghost use Rattle.xq_joins.specs.private.Pairs.{IsTest};

use crate::shapes::{key_of, operands};
use xq_meaning::{Plan, PlanStep};

/// A key: the nodes to which scans lead from the nodes in a slot, by their texts.
#[derive(Clone, Copy)]
pub struct Key<'a> {
    pub slot: usize,
    pub steps: &'a [PlanStep],
}

/// The keys that a test compares: that of an item, in the slot that is bound next, and that of a
/// slot that was there before.
#[derive(Clone, Copy)]
pub struct KeyPair<'a> {
    pub item: Key<'a>,
    pub tuple: Key<'a>,
}

/// The keys of a test for equality, in either order: one is in the slot that is bound next.
pub fn keys_of(test: &Plan, next: usize) -> Option<KeyPair<'_>>
    ensures test { IfSome result (λ pair. IsTest pair test.now) }
    ensures next { IfSome result (λ pair. pair.item.slot ≡ next) }
    ensures earlier { IfSome result (λ pair. pair.tuple.slot < next) }
{
    let (first, second) = operands(test)?;
    let first = key_of(first)?;
    let second = key_of(second)?;
    if first.slot == next && second.slot < next {
        return Some(KeyPair {
            item: first,
            tuple: second,
        });
    }
    if second.slot == next && first.slot < next {
        return Some(KeyPair {
            item: second,
            tuple: first,
        });
    }
    None
}
