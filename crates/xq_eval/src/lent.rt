//! Filter expressions that choose among the value of a variable, which they don't copy.
ghost use Rattle.std.specs.Prelude.{IfSome};
ghost use Rattle.xq_eval.specs.private.Lent.{Filters};

use xq_meaning::Plan;
use xq_trees::Item;
use xq_tuples::SlotValue;

/// The items of a variable, and the predicates that choose among them, of which there is one.
#[derive(Clone, Copy)]
pub struct FilteredVariable<'a> {
    pub items: &'a [Item],
    pub first: &'a Plan,
    pub rest: &'a [Plan],
}

/// The parts of a filter expression that chooses among the value of a variable (XQuery 3.1, section
/// 3.2.1); `None` for another one.
pub fn filtered_variable<'a>(
    slots: &'a [SlotValue],
    start: &Plan,
    predicates: &'a [Plan],
) -> Option<FilteredVariable<'a>>
    ensures { IfSome result (λ found. Filters slots.now start.now predicates.now found) }
{
    let Plan::Slot(number) = start else {
        return None;
    };
    if *number >= slots.len() {
        return None;
    }
    let (first, rest) = predicates.split_first()?;
    Some(FilteredVariable {
        items: slots[*number].items(),
        first,
        rest,
    })
}
