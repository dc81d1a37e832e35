//! What a part of a plan is evaluated in.
ghost use Rattle.std.specs.Prelude.{◌≡◌, ◌<◌, ◌^◌, None};

use xq_sources::Addresses;
use xq_trees::Item;
use xq_tuples::SlotValue;

/// An item with its position, from 1, and how many there are (XQuery 3.1, section 2.1.2): no more
/// than a list can hold.
#[derive(Clone, Copy)]
pub struct Focus<'a> {
    pub item: &'a Item,
    pub position: usize,
    pub last: usize,
    pub ghost position_fits: { position < 2 ^ 63 },
    pub ghost last_fits: { last < 2 ^ 63 },
}

/// The values of the slots that are open, the focus, and the addresses of the documents, which are
/// the first trees.
#[derive(Clone, Copy)]
pub struct EvalContext<'a> {
    pub slots: &'a [SlotValue],
    pub focus: Option<Focus<'a>>,
    pub addresses: &'a Addresses,
}

impl<'a> EvalContext<'a> {
    /// That of a whole query: no focus.
    pub fn outermost(slots: &'a [SlotValue], addresses: &'a Addresses) -> EvalContext<'a>
        ensures { result
            ≡ record { slots = slots.entry; focus = None; addresses = addresses.entry } }
    {
        EvalContext {
            slots,
            focus: None,
            addresses,
        }
    }
}
