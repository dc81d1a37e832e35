//! A variable of a quantified expression.
ghost use Rattle.std.specs.Prelude.{◌<◌, vec_len};

use std::rc::Rc;
use xq_trees::Items;

/// A variable that has a value: what it ranges over, and the place of its value there.
#[derive(Drop)]
pub struct Variable {
    pub items: Rc<Items>,
    pub current: usize,
    ghost has_value: { current < vec_len items.value },
}
