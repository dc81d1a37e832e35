//! The slots that a variable or a clause opens.
ghost use Rattle.std.specs.Prelude.{◌≡◌, ◌≤◌, ◌++◌, OnOk, length};
ghost use Rattle.xq_optimise.specs.private.Parts as parts;

use crate::held::Held;
use std::alloc::AllocError;

/// Makes known what the slot of a variable holds, and that of its position, where it has one.
pub fn bind(known: &mut Vec<Held>, held: Held, at: bool) -> Result<(), AllocError>
    ensures { OnOk result (known.new.items ≡ known.old.items ++ parts.with_position held at) }
{
    known.push(held)?;
    if at {
        known.push(Held::Anything)?;
    }
    Ok(())
}

/// Nothing is known any more of the slots from a place on.
pub fn forget(known: &mut Vec<Held>, outer: usize) -> Result<(), AllocError>
    requires { outer ≤ length known.old.items }
    ensures { OnOk result (known.new.items ≡ parts.forgotten outer known.old.items) }
{
    let count = known.len();
    known.truncate(outer);
    known.resize(count, Held::Anything)
}
