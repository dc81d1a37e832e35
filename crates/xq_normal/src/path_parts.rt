//! What follows the slashes of a path, and simple maps (XQuery 3.1, sections 3.3 and 3.19).
ghost use Rattle.std.specs.Prelude.{◌≡◌, [], ◌∷◌, ◌++◌, map, OnOk};
ghost use Rattle.xq_expressions.specs.declared.operators.Separator.TheVariants.{Slash};
ghost use Rattle.xq_meaning.specs.Forms as forms;
ghost use Rattle.xq_meaning.specs.Meaning as meaning;
ghost use Rattle.xq_meaning.specs.CoreMeaning.{core_mean};

use sqlite_items::{Boxed, Items};
use std::alloc::{AllocError, Global};
use xq_expressions::Separator;
use xq_meaning::{Core, Test};
use xq_trees::Axis;

/// Puts a step at the end, after what its separator stands for: `//` is a step of its own, to a
/// node and all below it, and the step after it counts from each of those.
pub fn push_step(
    alloc: Global,
    steps: &mut Items<Core>,
    separator: Separator,
    step: Core,
) -> Result<(), AllocError>
    ensures same { OnOk result
        (map core_mean steps.new
        ≡ map core_mean steps.old ++ meaning.after separator (core_mean step)) }
    ensures slash { OnOk result (separator ≡ Slash → steps.new ≡ steps.old ++ step ∷ []) }
{
    match separator {
        Separator::Slash => steps.push(step),
        Separator::DoubleSlash => {
            steps.push(Core::Step(Axis::DescendantOrSelf, Test::Any, Items::new(alloc)))?;
            steps.push(step)
        }
    }
}

/// What is gone through, and what is evaluated for each item of what stands before it. Its nodes
/// stay in the order in which they are found.
pub fn simple_map(first: Boxed<Core>, more: Items<Core>) -> Core
    ensures { core_mean result ≡ forms.simple_map (core_mean first) (map core_mean more) }
{
    Core::Map(first, more)
}
