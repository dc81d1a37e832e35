//! The fault of one place: a name, a variable or a call.
ghost use Rattle.xq_statics.specs.Places as place;
ghost use Rattle.xq_statics.specs.Faults.{fault_at, first_fault, arity_fault};
ghost use Rattle.xq_statics.specs.Gives.{Judges};
ghost use Rattle.std.specs.Prelude.{drop};
ghost use Rattle.xq_statics.specs.Statics.{test_places, axis_places};

use xq_atoms::{Code, Fault};
use xq_expressions::{AxisStep, Function, NodeTest, QName, Scope};

/// A name that is bound, tested, or given to a node.
pub fn name(name: &QName) -> Result<(), Fault>
    ensures { Judges result (fault_at (place.named name.now)) }
{
    match name.prefix {
        Some(_) => Err(Fault::Code(Code::ProfPrefix)),
        None => Ok(()),
    }
}

/// The variable after `at`, beside that of its `for`.
pub fn position(position: &QName, ranging: &QName) -> Result<(), Fault>
    ensures { Judges result (fault_at (place.position position.now ranging.now)) }
{
    name(position)?;
    if position.local.as_str() == ranging.local.as_str() {
        return Err(Fault::Code(Code::XQST0089));
    }
    Ok(())
}

/// A variable that is used.
pub fn variable(scope: &Scope<'_>, variable: &QName) -> Result<(), Fault>
    ensures { Judges result (fault_at (place.variable variable.now scope.now)) }
{
    name(variable)?;
    if !scope.sees(variable.local.as_str()) {
        return Err(Fault::Code(Code::XPST0008));
    }
    Ok(())
}

/// A grouping variable: its FLWOR has bound the variables from a place on.
pub fn grouping(scope: &Scope<'_>, flwor: usize, variable: &QName) -> Result<(), Fault>
    ensures { Judges result (fault_at (place.grouping variable.now (drop flwor scope.now))) }
{
    name(variable)?;
    if !scope.sees_from(flwor, variable.local.as_str()) {
        return Err(Fault::Code(Code::XQST0094));
    }
    Ok(())
}

/// A function that is found by its name takes so many arguments.
fn arity(function: Option<Function>, arguments: usize) -> Result<(), Fault>
    ensures { Judges result (arity_fault function arguments) }
{
    match function {
        Some(function) if function.arity().admits(arguments) => Ok(()),
        _ => Err(Fault::Code(Code::XPST0017)),
    }
}

/// The name of a call, with so many arguments.
pub fn call(name: &QName, arguments: usize) -> Result<(), Fault>
    ensures { Judges result (fault_at (place.call name.now arguments)) }
{
    let local = name.local.as_str();
    match name.prefix.as_ref().map(|prefix| prefix.as_str()) {
        None | Some("fn") => arity(Function::in_library(local), arguments),
        Some("xs") => match Function::of_type(local) {
            None => Err(Fault::Code(Code::ProfType)),
            function => arity(function, arguments),
        },
        _ => Err(Fault::Code(Code::ProfPrefix)),
    }
}

/// The name that a test asks for, if it does.
fn test(test: &NodeTest) -> Result<(), Fault>
    ensures { Judges result (first_fault (test_places test.now)) }
{
    match test {
        NodeTest::Named(tested)
        | NodeTest::Element(Some(tested))
        | NodeTest::Attribute(Some(tested)) => name(tested),
        _ => Ok(()),
    }
}

/// The test of an axis step.
pub fn axis(step: &AxisStep) -> Result<(), Fault>
    ensures { Judges result (first_fault (axis_places step.now)) }
{
    match step {
        AxisStep::Along(_, tested) | AxisStep::Attribute(tested) | AxisStep::Abbreviated(tested) =>
            { test(tested) }
        AxisStep::Parent => Ok(()),
    }
}
