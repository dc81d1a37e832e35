//! Functions, axes and tests by their names.
ghost use Rattle.std.specs.Prelude.{◌≡◌, IfOk};
ghost use Rattle.xq_expressions.specs.Signatures as signatures;
ghost use Rattle.xq_meaning.specs.Meaning as meaning;
ghost use Rattle.xq_normal.specs.DocumentPaths.{written_out};
ghost use Rattle.xq_normal.specs.private.Parts.{admitted};

use std::alloc::{AllocError, Global};
use xq_expressions::{AxisName, AxisStep, Function, NodeTest, QName, Text};
use xq_meaning::Test;
use xq_trees::Axis;

/// A copy of a text.
pub fn text(alloc: Global, text: &Text) -> Result<Text, AllocError>
    ensures { IfOk result (λ copy. copy ≡ text.now) }
{
    Text::copy_of(alloc, text.as_str())
}

/// A copy of a text, where there is one.
fn optional(alloc: Global, wanted: &Option<Text>) -> Result<Option<Text>, AllocError>
    ensures { IfOk result (λ copy. copy ≡ wanted.now) }
{
    match wanted {
        Some(wanted) => Ok(Some(text(alloc, wanted)?)),
        None => Ok(None),
    }
}

/// A copy of a name without its prefix, where there is one.
pub fn local(alloc: Global, name: &Option<QName>) -> Result<Option<Text>, AllocError>
    ensures { IfOk result (λ copy. copy ≡ meaning.local_name name.now) }
{
    match name {
        Some(name) => Ok(Some(text(alloc, &name.local)?)),
        None => Ok(None),
    }
}

/// The function that a call names, if there is one.
pub fn function(name: &QName) -> Option<Function>
    ensures { result ≡ signatures.function_named name.now.prefix name.now.local }
{
    let local = name.local.as_str();
    match name.prefix.as_ref().map(|prefix| prefix.as_str()) {
        None | Some("fn") => Function::in_library(local),
        Some("xs") => Function::of_type(local),
        _ => None,
    }
}

/// The function that a call of so many arguments names, if there is one.
pub fn called(name: &QName, arguments: usize) -> Option<Function>
    ensures { result
        ≡ admitted (signatures.function_named name.now.prefix name.now.local) arguments }
{
    match function(name) {
        Some(function) if function.arity().admits(arguments) => Some(function),
        _ => None,
    }
}

/// The axis of that name.
fn axis(name: AxisName) -> Axis
    ensures { result ≡ meaning.axis_of name }
{
    match name {
        AxisName::Child => Axis::Child,
        AxisName::Descendant => Axis::Descendant,
        AxisName::DescendantOrSelf => Axis::DescendantOrSelf,
        AxisName::SelfNode => Axis::SelfNode,
        AxisName::Attribute => Axis::Attributes,
        AxisName::Parent => Axis::Parent,
        AxisName::Ancestor => Axis::Ancestor,
        AxisName::AncestorOrSelf => Axis::AncestorOrSelf,
        AxisName::Following => Axis::Following,
        AxisName::FollowingSibling => Axis::FollowingSibling,
        AxisName::Preceding => Axis::Preceding,
        AxisName::PrecedingSibling => Axis::PrecedingSibling,
    }
}

/// The axis of a test that stands alone.
fn default_axis(test: &NodeTest) -> Axis
    ensures { result ≡ meaning.default_axis test.now }
{
    match test {
        NodeTest::Attribute(_) => Axis::Attributes,
        _ => Axis::Child,
    }
}

/// A test of a name, or of any, on an axis: on the attribute axis it tests attributes.
fn principal(axis: Axis, wanted: Option<Text>) -> Test
    ensures { result ≡ meaning.of_principal axis wanted }
{
    match axis {
        Axis::Attributes => Test::Attribute(wanted),
        _ => Test::Element(wanted),
    }
}

/// A test on an axis.
fn test(alloc: Global, axis: Axis, test: &NodeTest) -> Result<Test, AllocError>
    ensures { IfOk result (λ found. found ≡ meaning.test_on axis test.now) }
{
    match test {
        NodeTest::Named(name) => Ok(principal(axis, Some(text(alloc, &name.local)?))),
        NodeTest::AnyName => Ok(principal(axis, None)),
        NodeTest::Node => Ok(Test::Any),
        NodeTest::Text => Ok(Test::Text),
        NodeTest::Comment => Ok(Test::Comment),
        NodeTest::Document => Ok(Test::Document),
        NodeTest::ProcessingInstruction(wanted) => {
            Ok(Test::ProcessingInstruction(optional(alloc, wanted)?))
        }
        NodeTest::Element(wanted) => Ok(Test::Element(local(alloc, wanted)?)),
        NodeTest::Attribute(wanted) => Ok(Test::Attribute(local(alloc, wanted)?)),
    }
}

/// An axis and a test on it.
fn on_axis(alloc: Global, axis: Axis, tested: &NodeTest) -> Result<(Axis, Test), AllocError>
    ensures { IfOk result (λ found. found ≡ (axis, meaning.test_on axis tested.now)) }
{
    Ok((axis, test(alloc, axis, tested)?))
}

/// The axis and the test of a step, whose abbreviations are written out.
pub fn axis_step(alloc: Global, step: &AxisStep) -> Result<(Axis, Test), AllocError>
    ensures { IfOk result (λ found. found ≡ written_out step.now) }
{
    match step {
        AxisStep::Along(name, tested) => on_axis(alloc, axis(*name), tested),
        AxisStep::Attribute(tested) => on_axis(alloc, Axis::Attributes, tested),
        AxisStep::Parent => Ok((Axis::Parent, Test::Any)),
        AxisStep::Abbreviated(tested) => on_axis(alloc, default_axis(tested), tested),
    }
}
