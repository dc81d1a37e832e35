//! Tests of nodes.

use xq_expressions::Text;

/// A test of a node's kind and name, whatever the axis (XQuery 3.1, section 3.3.2.2). Where a name
/// is missing, any name passes.
#[derive(Drop)]
pub enum Test {
    Any,
    Text,
    Comment,
    Document,
    ProcessingInstruction(Option<Text>),
    Element(Option<Text>),
    Attribute(Option<Text>),
}
