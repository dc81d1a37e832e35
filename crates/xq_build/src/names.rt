//! Names of nodes.
ghost use Rattle.std.specs.Prelude.{◌≡◌, ◌∷◌, [], map, string_bytes};
ghost use Rattle.std.specs.Str.{chars};
ghost use Rattle.xq_atoms.specs.Atom.{atomic_of, String as StringView};
ghost use Rattle.xq_atoms.specs.Spaces.{trimmed as trimmed_lem};
ghost use Rattle.xq_meaning.specs.Content.{name_of as name_of_lem, judged_name, element_name, is_prefixed as is_prefixed_lem};
ghost use Rattle.xq_atoms.specs.Answers.{Gives};
ghost use Rattle.xq_build.specs.private.Judging.{JudgesText};

use crate::values::trimmed;
use std::alloc::Global;
use xq_atoms::{Atom, Code, Fault, is_name};
use xq_expressions::NamedNode;
use xq_trees::is_target;

/// Whether the text is two names with one colon between them.
fn is_prefixed(text: &str) -> bool
    ensures { result ≡ is_prefixed_lem (chars text.now) }
{
    match text.split_once(':') {
        Some((prefix, local)) => is_name(prefix) && is_name(local),
        None => false,
    }
}

/// Judges the name of an element or an attribute.
fn judge_element_name(name: &str) -> Result<(), Code>
    ensures { JudgesText (element_name name.now) name.now result }
{
    if is_name(name) {
        Ok(())
    } else if is_prefixed(name) {
        Err(Code::ProfPrefix)
    } else {
        Err(Code::XQDY0074)
    }
}

/// Judges the name of a node.
fn judge_name(node_kind: NamedNode, name: &str) -> Result<(), Code>
    ensures { JudgesText (judged_name node_kind name.now) name.now result }
{
    match node_kind {
        NamedNode::Element => judge_element_name(name),
        NamedNode::Attribute if name == "xmlns" => Err(Code::XQDY0044),
        NamedNode::Attribute => judge_element_name(name),
        NamedNode::ProcessingInstruction if !is_name(name) => Err(Code::XQDY0041),
        NamedNode::ProcessingInstruction if !is_target(name) => Err(Code::XQDY0064),
        NamedNode::ProcessingInstruction => Ok(()),
    }
}

/// The name that the text is, without the white space at its ends, as for [`name_of`] of a string.
pub fn literal_name(node_kind: NamedNode, text: &str) -> Result<&str, Fault>
    ensures { Gives (λ name. name.now) (name_of_lem node_kind (StringView text.now ∷ [])) result }
{
    let name = trimmed(text);
    judge_name(node_kind, name)?;
    Ok(name)
}

/// A copy of the name that the text is.
fn named(alloc: Global, node_kind: NamedNode, text: &str) -> Result<String, Fault>
    ensures { Gives string_bytes (judged_name node_kind (trimmed_lem text.now)) result }
{
    let name = literal_name(node_kind, text)?;
    Ok(String::from_str(alloc, name)?)
}

/// The name of an element, an attribute or a processing instruction, from the value of the
/// expression that computes it (XQuery 3.1, sections 3.9.3.1, 3.9.3.2 and 3.9.3.5): one string or
/// untyped value, without the white space at its ends. Another value is refused as `XPTY0004`.
///
/// For an element or an attribute one colon between two names is refused as `prof:PREFIX`, other
/// text that is no name as `XQDY0074`, and an attribute named `xmlns` as `XQDY0044`. For a
/// processing instruction what is no name is refused as `XQDY0041`, and `xml` in any case as
/// `XQDY0064`.
pub fn name_of(alloc: Global, node_kind: NamedNode, values: &[Atom]) -> Result<String, Fault>
    ensures { Gives string_bytes (name_of_lem node_kind (map atomic_of values.now)) result }
{
    match values {
        [Atom::Str(text)] | [Atom::Untyped(text)] => named(alloc, node_kind, text.as_str()),
        [Atom::Int(_)] | [Atom::Dec(_)] | [Atom::Bool(_)] => Err(Fault::Code(Code::XPTY0004)),
        [] => Err(Fault::Code(Code::XPTY0004)),
        [_, _, ..] => Err(Fault::Code(Code::XPTY0004)),
    }
}
