//! Node tests and axis steps.
ghost use Rattle.std.specs.Prelude.{codes, [], ◌∷◌};
ghost use Rattle.xq_lexer.specs.Lexeme.{lexemes, name as name_lex, symbol as symbol_lex};
ghost use Rattle.xq_lexer.specs.declared.tokens.Symbol.TheVariants as s;
ghost use Rattle.xq_expressions.specs.declared.operators.NodeTest.TheVariants as test;
ghost use Rattle.xq_expressions.specs.declared.operators.AxisStep.TheVariants as along;
ghost use Rattle.xq_parser.specs.private.Reading as spec;
ghost use Rattle.xq_parser.specs.private.Parses.{Parses};

use crate::lookahead::{
    begins_axis, begins_name, begins_name_test, begins_nc, expect_symbol, expect_word, is_symbol,
    is_word, ncname, qname,
};
use crate::words::{begins, one_of};
use std::alloc::Global;
use xq_atoms::{Code, Fault};
use xq_expressions::{AxisName, AxisStep, NodeTest, QName, Text};
use xq_lexer::{Symbol, Token};

/// A name, `*` or nothing.
#[tactic(auto, unfolding(crate::specs::private::Reading::name_or_any, crate::specs::private::Reading::begins, crate::specs::private::Reading::one_of, crate::specs::Look::lookup, crate::specs::Look::same, crate::specs::Look::same_symbol))]
fn name_or_any(alloc: Global, tokens: &[Token]) -> Result<(Option<QName>, &[Token]), Fault>
    ensures { Parses result (spec.name_or_any (lexemes tokens.now)) }
{
    if begins_name(tokens) {
        let (name, rest) = qname(alloc, tokens)?;
        return Ok((Some(name), rest));
    }
    match tokens {
        [Token::Sym(Symbol::Star), rest @ ..] => Ok((None, rest)),
        _ => Ok((None, tokens)),
    }
}

/// A kind test that takes no argument.
#[tactic(auto, unfolding(crate::specs::private::Reading::plain_kind))]
fn plain_kind(tokens: &[Token]) -> Result<(NodeTest, &[Token]), Fault>
    ensures { Parses result (spec.plain_kind (lexemes tokens.now)) }
{
    let (test, rest) = one_of::<NodeTest>(tokens)?;
    let rest = expect_symbol(Symbol::OpenParenthesis, rest)?;
    let rest = expect_symbol(Symbol::CloseParenthesis, rest)?;
    Ok((test, rest))
}

/// A name or nothing.
#[tactic(auto, unfolding(crate::specs::private::Reading::one_of))]
fn instruction_name(alloc: Global, tokens: &[Token]) -> Result<(Option<Text>, &[Token]), Fault>
    ensures { Parses result (spec.maybe spec.begins_nc spec.nc (lexemes tokens.now)) }
{
    if begins_nc(tokens) {
        let (name, rest) = ncname(alloc, tokens)?;
        Ok((Some(name), rest))
    } else {
        Ok((None, tokens))
    }
}

/// The name of a processing instruction or none, in parentheses.
fn instruction_argument(alloc: Global, tokens: &[Token]) -> Result<(Option<Text>, &[Token]), Fault>
    ensures { Parses result
        (spec.after (symbol_lex s.OpenParenthesis)
        (spec.before (spec.maybe spec.begins_nc spec.nc) (symbol_lex s.CloseParenthesis))
        (lexemes tokens.now)) }
{
    let rest = expect_symbol(Symbol::OpenParenthesis, tokens)?;
    let (name, rest) = instruction_name(alloc, rest)?;
    let rest = expect_symbol(Symbol::CloseParenthesis, rest)?;
    Ok((name, rest))
}

/// The kind test of a processing instruction.
#[tactic(auto, unfolding(crate::specs::private::Reading::instruction_kind))]
fn instruction_kind(alloc: Global, tokens: &[Token]) -> Result<(NodeTest, &[Token]), Fault>
    ensures { Parses result (spec.instruction_kind (lexemes tokens.now)) }
{
    let rest = expect_word("processing-instruction", tokens)?;
    let (name, rest) = instruction_argument(alloc, rest)?;
    Ok((NodeTest::ProcessingInstruction(name), rest))
}

/// A name, `*` or nothing, in parentheses.
#[tactic(auto, unfolding(crate::specs::private::Reading::kind_argument))]
fn kind_argument(alloc: Global, tokens: &[Token]) -> Result<(Option<QName>, &[Token]), Fault>
    ensures { Parses result (spec.kind_argument (lexemes tokens.now)) }
{
    let rest = expect_symbol(Symbol::OpenParenthesis, tokens)?;
    let (name, rest) = name_or_any(alloc, rest)?;
    let rest = expect_symbol(Symbol::CloseParenthesis, rest)?;
    Ok((name, rest))
}

/// The kind test of an element.
#[tactic(auto, unfolding(crate::specs::private::Reading::element_kind))]
fn element_kind(alloc: Global, tokens: &[Token]) -> Result<(NodeTest, &[Token]), Fault>
    ensures { Parses result (spec.element_kind (lexemes tokens.now)) }
{
    let rest = expect_word("element", tokens)?;
    let (name, rest) = kind_argument(alloc, rest)?;
    Ok((NodeTest::Element(name), rest))
}

/// The kind test of an attribute.
#[tactic(auto, unfolding(crate::specs::private::Reading::attribute_kind))]
fn attribute_kind(alloc: Global, tokens: &[Token]) -> Result<(NodeTest, &[Token]), Fault>
    ensures { Parses result (spec.attribute_kind (lexemes tokens.now)) }
{
    let rest = expect_word("attribute", tokens)?;
    let (name, rest) = kind_argument(alloc, rest)?;
    Ok((NodeTest::Attribute(name), rest))
}

/// The kind test of an element or an attribute.
fn named_kind(alloc: Global, tokens: &[Token]) -> Result<(NodeTest, &[Token]), Fault>
    ensures { Parses result
        (spec.choose (spec.is (name_lex (codes "element"))) spec.element_kind spec.attribute_kind
        (lexemes tokens.now)) }
{
    if is_word("element", tokens) {
        element_kind(alloc, tokens)
    } else {
        attribute_kind(alloc, tokens)
    }
}

/// A kind test.
#[tactic(auto, unfolding(crate::specs::private::Reading::kind_test))]
fn kind_test(alloc: Global, tokens: &[Token]) -> Result<(NodeTest, &[Token]), Fault>
    ensures { Parses result (spec.kind_test (lexemes tokens.now)) }
{
    if begins::<NodeTest>(tokens) {
        plain_kind(tokens)
    } else if is_word("processing-instruction", tokens) {
        instruction_kind(alloc, tokens)
    } else {
        named_kind(alloc, tokens)
    }
}

/// `*`, the test that any name passes.
#[tactic(auto, unfolding(crate::specs::private::Reading::one_of, crate::specs::Look::lookup, crate::specs::Look::same, crate::specs::Look::same_symbol))]
fn any_name(tokens: &[Token]) -> Result<(NodeTest, &[Token]), Fault>
    ensures { Parses result
        (spec.one_of ((symbol_lex s.Star, test.AnyName) ∷ []) (lexemes tokens.now)) }
{
    match tokens {
        [Token::Sym(Symbol::Star), rest @ ..] => Ok((NodeTest::AnyName, rest)),
        _ => Err(Fault::Code(Code::XPST0003)),
    }
}

/// A node test.
#[tactic(auto, unfolding(crate::specs::private::Reading::node_test))]
fn node_test(alloc: Global, tokens: &[Token]) -> Result<(NodeTest, &[Token]), Fault>
    ensures { Parses result (spec.node_test (lexemes tokens.now)) }
{
    if begins_name_test(tokens) {
        let (name, rest) = qname(alloc, tokens)?;
        Ok((NodeTest::Named(name), rest))
    } else if is_symbol(Symbol::Star, tokens) {
        any_name(tokens)
    } else {
        kind_test(alloc, tokens)
    }
}

/// The name of an axis, `::` and a test.
#[tactic(auto, unfolding(crate::specs::private::Reading::along_axis))]
fn along_axis(alloc: Global, tokens: &[Token]) -> Result<(AxisStep, &[Token]), Fault>
    ensures { Parses result (spec.along_axis (lexemes tokens.now)) }
{
    let (axis, rest) = one_of::<AxisName>(tokens)?;
    let rest = expect_symbol(Symbol::DoubleColon, rest)?;
    let (test, rest) = node_test(alloc, rest)?;
    Ok((AxisStep::Along(axis, test), rest))
}

/// `@` and a test.
#[tactic(auto, unfolding(crate::specs::private::Reading::along_attributes))]
fn along_attributes(alloc: Global, tokens: &[Token]) -> Result<(AxisStep, &[Token]), Fault>
    ensures { Parses result (spec.along_attributes (lexemes tokens.now)) }
{
    let rest = expect_symbol(Symbol::At, tokens)?;
    let (test, rest) = node_test(alloc, rest)?;
    Ok((AxisStep::Attribute(test), rest))
}

/// `..`
#[tactic(auto, unfolding(crate::specs::private::Reading::one_of, crate::specs::Look::lookup, crate::specs::Look::same, crate::specs::Look::same_symbol))]
fn parent(tokens: &[Token]) -> Result<(AxisStep, &[Token]), Fault>
    ensures { Parses result
        (spec.one_of ((symbol_lex s.DoubleDot, along.Parent) ∷ []) (lexemes tokens.now)) }
{
    match tokens {
        [Token::Sym(Symbol::DoubleDot), rest @ ..] => Ok((AxisStep::Parent, rest)),
        _ => Err(Fault::Code(Code::XPST0003)),
    }
}

/// An axis step without its predicates.
#[tactic(auto, unfolding(crate::specs::private::Reading::axis_step))]
pub(crate) fn axis_step(alloc: Global, tokens: &[Token]) -> Result<(AxisStep, &[Token]), Fault>
    ensures { Parses result (spec.axis_step (lexemes tokens.now)) }
{
    if begins_axis(tokens) {
        along_axis(alloc, tokens)
    } else if is_symbol(Symbol::At, tokens) {
        along_attributes(alloc, tokens)
    } else if is_symbol(Symbol::DoubleDot, tokens) {
        parent(tokens)
    } else {
        let (test, rest) = node_test(alloc, tokens)?;
        Ok((AxisStep::Abbreviated(test), rest))
    }
}
