//! Words and symbols, and what they stand for.
#![tactic(auto, unfolding(crate::specs::Look::lookup, crate::specs::Look::same, crate::specs::Look::same_symbol))]

ghost use Rattle.std.specs.Prelude.{◌≡◌};
ghost use Rattle.xq_lexer.specs.Lexeme.{lexemes, lex_of, name as name_lex};
ghost use Rattle.xq_parser.specs.Look as look;
ghost use Rattle.xq_parser.specs.Grammar as g;
ghost use Rattle.xq_parser.specs.private.Reading as spec;
ghost use Rattle.xq_parser.specs.private.Parses.{Parses};

use xq_atoms::{Code, Fault};
use xq_expressions::{
    AllowingEmpty, AxisName, ComparisonOperator, Direction, EmptyOrder, NamedNode, NodeComparison,
    NodeTest, ProductOperator, Quantifier, Relation, Separator, SetOperator, Sign, UnnamedNode,
};
use xq_lexer::{Symbol, Token};

/// What a table of the grammar gives a token.
pub(crate) trait Listed: Sized {
    ghost table: { look.Table Self };

    /// What the token stands for.
    fn of(token: &Token) -> Option<Self>
        ensures { result ≡ look.lookup table (lex_of token.now) };
}

/// What the next token stands for, and the tokens after it.
#[tactic(auto, unfolding(crate::specs::private::Reading::one_of))]
pub(crate) fn one_of<T: Listed>(tokens: &[Token]) -> Result<(T, &[Token]), Fault>
    ensures { Parses result (spec.one_of T.table (lexemes tokens.now)) }
{
    match tokens {
        [first, rest @ ..] => match T::of(first) {
            Some(found) => Ok((found, rest)),
            None => Err(Fault::Code(Code::XPST0003)),
        },
        [] => Err(Fault::Code(Code::XPST0003)),
    }
}

/// Whether the next token stands for something.
#[tactic(auto, unfolding(crate::specs::private::Reading::begins))]
pub(crate) fn begins<T: Listed + Drop>(tokens: &[Token]) -> bool
    ensures { result ≡ spec.begins T.table (lexemes tokens.now) }
{
    match tokens {
        [first, ..] => T::of(first).is_some(),
        [] => false,
    }
}

impl Listed for Sign {
    ghost table = { g.signs };

    fn of(token: &Token) -> Option<Sign> {
        match token {
            Token::Sym(Symbol::Plus) => Some(Sign::Plus),
            Token::Sym(Symbol::Minus) => Some(Sign::Minus),
            _ => None,
        }
    }
}

/// The operator of a product, as a word.
fn product_operator_word(word: &str) -> Option<ProductOperator>
    ensures { result ≡ look.lookup g.product_operators (name_lex word.now) }
{
    match word {
        "div" => Some(ProductOperator::Div),
        "idiv" => Some(ProductOperator::Idiv),
        "mod" => Some(ProductOperator::Mod),
        _ => None,
    }
}

impl Listed for ProductOperator {
    ghost table = { g.product_operators };

    fn of(token: &Token) -> Option<ProductOperator> {
        match token {
            Token::Sym(Symbol::Star) => Some(ProductOperator::Times),
            Token::Name(word) => product_operator_word(word.as_str()),
            _ => None,
        }
    }
}

/// `intersect` or `except`, as a word.
fn set_operator_word(word: &str) -> Option<SetOperator>
    ensures { result ≡ look.lookup g.set_operators (name_lex word.now) }
{
    match word {
        "intersect" => Some(SetOperator::Intersect),
        "except" => Some(SetOperator::Except),
        _ => None,
    }
}

impl Listed for SetOperator {
    ghost table = { g.set_operators };

    fn of(token: &Token) -> Option<SetOperator> {
        match token {
            Token::Name(word) => set_operator_word(word.as_str()),
            _ => None,
        }
    }
}

impl Listed for Separator {
    ghost table = { g.separators };

    fn of(token: &Token) -> Option<Separator> {
        match token {
            Token::Sym(Symbol::Slash) => Some(Separator::Slash),
            Token::Sym(Symbol::DoubleSlash) => Some(Separator::DoubleSlash),
            _ => None,
        }
    }
}

/// The operator of a comparison, as a word.
fn comparison_word(word: &str) -> Option<ComparisonOperator>
    ensures { result ≡ look.lookup g.comparisons (name_lex word.now) }
{
    match word {
        "eq" => Some(ComparisonOperator::Value(Relation::Equal)),
        "ne" => Some(ComparisonOperator::Value(Relation::NotEqual)),
        "lt" => Some(ComparisonOperator::Value(Relation::Less)),
        "le" => Some(ComparisonOperator::Value(Relation::LessEqual)),
        "gt" => Some(ComparisonOperator::Value(Relation::Greater)),
        "ge" => Some(ComparisonOperator::Value(Relation::GreaterEqual)),
        "is" => Some(ComparisonOperator::Node(NodeComparison::Is)),
        _ => None,
    }
}

impl Listed for ComparisonOperator {
    ghost table = { g.comparisons };

    fn of(token: &Token) -> Option<ComparisonOperator> {
        match token {
            Token::Sym(Symbol::Equal) => Some(ComparisonOperator::General(Relation::Equal)),
            Token::Sym(Symbol::NotEqual) => Some(ComparisonOperator::General(Relation::NotEqual)),
            Token::Sym(Symbol::Less) => Some(ComparisonOperator::General(Relation::Less)),
            Token::Sym(Symbol::LessEqual) => Some(ComparisonOperator::General(Relation::LessEqual)),
            Token::Sym(Symbol::Greater) => Some(ComparisonOperator::General(Relation::Greater)),
            Token::Sym(Symbol::GreaterEqual) => Some(ComparisonOperator::General(
                Relation::GreaterEqual,
            )),
            Token::Sym(Symbol::Precedes) => Some(ComparisonOperator::Node(
                NodeComparison::Precedes,
            )),
            Token::Sym(Symbol::Follows) => Some(ComparisonOperator::Node(NodeComparison::Follows)),
            Token::Name(word) => comparison_word(word.as_str()),
            _ => None,
        }
    }
}

/// `some` or `every`, as a word.
pub(crate) fn quantifier_word(word: &str) -> Option<Quantifier>
    ensures { result ≡ look.lookup g.quantifiers (name_lex word.now) }
{
    match word {
        "some" => Some(Quantifier::Some),
        "every" => Some(Quantifier::Every),
        _ => None,
    }
}

impl Listed for Quantifier {
    ghost table = { g.quantifiers };

    fn of(token: &Token) -> Option<Quantifier> {
        match token {
            Token::Name(word) => quantifier_word(word.as_str()),
            _ => None,
        }
    }
}

/// `ascending` or `descending`, as a word.
fn direction_word(word: &str) -> Option<Direction>
    ensures { result ≡ look.lookup g.directions (name_lex word.now) }
{
    match word {
        "ascending" => Some(Direction::Ascending),
        "descending" => Some(Direction::Descending),
        _ => None,
    }
}

impl Listed for Direction {
    ghost table = { g.directions };

    fn of(token: &Token) -> Option<Direction> {
        match token {
            Token::Name(word) => direction_word(word.as_str()),
            _ => None,
        }
    }
}

/// `greatest` or `least`, as a word.
fn empty_order_word(word: &str) -> Option<EmptyOrder>
    ensures { result ≡ look.lookup g.empty_orders (name_lex word.now) }
{
    match word {
        "greatest" => Some(EmptyOrder::Greatest),
        "least" => Some(EmptyOrder::Least),
        _ => None,
    }
}

impl Listed for EmptyOrder {
    ghost table = { g.empty_orders };

    fn of(token: &Token) -> Option<EmptyOrder> {
        match token {
            Token::Name(word) => empty_order_word(word.as_str()),
            _ => None,
        }
    }
}

/// `empty` after `allowing`, as a word.
fn allowance_word(word: &str) -> Option<AllowingEmpty>
    ensures { result ≡ look.lookup spec.allowances (name_lex word.now) }
{
    match word {
        "empty" => Some(AllowingEmpty::Yes),
        _ => None,
    }
}

impl Listed for AllowingEmpty {
    ghost table = { spec.allowances };

    fn of(token: &Token) -> Option<AllowingEmpty> {
        match token {
            Token::Name(word) => allowance_word(word.as_str()),
            _ => None,
        }
    }
}

/// The name of an axis, as a word.
fn axis_name_word(word: &str) -> Option<AxisName>
    ensures { result ≡ look.lookup g.axis_names (name_lex word.now) }
{
    match word {
        "child" => Some(AxisName::Child),
        "descendant" => Some(AxisName::Descendant),
        "descendant-or-self" => Some(AxisName::DescendantOrSelf),
        "self" => Some(AxisName::SelfNode),
        "attribute" => Some(AxisName::Attribute),
        "parent" => Some(AxisName::Parent),
        "ancestor" => Some(AxisName::Ancestor),
        "ancestor-or-self" => Some(AxisName::AncestorOrSelf),
        "following" => Some(AxisName::Following),
        "following-sibling" => Some(AxisName::FollowingSibling),
        "preceding" => Some(AxisName::Preceding),
        "preceding-sibling" => Some(AxisName::PrecedingSibling),
        _ => None,
    }
}

impl Listed for AxisName {
    ghost table = { g.axis_names };

    fn of(token: &Token) -> Option<AxisName> {
        match token {
            Token::Name(word) => axis_name_word(word.as_str()),
            _ => None,
        }
    }
}

/// The word of a kind test without an argument, as a word.
fn plain_kind_word(word: &str) -> Option<NodeTest>
    ensures { result ≡ look.lookup g.plain_kinds (name_lex word.now) }
{
    match word {
        "node" => Some(NodeTest::Node),
        "text" => Some(NodeTest::Text),
        "comment" => Some(NodeTest::Comment),
        "document-node" => Some(NodeTest::Document),
        _ => None,
    }
}

impl Listed for NodeTest {
    ghost table = { g.plain_kinds };

    fn of(token: &Token) -> Option<NodeTest> {
        match token {
            Token::Name(word) => plain_kind_word(word.as_str()),
            _ => None,
        }
    }
}

/// The word of a constructor with a name, as a word.
pub(crate) fn named_node_word(word: &str) -> Option<NamedNode>
    ensures { result ≡ look.lookup g.named_nodes (name_lex word.now) }
{
    match word {
        "element" => Some(NamedNode::Element),
        "attribute" => Some(NamedNode::Attribute),
        _ => None,
    }
}

impl Listed for NamedNode {
    ghost table = { g.named_nodes };

    fn of(token: &Token) -> Option<NamedNode> {
        match token {
            Token::Name(word) => named_node_word(word.as_str()),
            _ => None,
        }
    }
}

/// The word of a constructor without a name, as a word.
fn unnamed_node_word(word: &str) -> Option<UnnamedNode>
    ensures { result ≡ look.lookup g.unnamed_nodes (name_lex word.now) }
{
    match word {
        "document" => Some(UnnamedNode::Document),
        "text" => Some(UnnamedNode::Text),
        "comment" => Some(UnnamedNode::Comment),
        _ => None,
    }
}

impl Listed for UnnamedNode {
    ghost table = { g.unnamed_nodes };

    fn of(token: &Token) -> Option<UnnamedNode> {
        match token {
            Token::Name(word) => unnamed_node_word(word.as_str()),
            _ => None,
        }
    }
}

/// Whether no call has the name without a prefix.
pub(crate) fn is_reserved_name(word: &str) -> bool
    ensures { result ≡ spec.found (look.lookup g.no_calls (name_lex word.now)) }
{
    matches!(
        word,
        "array"
            | "attribute"
            | "comment"
            | "document-node"
            | "element"
            | "empty-sequence"
            | "function"
            | "if"
            | "item"
            | "map"
            | "namespace-node"
            | "node"
            | "processing-instruction"
            | "schema-attribute"
            | "schema-element"
            | "switch"
            | "text"
            | "typeswitch"
    )
}

/// Whether the word is that of a constructor.
pub(crate) fn is_constructor_word(word: &str) -> bool
    ensures { result ≡ spec.found (look.lookup spec.makers (name_lex word.now)) }
{
    matches!(
        word,
        "element" | "attribute" | "processing-instruction" | "document" | "text" | "comment"
    )
}

/// Whether the word is that of a constructor which a name may follow.
pub(crate) fn is_named_constructor_word(word: &str) -> bool
    ensures { result ≡ spec.found (look.lookup spec.name_makers (name_lex word.now)) }
{
    matches!(word, "element" | "attribute" | "processing-instruction")
}

/// Whether the word begins a clause.
fn clause_word(word: &str) -> bool
    ensures { result ≡ spec.found (look.lookup spec.clause_words (name_lex word.now)) }
{
    matches!(
        word,
        "for" | "let" | "where" | "group" | "count" | "order" | "stable"
    )
}

/// Whether the next token begins a clause.
#[tactic(auto, unfolding(crate::specs::private::Reading::begins, crate::specs::Look::lookup, crate::specs::Look::same))]
pub(crate) fn begins_clause(tokens: &[Token]) -> bool
    ensures { result ≡ spec.begins spec.clause_words (lexemes tokens.now) }
{
    match tokens {
        [Token::Name(word), ..] => clause_word(word.as_str()),
        _ => false,
    }
}
