//! Conditions, quantified expressions and FLWOR expressions (XQuery 3.1, sections 3.12 to 3.16).
ghost use Rattle.xq_lexer.specs.Lexeme.{lexemes, symbol as symbol_lex};
ghost use Rattle.xq_lexer.specs.declared.tokens.Symbol.TheVariants as s;
ghost use Rattle.xq_parser.specs.private.Reading as spec;
ghost use Rattle.xq_parser.specs.private.Parses.{Nests, Parses};

use crate::lists::{Phrase, Repeated, commas, many};
use crate::lookahead::{expect_symbol, expect_word, is_symbol, is_word, position, variable};
use crate::primaries::Grammar;
use crate::values::{conditional, flwor, quantified};
use crate::words::{begins, begins_clause, one_of};
use sqlite_items::Boxed;
use std::alloc::Global;
use xq_atoms::Fault;
use xq_expressions::{
    AllowingEmpty, Clause, Direction, EmptyOrder, Expr, GroupSpec, OrderModifier, QName, Quantifier,
};
use xq_lexer::{Symbol, Token};

#[tactic(auto, unfolding(crate::specs::private::Reading::direction_word))]
fn direction_word(tokens: &[Token]) -> Result<(Direction, &[Token]), Fault>
    ensures { Parses result (spec.direction_word (lexemes tokens.now)) }
{
    if begins::<Direction>(tokens) {
        one_of::<Direction>(tokens)
    } else {
        Ok((Direction::Ascending, tokens))
    }
}

#[tactic(auto, unfolding(crate::specs::private::Reading::empty_words))]
fn empty_words(tokens: &[Token]) -> Result<(EmptyOrder, &[Token]), Fault>
    ensures { Parses result (spec.empty_words (lexemes tokens.now)) }
{
    if is_word("empty", tokens) {
        let rest = expect_word("empty", tokens)?;
        one_of::<EmptyOrder>(rest)
    } else {
        Ok((EmptyOrder::Least, tokens))
    }
}

#[tactic(auto, unfolding(crate::specs::private::Reading::allowing_words))]
fn allowing_words(tokens: &[Token]) -> Result<(AllowingEmpty, &[Token]), Fault>
    ensures { Parses result (spec.allowing_words (lexemes tokens.now)) }
{
    if is_word("allowing", tokens) {
        let rest = expect_word("allowing", tokens)?;
        one_of::<AllowingEmpty>(rest)
    } else {
        Ok((AllowingEmpty::No, tokens))
    }
}

impl<'a, F: Fn(Global, usize, &'a [Token]) -> Result<(Boxed<Expr>, &'a [Token]), Fault>> Grammar<
    F,
> {
    #[tactic(auto, unfolding(crate::specs::private::Reading::tested))]
    fn tested(&self, tokens: &'a [Token]) -> Result<(Boxed<Expr>, &'a [Token]), Fault>
        requires { Nests self.now.depth (F.pre self.now.single) (F.post self.now.single) }
        ensures { Parses result (spec.tested (spec.single self.now.depth) (lexemes tokens.now)) }
    {
        let rest = expect_symbol(Symbol::OpenParenthesis, tokens)?;
        let (test, rest) = self.whole(rest)?;
        let rest = expect_symbol(Symbol::CloseParenthesis, rest)?;
        Ok((test, rest))
    }

    #[tactic(auto, unfolding(crate::specs::private::Reading::branches))]
    fn branches(
        &self,
        tokens: &'a [Token],
    ) -> Result<((Boxed<Expr>, Boxed<Expr>), &'a [Token]), Fault>
        requires { Nests self.now.depth (F.pre self.now.single) (F.post self.now.single) }
        ensures { Parses result (spec.branches (spec.single self.now.depth) (lexemes tokens.now)) }
    {
        let rest = expect_word("then", tokens)?;
        let (yes, rest) = self.single(rest)?;
        let (no, rest) = self.after_word("else", rest)?;
        Ok(((yes, no), rest))
    }

    /// A conditional expression.
    #[tactic(auto, unfolding(crate::specs::private::Reading::conditional))]
    pub(crate) fn conditional(
        &self,
        tokens: &'a [Token],
    ) -> Result<(Boxed<Expr>, &'a [Token]), Fault>
        requires { Nests self.now.depth (F.pre self.now.single) (F.post self.now.single) }
        ensures { Parses result
            (spec.conditional (spec.single self.now.depth) (lexemes tokens.now)) }
    {
        let rest = expect_word("if", tokens)?;
        let (test, rest) = self.tested(rest)?;
        let ((yes, no), rest) = self.branches(rest)?;
        Ok((conditional(self.alloc, test, yes, no)?, rest))
    }

    /// A quantified expression.
    #[tactic(auto, unfolding(crate::specs::private::Reading::quantified))]
    pub(crate) fn quantified(
        &self,
        tokens: &'a [Token],
    ) -> Result<(Boxed<Expr>, &'a [Token]), Fault>
        requires { Nests self.now.depth (F.pre self.now.single) (F.post self.now.single) }
        ensures { Parses result
            (spec.quantified (spec.single self.now.depth) (lexemes tokens.now)) }
    {
        let (quantifier, rest) = one_of::<Quantifier>(tokens)?;
        let (bindings, rest) = commas(self.alloc, &QuantifierBinding(self), rest)?;
        let (condition, rest) = self.after_word("satisfies", rest)?;
        Ok((
            quantified(self.alloc, quantifier, bindings, condition)?,
            rest,
        ))
    }

    #[tactic(auto, unfolding(crate::specs::private::Reading::order_by))]
    fn order_by(&self, tokens: &'a [Token]) -> Result<(Clause, &'a [Token]), Fault>
        requires { Nests self.now.depth (F.pre self.now.single) (F.post self.now.single) }
        ensures { Parses result (spec.order_by (spec.single self.now.depth) (lexemes tokens.now)) }
    {
        let rest = expect_word("order", tokens)?;
        let rest = expect_word("by", rest)?;
        let (keys, rest) = commas(self.alloc, &OrderKey(self), rest)?;
        Ok((Clause::Order(keys), rest))
    }

    #[tactic(auto, unfolding(crate::specs::private::Reading::order_clause))]
    fn order_clause(&self, tokens: &'a [Token]) -> Result<(Clause, &'a [Token]), Fault>
        requires { Nests self.now.depth (F.pre self.now.single) (F.post self.now.single) }
        ensures { Parses result
            (spec.order_clause (spec.single self.now.depth) (lexemes tokens.now)) }
    {
        if is_word("stable", tokens) {
            let rest = expect_word("stable", tokens)?;
            self.order_by(rest)
        } else {
            self.order_by(tokens)
        }
    }

    fn assigned(&self, tokens: &'a [Token]) -> Result<(Option<Boxed<Expr>>, &'a [Token]), Fault>
        requires { Nests self.now.depth (F.pre self.now.single) (F.post self.now.single) }
        ensures { Parses result
            (spec.maybe (spec.is (symbol_lex s.Assign))
            (spec.governed (spec.single self.now.depth) (symbol_lex s.Assign))
            (lexemes tokens.now)) }
    {
        if is_symbol(Symbol::Assign, tokens) {
            let (item, rest) = self.after_symbol(Symbol::Assign, tokens)?;
            Ok((Some(item), rest))
        } else {
            Ok((None, tokens))
        }
    }

    #[tactic(auto, unfolding(crate::specs::private::Reading::group_clause))]
    fn group_clause(&self, tokens: &'a [Token]) -> Result<(Clause, &'a [Token]), Fault>
        requires { Nests self.now.depth (F.pre self.now.single) (F.post self.now.single) }
        ensures { Parses result
            (spec.group_clause (spec.single self.now.depth) (lexemes tokens.now)) }
    {
        let rest = expect_word("group", tokens)?;
        let rest = expect_word("by", rest)?;
        let (variables, rest) = commas(self.alloc, &GroupVariable(self), rest)?;
        Ok((Clause::Group(variables), rest))
    }

    #[tactic(auto, unfolding(crate::specs::private::Reading::filter_clause))]
    fn filter_clause(&self, tokens: &'a [Token]) -> Result<(Clause, &'a [Token]), Fault>
        requires { Nests self.now.depth (F.pre self.now.single) (F.post self.now.single) }
        ensures { Parses result
            (spec.filter_clause (spec.single self.now.depth) (lexemes tokens.now)) }
    {
        let (condition, rest) = self.after_word("where", tokens)?;
        Ok((Clause::Filter(condition.into_inner()), rest))
    }

    #[tactic(auto, unfolding(crate::specs::private::Reading::let_clause))]
    fn let_clause(&self, tokens: &'a [Token]) -> Result<(Clause, &'a [Token]), Fault>
        requires { Nests self.now.depth (F.pre self.now.single) (F.post self.now.single) }
        ensures { Parses result
            (spec.let_clause (spec.single self.now.depth) (lexemes tokens.now)) }
    {
        let rest = expect_word("let", tokens)?;
        let (bindings, rest) = commas(self.alloc, &LetBinding(self), rest)?;
        Ok((Clause::Let(bindings), rest))
    }

    #[tactic(auto, unfolding(crate::specs::private::Reading::for_clause))]
    fn for_clause(&self, tokens: &'a [Token]) -> Result<(Clause, &'a [Token]), Fault>
        requires { Nests self.now.depth (F.pre self.now.single) (F.post self.now.single) }
        ensures { Parses result
            (spec.for_clause (spec.single self.now.depth) (lexemes tokens.now)) }
    {
        let rest = expect_word("for", tokens)?;
        let (bindings, rest) = commas(self.alloc, &ForBinding(self), rest)?;
        Ok((Clause::For(bindings), rest))
    }

    #[tactic(auto, unfolding(crate::specs::private::Reading::count_clause))]
    fn count_clause(&self, tokens: &'a [Token]) -> Result<(Clause, &'a [Token]), Fault>
        ensures { Parses result
            (spec.count_clause (spec.single self.now.depth) (lexemes tokens.now)) }
    {
        let rest = expect_word("count", tokens)?;
        let (name, rest) = variable(self.alloc, rest)?;
        Ok((Clause::Count(name), rest))
    }

    #[tactic(auto, unfolding(crate::specs::private::Reading::later_clause))]
    fn later_clause(&self, tokens: &'a [Token]) -> Result<(Clause, &'a [Token]), Fault>
        requires { Nests self.now.depth (F.pre self.now.single) (F.post self.now.single) }
        ensures { Parses result
            (spec.later_clause (spec.single self.now.depth) (lexemes tokens.now)) }
    {
        if is_word("where", tokens) {
            self.filter_clause(tokens)
        } else if is_word("group", tokens) {
            self.group_clause(tokens)
        } else if is_word("count", tokens) {
            self.count_clause(tokens)
        } else {
            self.order_clause(tokens)
        }
    }

    #[tactic(auto, unfolding(crate::specs::private::Reading::first_clause))]
    fn first_clause(&self, tokens: &'a [Token]) -> Result<(Boxed<Clause>, &'a [Token]), Fault>
        requires { Nests self.now.depth (F.pre self.now.single) (F.post self.now.single) }
        ensures { Parses result
            (spec.first_clause (spec.single self.now.depth) (lexemes tokens.now)) }
    {
        if is_word("for", tokens) {
            let (clause, rest) = self.for_clause(tokens)?;
            Ok((Boxed::new(self.alloc, clause)?, rest))
        } else {
            let (clause, rest) = self.let_clause(tokens)?;
            Ok((Boxed::new(self.alloc, clause)?, rest))
        }
    }

    /// A FLWOR expression.
    #[tactic(auto, unfolding(crate::specs::private::Reading::flwor, crate::specs::private::Reading::clauses))]
    pub(crate) fn flwor(&self, tokens: &'a [Token]) -> Result<(Boxed<Expr>, &'a [Token]), Fault>
        requires { Nests self.now.depth (F.pre self.now.single) (F.post self.now.single) }
        ensures { Parses result (spec.flwor (spec.single self.now.depth) (lexemes tokens.now)) }
    {
        let (first, rest) = self.first_clause(tokens)?;
        let (more, rest) = many(self.alloc, &LaterClause(self), rest)?;
        let (value, rest) = self.after_word("return", rest)?;
        Ok((flwor(self.alloc, first, more, value)?, rest))
    }
}

/// A binding of a quantified expression.
#[derive(Drop)]
struct QuantifierBinding<'g, F>(&'g Grammar<F>);

impl<'a, 'g, F: Fn(Global, usize, &'a [Token]) -> Result<(Boxed<Expr>, &'a [Token]), Fault>> Phrase<
    'a,
> for QuantifierBinding<'g, F> {
    type Value = (QName, Expr);

    ghost ready = { λ it. Nests it.0.now.depth (F.pre it.0.now.single) (F.post it.0.now.single) };

    ghost reader = { λ it. spec.quantifier_binding (spec.single it.0.now.depth) };

    #[tactic(auto, unfolding(crate::specs::private::Reading::quantifier_binding))]
    fn read(&self, tokens: &'a [Token]) -> Result<((QName, Expr), &'a [Token]), Fault> {
        let (name, rest) = variable(self.0.alloc, tokens)?;
        let (value, rest) = self.0.after_word("in", rest)?;
        Ok(((name, value.into_inner()), rest))
    }
}

/// A key of an order.
#[derive(Drop)]
struct OrderKey<'g, F>(&'g Grammar<F>);

impl<'a, 'g, F: Fn(Global, usize, &'a [Token]) -> Result<(Boxed<Expr>, &'a [Token]), Fault>> Phrase<
    'a,
> for OrderKey<'g, F> {
    type Value = (Expr, OrderModifier);

    ghost ready = { λ it. Nests it.0.now.depth (F.pre it.0.now.single) (F.post it.0.now.single) };

    ghost reader = { λ it. spec.order_spec (spec.single it.0.now.depth) };

    #[tactic(auto, unfolding(crate::specs::private::Reading::order_spec))]
    fn read(&self, tokens: &'a [Token]) -> Result<((Expr, OrderModifier), &'a [Token]), Fault> {
        let (key, rest) = self.0.single(tokens)?;
        let (direction, rest) = direction_word(rest)?;
        let (empty, rest) = empty_words(rest)?;
        let modifier = OrderModifier { direction, empty };
        Ok(((key.into_inner(), modifier), rest))
    }
}

/// A grouping variable.
#[derive(Drop)]
struct GroupVariable<'g, F>(&'g Grammar<F>);

impl<'a, 'g, F: Fn(Global, usize, &'a [Token]) -> Result<(Boxed<Expr>, &'a [Token]), Fault>> Phrase<
    'a,
> for GroupVariable<'g, F> {
    type Value = GroupSpec;

    ghost ready = { λ it. Nests it.0.now.depth (F.pre it.0.now.single) (F.post it.0.now.single) };

    ghost reader = { λ it. spec.group_spec (spec.single it.0.now.depth) };

    #[tactic(auto, unfolding(crate::specs::private::Reading::group_spec))]
    fn read(&self, tokens: &'a [Token]) -> Result<(GroupSpec, &'a [Token]), Fault> {
        let (name, rest) = variable(self.0.alloc, tokens)?;
        let (value, rest) = self.0.assigned(rest)?;
        match value {
            None => Ok((GroupSpec::Variable(name), rest)),
            Some(value) => Ok((GroupSpec::Assigned(name, value.into_inner()), rest)),
        }
    }
}

/// A binding of `let`.
#[derive(Drop)]
struct LetBinding<'g, F>(&'g Grammar<F>);

impl<'a, 'g, F: Fn(Global, usize, &'a [Token]) -> Result<(Boxed<Expr>, &'a [Token]), Fault>> Phrase<
    'a,
> for LetBinding<'g, F> {
    type Value = (QName, Expr);

    ghost ready = { λ it. Nests it.0.now.depth (F.pre it.0.now.single) (F.post it.0.now.single) };

    ghost reader = { λ it. spec.let_binding (spec.single it.0.now.depth) };

    #[tactic(auto, unfolding(crate::specs::private::Reading::let_binding))]
    fn read(&self, tokens: &'a [Token]) -> Result<((QName, Expr), &'a [Token]), Fault> {
        let (name, rest) = variable(self.0.alloc, tokens)?;
        let (value, rest) = self.0.after_symbol(Symbol::Assign, rest)?;
        Ok(((name, value.into_inner()), rest))
    }
}

/// A binding of `for`.
#[derive(Drop)]
struct ForBinding<'g, F>(&'g Grammar<F>);

impl<'a, 'g, F: Fn(Global, usize, &'a [Token]) -> Result<(Boxed<Expr>, &'a [Token]), Fault>> Phrase<
    'a,
> for ForBinding<'g, F> {
    type Value = (QName, AllowingEmpty, Option<QName>, Expr);

    ghost ready = { λ it. Nests it.0.now.depth (F.pre it.0.now.single) (F.post it.0.now.single) };

    ghost reader = { λ it. spec.for_binding (spec.single it.0.now.depth) };

    #[tactic(auto, unfolding(crate::specs::private::Reading::for_binding))]
    fn read(
        &self,
        tokens: &'a [Token],
    ) -> Result<((QName, AllowingEmpty, Option<QName>, Expr), &'a [Token]), Fault> {
        let (name, rest) = variable(self.0.alloc, tokens)?;
        let (allowing, rest) = allowing_words(rest)?;
        let (position, rest) = position(self.0.alloc, rest)?;
        let (value, rest) = self.0.after_word("in", rest)?;
        Ok(((name, allowing, position, value.into_inner()), rest))
    }
}

/// A clause after the first.
#[derive(Drop)]
struct LaterClause<'g, F>(&'g Grammar<F>);

impl<
    'a,
    'g,
    F: Fn(Global, usize, &'a [Token]) -> Result<(Boxed<Expr>, &'a [Token]), Fault>,
> Repeated<'a> for LaterClause<'g, F> {
    type Value = Clause;

    ghost ready = { λ it. Nests it.0.now.depth (F.pre it.0.now.single) (F.post it.0.now.single) };

    ghost test = { λ _. spec.begins spec.clause_words };

    ghost reader = { λ it. spec.clause_ (spec.single it.0.now.depth) };

    fn follows(&self, tokens: &[Token]) -> bool {
        begins_clause(tokens)
    }

    #[tactic(auto, unfolding(crate::specs::private::Reading::clause_))]
    fn next(&self, tokens: &'a [Token]) -> Result<(Clause, &'a [Token]), Fault> {
        if is_word("for", tokens) {
            self.0.for_clause(tokens)
        } else if is_word("let", tokens) {
            self.0.let_clause(tokens)
        } else {
            self.0.later_clause(tokens)
        }
    }
}
