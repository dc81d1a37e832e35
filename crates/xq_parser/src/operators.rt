//! Operators, from maps to disjunctions (XQuery 3.1, sections 3.4 to 3.8, 3.19 and 3.20).
ghost use Rattle.std.specs.Prelude.{◌≡◌, ◌<◌, ◌≤◌, ◌-◌, true};
ghost use Rattle.xq_lexer.specs.Lexeme.{lexemes, symbol as symbol_lex};
ghost use Rattle.xq_lexer.specs.declared.tokens.Symbol.TheVariants as s;
ghost use Rattle.xq_parser.specs.Grammar as g;
ghost use Rattle.xq_parser.specs.private.Behind as behind;
ghost use Rattle.xq_parser.specs.private.Reading as spec;
ghost use Rattle.xq_parser.specs.private.Parses.{Nests, OperandReady, Operands, Parses, ParsesAs};

use crate::levels::{AND, COMPARISON, CONCAT, PRODUCT, RANGE, SET, SUM, UNION, next_level};
use crate::lists::{Repeated, many};
use crate::lookahead::{ends_expression, expect_symbol, expect_word, is_symbol, is_word};
use crate::primaries::Grammar;
use crate::values::{Chains, arrow, chained, compared, joined, ranged, signed, simple_map};
use crate::words::{Listed, begins, one_of};
use sqlite_items::{Boxed, Items};
use std::alloc::Global;
use std::marker::PhantomData;
use xq_atoms::Fault;
use xq_expressions::{ComparisonOperator, Expr, ProductOperator, QName, SetOperator, Sign};
use xq_lexer::{Symbol, Token};

/// The tokens after a sign of a union.
#[tactic(auto, unfolding(crate::specs::private::Reading::union_sign))]
fn union_sign(tokens: &[Token]) -> Result<&[Token], Fault>
    ensures { ParsesAs (λ x. (tt, lexemes x.now)) result (spec.union_sign (lexemes tokens.now)) }
{
    if is_word("union", tokens) {
        expect_word("union", tokens)
    } else {
        expect_symbol(Symbol::Bar, tokens)
    }
}

/// The tokens after the one between the operands of a level that makes one list of them.
#[tactic(auto, unfolding(crate::specs::private::Behind::joint))]
fn joint(level: u8, tokens: &[Token]) -> Result<&[Token], Fault>
    ensures { ParsesAs (λ x. (tt, lexemes x.now)) result (behind.joint level (lexemes tokens.now)) }
{
    if level == UNION {
        union_sign(tokens)
    } else if level == CONCAT {
        expect_symbol(Symbol::DoubleBar, tokens)
    } else if level == AND {
        expect_word("and", tokens)
    } else {
        expect_word("or", tokens)
    }
}

impl<'a, F: Fn(Global, usize, &'a [Token]) -> Result<(Boxed<Expr>, &'a [Token]), Fault>> Grammar<
    F,
> {
    /// Paths with `!` between them.
    #[tactic(auto, unfolding(crate::specs::private::Reading::simple_map))]
    fn simple_map(&self, tokens: &'a [Token]) -> Result<(Boxed<Expr>, &'a [Token]), Fault>
        requires { Nests self.now.depth (F.pre self.now.single) (F.post self.now.single) }
        ensures { Parses result
            (spec.simple_map (spec.single self.now.depth) (lexemes tokens.now)) }
    {
        let (first, rest) = self.path(tokens)?;
        self.with_maps(first, rest)
    }

    /// A path, and what stands after each `!` behind it.
    #[inline(always)]
    fn with_maps(
        &self,
        first: Boxed<Expr>,
        rest: &'a [Token],
    ) -> Result<(Boxed<Expr>, &'a [Token]), Fault>
        requires { Nests self.now.depth (F.pre self.now.single) (F.post self.now.single) }
        ensures { Parses result
            (behind.with_maps (spec.single self.now.depth) first (lexemes rest.now)) }
    {
        let (more, rest) = many(self.alloc, &MapItem(self), rest)?;
        Ok((simple_map(self.alloc, first, more)?, rest))
    }

    /// An operand with its signs.
    #[tactic(auto, unfolding(crate::specs::private::Reading::unary))]
    fn unary(&self, tokens: &'a [Token]) -> Result<(Boxed<Expr>, &'a [Token]), Fault>
        requires { Nests self.now.depth (F.pre self.now.single) (F.post self.now.single) }
        ensures { Parses result (spec.unary (spec.single self.now.depth) (lexemes tokens.now)) }
    {
        let (signs, rest) = many(self.alloc, &NextSign, tokens)?;
        let (operand, rest) = self.simple_map(rest)?;
        Ok((signed(self.alloc, signs, operand)?, rest))
    }

    /// An operand, and the calls after each `=>` behind it.
    #[inline(always)]
    fn with_calls(
        &self,
        first: Boxed<Expr>,
        rest: &'a [Token],
    ) -> Result<(Boxed<Expr>, &'a [Token]), Fault>
        requires { Nests self.now.depth (F.pre self.now.single) (F.post self.now.single) }
        ensures { Parses result
            (behind.with_calls (spec.single self.now.depth) first (lexemes rest.now)) }
    {
        let (calls, rest) = many(self.alloc, &ArrowItem(self), rest)?;
        Ok((arrow(self.alloc, first, calls)?, rest))
    }
}

/// Operators between operands up to a level, over what reads operands of tighter levels.
#[derive(Clone, Copy)]
pub(crate) struct Operators<'g, F, G> {
    pub(crate) grammar: &'g Grammar<F>,
    /// The loosest level of an operator.
    pub(crate) level: u8,
    pub(crate) operand: G,
}

impl<
    'a,
    'g,
    F: Fn(Global, usize, &'a [Token]) -> Result<(Boxed<Expr>, &'a [Token]), Fault>,
    G: Fn(Global, usize, u8, &'a [Token]) -> Result<(Boxed<Expr>, &'a [Token]), Fault>,
> Operators<'g, F, G> {
    /// An operand with operators of a tighter level.
    fn operand(&self, level: u8, tokens: &'a [Token]) -> Result<(Boxed<Expr>, &'a [Token]), Fault>
        requires operands { Operands self.now.grammar.now.depth self.now.level
            (G.pre self.now.operand) (G.post self.now.operand) }
        requires tighter { level < self.now.level }
        ensures { Parses result
            (spec.level (spec.single self.now.grammar.now.depth) level (lexemes tokens.now)) }
    {
        (self.operand)(self.grammar.alloc, self.grammar.depth, level, tokens)
    }

    /// An operand, and those behind it of a level that makes a chain of them.
    fn with_chain<T: Chains + Drop>(
        &self,
        level: u8,
        first: Boxed<Expr>,
        rest: &'a [Token],
    ) -> Result<(Boxed<Expr>, &'a [Token]), Fault>
        requires operands { Operands self.now.grammar.now.depth self.now.level
            (G.pre self.now.operand) (G.post self.now.operand) }
        requires some { 0 < level }
        requires within { level ≤ self.now.level }
        ensures { Parses result
            (behind.chained (spec.single self.now.grammar.now.depth) level T.table T.chain first
            (lexemes rest.now)) }
    {
        let items = Pair::<F, G, T> {
            operators: self,
            level,
            operator: PhantomData,
        };
        let (more, rest) = many(self.grammar.alloc, &items, rest)?;
        Ok((chained(self.grammar.alloc, first, more)?, rest))
    }

    /// What a range begins with, and its end behind `to`.
    fn with_end(
        &self,
        first: Boxed<Expr>,
        tokens: &'a [Token],
    ) -> Result<(Boxed<Expr>, &'a [Token]), Fault>
        requires operands { Operands self.now.grammar.now.depth self.now.level
            (G.pre self.now.operand) (G.post self.now.operand) }
        requires within { 5 ≤ self.now.level }
        requires stands { spec.stands 5 (lexemes tokens.now) ≡ true }
        ensures { Parses result
            (behind.with_end (spec.single self.now.grammar.now.depth) first (lexemes tokens.now)) }
    {
        let rest = expect_word("to", tokens)?;
        let (last, rest) = self.operand(RANGE - 1, rest)?;
        Ok((ranged(self.grammar.alloc, first, last)?, rest))
    }

    /// An operand, and what it is compared with behind it.
    fn with_compared(
        &self,
        first: Boxed<Expr>,
        tokens: &'a [Token],
    ) -> Result<(Boxed<Expr>, &'a [Token]), Fault>
        requires operands { Operands self.now.grammar.now.depth self.now.level
            (G.pre self.now.operand) (G.post self.now.operand) }
        requires within { 7 ≤ self.now.level }
        requires stands { spec.stands 7 (lexemes tokens.now) ≡ true }
        ensures { Parses result
            (behind.with_compared (spec.single self.now.grammar.now.depth) first
            (lexemes tokens.now)) }
    {
        let (operator, rest) = one_of::<ComparisonOperator>(tokens)?;
        let (right, rest) = self.operand(COMPARISON - 1, rest)?;
        Ok((compared(self.grammar.alloc, first, operator, right)?, rest))
    }

    /// An operand, and those behind it of a level that makes one list of them.
    fn with_joined(
        &self,
        level: u8,
        first: Boxed<Expr>,
        rest: &'a [Token],
    ) -> Result<(Boxed<Expr>, &'a [Token]), Fault>
        requires operands { Operands self.now.grammar.now.depth self.now.level
            (G.pre self.now.operand) (G.post self.now.operand) }
        requires some { 0 < level }
        requires within { level ≤ self.now.level }
        ensures { Parses result
            (behind.joined (spec.single self.now.grammar.now.depth) level first
            (lexemes rest.now)) }
    {
        let items = Joined {
            operators: self,
            level,
        };
        let (more, rest) = many(self.grammar.alloc, &items, rest)?;
        Ok((joined(self.grammar.alloc, level, first, more)?, rest))
    }

    /// An operand, and what stands behind it at a level whose operator is next.
    #[tactic(auto, unfolding(crate::specs::private::Behind::at))]
    fn at_level(
        &self,
        level: u8,
        first: Boxed<Expr>,
        tokens: &'a [Token],
    ) -> Result<(Boxed<Expr>, &'a [Token]), Fault>
        requires operands { Operands self.now.grammar.now.depth self.now.level
            (G.pre self.now.operand) (G.post self.now.operand) }
        requires some { 0 < level }
        requires within { level ≤ self.now.level }
        requires stands { spec.stands level (lexemes tokens.now) ≡ true }
        ensures { Parses result
            (behind.at (spec.single self.now.grammar.now.depth) level first (lexemes tokens.now)) }
    {
        if level == SET {
            self.with_chain::<SetOperator>(level, first, tokens)
        } else if level == PRODUCT {
            self.with_chain::<ProductOperator>(level, first, tokens)
        } else if level == SUM {
            self.with_chain::<Sign>(level, first, tokens)
        } else if level == RANGE {
            self.with_end(first, tokens)
        } else if level == COMPARISON {
            self.with_compared(first, tokens)
        } else {
            self.with_joined(level, first, tokens)
        }
    }

    /// An operand, and what stands behind it: calls, and operators with their other operands.
    fn behind(
        &self,
        operand: Boxed<Expr>,
        tokens: &'a [Token],
    ) -> Result<(Boxed<Expr>, &'a [Token]), Fault>
        requires nests { Nests self.now.grammar.now.depth (F.pre self.now.grammar.now.single)
            (F.post self.now.grammar.now.single) }
        requires operands { Operands self.now.grammar.now.depth self.now.level
            (G.pre self.now.operand) (G.post self.now.operand) }
        requires bound { self.now.level ≤ 9 }
        ensures { Parses result
            (behind.up_to (spec.single self.now.grammar.now.depth) self.now.level operand
            (lexemes tokens.now)) }
    {
        let (mut found, mut rest) = self.grammar.with_calls(operand, tokens)?;
        let mut next = next_level(rest);
        for tighter in 0..self.level {
            if next != tighter + 1 {
                continue;
            }
            let (all, after) = self.at_level(next, found, rest)?;
            found = all;
            rest = after;
            next = next_level(rest);
        }
        Ok((found, rest))
    }

    /// Operands with operators between them. Most expressions are an operand alone: behind one no
    /// operator is looked for where a token stands that ends it.
    pub(crate) fn read(&self, tokens: &'a [Token]) -> Result<(Boxed<Expr>, &'a [Token]), Fault>
        requires nests { Nests self.now.grammar.now.depth (F.pre self.now.grammar.now.single)
            (F.post self.now.grammar.now.single) }
        requires operands { Operands self.now.grammar.now.depth self.now.level
            (G.pre self.now.operand) (G.post self.now.operand) }
        requires bound { self.now.level ≤ 9 }
        ensures { Parses result
            (spec.level (spec.single self.now.grammar.now.depth) self.now.level
            (lexemes tokens.now)) }
    {
        let (operand, rest) = self.grammar.unary(tokens)?;
        if ends_expression(rest) {
            return Ok((operand, rest));
        }
        self.behind(operand, rest)
    }

    /// Operands with operators between them, where a constructor comes first: it is read without a
    /// look for what else an operand may begin with.
    pub(crate) fn constructed(
        &self,
        tokens: &'a [Token],
    ) -> Result<(Boxed<Expr>, &'a [Token]), Fault>
        requires nests { Nests self.now.grammar.now.depth (F.pre self.now.grammar.now.single)
            (F.post self.now.grammar.now.single) }
        requires operands { Operands self.now.grammar.now.depth self.now.level
            (G.pre self.now.operand) (G.post self.now.operand) }
        requires bound { self.now.level ≤ 9 }
        requires begun { spec.begins_make (lexemes tokens.now) ≡ true }
        ensures { Parses result
            (spec.level (spec.single self.now.grammar.now.depth) self.now.level
            (lexemes tokens.now)) }
    {
        let (node, rest) = self.grammar.make(tokens)?;
        if ends_expression(rest) {
            return Ok((node, rest));
        }
        let (path, rest) = self.grammar.path_from(node, rest)?;
        let (operand, rest) = self.grammar.with_maps(path, rest)?;
        self.behind(operand, rest)
    }
}

/// A sign before an operand.
#[derive(Drop)]
struct NextSign;

impl<'a> Repeated<'a> for NextSign {
    type Value = Sign;

    ghost ready = { λ _. Unit {0} };

    ghost test = { λ _. spec.begins g.signs };

    ghost reader = { λ _. spec.one_of g.signs };

    fn follows(&self, tokens: &[Token]) -> bool {
        begins::<Sign>(tokens)
    }

    fn next(&self, tokens: &'a [Token]) -> Result<(Sign, &'a [Token]), Fault> {
        one_of::<Sign>(tokens)
    }
}

/// What is mapped over the items before it.
#[derive(Drop)]
struct MapItem<'g, F>(&'g Grammar<F>);

impl<
    'a,
    'g,
    F: Fn(Global, usize, &'a [Token]) -> Result<(Boxed<Expr>, &'a [Token]), Fault>,
> Repeated<'a> for MapItem<'g, F> {
    type Value = Expr;

    ghost ready = { λ it. Nests it.0.now.depth (F.pre it.0.now.single) (F.post it.0.now.single) };

    ghost test = { λ _. spec.is (symbol_lex s.Bang) };

    ghost reader = { λ it. spec.map_item (spec.single it.0.now.depth) };

    fn follows(&self, tokens: &[Token]) -> bool {
        is_symbol(Symbol::Bang, tokens)
    }

    #[tactic(auto, unfolding(crate::specs::private::Reading::map_item))]
    fn next(&self, tokens: &'a [Token]) -> Result<(Expr, &'a [Token]), Fault> {
        let rest = expect_symbol(Symbol::Bang, tokens)?;
        let (part, rest) = self.0.path(rest)?;
        Ok((part.into_inner(), rest))
    }
}

/// A call that what stands before it is handed on to.
#[derive(Drop)]
struct ArrowItem<'g, F>(&'g Grammar<F>);

impl<
    'a,
    'g,
    F: Fn(Global, usize, &'a [Token]) -> Result<(Boxed<Expr>, &'a [Token]), Fault>,
> Repeated<'a> for ArrowItem<'g, F> {
    type Value = (QName, Items<Expr>);

    ghost ready = { λ it. Nests it.0.now.depth (F.pre it.0.now.single) (F.post it.0.now.single) };

    ghost test = { λ _. spec.is (symbol_lex s.Arrow) };

    ghost reader = { λ it. spec.arrow_item (spec.single it.0.now.depth) };

    fn follows(&self, tokens: &[Token]) -> bool {
        is_symbol(Symbol::Arrow, tokens)
    }

    #[tactic(auto, unfolding(crate::specs::private::Reading::arrow_item))]
    fn next(&self, tokens: &'a [Token]) -> Result<((QName, Items<Expr>), &'a [Token]), Fault> {
        let rest = expect_symbol(Symbol::Arrow, tokens)?;
        self.0.called(rest)
    }
}

/// An operator of a level and the operand behind it.
#[derive(Drop)]
struct Pair<'o, 'g, F, G, T> {
    operators: &'o Operators<'g, F, G>,
    level: u8,
    operator: PhantomData<T>,
}

impl<
    'a,
    'o,
    'g,
    F: Fn(Global, usize, &'a [Token]) -> Result<(Boxed<Expr>, &'a [Token]), Fault>,
    G: Fn(Global, usize, u8, &'a [Token]) -> Result<(Boxed<Expr>, &'a [Token]), Fault>,
    T: Listed + Drop,
> Repeated<'a> for Pair<'o, 'g, F, G, T> {
    type Value = (T, Expr);

    ghost ready = { λ it. OperandReady it.level it.operators.now.grammar.now.depth
        it.operators.now.level (G.pre it.operators.now.operand) (G.post it.operators.now.operand) };

    ghost test = { λ it. spec.stands it.level };

    ghost reader = { λ it. spec.both (spec.one_of T.table)
        (spec.level (spec.single it.operators.now.grammar.now.depth) (it.level - 1)) };

    fn follows(&self, tokens: &[Token]) -> bool {
        next_level(tokens) == self.level
    }

    fn next(&self, tokens: &'a [Token]) -> Result<((T, Expr), &'a [Token]), Fault> {
        let (operator, rest) = one_of::<T>(tokens)?;
        let (operand, rest) = self.operators.operand(self.level - 1, rest)?;
        Ok(((operator, operand.into_inner()), rest))
    }
}

/// An operand of a level that makes one list of them.
#[derive(Drop)]
struct Joined<'o, 'g, F, G> {
    operators: &'o Operators<'g, F, G>,
    level: u8,
}

impl<
    'a,
    'o,
    'g,
    F: Fn(Global, usize, &'a [Token]) -> Result<(Boxed<Expr>, &'a [Token]), Fault>,
    G: Fn(Global, usize, u8, &'a [Token]) -> Result<(Boxed<Expr>, &'a [Token]), Fault>,
> Repeated<'a> for Joined<'o, 'g, F, G> {
    type Value = Expr;

    ghost ready = { λ it. OperandReady it.level it.operators.now.grammar.now.depth
        it.operators.now.level (G.pre it.operators.now.operand) (G.post it.operators.now.operand) };

    ghost test = { λ it. spec.stands it.level };

    ghost reader = { λ it. behind.joined_item
        (spec.single it.operators.now.grammar.now.depth) it.level };

    fn follows(&self, tokens: &[Token]) -> bool {
        next_level(tokens) == self.level
    }

    #[tactic(auto, unfolding(crate::specs::private::Behind::joined_item))]
    fn next(&self, tokens: &'a [Token]) -> Result<(Expr, &'a [Token]), Fault> {
        let rest = joint(self.level, tokens)?;
        let (operand, rest) = self.operators.operand(self.level - 1, rest)?;
        Ok((operand.into_inner(), rest))
    }
}
