//! Steps and paths (XQuery 3.1, section 3.3).
ghost use Rattle.std.specs.Prelude.{[], ◌∷◌};
ghost use Rattle.xq_lexer.specs.Lexeme.{lexemes, symbol as symbol_lex};
ghost use Rattle.xq_lexer.specs.declared.tokens.Symbol.TheVariants as s;
ghost use Rattle.xq_expressions.specs.declared.expressions.Expr.TheVariants as e;
ghost use Rattle.xq_parser.specs.Grammar as g;
ghost use Rattle.xq_parser.specs.private.Behind as behind;
ghost use Rattle.xq_parser.specs.private.Reading as spec;
ghost use Rattle.xq_parser.specs.private.Parses.{Nests, Parses};

use crate::lists::{Repeated, many};
use crate::lookahead::{begins_lone, begins_primary, expect_symbol, is_symbol};
use crate::node_tests::axis_step;
use crate::primaries::Grammar;
use crate::values::{relative, rooted};
use crate::words::{begins, one_of};
use sqlite_items::{Boxed, Items};
use std::alloc::Global;
use xq_atoms::{Code, Fault};
use xq_expressions::{Expr, PathStart, Separator, Step};
use xq_lexer::{Symbol, Token};

impl<'a, F: Fn(Global, usize, &'a [Token]) -> Result<(Boxed<Expr>, &'a [Token]), Fault>> Grammar<
    F,
> {
    #[tactic(auto, unfolding(crate::specs::private::Reading::predicates))]
    fn predicates(&self, tokens: &'a [Token]) -> Result<(Items<Expr>, &'a [Token]), Fault>
        requires { Nests self.now.depth (F.pre self.now.single) (F.post self.now.single) }
        ensures { Parses result
            (spec.predicates (spec.single self.now.depth) (lexemes tokens.now)) }
    {
        many(self.alloc, &Predicate(self), tokens)
    }

    #[tactic(auto, unfolding(crate::specs::private::Reading::primary_step))]
    fn primary_step(&self, tokens: &'a [Token]) -> Result<(Step, &'a [Token]), Fault>
        requires { Nests self.now.depth (F.pre self.now.single) (F.post self.now.single) }
        ensures { Parses result
            (spec.primary_step (spec.single self.now.depth) (lexemes tokens.now)) }
    {
        let (value, rest) = self.primary(tokens)?;
        let (predicates, rest) = self.predicates(rest)?;
        Ok((Step::Primary(value, predicates), rest))
    }

    #[tactic(auto, unfolding(crate::specs::private::Reading::predicated))]
    fn predicated(&self, tokens: &'a [Token]) -> Result<(Step, &'a [Token]), Fault>
        requires { Nests self.now.depth (F.pre self.now.single) (F.post self.now.single) }
        ensures { Parses result
            (spec.predicated (spec.single self.now.depth) (lexemes tokens.now)) }
    {
        let (step, rest) = axis_step(self.alloc, tokens)?;
        let (predicates, rest) = self.predicates(rest)?;
        Ok((Step::Axis(step, predicates), rest))
    }

    /// A step of a path.
    #[tactic(auto, unfolding(crate::specs::private::Reading::step))]
    fn step(&self, tokens: &'a [Token]) -> Result<(Step, &'a [Token]), Fault>
        requires { Nests self.now.depth (F.pre self.now.single) (F.post self.now.single) }
        ensures { Parses result (spec.step (spec.single self.now.depth) (lexemes tokens.now)) }
    {
        if begins_primary(tokens) {
            self.primary_step(tokens)
        } else {
            self.predicated(tokens)
        }
    }

    #[tactic(auto, unfolding(crate::specs::private::Reading::relative))]
    fn steps(
        &self,
        tokens: &'a [Token],
    ) -> Result<((Step, Items<(Separator, Step)>), &'a [Token]), Fault>
        requires { Nests self.now.depth (F.pre self.now.single) (F.post self.now.single) }
        ensures { Parses result (spec.relative (spec.single self.now.depth) (lexemes tokens.now)) }
    {
        let (first, rest) = self.step(tokens)?;
        let (more, rest) = many(self.alloc, &NextStep(self), rest)?;
        Ok(((first, more), rest))
    }

    #[tactic(auto, unfolding(crate::specs::private::Reading::from_root))]
    fn from_root(&self, tokens: &'a [Token]) -> Result<(Boxed<Expr>, &'a [Token]), Fault>
        requires { Nests self.now.depth (F.pre self.now.single) (F.post self.now.single) }
        ensures { Parses result (spec.from_root (spec.single self.now.depth) (lexemes tokens.now)) }
    {
        let rest = expect_symbol(Symbol::Slash, tokens)?;
        let ((first, more), rest) = self.steps(rest)?;
        Ok((rooted(self.alloc, PathStart::Root, first, more)?, rest))
    }

    #[tactic(auto, unfolding(crate::specs::private::Reading::from_below))]
    fn from_below(&self, tokens: &'a [Token]) -> Result<(Boxed<Expr>, &'a [Token]), Fault>
        requires { Nests self.now.depth (F.pre self.now.single) (F.post self.now.single) }
        ensures { Parses result
            (spec.from_below (spec.single self.now.depth) (lexemes tokens.now)) }
    {
        let rest = expect_symbol(Symbol::DoubleSlash, tokens)?;
        let ((first, more), rest) = self.steps(rest)?;
        Ok((
            rooted(self.alloc, PathStart::RootAndBelow, first, more)?,
            rest,
        ))
    }

    /// A `/` alone.
    #[tactic(auto, unfolding(crate::specs::private::Reading::one_of, crate::specs::Look::lookup, crate::specs::Look::same, crate::specs::Look::same_symbol))]
    fn lone(&self, tokens: &'a [Token]) -> Result<(Boxed<Expr>, &'a [Token]), Fault>
        ensures { Parses result
            (spec.one_of ((symbol_lex s.Slash, e.Root) ∷ []) (lexemes tokens.now)) }
    {
        match tokens {
            [Token::Sym(Symbol::Slash), rest @ ..] => {
                Ok((Boxed::new(self.alloc, Expr::Root)?, rest))
            }
            _ => Err(Fault::Code(Code::XPST0003)),
        }
    }

    fn relative_path(&self, tokens: &'a [Token]) -> Result<(Boxed<Expr>, &'a [Token]), Fault>
        requires { Nests self.now.depth (F.pre self.now.single) (F.post self.now.single) }
        ensures { Parses result
            (spec.mapped g.relative (spec.relative (spec.single self.now.depth))
            (lexemes tokens.now)) }
    {
        let ((first, more), rest) = self.steps(tokens)?;
        Ok((relative(self.alloc, first, more)?, rest))
    }

    /// A path whose first step begins with what was read.
    #[tactic(auto, unfolding(crate::specs::private::Behind::path_from))]
    pub(crate) fn path_from(
        &self,
        first: Boxed<Expr>,
        rest: &'a [Token],
    ) -> Result<(Boxed<Expr>, &'a [Token]), Fault>
        requires { Nests self.now.depth (F.pre self.now.single) (F.post self.now.single) }
        ensures { Parses result
            (behind.path_from (spec.single self.now.depth) first (lexemes rest.now)) }
    {
        let (predicates, rest) = self.predicates(rest)?;
        let (more, rest) = many(self.alloc, &NextStep(self), rest)?;
        Ok((
            relative(self.alloc, Step::Primary(first, predicates), more)?,
            rest,
        ))
    }

    /// A path.
    #[tactic(auto, unfolding(crate::specs::private::Reading::path))]
    pub(crate) fn path(&self, tokens: &'a [Token]) -> Result<(Boxed<Expr>, &'a [Token]), Fault>
        requires { Nests self.now.depth (F.pre self.now.single) (F.post self.now.single) }
        ensures { Parses result (spec.path (spec.single self.now.depth) (lexemes tokens.now)) }
    {
        if begins_lone(tokens) {
            self.lone(tokens)
        } else if is_symbol(Symbol::Slash, tokens) {
            self.from_root(tokens)
        } else if is_symbol(Symbol::DoubleSlash, tokens) {
            self.from_below(tokens)
        } else {
            self.relative_path(tokens)
        }
    }
}

/// A predicate.
#[derive(Drop)]
struct Predicate<'g, F>(&'g Grammar<F>);

impl<
    'a,
    'g,
    F: Fn(Global, usize, &'a [Token]) -> Result<(Boxed<Expr>, &'a [Token]), Fault>,
> Repeated<'a> for Predicate<'g, F> {
    type Value = Expr;

    ghost ready = { λ it. Nests it.0.now.depth (F.pre it.0.now.single) (F.post it.0.now.single) };

    ghost test = { λ _. spec.is (symbol_lex s.OpenBracket) };

    ghost reader = { λ it. spec.predicate (spec.single it.0.now.depth) };

    fn follows(&self, tokens: &[Token]) -> bool {
        is_symbol(Symbol::OpenBracket, tokens)
    }

    #[tactic(auto, unfolding(crate::specs::private::Reading::predicate))]
    fn next(&self, tokens: &'a [Token]) -> Result<(Expr, &'a [Token]), Fault> {
        let rest = expect_symbol(Symbol::OpenBracket, tokens)?;
        let (condition, rest) = self.0.whole(rest)?;
        let rest = expect_symbol(Symbol::CloseBracket, rest)?;
        Ok((condition.into_inner(), rest))
    }
}

/// A later step, and what stands before it.
#[derive(Drop)]
struct NextStep<'g, F>(&'g Grammar<F>);

impl<
    'a,
    'g,
    F: Fn(Global, usize, &'a [Token]) -> Result<(Boxed<Expr>, &'a [Token]), Fault>,
> Repeated<'a> for NextStep<'g, F> {
    type Value = (Separator, Step);

    ghost ready = { λ it. Nests it.0.now.depth (F.pre it.0.now.single) (F.post it.0.now.single) };

    ghost test = { λ _. spec.begins g.separators };

    ghost reader = { λ it. spec.next_step (spec.single it.0.now.depth) };

    fn follows(&self, tokens: &[Token]) -> bool {
        begins::<Separator>(tokens)
    }

    #[tactic(auto, unfolding(crate::specs::private::Reading::next_step))]
    fn next(&self, tokens: &'a [Token]) -> Result<((Separator, Step), &'a [Token]), Fault> {
        let (separator, rest) = one_of::<Separator>(tokens)?;
        let (step, rest) = self.0.step(rest)?;
        Ok(((separator, step), rest))
    }
}
