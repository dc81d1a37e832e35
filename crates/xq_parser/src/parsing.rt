//! The expression that tokens derive.
ghost use Rattle.std.specs.Prelude.{◌≡◌, ◌≤◌, IfOk};
ghost use Rattle.xq_lexer.specs.Lexeme.{lexemes};
ghost use Rattle.xq_lexer.specs.Nesting.{deepest_nesting, nesting as nesting_of};
ghost use Rattle.xq_expressions.specs.declared.expressions.Expr.{Expr as Expr_};
ghost use Rattle.xq_parser.specs.Grammar.{Derives};
ghost use Rattle.xq_parser.specs.private.Reading as spec;
ghost use Rattle.xq_parser.specs.private.Parses.{ParsesAs, Nests, Operands, Parses};
ghost use Rattle.xq_parser.specs.Answers.{RefusesTokens};

use crate::levels::OR;
use crate::lookahead::{begins_constructor, begins_flwor, begins_if, begins_quantified, is_alone};
use crate::operators::Operators;
use crate::primaries::Grammar;
use sqlite_items::Boxed;
use std::alloc::Global;
use xq_atoms::{Code, Fault};
use xq_expressions::Expr;
use xq_lexer::{MAX_NESTING, Token, nesting};

/// How many singles may nest in one another: the whole expression, and those nested in it.
const MAX_DEPTH: usize = MAX_NESTING as usize + 1;

/// A single expression, over what reads singles that nest deeper, and what reads the operands of
/// its operators. Most are literals that stand by themselves, and those are read without a look at
/// operators.
#[tactic(auto, unfolding(crate::specs::private::Reading::any, crate::specs::private::Reading::level))]
fn any<
    'a,
    F: Fn(Global, usize, &'a [Token]) -> Result<(Boxed<Expr>, &'a [Token]), Fault> + Copy,
    G: Fn(Global, usize, u8, &'a [Token]) -> Result<(Boxed<Expr>, &'a [Token]), Fault> + Copy,
>(grammar: Grammar<F>, operand: G, tokens: &'a [Token]) -> Result<(Boxed<Expr>, &'a [Token]), Fault>
    requires nests { Nests grammar.depth (F.pre grammar.single) (F.post grammar.single) }
    requires operands { Operands grammar.depth 9 (G.pre operand) (G.post operand) }
    ensures { Parses result (spec.any (spec.single grammar.depth) (lexemes tokens.now)) }
{
    let operators = Operators {
        grammar: &grammar,
        level: OR,
        operand,
    };
    if is_alone(tokens) {
        grammar.primary(tokens)
    } else if begins_constructor(tokens) {
        operators.constructed(tokens)
    } else if begins_flwor(tokens) {
        grammar.flwor(tokens)
    } else if begins_quantified(tokens) {
        grammar.quantified(tokens)
    } else if begins_if(tokens) {
        grammar.conditional(tokens)
    } else {
        operators.read(tokens)
    }
}

/// Operands with operators up to a level between them, with singles nested at most so deep.
#[cycle(single)]
fn operands<'a>(
    alloc: Global,
    depth: usize,
    level: u8,
    tokens: &'a [Token],
) -> Result<(Boxed<Expr>, &'a [Token]), Fault>
    requires { level ≤ 9 }
    ensures { Parses result (spec.level (spec.single depth) level (lexemes tokens.now)) }
{
    let grammar = Grammar {
        alloc,
        depth,
        single,
    };
    let operators = Operators {
        grammar: &grammar,
        level,
        operand: operands,
    };
    operators.read(tokens)
}

/// A single expression, with singles nested at most so deep.
#[cycle(single)]
fn single<'a>(
    alloc: Global,
    depth: usize,
    tokens: &'a [Token],
) -> Result<(Boxed<Expr>, &'a [Token]), Fault>
    ensures { Parses result (spec.single depth (lexemes tokens.now)) }
{
    if depth == 0 {
        return Err(Fault::Code(Code::XPST0003));
    }
    let grammar = Grammar {
        alloc,
        depth: depth - 1,
        single,
    };
    any(grammar, operands, tokens)
}

/// A whole expression that the tokens end with.
#[tactic(auto, unfolding(crate::specs::private::Reading::query))]
fn query(alloc: Global, tokens: &[Token]) -> Result<Expr, Fault>
    ensures { ParsesAs (λ x. x) result (spec.query 129 (lexemes tokens.now)) }
{
    let grammar = Grammar {
        alloc,
        depth: MAX_DEPTH,
        single,
    };
    let (found, rest) = grammar.whole(tokens)?;
    match rest {
        [] => Ok(found.into_inner()),
        [_, ..] => Err(Fault::Code(Code::XPST0003)),
    }
}

/// The one expression that the tokens derive. It refuses with `prof:DEPTH` exactly where they nest
/// deeper than 128, and with XPST0003 exactly where they don't and derive no expression; else it
/// refuses only for want of memory.
pub fn parse(alloc: Global, tokens: &[Token]) -> Result<Expr, Fault>
    ensures found { IfOk result (λ e. Derives (lexemes tokens.now) e) }
    ensures only { IfOk result (λ e. (other : Expr_) → Derives (lexemes tokens.now) other
        → other ≡ e) }
    ensures shallow { IfOk result (λ _. nesting_of (lexemes tokens.now) ≤ deepest_nesting) }
    ensures refused { RefusesTokens result (lexemes tokens.now) }
{
    if nesting(tokens) > u32::from(MAX_NESTING) {
        return Err(Fault::Code(Code::ProfDepth));
    }
    query(alloc, tokens)
}
