//! From the bytes of a query to its plan.
ghost use Rattle.std.specs.Prelude.{◌≡◌, IfErr, IfOk};
ghost use Rattle.std.specs.Str.{chars};
ghost use Rattle.xq_atoms.specs.declared.refusals.Want.TheVariants.{Memory};
ghost use Rattle.xq_lexer.specs.Lexeme.{lexemes};
ghost use Rattle.xq_queries.specs.Scans.{ScansItsDocument};
ghost use Rattle.xq_queries.specs.Values.{IsPlanOf, Plans};
ghost use Rattle.xq_queries.specs.private.Plans.{Checks, Parses, Understands};

use crate::direct::direct;
use crate::lines::with_line_feeds;
use std::alloc::Global;
use xq_atoms::{Code, Fault, Want};
use xq_expressions::Expr;
use xq_lexer::{Token, lex};
use xq_meaning::Plan;
use xq_parser::parse;
use xq_statics::check;

/// A plan of the query that the bytes are. Nothing is evaluated. That of a path which starts with
/// `doc` of a literal and goes on by one step or more along axes, each after one slash and without
/// predicates, is the document and as many scans (XQuery 3.1, section 3.3).
///
/// Refused are, in this order, bytes that are no UTF-8, as `prof:UTF8`, the first fault of the
/// tokens, `prof:DEPTH`, a text that the grammar doesn't derive, as XPST0003, and the first static
/// fault in the order of the text.
///
/// `Want::Memory` where a growth was refused; bytes that are no UTF-8 are refused without one.
pub fn read(alloc: Global, text: &[u8]) -> Result<Plan, Fault>
    ensures { Plans text.now result }
{
    let Ok(text) = std::str::from_utf8(text) else {
        return Err(Fault::Code(Code::ProfUtf8));
    };
    let read = with_line_feeds(alloc, text)?;
    understood(alloc, read.as_str())
}

/// A plan of the query that the characters are.
fn understood(alloc: Global, text: &str) -> Result<Plan, Fault>
    ensures { Understands (chars text.now) result }
{
    let query = parsed(alloc, text)?;
    Ok(planned(alloc, query)?)
}

/// The expression that the characters are, which passes the static checks.
fn parsed(alloc: Global, text: &str) -> Result<Expr, Fault>
    ensures { Parses (chars text.now) result }
{
    let tokens = lex(alloc, text)?;
    checked(alloc, &tokens)
}

/// The expression that the tokens derive, which passes the static checks.
fn checked(alloc: Global, tokens: &[Token]) -> Result<Expr, Fault>
    ensures { Checks (lexemes tokens.now) result }
{
    let query = parse(alloc, tokens)?;
    check(alloc, &query)?;
    Ok(query)
}

/// A plan of the expression, which is let go here: its parts are dropped in one place.
fn planned(alloc: Global, query: Expr) -> Result<Plan, Want>
    ensures same { IfOk result (λ plan. IsPlanOf query plan) }
    ensures scans { IfOk result (λ plan. ScansItsDocument query plan) }
    ensures want { IfErr result (λ want. want ≡ Memory) }
{
    direct(alloc, query)
}
