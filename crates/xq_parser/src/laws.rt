//! What holds of the grammar itself.
ghost use Rattle.std.specs.Prelude.{◌≡◌};
ghost use Rattle.xq_lexer.specs.Lexeme.{lexemes};
ghost use Rattle.xq_expressions.specs.declared.expressions.Expr.{Expr as Expr_};
ghost use Rattle.xq_parser.specs.Grammar.{Derives};

use xq_lexer::Token;

/// No tokens derive two expressions, however deep these nest.
pub fn derives_at_most_one(tokens: &[Token])
    ensures { (left right : Expr_) → Derives (lexemes tokens.now) left
        → Derives (lexemes tokens.now) right → left ≡ right }
{
    let _ = tokens;
}
