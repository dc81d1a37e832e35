//! Whole expressions, bodies and primary expressions (XQuery 3.1, sections 3.1 and 3.9.3).
ghost use Rattle.xq_lexer.specs.Lexeme.{lexemes, name as name_lex, symbol as symbol_lex};
ghost use Rattle.xq_expressions.specs.declared.expressions.Expr.TheVariants as e;
ghost use Rattle.xq_parser.specs.Look as look;
ghost use Rattle.xq_parser.specs.Grammar as g;
ghost use Rattle.xq_parser.specs.private.Reading as spec;
ghost use Rattle.xq_parser.specs.private.Parses.{Nests, Parses};

use crate::lists::{AfterComma, Phrase, commas, many};
use crate::lookahead::{
    begins_call, begins_name, begins_nc, call_name, expect_symbol, expect_word, is_symbol, is_word,
    ncname, qname, variable,
};
use crate::values::{named_node, sequence, unnamed_node};
use crate::words::{begins, one_of};
use sqlite_items::{Boxed, Items};
use std::alloc::Global;
use xq_atoms::Fault;
use xq_expressions::{ConstructorName, Expr, NamedNode, QName, Text, UnnamedNode};
use xq_lexer::{Symbol, Token};

/// The lines of the grammar, over what reads a single expression that nests deeper.
#[derive(Clone, Copy)]
pub(crate) struct Grammar<F> {
    pub(crate) alloc: Global,
    /// How deep singles may still nest.
    pub(crate) depth: usize,
    pub(crate) single: F,
}

impl<'a, F: Fn(Global, usize, &'a [Token]) -> Result<(Boxed<Expr>, &'a [Token]), Fault>> Grammar<
    F,
> {
    /// A single expression that nests deeper.
    pub(crate) fn single(&self, tokens: &'a [Token]) -> Result<(Boxed<Expr>, &'a [Token]), Fault>
        requires { Nests self.now.depth (F.pre self.now.single) (F.post self.now.single) }
        ensures { Parses result (spec.single self.now.depth (lexemes tokens.now)) }
    {
        (self.single)(self.alloc, self.depth, tokens)
    }

    /// One single expression and more, with commas between them.
    #[tactic(auto, unfolding(crate::specs::private::Reading::whole))]
    pub(crate) fn whole(&self, tokens: &'a [Token]) -> Result<(Boxed<Expr>, &'a [Token]), Fault>
        requires { Nests self.now.depth (F.pre self.now.single) (F.post self.now.single) }
        ensures { Parses result (spec.whole (spec.single self.now.depth) (lexemes tokens.now)) }
    {
        let (first, rest) = self.single(tokens)?;
        let (more, rest) = many(self.alloc, &AfterComma(&Single(self)), rest)?;
        Ok((sequence(self.alloc, first, more)?, rest))
    }

    /// A single expression after the word.
    #[tactic(auto, unfolding(crate::specs::private::Reading::governed))]
    pub(crate) fn after_word(
        &self,
        word: &str,
        tokens: &'a [Token],
    ) -> Result<(Boxed<Expr>, &'a [Token]), Fault>
        requires { Nests self.now.depth (F.pre self.now.single) (F.post self.now.single) }
        ensures { Parses result
            (spec.governed (spec.single self.now.depth) (name_lex word.now) (lexemes tokens.now)) }
    {
        let rest = expect_word(word, tokens)?;
        self.single(rest)
    }

    /// A single expression after the symbol.
    #[tactic(auto, unfolding(crate::specs::private::Reading::governed))]
    pub(crate) fn after_symbol(
        &self,
        symbol: Symbol,
        tokens: &'a [Token],
    ) -> Result<(Boxed<Expr>, &'a [Token]), Fault>
        requires { Nests self.now.depth (F.pre self.now.single) (F.post self.now.single) }
        ensures { Parses result
            (spec.governed (spec.single self.now.depth) (symbol_lex symbol) (lexemes tokens.now)) }
    {
        let rest = expect_symbol(symbol, tokens)?;
        self.single(rest)
    }

    /// Nothing before the closing symbol, or a whole expression.
    #[tactic(auto, unfolding(crate::specs::private::Reading::inside))]
    fn inside(
        &self,
        close: Symbol,
        tokens: &'a [Token],
    ) -> Result<(Boxed<Expr>, &'a [Token]), Fault>
        requires { Nests self.now.depth (F.pre self.now.single) (F.post self.now.single) }
        ensures { Parses result
            (spec.inside (spec.single self.now.depth) (symbol_lex close) (lexemes tokens.now)) }
    {
        if is_symbol(close, tokens) {
            let nothing = Expr::Sequence(Items::new(self.alloc));
            Ok((Boxed::new(self.alloc, nothing)?, tokens))
        } else {
            self.whole(tokens)
        }
    }

    #[tactic(auto, unfolding(crate::specs::private::Reading::body))]
    fn body(&self, tokens: &'a [Token]) -> Result<(Boxed<Expr>, &'a [Token]), Fault>
        requires { Nests self.now.depth (F.pre self.now.single) (F.post self.now.single) }
        ensures { Parses result (spec.body (spec.single self.now.depth) (lexemes tokens.now)) }
    {
        let rest = expect_symbol(Symbol::OpenBrace, tokens)?;
        let (content, rest) = self.inside(Symbol::CloseBrace, rest)?;
        let rest = expect_symbol(Symbol::CloseBrace, rest)?;
        Ok((content, rest))
    }

    #[tactic(auto, unfolding(crate::specs::private::Reading::computed))]
    fn computed(&self, tokens: &'a [Token]) -> Result<(ConstructorName, &'a [Token]), Fault>
        requires { Nests self.now.depth (F.pre self.now.single) (F.post self.now.single) }
        ensures { Parses result (spec.computed (spec.single self.now.depth) (lexemes tokens.now)) }
    {
        let rest = expect_symbol(Symbol::OpenBrace, tokens)?;
        let (name, rest) = self.whole(rest)?;
        let rest = expect_symbol(Symbol::CloseBrace, rest)?;
        Ok((ConstructorName::Computed(name), rest))
    }

    #[tactic(auto, unfolding(crate::specs::private::Reading::name_of_node))]
    fn name_of_node(&self, tokens: &'a [Token]) -> Result<(ConstructorName, &'a [Token]), Fault>
        requires { Nests self.now.depth (F.pre self.now.single) (F.post self.now.single) }
        ensures { Parses result
            (spec.name_of_node (spec.single self.now.depth) (lexemes tokens.now)) }
    {
        if begins_name(tokens) {
            let (name, rest) = qname(self.alloc, tokens)?;
            Ok((ConstructorName::Literal(name), rest))
        } else {
            self.computed(tokens)
        }
    }

    #[tactic(auto, unfolding(crate::specs::private::Reading::name_of_instruction))]
    fn name_of_instruction(
        &self,
        tokens: &'a [Token],
    ) -> Result<(ConstructorName, &'a [Token]), Fault>
        requires { Nests self.now.depth (F.pre self.now.single) (F.post self.now.single) }
        ensures { Parses result
            (spec.name_of_instruction (spec.single self.now.depth) (lexemes tokens.now)) }
    {
        if begins_nc(tokens) {
            let (local, rest) = ncname(self.alloc, tokens)?;
            Ok((
                ConstructorName::Literal(QName {
                    prefix: None,
                    local,
                }),
                rest,
            ))
        } else {
            self.computed(tokens)
        }
    }

    #[tactic(auto, unfolding(crate::specs::private::Reading::make_named))]
    fn make_named(&self, tokens: &'a [Token]) -> Result<(Boxed<Expr>, &'a [Token]), Fault>
        requires { Nests self.now.depth (F.pre self.now.single) (F.post self.now.single) }
        ensures { Parses result
            (spec.make_named (spec.single self.now.depth) (lexemes tokens.now)) }
    {
        let (node, rest) = one_of::<NamedNode>(tokens)?;
        let (name, rest) = self.name_of_node(rest)?;
        let (content, rest) = self.body(rest)?;
        Ok((named_node(self.alloc, node, name, content)?, rest))
    }

    fn instruction_parts(
        &self,
        tokens: &'a [Token],
    ) -> Result<((ConstructorName, Boxed<Expr>), &'a [Token]), Fault>
        requires { Nests self.now.depth (F.pre self.now.single) (F.post self.now.single) }
        ensures { Parses result
            (spec.both (spec.name_of_instruction (spec.single self.now.depth))
            (spec.body (spec.single self.now.depth)) (lexemes tokens.now)) }
    {
        let (name, rest) = self.name_of_instruction(tokens)?;
        let (content, rest) = self.body(rest)?;
        Ok(((name, content), rest))
    }

    fn instruction_after(
        &self,
        word: &str,
        tokens: &'a [Token],
    ) -> Result<(Boxed<Expr>, &'a [Token]), Fault>
        requires { Nests self.now.depth (F.pre self.now.single) (F.post self.now.single) }
        ensures { Parses result
            (spec.mapped g.instruction
            (spec.after (name_lex word.now)
            (spec.both (spec.name_of_instruction (spec.single self.now.depth))
            (spec.body (spec.single self.now.depth)))) (lexemes tokens.now)) }
    {
        let rest = expect_word(word, tokens)?;
        let ((name, content), rest) = self.instruction_parts(rest)?;
        let node = NamedNode::ProcessingInstruction;
        Ok((named_node(self.alloc, node, name, content)?, rest))
    }

    #[tactic(auto, unfolding(crate::specs::private::Reading::make_instruction))]
    fn make_instruction(&self, tokens: &'a [Token]) -> Result<(Boxed<Expr>, &'a [Token]), Fault>
        requires { Nests self.now.depth (F.pre self.now.single) (F.post self.now.single) }
        ensures { Parses result
            (spec.make_instruction (spec.single self.now.depth) (lexemes tokens.now)) }
    {
        self.instruction_after("processing-instruction", tokens)
    }

    #[tactic(auto, unfolding(crate::specs::private::Reading::make_unnamed))]
    fn make_unnamed(&self, tokens: &'a [Token]) -> Result<(Boxed<Expr>, &'a [Token]), Fault>
        requires { Nests self.now.depth (F.pre self.now.single) (F.post self.now.single) }
        ensures { Parses result
            (spec.make_unnamed (spec.single self.now.depth) (lexemes tokens.now)) }
    {
        let (node, rest) = one_of::<UnnamedNode>(tokens)?;
        let (content, rest) = self.body(rest)?;
        Ok((unnamed_node(self.alloc, node, content)?, rest))
    }

    /// A constructor of a processing instruction, or of a node without a name.
    fn make_other(&self, tokens: &'a [Token]) -> Result<(Boxed<Expr>, &'a [Token]), Fault>
        requires { Nests self.now.depth (F.pre self.now.single) (F.post self.now.single) }
        ensures { Parses result
            (spec.choose (spec.is (look.word "processing-instruction"))
            (spec.make_instruction (spec.single self.now.depth))
            (spec.make_unnamed (spec.single self.now.depth)) (lexemes tokens.now)) }
    {
        if is_word("processing-instruction", tokens) {
            self.make_instruction(tokens)
        } else {
            self.make_unnamed(tokens)
        }
    }

    /// A constructor.
    #[tactic(auto, unfolding(crate::specs::private::Reading::make))]
    pub(crate) fn make(&self, tokens: &'a [Token]) -> Result<(Boxed<Expr>, &'a [Token]), Fault>
        requires { Nests self.now.depth (F.pre self.now.single) (F.post self.now.single) }
        ensures { Parses result (spec.make (spec.single self.now.depth) (lexemes tokens.now)) }
    {
        if begins::<NamedNode>(tokens) {
            self.make_named(tokens)
        } else {
            self.make_other(tokens)
        }
    }

    #[tactic(auto, unfolding(crate::specs::private::Reading::argument_list))]
    fn argument_list(&self, tokens: &'a [Token]) -> Result<(Items<Expr>, &'a [Token]), Fault>
        requires { Nests self.now.depth (F.pre self.now.single) (F.post self.now.single) }
        ensures { Parses result
            (spec.argument_list (spec.single self.now.depth) (lexemes tokens.now)) }
    {
        if is_symbol(Symbol::CloseParenthesis, tokens) {
            Ok((Items::new(self.alloc), tokens))
        } else {
            commas(self.alloc, &Single(self), tokens)
        }
    }

    #[tactic(auto, unfolding(crate::specs::private::Reading::arguments))]
    fn arguments(&self, tokens: &'a [Token]) -> Result<(Items<Expr>, &'a [Token]), Fault>
        requires { Nests self.now.depth (F.pre self.now.single) (F.post self.now.single) }
        ensures { Parses result (spec.arguments (spec.single self.now.depth) (lexemes tokens.now)) }
    {
        let rest = expect_symbol(Symbol::OpenParenthesis, tokens)?;
        let (arguments, rest) = self.argument_list(rest)?;
        let rest = expect_symbol(Symbol::CloseParenthesis, rest)?;
        Ok((arguments, rest))
    }

    /// The name of a function and its arguments.
    #[tactic(auto, unfolding(crate::specs::private::Reading::called))]
    pub(crate) fn called(
        &self,
        tokens: &'a [Token],
    ) -> Result<((QName, Items<Expr>), &'a [Token]), Fault>
        requires { Nests self.now.depth (F.pre self.now.single) (F.post self.now.single) }
        ensures { Parses result (spec.called (spec.single self.now.depth) (lexemes tokens.now)) }
    {
        let (name, rest) = call_name(self.alloc, tokens)?;
        let (arguments, rest) = self.arguments(rest)?;
        Ok(((name, arguments), rest))
    }

    /// A call of a function.
    #[tactic(auto, unfolding(crate::specs::private::Reading::call))]
    fn call(&self, tokens: &'a [Token]) -> Result<(Boxed<Expr>, &'a [Token]), Fault>
        requires { Nests self.now.depth (F.pre self.now.single) (F.post self.now.single) }
        ensures { Parses result (spec.call (spec.single self.now.depth) (lexemes tokens.now)) }
    {
        let ((name, arguments), rest) = self.called(tokens)?;
        let call = Expr::Call(name, arguments);
        Ok((Boxed::new(self.alloc, call)?, rest))
    }

    #[tactic(auto, unfolding(crate::specs::private::Reading::parenthesised))]
    fn parenthesised(&self, tokens: &'a [Token]) -> Result<(Boxed<Expr>, &'a [Token]), Fault>
        requires { Nests self.now.depth (F.pre self.now.single) (F.post self.now.single) }
        ensures { Parses result
            (spec.parenthesised (spec.single self.now.depth) (lexemes tokens.now)) }
    {
        let rest = expect_symbol(Symbol::OpenParenthesis, tokens)?;
        let (value, rest) = self.inside(Symbol::CloseParenthesis, rest)?;
        let rest = expect_symbol(Symbol::CloseParenthesis, rest)?;
        Ok((value, rest))
    }

    #[tactic(auto, unfolding(crate::specs::private::Reading::call_or_make))]
    fn call_or_make(&self, tokens: &'a [Token]) -> Result<(Boxed<Expr>, &'a [Token]), Fault>
        requires { Nests self.now.depth (F.pre self.now.single) (F.post self.now.single) }
        ensures { Parses result
            (spec.call_or_make (spec.single self.now.depth) (lexemes tokens.now)) }
    {
        if begins_call(tokens) {
            self.call(tokens)
        } else {
            self.make(tokens)
        }
    }

    /// A primary expression.
    #[tactic(auto, unfolding(crate::specs::private::Reading::primary, crate::specs::private::Reading::begins, crate::specs::private::Reading::one_of, crate::specs::Look::lookup, crate::specs::Look::same, crate::specs::Look::same_symbol))]
    pub(crate) fn primary(&self, tokens: &'a [Token]) -> Result<(Boxed<Expr>, &'a [Token]), Fault>
        requires { Nests self.now.depth (F.pre self.now.single) (F.post self.now.single) }
        ensures { Parses result (spec.primary (spec.single self.now.depth) (lexemes tokens.now)) }
    {
        let [first, rest @ ..] = tokens else {
            return self.call_or_make(tokens);
        };
        let value = match first {
            Token::Int(value) => Expr::Int(*value),
            Token::Dec(value) => Expr::Dec(*value),
            Token::Str(value) => Expr::Str(Text::copy_of(self.alloc, value.as_str())?),
            Token::Sym(Symbol::Dot) => Expr::ContextItem,
            Token::Sym(Symbol::Dollar) => return self.variable_reference(tokens),
            Token::Sym(Symbol::OpenParenthesis) => return self.parenthesised(tokens),
            _ => return self.call_or_make(tokens),
        };
        Ok((Boxed::new(self.alloc, value)?, rest))
    }

    /// A variable as an expression.
    fn variable_reference(&self, tokens: &'a [Token]) -> Result<(Boxed<Expr>, &'a [Token]), Fault>
        ensures { Parses result (spec.mapped e.Variable spec.variable (lexemes tokens.now)) }
    {
        let (name, rest) = variable(self.alloc, tokens)?;
        Ok((Boxed::new(self.alloc, Expr::Variable(name))?, rest))
    }
}

/// A single expression of a list.
#[derive(Drop)]
struct Single<'g, F>(&'g Grammar<F>);

impl<'a, 'g, F: Fn(Global, usize, &'a [Token]) -> Result<(Boxed<Expr>, &'a [Token]), Fault>> Phrase<
    'a,
> for Single<'g, F> {
    type Value = Expr;

    ghost ready = { λ it. Nests it.0.now.depth (F.pre it.0.now.single) (F.post it.0.now.single) };

    ghost reader = { λ it. spec.single it.0.now.depth };

    fn read(&self, tokens: &'a [Token]) -> Result<(Expr, &'a [Token]), Fault> {
        let (item, rest) = self.0.single(tokens)?;
        Ok((item.into_inner(), rest))
    }
}
