//! Optimized expressions as text.
ghost use Rattle.std.specs.Prelude.{Some, encode_utf8_all};
ghost use Rattle.base_ast.specs.Optimized.{optimized_expression_of};
ghost use Rattle.base_ast.specs.Printing.{printed};
ghost use Rattle.base_ast.specs.PrintedBytes.{optimized_bytes};
ghost use Rattle.base_ast.specs.Weight.{weight};

use super::OptimizedExpr;
use crate::printing::pieces::{Leaf, Parts, Printed, fmt_printed};
use std::fmt;

/// Prints an expression as the text of a grammar, by the rules of [`Expr`](crate::ast::Expr)'s.
///
/// A wrapper prints as its operand: a predicate in it has parentheses before a postfix operator, `(!e)?`,
/// and a sequence or a choice in it always.
impl fmt::Display for OptimizedExpr {
    ghost output = { λ expr. Some (encode_utf8_all (printed (optimized_expression_of expr))) };

    fn fmt<W: fmt::Write>(&self, f: &mut fmt::Formatter<W>) -> fmt::Result {
        fmt_printed(f, self)
    }
}

impl Printed for OptimizedExpr {
    ghost bytes = { optimized_bytes };

    ghost heft = { λ expr. weight (optimized_expression_of expr) };

    fn parts(&self) -> Parts<'_, OptimizedExpr> {
        match self {
            OptimizedExpr::Str(text) => Parts::Leaf(Leaf::Str(text.as_str())),
            OptimizedExpr::Insens(text) => Parts::Leaf(Leaf::Insens(text.as_str())),
            OptimizedExpr::Range(low, high) => Parts::Leaf(Leaf::Range(
                low.as_str(),
                high.as_str(),
            )),
            OptimizedExpr::Ident(name) => Parts::Leaf(Leaf::Ident(name.as_str())),
            OptimizedExpr::PeekSlice(start, end) => Parts::Leaf(Leaf::PeekSlice(*start, *end)),
            OptimizedExpr::PosPred(inner) => Parts::Predicate("&", inner),
            OptimizedExpr::NegPred(inner) => Parts::Predicate("!", inner),
            OptimizedExpr::Seq(left, right) => Parts::Sequence(left, right),
            OptimizedExpr::Choice(left, right) => Parts::Choice(left, right),
            OptimizedExpr::Opt(inner) => Parts::Postfix(inner, "?"),
            OptimizedExpr::Rep(inner) => Parts::Postfix(inner, "*"),
            OptimizedExpr::RepOnce(inner) => Parts::Postfix(inner, "+"),
            OptimizedExpr::Skip(texts) => Parts::Leaf(Leaf::Skip(texts.as_slice())),
            OptimizedExpr::Push(inner) => Parts::Push(inner),
            OptimizedExpr::PushLiteral(text) => Parts::Leaf(Leaf::PushLiteral(text.as_str())),
            OptimizedExpr::NodeTag(inner, tag) => Parts::Tag(tag.as_str(), inner),
            OptimizedExpr::RestoreOnErr(inner) => Parts::Wrapper(inner),
        }
    }
}
