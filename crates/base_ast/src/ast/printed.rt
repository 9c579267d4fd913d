//! Expressions as text.
ghost use Rattle.std.specs.Prelude.{Some, encode_utf8_all};
ghost use Rattle.base_ast.specs.Ast.{expression_of};
ghost use Rattle.base_ast.specs.Printing.{printed};
ghost use Rattle.base_ast.specs.PrintedBytes.{written_bytes};
ghost use Rattle.base_ast.specs.Weight.{weight};

use super::Expr;
use crate::printing::Counts;
use crate::printing::pieces::{Leaf, Parts, Printed, fmt_printed};
use std::fmt;

/// Prints an expression as the text of a grammar.
///
/// Literals are quoted and escaped. A sequence and a choice are in parentheses, and one nested to their
/// right has none of its own: `(a ~ b ~ c)`, `(a | b | c)`. A predicate has parentheses before a postfix
/// operator alone: `(!e)?`. Of a range's bounds the first characters are printed, and of an empty bound
/// nothing: `('a'..'z')`. A tagged expression is in parentheses with its tag: `(#tag = e)`.
///
/// Uses an explicit stack of pieces. Fails if memory for the stack is refused.
impl fmt::Display for Expr {
    ghost output = { λ expr. Some (encode_utf8_all (printed (expression_of expr))) };

    fn fmt<W: fmt::Write>(&self, f: &mut fmt::Formatter<W>) -> fmt::Result {
        fmt_printed(f, self)
    }
}

impl Printed for Expr {
    ghost bytes = { written_bytes };

    ghost heft = { λ expr. weight (expression_of expr) };

    fn parts(&self) -> Parts<'_, Expr> {
        match self {
            Expr::Str(text) => Parts::Leaf(Leaf::Str(text.as_str())),
            Expr::Insens(text) => Parts::Leaf(Leaf::Insens(text.as_str())),
            Expr::Range(low, high) => Parts::Leaf(Leaf::Range(low.as_str(), high.as_str())),
            Expr::Ident(name) => Parts::Leaf(Leaf::Ident(name.as_str())),
            Expr::PeekSlice(start, end) => Parts::Leaf(Leaf::PeekSlice(*start, *end)),
            Expr::PosPred(inner) => Parts::Predicate("&", inner),
            Expr::NegPred(inner) => Parts::Predicate("!", inner),
            Expr::Seq(left, right) => Parts::Sequence(left, right),
            Expr::Choice(left, right) => Parts::Choice(left, right),
            Expr::Opt(inner) => Parts::Postfix(inner, "?"),
            Expr::Rep(inner) => Parts::Postfix(inner, "*"),
            Expr::RepOnce(inner) => Parts::Postfix(inner, "+"),
            Expr::RepExact(inner, count) => Parts::Counted(inner, Counts::Exactly(*count)),
            Expr::RepMin(inner, least) => Parts::Counted(inner, Counts::AtLeast(*least)),
            Expr::RepMax(inner, greatest) => Parts::Counted(inner, Counts::AtMost(*greatest)),
            Expr::RepMinMax(inner, least, greatest) => {
                Parts::Counted(inner, Counts::Between(*least, *greatest))
            }
            Expr::Skip(texts) => Parts::Leaf(Leaf::Skip(texts.as_slice())),
            Expr::Push(inner) => Parts::Push(inner),
            Expr::PushLiteral(text) => Parts::Leaf(Leaf::PushLiteral(text.as_str())),
            Expr::NodeTag(inner, tag) => Parts::Tag(tag.as_str(), inner),
        }
    }
}
