//! Expressions of rules as nodes.
ghost use Rattle.base_ast.specs.Ast.{expression_of};
ghost use Rattle.base_ast.specs.Weight.{weight};
ghost use Rattle.format_binary.specs.Format.{expression_bytes};

use crate::expressions::AsNodes;
use crate::nodes::{BinaryNode, NodeOperands};
use base_ast::ast::Expr;

impl AsNodes for Expr {
    ghost bytes = { expression_bytes };

    ghost heft = { λ expr. weight (expression_of expr) };

    fn top(&self) -> (BinaryNode<'_>, NodeOperands<'_, Expr>) {
        match self {
            Expr::Str(text) => (BinaryNode::Str(text.as_str()), NodeOperands::None),
            Expr::Insens(text) => (BinaryNode::Insens(text.as_str()), NodeOperands::None),
            Expr::Range(low, high) => (
                BinaryNode::Range(low.as_str(), high.as_str()),
                NodeOperands::None,
            ),
            Expr::Ident(name) => (BinaryNode::Ident(name.as_str()), NodeOperands::None),
            Expr::PeekSlice(start, end) => (
                BinaryNode::PeekSlice(*start, *end),
                NodeOperands::None,
            ),
            Expr::PosPred(inner) => (BinaryNode::PosPred, NodeOperands::One(inner)),
            Expr::NegPred(inner) => (BinaryNode::NegPred, NodeOperands::One(inner)),
            Expr::Seq(left, right) => (BinaryNode::Seq, NodeOperands::Two(left, right)),
            Expr::Choice(left, right) => (BinaryNode::Choice, NodeOperands::Two(left, right)),
            Expr::Opt(inner) => (BinaryNode::Opt, NodeOperands::One(inner)),
            Expr::Rep(inner) => (BinaryNode::Rep, NodeOperands::One(inner)),
            Expr::RepOnce(inner) => (BinaryNode::RepOnce, NodeOperands::One(inner)),
            Expr::RepExact(inner, count) => (
                BinaryNode::RepExact(*count),
                NodeOperands::One(inner),
            ),
            Expr::RepMin(inner, least) => (BinaryNode::RepMin(*least), NodeOperands::One(inner)),
            Expr::RepMax(inner, greatest) => (
                BinaryNode::RepMax(*greatest),
                NodeOperands::One(inner),
            ),
            Expr::RepMinMax(inner, least, greatest) => {
                (
                    BinaryNode::RepMinMax(*least, *greatest),
                    NodeOperands::One(inner),
                )
            }
            Expr::Skip(texts) => (BinaryNode::Skip(texts.as_slice()), NodeOperands::None),
            Expr::Push(inner) => (BinaryNode::Push, NodeOperands::One(inner)),
            Expr::PushLiteral(text) => (BinaryNode::PushLiteral(text.as_str()), NodeOperands::None),
            Expr::NodeTag(inner, tag) => (
                BinaryNode::NodeTag(tag.as_str()),
                NodeOperands::One(inner),
            ),
        }
    }
}
