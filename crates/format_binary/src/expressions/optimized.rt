//! Expressions of optimized rules as nodes.
ghost use Rattle.base_ast.specs.Optimized.{optimized_expression_of};
ghost use Rattle.base_ast.specs.Weight.{weight};
ghost use Rattle.format_binary.specs.Format.{optimized_expression_bytes};

use crate::expressions::AsNodes;
use crate::nodes::{BinaryNode, NodeOperands};
use base_ast::optimized::OptimizedExpr;

impl AsNodes for OptimizedExpr {
    ghost bytes = { optimized_expression_bytes };

    ghost heft = { λ expr. weight (optimized_expression_of expr) };

    fn top(&self) -> (BinaryNode<'_>, NodeOperands<'_, OptimizedExpr>) {
        match self {
            OptimizedExpr::Str(text) => (BinaryNode::Str(text.as_str()), NodeOperands::None),
            OptimizedExpr::Insens(text) => (BinaryNode::Insens(text.as_str()), NodeOperands::None),
            OptimizedExpr::Range(low, high) => (
                BinaryNode::Range(low.as_str(), high.as_str()),
                NodeOperands::None,
            ),
            OptimizedExpr::Ident(name) => (BinaryNode::Ident(name.as_str()), NodeOperands::None),
            OptimizedExpr::PeekSlice(start, end) => (
                BinaryNode::PeekSlice(*start, *end),
                NodeOperands::None,
            ),
            OptimizedExpr::PosPred(inner) => (BinaryNode::PosPred, NodeOperands::One(inner)),
            OptimizedExpr::NegPred(inner) => (BinaryNode::NegPred, NodeOperands::One(inner)),
            OptimizedExpr::Seq(left, right) => (BinaryNode::Seq, NodeOperands::Two(left, right)),
            OptimizedExpr::Choice(left, right) => (
                BinaryNode::Choice,
                NodeOperands::Two(left, right),
            ),
            OptimizedExpr::Opt(inner) => (BinaryNode::Opt, NodeOperands::One(inner)),
            OptimizedExpr::Rep(inner) => (BinaryNode::Rep, NodeOperands::One(inner)),
            OptimizedExpr::RepOnce(inner) => (BinaryNode::RepOnce, NodeOperands::One(inner)),
            OptimizedExpr::RestoreOnErr(inner) => (
                BinaryNode::RestoreOnErr,
                NodeOperands::One(inner),
            ),
            OptimizedExpr::Skip(texts) => (BinaryNode::Skip(texts.as_slice()), NodeOperands::None),
            OptimizedExpr::Push(inner) => (BinaryNode::Push, NodeOperands::One(inner)),
            OptimizedExpr::PushLiteral(text) => (
                BinaryNode::PushLiteral(text.as_str()),
                NodeOperands::None,
            ),
            OptimizedExpr::NodeTag(inner, tag) => (
                BinaryNode::NodeTag(tag.as_str()),
                NodeOperands::One(inner),
            ),
        }
    }
}
