//! Expressions of optimized rules as nodes.
ghost use Rattle.base_ast.specs.Optimized.{optimized_expression_of};
ghost use Rattle.base_ast.specs.Weight.{weight};
ghost use Rattle.format_json.specs.Format.{optimized_nodes_of};

use crate::expressions::{AsNodes, FromNodes, NodeOperands, one_operand, two_operands};
use crate::nodes::{JsonNode, copies};
use crate::refusal::{RefusalReason, Unread};
use base_ast::deep::Deep;
use base_ast::optimized::OptimizedExpr;
use std::alloc::{AllocError, Global};

impl AsNodes for OptimizedExpr {
    ghost nodes = { optimized_nodes_of };

    ghost heft = { λ expr. weight (optimized_expression_of expr) };

    fn top(
        &self,
        alloc: Global,
    ) -> Result<(JsonNode<'_>, NodeOperands<'_, OptimizedExpr>), AllocError> {
        Ok(match self {
            OptimizedExpr::Str(text) => (JsonNode::Str(text.as_str()), NodeOperands::None),
            OptimizedExpr::Insens(text) => (JsonNode::Insens(text.as_str()), NodeOperands::None),
            OptimizedExpr::Range(low, high) => (
                JsonNode::Range(low.as_str(), high.as_str()),
                NodeOperands::None,
            ),
            OptimizedExpr::Ident(name) => (JsonNode::Ident(name.as_str()), NodeOperands::None),
            OptimizedExpr::PeekSlice(start, end) => (
                JsonNode::PeekSlice(*start, *end),
                NodeOperands::None,
            ),
            OptimizedExpr::PosPred(inner) => (JsonNode::PosPred, NodeOperands::One(inner)),
            OptimizedExpr::NegPred(inner) => (JsonNode::NegPred, NodeOperands::One(inner)),
            OptimizedExpr::Seq(left, right) => (JsonNode::Seq, NodeOperands::Two(left, right)),
            OptimizedExpr::Choice(left, right) => (
                JsonNode::Choice,
                NodeOperands::Two(left, right),
            ),
            OptimizedExpr::Opt(inner) => (JsonNode::Opt, NodeOperands::One(inner)),
            OptimizedExpr::Rep(inner) => (JsonNode::Rep, NodeOperands::One(inner)),
            OptimizedExpr::RepOnce(inner) => (JsonNode::RepOnce, NodeOperands::One(inner)),
            OptimizedExpr::RestoreOnErr(inner) => (
                JsonNode::RestoreOnErr,
                NodeOperands::One(inner),
            ),
            OptimizedExpr::Skip(texts) => (
                JsonNode::Skip(copies(alloc, texts.as_slice())?),
                NodeOperands::None,
            ),
            OptimizedExpr::Push(inner) => (JsonNode::Push, NodeOperands::One(inner)),
            OptimizedExpr::PushLiteral(text) => (
                JsonNode::PushLiteral(text.as_str()),
                NodeOperands::None,
            ),
            OptimizedExpr::NodeTag(inner, tag) => (
                JsonNode::NodeTag(tag.as_str()),
                NodeOperands::One(inner),
            ),
        })
    }
}

impl FromNodes for OptimizedExpr {
    #[tactic(auto, using(crate::proofs::Turns::in_turn_last, crate::proofs::Turns::in_turn_last_two))]
    fn of_node(
        alloc: Global,
        node: &JsonNode<'_>,
        operands: &mut Deep<Vec<OptimizedExpr>>,
    ) -> Result<OptimizedExpr, Unread> {
        Ok(match node {
            JsonNode::Str(text) => OptimizedExpr::Str(String::from_str(alloc, text)?),
            JsonNode::Insens(text) => OptimizedExpr::Insens(String::from_str(alloc, text)?),
            JsonNode::Range(low, high) => {
                let low = String::from_str(alloc, low)?;
                OptimizedExpr::Range(low, String::from_str(alloc, high)?)
            }
            JsonNode::Ident(name) => OptimizedExpr::Ident(String::from_str(alloc, name)?),
            JsonNode::PeekSlice(start, end) => OptimizedExpr::PeekSlice(*start, *end),
            JsonNode::PosPred => OptimizedExpr::PosPred(one_operand(alloc, operands)?),
            JsonNode::NegPred => OptimizedExpr::NegPred(one_operand(alloc, operands)?),
            JsonNode::Seq => {
                let (left, right) = two_operands(alloc, operands)?;
                OptimizedExpr::Seq(left, right)
            }
            JsonNode::Choice => {
                let (left, right) = two_operands(alloc, operands)?;
                OptimizedExpr::Choice(left, right)
            }
            JsonNode::Opt => OptimizedExpr::Opt(one_operand(alloc, operands)?),
            JsonNode::Rep => OptimizedExpr::Rep(one_operand(alloc, operands)?),
            JsonNode::RepOnce => OptimizedExpr::RepOnce(one_operand(alloc, operands)?),
            JsonNode::Skip(texts) => OptimizedExpr::Skip(copies(alloc, texts)?),
            JsonNode::Push => OptimizedExpr::Push(one_operand(alloc, operands)?),
            JsonNode::PushLiteral(text) => {
                OptimizedExpr::PushLiteral(String::from_str(alloc, text)?)
            }
            JsonNode::NodeTag(tag) => {
                let tag = String::from_str(alloc, tag)?;
                OptimizedExpr::NodeTag(one_operand(alloc, operands)?, tag)
            }
            JsonNode::RestoreOnErr => OptimizedExpr::RestoreOnErr(one_operand(alloc, operands)?),
            JsonNode::RepExact(_)
            | JsonNode::RepMin(_)
            | JsonNode::RepMax(_)
            | JsonNode::RepMinMax(_, _) => { return Err(Unread::Reason(RefusalReason::Form)) }
        })
    }
}
