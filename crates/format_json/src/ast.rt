//! Expressions of rules as nodes.
ghost use Rattle.base_ast.specs.Ast.{expression_of};
ghost use Rattle.base_ast.specs.Weight.{weight};
ghost use Rattle.format_json.specs.Format.{nodes_of};

use crate::expressions::{AsNodes, FromNodes, NodeOperands, one_operand, two_operands};
use crate::nodes::{JsonNode, copies};
use crate::refusal::{RefusalReason, Unread};
use base_ast::ast::Expr;
use base_ast::deep::Deep;
use std::alloc::{AllocError, Global};

impl AsNodes for Expr {
    ghost nodes = { nodes_of };

    ghost heft = { λ expr. weight (expression_of expr) };

    fn top(&self, alloc: Global) -> Result<(JsonNode<'_>, NodeOperands<'_, Expr>), AllocError> {
        Ok(match self {
            Expr::Str(text) => (JsonNode::Str(text.as_str()), NodeOperands::None),
            Expr::Insens(text) => (JsonNode::Insens(text.as_str()), NodeOperands::None),
            Expr::Range(low, high) => (
                JsonNode::Range(low.as_str(), high.as_str()),
                NodeOperands::None,
            ),
            Expr::Ident(name) => (JsonNode::Ident(name.as_str()), NodeOperands::None),
            Expr::PeekSlice(start, end) => (JsonNode::PeekSlice(*start, *end), NodeOperands::None),
            Expr::PosPred(inner) => (JsonNode::PosPred, NodeOperands::One(inner)),
            Expr::NegPred(inner) => (JsonNode::NegPred, NodeOperands::One(inner)),
            Expr::Seq(left, right) => (JsonNode::Seq, NodeOperands::Two(left, right)),
            Expr::Choice(left, right) => (JsonNode::Choice, NodeOperands::Two(left, right)),
            Expr::Opt(inner) => (JsonNode::Opt, NodeOperands::One(inner)),
            Expr::Rep(inner) => (JsonNode::Rep, NodeOperands::One(inner)),
            Expr::RepOnce(inner) => (JsonNode::RepOnce, NodeOperands::One(inner)),
            Expr::RepExact(inner, count) => (JsonNode::RepExact(*count), NodeOperands::One(inner)),
            Expr::RepMin(inner, least) => (JsonNode::RepMin(*least), NodeOperands::One(inner)),
            Expr::RepMax(inner, greatest) => (
                JsonNode::RepMax(*greatest),
                NodeOperands::One(inner),
            ),
            Expr::RepMinMax(inner, least, greatest) => {
                (
                    JsonNode::RepMinMax(*least, *greatest),
                    NodeOperands::One(inner),
                )
            }
            Expr::Skip(texts) => (
                JsonNode::Skip(copies(alloc, texts.as_slice())?),
                NodeOperands::None,
            ),
            Expr::Push(inner) => (JsonNode::Push, NodeOperands::One(inner)),
            Expr::PushLiteral(text) => (JsonNode::PushLiteral(text.as_str()), NodeOperands::None),
            Expr::NodeTag(inner, tag) => (
                JsonNode::NodeTag(tag.as_str()),
                NodeOperands::One(inner),
            ),
        })
    }
}

impl FromNodes for Expr {
    #[tactic(auto, using(crate::proofs::Turns::in_turn_last, crate::proofs::Turns::in_turn_last_two))]
    fn of_node(
        alloc: Global,
        node: &JsonNode<'_>,
        operands: &mut Deep<Vec<Expr>>,
    ) -> Result<Expr, Unread> {
        Ok(match node {
            JsonNode::Str(text) => Expr::Str(String::from_str(alloc, text)?),
            JsonNode::Insens(text) => Expr::Insens(String::from_str(alloc, text)?),
            JsonNode::Range(low, high) => {
                let low = String::from_str(alloc, low)?;
                Expr::Range(low, String::from_str(alloc, high)?)
            }
            JsonNode::Ident(name) => Expr::Ident(String::from_str(alloc, name)?),
            JsonNode::PeekSlice(start, end) => Expr::PeekSlice(*start, *end),
            JsonNode::PosPred => Expr::PosPred(one_operand(alloc, operands)?),
            JsonNode::NegPred => Expr::NegPred(one_operand(alloc, operands)?),
            JsonNode::Seq => {
                let (left, right) = two_operands(alloc, operands)?;
                Expr::Seq(left, right)
            }
            JsonNode::Choice => {
                let (left, right) = two_operands(alloc, operands)?;
                Expr::Choice(left, right)
            }
            JsonNode::Opt => Expr::Opt(one_operand(alloc, operands)?),
            JsonNode::Rep => Expr::Rep(one_operand(alloc, operands)?),
            JsonNode::RepOnce => Expr::RepOnce(one_operand(alloc, operands)?),
            JsonNode::RepExact(count) => Expr::RepExact(one_operand(alloc, operands)?, *count),
            JsonNode::RepMin(least) => Expr::RepMin(one_operand(alloc, operands)?, *least),
            JsonNode::RepMax(greatest) => Expr::RepMax(one_operand(alloc, operands)?, *greatest),
            JsonNode::RepMinMax(least, greatest) => {
                Expr::RepMinMax(one_operand(alloc, operands)?, *least, *greatest)
            }
            JsonNode::Skip(texts) => Expr::Skip(copies(alloc, texts)?),
            JsonNode::Push => Expr::Push(one_operand(alloc, operands)?),
            JsonNode::PushLiteral(text) => Expr::PushLiteral(String::from_str(alloc, text)?),
            JsonNode::NodeTag(tag) => {
                let tag = String::from_str(alloc, tag)?;
                Expr::NodeTag(one_operand(alloc, operands)?, tag)
            }
            JsonNode::RestoreOnErr => return Err(Unread::Reason(RefusalReason::Form)),
        })
    }
}
