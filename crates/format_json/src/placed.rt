//! Rules with the spans of their nodes as JSON.
ghost use Rattle.std.specs.Prelude.{◌≡◌, IfOk, string_bytes};
ghost use Rattle.serde_json.specs.View.{view as value_view};
ghost use Rattle.serde_json.specs.Written.{compact_text};
ghost use Rattle.base_ast.specs.Weight.{weight};
ghost use Rattle.front_spanned.specs.Erasure.{without_spans};
ghost use Rattle.front_spanned.specs.Nodes.{piece_of, view};
ghost use Rattle.format_json.specs.Placed.{nodes_of_placed, placed_rule_data, placed_rules_data, span_data, spans_data};

use crate::expressions::{AsNodes, NodeOperands, nodes_of};
use crate::members::put_text;
use crate::nodes::JsonNode;
use crate::rules::name_of_type;
use base_language::runtime::Span;
use front_spanned::{ParserExpr, ParserNode, ParserRule, push_operands};
use serde_json::{Map, Value, json, put};
use std::alloc::{AllocError, Global};

/// Returns rules with the spans of their names and nodes as JSON. The only error is an allocation failure.
#[tactic(auto, using(crate::proofs::PlacedFloats::placed_without_floats))]
pub fn nodes_text(alloc: Global, rules: &[ParserRule<'_>]) -> Result<String, AllocError>
    ensures { IfOk result (λ text. string_bytes text ≡ compact_text (placed_rules_data rules.now)) }
{
    placed_rules_value(alloc, rules)?.to_string(alloc)
}

/// Returns rules with spans as a value.
fn placed_rules_value(alloc: Global, rules: &[ParserRule<'_>]) -> Result<Value, AllocError>
    ensures { IfOk result (λ value. value_view value ≡ placed_rules_data rules.now) }
{
    let mut values = Vec::new(alloc);
    for rule in rules {
        values.push(placed_rule_value(alloc, rule)?)?;
    }
    Ok(Value::Array(values))
}

/// Returns a rule with spans as a value.
fn placed_rule_value(alloc: Global, rule: &ParserRule<'_>) -> Result<Value, AllocError>
    ensures { IfOk result (λ value. value_view value ≡ placed_rule_data rule.now) }
{
    let mut members = Map::new(alloc);
    let nodes = nodes_of(alloc, &rule.node)?;
    put(&mut members, alloc, "expr", Value::Array(nodes))?;
    put_text(alloc, &mut members, "name", rule.name.as_str())?;
    let name_span = span_value(alloc, &rule.span)?;
    put(&mut members, alloc, "name_span", name_span)?;
    let spans = spans_value(alloc, &rule.node)?;
    put(&mut members, alloc, "spans", spans)?;
    put_text(alloc, &mut members, "type", name_of_type(rule.ty))?;
    Ok(Value::Object(members))
}

/// Returns the spans of a node and its descendants in preorder, as a value.
fn spans_value(alloc: Global, node: &ParserNode<'_>) -> Result<Value, AllocError>
    ensures { IfOk result (λ value. value_view value ≡ spans_data (view node.now)) }
{
    let mut spans = Vec::new(alloc);
    let mut waiting = Vec::new(alloc);
    waiting.push(node)?;
    while let Some(next) = waiting.pop() {
        spans.push(span_value(alloc, &next.span)?)?;
        push_operands(next, &mut waiting)?;
    }
    Ok(Value::Array(spans))
}

/// Returns a span as a value.
fn span_value(alloc: Global, span: &Span<'_>) -> Result<Value, AllocError>
    ensures { IfOk result (λ value. value_view value ≡ span_data (piece_of span.now)) }
{
    json!(in alloc; [span.start(), span.end()])
}

impl<'i> AsNodes for ParserNode<'i> {
    ghost nodes = { λ node. nodes_of_placed node.expr };

    ghost heft = { λ node. weight (without_spans (view node)) };

    fn top(
        &self,
        _alloc: Global,
    ) -> Result<(JsonNode<'_>, NodeOperands<'_, ParserNode<'i>>), AllocError> {
        use ParserExpr as E;
        Ok(match &self.expr {
            E::Str(text) => (JsonNode::Str(text.as_str()), NodeOperands::None),
            E::Insens(text) => (JsonNode::Insens(text.as_str()), NodeOperands::None),
            E::Range(low, high) => (
                JsonNode::Range(low.as_str(), high.as_str()),
                NodeOperands::None,
            ),
            E::Ident(name) => (JsonNode::Ident(name.as_str()), NodeOperands::None),
            E::PeekSlice(start, end) => (JsonNode::PeekSlice(*start, *end), NodeOperands::None),
            E::PosPred(inner) => (JsonNode::PosPred, NodeOperands::One(inner)),
            E::NegPred(inner) => (JsonNode::NegPred, NodeOperands::One(inner)),
            E::Seq(left, right) => (JsonNode::Seq, NodeOperands::Two(left, right)),
            E::Choice(left, right) => (JsonNode::Choice, NodeOperands::Two(left, right)),
            E::Opt(inner) => (JsonNode::Opt, NodeOperands::One(inner)),
            E::Rep(inner) => (JsonNode::Rep, NodeOperands::One(inner)),
            E::RepOnce(inner) => (JsonNode::RepOnce, NodeOperands::One(inner)),
            E::RepExact(inner, count) => (JsonNode::RepExact(*count), NodeOperands::One(inner)),
            E::RepMin(inner, least) => (JsonNode::RepMin(*least), NodeOperands::One(inner)),
            E::RepMax(inner, greatest) => (JsonNode::RepMax(*greatest), NodeOperands::One(inner)),
            E::RepMinMax(inner, least, greatest) => {
                (
                    JsonNode::RepMinMax(*least, *greatest),
                    NodeOperands::One(inner),
                )
            }
            E::Push(inner) => (JsonNode::Push, NodeOperands::One(inner)),
            E::PushLiteral(text) => (JsonNode::PushLiteral(text.as_str()), NodeOperands::None),
            E::NodeTag(inner, tag) => (JsonNode::NodeTag(tag.as_str()), NodeOperands::One(inner)),
        })
    }
}
