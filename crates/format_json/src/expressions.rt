//! Expressions as lists of nodes in preorder, and read back. Stack use does not depend on nesting depth.
ghost use Rattle.std.specs.Prelude.{◌≡◌, ◌<◌, ◌+◌, ◌++◌, ℕ, List, [], ◌∷◌, IfErr, IfOk, OnOk, length, map};
ghost use Rattle.serde_json.specs.Data.{Data};
ghost use Rattle.serde_json.specs.View.{view};
ghost use Rattle.format_json.specs.Nodes.{heft_now, heft_of_operands, in_turn, node_data, nodes_of_operands, now_in_turn};
ghost use Rattle.format_json.specs.Unread.{AreOfNone, IsUnreadBody, IsUnreadNode, OnReason};

use crate::nodes::JsonNode;
use crate::refusal::{RefusalReason, Unread};
use base_ast::deep::{Deep, Release};
use serde_json::Value;
use std::alloc::{AllocError, Global};

/// The operands of a node.
#[derive(Clone, Copy)]
pub(crate) enum NodeOperands<'a, E> {
    None,
    One(&'a E),
    Two(&'a E, &'a E),
}

/// Expressions that are written as nodes.
pub(crate) trait AsNodes {
    // the nodes of an expression
    ghost nodes: { Self → List Data };

    // the size of an expression, by which the walk ends
    ghost heft: { Self → ℕ };

    /// Returns the node at the top of an expression, and its operands.
    fn top(&self, alloc: Global) -> Result<(JsonNode<'_>, NodeOperands<'_, Self>), AllocError>
        ensures written { IfOk result
            (λ top. node_data top.0 ∷ nodes_of_operands nodes top.1 ≡ nodes self.now) }
        ensures lighter { IfOk result (λ top. heft_of_operands heft top.1 < heft self.now) };
}

/// Expressions that are also read from nodes.
pub(crate) trait FromNodes: AsNodes + Release {
    /// Builds the expression of a node. Its operands are popped from the end of the list, the first one
    /// first.
    fn of_node(
        alloc: Global,
        node: &JsonNode<'_>,
        operands: &mut Deep<Vec<Self>>,
    ) -> Result<Self, Unread>
        ensures expr { IfOk result (λ expr. Self.nodes expr ++ in_turn Self.nodes operands.new.value.items
            ≡ node_data node.now ∷ in_turn Self.nodes operands.old.value.items) }
        ensures refused { IfErr result (λ unread. OnReason unread (AreOfNone Self.nodes
            (node_data node.now ∷ in_turn Self.nodes operands.old.value.items))) };
}

/// Returns the nodes of an expression in preorder, as values.
#[tactic(auto, using(crate::proofs::Turns::now_in_turn_last, crate::proofs::Turns::heft_now_last))]
pub(crate) fn nodes_of<E: AsNodes>(alloc: Global, expr: &E) -> Result<Vec<Value>, AllocError>
    ensures { IfOk result (λ values. map view values.items ≡ E.nodes expr.now) }
{
    let mut values = Vec::new(alloc);
    let mut waiting = Vec::new(alloc);
    waiting.push(expr)?;
    while let Some(next) = waiting.pop() {
        let operands = write_top(alloc, next, &mut values)?;
        put(&mut waiting, operands)?;
    }
    Ok(values)
}

/// Appends the node at the top of an expression, and returns the operands.
fn write_top<'a, E: AsNodes>(
    alloc: Global,
    expr: &'a E,
    values: &mut Vec<Value>,
) -> Result<NodeOperands<'a, E>, AllocError>
    ensures written { IfOk result (λ operands. map view values.new.items ++ nodes_of_operands E.nodes operands
        ≡ map view values.old.items ++ E.nodes expr.entry.now) }
    ensures lighter { IfOk result (λ operands. heft_of_operands E.heft operands < E.heft expr.entry.now) }
{
    let (node, operands) = expr.top(alloc)?;
    values.push(node.to_value(alloc)?)?;
    Ok(operands)
}

/// Pushes operands on a worklist, the first of them last.
#[tactic(auto, using(crate::proofs::Turns::put_last))]
fn put<'a, E: AsNodes>(
    waiting: &mut Vec<&'a E>,
    operands: NodeOperands<'a, E>,
) -> Result<(), AllocError>
    ensures nodes { OnOk result (now_in_turn E.nodes waiting.new.items
        ≡ nodes_of_operands E.nodes operands.entry ++ now_in_turn E.nodes waiting.old.items) }
    ensures heft { OnOk result (heft_now E.heft waiting.new.items
        ≡ heft_of_operands E.heft operands.entry + heft_now E.heft waiting.old.items) }
{
    match operands {
        NodeOperands::None => Ok(()),
        NodeOperands::One(operand) => {
            waiting.push(operand)?;
            Ok(())
        }
        NodeOperands::Two(left, right) => {
            waiting.push(right)?;
            waiting.push(left)?;
            Ok(())
        }
    }
}

/// Builds the expression whose nodes in preorder these values are. Reads them from the last to the first.
#[tactic(auto, using(crate::proofs::Turns::in_turn_last))]
pub(crate) fn expression_of<E: FromNodes>(alloc: Global, nodes: &[Value]) -> Result<E, Unread>
    ensures expr { IfOk result (λ expr. E.nodes expr ≡ map view nodes.now) }
    ensures refused { IfErr result (IsUnreadBody E.nodes (map view nodes.now)) }
{
    let mut operands = Deep {
        value: Vec::new(alloc),
    };
    let mut rest = nodes;
    while let Some((last, before)) = rest.split_last() {
        match expression_with(alloc, last, &mut operands) {
            Ok(()) => rest = before,
            Err(why) => return Err(why.at_node(before.len())),
        }
    }
    match operands.value.pop() {
        Some(expr) if operands.value.is_empty() => Ok(expr),
        Some(expr) => {
            expr.release();
            Err(Unread::Reason(RefusalReason::Left))
        }
        None => Err(Unread::Reason(RefusalReason::Body)),
    }
}

/// Builds the expression of a node, and replaces its operands on the list by it.
#[tactic(auto, using(crate::proofs::Turns::in_turn_last))]
fn expression_with<E: FromNodes>(
    alloc: Global,
    node: &Value,
    operands: &mut Deep<Vec<E>>,
) -> Result<(), Unread>
    ensures read { OnOk result (in_turn E.nodes operands.new.value.items
        ≡ view node.now ∷ in_turn E.nodes operands.old.value.items) }
    ensures refused { IfErr result (λ unread. OnReason unread (IsUnreadNode E.nodes (view node.now)
        (in_turn E.nodes operands.old.value.items))) }
{
    let node = JsonNode::of_value(alloc, node)?;
    let expr = E::of_node(alloc, &node, operands)?;
    operands.push(Deep { value: expr })?;
    Ok(())
}

/// Pops an operand, in a box that is dropped iteratively.
fn operand<E: Release>(alloc: Global, operands: &mut Deep<Vec<E>>) -> Result<Deep<Box<E>>, Unread>
    ensures taken { IfOk result (λ taken. operands.old.value.items
        ≡ operands.new.value.items ++ (taken.value.value ∷ [])) }
    ensures refused { IfErr result (λ unread. OnReason unread (operands.old.value.items ≡ [])) }
{
    match operands.value.pop() {
        Some(expr) => Ok(Deep { value: expr }.into_box(alloc)?),
        None => Err(Unread::Reason(RefusalReason::Operands)),
    }
}

/// Pops an operand, in a box.
pub(crate) fn one_operand<E: Release>(
    alloc: Global,
    operands: &mut Deep<Vec<E>>,
) -> Result<Box<E>, Unread>
    ensures taken { IfOk result (λ taken. operands.old.value.items
        ≡ operands.new.value.items ++ (taken.value ∷ [])) }
    ensures refused { IfErr result (λ unread. OnReason unread (length operands.old.value.items < 1)) }
{
    Ok(operand(alloc, operands)?.into_inner())
}

/// Pops two operands, each in a box.
pub(crate) fn two_operands<E: Release>(
    alloc: Global,
    operands: &mut Deep<Vec<E>>,
) -> Result<(Box<E>, Box<E>), Unread>
    ensures taken { IfOk result (λ taken. operands.old.value.items
        ≡ (operands.new.value.items ++ (taken.1.value ∷ [])) ++ (taken.0.value ∷ [])) }
    ensures refused { IfErr result (λ unread. OnReason unread (length operands.old.value.items < 2)) }
{
    let left = operand(alloc, operands)?;
    let right = operand(alloc, operands)?;
    Ok((left.into_inner(), right.into_inner()))
}
