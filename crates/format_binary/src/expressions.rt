//! Expressions as their nodes in preorder. Stack use does not depend on nesting depth.
mod bare;
mod optimized;

ghost use Rattle.std.specs.Prelude.{◌≡◌, ◌<◌, ◌+◌, ◌++◌, ℕ, List, OnOk};
ghost use Rattle.format_binary.specs.Nodes.{bytes_in_turn, bytes_of_operands, heft_in_turn, heft_of_operands, node_bytes};

use crate::nodes::{BinaryNode, NodeOperands, push_node};
use std::alloc::{AllocError, Global};

/// Expressions that are written as nodes.
pub(crate) trait AsNodes {
    // the nodes of an expression in binary form
    ghost bytes: { Self → List ℕ };

    // the size of an expression, by which the walk ends
    ghost heft: { Self → ℕ };

    /// Returns the node at the top of an expression, and its operands.
    fn top(&self) -> (BinaryNode<'_>, NodeOperands<'_, Self>)
        ensures bytes { node_bytes result.0 ++ bytes_of_operands bytes result.1 ≡ bytes self.now }
        ensures lighter { heft_of_operands heft result.1 < heft self.now };
}

/// Appends the nodes of an expression.
#[tactic(auto, using(crate::proofs::Turns::put_last))]
pub(crate) fn push_expression<E: AsNodes>(
    alloc: Global,
    out: &mut Vec<u8>,
    expr: &E,
) -> Result<(), AllocError>
    ensures { OnOk result (out.new.items ≡ out.old.items ++ E.bytes expr.now) }
{
    let mut waiting = Vec::new(alloc);
    waiting.push(expr)?;
    while let Some(next) = waiting.pop() {
        let (node, operands) = next.top();
        push_node(out, node)?;
        put(&mut waiting, operands)?;
    }
    Ok(())
}

/// Pushes operands on a worklist, the first of them last.
#[tactic(auto, using(crate::proofs::Turns::put_last))]
fn put<'a, E: AsNodes>(
    waiting: &mut Vec<&'a E>,
    operands: NodeOperands<'a, E>,
) -> Result<(), AllocError>
    ensures bytes { OnOk result (bytes_in_turn E.bytes waiting.new.items
        ≡ bytes_of_operands E.bytes operands.entry ++ bytes_in_turn E.bytes waiting.old.items) }
    ensures heft { OnOk result (heft_in_turn E.heft waiting.new.items
        ≡ heft_of_operands E.heft operands.entry + heft_in_turn E.heft waiting.old.items) }
{
    match operands {
        NodeOperands::None => Ok(()),
        NodeOperands::One(operand) => {
            waiting.push(operand)?;
            Ok(())
        }
        NodeOperands::Two(left, right) => {
            waiting.push(right)?;
            waiting.push(left)?;
            Ok(())
        }
    }
}
