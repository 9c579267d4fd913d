//! The first node of an expression in binary form, read with its arguments.
ghost use Rattle.std.specs.Prelude.{◌≡◌, ◌<◌, ℕ, List, ◌∷◌, ◌++◌, IfErr, IfOk, OnOk, length};
ghost use Rattle.format_binary.specs.Format.{optimized_expression_bytes};
ghost use Rattle.format_binary.specs.Indices.{HasIndices};
ghost use Rattle.base_ast.specs.declared.optimized.OptimizedExpr.{OptimizedExpr};
ghost use Rattle.format_binary.specs.declared.input.BinaryRefusal.TheVariants.{Form};
ghost use Rattle.format_binary.specs.Fronts.{BeginsWithExpression, OperandsFollow};
ghost use Rattle.format_binary.specs.Reading.{IsFirstWithin, first_bytes, one_bytes, two_bytes};

use crate::input::{BinaryRefusal, ByteInput};
use base_ast::optimized::OptimizedExpr;
use std::alloc::Global;

/// An operator with one operand.
#[derive(Drop)]
pub(crate) enum OneOperator {
    PosPred,
    NegPred,
    Opt,
    Rep,
    RepOnce,
    Push,
    NodeTag(String),
    RestoreOnErr,
}

/// An operator with two operands.
#[derive(Clone, Copy)]
pub(crate) enum TwoOperator {
    Seq,
    Choice,
}

/// The first node of an expression: the expression, or an operator whose operands follow.
#[derive(Drop)]
pub(crate) enum FirstNode {
    Whole(OptimizedExpr),
    One(OneOperator),
    Two(TwoOperator),
}

impl OneOperator {
    /// Returns the expression of the operator around an operand.
    pub(crate) fn around(self, inner: Box<OptimizedExpr>) -> OptimizedExpr
        ensures bytes { optimized_expression_bytes result
            ≡ one_bytes self ++ optimized_expression_bytes inner.value }
        ensures indices { HasIndices inner.value → HasIndices result }
    {
        match self {
            OneOperator::PosPred => OptimizedExpr::PosPred(inner),
            OneOperator::NegPred => OptimizedExpr::NegPred(inner),
            OneOperator::Opt => OptimizedExpr::Opt(inner),
            OneOperator::Rep => OptimizedExpr::Rep(inner),
            OneOperator::RepOnce => OptimizedExpr::RepOnce(inner),
            OneOperator::Push => OptimizedExpr::Push(inner),
            OneOperator::NodeTag(tag) => OptimizedExpr::NodeTag(inner, tag),
            OneOperator::RestoreOnErr => OptimizedExpr::RestoreOnErr(inner),
        }
    }
}

impl TwoOperator {
    /// Returns the expression of the operator between two operands.
    pub(crate) fn between(
        self,
        left: Box<OptimizedExpr>,
        right: Box<OptimizedExpr>,
    ) -> OptimizedExpr
        ensures bytes { optimized_expression_bytes result ≡ (two_bytes self
            ++ optimized_expression_bytes left.value) ++ optimized_expression_bytes right.value }
        ensures indices { HasIndices left.value → HasIndices right.value → HasIndices result }
    {
        match self {
            TwoOperator::Seq => OptimizedExpr::Seq(left, right),
            TwoOperator::Choice => OptimizedExpr::Choice(left, right),
        }
    }
}

/// Reads the first node of an optimized expression.
pub(crate) fn read_node(
    alloc: Global,
    input: &mut ByteInput<'_>,
) -> Result<FirstNode, BinaryRefusal>
    ensures read { IfOk result (λ node. input.old.rest.now ≡ first_bytes node ++ input.new.rest.now) }
    ensures indices { IfOk result IsFirstWithin }
    ensures goes_on { OnOk result (length input.new.rest.now < length input.old.rest.now) }
    ensures follows { IfOk result (λ node. (x : OptimizedExpr) (rest : List ℕ)
        → input.old.rest.now ≡ optimized_expression_bytes x ++ rest
        → OperandsFollow node input.new.rest.now rest) }
    ensures refused { IfErr result (λ why. why ≡ Form → BeginsWithExpression input.old.rest.now → ⊥) }
{
    match input.read_byte()? {
        0 => Ok(FirstNode::Whole(OptimizedExpr::Str(input.read_string(alloc)?))),
        1 => Ok(FirstNode::Whole(OptimizedExpr::Insens(input.read_string(alloc)?))),
        2 => read_range(alloc, input),
        3 => Ok(FirstNode::Whole(OptimizedExpr::Ident(input.read_string(alloc)?))),
        4 => read_slice(input),
        5 => Ok(FirstNode::One(OneOperator::PosPred)),
        6 => Ok(FirstNode::One(OneOperator::NegPred)),
        7 => Ok(FirstNode::Two(TwoOperator::Seq)),
        8 => Ok(FirstNode::Two(TwoOperator::Choice)),
        9 => Ok(FirstNode::One(OneOperator::Opt)),
        10 => Ok(FirstNode::One(OneOperator::Rep)),
        11 => Ok(FirstNode::One(OneOperator::RepOnce)),
        16 => Ok(FirstNode::Whole(OptimizedExpr::Skip(input.read_strings(alloc)?))),
        17 => Ok(FirstNode::One(OneOperator::Push)),
        18 => Ok(FirstNode::Whole(OptimizedExpr::PushLiteral(input.read_string(alloc)?))),
        19 => Ok(FirstNode::One(OneOperator::NodeTag(input.read_string(alloc)?))),
        20 => Ok(FirstNode::One(OneOperator::RestoreOnErr)),
        _ => Err(BinaryRefusal::Form),
    }
}

/// Reads the bounds of a range.
fn read_range(alloc: Global, input: &mut ByteInput<'_>) -> Result<FirstNode, BinaryRefusal>
    ensures read { IfOk result (λ node. 2 ∷ input.old.rest.now ≡ first_bytes node ++ input.new.rest.now) }
    ensures indices { IfOk result IsFirstWithin }
    ensures follows { IfOk result (λ node. (x : OptimizedExpr) (rest : List ℕ)
        → 2 ∷ input.old.rest.now ≡ optimized_expression_bytes x ++ rest
        → OperandsFollow node input.new.rest.now rest) }
    ensures refused { IfErr result (λ why. why ≡ Form → BeginsWithExpression (2 ∷ input.old.rest.now) → ⊥) }
{
    let low = input.read_string(alloc)?;
    let high = input.read_string(alloc)?;
    Ok(FirstNode::Whole(OptimizedExpr::Range(low, high)))
}

/// Reads the bounds of a slice of the stack.
fn read_slice(input: &mut ByteInput<'_>) -> Result<FirstNode, BinaryRefusal>
    ensures read { IfOk result (λ node. 4 ∷ input.old.rest.now ≡ first_bytes node ++ input.new.rest.now) }
    ensures indices { IfOk result IsFirstWithin }
    ensures follows { IfOk result (λ node. (x : OptimizedExpr) (rest : List ℕ)
        → 4 ∷ input.old.rest.now ≡ optimized_expression_bytes x ++ rest
        → OperandsFollow node input.new.rest.now rest) }
    ensures refused { IfErr result (λ why. why ≡ Form → BeginsWithExpression (4 ∷ input.old.rest.now) → ⊥) }
{
    let start = input.read_index()?;
    let end = input.read_end()?;
    Ok(FirstNode::Whole(OptimizedExpr::PeekSlice(start, end)))
}
