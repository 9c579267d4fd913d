//! Maps of optimized expressions, and iteration over their nodes in preorder. Walks do not enter a wrapper.
ghost use Rattle.std.specs.Prelude.{◌≡◌, alloc_error, IfErr, IfOk};
ghost use Rattle.base_ast.specs.Optimized.{optimized_expression_of};
ghost use Rattle.base_ast.specs.Frames.{around, joined};
ghost use Rattle.base_ast.specs.OptimizedWalks.{optimized_expressions_left, optimized_unary_of};
ghost use Rattle.base_ast.specs.Maps.{MapsTopDown, RefusesTopDown, MapsBottomUp, RefusesBottomUp, NeverGrows};
ghost use Rattle.base_ast.specs.Operands.{preorder};

use super::OptimizedExpr;
use super::shaped::{PlainSign, Sign};
use crate::deep::Deep;
use crate::shape::{Joint, Shape, Shaped};
use crate::walks::{Node, Tree, map_bottom_up, map_top_down, take_first};
use base_language::runtime::Fault;
use std::alloc::{AllocError, Global};

impl OptimizedExpr {
    /// Iterates over the expression and all expressions in it in preorder: node before operands, left
    /// before right. The only error is allocation failure.
    pub fn iter_top_down(&self, alloc: Global) -> Result<OptimizedExprTopDownIterator, Fault>
        ensures whole { IfOk result
            (λ iter. optimized_expressions_left iter ≡ preorder (optimized_expression_of self.now)) }
        ensures memory { IfErr result (λ fault. fault ≡ Fault.Memory alloc_error) }
    {
        OptimizedExprTopDownIterator::new(alloc, self)
    }

    /// Applies `f` to the expression, then to each operand of its answer, and so on down, left before
    /// right. `f` answers no more nodes than it gets. Fails if memory is refused, or with the first
    /// `Err` of `f`.
    pub fn map_top_down<F>(self, alloc: Global, f: F) -> Result<OptimizedExpr, Fault>
    where
        F: FnMut(OptimizedExpr) -> Result<OptimizedExpr, Fault> + Drop,
        requires callable { F.IsAlwaysCallable f }
        requires smaller { NeverGrows optimized_expression_of F.step }
        ensures mapped { IfOk result (MapsTopDown optimized_expression_of F.step f self) }
        ensures refused { IfErr result (RefusesTopDown optimized_expression_of F.step f self) }
    {
        map_top_down(alloc, self, f)
    }

    /// Applies `f` to the operands of each node, left before right, and then to the node with their results
    /// in it. Fails if memory is refused, or with the first `Err` of `f`.
    pub fn map_bottom_up<F>(self, alloc: Global, f: F) -> Result<OptimizedExpr, Fault>
    where
        F: FnMut(OptimizedExpr) -> Result<OptimizedExpr, Fault> + Drop,
        requires { F.IsAlwaysCallable f }
        ensures mapped { IfOk result (MapsBottomUp optimized_expression_of F.step f self) }
        ensures refused { IfErr result (RefusesBottomUp optimized_expression_of F.step f self) }
    {
        map_bottom_up(alloc, self, f)
    }
}

/// An iterator over an expression and all expressions in it, in preorder, with repetitions. After an error
/// it is empty.
#[derive(Drop)]
pub struct OptimizedExprTopDownIterator {
    /// The expressions still to be visited with all in them, the last first.
    stack: Deep<Vec<OptimizedExpr>>,
}

impl OptimizedExprTopDownIterator {
    /// Returns the iterator of `OptimizedExpr::iter_top_down`.
    pub fn new(alloc: Global, expr: &OptimizedExpr) -> Result<OptimizedExprTopDownIterator, Fault>
        ensures whole { IfOk result
            (λ iter. optimized_expressions_left iter ≡ preorder (optimized_expression_of expr.now)) }
        ensures memory { IfErr result (λ fault. fault ≡ Fault.Memory alloc_error) }
    {
        let copy = Deep {
            value: expr.copy()?,
        };
        let mut stack = Deep {
            value: Vec::new(alloc),
        };
        stack.push(copy)?;
        Ok(OptimizedExprTopDownIterator { stack })
    }
}

impl Iterator for OptimizedExprTopDownIterator {
    type Item = Result<OptimizedExpr, Fault>;

    ghost use Rattle.std.specs.Prelude.{length};
    ghost use Rattle.std.specs.Iterator.{at_most};
    ghost use Rattle.base_ast.specs.TopDownIterators.{YieldsFirstOrFails};

    ghost next_gives = { YieldsFirstOrFails optimized_expression_of optimized_expressions_left };

    ghost remaining = { λ iter. at_most (length (optimized_expressions_left iter)) };

    fn next(&mut self) -> Option<Result<OptimizedExpr, Fault>> {
        match take_first(&mut self.stack) {
            Ok(given) => given.map(Ok),
            Err(error) => {
                self.stack.value.clear();
                Some(Err(Fault::Memory(error)))
            }
        }
    }
}

impl Tree for OptimizedExpr {
    type Sign = PlainSign;

    ghost says = { optimized_expression_of };

    ghost stands_for = { optimized_unary_of };

    fn open(self) -> Node<OptimizedExpr, PlainSign> {
        match Shaped::open(self) {
            Shape::Leaf(leaf) => Node::Leaf(leaf),
            Shape::One(sign, operand) => match sign {
                Sign::Plain(sign) => Node::One(sign, operand),
                Sign::Wrapper => Node::Leaf(OptimizedExpr::RestoreOnErr(operand)),
            },
            Shape::Two(joint, left, right) => Node::Two(joint, left, right),
        }
    }

    fn enclose(sign: PlainSign, operand: Box<OptimizedExpr>) -> OptimizedExpr
        ensures { optimized_expression_of result
            ≡ around (optimized_unary_of sign) (optimized_expression_of operand.value) }
    {
        Shaped::enclose(Sign::Plain(sign), operand)
    }

    fn join(joint: Joint, left: Box<OptimizedExpr>, right: Box<OptimizedExpr>) -> OptimizedExpr
        ensures { optimized_expression_of result
            ≡ joined joint (optimized_expression_of left.value) (optimized_expression_of right.value) }
    {
        Shaped::join(joint, left, right)
    }

    fn take(place: &mut Box<OptimizedExpr>) -> OptimizedExpr {
        Shaped::take(place)
    }

    fn copy(&self) -> Result<OptimizedExpr, AllocError> {
        self.clone()
    }
}
