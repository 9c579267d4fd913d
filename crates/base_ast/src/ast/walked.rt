//! Maps of expressions, and iteration over their nodes in preorder.
ghost use Rattle.std.specs.Prelude.{◌≡◌, alloc_error, IfErr, IfOk};
ghost use Rattle.base_ast.specs.Ast.{expression_of};
ghost use Rattle.base_ast.specs.ExprWalks.{expressions_left, unary_of};
ghost use Rattle.base_ast.specs.Frames.{around, joined};
ghost use Rattle.base_ast.specs.Maps.{MapsTopDown, RefusesTopDown, MapsBottomUp, RefusesBottomUp, NeverGrows};
ghost use Rattle.base_ast.specs.Operands.{preorder};

use super::Expr;
use super::shaped::Sign;
use crate::deep::Deep;
use crate::shape::{Joint, Shape, Shaped};
use crate::walks::{Node, Tree, map_bottom_up, map_top_down, take_first};
use base_language::runtime::Fault;
use std::alloc::{AllocError, Global};

impl Expr {
    /// Iterates over the expression and all expressions in it in preorder: node before operands, left
    /// before right. The only error is allocation failure.
    pub fn iter_top_down(&self, alloc: Global) -> Result<ExprTopDownIterator, Fault>
        ensures whole { IfOk result (λ iter. expressions_left iter ≡ preorder (expression_of self.now)) }
        ensures memory { IfErr result (λ fault. fault ≡ Fault.Memory alloc_error) }
    {
        ExprTopDownIterator::new(alloc, self)
    }

    /// Applies `f` to the expression, then to each operand of its answer, and so on down, left before
    /// right. `f` answers no more nodes than it gets. Fails if memory is refused, or with the first
    /// `Err` of `f`.
    pub fn map_top_down<F>(self, alloc: Global, f: F) -> Result<Expr, Fault>
    where
        F: FnMut(Expr) -> Result<Expr, Fault> + Drop,
        requires callable { F.IsAlwaysCallable f }
        requires smaller { NeverGrows expression_of F.step }
        ensures mapped { IfOk result (MapsTopDown expression_of F.step f self) }
        ensures refused { IfErr result (RefusesTopDown expression_of F.step f self) }
    {
        map_top_down(alloc, self, f)
    }

    /// Applies `f` to the operands of each node, left before right, and then to the node with their results
    /// in it. Fails if memory is refused, or with the first `Err` of `f`.
    pub fn map_bottom_up<F>(self, alloc: Global, f: F) -> Result<Expr, Fault>
    where
        F: FnMut(Expr) -> Result<Expr, Fault> + Drop,
        requires { F.IsAlwaysCallable f }
        ensures mapped { IfOk result (MapsBottomUp expression_of F.step f self) }
        ensures refused { IfErr result (RefusesBottomUp expression_of F.step f self) }
    {
        map_bottom_up(alloc, self, f)
    }
}

/// An iterator over an expression and all expressions in it, in preorder, with repetitions. After an error
/// it is empty.
#[derive(Drop)]
pub struct ExprTopDownIterator {
    /// The expressions still to be visited with all in them, the last first.
    stack: Deep<Vec<Expr>>,
}

impl ExprTopDownIterator {
    /// Returns the iterator of `Expr::iter_top_down`.
    pub fn new(alloc: Global, expr: &Expr) -> Result<ExprTopDownIterator, Fault>
        ensures whole { IfOk result (λ iter. expressions_left iter ≡ preorder (expression_of expr.now)) }
        ensures memory { IfErr result (λ fault. fault ≡ Fault.Memory alloc_error) }
    {
        let copy = Deep {
            value: expr.copy()?,
        };
        let mut stack = Deep {
            value: Vec::new(alloc),
        };
        stack.push(copy)?;
        Ok(ExprTopDownIterator { stack })
    }
}

impl Iterator for ExprTopDownIterator {
    type Item = Result<Expr, Fault>;

    ghost use Rattle.std.specs.Prelude.{length};
    ghost use Rattle.std.specs.Iterator.{at_most};
    ghost use Rattle.base_ast.specs.TopDownIterators.{YieldsFirstOrFails};

    ghost next_gives = { YieldsFirstOrFails expression_of expressions_left };

    ghost remaining = { λ iter. at_most (length (expressions_left iter)) };

    fn next(&mut self) -> Option<Result<Expr, Fault>> {
        match take_first(&mut self.stack) {
            Ok(given) => given.map(Ok),
            Err(error) => {
                self.stack.value.clear();
                Some(Err(Fault::Memory(error)))
            }
        }
    }
}

impl Tree for Expr {
    type Sign = Sign;

    ghost says = { expression_of };

    ghost stands_for = { unary_of };

    fn open(self) -> Node<Expr, Sign> {
        match Shaped::open(self) {
            Shape::Leaf(leaf) => Node::Leaf(leaf),
            Shape::One(sign, operand) => Node::One(sign, operand),
            Shape::Two(joint, left, right) => Node::Two(joint, left, right),
        }
    }

    fn enclose(sign: Sign, operand: Box<Expr>) -> Expr
        ensures { expression_of result ≡ around (unary_of sign) (expression_of operand.value) }
    {
        Shaped::enclose(sign, operand)
    }

    fn join(joint: Joint, left: Box<Expr>, right: Box<Expr>) -> Expr
        ensures { expression_of result
            ≡ joined joint (expression_of left.value) (expression_of right.value) }
    {
        Shaped::join(joint, left, right)
    }

    fn take(place: &mut Box<Expr>) -> Expr {
        Shaped::take(place)
    }

    fn copy(&self) -> Result<Expr, AllocError> {
        self.clone()
    }
}
