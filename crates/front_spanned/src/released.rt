//! Iterative drop of rules and nodes.
use crate::node::{ParserExpr, ParserNode, ParserRule};
use crate::shaped::open_expr;
use base_ast::deep::Release;
use base_ast::shape::{Shape, release_tree};

/// Drops rules, the body of each as [`ParserNode::release`] does.
pub fn release(rules: Vec<ParserRule<'_>>) {
    rules.release();
}

impl<'i> ParserNode<'i> {
    /// Drops the node iteratively, without allocating.
    ///
    /// A node that goes out of scope is dropped recursively, so a chain of very many parts takes very much
    /// stack space; this takes a constant amount.
    pub fn release(self) {
        release_tree(self);
    }
}

impl<'i> Release for ParserRule<'i> {
    fn release(self) {
        self.node.release();
    }
}

impl<'i> Release for ParserNode<'i> {
    fn release(self) {
        release_tree(self);
    }
}

impl<'i> Release for ParserExpr<'i> {
    fn release(self) {
        match open_expr(self) {
            Shape::Leaf(leaf) => drop(leaf),
            Shape::One(sign, operand) => {
                drop(sign);
                release_tree(Box::into_inner(operand));
            }
            Shape::Two(joint, left, right) => {
                drop(joint);
                release_tree(Box::into_inner(left));
                release_tree(Box::into_inner(right));
            }
        }
    }
}
