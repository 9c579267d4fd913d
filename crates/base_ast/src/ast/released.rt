//! Iterative drop of rules and expressions.
use super::{Expr, Rule};
use crate::deep::Release;
use crate::shape::release_tree;

/// Drops rules, the body of each as [`Expr::release`] does.
pub fn release(rules: Vec<Rule>) {
    rules.release();
}

impl Release for Rule {
    fn release(self) {
        self.expr.release();
    }
}

impl Release for Expr {
    fn release(self) {
        Expr::release(self);
    }
}

impl Expr {
    /// Drops the expression iteratively, without allocating.
    ///
    /// An expression that goes out of scope is dropped recursively, so a chain of very many parts takes
    /// very much stack space; this takes a constant amount.
    pub fn release(self) {
        release_tree(self);
    }
}
