//! Iterative drop of optimized rules and expressions.
use super::{OptimizedExpr, OptimizedRule};
use crate::deep::Release;
use crate::shape::release_tree;

/// Drops rules, the body of each as [`OptimizedExpr::release`] does.
pub fn release(rules: Vec<OptimizedRule>) {
    rules.release();
}

impl Release for OptimizedRule {
    fn release(self) {
        self.expr.release();
    }
}

impl Release for OptimizedExpr {
    fn release(self) {
        OptimizedExpr::release(self);
    }
}

impl OptimizedExpr {
    /// Drops the expression iteratively, without allocating, as
    /// [`Expr::release`](crate::ast::Expr::release) does.
    pub fn release(self) {
        release_tree(self);
    }
}
