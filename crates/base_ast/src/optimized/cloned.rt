//! Clones of optimized rules and expressions. A clone that is given equals its source.
ghost use Rattle.std.specs.Prelude.{◌≡◌};
ghost use Rattle.base_ast.specs.Optimized.{optimized_expression_of, optimized_rule_of};

use super::{OptimizedExpr, OptimizedRule};
use crate::shape::copy_tree;
use std::alloc::AllocError;

impl Clone for OptimizedRule {
    ghost is_clone = { λ rule copy. optimized_rule_of copy ≡ optimized_rule_of rule };

    fn clone(&self) -> Result<OptimizedRule, AllocError> {
        Ok(OptimizedRule {
            name: self.name.clone()?,
            ty: self.ty,
            expr: self.expr.clone()?,
        })
    }
}

impl Clone for OptimizedExpr {
    ghost is_clone = { λ expr copy. optimized_expression_of copy ≡ optimized_expression_of expr };

    fn clone(&self) -> Result<OptimizedExpr, AllocError> {
        copy_tree(self)
    }
}
