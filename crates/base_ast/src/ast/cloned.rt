//! Clones of rules and expressions. A clone that is given equals its source.
ghost use Rattle.std.specs.Prelude.{◌≡◌};
ghost use Rattle.base_ast.specs.Ast.{expression_of, rule_of_code};

use super::{Expr, Rule};
use crate::shape::copy_tree;
use std::alloc::AllocError;

impl Clone for Rule {
    ghost is_clone = { λ rule copy. rule_of_code copy ≡ rule_of_code rule };

    fn clone(&self) -> Result<Rule, AllocError> {
        Ok(Rule {
            name: self.name.clone()?,
            ty: self.ty,
            expr: self.expr.clone()?,
        })
    }
}

impl Clone for Expr {
    ghost is_clone = { λ expr copy. expression_of copy ≡ expression_of expr };

    fn clone(&self) -> Result<Expr, AllocError> {
        copy_tree(self)
    }
}
