//! The bodies of rules, each with its rule's name.
ghost use Rattle.std.specs.Prelude.{◌≡◌, map, IfOk};
ghost use Rattle.base_language.specs.Language.Expression.{Grammar};
ghost use Rattle.front_restorer.specs.Bodies.{said_by, named_body, grammar_with, HoldsOptimizedBodies, SameBodies};

use base_ast::optimized::{OptimizedExpr, OptimizedRule};
use std::alloc::{AllocError, Global};
use std::collections::HashMap;

/// The body of a rule, and the rule's name.
#[derive(Clone, Copy)]
pub struct Body<'a> {
    pub name: &'a String,
    pub expr: &'a OptimizedExpr,
}

/// Collects the bodies that a map holds.
pub(crate) fn bodies_of_map<'a>(
    alloc: Global,
    rules: &'a HashMap<String, OptimizedExpr>,
) -> Result<Vec<Body<'a>>, AllocError>
    ensures { IfOk result (λ bodies. (g : Grammar) → HoldsOptimizedBodies rules.now g
        → SameBodies (grammar_with (map said_by bodies.items)) g) }
{
    let mut bodies = Vec::with_capacity(alloc, rules.len())?;
    for (name, expr) in rules {
        bodies.push(Body { name, expr })?;
    }
    Ok(bodies)
}

/// Collects the bodies of rules, in order.
pub(crate) fn bodies_of_rules<'a>(
    alloc: Global,
    rules: &'a [OptimizedRule],
) -> Result<Vec<Body<'a>>, AllocError>
    ensures { IfOk result (λ bodies. map said_by bodies.items ≡ map named_body rules.now) }
{
    let mut bodies = Vec::with_capacity(alloc, rules.len())?;
    for rule in rules {
        bodies.push(Body {
            name: &rule.name,
            expr: &rule.expr,
        })?;
    }
    Ok(bodies)
}
