//! The pass `concatenate`, which joins literals in sequence.
ghost use Rattle.std.specs.Prelude.{◌≡◌, IfErr, IfOk};
ghost use Rattle.base_language.specs.Rewritings.Replacing.{KeepsOutcomes, IsChained};
ghost use Rattle.base_language.specs.Rewritings.Rewriting.{IsDone, Joins};
ghost use Rattle.base_ast.specs.Ast.{text_of, expression_of, rule_of_code, rule_type_of};
ghost use Rattle.base_language.specs.Pieces.Faults.{IsMemory};
ghost use Rattle.front_optimizer.specs.Here.{joined_here};
ghost use Rattle.front_optimizer.specs.Traversals.{BottomUp};

use crate::Fault;
use crate::joined::with_literals_joined;
use crate::traversal::{Pass, all_stay};
use base_ast::ast::{Expr, Rule, RuleType};
use base_ast::deep::Deep;
use std::alloc::{AllocError, Global};

/// Returns the rule; if it is Atomic, with literals in sequence joined: `"a" ~ "b"` becomes `"ab"`, and
/// `^"a" ~ ^"b"` becomes `^"ab"`, until no two such are side by side in one `~`. Name and type stay, and
/// so do the outcomes from every start, in every grammar that has the rule. The only fault is an
/// allocation failure.
pub fn concatenate(alloc: Global, rule: Rule) -> Result<Rule, Fault>
    ensures name { IfOk result (λ r. text_of r.name ≡ text_of rule.name) }
    ensures ty { IfOk result (λ r. r.ty ≡ rule.ty) }
    ensures done { IfOk result
        (λ r. IsDone (Joins (rule_type_of rule.ty)) (expression_of rule.expr) (expression_of r.expr)) }
    ensures chain { IfOk result (λ r. IsChained (rule_of_code rule) (rule_of_code r)) }
    ensures outcomes { IfOk result (λ r. KeepsOutcomes (rule_of_code rule) (rule_of_code r)) }
    ensures memory { IfErr result IsMemory }
{
    let Rule { name, ty, expr } = rule;
    match ty {
        RuleType::Atomic => {
            let expr = join_literals(alloc, expr)?;
            Ok(Rule { name, ty, expr })
        }
        _ => Ok(Rule { name, ty, expr }),
    }
}

#[derive(Drop)]
struct Concatenator;

impl Pass for Concatenator {
    ghost gives = { λ _ a b. joined_here a ≡ b };

    fn stays_at(&self, node: &Expr) -> bool {
        match node {
            Expr::Seq(left, right) => match (&**left, &**right) {
                (Expr::Str(_), Expr::Str(_)) | (Expr::Insens(_), Expr::Insens(_)) => false,
                _ => true,
            },
            _ => true,
        }
    }
}

// Joins the literals of an expression.
fn join_literals(alloc: Global, expr: Expr) -> Result<Expr, AllocError>
    ensures { IfOk result
        (λ e. BottomUp (λ a b. joined_here a ≡ b) (expression_of expr) (expression_of e)) }
{
    let expr = Deep { value: expr };
    let is_done = all_stay(alloc, &Concatenator, &expr.value)?;
    let expr = expr.into_inner();
    if is_done {
        return Ok(expr);
    }
    with_literals_joined(alloc, expr)
}
