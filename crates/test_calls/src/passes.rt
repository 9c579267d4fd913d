//! The passes, all of them, and the restorer.
ghost use Rattle.std.specs.Bool.{Decides};
ghost use Rattle.std.specs.Prelude.{IfErr, IfOk, ◌≡◌};
ghost use Rattle.base_ast.specs.Ast.{expression_of, rule_of_code, text_of};
ghost use Rattle.base_ast.specs.Optimized.{optimized_expression_of};
ghost use Rattle.base_language.specs.Language.Expression.{Grammar};
ghost use Rattle.base_language.specs.Pieces.Faults.{IsMemory};
ghost use Rattle.base_language.specs.Rewritings.Replacing.{IsChained, KeepsOutcomes};
ghost use Rattle.base_language.specs.Rewritings.Rewriting.{Many, Unrolls};
ghost use Rattle.base_language.specs.Rewritings.Wrapping.{ChangesStack};
ghost use Rattle.front_optimizer.specs.Unrolled.{IsUnrolled};
ghost use Rattle.front_restorer.specs.Bodies.{HoldsOptimizedBodies};

use base_ast::ast::Rule;
use base_ast::optimized::OptimizedExpr;
use base_language::runtime::Fault;
use std::alloc::Global;
use std::collections::HashMap;

/// Returns a rule whose repetitions are written out.
pub fn unroll(alloc: Global, rule: Rule) -> Result<Rule, Fault>
    ensures name { IfOk result (λ r. text_of r.name ≡ text_of rule.name) }
    ensures ty { IfOk result (λ r. r.ty ≡ rule.ty) }
    ensures steps { IfOk result (λ r. Many Unrolls (expression_of rule.expr) (expression_of r.expr)) }
    ensures unrolled { IfOk result (λ r. IsUnrolled (expression_of r.expr)) }
    ensures chain { IfOk result (λ r. IsChained (rule_of_code rule) (rule_of_code r)) }
    ensures outcomes { IfOk result (λ r. KeepsOutcomes (rule_of_code rule) (rule_of_code r)) }
    ensures memory { IfErr result IsMemory }
{
    front_optimizer::unroll(alloc, rule)
}

/// Returns whether an expression changes the stack.
pub fn child_modifies_state(
    alloc: Global,
    expr: &OptimizedExpr,
    rules: &HashMap<String, OptimizedExpr>,
) -> Result<bool, Fault>
    ensures decides { IfOk result (λ yes. (g : Grammar) → HoldsOptimizedBodies rules.now g
        → Decides yes (ChangesStack g (optimized_expression_of expr.now))) }
    ensures memory { IfErr result IsMemory }
{
    front_restorer::child_modifies_state(alloc, expr, rules)
}
