//! The pass `skip`, which makes forward searches of repetitions.
ghost use Rattle.std.specs.Prelude.{◌≡◌, IfErr, IfOk};
ghost use Rattle.std.specs.Bool.{OnTrue};
ghost use Rattle.base_language.specs.Language.Expression.{Grammar};
ghost use Rattle.base_language.specs.Rewritings.Rewriting.{IsDone, SkipsUntil};
ghost use Rattle.base_ast.specs.Ast.{text_of, expression_of, rule_of_code, rule_type_of};
ghost use Rattle.front_optimizer.specs.Bodies.{AreRightForAll, HoldsBodies, IsTurn, Serve, SkippedHere, TextsUntil};
ghost use Rattle.base_language.specs.Pieces.Faults.{IsMemory};
ghost use Rattle.front_optimizer.specs.Skipped.{IsSkipChained, SkipKeepsOutcomes};

use crate::Fault;
use crate::bodies::is_free_of_turns;
use crate::strings::{StringNames, names_with_strings, strings_of};
use crate::traversal::{Pass, Shrink, top_down};
use base_ast::ast::{Expr, Rule, RuleType};
use base_ast::deep::Deep;
use front_names::CharSet;
use std::alloc::{AllocError, Global};
use std::collections::HashMap;

/// Returns the rule; if it is Atomic, with each `(!c ~ ANY)*` as a forward search to the next of the
/// strings of `c`, or to the end. A literal denotes itself, and a name the strings of the rule's body.
/// If `x` is a literal or a name, `x | r` denotes the strings of `x` and then those of `r`. For anything
/// else, or a cycle of names, the repetition stays. Names are looked up in `bodies`, so over the grammar
/// whose bodies they are a chain of steps leads there. If no rule of it is named `ANY`, the outcomes
/// from every start stay. Name and type stay. The only fault is an allocation failure.
pub fn skip(alloc: Global, rule: Rule, bodies: &HashMap<String, Expr>) -> Result<Rule, Fault>
    ensures name { IfOk result (λ r. text_of r.name ≡ text_of rule.name) }
    ensures ty { IfOk result (λ r. r.ty ≡ rule.ty) }
    ensures done { IfOk result (λ r. (g : Grammar) → HoldsBodies bodies.now g
        → IsDone (SkipsUntil g (rule_type_of rule.ty)) (expression_of rule.expr) (expression_of r.expr)) }
    ensures chain { IfOk result (λ r. IsSkipChained bodies.now (rule_of_code rule) (rule_of_code r)) }
    ensures outcomes { IfOk result (λ r. SkipKeepsOutcomes bodies.now (rule_of_code rule) (rule_of_code r)) }
    ensures memory { IfErr result IsMemory }
{
    let rule = Deep { value: rule };
    let is_free = is_free_of_turns(alloc, &rule.value)?;
    if is_free {
        return Ok(rule.into_inner());
    }
    let names = names_with_strings(alloc, bodies)?;
    skip_with(alloc, rule.into_inner(), bodies, &names)
}

/// Does the same as `skip`, given the names that denote strings.
pub(crate) fn skip_with(
    alloc: Global,
    rule: Rule,
    bodies: &HashMap<String, Expr>,
    names: &StringNames<'_>,
) -> Result<Rule, Fault>
    ensures name { IfOk result (λ r. text_of r.name ≡ text_of rule.name) }
    ensures ty { IfOk result (λ r. r.ty ≡ rule.ty) }
    ensures done { IfOk result (λ r. AreRightForAll bodies.now names.now → (g : Grammar)
        → HoldsBodies bodies.now g
        → IsDone (SkipsUntil g (rule_type_of rule.ty)) (expression_of rule.expr) (expression_of r.expr)) }
    ensures chain { IfOk result (λ r. AreRightForAll bodies.now names.now
        → IsSkipChained bodies.now (rule_of_code rule) (rule_of_code r)) }
    ensures outcomes { IfOk result (λ r. AreRightForAll bodies.now names.now
        → SkipKeepsOutcomes bodies.now (rule_of_code rule) (rule_of_code r)) }
    ensures memory { IfErr result IsMemory }
{
    let Rule { name, ty, expr } = rule;
    match ty {
        RuleType::Atomic => {
            let expr = top_down(alloc, &Skipper { bodies, names }, expr)?;
            Ok(Rule { name, ty, expr })
        }
        _ => Ok(Rule { name, ty, expr }),
    }
}

#[derive(Drop)]
struct Skipper<'a> {
    bodies: &'a HashMap<String, Expr>,
    names: &'a StringNames<'a>,
}

impl Pass for Skipper<'_> {
    ghost gives = { λ s a b. (g : Grammar) → Serve s.bodies.now s.names.now g → SkippedHere g a b };

    fn stays_at(&self, node: &Expr) -> bool {
        is_no_turn(node)
    }
}

impl Shrink for Skipper<'_> {
    fn shrink(&self, alloc: Global, expr: Expr) -> Result<Expr, AllocError> {
        match expr {
            Expr::Rep(inner) => {
                let inner = Deep { value: inner };
                match texts_until(alloc, self.bodies, self.names, &inner.value)? {
                    Some(texts) => Ok(Expr::Skip(texts)),
                    None => Ok(Expr::Rep(inner.into_inner())),
                }
            }
            other => Ok(other),
        }
    }
}

/// Reports whether an expression is anything but `(!c ~ n)*`.
pub(crate) fn is_no_turn(expr: &Expr) -> bool
    ensures { OnTrue result (IsTurn (expression_of expr.now) → ⊥) }
{
    match expr {
        Expr::Rep(inner) => match &**inner {
            Expr::Seq(left, right) => match &**left {
                Expr::NegPred(_) => match &**right {
                    Expr::Ident(_) => false,
                    _ => true,
                },
                _ => true,
            },
            _ => true,
        },
        _ => true,
    }
}

// Returns the strings of `c`, if the expression is `!c ~ ANY`.
fn texts_until(
    alloc: Global,
    bodies: &HashMap<String, Expr>,
    names: &StringNames<'_>,
    expr: &Expr,
) -> Result<Option<Vec<String>>, AllocError>
    ensures { IfOk result (λ found. (g : Grammar) → Serve bodies.now names.now g
        → TextsUntil g (expression_of expr.now) found) }
{
    let Expr::Seq(left, right) = expr else {
        return Ok(None);
    };
    let Expr::NegPred(inner) = &**left else {
        return Ok(None);
    };
    let Expr::Ident(name) = &**right else {
        return Ok(None);
    };
    if name.as_str() != CharSet::Any.name() {
        return Ok(None);
    }
    strings_of(alloc, bodies, names, inner)
}
