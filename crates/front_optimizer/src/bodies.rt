//! The bodies of rules by their names.
ghost use Rattle.std.specs.Prelude.{◌≡◌, ◌++◌, ◌∷◌, [], IfOk, OnOk};
ghost use Rattle.std.specs.Bool.{OnTrue};
ghost use Rattle.base_language.specs.Language.Expression.{Atomic, Grammar};
ghost use Rattle.base_ast.specs.Ast.{expression_of, rule_of_code, rule_type_of, rules_of};
ghost use Rattle.front_optimizer.specs.Bodies.{HoldsBodies, HasNoTurn, HaveNoTurns, IsTurn, SufficeFor};

use crate::skipper::is_no_turn;
use crate::traversal::{Pass, all_stay};
use base_ast::ast::{Expr, Rule, RuleType};
use base_ast::deep::Deep;
use std::alloc::{AllocError, Global};
use std::collections::HashMap;

/// Collects the bodies of rules by name; of several rules of one name the last counts. The only fault is
/// an allocation failure.
pub(crate) fn bodies_of(
    alloc: Global,
    rules: &Vec<Rule>,
) -> Result<Deep<HashMap<String, Expr>>, AllocError>
    ensures { IfOk result (λ bodies. HoldsBodies bodies.value (rules_of rules.now.items)) }
{
    let mut bodies = Deep {
        value: HashMap::new(alloc),
    };
    for rule in rules {
        add_body(&mut bodies.value, rule)?;
    }
    Ok(bodies)
}

// Adds the body of a rule to those of the rules before it.
fn add_body(bodies: &mut HashMap<String, Expr>, rule: &Rule) -> Result<(), AllocError>
    ensures { OnOk result ((g : Grammar) → HoldsBodies bodies.old g
        → HoldsBodies bodies.new (g ++ rule_of_code rule.now ∷ [])) }
{
    let name = rule.name.clone()?;
    let body = rule.expr.clone()?;
    match bodies.insert(name, body) {
        Ok(None) => Ok(()),
        Ok(Some(hidden)) => {
            hidden.release();
            Ok(())
        }
        Err(refused) => {
            let (_, body) = refused.value;
            body.release();
            Err(AllocError)
        }
    }
}

/// Collects the bodies that `skip` looks up in these rules, none if no Atomic rule has a repetition
/// that a forward search may replace. The only fault is an allocation failure.
pub(crate) fn bodies_for_skip(
    alloc: Global,
    rules: &Vec<Rule>,
) -> Result<Deep<HashMap<String, Expr>>, AllocError>
    ensures { IfOk result
        (λ bodies. SufficeFor bodies.value (rules_of rules.now.items) (rules_of rules.now.items)) }
{
    let are_free = are_free_of_turns(alloc, rules)?;
    if are_free {
        return Ok(Deep {
            value: HashMap::new(alloc),
        });
    }
    bodies_of(alloc, rules)
}

// Reports whether no Atomic rule has a repetition that a forward search may replace.
fn are_free_of_turns(alloc: Global, rules: &Vec<Rule>) -> Result<bool, AllocError>
    ensures { IfOk result (λ yes. OnTrue yes (HaveNoTurns (rules_of rules.now.items))) }
{
    for rule in rules {
        let is_free = is_free_of_turns(alloc, rule)?;
        if !is_free {
            return Ok(false);
        }
    }
    Ok(true)
}

/// Reports whether a rule has no repetition that a forward search may replace; rules that are not Atomic
/// have none.
pub(crate) fn is_free_of_turns(alloc: Global, rule: &Rule) -> Result<bool, AllocError>
    ensures { IfOk result (λ yes. OnTrue yes (rule_type_of rule.now.ty ≡ Atomic
        → HasNoTurn (expression_of rule.now.expr))) }
{
    match rule.ty {
        RuleType::Atomic => all_stay(alloc, &Turns, &rule.expr),
        _ => Ok(true),
    }
}

// Searches repetitions that a forward search may replace.
#[derive(Drop)]
struct Turns;

impl Pass for Turns {
    ghost gives = { λ _ a b. IsTurn a → ⊥ };

    fn stays_at(&self, node: &Expr) -> bool {
        is_no_turn(node)
    }
}
