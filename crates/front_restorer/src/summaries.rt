//! Summaries of the bodies of rules: whether they change the stack by themselves, and the numbers of the
//! rules that they call, in one list.
ghost use Rattle.std.specs.Prelude.{◌≡◌, ◌++◌, ◌∷◌, [], IfOk, OnOk, map};
ghost use Rattle.base_language.specs.Language.Expression.{Expression};
ghost use Rattle.base_ast.specs.Ast.{text_of};
ghost use Rattle.base_ast.specs.Optimized.{optimized_expression_of};
ghost use Rattle.base_graphs.specs.Least.{is_set_at};
ghost use Rattle.front_restorer.specs.Bodies.{said_by};
ghost use Rattle.front_restorer.specs.Calls.{names_in};
ghost use Rattle.front_restorer.specs.Changing.{changes_by, is_changer};
ghost use Rattle.front_restorer.specs.Summaries.{AreSummariesOf, IsSummaryOf, IsWithin, numbers_if_known, shows};

use crate::bodies::Body;
use crate::calls::{is_flagged, is_settled};
use crate::names::{Names, is_changer_name, number_of_name};
use base_ast::optimized::OptimizedExpr;
use std::alloc::{AllocError, Global};

/// The summary of an expression, without its wrappers.
#[derive(Clone, Copy)]
pub struct Summary {
    /// Whether a `PUSH`, `PUSH_LITERAL`, `POP`, `POP_ALL` or `DROP` occurs.
    pub changes: bool,
    /// The indices between which the numbers of the expression's names are in the list.
    pub start: usize,
    pub end: usize,
}

/// The summaries of the bodies of all rules.
#[derive(Drop)]
pub struct Summaries {
    /// The number of the rule that a name means, if it means one, for every name, body by body and in
    /// order.
    pub numbers: Vec<Option<usize>>,
    /// The shares of the bodies, by rule.
    pub shares: Vec<Summary>,
}

/// Appends the number of a name, if names are known.
fn push_number(
    names: Option<&Names>,
    name: &String,
    numbers: &mut Vec<Option<usize>>,
) -> Result<(), AllocError>
    ensures { OnOk result (numbers.new.items
        ≡ numbers.old.items ++ numbers_if_known names.entry (text_of name.now ∷ [])) }
{
    if let Some(names) = names {
        numbers.push(number_of_name(names, name))?;
    }
    Ok(())
}

/// Reports whether a `PUSH`, `PUSH_LITERAL`, `POP`, `POP_ALL` or `DROP` occurs in an expression, not
/// below a wrapper. Appends the numbers of the names that occur, if names are known.
#[tactic(auto, using(crate::proofs::Turns::one_more))]
fn look(
    alloc: Global,
    names: Option<&Names>,
    expr: &OptimizedExpr,
    numbers: &mut Vec<Option<usize>>,
) -> Result<bool, AllocError>
    ensures changes { IfOk result
        (λ yes. yes ≡ changes_by is_changer (optimized_expression_of expr.now)) }
    ensures numbers { OnOk result (numbers.new.items
        ≡ numbers.old.items ++ numbers_if_known names.entry (names_in (optimized_expression_of expr.now))) }
{
    let mut is_changing = false;
    let mut waiting: Vec<&OptimizedExpr> = Vec::new(alloc);
    let mut here = expr;
    'parts: loop {
        match here {
            OptimizedExpr::Push(inner) => {
                is_changing = true;
                here = inner;
            }
            OptimizedExpr::NodeTag(inner, _) => here = inner,
            OptimizedExpr::PosPred(inner) => here = inner,
            OptimizedExpr::NegPred(inner) => here = inner,
            OptimizedExpr::Opt(inner) => here = inner,
            OptimizedExpr::Rep(inner) => here = inner,
            OptimizedExpr::RepOnce(inner) => here = inner,
            OptimizedExpr::Seq(left, right) | OptimizedExpr::Choice(left, right) => {
                let is_left_settled = is_settled(left);
                let is_right_settled = is_settled(right);
                if is_left_settled {
                    here = right;
                } else if is_right_settled {
                    here = left;
                } else {
                    waiting.push(right)?;
                    here = left;
                }
            }
            OptimizedExpr::Ident(name) => {
                push_number(names, name, numbers)?;
                is_changing = is_changing || is_changer_name(name);
                match waiting.pop() {
                    Some(next) => here = next,
                    None => return Ok(is_changing),
                }
            }
            OptimizedExpr::PushLiteral(_) => {
                is_changing = true;
                match waiting.pop() {
                    Some(next) => here = next,
                    None => return Ok(true),
                }
            }
            _ => match waiting.pop() {
                Some(next) => here = next,
                None => return Ok(is_changing),
            },
        }
    }
}

/// Reports whether one of these occurs in an expression, not below a wrapper.
pub(crate) fn changes_itself(alloc: Global, expr: &OptimizedExpr) -> Result<bool, AllocError>
    ensures { IfOk result (λ yes. yes ≡ changes_by is_changer (optimized_expression_of expr.now)) }
{
    let mut numbers = Vec::new(alloc);
    look(alloc, None, expr, &mut numbers)
}

/// Summarizes an expression.
pub(crate) fn summarize(
    alloc: Global,
    names: &Names,
    expr: &OptimizedExpr,
    numbers: &mut Vec<Option<usize>>,
) -> Result<Summary, AllocError>
    ensures noted { IfOk result
        (λ share. IsSummaryOf names.now (optimized_expression_of expr.now) numbers.new.items share) }
    ensures kept { OnOk result ((e : Expression) (s : Summary)
        → IsSummaryOf names.now e numbers.old.items s → IsSummaryOf names.now e numbers.new.items s) }
{
    let start = numbers.len();
    let changes = look(alloc, Some(names), expr, numbers)?;
    Ok(Summary {
        changes,
        start,
        end: numbers.len(),
    })
}

/// Summarizes every body.
pub(crate) fn summarize_bodies<'a>(
    alloc: Global,
    names: &Names,
    bodies: &[Body<'a>],
) -> Result<Summaries, AllocError>
    ensures { IfOk result (AreSummariesOf names.now (map said_by bodies.now)) }
{
    let mut numbers = Vec::new(alloc);
    let mut shares = Vec::with_capacity(alloc, bodies.len())?;
    for body in bodies {
        let share = summarize(alloc, names, body.expr, &mut numbers)?;
        shares.push(share)?;
    }
    Ok(Summaries { numbers, shares })
}

/// Reports whether a `PUSH`, `PUSH_LITERAL`, `POP`, `POP_ALL` or `DROP` occurs, or a rule whose flag is
/// set.
pub(crate) fn is_shown(numbers: &[Option<usize>], share: Summary, flags: &[bool]) -> bool
    requires { IsWithin numbers.now share }
    ensures { result ≡ shows numbers.now (is_set_at flags.now) share }
{
    if share.changes {
        return true;
    }
    for rule in &numbers[share.start..share.end] {
        if is_flagged(flags, *rule) {
            return true;
        }
    }
    false
}
