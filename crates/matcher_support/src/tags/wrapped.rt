//! Wrapped rules, in which a tag is a call of an added rule, called a *wrapper* here. A wrapper
//! gives one more tree, which ends at the end of the tagged expression.
ghost use Rattle.std.specs.Prelude.{◌≡◌, ◌<◌, ◌^◌, [], ⊤, IfOk, chars, length};
ghost use Rattle.base_language.specs.Language.Expression.{Expression, Grammar};
ghost use Rattle.base_ast.specs.Optimized.{optimized_expression_of, optimized_rule_of, optimized_rules_of};
ghost use Rattle.matcher_support.specs.Frames.{IsWrapped, made_of, size_of, waits_of, with_operand, wrapped_of};
ghost use Rattle.matcher_support.specs.Wrapped.{with_wrapper, wrapped_grammar, wrapped_rules};

use crate::tags::names::name_wrapper;
use base_ast::ast::RuleType;
use base_ast::deep::{Deep, Release};
use base_ast::optimized::{OptimizedExpr, OptimizedRule, PlainSign, Sign};
use base_ast::rebuilt::{Rebuild, Step, rebuild_tree};
use base_ast::shape::{Joint, Shaped};
use std::alloc::{AllocError, Global};

/// An expression, and the wrappers that were made so far.
#[derive(Drop)]
struct Wrapping {
    expr: OptimizedExpr,
    wrappers: Vec<OptimizedRule>,
}

impl Release for Wrapping {
    fn release(self) {
        self.expr.release();
        self.wrappers.release();
    }
}

/// A continuation frame of the wrapping.
#[derive(Drop)]
enum WrappingFrame {
    Sign(Sign),
    /// The operand is the left one, and this the right one.
    First(Joint, Deep<Box<OptimizedExpr>>),
    /// The operand is the right one, and this the wrapped left one.
    Second(Joint, Deep<Box<OptimizedExpr>>),
}

/// Returns a step into an operand.
fn enter_operand(
    around: WrappingFrame,
    operand: Box<OptimizedExpr>,
    wrappers: Vec<OptimizedRule>,
) -> Step<Wrapping, WrappingFrame, Wrapping>
    ensures { result ≡ Step.Inside around (record { expr = operand.value; wrappers = wrappers }) }
{
    let expr = Box::into_inner(operand);
    Step::Inside(around, Wrapping { expr, wrappers })
}

impl Rebuild for WrappingFrame {
    type Source = Wrapping;

    type Target = Wrapping;

    ghost Meaning = { Expression × Grammar };

    ghost says = { λ source. wrapped_of source };

    ghost made = { λ target. made_of target };

    ghost fills = { λ around operand. with_operand around operand };

    ghost is_right = { λ source. ⊤ };

    ghost is_ready = { λ around. ⊤ };

    ghost size = { λ source. size_of source };

    ghost waits = { λ around. waits_of around };

    fn open(source: Wrapping) -> Result<Step<Wrapping, WrappingFrame, Wrapping>, AllocError> {
        use OptimizedExpr as E;
        let Wrapping { expr, wrappers } = source;
        let (sign, operand) = match expr {
            E::PosPred(inner) => (Sign::Plain(PlainSign::PosPred), inner),
            E::NegPred(inner) => (Sign::Plain(PlainSign::NegPred), inner),
            E::Opt(inner) => (Sign::Plain(PlainSign::Opt), inner),
            E::Rep(inner) => (Sign::Plain(PlainSign::Rep), inner),
            E::RepOnce(inner) => (Sign::Plain(PlainSign::RepOnce), inner),
            E::Push(inner) => (Sign::Plain(PlainSign::Push), inner),
            E::NodeTag(inner, tag) => (Sign::Plain(PlainSign::NodeTag(tag)), inner),
            E::RestoreOnErr(inner) => (Sign::Wrapper, inner),
            E::Seq(left, right) => {
                let around = WrappingFrame::First(Joint::Sequence, Deep { value: right });
                return Ok(enter_operand(around, left, wrappers));
            }
            E::Choice(left, right) => {
                let around = WrappingFrame::First(Joint::Choice, Deep { value: right });
                return Ok(enter_operand(around, left, wrappers));
            }
            expr => return Ok(Step::Made(Wrapping { expr, wrappers })),
        };
        Ok(enter_operand(WrappingFrame::Sign(sign), operand, wrappers))
    }

    fn close(
        self,
        alloc: Global,
        operand: Wrapping,
    ) -> Result<Step<Wrapping, WrappingFrame, Wrapping>, AllocError> {
        let Wrapping { expr, wrappers } = operand;
        let wrappers = Deep { value: wrappers };
        match self {
            WrappingFrame::Sign(Sign::Plain(PlainSign::NodeTag(tag))) => {
                let expr = Deep { value: expr };
                Ok(Step::Made(wrap(alloc, expr, tag.as_str(), wrappers)?))
            }
            WrappingFrame::Sign(sign) => {
                let operand = Deep { value: expr }.into_box(alloc)?;
                let expr = OptimizedExpr::enclose(sign, operand.into_inner());
                let wrappers = wrappers.into_inner();
                Ok(Step::Made(Wrapping { expr, wrappers }))
            }
            WrappingFrame::First(joint, right) => {
                let left = Deep { value: expr }.into_box(alloc)?;
                let around = WrappingFrame::Second(joint, left);
                let wrappers = wrappers.into_inner();
                Ok(enter_operand(around, right.into_inner(), wrappers))
            }
            WrappingFrame::Second(joint, left) => {
                let right = Deep { value: expr }.into_box(alloc)?;
                let expr = OptimizedExpr::join(joint, left.into_inner(), right.into_inner());
                let wrappers = wrappers.into_inner();
                Ok(Step::Made(Wrapping { expr, wrappers }))
            }
        }
    }
}

/// Makes the wrapper of an expression, whose own tags are calls, and returns a call of it.
fn wrap(
    alloc: Global,
    expr: Deep<OptimizedExpr>,
    tag: &str,
    mut wrappers: Deep<Vec<OptimizedRule>>,
) -> Result<Wrapping, AllocError>
    ensures { IfOk result (λ made. made_of made ≡ with_wrapper (chars tag.now)
        (optimized_expression_of expr.value, optimized_rules_of wrappers.value.items)) }
{
    let name = name_wrapper(alloc, wrappers.value.len(), tag)?;
    let call = name.clone()?;
    let wrapper = OptimizedRule {
        name,
        ty: RuleType::Normal,
        expr: expr.into_inner(),
    };
    wrappers.push(Deep { value: wrapper })?;
    Ok(Wrapping {
        expr: OptimizedExpr::Ident(call),
        wrappers: wrappers.into_inner(),
    })
}

/// Wraps the tags in the body of a rule. New wrappers follow those that were made before.
fn wrap_rule(
    alloc: Global,
    rule: &OptimizedRule,
    wrappers: Deep<Vec<OptimizedRule>>,
) -> Result<(OptimizedRule, Vec<OptimizedRule>), AllocError>
    ensures { IfOk result (λ it. IsWrapped (optimized_rule_of rule.now)
        (optimized_rules_of wrappers.value.items)
        (optimized_rule_of it.0) (optimized_rules_of it.1.items)) }
{
    let name = rule.name.clone()?;
    let expr = rule.expr.clone()?;
    let source = Wrapping {
        expr,
        wrappers: wrappers.into_inner(),
    };
    let Wrapping { expr, wrappers } = rebuild_tree::<WrappingFrame>(
        alloc,
        source,
        &mut Vec::new(alloc),
    )?;
    let rule = OptimizedRule {
        name,
        ty: rule.ty,
        expr,
    };
    Ok((rule, wrappers))
}

/// Returns the wrapped rules of `rules`: first a wrapper for each tag, and then the rules of
/// `rules`, in order, which call the wrappers. The only error is an allocation failure.
pub fn wrap_rules(
    alloc: Global,
    rules: &[OptimizedRule],
) -> Result<Deep<Vec<OptimizedRule>>, AllocError>
    ensures wrapped { IfOk result (λ wrapped. optimized_rules_of wrapped.value.items
        ≡ wrapped_grammar (optimized_rules_of rules.now)) }
    ensures few { IfOk result (λ wrapped.
        length (wrapped_rules (optimized_rules_of rules.now) []).1 < 2 ^ 64) }
{
    let mut done = Deep {
        value: Vec::new(alloc),
    };
    let mut wrappers = Deep {
        value: Vec::new(alloc),
    };
    for rule in rules {
        let (rule, more) = wrap_rule(alloc, rule, wrappers)?;
        wrappers = Deep { value: more };
        done.push(Deep { value: rule })?;
    }
    let _count = wrappers.value.len();
    wrappers.value.append(&mut done.value)?;
    Ok(wrappers)
}
