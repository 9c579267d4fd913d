//! Rules in which each terminal is a rule of its own.
ghost use Rattle.std.specs.Prelude.{◌≡◌, ◌<◌, ◌^◌, [], ⊤, IfOk, length, map};
ghost use Rattle.base_ast.specs.Ast.{rule_type_of, text_of};
ghost use Rattle.base_ast.specs.Optimized.{optimized_expression_of, optimized_rule_of, optimized_rules_of};
ghost use Rattle.base_ast.specs.Printing.{printed};
ghost use Rattle.base_language.specs.Language.Expression.{Expression, NodeTag};
ghost use Rattle.matcher_support.specs.Wrapped.{wrapped_rules};
ghost use Rattle.matcher_terminals.specs.Exposed.{exposed, labelled_rule, token_type};
ghost use Rattle.matcher_terminals.specs.Frames.{labelled_of, size_of, waits_of, with_operand};

use crate::labels::is_trivia;
use base_ast::ast::RuleType;
use base_ast::deep::{Deep, Release};
use base_ast::optimized::{OptimizedExpr, OptimizedRule, PlainSign, Sign};
use base_ast::rebuilt::{Rebuild, Step, rebuild_tree};
use base_ast::shape::{Joint, Shaped};
use front_names::is_builtin;
use matcher_support::tags::wrapped::wrap_rules;
use std::alloc::{AllocError, Global};

/// An expression whose terminals have no tags yet.
#[derive(Drop)]
struct Unlabelled {
    alloc: Global,
    expr: OptimizedExpr,
}

impl Release for Unlabelled {
    fn release(self) {
        self.expr.release();
    }
}

/// A continuation frame of the tagging.
#[derive(Drop)]
enum LabellingFrame {
    /// A tag of the grammar's author, which is left out.
    Tag,
    Sign(Sign),
    /// The operand is the left one, and this the right one.
    First(Global, Joint, Deep<Box<OptimizedExpr>>),
    /// The operand is the right one, and this the left one with its tags.
    Second(Joint, Deep<Box<OptimizedExpr>>),
}

/// Returns a step into an operand.
fn enter_operand(
    alloc: Global,
    around: LabellingFrame,
    operand: Box<OptimizedExpr>,
) -> Step<Unlabelled, LabellingFrame, OptimizedExpr>
    ensures { result ≡ Step.Inside around (record { alloc = alloc; expr = operand.value }) }
{
    let expr = Box::into_inner(operand);
    Step::Inside(around, Unlabelled { alloc, expr })
}

impl Rebuild for LabellingFrame {
    type Source = Unlabelled;

    type Target = OptimizedExpr;

    ghost Meaning = { Expression };

    ghost says = { λ source. labelled_of source };

    ghost made = { λ target. optimized_expression_of target };

    ghost fills = { λ around operand. with_operand around operand };

    ghost is_right = { λ source. ⊤ };

    ghost is_ready = { λ around. ⊤ };

    ghost size = { λ source. size_of source };

    ghost waits = { λ around. waits_of around };

    fn open(
        source: Unlabelled,
    ) -> Result<Step<Unlabelled, LabellingFrame, OptimizedExpr>, AllocError> {
        use OptimizedExpr as E;
        let Unlabelled { alloc, expr } = source;
        let (sign, operand) = match expr {
            E::PosPred(inner) => (Sign::Plain(PlainSign::PosPred), inner),
            E::NegPred(inner) => (Sign::Plain(PlainSign::NegPred), inner),
            E::Opt(inner) => (Sign::Plain(PlainSign::Opt), inner),
            E::Rep(inner) => (Sign::Plain(PlainSign::Rep), inner),
            E::RepOnce(inner) => (Sign::Plain(PlainSign::RepOnce), inner),
            E::Push(inner) => (Sign::Plain(PlainSign::Push), inner),
            E::RestoreOnErr(inner) => (Sign::Wrapper, inner),
            E::NodeTag(inner, _) => return Ok(enter_operand(alloc, LabellingFrame::Tag, inner)),
            E::Seq(left, right) => {
                let right = Deep { value: right };
                let around = LabellingFrame::First(alloc, Joint::Sequence, right);
                return Ok(enter_operand(alloc, around, left));
            }
            E::Choice(left, right) => {
                let right = Deep { value: right };
                let around = LabellingFrame::First(alloc, Joint::Choice, right);
                return Ok(enter_operand(alloc, around, left));
            }
            E::Skip(texts) => return Ok(Step::Made(E::Skip(texts))),
            E::PushLiteral(text) => return Ok(Step::Made(E::PushLiteral(text))),
            E::Ident(name) => {
                if is_builtin(name.as_str()) {
                    return Ok(Step::Made(add_label(alloc, E::Ident(name))?));
                }
                return Ok(Step::Made(E::Ident(name)));
            }
            terminal => return Ok(Step::Made(add_label(alloc, terminal)?)),
        };
        Ok(enter_operand(alloc, LabellingFrame::Sign(sign), operand))
    }

    fn close(
        self,
        alloc: Global,
        operand: OptimizedExpr,
    ) -> Result<Step<Unlabelled, LabellingFrame, OptimizedExpr>, AllocError> {
        match self {
            LabellingFrame::Tag => Ok(Step::Made(operand)),
            LabellingFrame::Sign(sign) => {
                let operand = Deep { value: operand }.into_box(alloc)?;
                Ok(Step::Made(OptimizedExpr::enclose(sign, operand.into_inner())))
            }
            LabellingFrame::First(_, joint, right) => {
                let left = Deep { value: operand }.into_box(alloc)?;
                let around = LabellingFrame::Second(joint, left);
                Ok(enter_operand(alloc, around, right.into_inner()))
            }
            LabellingFrame::Second(joint, left) => {
                let right = Deep { value: operand }.into_box(alloc)?;
                Ok(Step::Made(OptimizedExpr::join(joint, left.into_inner(), right.into_inner())))
            }
        }
    }
}

/// Returns `terminal` with a tag: its printed text. The only error is an allocation failure.
fn add_label(alloc: Global, terminal: OptimizedExpr) -> Result<OptimizedExpr, AllocError>
    ensures { IfOk result (λ made. optimized_expression_of made
        ≡ NodeTag (optimized_expression_of terminal) (printed (optimized_expression_of terminal))) }
{
    let terminal = Deep { value: terminal };
    let label = terminal.value.to_string(alloc)?;
    let operand = terminal.into_box(alloc)?;
    Ok(OptimizedExpr::NodeTag(operand.into_inner(), label))
}

/// Returns the type of an exposed rule. `ty` is the type of the rule in the grammar, and
/// `is_trivia` says whether the rule is `WHITESPACE` or `COMMENT`.
fn token_type(is_trivia: bool, ty: RuleType) -> RuleType
    ensures { rule_type_of result ≡ token_type is_trivia (rule_type_of ty) }
{
    match (is_trivia, ty) {
        (true, _) => RuleType::CompoundAtomic,
        (false, RuleType::Normal) | (false, RuleType::Silent) => RuleType::Silent,
        (false, RuleType::Atomic) | (false, RuleType::CompoundAtomic) => RuleType::CompoundAtomic,
        (false, RuleType::NonAtomic) => RuleType::NonAtomic,
    }
}

/// Tags the terminals in the body of a rule. The only error is an allocation failure.
fn label_rule(alloc: Global, rule: &OptimizedRule) -> Result<Deep<OptimizedRule>, AllocError>
    ensures { IfOk result (λ made.
        optimized_rule_of made.value ≡ labelled_rule (optimized_rule_of rule.now)) }
{
    let name = rule.name.clone()?;
    let expr = rule.expr.clone()?;
    let expr = rebuild_tree::<LabellingFrame>(
        alloc,
        Unlabelled { alloc, expr },
        &mut Vec::new(alloc),
    )?;
    let ty = token_type(is_trivia(name.as_str()), rule.ty);
    Ok(Deep {
        value: OptimizedRule { name, ty, expr },
    })
}

/// Returns the exposed rules of `rules`. First comes a rule for each terminal in the bodies of
/// `rules`. Then come the rules of `rules`, in order, which call the rules of the terminals.
///
/// The name of the rule of a terminal is a number, `#`, and the terminal as it is printed. These
/// rules give tokens. So do the rules of `rules` with `@`, `$` or `!`, `WHITESPACE` and `COMMENT`.
/// No other rule gives a token.
///
/// # Errors
/// `AllocError` if an allocation fails.
pub fn expose_terminals(
    alloc: Global,
    rules: &[OptimizedRule],
) -> Result<Deep<Vec<OptimizedRule>>, AllocError>
    ensures exposed { IfOk result (λ made.
        optimized_rules_of made.value.items ≡ exposed (optimized_rules_of rules.now)) }
    ensures few { IfOk result (λ made.
        length (wrapped_rules (map labelled_rule (optimized_rules_of rules.now)) []).1 < 2 ^ 64) }
{
    let mut labelled = Deep {
        value: Vec::new(alloc),
    };
    for rule in rules {
        labelled.push(label_rule(alloc, rule)?)?;
    }
    wrap_rules(alloc, &labelled.value)
}
