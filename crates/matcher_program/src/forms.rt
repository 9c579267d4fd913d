//! The compiler of expressions, iterative with continuation frames, so that stack use does not depend on
//! the nesting of a grammar.
ghost use Rattle.std.specs.Prelude.{◌≡◌, ◌<◌, ◌≤◌, ◌*◌, IfErr, IfOk, List};
ghost use Rattle.base_language.specs.Language.Expression.{Expression, Grammar};
ghost use Rattle.base_language.specs.Language.Text.{Text};
ghost use Rattle.base_ast.specs.Optimized.{optimized_expression_of, optimized_rules_of};
ghost use Rattle.base_ast.specs.Weight.{weight};
ghost use Rattle.matcher_program.specs.Compiled.{Compiles, names_in};
ghost use Rattle.matcher_program.specs.Forming.{IsAroundWithin, IsReady, IsSoundStep, IsStepWithin, comes_of, effort, waits_of, with_operand};
ghost use Rattle.matcher_program.specs.Indexed.{KnowsLast};
ghost use Rattle.matcher_program.specs.Programs.{IsBound, expression_of};
ghost use Rattle.matcher_program.specs.Refusals.{IsWrongIn};
ghost use Rattle.matcher_program.specs.declared.compile.Unfit.TheVariants.{Memory};
ghost use Rattle.matcher_program.specs.declared.form.Property.{Property};

use crate::compile::{Unfit, range_bound, resolve_name};
use crate::form::{Form, Property};
use crate::indexed::Indexed;
use crate::sets::to_set;
use base_ast::deep::Deep;
use base_ast::optimized::OptimizedExpr;
use base_ast::rebuilt::Step;
use base_ast::texts::copy_texts;
use std::alloc::Global;

/// A continuation frame, the operator around an operand while the form of that is made.
#[derive(Drop)]
pub enum CompilerFrame<'e> {
    PosPred,
    NegPred,
    Opt,
    Rep,
    RepOnce,
    Push,
    Restore,
    Tag(String),
    /// A `~` whose left side is compiled, and the right side.
    FirstOfSeq(&'e Box<OptimizedExpr>),
    /// A `|` whose left side is compiled, and the right side.
    FirstOfChoice(&'e Box<OptimizedExpr>),
    /// A `~` whose right side is compiled, and the form of the left side.
    SecondOfSeq(Deep<Box<Form>>),
    /// A `|` whose right side is compiled, and the form of the left side.
    SecondOfChoice(Deep<Box<Form>>),
}

/// Begins to compile: returns the form of an expression without operands, or the first operand with its
/// frame.
fn begin<'e>(
    alloc: Global,
    rules: &Indexed<'_>,
    properties: &[Property],
    expr: &'e OptimizedExpr,
) -> Result<Step<&'e OptimizedExpr, CompilerFrame<'e>, Form>, Unfit>
    requires { KnowsLast (optimized_rules_of rules.now.rules.now) rules.now.numbers }
    ensures says { IfOk result (λ step. comes_of (names_in (optimized_rules_of rules.now.rules.now)) step
        ≡ optimized_expression_of expr.entry.now) }
    ensures work { IfOk result (λ step. effort step ≤ 4 * weight (optimized_expression_of expr.entry.now)) }
    ensures sound { IfOk result (IsSoundStep (optimized_rules_of rules.now.rules.now) properties.now) }
    ensures within { IfOk result (IsStepWithin (optimized_expression_of expr.entry.now)) }
    ensures refused { IfErr result (IsWrongIn properties.now (optimized_rules_of rules.now.rules.now)
        (optimized_expression_of expr.entry.now)) }
{
    use OptimizedExpr as E;
    let (around, operand) = match expr {
        E::Str(text) => return Ok(Step::Made(Form::Str(text.clone()?))),
        E::Insens(text) => return Ok(Step::Made(Form::Insens(text.clone()?))),
        E::Range(low, high) => return Ok(Step::Made(Form::Range(
            range_bound(low)?,
            range_bound(high)?,
        ))),
        E::Ident(name) => return Ok(Step::Made(resolve_name(rules, properties, name)?)),
        E::PeekSlice(start, end) => return Ok(Step::Made(Form::PeekSlice(*start, *end))),
        E::Skip(texts) => return Ok(Step::Made(Form::Skip(copy_texts(texts)?))),
        E::PushLiteral(text) => return Ok(Step::Made(Form::PushLiteral(text.clone()?))),
        E::PosPred(inner) => (CompilerFrame::PosPred, inner),
        E::NegPred(inner) => (CompilerFrame::NegPred, inner),
        E::Opt(inner) => (CompilerFrame::Opt, inner),
        E::Rep(inner) => (CompilerFrame::Rep, inner),
        E::RepOnce(inner) => (CompilerFrame::RepOnce, inner),
        E::Push(inner) => (CompilerFrame::Push, inner),
        E::RestoreOnErr(inner) => (CompilerFrame::Restore, inner),
        E::NodeTag(inner, tag) => (CompilerFrame::Tag(tag.clone()?), inner),
        E::Seq(left, right) => (CompilerFrame::FirstOfSeq(right), left),
        E::Choice(left, right) => (CompilerFrame::FirstOfChoice(right), left),
    };
    Ok(Step::Inside(around, operand))
}

/// Boxes an operand's form, made to a set if it is one, except in a choice, which may be one as a whole.
fn in_place(alloc: Global, around: &CompilerFrame<'_>, form: Form) -> Result<Deep<Box<Form>>, Unfit>
    ensures memory { IfErr result (λ unfit. unfit ≡ Memory) }
    ensures same { IfOk result (λ made. (g : Grammar) (ps : List Property) (e : Expression)
        → Compiles g ps e form → Compiles g ps e made.value.value) }
{
    match around {
        CompilerFrame::FirstOfChoice(_) | CompilerFrame::SecondOfChoice(_) => {
            Ok(Deep { value: form }.into_box(alloc)?)
        }
        _ => {
            let value = to_set(alloc, form)?;
            Ok(Deep { value }.into_box(alloc)?)
        }
    }
}

/// Continues with the boxed form of an operand: returns the form of the whole, or the next operand.
fn resume_boxed<'e>(
    around: CompilerFrame<'e>,
    form: Deep<Box<Form>>,
) -> Step<&'e OptimizedExpr, CompilerFrame<'e>, Form>
    ensures says { (names : List Text) → comes_of names result
        ≡ with_operand names around.entry (expression_of names form.value.value) }
    ensures work { effort result < waits_of around.entry }
    ensures sound { (g : Grammar) (ps : List Property) → IsReady g ps around.entry
        → IsBound g (names_in g) ps form.value.value → IsSoundStep g ps result }
    ensures within { (whole : Expression) → IsAroundWithin whole around.entry → IsStepWithin whole result }
{
    match around {
        CompilerFrame::FirstOfSeq(right) => Step::Inside(CompilerFrame::SecondOfSeq(form), right),
        CompilerFrame::FirstOfChoice(right) => Step::Inside(
            CompilerFrame::SecondOfChoice(form),
            right,
        ),
        CompilerFrame::PosPred => Step::Made(Form::PosPred(form.into_inner())),
        CompilerFrame::NegPred => Step::Made(Form::NegPred(form.into_inner())),
        CompilerFrame::Opt => Step::Made(Form::Opt(form.into_inner())),
        CompilerFrame::Rep => Step::Made(Form::Rep(form.into_inner())),
        CompilerFrame::RepOnce => Step::Made(Form::RepOnce(form.into_inner())),
        CompilerFrame::Push => Step::Made(Form::Push(form.into_inner())),
        CompilerFrame::Restore => Step::Made(Form::Restore(form.into_inner())),
        CompilerFrame::Tag(tag) => Step::Made(Form::Tag(form.into_inner(), tag)),
        CompilerFrame::SecondOfSeq(left) => {
            Step::Made(Form::Seq(left.into_inner(), form.into_inner()))
        }
        CompilerFrame::SecondOfChoice(left) => {
            Step::Made(Form::Choice(left.into_inner(), form.into_inner()))
        }
    }
}

/// Continues with the form of an operand: returns the form of the whole, or the next operand.
fn resume<'e>(
    alloc: Global,
    around: CompilerFrame<'e>,
    operand: Form,
) -> Result<Step<&'e OptimizedExpr, CompilerFrame<'e>, Form>, Unfit>
    ensures says { IfOk result (λ step. (g : Grammar) (ps : List Property)
        → IsBound g (names_in g) ps operand → comes_of (names_in g) step
        ≡ with_operand (names_in g) around.entry (expression_of (names_in g) operand)) }
    ensures work { IfOk result (λ step. effort step < waits_of around.entry) }
    ensures sound { IfOk result (λ step. (g : Grammar) (ps : List Property) → IsReady g ps around.entry
        → IsBound g (names_in g) ps operand → IsSoundStep g ps step) }
    ensures within { IfOk result (λ step. (whole : Expression) → IsAroundWithin whole around.entry
        → IsStepWithin whole step) }
    ensures memory { IfErr result (λ unfit. unfit ≡ Memory) }
{
    let form = in_place(alloc, &around, operand)?;
    Ok(resume_boxed(around, form))
}

/// Compiles an expression. Errors: an allocation failure, a name that means nothing, and a bound of a range
/// that is not one character.
pub(crate) fn form_of(
    alloc: Global,
    rules: &Indexed<'_>,
    properties: &[Property],
    expr: &OptimizedExpr,
) -> Result<Form, Unfit>
    requires { KnowsLast (optimized_rules_of rules.now.rules.now) rules.now.numbers }
    ensures compiles { IfOk result (Compiles (optimized_rules_of rules.now.rules.now) properties.now
        (optimized_expression_of expr.now)) }
    ensures refused { IfErr result (IsWrongIn properties.now (optimized_rules_of rules.now.rules.now)
        (optimized_expression_of expr.now)) }
{
    let mut outside = Vec::new(alloc);
    let mut step = begin(alloc, rules, properties, expr)?;
    'steps: loop {
        match step {
            Step::Inside(around, operand) => match outside.push(around) {
                Ok(()) => step = begin(alloc, rules, properties, operand)?,
                Err(_) => return Err(Unfit::Memory),
            },
            Step::Made(form) => match outside.pop() {
                Some(around) => step = resume(alloc, around, form)?,
                None => return Ok(form),
            },
        }
    }
}
