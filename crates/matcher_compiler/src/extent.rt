//! The comparison of a program with the size of its rules, and with their use of the stack.
ghost use Rattle.std.specs.Prelude.{◌≡◌, ◌+◌, ◌<◌, ◌≤◌, ◌||◌, IfOk, OnOk, false, true};
ghost use Rattle.matcher_code.specs.Lists.{lists_of};
ghost use Rattle.matcher_code.specs.StackUses as stack;
ghost use Rattle.matcher_program.specs.FormWeight.{weight};
ghost use Rattle.matcher_compiler.specs.Extents.{IsFitting, any_stack, count_all, count_forms, has_stack, heft, is_stack_form, own_count, size_of, uses_stack};

use matcher_code::code::{Code, Op};
use matcher_program::form::{Form, Program};
use std::alloc::{AllocError, Global};

/// Returns whether a form is one that reads or changes the stack.
fn is_stack_form(form: &Form) -> bool
    ensures { result ≡ is_stack_form form.now }
{
    match form {
        Form::Push(_)
        | Form::PushLiteral(_)
        | Form::Peek
        | Form::Pop
        | Form::Discard
        | Form::PeekAll
        | Form::PopAll
        | Form::PeekSlice(_, _) => true,
        _ => false,
    }
}

/// Returns how many forms a form itself is: 1, or 0 for a set, which stands for the form inside it.
fn own_count(form: &Form) -> u64
    ensures { result ≡ own_count form.now }
{
    match form {
        Form::Set(_) => 0,
        _ => 1,
    }
}

/// Pushes both operands of a form on a list.
fn put_both<'a>(
    waiting: &mut Vec<&'a Form>,
    left: &'a Form,
    right: &'a Form,
) -> Result<(), AllocError>
    ensures heft { OnOk result (heft waiting.new.items
        ≡ heft waiting.old.items + weight left.entry.now + weight right.entry.now) }
    ensures stack { OnOk result (any_stack waiting.new.items
        ≡ (has_stack left.entry.now || has_stack right.entry.now) || any_stack waiting.old.items) }
    ensures count { OnOk result (count_all waiting.new.items
        ≡ count_forms left.entry.now + count_forms right.entry.now + count_all waiting.old.items) }
{
    waiting.push(right)?;
    waiting.push(left)?;
    Ok(())
}

/// Pushes the operands of a form on a list.
#[tactic(auto, using(crate::proofs::Heft::heavier, crate::proofs::Heft::stacks, crate::proofs::Heft::counts))]
fn put_parts<'a>(waiting: &mut Vec<&'a Form>, form: &'a Form) -> Result<(), AllocError>
    ensures heft { OnOk result (heft waiting.new.items < heft waiting.old.items + weight form.entry.now) }
    ensures stack { OnOk result (is_stack_form form.entry.now ≡ false → any_stack waiting.new.items
        ≡ has_stack form.entry.now || any_stack waiting.old.items) }
    ensures count { OnOk result (own_count form.entry.now + count_all waiting.new.items
        ≡ count_forms form.entry.now + count_all waiting.old.items) }
{
    match form {
        Form::Str(_)
        | Form::Insens(_)
        | Form::Range(_, _)
        | Form::One(_)
        | Form::Start
        | Form::End
        | Form::Newline
        | Form::Call(_)
        | Form::Property(_, _)
        | Form::Skip(_)
        | Form::PushLiteral(_)
        | Form::Peek
        | Form::Pop
        | Form::Discard
        | Form::PeekAll
        | Form::PopAll
        | Form::PeekSlice(_, _) => {}
        Form::Seq(left, right) | Form::Choice(left, right) => put_both(waiting, left, right)?,
        Form::Tag(inner, _) => waiting.push(inner)?,
        Form::Set(inner)
        | Form::PosPred(inner)
        | Form::NegPred(inner)
        | Form::Opt(inner)
        | Form::Rep(inner)
        | Form::RepOnce(inner)
        | Form::Push(inner)
        | Form::Restore(inner) => waiting.push(inner)?,
    }
    Ok(())
}

/// Returns whether a form or a part of it is one that reads or changes the stack, iteratively.
#[tactic(auto, using(crate::proofs::Heft::heavier))]
fn has_stack(alloc: Global, form: &Form) -> Result<bool, AllocError>
    ensures { IfOk result (λ has. has ≡ has_stack form.now) }
{
    let mut waiting = Vec::new(alloc);
    waiting.push(form)?;
    'parts: while let Some(part) = waiting.pop() {
        if is_stack_form(part) {
            return Ok(true);
        }
        put_parts(&mut waiting, part)?;
    }
    Ok(false)
}

/// Returns the number of forms in a form, or fewer if no `u64` holds it, iteratively.
#[tactic(auto, using(crate::proofs::Heft::heavier))]
fn count_forms(alloc: Global, form: &Form) -> Result<u64, AllocError>
    ensures { IfOk result (λ count. count ≤ count_forms form.now) }
{
    let mut waiting = Vec::new(alloc);
    waiting.push(form)?;
    let mut count: u64 = 0;
    'parts: while let Some(part) = waiting.pop() {
        count = count.saturating_add(own_count(part));
        put_parts(&mut waiting, part)?;
    }
    Ok(count)
}

/// Returns whether the rules of a program use the stack.
pub(crate) fn uses_stack(alloc: Global, program: &Program) -> Result<bool, AllocError>
    ensures { IfOk result (λ uses. uses ≡ uses_stack program.now) }
{
    for program_rule in &program.rules {
        if has_stack(alloc, &program_rule.body)? {
            return Ok(true);
        }
    }
    Ok(false)
}

/// Returns the number of forms and rules of a program, or fewer if no `u64` holds it.
pub(crate) fn size_of(alloc: Global, program: &Program) -> Result<u64, AllocError>
    ensures { IfOk result (λ size. size ≤ size_of program.now) }
{
    let mut size: u64 = 0;
    for program_rule in &program.rules {
        let forms = count_forms(alloc, &program_rule.body)?;
        size = size.saturating_add(forms).saturating_add(1);
    }
    Ok(size)
}

/// Returns whether an operation reads or changes the stack.
fn is_stack_op(op: Op) -> bool
    ensures { result ≡ stack.uses_stack op }
{
    match op {
        Op::Push { .. }
        | Op::PushText { .. }
        | Op::Peek { .. }
        | Op::Pop { .. }
        | Op::Discard { .. }
        | Op::PeekAll { .. }
        | Op::PopAll { .. }
        | Op::Slice { .. } => true,
        _ => false,
    }
}

/// Returns whether no operation of a program reads or changes the stack.
fn is_stackless(code: &Code) -> bool
    ensures { result ≡ stack.is_stackless (lists_of code.now) }
{
    for op in &code.ops {
        if is_stack_op(*op) {
            return false;
        }
    }
    true
}

/// How many operations a program has at most for each form and each rule. A rule has up to six bodies, a form
/// up to six labels, and a call in place up to 128 forms without parts: 4,608.
const MOST_EACH: u64 = 8192;

/// Returns whether a program has no more operations than its rules ask for, and uses the stack only if they
/// do. The only error is an allocation failure.
pub(crate) fn is_fitting(alloc: Global, program: &Program, code: &Code) -> Result<bool, AllocError>
    ensures { IfOk result (λ fits. fits ≡ true → IsFitting program.now (lists_of code.now)) }
{
    let size = size_of(alloc, program)?;
    if code.ops.len() as u64 > MOST_EACH.saturating_mul(size.saturating_add(1)) {
        return Ok(false);
    }
    if is_stackless(code) {
        return Ok(true);
    }
    uses_stack(alloc, program)
}
