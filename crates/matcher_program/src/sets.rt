//! Sets: forms that match one character.
ghost use Rattle.std.specs.Prelude.{◌≡◌, ◌==◌, IfOk, List, chars, length, true};
ghost use Rattle.base_language.specs.Language.Expression.{Expression, Grammar};
ghost use Rattle.matcher_program.specs.declared.form.Property.{Property};
ghost use Rattle.matcher_program.specs.Compiled.{Compiles};
ghost use Rattle.matcher_program.specs.Programs.{is_one, is_set};

use crate::form::Form;
use std::alloc::{AllocError, Global};

/// Whether a text is one character.
fn is_single(text: &str) -> bool
    ensures { result ≡ true → (length (chars text.now) == 1) ≡ true }
{
    let mut characters = text.chars();
    match characters.next() {
        Some(_) => characters.as_str().is_empty(),
        None => false,
    }
}

/// Whether a form matches one character and no more, and is no choice.
fn is_one(form: &Form) -> bool
    ensures { result ≡ true → is_one form.now ≡ true }
{
    match form {
        Form::Str(text) => is_single(text.as_str()),
        Form::Range(_, _) | Form::One(_) => true,
        _ => false,
    }
}

/// Whether a form matches one character and no more. Iterative, so that no wide choice takes stack space.
fn is_set(form: &Form) -> bool
    ensures { result ≡ true → is_set form.now ≡ true }
{
    let mut rest = form;
    'alternatives: while let Form::Choice(left, right) = rest {
        if !is_one(left) {
            return false;
        }
        rest = right;
    }
    is_one(rest)
}

/// Returns a set if a form matches one character and no more, and else the form itself.
pub(crate) fn to_set(alloc: Global, form: Form) -> Result<Form, AllocError>
    ensures { IfOk result (λ made. (g : Grammar) (ps : List Property) (e : Expression)
        → Compiles g ps e form → Compiles g ps e made) }
{
    if !is_set(&form) {
        return Ok(form);
    }
    Ok(Form::Set(Box::new(alloc, form)?))
}
