//! Iterative drop of forms.
ghost use Rattle.std.specs.Prelude.{◌+◌, ◌*◌, ◌<◌};
ghost use Rattle.matcher_program.specs.FormWeight.{weight};

use crate::form::Form;
use base_ast::deep::Release;

impl Release for Form {
    fn release(self) {
        let mut rest = self;
        'parts: loop {
            match rest {
                Form::Set(inner) | Form::PosPred(inner) | Form::NegPred(inner) | Form::Opt(inner) =>
                    {
                        rest = Box::into_inner(inner);
                    }
                Form::Rep(inner)
                | Form::RepOnce(inner)
                | Form::Push(inner)
                | Form::Restore(inner) => {
                    rest = Box::into_inner(inner);
                }
                Form::Tag(inner, _tag) => rest = Box::into_inner(inner),
                Form::Seq(left, right) | Form::Choice(left, right) => rest = rotate(left, right),
                _ => return,
            }
        }
    }
}

/// Rotates two sides to the right, so that less is on the left. Of a left side with one operand the
/// operator is dropped, and a left side without operands is dropped.
fn rotate(mut left: Box<Form>, right: Box<Form>) -> Form
    ensures { weight result < 2 * weight left.value + weight right.value + 1 }
{
    match Box::replace(&mut left, Form::Peek) {
        Form::Seq(first, second) | Form::Choice(first, second) => {
            let _ = Box::replace(&mut left, Form::Seq(second, right));
            Form::Seq(first, left)
        }
        Form::Set(inner)
        | Form::PosPred(inner)
        | Form::NegPred(inner)
        | Form::Opt(inner)
        | Form::Rep(inner)
        | Form::RepOnce(inner)
        | Form::Push(inner)
        | Form::Restore(inner) => Form::Seq(inner, right),
        Form::Tag(inner, _tag) => Form::Seq(inner, right),
        _ => Box::into_inner(right),
    }
}
