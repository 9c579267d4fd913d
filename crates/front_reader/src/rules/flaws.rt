//! The flaws of a grammar's text, and the errors that report them.
ghost use Rattle.std.specs.Prelude.{◌≡◌, alloc_error, IfErr, IfOk, Option};
ghost use Rattle.front_reader.specs.Flaws as spec;
ghost use Rattle.front_reader.specs.Refusals.{IsReadRefusal, ReportsFlaw, cause_message};
ghost use Rattle.front_reader.specs.Views.{IsFirst, cause_of, flaw_of};
ghost use Rattle.front_reader.specs.declared.rules.flaws.ReadError.TheVariants.{Memory};

use base_language::grammar::Rule;
use base_language::runtime::{Error, ErrorVariant, Fault, Span};
use std::alloc::{AllocError, AllocFailed, Global};

/// The reason why a piece of a grammar's text is wrong.
#[derive(Clone, Copy, Debug, PartialEq, Eq)]
pub enum Cause {
    /// An escape in a literal is no Unicode scalar value.
    NoScalarValue,
    /// A number of a slice fits no `i32`.
    PastI32,
    /// A count fits no `u32`.
    PastU32,
    /// The greatest number of repetitions is 0.
    ZeroTimes,
}

/// A flaw of a grammar's text, with its cause and its span.
#[derive(Clone, Copy)]
pub struct Flaw<'i> {
    pub cause: Cause,
    pub span: Span<'i>,
}

/// The reason why a grammar is not read: memory was refused, or its text has a flaw.
#[derive(Drop)]
pub enum ReadError<'i> {
    Memory(AllocError),
    Found(Flaw<'i>),
}

impl From<AllocError> for ReadError<'_> {
    ghost from_gives = { λ _ e. e ≡ Memory alloc_error };

    fn from(error: AllocError) -> Self {
        ReadError::Memory(error)
    }
}

impl<T: Drop> From<AllocFailed<T>> for ReadError<'_> {
    ghost from_gives = { λ _ e. e ≡ Memory alloc_error };

    fn from(error: AllocFailed<T>) -> Self {
        ReadError::Memory(AllocError::from(error))
    }
}

impl Cause {
    /// Returns the message of the error of such a flaw.
    pub fn message(self) -> &'static str
        ensures { result.now ≡ cause_message (cause_of self) }
    {
        match self {
            Cause::NoScalarValue => "escape is not a Unicode scalar value",
            Cause::PastI32 => "number cannot overflow i32",
            Cause::PastU32 => "number cannot overflow u32",
            Cause::ZeroTimes => "cannot repeat 0 times",
        }
    }
}

/// Makes the list of the one error that reports a flaw. The only fault is an allocation failure.
pub fn flaw_errors(alloc: Global, flaw: Flaw<'_>) -> Result<Vec<Error<Rule>>, Fault>
    ensures one { IfOk result (λ errors. ReportsFlaw (flaw_of flaw.entry) errors.items) }
    ensures memory { IfErr result (λ fault. fault ≡ Fault.Memory alloc_error) }
{
    let message = String::from_str(alloc, flaw.cause.message())?;
    let variant = ErrorVariant::CustomError { message };
    let error = Error::new_from_span(alloc, variant, flaw.span)?;
    Ok(vec![in alloc; error]?)
}

/// Makes the fault that says why a grammar is not read: one error that reports the flaw in its text, or
/// an allocation failure.
pub fn refusal(alloc: Global, error: ReadError<'_>) -> Fault
    ensures { (first : Option spec.Flaw) → IsFirst first error.entry → IsReadRefusal first result }
{
    let flaw = match error {
        ReadError::Memory(error) => return error.into(),
        ReadError::Found(flaw) => flaw,
    };
    match flaw_errors(alloc, flaw) {
        Ok(errors) => Fault::Grammar(errors),
        Err(fault) => fault,
    }
}
