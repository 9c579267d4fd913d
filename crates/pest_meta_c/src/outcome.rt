//! The outcome of a call: JSON, bytes or numbers, or the reason why there is none.
ghost use Rattle.std.specs.Prelude.{◌≡◌, IfOk, string_bytes};
ghost use Rattle.pest_meta_c.specs.Outcomes.{IsFaultRefusal, ReportsErrors};

use base_language::grammar::Rule;
use base_language::runtime::{Error, Fault};
use format_json::errors_text;
use pest_meta::parser::PestParser;
use std::alloc::{AllocError, Global};

/// The reason why a call has no answer.
#[derive(Debug, Drop)]
pub(crate) enum CallError {
    /// An allocation failed.
    Memory,
    /// The errors of the text, in JSON.
    Refused(String),
}

/// The outcome of a call: its answer in JSON, or the reason why there is none.
pub(crate) type Outcome = Result<String, CallError>;

/// The outcome of a call that answers in binary form.
pub(crate) type BytesOutcome = Result<Vec<u8>, CallError>;

/// The reason why a call has no numbers.
#[derive(Clone, Copy, Debug)]
pub(crate) enum NumbersError {
    /// An allocation failed.
    Memory,
    /// The text is refused.
    Refused,
}

/// The outcome of a call that answers with numbers.
pub(crate) type NumbersOutcome = Result<Vec<usize>, NumbersError>;

/// Returns the errors of a fault in JSON, or its allocation failure. Syntax errors have the rules that were
/// expected when the text was parsed by this rule.
pub(crate) fn to_refusal(alloc: Global, rule: Rule, text: &str, fault: Fault) -> CallError
    ensures { IsFaultRefusal rule text.now fault result }
{
    match fault {
        Fault::Memory(_) => CallError::Memory,
        Fault::Grammar(errors) => match errors_json(alloc, rule, text, &errors) {
            Ok(json) => CallError::Refused(json),
            Err(_) => CallError::Memory,
        },
    }
}

/// Returns errors of a text in JSON, with the expected rules.
fn errors_json(
    alloc: Global,
    rule: Rule,
    text: &str,
    errors: &[Error<Rule>],
) -> Result<String, AllocError>
    ensures { IfOk result (λ json. ReportsErrors rule text.now errors.now (string_bytes json)) }
{
    let expected = PestParser::expected_set(alloc, rule, text)?;
    errors_text(alloc, errors, &expected)
}
