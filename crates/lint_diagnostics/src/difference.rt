//! Two ends on a text.
ghost use Rattle.std.specs.Prelude.{◌≡◌, ◌++◌, IfNone, IfOk, IfSome, codes, string_bytes};
ghost use Rattle.lint_diagnostics.specs.Messages as spec;
ghost use Rattle.lint_diagnostics.specs.Messages.{HasCutEnd, IsCut};

use matcher_support::literal::Literal;
use program_support::escape::escape;
use std::alloc::{AllocError, Global};

/// The end of a rule that was called at the start of a text.
#[derive(Clone, Copy, PartialEq)]
pub enum RuleEnd {
    /// The rule fails.
    Failure,
    /// The rule matches. The match ends before this byte of the text.
    At(usize),
}

/// A text on which the rule as pest runs it and the rule as it is written have different ends: two
/// positions, or a position and a failure.
#[derive(Drop)]
pub struct Difference {
    pub text: String,
    /// The end of the rule as it is written.
    pub written: RuleEnd,
    /// The end of the rule as pest runs it.
    pub optimized: RuleEnd,
}

impl Difference {
    /// Returns a line that shows the text and both ends. Hidden characters are escaped. Returns
    /// `None` if an end is inside a character. The only error is an allocation failure.
    pub fn message(&self, alloc: Global) -> Result<Option<String>, AllocError>
        ensures text { IfOk result (λ found. IfSome found (λ message.
            string_bytes message ≡ spec.difference_message self.now)) }
        ensures told { IfOk result (λ found. IfNone found (HasCutEnd self.now)) }
    {
        let text = self.text.as_str();
        let Some(written) = end_message(alloc, text, self.written)? else {
            return Ok(None);
        };
        let Some(optimized) = end_message(alloc, text, self.optimized)? else {
            return Ok(None);
        };
        let quoted = Literal(text);
        let message = format!(in alloc;
            "on {quoted} the rule {written} as written, and {optimized} as pest runs it"
        )?;
        Ok(Some(escape(alloc, message.as_str())?))
    }
}

/// Returns the words for an end on a text, or none if it is inside a character.
fn end_message(alloc: Global, text: &str, end: RuleEnd) -> Result<Option<String>, AllocError>
    ensures text { IfOk result (λ found. IfSome found (λ message.
        string_bytes message ≡ spec.end_message text.now end)) }
    ensures told { IfOk result (λ found. IfNone found (IsCut text.now end)) }
{
    match end {
        RuleEnd::Failure => Ok(Some(String::from_str(alloc, "fails")?)),
        RuleEnd::At(end) => match text.get(..end) {
            Some(part) => Ok(Some(matched_message(alloc, part)?)),
            None => Ok(None),
        },
    }
}

/// Returns the words for a match of this part.
fn matched_message(alloc: Global, part: &str) -> Result<String, AllocError>
    ensures { IfOk result (λ message.
        string_bytes message ≡ codes "matches " ++ spec.quoted part.now) }
{
    let quoted = Literal(part);
    format!(in alloc; "matches {quoted}")
}
