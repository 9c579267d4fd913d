//! The outcome of formatting a text.
ghost use Rattle.std.specs.Prelude.{IfOk};
ghost use Rattle.pest_fmt.specs.Outcomes.{IsFileChange};

use base_language::grammar::Rule;
use base_language::runtime::{Error, Fault};
use format_grammar::{Formatted, Options, format};
use std::alloc::{AllocError, Global};

/// The outcome of formatting a text.
#[derive(Drop)]
pub enum FileChange {
    /// The text is formatted already.
    Same,
    /// Its formatted text is another one.
    Changed(String),
    /// The text is no grammar.
    Refused(Vec<Error<Rule>>),
    /// Its formatted text would have other tokens or comments.
    LeftAlone,
}

/// Formats a text. The only error is an allocation failure.
pub fn outcome_of(alloc: Global, text: &str, options: Options) -> Result<FileChange, AllocError>
    ensures { IfOk result (IsFileChange options.line_ends text.now) }
{
    match format(alloc, text, options) {
        Ok(Formatted::Text(formatted)) => {
            if formatted.as_str() == text {
                Ok(FileChange::Same)
            } else {
                Ok(FileChange::Changed(formatted))
            }
        }
        Ok(Formatted::Unchanged) => Ok(FileChange::LeftAlone),
        Err(Fault::Grammar(errors)) => Ok(FileChange::Refused(errors)),
        Err(Fault::Memory(error)) => Err(error),
    }
}
