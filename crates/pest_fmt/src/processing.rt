//! The work on the text of a file.
ghost use Rattle.std.specs.Prelude.{◌≡◌, ◌⊎◌, IfOk, false, true};
ghost use Rattle.std.specs.Io.KnownBytes.{Appends};
ghost use Rattle.format_grammar.specs.Formatting.{IsFormatted};
ghost use Rattle.pest_fmt.specs.Processing.{IsKnownEnd, IsReplacement, PrintsFormatted};

use crate::arguments::{Delivery, Target};
use crate::diff::diff;
use crate::messages::{cannot_format, refusal_message};
use crate::outcomes::{FileChange, outcome_of};
use format_grammar::Options;
use program_support::escape::{escape, escape_lines};
use program_support::output::Output;
use program_support::status::Status;
use std::alloc::{AllocError, Global};
use std::io::Write;

/// A file that was read.
#[derive(Clone, Copy)]
pub struct TextFile<'f> {
    pub name: &'f str,
    pub text: &'f str,
}

/// The end of the work on a text.
#[derive(Drop)]
pub enum Processed {
    /// The work on the file is done.
    Ended(Status),
    /// The file is to be replaced by this text.
    Replacement(String),
}

/// Formats the text of a file. Prints the formatted text or the difference to `out`, as the delivery asks, or
/// returns the text to replace the file's one by. The reason why a text is left alone goes to `err`. The only
/// error is an allocation failure.
pub fn process<W: Write, E: Write>(
    alloc: Global,
    file: TextFile<'_>,
    delivery: Delivery,
    options: Options,
    out: &mut Output<W>,
    err: &mut Output<E>,
) -> Result<Processed, AllocError>
    ensures checked { IfOk result (λ end. delivery.target ≡ Target.Difference
        → end ≡ Processed.Ended Status.Done
        → IsFormatted options.line_ends file.entry.text.now file.entry.text.now × (out.new ≡ out.old)) }
    ensures printed { IfOk result (λ end. delivery.target ≡ Target.Output → delivery.is_to_terminal ≡ false
        → end ≡ Processed.Ended Status.Done
        → PrintsFormatted options.line_ends file.entry.text.now
        (W.contents out.old.writer) (W.contents out.new.writer)) }
    ensures kept { IfOk result (λ end. delivery.target ≡ Target.File → end ≡ Processed.Ended Status.Done
        → IsFormatted options.line_ends file.entry.text.now file.entry.text.now) }
    ensures replaced { IfOk result (IsReplacement options.line_ends delivery.target file.entry.text.now) }
    ensures unprinted { delivery.target ≡ Target.File → out.new ≡ out.old }
    ensures ended { IfOk result IsKnownEnd }
    ensures refused { IfOk result (λ end. end ≡ Processed.Ended Status.Unwritable → out.new.refused ≡ true) }
{
    match outcome_of(alloc, file.text, options)? {
        FileChange::Same => match delivery.target {
            Target::Output => {
                let status = print(alloc, file.text, delivery, out)?;
                Ok(Processed::Ended(status))
            }
            Target::File | Target::Difference => Ok(Processed::Ended(Status::Done)),
        },
        FileChange::Changed(formatted) => match delivery.target {
            Target::File => Ok(Processed::Replacement(formatted)),
            Target::Output => {
                let status = print(alloc, formatted.as_str(), delivery, out)?;
                Ok(Processed::Ended(status))
            }
            Target::Difference => {
                let status = print_difference(alloc, file, formatted.as_str(), delivery, out)?;
                Ok(Processed::Ended(status))
            }
        },
        FileChange::LeftAlone => {
            let message = cannot_format(alloc, file.name)?;
            Ok(report(message.as_str(), err))
        }
        FileChange::Refused(errors) => {
            let message = refusal_message(alloc, file.name, file.text, &errors)?;
            Ok(report(message.as_str(), err))
        }
    }
}

/// Writes the reason why a text is left alone.
fn report<E: Write>(message: &str, err: &mut Output<E>) -> Processed
    ensures { result ≡ Processed.Ended Status.Found }
{
    let _ = err.write_text(message);
    Processed::Ended(Status::Found)
}

/// Prints the difference of a file's text and its formatted one. The status is not the one of a text that is
/// formatted.
fn print_difference<W: Write>(
    alloc: Global,
    file: TextFile<'_>,
    formatted: &str,
    delivery: Delivery,
    out: &mut Output<W>,
) -> Result<Status, AllocError>
    ensures ended { IfOk result (λ status. (status ≡ Status.Found) ⊎ (status ≡ Status.Unwritable)) }
    ensures refused { IfOk result (λ status. status ≡ Status.Unwritable → out.new.refused ≡ true) }
{
    let name = escape(alloc, file.name)?;
    let changes = diff(alloc, name.as_str(), file.text, formatted)?;
    match print(alloc, changes.as_str(), delivery, out)? {
        Status::Done => Ok(Status::Found),
        _ => Ok(Status::Unwritable),
    }
}

/// Writes a text to `out`, with control characters as escapes if that is a terminal.
fn print<W: Write>(
    alloc: Global,
    text: &str,
    delivery: Delivery,
    out: &mut Output<W>,
) -> Result<Status, AllocError>
    ensures written { IfOk result (λ status. delivery.is_to_terminal ≡ false → status ≡ Status.Done
        → Appends (W.contents out.old.writer) (W.contents out.new.writer) text.now) }
    ensures ended { IfOk result (λ status. (status ≡ Status.Done) ⊎ (status ≡ Status.Unwritable)) }
    ensures refused { IfOk result (λ status. status ≡ Status.Unwritable → out.new.refused ≡ true) }
{
    let written = if delivery.is_to_terminal {
        let shown = escape_lines(alloc, text)?;
        out.write_text(shown.as_str())
    } else {
        out.write_text(text)
    };
    match written {
        Ok(()) => Ok(Status::Done),
        Err(_) => Ok(Status::Unwritable),
    }
}
