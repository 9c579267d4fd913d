//! Errors, with their positions and the line that they print.
ghost use Rattle.std.specs.Prelude.{◌≡◌, Some, IfOk, IfErr, ◌++◌, filter, alloc_error, string_bytes};
ghost use Rattle.std.specs.Arc.{arc_value};
ghost use Rattle.std.specs.Str.{chars, encode_utf8_all};
ghost use Rattle.base_language.specs.Pieces.Span.{span_text, span_start, span_end, position_text, position_offset};
ghost use Rattle.base_language.specs.Pieces.Survey.{survey_text};
ghost use Rattle.base_language.specs.Pieces.LineColumn.{line_column};
ghost use Rattle.base_language.specs.Pieces.PrintedError.{message_of, start_of, is_printed, printed_line, error_line, error_text};

use super::faults::Fault;
use super::layout::{Margin, Underline};
use super::lines::{first_line, last_line};
use super::places::{Position, Span};
use super::surveys::Survey;
use std::alloc::{AllocError, Global};
use std::fmt;
use std::marker::PhantomData;
use std::sync::Arc;

/// The kind of an error, with its message.
#[derive(Debug, PartialEq, Eq, Drop)]
pub enum ErrorVariant {
    /// No rule matches it.
    ParsingError,
    /// The error has this message.
    CustomError { message: String },
}

impl fmt::Display for ErrorVariant {
    ghost output = { λ variant. Some (message_of variant) };

    fn fmt<W: fmt::Write>(&self, f: &mut fmt::Formatter<W>) -> fmt::Result {
        match self {
            ErrorVariant::ParsingError => f.write_str("unknown parsing error"),
            ErrorVariant::CustomError { message } => f.write_str(message.as_str()),
        }
    }
}

/// The location of an error, in bytes from the start of the text: a position, or the start and the end of a
/// span.
#[derive(Clone, Copy, Debug, PartialEq, Eq)]
pub enum InputLocation {
    Pos(usize),
    Span((usize, usize)),
}

/// The location of an error, as line and column: of a position, or of the start and the end of a span.
#[derive(Clone, Copy, Debug, PartialEq, Eq)]
pub enum LineColLocation {
    Pos((usize, usize)),
    Span((usize, usize), (usize, usize)),
}

impl LineColLocation {
    /// Returns the line and the column at which the error begins.
    pub(crate) fn start(&self) -> (usize, usize)
        ensures { result ≡ start_of self.now }
    {
        match *self {
            LineColLocation::Pos(place) => place,
            LineColLocation::Span(start, _) => start,
        }
    }
}

/// An error in a text that rules of type `R` read. The line that it prints is kept, and shared by errors of
/// one survey.
#[derive_where(Debug, PartialEq, Eq)]
#[derive(Drop)]
pub struct Error<R> {
    pub variant: ErrorVariant,
    pub location: InputLocation,
    pub line_col: LineColLocation,
    line: Arc<String>,
    rule: PhantomData<R>,
}

/// Prints six lines, without a last newline: where the error begins, its line of the text, the marks under
/// its span, and its message.
impl<R> fmt::Display for Error<R> {
    ghost output = { λ error. Some (error_text error) };

    fn fmt<W: fmt::Write>(&self, f: &mut fmt::Formatter<W>) -> fmt::Result {
        let (line, column) = self.line_col.start();
        let margin = Margin(line);
        let underline = Underline {
            place: self.line_col,
            line: self.line.as_str(),
        };
        write!(
            f,
            "{margin}--> {line}:{column}\n\
             {margin} |\n\
             {line} | {}\n\
             {margin} | {underline}\n\
             {margin} |\n\
             {margin} = {}",
            self.line, self.variant,
        )
    }
}

impl<R> Error<R> {
    /// Returns the line of the text on which the error begins, as printed: without any `\r` and `\n`.
    pub fn line(&self) -> &str
        ensures { result.now ≡ error_line self.now }
    {
        self.line.as_str()
    }

    /// Makes the error `variant` at `span`: its positions are those of the span's start and end, and it
    /// prints the line on which the span begins. The only error is allocation failure.
    pub fn new_from_span(
        alloc: Global,
        variant: ErrorVariant,
        span: Span<'_>,
    ) -> Result<Error<R>, Fault>
        ensures variant { IfOk result (λ error. error.variant ≡ variant) }
        ensures location { IfOk result (λ error. error.location
            ≡ InputLocation.Span (span_start span.entry, span_end span.entry)) }
        ensures line_col { let text = span_text span.entry in
            IfOk result (λ error. error.line_col ≡ LineColLocation.Span
            (line_column text (span_start span.entry)) (line_column text (span_end span.entry))) }
        ensures line { IfOk result (λ error. error_line error
            ≡ printed_line (span_text span.entry) (span_start span.entry)) }
        ensures memory { IfErr result (λ fault. fault ≡ Fault.Memory alloc_error) }
    {
        let start = span.start_pos();
        let line = shared_line(alloc, start)?;
        Ok(Error {
            variant,
            location: InputLocation::Span((span.start(), span.end())),
            line_col: LineColLocation::Span(start.line_col(), span.end_pos().line_col()),
            line,
            rule: PhantomData,
        })
    }

    /// Makes the error `variant` at `span`, as `new_from_span` does, if the span's text was surveyed.
    /// The survey finds the positions, and errors in one line that are made one after another share the
    /// line that they print. The only error is allocation failure.
    pub fn new_in_survey(
        alloc: Global,
        variant: ErrorVariant,
        survey: &mut Survey<'_>,
        span: Span<'_>,
    ) -> Result<Error<R>, Fault>
        requires same_text { span_text span ≡ survey_text survey.old }
        ensures variant { IfOk result (λ error. error.variant ≡ variant) }
        ensures location { IfOk result (λ error. error.location
            ≡ InputLocation.Span (span_start span.entry, span_end span.entry)) }
        ensures line_col { let text = span_text span.entry in
            IfOk result (λ error. error.line_col ≡ LineColLocation.Span
            (line_column text (span_start span.entry)) (line_column text (span_end span.entry))) }
        ensures line { IfOk result (λ error. error_line error
            ≡ printed_line (span_text span.entry) (span_start span.entry)) }
        ensures memory { IfErr result (λ fault. fault ≡ Fault.Memory alloc_error) }
        ensures survey { survey_text survey.new ≡ survey_text survey.old }
    {
        let start = survey.landmark_at(span.start_pos());
        let end = survey.landmark_at(span.end_pos());
        let line = survey.line_at(alloc, start)?;
        Ok(Error {
            variant,
            location: InputLocation::Span((start.place, end.place)),
            line_col: LineColLocation::Span((start.line, start.column), (end.line, end.column)),
            line,
            rule: PhantomData,
        })
    }

    /// Makes the error `variant` at `span`, as `new_from_span` does: by the survey, if the span's text
    /// is byte by byte the surveyed one. The only error is allocation failure.
    pub fn new_where_surveyed(
        alloc: Global,
        variant: ErrorVariant,
        survey: &mut Survey<'_>,
        span: Span<'_>,
    ) -> Result<Error<R>, Fault>
        ensures variant { IfOk result (λ error. error.variant ≡ variant) }
        ensures location { IfOk result (λ error. error.location
            ≡ InputLocation.Span (span_start span.entry, span_end span.entry)) }
        ensures line_col { let text = span_text span.entry in
            IfOk result (λ error. error.line_col ≡ LineColLocation.Span
            (line_column text (span_start span.entry)) (line_column text (span_end span.entry))) }
        ensures line { IfOk result (λ error. error_line error
            ≡ printed_line (span_text span.entry) (span_start span.entry)) }
        ensures memory { IfErr result (λ fault. fault ≡ Fault.Memory alloc_error) }
        ensures survey { survey_text survey.new ≡ survey_text survey.old }
    {
        if span.get_input() == survey.get_input() {
            Error::new_in_survey(alloc, variant, survey, span)
        } else {
            Error::new_from_span(alloc, variant, span)
        }
    }

    /// Makes the error `variant` at `pos`: its location is that position, and it prints the line of the
    /// position. The only error is allocation failure.
    pub fn new_from_pos(
        alloc: Global,
        variant: ErrorVariant,
        pos: Position<'_>,
    ) -> Result<Error<R>, Fault>
        ensures variant { IfOk result (λ error. error.variant ≡ variant) }
        ensures location { IfOk result (λ error. error.location
            ≡ InputLocation.Pos (position_offset pos.entry)) }
        ensures line_col { IfOk result (λ error. error.line_col ≡ LineColLocation.Pos
            (line_column (position_text pos.entry) (position_offset pos.entry))) }
        ensures line { IfOk result (λ error. error_line error
            ≡ printed_line (position_text pos.entry) (position_offset pos.entry)) }
        ensures memory { IfErr result (λ fault. fault ≡ Fault.Memory alloc_error) }
    {
        let line = shared_line(alloc, pos)?;
        Ok(Error {
            variant,
            location: InputLocation::Pos(pos.pos()),
            line_col: LineColLocation::Pos(pos.line_col()),
            line,
            rule: PhantomData,
        })
    }
}

/// Returns the line of `pos`, without any `\r` and `\n`, to be shared.
fn shared_line(alloc: Global, pos: Position<'_>) -> Result<Arc<String>, AllocError>
    ensures { IfOk result (λ line. string_bytes (arc_value line)
        ≡ printed_line (position_text pos.entry) (position_offset pos.entry)) }
{
    let line = printed_line(alloc, pos)?;
    let shared = Arc::new(alloc, line)?;
    Ok(shared)
}

/// Returns the line of `pos`, without any `\r` and `\n`.
fn printed_line(alloc: Global, pos: Position<'_>) -> Result<String, AllocError>
    ensures { IfOk result (λ line. string_bytes line
        ≡ printed_line (position_text pos.entry) (position_offset pos.entry)) }
{
    without_breaks(alloc, last_line(pos.prefix()), first_line(pos.suffix()))
}

/// Concatenates `before` and `after`, without any `\r` and `\n`.
pub(super) fn without_breaks(alloc: Global, before: &str, after: &str) -> Result<String, AllocError>
    ensures { IfOk result (λ text. string_bytes text
        ≡ encode_utf8_all (filter is_printed (chars (before.now ++ after.now)))) }
{
    before
        .chars()
        .chain(after.chars())
        .filter(|c| *c != '\r' && *c != '\n')
        .collect(alloc)
}
