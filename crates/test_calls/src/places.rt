//! The runtime's positions, spans, errors and pairs.
ghost use Rattle.std.specs.Prelude.{IfErr, IfOk, IfSome, IsSome, alloc_error, ◌↔◌, ◌≡◌, ◌≤◌};
ghost use Rattle.std.specs.Str.{IsCharBoundary};
ghost use Rattle.base_language.specs.declared.runtime.errors.InputLocation.TheVariants as InputLocation;
ghost use Rattle.base_language.specs.declared.runtime.errors.LineColLocation.TheVariants as LineColLocation;
ghost use Rattle.base_language.specs.Pieces.LineColumn.{line_column};
ghost use Rattle.base_language.specs.Pieces.Pairs.{flat_pairs, flat_text, pairs_text, pairs_trees};
ghost use Rattle.base_language.specs.Pieces.PrintedError.{error_line, printed_line};
ghost use Rattle.base_language.specs.Pieces.Span.{position_offset, position_text, span_end, span_start, span_text};
ghost use Rattle.base_language.specs.Pieces.TokenTrees.{preorder};

use base_language::grammar;
use base_language::runtime::{Error, ErrorVariant, Fault, FlatPairs, Pairs, Position, Span};
use std::alloc::Global;

/// Returns the span of two positions in a text.
pub fn span_of<'i>(text: &'i str, start: usize, end: usize) -> Option<Span<'i>>
    ensures accepted { IsSome result
        ↔ (start ≤ end) × IsCharBoundary text.now start × IsCharBoundary text.now end }
    ensures text { IfSome result (λ span. span_text span ≡ text.now) }
    ensures start { IfSome result (λ span. span_start span ≡ start) }
    ensures end { IfSome result (λ span. span_end span ≡ end) }
{
    Span::new(text, start, end)
}

/// Returns the line and the column of a position.
pub fn line_col(position: &Position<'_>) -> (usize, usize)
    ensures { result ≡ line_column (position_text position.now) (position_offset position.now) }
{
    position.line_col()
}

/// Returns an error at a span.
pub fn error_at_span(
    alloc: Global,
    variant: ErrorVariant,
    span: Span<'_>,
) -> Result<Error<grammar::Rule>, Fault>
    ensures variant { IfOk result (λ error. error.variant ≡ variant) }
    ensures location { IfOk result (λ error. error.location
        ≡ InputLocation.Span (span_start span.entry, span_end span.entry)) }
    ensures line_col { let text = span_text span.entry in
        IfOk result (λ error. error.line_col ≡ LineColLocation.Span
        (line_column text (span_start span.entry)) (line_column text (span_end span.entry))) }
    ensures line { IfOk result (λ error. error_line error
        ≡ printed_line (span_text span.entry) (span_start span.entry)) }
    ensures memory { IfErr result (λ fault. fault ≡ Fault.Memory alloc_error) }
{
    Error::new_from_span(alloc, variant, span)
}

/// Returns all pairs in one list.
pub fn flat_pairs_of<'i>(
    pairs: Pairs<'i, grammar::Rule>,
    alloc: Global,
) -> Result<FlatPairs<'i, grammar::Rule>, Fault>
    ensures text { IfOk result (λ flat. flat_text flat ≡ pairs_text pairs.entry) }
    ensures pairs { IfOk result (λ flat. flat_pairs flat ≡ preorder (pairs_trees pairs.entry)) }
    ensures memory { IfErr result (λ fault. fault ≡ Fault.Memory alloc_error) }
{
    pairs.flatten(alloc)
}
