//! Places in a text, and the parts between them.
ghost use Rattle.std.specs.Prelude.{◌≡◌, ◌≤◌, ◌↔◌, IsSome, IfSome, take, drop, slice_range};
ghost use Rattle.std.specs.Str.{IsCharBoundary};
ghost use Rattle.base_language.specs.Pieces.LineColumn.{line_column};

use super::lines::last_line;

/// A part of a text: the bytes from `start` up to `end`.
#[derive(Clone, Copy, Debug, PartialEq, Eq)]
pub struct Span<'i> {
    // The derived `==` compares the fields in this order: positions before the text.
    start: usize,
    end: usize,
    text: &'i str,
    pub ghost ordered: { start ≤ end },
    pub ghost starts_at_character: { IsCharBoundary text.now start },
    pub ghost ends_at_character: { IsCharBoundary text.now end },
}

/// A position in a text, in bytes from its start.
#[derive(Clone, Copy, Debug, PartialEq, Eq)]
pub struct Position<'i> {
    text: &'i str,
    pos: usize,
    pub ghost at_character: { IsCharBoundary text.now pos },
}

impl<'i> Span<'i> {
    ghost use Rattle.base_language.specs.Pieces.Span.{span_text, span_start, span_end, position_text, position_offset};

    /// Returns the part of `text` from byte `start` up to byte `end`, or `None` if the range is
    /// reversed, reaches past the end of the text, or has an end inside a character.
    pub fn new(text: &'i str, start: usize, end: usize) -> Option<Span<'i>>
        ensures accepted { IsSome result
            ↔ (start ≤ end) × IsCharBoundary text.now start × IsCharBoundary text.now end }
        ensures text { IfSome result (λ span. span_text span ≡ text.now) }
        ensures start { IfSome result (λ span. span_start span ≡ start) }
        ensures end { IfSome result (λ span. span_end span ≡ end) }
    {
        if start <= end && text.is_char_boundary(start) && text.is_char_boundary(end) {
            Some(Span { text, start, end })
        } else {
            None
        }
    }

    /// Returns the part of `text` from byte `start` up to byte `end`, which are in this order, within the
    /// text and between two characters.
    pub fn of(text: &'i str, start: usize, end: usize) -> Span<'i>
        requires ordered { start ≤ end }
        requires starts_at_character { IsCharBoundary text.now start }
        requires ends_at_character { IsCharBoundary text.now end }
        ensures text { span_text result ≡ text.now }
        ensures start { span_start result ≡ start }
        ensures end { span_end result ≡ end }
    {
        Span { text, start, end }
    }

    /// Returns the text that the span is a part of.
    pub fn get_input(&self) -> &'i str
        ensures { result.now ≡ span_text self.now }
    {
        self.text
    }

    /// Returns the byte at which the span begins.
    pub fn start(&self) -> usize
        ensures { result ≡ span_start self.now }
    {
        self.start
    }

    /// Returns the byte before which the span ends.
    pub fn end(&self) -> usize
        ensures { result ≡ span_end self.now }
    {
        self.end
    }

    /// Returns the part of the text itself: its bytes from the span's start up to its end.
    pub fn as_str(&self) -> &'i str
        ensures { result.now ≡ slice_range (span_text self.now) (span_start self.now) (span_end self.now) }
    {
        &self.text[self.start..self.end]
    }

    /// Returns the position at which the span begins, in the same text.
    pub fn start_pos(&self) -> Position<'i>
        ensures text { position_text result ≡ span_text self.now }
        ensures place { position_offset result ≡ span_start self.now }
    {
        Position {
            text: self.text,
            pos: self.start,
        }
    }

    /// Returns the position at which the span ends, in the same text.
    pub fn end_pos(&self) -> Position<'i>
        ensures text { position_text result ≡ span_text self.now }
        ensures place { position_offset result ≡ span_end self.now }
    {
        Position {
            text: self.text,
            pos: self.end,
        }
    }
}

impl<'i> Position<'i> {
    ghost use Rattle.base_language.specs.Pieces.Span.{span_text, span_start, span_end, position_text, position_offset};

    /// Returns the position before byte `pos` of `text`, or `None` if that is past the end or inside a
    /// character.
    pub fn new(text: &'i str, pos: usize) -> Option<Position<'i>>
        ensures accepted { IsSome result ↔ IsCharBoundary text.now pos }
        ensures text { IfSome result (λ position. position_text position ≡ text.now) }
        ensures place { IfSome result (λ position. position_offset position ≡ pos) }
    {
        if text.is_char_boundary(pos) {
            Some(Position { text, pos })
        } else {
            None
        }
    }

    /// Returns the position in bytes from the start of the text.
    pub fn pos(&self) -> usize
        ensures { result ≡ position_offset self.now }
    {
        self.pos
    }

    /// Returns the line and the column of the position, both counted from 1: a `\n` ends a line, and a
    /// column is a character.
    pub fn line_col(&self) -> (usize, usize)
        ensures { result ≡ line_column (position_text self.now) (position_offset self.now) }
    {
        let before = self.prefix();
        let line = 1 + before.bytes().filter(|byte| *byte == b'\n').count();
        let column = 1 + last_line(before).chars().count();
        (line, column)
    }

    /// Returns the text before the position.
    pub(crate) fn prefix(&self) -> &'i str
        ensures { result.now ≡ take (position_offset self.now) (position_text self.now) }
    {
        &self.text[..self.pos]
    }

    /// Returns the text after the position.
    pub(crate) fn suffix(&self) -> &'i str
        ensures { result.now ≡ drop (position_offset self.now) (position_text self.now) }
    {
        &self.text[self.pos..]
    }

    /// Returns the part of the text from this position up to `other`.
    pub fn span(&self, other: &Position<'i>) -> Span<'i>
        requires same_text { position_text self.now ≡ position_text other.now }
        requires ordered { position_offset self.now ≤ position_offset other.now }
        ensures text { span_text result ≡ position_text self.now }
        ensures start { span_start result ≡ position_offset self.now }
        ensures end { span_end result ≡ position_offset other.now }
    {
        Span {
            text: self.text,
            start: self.pos,
            end: other.pos,
        }
    }
}
