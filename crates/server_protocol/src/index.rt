//! An index of a text, by which the positions of many offsets are found.
ghost use Rattle.std.specs.Prelude.{◌≡◌, ◌≤◌, IfOk, length, min};
ghost use Rattle.server_protocol.specs.Positions.{position_at};
ghost use Rattle.server_protocol.specs.Index.{AreMarks, IsMark};

use crate::positions::{Encoding, Position, START, advance};
use std::alloc::{AllocError, Global};

/// The number of bytes between two marks.
const STRIDE: usize = 256;

/// An offset of a text, and its position in each encoding.
#[derive(Clone, Copy)]
pub struct Mark {
    pub offset: usize,
    pub utf8: Position,
    pub utf16: Position,
}

/// The mark at the start of every text.
const FIRST: Mark = Mark {
    offset: 0,
    utf8: START,
    utf16: START,
};

/// A text with the positions of some of its offsets, one in each `STRIDE` bytes.
#[derive(Drop)]
pub struct PositionIndex<'t> {
    text: &'t str,
    encoding: Encoding,
    marks: &'t [Mark],
    pub ghost marked: { AreMarks text.now marks.now },
}

impl<'t> PositionIndex<'t> {
    ghost use Rattle.server_protocol.specs.Shown.{index_encoding, index_text};

    /// Returns the index of a text with these marks.
    pub fn new(text: &'t str, encoding: Encoding, marks: &'t [Mark]) -> PositionIndex<'t>
        requires { AreMarks text.now marks.now }
        ensures text { index_text result ≡ text.entry.now }
        ensures encoding { index_encoding result ≡ encoding }
    {
        PositionIndex {
            text,
            encoding,
            marks,
        }
    }

    /// Returns the text.
    pub fn text(&self) -> &'t str
        ensures { result.now ≡ index_text self.now }
    {
        self.text
    }

    /// Returns the position of an offset in bytes, in constant time; of one past the end of the text, that
    /// of the end.
    pub fn position_of(&self, offset: usize) -> Position
        ensures { result ≡ position_at (index_encoding self.now) (index_text self.now)
            (min offset (length (index_text self.now))) }
    {
        let offset = offset.min(self.text.len());
        let mark = self.mark_before(offset);
        let position = self.position_at(mark);
        advance(self.text, self.encoding, mark.offset, position, offset)
    }

    /// Returns the position of a mark.
    fn position_at(&self, mark: Mark) -> Position
        requires { IsMark (index_text self.now) mark }
        ensures { result ≡ position_at (index_encoding self.now) (index_text self.now) mark.offset }
    {
        match self.encoding {
            Encoding::Utf8 => mark.utf8,
            Encoding::Utf16 => mark.utf16,
        }
    }

    /// Returns a mark at an offset or not far before it.
    fn mark_before(&self, offset: usize) -> Mark
        ensures mark { IsMark (index_text self.now) result }
        ensures before { result.offset ≤ offset }
    {
        match self.marks.get(offset / STRIDE) {
            Some(mark) if mark.offset <= offset => *mark,
            _ => FIRST,
        }
    }
}

/// Returns the marks of a text, in linear time.
pub(crate) fn marks_of(alloc: Global, text: &str) -> Result<Vec<Mark>, AllocError>
    ensures { IfOk result (λ marks. AreMarks text.now marks.items) }
{
    let mut marks = Vec::new(alloc);
    let mut mark = FIRST;
    for count in 0..text.len() / STRIDE + 1 {
        let offset = (count * STRIDE).min(text.len());
        mark = move_mark(text, mark, offset);
        marks.push(mark)?;
    }
    Ok(marks)
}

/// Returns the mark at an offset, from an earlier one.
fn move_mark(text: &str, mark: Mark, offset: usize) -> Mark
    requires mark { IsMark text.now mark }
    requires ordered { mark.offset ≤ offset }
    requires within { offset ≤ length text.now }
    ensures mark { IsMark text.now result }
    ensures offset { result.offset ≡ offset }
{
    let utf8 = advance(text, Encoding::Utf8, mark.offset, mark.utf8, offset);
    let utf16 = advance(text, Encoding::Utf16, mark.offset, mark.utf16, offset);
    Mark {
        offset,
        utf8,
        utf16,
    }
}
