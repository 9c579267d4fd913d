//! From a position to a byte of a text, and back.
ghost use Rattle.std.specs.Prelude.{◌≡◌, ◌<◌, ◌≤◌, ◌+◌, ◌↔◌, IsTrue, length, min};
ghost use Rattle.server_protocol.specs.Positions.{IsAtMost, IsOffset, IsPlace, position_at};
ghost use Rattle.server_protocol.specs.Positions as spec;

/// The code units that a character is counted in.
#[derive(Clone, Copy, Debug, PartialEq, Eq)]
pub enum Encoding {
    /// Bytes of UTF-8.
    Utf8,
    /// Code units of UTF-16: two for a character above U+FFFF, one for any other.
    Utf16,
}

/// A position in a text. Lines end with `\n`, `\r\n` or `\r`.
#[derive(Clone, Copy, Debug, PartialEq, Eq)]
pub struct Position {
    /// The number of the line, from 0.
    pub line: usize,
    /// The number of code units before the position in its line.
    pub character: usize,
}

/// A range of a text, its end excluded.
#[derive(Clone, Copy, Debug, PartialEq, Eq)]
pub struct Range {
    pub start: Position,
    pub end: Position,
}

/// The position of a text's first byte.
pub const START: Position = Position {
    line: 0,
    character: 0,
};

impl Position {
    /// Whether this position is at most as far in a text as another one.
    pub fn is_at_most(self, other: Position) -> bool
        ensures { IsTrue result ↔ IsAtMost self other }
    {
        self.line < other.line || (self.line == other.line && self.character <= other.character)
    }
}

/// Returns how many code units the character has that begins with a byte; none for a byte inside a character.
fn units(encoding: Encoding, byte: u8) -> usize
    ensures { result ≡ spec.units encoding byte }
{
    match encoding {
        Encoding::Utf8 => 1,
        Encoding::Utf16 => {
            if (128..192).contains(&byte) {
                0
            } else if byte < 240 {
                1
            } else {
                2
            }
        }
    }
}

/// Returns whether a line ends after the byte at an offset.
fn ends_line(text: &[u8], offset: usize) -> bool
    requires { offset < length text.now }
    ensures { result ≡ spec.ends_line text.now offset }
{
    let is_before_feed = offset + 1 < text.len() && text[offset + 1] == b'\n';
    text[offset] == b'\n' || (text[offset] == b'\r' && !is_before_feed)
}

/// Returns the position after the byte at an offset, from the position of that offset.
pub(crate) fn next_position(
    encoding: Encoding,
    text: &[u8],
    offset: usize,
    position: Position,
) -> Position
    requires within { offset < length text.now }
    requires position { position ≡ position_at encoding text.now offset }
    ensures { result ≡ position_at encoding text.now (offset + 1) }
{
    if ends_line(text, offset) {
        Position {
            line: position.line + 1,
            character: 0,
        }
    } else {
        Position {
            line: position.line,
            character: position.character + units(encoding, text[offset]),
        }
    }
}

/// Returns whether a position can name an offset, between two characters, and not between `\r` and
/// `\n`.
fn is_place(text: &str, offset: usize) -> bool
    ensures { IsTrue result ↔ IsPlace text.now offset }
{
    let bytes = text.as_bytes();
    if !text.is_char_boundary(offset) {
        return false;
    }
    if offset == 0 || offset == bytes.len() {
        return true;
    }
    bytes[offset] != b'\n' || bytes[offset - 1] != b'\r'
}

/// Returns the offset in bytes that a position names: that of the last place of the text whose position is at
/// most this one. So a character past the end of its line is the end of that line, before its line end; a
/// line past the last one is the end of the text; and a position inside a character is the start of that
/// character.
pub fn offset_of(text: &str, encoding: Encoding, position: Position) -> usize
    ensures { IsOffset encoding text.now position result }
{
    let bytes = text.as_bytes();
    let mut here = START;
    let mut last = 0;
    for offset in 0..bytes.len() {
        if here.line > position.line {
            return last;
        }
        if here.is_at_most(position) && is_place(text, offset) {
            last = offset;
        }
        here = next_position(encoding, bytes, offset, here);
    }
    if here.is_at_most(position) {
        bytes.len()
    } else {
        last
    }
}

/// Returns the position of an offset in bytes; of one past the end of the text, that of the end.
pub fn position_of(text: &str, encoding: Encoding, offset: usize) -> Position
    ensures { result ≡ position_at encoding text.now (min offset (length text.now)) }
{
    advance(text, encoding, 0, START, offset.min(text.len()))
}

/// Returns the position of an offset from that of an earlier one.
pub(crate) fn advance(
    text: &str,
    encoding: Encoding,
    from: usize,
    position: Position,
    offset: usize,
) -> Position
    requires ordered { from ≤ offset }
    requires within { offset ≤ length text.now }
    requires position { position ≡ position_at encoding text.now from }
    ensures { result ≡ position_at encoding text.now offset }
{
    let bytes = text.as_bytes();
    let mut here = position;
    for next in from..offset {
        here = next_position(encoding, bytes, next, here);
    }
    here
}
