//! Frames of messages: a head of lines, an empty line, and the number of bytes that the head says.
ghost use Rattle.std.specs.Prelude.{◌≡◌, ◌≤◌, ◌<◌, ◌∷◌, [], ℕ, List, IfOk, MatchOption, OnOk, length, string_bytes, take};
ghost use Rattle.std.specs.Io.{ReadsAtMost};
ghost use Rattle.std.specs.Io.KnownBytes.{Appends, Consumes, IsAtEnd};
ghost use Rattle.pest_language_server.specs.Frames as spec;
ghost use Rattle.pest_language_server.specs.Frames.{IsBodyRead, IsByteRead, IsFrameRead, IsHeadRead};
ghost use Rattle.pest_language_server.specs.Frames.{IsLineRead, IsRestRead, IsSkipped, SaysLength, SaysNone};

use std::alloc::{AllocError, Global};
use std::io::{self, BufRead, ErrorKind, Read, Write};

/// The most bytes in a line of a head, the most lines of a head, and the most bytes of a body.
const MOST_LINE: usize = 1024;

const MOST_LINES: usize = 64;

const MOST_BODY: u64 = 64 * 1024 * 1024;

/// The most bytes that are read at once.
const MOST_PART: usize = 4096;

/// The next frame of the input.
#[derive(Drop)]
pub enum InputFrame {
    /// A body of the length that its head says.
    Body(Vec<u8>),
    /// A head without a length that can be read.
    Invalid,
    /// A body for which there was no memory.
    TooLarge,
    /// The input's end, also within a frame.
    End,
}

/// The head of a frame.
#[derive(Clone, Copy)]
enum Head {
    /// The length that a head says.
    Length(u64),
    /// A head that says none, or has more than 64 lines.
    Invalid,
    /// The input's end, also within a head.
    End,
}

/// Reads one frame. Waits for bytes that are still to come, and fails if the system does.
pub fn read_frame<R: BufRead>(alloc: Global, input: &mut R) -> io::Result<InputFrame>
    ensures { IfOk result (IsFrameRead (R.remaining input.old) (R.remaining input.new)) }
{
    let head = read_head(alloc, input)?;
    match head {
        Head::Length(length) => {
            if length > MOST_BODY {
                return Ok(InputFrame::Invalid);
            }
            read_body(alloc, input, length)
        }
        Head::Invalid => Ok(InputFrame::Invalid),
        Head::End => Ok(InputFrame::End),
    }
}

/// Reads a head, up to its empty line.
fn read_head<R: BufRead>(alloc: Global, input: &mut R) -> io::Result<Head>
    ensures { IfOk result (IsHeadRead (R.remaining input.old) (R.remaining input.new)) }
{
    let mut length = None;
    let mut count = 0;
    while count < MOST_LINES {
        let next = read_line(alloc, input)?;
        match next {
            None => return Ok(Head::End),
            Some(line) => {
                if is_empty_line(&line) {
                    return Ok(head_of(length));
                }
                length = content_length(&line).or(length);
                count += 1;
            }
        }
    }
    Ok(Head::Invalid)
}

/// Returns a head of lines that say a length, or none.
fn head_of(length: Option<u64>) -> Head
    ensures { result ≡ spec.head_of length }
{
    match length {
        Some(length) => Head::Length(length),
        None => Head::Invalid,
    }
}

/// Returns the length that a line of a head says. Bytes before the name are passed over: a body whose
/// length was wrong, or the rest of one, has no line break at its end, so the next head's first line is
/// joined to it.
fn content_length(line: &[u8]) -> Option<u64>
    ensures { MatchOption result (SaysNone line.now) (SaysLength line.now) }
{
    let Ok(text) = str::from_utf8(line) else {
        return None;
    };
    let Some((_front, value)) = text.rsplit_once("Content-Length:") else {
        return None;
    };
    value.trim().parse::<u64>().ok()
}

/// Whether a line is empty.
fn is_empty_line(line: &[u8]) -> bool
    ensures { result ≡ spec.is_empty_line line.now }
{
    line == b"\r\n".as_slice() || line == b"\n".as_slice()
}

/// Reads a line, with its line feed, or the first 1024 bytes of one; none at the input's end, also within
/// a line.
fn read_line<R: BufRead>(alloc: Global, input: &mut R) -> io::Result<Option<Vec<u8>>>
    ensures { IfOk result (λ line. IsLineRead (R.remaining input.old) (R.remaining input.new) line) }
{
    let mut line = Vec::new(alloc);
    while line.len() < MOST_LINE {
        let next = read_byte(input)?;
        match next {
            None => return Ok(None),
            Some(byte) => {
                line.push(byte)?;
                if byte == b'\n' {
                    return Ok(Some(line));
                }
            }
        }
    }
    Ok(Some(line))
}

/// Reads a byte; none at the input's end.
fn read_byte<R: BufRead>(input: &mut R) -> io::Result<Option<u8>>
    ensures { IfOk result (λ byte. IsByteRead (R.remaining input.old) (R.remaining input.new) byte) }
{
    let mut byte = [0u8; 1];
    let count = read_some(input, &mut byte)?;
    if count == 0 {
        return Ok(None);
    }
    Ok(Some(byte[0]))
}

/// Reads some bytes; none at the input's end. A read that a signal interrupts is tried again.
fn read_some<R: BufRead>(input: &mut R, buffer: &mut [u8]) -> io::Result<usize>
    ensures bound { ReadsAtMost result buffer.new }
    ensures bytes { IfOk result (λ count.
        Consumes (R.remaining input.old) (R.remaining input.new) (take count buffer.new)) }
    ensures end { IfOk result (λ count.
        count ≡ 0 → 0 < length buffer.old → IsAtEnd (R.remaining input.new)) }
{
    for _ in 0..u64::MAX {
        match input.read(buffer) {
            Ok(count) => return Ok(count),
            Err(error) => {
                if error.kind() != ErrorKind::Interrupted {
                    return Err(error);
                }
            }
        }
    }
    Err(io::Error::from(ErrorKind::Interrupted))
}

/// Reads at most `most` bytes into the front of a buffer; none at the input's end.
fn read_part<R: BufRead>(input: &mut R, buffer: &mut [u8], most: usize) -> io::Result<usize>
    requires { most ≤ length buffer.old }
    ensures bound { IfOk result (λ count. count ≤ most) }
    ensures bytes { IfOk result (λ count.
        Consumes (R.remaining input.old) (R.remaining input.new) (take count buffer.new)) }
    ensures end { IfOk result (λ count.
        count ≡ 0 → 0 < most → IsAtEnd (R.remaining input.new)) }
{
    read_some(input, &mut buffer[..most])
}

/// Reads a body. One for which there is no memory is read away.
fn read_body<R: BufRead>(alloc: Global, input: &mut R, length: u64) -> io::Result<InputFrame>
    ensures { IfOk result (IsBodyRead (R.remaining input.old) (R.remaining input.new) length) }
{
    let mut body = Vec::new(alloc);
    let mut buffer = [0u8; MOST_PART];
    let mut rest = length;
    while rest > 0 {
        let most = rest.min(MOST_PART as u64) as usize;
        let taken = read_part(input, &mut buffer, most)?;
        if taken == 0 {
            return Ok(InputFrame::End);
        }
        rest -= taken as u64;
        if body.extend_from_slice(&buffer[..taken]).is_err() {
            return skip_body(input, rest);
        }
    }
    Ok(InputFrame::Body(body))
}

/// Reads the rest of a body away for which there was no memory.
fn skip_body<R: BufRead>(input: &mut R, rest: u64) -> io::Result<InputFrame>
    ensures { IfOk result (IsSkipped (R.remaining input.old) (R.remaining input.new) rest) }
{
    if skip_bytes(input, rest)? {
        Ok(InputFrame::TooLarge)
    } else {
        Ok(InputFrame::End)
    }
}

/// Reads `count` bytes away. Returns whether the input has them.
fn skip_bytes<R: BufRead>(input: &mut R, count: u64) -> io::Result<bool>
    ensures { IfOk result (IsRestRead (R.remaining input.old) (R.remaining input.new) count) }
{
    let mut buffer = [0u8; MOST_PART];
    let mut rest = count;
    while rest > 0 {
        let most = rest.min(MOST_PART as u64) as usize;
        let taken = read_part(input, &mut buffer, most)?;
        if taken == 0 {
            return Ok(false);
        }
        rest -= taken as u64;
    }
    Ok(true)
}

/// Writes one frame, in one call, and flushes it.
pub fn write_frame<W: Write>(alloc: Global, out: &mut W, body: &str) -> io::Result<()>
    ensures { OnOk result
        (Appends (W.contents out.old) (W.contents out.new) (spec.frame_of body.now)) }
{
    let frame = frame_of(alloc, body)?;
    out.write_all(frame.as_bytes())?;
    out.flush()
}

/// Returns the frame of a body.
fn frame_of(alloc: Global, body: &str) -> Result<String, AllocError>
    ensures { IfOk result (λ text. string_bytes text ≡ spec.frame_of body.now) }
{
    let mut text = head_text(alloc, body.len())?;
    text.push_str(body)?;
    Ok(text)
}

/// Returns the head of the frame of a body of this length.
fn head_text(alloc: Global, length: usize) -> Result<String, AllocError>
    ensures { IfOk result (λ text. string_bytes text ≡ spec.head_text length) }
{
    format!(in alloc; "Content-Length: {length}\r\n\r\n")
}
