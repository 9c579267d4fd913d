//! The inputs of the programs: files, and standard input.
ghost use Rattle.std.specs.Prelude.{◌≡◌, IfNone, IfOk, IfSome, IsUtf8};

use std::alloc::{AllocError, Global};
use std::fs::File;
use std::io::{self, Read};

/// The number of bytes from which on neither a grammar nor a text is read.
const TOO_LONG: usize = 1 << 32;

/// Reads all bytes of the file named `name`, or of standard input for `-`. No clause can say what a file has.
///
/// # Errors
/// - An error of the system, if it refuses to read.
/// - An allocation failure.
/// - An error with the words `it has 4 GiB or more`, if there are 2^32 bytes or more.
pub fn read_input(rt: &HostRuntime, name: &str) -> io::Result<Vec<u8>> {
    if name == "-" {
        read_all(rt.alloc(), &mut rt.stdin())
    } else {
        read_all(rt.alloc(), &mut File::open(rt, name)?)
    }
}

/// Reads all bytes that a reader gives, if these are fewer than 2^32.
fn read_all<R: Read>(alloc: Global, reader: &mut R) -> io::Result<Vec<u8>>
    ensures { IfOk result (λ bytes. IfSome (R.remaining reader.old) (λ left. bytes.items ≡ left)) }
{
    let mut bytes = Vec::new(alloc);
    reader.read_to_end(&mut bytes)?;
    if bytes.len() >= TOO_LONG {
        return Err(io::Error::other("it has 4 GiB or more"));
    }
    Ok(bytes)
}

/// Returns why bytes are no text, in words: the first byte that is wrong, from 0, and its line, from 1.
/// If the bytes are UTF-8, there is no reason.
///
/// # Errors
/// `AllocError` if an allocation fails.
pub fn describe_flaw(alloc: Global, bytes: &[u8]) -> Result<Option<String>, AllocError>
    ensures text { IfOk result (λ why. IfNone why (IsUtf8 bytes.now)) }
    ensures flaw { IfOk result (λ why. IfSome why (λ words. ¬ (IsUtf8 bytes.now))) }
{
    let Err(error) = str::from_utf8(bytes) else {
        return Ok(None);
    };
    let place = error.valid_up_to();
    let line = line_of(bytes, place);
    let words = format!(in alloc; "it is not UTF-8: byte {place} is wrong, in line {line}")?;
    Ok(Some(words))
}

/// Returns the number of the line in which the byte `place` is, from 1.
fn line_of(bytes: &[u8], place: usize) -> usize {
    let before = bytes.get(..place).unwrap_or(bytes);
    let feeds = before.iter().filter(|byte| **byte == b'\n').count();
    feeds.saturating_add(1)
}
