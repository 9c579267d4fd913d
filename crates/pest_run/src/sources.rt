//! Files that are read.
ghost use Rattle.std.specs.Prelude.{◌≡◌, ◌↔◌, IfSome, IsErr, IsOk, IsSome, true};
ghost use Rattle.pest_run.specs.Written.{IsReadable, WritesUnread, why_unread};

use crate::messages::unread_message;
use program_support::ends::{RunExit, exit_with};
use program_support::output::Output;
use program_support::status::Status;
use std::alloc::Global;
use std::io::Write;

/// A file: its name, its bytes, and the reason if they cannot be read.
#[derive(Drop)]
pub struct Source<'a> {
    pub name: &'a str,
    pub bytes: Vec<u8>,
    pub why: Option<String>,
}

/// Returns the text of a file, if it can be read and is UTF-8.
pub fn text_of<'s>(source: &'s Source<'_>) -> Option<&'s str>
    ensures readable { IsSome result ↔ IsReadable source.entry.now }
    ensures text { IfSome result (λ text. text.now ≡ source.entry.now.bytes.items) }
{
    match source.why {
        Some(_) => None,
        None => str::from_utf8(&source.bytes).ok(),
    }
}

/// Returns why a file cannot be read.
fn why_unread<'s>(source: &'s Source<'_>) -> &'s str
    ensures { result.now ≡ why_unread source.entry.now }
{
    match &source.why {
        Some(why) => why.as_str(),
        None => "it is not UTF-8",
    }
}

/// Reports a file that cannot be read.
pub fn unreadable<E: Write>(alloc: Global, source: &Source<'_>, err: &mut Output<E>) -> RunExit
    ensures status { result.status ≡ 3 }
    ensures tells { WritesUnread source.entry.now result.write_result
        (E.contents err.old.writer) (E.contents err.new.writer) }
    ensures told { IsOk result.write_result → err.new.refused ≡ err.old.refused }
    ensures refused_line { IsErr result.write_result → err.new.refused ≡ true }
{
    let why = why_unread(source);
    match unread_message(alloc, source.name, why) {
        Ok(message) => exit_with(err, message.as_str(), Status::Unreadable),
        Err(_) => exit_with(err, "cannot read a file: out of memory", Status::Unreadable),
    }
}
