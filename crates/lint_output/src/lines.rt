//! Lines and columns.
ghost use Rattle.std.specs.Prelude.{◌≡◌, ◌+◌, ◌<◌, ℕ, IfOk, List, OnOk, get_or, length};
ghost use Rattle.lint_output.specs.Locations.{AreCheckpoints, IsIndexOf, location_at};

use std::alloc::{AllocError, Global};

/// How many bytes are between two checkpoints.
const STEP: usize = 256;

/// A byte of a text: its line and column, both from 1, in characters, and the byte at which its line begins.
#[derive(Clone, Copy, Debug, PartialEq, Eq)]
pub struct Location {
    pub line: usize,
    pub column: usize,
    pub line_start: usize,
}

/// The locations of every 256th byte of a text, so that each other is found in constant time.
#[derive(Debug, Drop)]
pub struct LineIndex {
    checkpoints: Vec<Location>,
}

impl LineIndex {
    /// The index of a text.
    pub fn new(alloc: Global, text: &str) -> Result<LineIndex, AllocError>
        ensures { IfOk result (IsIndexOf text.now) }
    {
        let bytes = text.as_bytes();
        let mut checkpoints = Vec::new(alloc);
        let mut location = FIRST;
        for at in 0..bytes.len() {
            add_checkpoint(location, at, &mut checkpoints)?;
            location = step(location, bytes, at);
        }
        add_checkpoint(location, bytes.len(), &mut checkpoints)?;
        Ok(LineIndex { checkpoints })
    }

    /// Returns the location of the byte `position` of the text that the index is made of. If the byte is
    /// after the end of the text, it is the location of the end.
    pub fn locate(&self, text: &str, position: usize) -> Location
        ensures { IsIndexOf text.now self.now → result ≡ location_at text.now position }
    {
        let bytes = text.as_bytes();
        let last = position.min(bytes.len());
        let index = last / STEP;
        let mut location = self.checkpoint(index);
        for at in index * STEP..last {
            location = step(location, bytes, at);
        }
        location
    }

    /// The location of the checkpoint of an index, or that of a text's first byte.
    fn checkpoint(&self, index: usize) -> Location
        ensures { result ≡ get_or self.now.checkpoints.items index FIRST }
    {
        self.checkpoints.get(index).copied().unwrap_or(FIRST)
    }
}

/// The location of a text's first byte.
const FIRST: Location = Location {
    line: 1,
    column: 1,
    line_start: 0,
};

/// Adds the location of a byte to the checkpoints, if it is one of these.
fn add_checkpoint(
    location: Location,
    at: usize,
    checkpoints: &mut Vec<Location>,
) -> Result<(), AllocError>
    ensures { OnOk result ((text : List ℕ) → location ≡ location_at text at
        → AreCheckpoints text at checkpoints.old.items
        → AreCheckpoints text (at + 1) checkpoints.new.items) }
{
    if at % STEP != 0 {
        return Ok(());
    }
    checkpoints.push(location)?;
    Ok(())
}

/// The location of the byte after one.
fn step(location: Location, bytes: &[u8], at: usize) -> Location
    requires { at < length bytes.now }
    ensures { location ≡ location_at bytes.now at → result ≡ location_at bytes.now (at + 1) }
{
    match bytes[at] {
        b'\n' => Location {
            line: location.line.saturating_add(1),
            column: 1,
            line_start: at + 1,
        },
        128..=191 => location,
        _ => Location {
            column: location.column.saturating_add(1),
            ..location
        },
    }
}
