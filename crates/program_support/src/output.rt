//! Writers that remember a refused write.
ghost use Rattle.std.specs.Prelude.{◌≡◌, OnErr, OnOk, false, true};
ghost use Rattle.std.specs.Io.KnownBytes.{Appends};
ghost use Rattle.program_support.specs.Lines.{line_of};

use std::io::Write;

/// A writer, and whether it has refused a write. The flag `refused` is set here alone.
#[derive(Drop)]
pub struct Output<W> {
    /// The writer.
    pub writer: W,
    /// Whether the writer leads to a terminal, so that reports are made for a person's eyes.
    pub is_terminal: bool,
    /// Whether a write was refused.
    refused: bool,
}

/// The error of a write that the writer refused: an error, or nothing taken.
#[derive(Clone, Copy, Debug, Drop, PartialEq, Eq)]
pub struct RefusedWrite;

impl<W: Write> Output<W> {
    /// Returns an output that has refused nothing, over a writer that leads to no terminal.
    pub fn new(writer: W) -> Output<W>
        ensures writer { result.writer ≡ writer }
        ensures terminal { result.is_terminal ≡ false }
        ensures fresh { result.refused ≡ false }
    {
        Output::for_terminal(writer, false)
    }

    /// Returns an output that has refused nothing. The writer leads to a terminal if `is_terminal` is true.
    pub fn for_terminal(writer: W, is_terminal: bool) -> Output<W>
        ensures writer { result.writer ≡ writer }
        ensures terminal { result.is_terminal ≡ is_terminal }
        ensures fresh { result.refused ≡ false }
    {
        Output {
            writer,
            is_terminal,
            refused: false,
        }
    }

    /// Writes a text, all of it, and flushes the writer. Returns an error if the writer refused one of these,
    /// and remembers it.
    pub fn write_text(&mut self, text: &str) -> Result<(), RefusedWrite>
        ensures gained { OnOk result
            (Appends (W.contents self.old.writer) (W.contents self.new.writer) text.now) }
        ensures taken { OnOk result (self.new.refused ≡ self.old.refused) }
        ensures refused { OnErr result (self.new.refused ≡ true) }
    {
        let bytes = text.as_bytes();
        if self.writer.write_all(bytes).is_ok() && self.writer.flush().is_ok() {
            Ok(())
        } else {
            self.refused = true;
            Err(RefusedWrite)
        }
    }

    /// Writes texts and then a line break, as by `write_text`, up to the first that is refused.
    pub fn write_line(&mut self, texts: &[&str]) -> Result<(), RefusedWrite>
        ensures gained { OnOk result
            (Appends (W.contents self.old.writer) (W.contents self.new.writer) (line_of texts.now)) }
        ensures taken { OnOk result (self.new.refused ≡ self.old.refused) }
        ensures refused { OnErr result (self.new.refused ≡ true) }
    {
        for text in texts {
            self.write_text(text)?;
        }
        self.write_text("\n")
    }
}
