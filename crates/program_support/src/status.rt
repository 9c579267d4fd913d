//! The statuses that the programs end with.
ghost use Rattle.std.specs.Prelude.{◌≡◌, max};
ghost use Rattle.program_support.specs.Statuses.{status_code};

/// The status of a program, or of its work on one input.
#[derive(Clone, Copy, Debug, PartialEq, Eq)]
pub enum Status {
    /// The work is done, and nothing was found.
    Done,
    /// An input is refused, or something was found in it.
    Found,
    /// An allocation failed.
    OutOfMemory,
    /// An input or the command line cannot be read.
    Unreadable,
    /// A file or standard output cannot be written.
    Unwritable,
    /// The work was stopped before it had an answer.
    Stopped,
}

impl Status {
    /// Returns the number that the process ends with.
    pub fn code(self) -> u8
        ensures { result ≡ status_code self }
    {
        match self {
            Status::Done => 0,
            Status::Found => 1,
            Status::OutOfMemory => 2,
            Status::Unreadable => 3,
            Status::Unwritable => 4,
            Status::Stopped => 5,
        }
    }

    /// Returns the one of two statuses with the higher number: the status of the work on both.
    pub fn worse(self, other: Status) -> Status
        ensures { status_code result ≡ max (status_code self) (status_code other) }
    {
        if self.code() < other.code() {
            other
        } else {
            self
        }
    }
}
