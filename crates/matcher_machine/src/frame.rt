//! Continuation frames.

use matcher_code::state::Failing;

/// A continuation frame: of a call, or of a choice that may fail.
#[derive(Clone, Copy, Debug)]
pub struct Frame {
    /// The operation after success.
    pub next: u32,
    /// The operation after failure.
    pub fail: u32,
    pub failing: Failing,
    /// How many names were expected before.
    pub names: u16,
    /// The number of the text on top of the stack, which a failure restores.
    pub top: u32,
    /// The position, in bytes, and the number of trees, which a failure restores.
    pub at: usize,
    pub trees: usize,
}
