//! Trees, calls, and what a failure records.

/// A tree, followed by its descendants. `start` and `end` are positions in bytes, and `after` is the number
/// of trees up to its last descendant.
#[repr(C)]
#[derive(Clone, Copy, Debug)]
pub struct TreeNode {
    pub rule: u32,
    pub start: u32,
    pub end: u32,
    pub after: u32,
}

/// A call that counts: the number of its rule, and the position, in bytes, where it begins.
#[derive(Clone, Copy, Debug, PartialEq, Eq)]
pub struct OpenCall {
    pub rule: u32,
    pub start: usize,
}

/// The positions, in bytes, that a run is asked for.
#[derive(Clone, Copy, Debug)]
pub struct Places {
    /// Names and paths are recorded there.
    pub names: usize,
    /// Attempts are recorded there.
    pub attempts: usize,
}

/// The records of the end of a continuation frame's part.
#[derive(Clone, Copy, Debug)]
pub enum Failing {
    /// Nothing.
    Plain,
    /// The failure of a call that counts: its rule is expected in place of the rules that were called within.
    Counted,
    /// Nothing is expected below a `!`, whether its part fails or not.
    Negated,
}
