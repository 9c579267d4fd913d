//! Operations, and programs of them.

use crate::ranges::RangeList;

/// An operation at a position of a text. An operation has the numbers of the next operations: `next` for
/// success, `fail` for failure.
#[derive(Clone, Copy, Debug)]
pub enum Op {
    /// Fails: pops a frame and goes to its `fail`.
    Fail,
    /// Calls the operations from `to` on for the rule numbered `rule`, with a tree. If `counts` is set, a
    /// failure of the call is recorded.
    Call {
        to: u32,
        rule: u32,
        next: u32,
        fail: u32,
        counts: bool,
    },
    /// Calls the operations from `to` on, without a tree.
    Sub {
        to: u32,
        next: u32,
        fail: u32,
    },
    /// Returns from a call with a tree.
    Return,
    /// Returns from a call without a tree.
    Back,
    /// Goes to the operation that a table names for the byte here, or for the end. `table` is the number of
    /// the table's first entry.
    Switch {
        table: u32,
    },
    /// Takes one character of a set.
    One {
        set: u32,
        next: u32,
        fail: u32,
    },
    /// Checks whether the next character is in a set.
    IsOne {
        set: u32,
        next: u32,
        fail: u32,
    },
    /// Takes all characters of a set from here on.
    All {
        set: u32,
        next: u32,
    },
    /// Takes all characters of a set, and goes to `slow` if the byte after them has a flag in the byte set
    /// `stops`.
    Trivia {
        set: u32,
        stops: u32,
        next: u32,
        slow: u32,
    },
    /// Takes a text.
    Text {
        text: u32,
        next: u32,
        fail: u32,
    },
    /// Takes a text, ignoring the case of ASCII letters.
    AnyCase {
        text: u32,
        next: u32,
        fail: u32,
    },
    /// Goes forward to the first occurrence of one of some texts, or to the end. Only positions whose byte
    /// has a flag in the byte set `firsts` count.
    Until {
        firsts: u32,
        list: u32,
        next: u32,
    },
    /// Takes a comment, with the comments within it, by the numbers of the texts that open and close one. A
    /// comment that is left open fails, and within another one it is a part of its text.
    Nested {
        opening: u32,
        closing: u32,
        next: u32,
        fail: u32,
    },
    /// Pushes a frame with the state here, which a later failure restores.
    Try {
        next: u32,
        fail: u32,
    },
    /// Pushes a frame as `Try`, whose end takes back the names that were expected since.
    Not {
        next: u32,
        fail: u32,
    },
    /// Pops the last frame, and keeps the state.
    Commit {
        next: u32,
    },
    /// Pops the last frame, and restores its state.
    Ahead {
        next: u32,
    },
    /// Records a failure of a call that counts here.
    Note {
        next: u32,
    },
    /// Records a failure of a call of a rule here, which is expected.
    Miss {
        rule: u32,
        next: u32,
    },
    /// Checks whether this is the start of the text.
    Start {
        next: u32,
        fail: u32,
    },
    /// Checks whether this is the end of the text.
    End {
        next: u32,
        fail: u32,
    },
    /// Adds a tree of a rule, without width and descendants.
    Leaf {
        rule: u32,
        next: u32,
    },
    /// Pops the last frame, and pushes the text from its position to here on the stack.
    Push {
        next: u32,
    },
    /// Pushes a text on the stack.
    PushText {
        text: u32,
        next: u32,
    },
    /// Takes the text on top of the stack.
    Peek {
        next: u32,
        fail: u32,
    },
    /// Takes the text on top of the stack, and pops it.
    Pop {
        next: u32,
        fail: u32,
    },
    /// Pops the text on top of the stack.
    Discard {
        next: u32,
        fail: u32,
    },
    /// Takes all texts of the stack, from the top.
    PeekAll {
        next: u32,
        fail: u32,
    },
    /// Takes all texts of the stack, from the top, and pops them.
    PopAll {
        next: u32,
        fail: u32,
    },
    /// Takes some texts of the stack, from the bottom. Negative numbers count from the top.
    Slice {
        from: i32,
        to: Option<i32>,
        next: u32,
        fail: u32,
    },
    /// Ends the run with a match.
    Halt,
    /// Ends the run with a failure.
    Lose,
}

/// A program: its operations, and the lists that these refer to by numbers.
#[derive(Drop)]
pub struct Code {
    pub ops: Vec<Op>,
    /// Byte sets of 256 flags, one for each byte: 0 if no character of the set begins with it; the length of
    /// a character that does; or more than 4, if the set's ranges decide.
    pub byte_sets: Vec<u8>,
    /// The ranges of each set.
    pub ranges: Vec<RangeList>,
    /// Tables of 257 numbers of operations, for each byte and for the end.
    pub tables: Vec<u32>,
    pub texts: Vec<Vec<u8>>,
    /// Lists of numbers of texts.
    pub lists: Vec<Vec<u32>>,
}
