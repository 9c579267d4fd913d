//! Points of a program, and demands on its code.
use matcher_code::code::Op;
use matcher_program::form::Form;
use matcher_sets::modes::Atomicity;

/// The task that begins at a point.
#[derive(Clone, Copy)]
pub enum Part<'p> {
    /// An expression.
    Form(&'p Form),
    /// An expression, and then its repetition.
    OnceOrMore(&'p Form),
    /// The repetition of an expression.
    Repetition(&'p Form),
    /// The body of the rule of a number.
    Body(usize),
    /// A call of the rule of a number.
    Rule(usize),
    /// The implicit skipping.
    Trivia,
    /// The implicit skipping, as the expression that it is.
    Skipped,
    /// Calls of `WHITESPACE` until one fails, in the implicit skipping.
    Blanks,
    /// A call of `WHITESPACE`, in the implicit skipping.
    BlankCall,
    /// All comments that are next, in the implicit skipping, with blanks after each.
    Comments,
    /// A comment with blanks after it, in the implicit skipping.
    Comment,
    /// A call of `COMMENT`, in the implicit skipping.
    CommentCall,
    /// Nothing, in the implicit skipping.
    Stay,
}

/// The `around` of a place that no call in place is around.
pub(crate) const NO_CALL: u32 = 0xffff_ffff;

/// The rank of what is no part.
pub(crate) const TOP_RANK: u32 = 0xffff_ffff;

/// A mode and three labels: a task begins at `label`, a success goes on at `next`, a failure at `on_fail`.
/// Its parts have lower ranks. `around` is the number of the point of the innermost body around, of a rule
/// that is called in place or not.
#[derive(Clone, Copy)]
pub struct TaskLabels {
    pub mode: Atomicity,
    pub label: u32,
    pub next: u32,
    pub on_fail: u32,
    pub rank: u32,
    pub around: u32,
}

/// A task at a place.
#[derive(Clone, Copy)]
pub struct Point<'p> {
    pub part: Part<'p>,
    pub at: TaskLabels,
}

/// A choice by a table: the table's first index, the set of characters with which the first alternative
/// begins, whether its failure elsewhere is recorded, the labels at which the alternatives begin, and those
/// at which a success and a failure go on.
#[derive(Clone, Copy)]
pub struct Branch {
    pub table: u32,
    pub set: u32,
    pub noted: bool,
    pub first: u32,
    pub second: u32,
    pub next: u32,
    pub on_fail: u32,
}

/// A fact about a program.
#[derive(Clone, Copy)]
pub enum Demand {
    /// The operation of a label.
    Operation {
        label: u32,
        op: Op,
    },
    /// The body of a rule in a mode begins at `first`, and goes on at `last`: the point of a number.
    Body {
        rule: usize,
        mode: Atomicity,
        first: u32,
        last: u32,
        point: usize,
    },
    /// The implicit skipping as an expression begins at `first`, and goes on at `last`: the point of a
    /// number.
    Skipping {
        first: u32,
        last: u32,
        point: usize,
    },
    /// The operation of a label does not end a run.
    GoesOn {
        label: u32,
    },
    /// A table has the labels of a choice.
    Branch(Branch),
}

/// Why rules are not compiled.
#[derive(Debug, Drop)]
pub enum NotCompiled {
    Memory,
    /// The rules need more labels, sets or texts than `u32` has numbers.
    Unsupported,
}

impl From<std::alloc::AllocError> for NotCompiled {
    fn from(_error: std::alloc::AllocError) -> NotCompiled {
        NotCompiled::Memory
    }
}
