//! Readings: abstract outcomes of expressions from an abstract stack, and their transfer functions.
ghost use Rattle.std.specs.Prelude.{◌≡◌, true};
ghost use Rattle.front_stack_domain.specs.Reading as says;
ghost use Rattle.front_stack_domain.specs.Stack as is;
ghost use Rattle.front_stack_domain.specs.Walks as walks;
ghost use Rattle.front_stack_domain.specs.Views.{stack_of, possible, reading_of, walk_of};

use crate::stack::{Base, Stack};

/// An abstract outcome: the stack after a success and after a failure, if they are possible, and whether
/// a success takes nothing.
#[derive(Clone, Copy)]
pub struct Reading {
    pub ok: Option<Stack>,
    pub err: Option<Stack>,
    pub still: bool,
}

/// The progress along the copies of a repetition: the stack, if it is possible, whether a required copy may
/// have failed, and whether nothing was taken.
#[derive(Clone, Copy)]
pub struct Walk {
    pub here: Option<Stack>,
    pub failing: bool,
    pub still: bool,
}

/// Returns the join of two stacks that may be impossible.
pub fn join_any(first: Option<Stack>, second: Option<Stack>) -> Option<Stack>
    ensures { possible result ≡ is.join_any (possible first) (possible second) }
{
    match (first, second) {
        (None, second) => second,
        (Some(first), None) => Some(first),
        (Some(first), Some(second)) => Some(first.join(second)),
    }
}

/// Returns the stack from which matching goes on after a failure: the join of those after it and before.
pub fn after_failure(err: Option<Stack>, stack: Stack) -> Option<Stack>
    ensures { possible result ≡ is.failed (possible err) (stack_of stack) }
{
    match err {
        None => None,
        Some(err) => Some(err.join(stack)),
    }
}

fn only_if(condition: Option<Stack>, stack: Stack) -> Option<Stack>
    ensures { possible result ≡ says.only_if (possible condition) (stack_of stack) }
{
    match condition {
        None => None,
        Some(_) => Some(stack),
    }
}

impl Reading {
    pub fn impossible() -> Reading
        ensures { reading_of result ≡ says.impossible }
    {
        Reading {
            ok: None,
            err: None,
            still: true,
        }
    }

    pub fn surely(stack: Stack) -> Reading
        ensures { reading_of result ≡ says.surely (stack_of stack) }
    {
        Reading {
            ok: Some(stack),
            err: None,
            still: true,
        }
    }

    pub fn maybe(stack: Stack) -> Reading
        ensures { reading_of result ≡ says.maybe (stack_of stack) }
    {
        Reading {
            ok: Some(stack),
            err: Some(stack),
            still: false,
        }
    }

    pub fn anything() -> Reading
        ensures { reading_of result ≡ says.anything }
    {
        Reading::maybe(Stack::unknown())
    }

    pub fn peek_all(stack: Stack) -> Reading
        ensures { reading_of result ≡ says.peek_all_reading (stack_of stack) }
    {
        if stack.is_blank() {
            Reading::surely(stack)
        } else {
            Reading::maybe(stack)
        }
    }

    pub fn pop_all(stack: Stack) -> Reading
        ensures { reading_of result ≡ says.pop_all_reading (stack_of stack) }
    {
        let after = stack.without_entries();
        if stack.is_blank() {
            Reading::surely(after)
        } else {
            Reading {
                ok: Some(after),
                err: Some(Stack::unknown()),
                still: false,
            }
        }
    }

    /// Returns the reading of `PEEK` or `POP`, with the stack `left` after a success.
    pub fn top(stack: Stack, left: Stack) -> Reading
        ensures { let a = stack_of stack in
            reading_of result ≡ says.top_reading a.marks a.base (stack_of left) }
    {
        if stack.count > 0 {
            if stack.marks % 2 == 1 {
                Reading::surely(left)
            } else {
                Reading::maybe(left)
            }
        } else if stack.base.is_empty() {
            Reading::impossible()
        } else {
            Reading::maybe(left)
        }
    }

    /// Returns the reading of `DROP`.
    pub fn drop_top(stack: Stack) -> Reading
        ensures { let a = stack_of stack in reading_of result ≡ says.drop_reading a.marks a.base a }
    {
        if stack.count > 0 {
            Reading::surely(stack.without_top())
        } else if stack.base.is_empty() {
            Reading {
                ok: None,
                err: Some(stack),
                still: false,
            }
        } else {
            Reading {
                ok: Some(stack.without_top()),
                err: Some(stack),
                still: true,
            }
        }
    }

    pub fn push_match(self) -> Reading
        ensures { reading_of result ≡ says.pushed_reading (reading_of self) }
    {
        Reading {
            ok: match self.ok {
                None => None,
                Some(after) => Some(after.with_mark(self.still)),
            },
            err: self.err,
            still: self.still,
        }
    }

    pub fn ahead(self, stack: Stack) -> Reading
        ensures { reading_of result ≡ says.ahead_reading (stack_of stack) (reading_of self) }
    {
        Reading {
            ok: only_if(self.ok, stack),
            err: only_if(self.err, stack),
            still: true,
        }
    }

    pub fn not_ahead(self, stack: Stack) -> Reading
        ensures { reading_of result ≡ says.not_ahead_reading (stack_of stack) (reading_of self) }
    {
        Reading {
            ok: only_if(self.err, stack),
            err: only_if(self.ok, stack),
            still: true,
        }
    }

    /// Returns the reading of a sequence.
    pub fn then(self, second: Reading, stack: Stack, skips: bool) -> Reading
        ensures { reading_of result
            ≡ says.seq_reading skips (stack_of stack) (reading_of self) (reading_of second) }
    {
        Reading {
            ok: second.ok,
            err: if self.err.is_some() || second.err.is_some() {
                Some(stack)
            } else {
                None
            },
            still: self.still && second.still && !skips,
        }
    }

    /// Returns the stack from which a second operand is read: after a failure for a choice, else after a
    /// success.
    pub fn next_after(self, choice: bool, stack: Stack) -> Option<Stack>
        ensures { possible result ≡ walks.next_after choice (reading_of self) (stack_of stack) }
    {
        if choice {
            after_failure(self.err, stack)
        } else {
            self.ok
        }
    }

    /// Returns the stack after an expression that cannot fail and takes nothing.
    pub fn sure_stack(self) -> Option<Stack>
        ensures { possible result ≡ walks.settled (reading_of self) }
    {
        if self.err.is_some() || !self.still {
            None
        } else {
            self.ok
        }
    }

    /// Whether the expression takes nothing if it succeeds.
    pub fn stays(self) -> bool
        ensures { result ≡ says.stays (reading_of self) }
    {
        self.ok.is_none() || self.still
    }

    /// Returns the reading of a choice.
    pub fn or(self, second: Reading, stack: Stack) -> Reading
        ensures { reading_of result
            ≡ says.choice_reading (stack_of stack) (reading_of self) (reading_of second) }
    {
        Reading {
            ok: join_any(self.ok, second.ok),
            err: after_failure(second.err, stack),
            still: self.stays() && second.stays(),
        }
    }

    /// Returns the stack after an attempt, whether it succeeds or fails.
    pub fn after_attempt(self, stack: Stack) -> Option<Stack>
        ensures { possible result ≡ says.tried (stack_of stack) (reading_of self) }
    {
        join_any(self.ok, after_failure(self.err, stack))
    }

    pub fn optional(self, stack: Stack) -> Reading
        ensures { reading_of result ≡ says.opt_reading (stack_of stack) (reading_of self) }
    {
        Reading {
            ok: self.after_attempt(stack),
            err: None,
            still: self.stays(),
        }
    }
}

fn is_same_option(first: Option<Stack>, second: Option<Stack>) -> bool
    ensures same { result ≡ true → possible first ≡ possible second }
    ensures other { possible first ≡ possible second → result ≡ true }
{
    match (first, second) {
        (None, None) => true,
        (Some(first), Some(second)) => first.is_same(second),
        _ => false,
    }
}

impl Walk {
    /// Whether two walks are equal.
    pub fn is_same(self, other: Walk) -> bool
        ensures same { result ≡ true → walk_of self ≡ walk_of other }
        ensures other { walk_of self ≡ walk_of other → result ≡ true }
    {
        is_same_option(self.here, other.here)
            && self.failing == other.failing
            && self.still == other.still
    }

    /// Returns the walk after one more copy, which is required or may fail.
    pub fn after_copy(self, reading: Reading, stack: Stack, required: bool) -> Walk
        ensures { walk_of result
            ≡ walks.stepped required (stack_of stack) (reading_of reading) (walk_of self) }
    {
        let still = self.still && reading.stays();
        if required {
            Walk {
                here: reading.ok,
                failing: self.failing || reading.err.is_some(),
                still,
            }
        } else {
            Walk {
                here: reading.after_attempt(stack),
                failing: self.failing,
                still,
            }
        }
    }

    /// Returns the walk after one more turn.
    pub fn after_turn(self, reading: Reading, stack: Stack) -> Walk
        ensures { walk_of result ≡ walks.turned (stack_of stack) (reading_of reading) (walk_of self) }
    {
        Walk {
            here: join_any(self.here, after_failure(reading.err, stack)),
            failing: self.failing,
            still: self.still && reading.stays(),
        }
    }

    /// Returns the reading of the whole repetition. `alone`: nothing can be skipped inside it.
    pub fn reading(self, stack: Stack, alone: bool) -> Reading
        ensures { reading_of result ≡ walks.ended (stack_of stack) alone (walk_of self) }
    {
        Reading {
            ok: self.here,
            err: if self.failing { Some(stack) } else { None },
            still: self.here.is_none() || (self.still && alone),
        }
    }
}
