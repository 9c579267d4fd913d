//! Abstract stacks, the elements of the abstract domain.
ghost use Rattle.std.specs.Prelude.{◌≡◌, ◌≤◌, ◌<◌};
ghost use Rattle.front_stack_domain.specs.Marks.{room};

use crate::stack::marks::{are_blank, both, push_mark, same};

mod marks;

/// The entries below the marks: none, empty texts alone, any.
#[derive(Clone, Copy)]
pub enum Base {
    Empty,
    Blank,
    Any,
}

/// A base, and up to eight marks for the entries above it, each set if the entry is the empty text.
#[derive(Clone, Copy)]
pub struct Stack {
    pub base: Base,
    /// The number of marks.
    pub count: u8,
    /// The marks as a binary number, the top one last.
    pub marks: u16,
    pub intact: bool,
    pub ghost few: { count ≤ 8 },
    pub ghost small: { marks < room count },
}

impl Base {
    ghost use Rattle.front_stack_domain.specs.Stack.{common, is_any, is_empty, base_eq};
    ghost use Rattle.front_stack_domain.specs.Views.{base_of};

    fn join(self, other: Base) -> Base
        ensures { base_of result ≡ common (base_of self) (base_of other) }
    {
        match self {
            Base::Empty => other,
            Base::Blank => match other {
                Base::Any => Base::Any,
                _ => Base::Blank,
            },
            Base::Any => Base::Any,
        }
    }

    pub fn is_empty(self) -> bool
        ensures { result ≡ is_empty (base_of self) }
    {
        match self {
            Base::Empty => true,
            _ => false,
        }
    }

    fn is_any(self) -> bool
        ensures { result ≡ is_any (base_of self) }
    {
        match self {
            Base::Any => true,
            _ => false,
        }
    }

    fn is_same(self, other: Base) -> bool
        ensures { result ≡ base_eq (base_of self) (base_of other) }
    {
        match self {
            Base::Empty => other.is_empty(),
            Base::Any => other.is_any(),
            Base::Blank => match other {
                Base::Blank => true,
                _ => false,
            },
        }
    }
}

impl Stack {
    ghost use Rattle.front_stack_domain.specs.Stack as is;
    ghost use Rattle.front_stack_domain.specs.Views.{stack_of};

    /// Returns the greatest element, which describes all stacks.
    pub fn unknown() -> Stack
        ensures { stack_of result ≡ is.unknown }
    {
        Stack {
            base: Base::Any,
            count: 0,
            marks: 0,
            intact: false,
        }
    }

    /// Returns the stack at the start of a rule's body.
    pub fn entry() -> Stack
        ensures { stack_of result ≡ is.entry }
    {
        Stack {
            base: Base::Any,
            count: 0,
            marks: 0,
            intact: true,
        }
    }

    /// Returns the stack of empty texts alone, possibly none.
    fn blank() -> Stack
        ensures { stack_of result ≡ is.some_blank }
    {
        Stack {
            base: Base::Blank,
            count: 0,
            marks: 0,
            intact: false,
        }
    }

    pub fn made_intact(self) -> Stack
        ensures { stack_of result ≡ is.made_intact (stack_of self) }
    {
        Stack {
            base: self.base,
            count: self.count,
            marks: self.marks,
            intact: true,
        }
    }

    /// Whether all entries are the empty text.
    pub fn is_blank(self) -> bool
        ensures { result ≡ is.all_blank (stack_of self) }
    {
        are_blank(self.count, self.marks, !self.base.is_any())
    }

    /// Adds a mark; the result is unknown if there would be more than eight.
    pub fn with_mark(self, blank: bool) -> Stack
        ensures { stack_of result ≡ is.push_mark blank (stack_of self) }
    {
        if self.count >= 8 {
            return Stack::unknown();
        }
        Stack {
            base: self.base,
            count: self.count + 1,
            marks: push_mark(self.count, self.marks, blank),
            intact: self.intact,
        }
    }

    /// Removes the top entry.
    pub fn without_top(self) -> Stack
        ensures { stack_of result ≡ is.pop_one (stack_of self) }
    {
        if self.count > 0 {
            return Stack {
                base: self.base,
                count: self.count - 1,
                marks: self.marks / 2,
                intact: self.intact,
            };
        }
        match self.base {
            Base::Empty => self,
            Base::Blank => Stack::blank(),
            Base::Any => Stack::unknown(),
        }
    }

    /// Removes all entries.
    pub fn without_entries(self) -> Stack
        ensures { stack_of result ≡ is.pop_all (stack_of self) }
    {
        Stack {
            base: Base::Empty,
            count: 0,
            marks: 0,
            intact: self.intact && self.base.is_empty(),
        }
    }

    /// Returns the join, which describes all that either stack describes.
    pub fn join(self, other: Stack) -> Stack
        ensures { stack_of result ≡ is.join (stack_of self) (stack_of other) }
    {
        if self.count == other.count {
            return Stack {
                base: self.base.join(other.base),
                count: self.count,
                marks: both(self.count, self.marks, other.marks),
                intact: self.intact && other.intact,
            };
        }
        if self.is_blank() && other.is_blank() {
            return Stack::blank();
        }
        Stack::unknown()
    }

    pub fn is_same(self, other: Stack) -> bool
        ensures { result ≡ is.stack_eq (stack_of self) (stack_of other) }
    {
        self.base.is_same(other.base) && self.has_same_marks(other) && self.intact == other.intact
    }

    pub fn has_same_marks(self, other: Stack) -> bool
        ensures { result ≡ is.marks_eq (stack_of self).marks (stack_of other).marks }
    {
        self.count == other.count && same(self.count, self.marks, other.marks)
    }
}
