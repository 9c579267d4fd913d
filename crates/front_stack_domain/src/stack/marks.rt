//! Marks as a binary number, the top one last.
ghost use Rattle.std.specs.Prelude.{◌≡◌, ◌≤◌, ◌<◌, ◌+◌, ◌∷◌};
ghost use Rattle.front_stack_domain.specs.Marks.{room, marks_of, blank_marks};
ghost use Rattle.front_stack_domain.specs.Stack.{both_marks, marks_eq};

/// Returns the marks with one more on top.
pub fn push_mark(count: u8, marks: u16, blank: bool) -> u16
    requires few { count < 8 }
    requires small { marks < room count }
    ensures marks { marks_of (count + 1) result ≡ blank ∷ marks_of count marks }
    ensures small { result < room (count + 1) }
{
    if blank { marks * 2 + 1 } else { marks * 2 }
}

/// Whether all marks are set, and `below` is true.
pub fn are_blank(count: u8, marks: u16, below: bool) -> bool
    ensures { result ≡ blank_marks (marks_of count marks) below }
{
    if count == 0 {
        below
    } else {
        marks % 2 == 1 && are_blank(count - 1, marks / 2, below)
    }
}

/// Returns the marks that are set in both of two lists of one length.
pub fn both(count: u8, first: u16, second: u16) -> u16
    requires { count ≤ 8 }
    ensures marks { marks_of count result ≡ both_marks (marks_of count first) (marks_of count second) }
    ensures small { result < room count }
{
    if count == 0 {
        0
    } else {
        let rest = both(count - 1, first / 2, second / 2);
        let top = (first % 2) * (second % 2);
        rest * 2 + top
    }
}

pub fn same(count: u8, first: u16, second: u16) -> bool
    ensures { result ≡ marks_eq (marks_of count first) (marks_of count second) }
{
    if count == 0 {
        true
    } else {
        first % 2 == second % 2 && same(count - 1, first / 2, second / 2)
    }
}
