//! The comments around an infix operator, and on which side of it they are written.
use crate::gaps::{Gap, has_line_end};
use std::alloc::AllocError;

/// Returns whether the comments after an operator stay there. They do if the operator begins a line and the
/// first comment is on that line.
pub fn stay_after(before: &Gap, after: &Gap) -> bool {
    match after.comments.first() {
        Some(first) => first.line_ends == 0 && has_line_end(before),
        None => false,
    }
}

/// Returns how many of the comments after an operator are written before it: none if they stay there, else
/// those up to the last one that ends a line. They are on the line of the operand before, or on their own.
pub fn count_moved(before: &Gap, after: &Gap) -> usize {
    let mut moved = 0usize;
    if stay_after(before, after) {
        return moved;
    }
    for k in 0..after.comments.len() {
        if ends_line(after, k) {
            moved = k.saturating_add(1);
        }
    }
    moved
}

/// Returns whether the comment of a number is followed by a line end.
fn ends_line(gap: &Gap, k: usize) -> bool {
    let is_line = gap.comments.get(k).is_some_and(|comment| comment.is_line);
    let line_ends = match gap.comments.get(k.saturating_add(1)) {
        Some(next) => next.line_ends,
        None => gap.line_ends,
    };
    is_line || line_ends > 0
}

/// Adds the first `count` comments of the gap after an operator to the gap before it. The operator's own line
/// is left out.
pub fn move_comments(before: &mut Gap, after: &Gap, count: usize) -> Result<(), AllocError> {
    for k in 0..count {
        if let Some(comment) = after.comments.get(k) {
            let mut moved = *comment;
            moved.line_ends = moved.line_ends.max(before.line_ends);
            before.comments.push(moved)?;
            before.line_ends = 0;
        }
    }
    if count > 0 {
        before.line_ends = 1;
    }
    Ok(())
}
