//! The comparison of a program with its demands.
ghost use Rattle.std.specs.Prelude.{◌≡◌, map, true};
ghost use Rattle.base_language.specs.Language.Meaning.{Run, skipped};
ghost use Rattle.base_language.specs.Language.State.{Between};
ghost use Rattle.matcher_code.specs.Lists.{lists_of};
ghost use Rattle.matcher_code.specs.Laid.{GoesOn, IsPoint, at_label};
ghost use Rattle.matcher_program.specs.declared.form.Program.{Program};
ghost use Rattle.matcher_compiler.specs.Compiled.{AreMet, HasEnds};
ghost use Rattle.matcher_sets.specs.Modes.{mode_of};
ghost use Rattle.matcher_compiler.specs.Exact.{IsAllowed, is_exact, is_note};
ghost use Rattle.matcher_compiler.specs.Plans.{HasBranch, IsMet, body_in, laid_point};

use crate::columns::has_branch;
use crate::points::{Branch, Demand, Part, Point};
use matcher_code::code::{Code, Op};
use matcher_sets::modes::Atomicity;

/// Returns whether two modes are the same.
fn is_mode(one: Atomicity, other: Atomicity) -> bool
    ensures { result ≡ true → one ≡ other }
{
    match one {
        Atomicity::NonAtomic => matches!(other, Atomicity::NonAtomic),
        Atomicity::Atomic => matches!(other, Atomicity::Atomic),
        Atomicity::CompoundAtomic => matches!(other, Atomicity::CompoundAtomic),
    }
}

/// Returns whether two calls are the same operation.
fn is_same_call(one: Op, other: Op) -> bool
    ensures { result ≡ true → one ≡ other }
{
    match one {
        Op::Call {
            to,
            rule,
            next,
            fail,
            counts,
        } => match other {
            Op::Call {
                to: to2,
                rule: rule2,
                next: next2,
                fail: fail2,
                counts: counts2,
            } => {
                to == to2 && rule == rule2 && next == next2 && fail == fail2 && counts == counts2
            }
            _ => false,
        },
        Op::Sub { to, next, fail } => match other {
            Op::Sub {
                to: to2,
                next: next2,
                fail: fail2,
            } => to == to2 && next == next2 && fail == fail2,
            _ => false,
        },
        _ => false,
    }
}

/// Returns whether two operations are the same one of those that take texts, or calls.
fn is_same_text(one: Op, other: Op) -> bool
    ensures { result ≡ true → one ≡ other }
{
    match one {
        Op::Text { text, next, fail } => match other {
            Op::Text {
                text: text2,
                next: next2,
                fail: fail2,
            } => text == text2 && next == next2 && fail == fail2,
            _ => false,
        },
        Op::AnyCase { text, next, fail } => match other {
            Op::AnyCase {
                text: text2,
                next: next2,
                fail: fail2,
            } => text == text2 && next == next2 && fail == fail2,
            _ => false,
        },
        Op::Until { firsts, list, next } => match other {
            Op::Until {
                firsts: firsts2,
                list: list2,
                next: next2,
            } => firsts == firsts2 && list == list2 && next == next2,
            _ => false,
        },
        _ => is_same_call(one, other),
    }
}

/// Returns whether two operations are the same one of those that skip characters and test the next one, or
/// that match texts.
fn is_same_trivia(one: Op, other: Op) -> bool
    ensures { result ≡ true → one ≡ other }
{
    match one {
        Op::Trivia {
            set,
            stops,
            next,
            slow,
        } => match other {
            Op::Trivia {
                set: set2,
                stops: stops2,
                next: next2,
                slow: slow2,
            } => set == set2 && stops == stops2 && next == next2 && slow == slow2,
            _ => false,
        },
        _ => is_same_text(one, other),
    }
}

/// Returns whether two operations are the same one of those that take characters.
fn is_same_leaf(one: Op, other: Op) -> bool
    ensures { result ≡ true → one ≡ other }
{
    match one {
        Op::One { set, next, fail } => match other {
            Op::One {
                set: set2,
                next: next2,
                fail: fail2,
            } => set == set2 && next == next2 && fail == fail2,
            _ => false,
        },
        Op::IsOne { set, next, fail } => match other {
            Op::IsOne {
                set: set2,
                next: next2,
                fail: fail2,
            } => set == set2 && next == next2 && fail == fail2,
            _ => false,
        },
        Op::All { set, next } => match other {
            Op::All {
                set: set2,
                next: next2,
            } => set == set2 && next == next2,
            _ => false,
        },
        Op::Start { next, fail } => match other {
            Op::Start {
                next: next2,
                fail: fail2,
            } => next == next2 && fail == fail2,
            _ => false,
        },
        Op::End { next, fail } => match other {
            Op::End {
                next: next2,
                fail: fail2,
            } => next == next2 && fail == fail2,
            _ => false,
        },
        _ => is_same_trivia(one, other),
    }
}

/// Returns whether two slices of the stack are the same.
fn is_same_slice(from: i32, to: Option<i32>, other_from: i32, other_to: Option<i32>) -> bool
    ensures from { result ≡ true → from ≡ other_from }
    ensures to { result ≡ true → to ≡ other_to }
{
    from == other_from && to == other_to
}

/// Returns whether two operations are the same one of those that read the stack.
fn is_same_read(one: Op, other: Op) -> bool
    ensures { result ≡ true → one ≡ other }
{
    match one {
        Op::Peek { next, fail } => match other {
            Op::Peek {
                next: next2,
                fail: fail2,
            } => next == next2 && fail == fail2,
            _ => false,
        },
        Op::PeekAll { next, fail } => match other {
            Op::PeekAll {
                next: next2,
                fail: fail2,
            } => next == next2 && fail == fail2,
            _ => false,
        },
        Op::Slice {
            from,
            to,
            next,
            fail,
        } => match other {
            Op::Slice {
                from: from2,
                to: to2,
                next: next2,
                fail: fail2,
            } => is_same_slice(from, to, from2, to2) && next == next2 && fail == fail2,
            _ => false,
        },
        _ => is_same_leaf(one, other),
    }
}

/// Returns whether two operations are the same one of those that change or read the stack.
fn is_same_change(one: Op, other: Op) -> bool
    ensures { result ≡ true → one ≡ other }
{
    match one {
        Op::Push { next } => match other {
            Op::Push { next: next2 } => next == next2,
            _ => false,
        },
        Op::PushText { text, next } => match other {
            Op::PushText {
                text: text2,
                next: next2,
            } => text == text2 && next == next2,
            _ => false,
        },
        Op::Pop { next, fail } => match other {
            Op::Pop {
                next: next2,
                fail: fail2,
            } => next == next2 && fail == fail2,
            _ => false,
        },
        Op::PopAll { next, fail } => match other {
            Op::PopAll {
                next: next2,
                fail: fail2,
            } => next == next2 && fail == fail2,
            _ => false,
        },
        Op::Discard { next, fail } => match other {
            Op::Discard {
                next: next2,
                fail: fail2,
            } => next == next2 && fail == fail2,
            _ => false,
        },
        _ => is_same_read(one, other),
    }
}

/// Returns whether two operations are the same. The answer is no for those that no plan demands.
fn is_same(one: Op, other: Op) -> bool
    ensures { result ≡ true → one ≡ other }
{
    match one {
        Op::Fail => matches!(other, Op::Fail),
        Op::Return => matches!(other, Op::Return),
        Op::Back => matches!(other, Op::Back),
        Op::Halt => matches!(other, Op::Halt),
        Op::Lose => matches!(other, Op::Lose),
        Op::Try { next, fail } => match other {
            Op::Try {
                next: next2,
                fail: fail2,
            } => next == next2 && fail == fail2,
            _ => false,
        },
        Op::Not { next, fail } => match other {
            Op::Not {
                next: next2,
                fail: fail2,
            } => next == next2 && fail == fail2,
            _ => false,
        },
        Op::Miss { rule, next } => match other {
            Op::Miss {
                rule: rule2,
                next: next2,
            } => rule == rule2 && next == next2,
            _ => false,
        },
        Op::Commit { next } => match other {
            Op::Commit { next: next2 } => next == next2,
            _ => false,
        },
        Op::Ahead { next } => match other {
            Op::Ahead { next: next2 } => next == next2,
            _ => false,
        },
        Op::Note { next } => match other {
            Op::Note { next: next2 } => next == next2,
            _ => false,
        },
        Op::Switch { table } => match other {
            Op::Switch { table: table2 } => table == table2,
            _ => false,
        },
        Op::Leaf { rule, next } => match other {
            Op::Leaf {
                rule: rule2,
                next: next2,
            } => rule == rule2 && next == next2,
            _ => false,
        },
        _ => is_same_change(one, other),
    }
}

/// Returns whether a label has an operation.
fn has_operation(code: &Code, label: u32, op: Op) -> bool
    ensures { result ≡ true → at_label (lists_of code.now) label ≡ op }
{
    match code.ops.get(label as usize) {
        Some(here) => is_same(*here, op),
        None => false,
    }
}

/// Returns whether the operation of a label does not end a run, and pops no frame.
fn goes_on(code: &Code, label: u32) -> bool
    ensures { result ≡ true → GoesOn (lists_of code.now) label }
{
    match code.ops.get(label as usize) {
        Some(op) => match *op {
            Op::Halt | Op::Lose | Op::Fail | Op::Return | Op::Back => false,
            Op::Commit { .. } | Op::Ahead { .. } | Op::Push { .. } => false,
            _ => true,
        },
        None => false,
    }
}

/// Returns whether the point of a number is the body of a rule in a mode, with these labels.
fn has_body(
    points: &[Point<'_>],
    number: usize,
    rule: usize,
    mode: Atomicity,
    first: u32,
    last: u32,
) -> bool
    ensures { result ≡ true → (p : Program)
        → IsPoint (map (laid_point p) points.now) (Run (mode_of mode) (body_in p rule)) first last 0 }
{
    let point = match points.get(number) {
        Some(point) => *point,
        None => return false,
    };
    let known = match point.part {
        Part::Body(known) => known,
        _ => return false,
    };
    if !is_mode(point.at.mode, mode) {
        return false;
    }
    if known != rule {
        return false;
    }
    if point.at.label != first {
        return false;
    }
    if point.at.next != last {
        return false;
    }
    if point.at.on_fail != 0 {
        return false;
    }
    true
}

/// Returns whether the point of a number is the implicit skipping as an expression, with these labels.
fn has_skipping(points: &[Point<'_>], number: usize, first: u32, last: u32) -> bool
    ensures { result ≡ true → (p : Program)
        → IsPoint (map (laid_point p) points.now) (Run Between skipped) first last 0 }
{
    let point = match points.get(number) {
        Some(point) => *point,
        None => return false,
    };
    match point.part {
        Part::Skipped => {}
        _ => return false,
    }
    if point.at.label != first {
        return false;
    }
    if point.at.next != last {
        return false;
    }
    if point.at.on_fail != 0 {
        return false;
    }
    true
}

/// Returns whether an operation records a failure without a name.
fn is_note(op: Op) -> bool
    ensures { result ≡ is_note op }
{
    matches!(op, Op::Note { next: _ })
}

/// Returns whether no operation of a program records a failure without a name.
pub(crate) fn is_exact(code: &Code) -> bool
    ensures { result ≡ is_exact (lists_of code.now) }
{
    for op in &code.ops {
        if is_note(*op) {
            return false;
        }
    }
    true
}

/// Returns whether a table has the labels of a choice, and leads over no noted failure in exact code.
/// `exact`: whether the code is so.
fn has_table(code: &Code, exact: bool, branch: Branch) -> bool
    requires { exact ≡ is_exact (lists_of code.now) }
    ensures branches { result ≡ true → HasBranch (lists_of code.now) branch }
    ensures allowed { result ≡ true → IsAllowed (lists_of code.now) branch.noted }
{
    if exact && branch.noted {
        return false;
    }
    has_branch(code, branch)
}

/// Returns whether a program has what is demanded. `exact`: whether it is exact.
fn meets(code: &Code, exact: bool, points: &[Point<'_>], demand: Demand) -> bool
    requires { exact ≡ is_exact (lists_of code.now) }
    ensures { result ≡ true → (p : Program)
        → IsMet p (lists_of code.now) (map (laid_point p) points.now) demand }
{
    match demand {
        Demand::Operation { label, op } => has_operation(code, label, op),
        Demand::Body {
            rule,
            mode,
            first,
            last,
            point,
        } => has_body(points, point, rule, mode, first, last),
        Demand::Skipping { first, last, point } => has_skipping(points, point, first, last),
        Demand::GoesOn { label } => goes_on(code, label),
        Demand::Branch(branch) => has_table(code, exact, branch),
    }
}

/// Returns whether a program has all that is demanded.
pub(crate) fn meets_all(code: &Code, points: &[Point<'_>], demands: &[Demand]) -> bool
    ensures { result ≡ true → AreMet (lists_of code.now) points.now demands.now }
{
    let exact = is_exact(code);
    for demand in demands {
        if !meets(code, exact, points, *demand) {
            return false;
        }
    }
    true
}

/// Returns whether a program begins with the operations that fail and that end a run.
pub(crate) fn has_ends(code: &Code) -> bool
    ensures { result ≡ true → HasEnds (lists_of code.now) }
{
    has_operation(code, 0, Op::Fail)
        && has_operation(code, 1, Op::Halt)
        && has_operation(code, 2, Op::Lose)
}
