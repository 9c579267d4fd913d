//! Starts that a comment names.
ghost use Rattle.std.specs.Prelude.{◌≡◌, IfOk, IfSome, filter, find, map, not, true};
ghost use Rattle.std.specs.Option.{option_map};
ghost use Rattle.lint_findings.specs.Fragments.{fragment_of, parts_at};
ghost use Rattle.lint_findings.specs.Starts as spec;

use crate::fragments::Fragment;
use std::alloc::{AllocError, Global};

/// How a comment that names starts begins.
const PREFIX: &str = "//! pest-lint: start(";

/// Returns the starts that `text` names itself: the names in its first line of the form
/// `//! pest-lint: start(a, b)`, in order, with their positions in bytes. If there is no such line,
/// the list is empty. The time is linear in the bytes of `text`. The only error is an allocation
/// failure.
pub fn stated_starts<'t>(alloc: Global, text: &'t str) -> Result<Vec<Fragment<'t>>, AllocError>
    ensures { IfOk result (λ names. map fragment_of names.items ≡ spec.stated_starts text.now) }
{
    let lines = Fragment::whole(text).split(alloc, '\n')?;
    match start_comment(&lines) {
        Some(comment) => names_in(alloc, comment),
        None => Ok(Vec::new(alloc)),
    }
}

/// The first of some lines that names starts.
fn start_comment<'t>(lines: &[Fragment<'t>]) -> Option<Fragment<'t>>
    ensures named { IfSome result (λ comment. spec.has_starts (fragment_of comment) ≡ true) }
    ensures first { option_map fragment_of result ≡ find spec.has_starts (map fragment_of lines.now) }
{
    for line in lines {
        if has_starts(*line) {
            return Some(*line);
        }
    }
    None
}

/// Whether a line without white space around it is a comment.
pub(crate) fn is_comment(line: Fragment<'_>) -> bool
    ensures { result ≡ spec.is_comment (fragment_of line.entry) }
{
    line.text.starts_with("//")
}

/// Whether a line is a comment that names starts.
fn has_starts(line: Fragment<'_>) -> bool
    ensures { result ≡ spec.has_starts (fragment_of line.entry) }
{
    line.text.starts_with(PREFIX)
}

/// The names in such a comment.
fn names_in<'t>(alloc: Global, comment: Fragment<'t>) -> Result<Vec<Fragment<'t>>, AllocError>
    requires { spec.has_starts (fragment_of comment) ≡ true }
    ensures { IfOk result (λ names. map fragment_of names.items
        ≡ spec.names_in (Some (fragment_of comment.entry))) }
{
    let mut names = inside_of(comment).split(alloc, ',')?;
    names.retain(|name| !name.text.is_empty());
    Ok(names)
}

/// The part of such a comment after its bracket, up to the next bracket or to its end.
fn inside_of<'t>(comment: Fragment<'t>) -> Fragment<'t>
    requires { spec.has_starts (fragment_of comment) ≡ true }
    ensures { fragment_of result ≡ spec.inside (fragment_of comment.entry) }
{
    let Some(rest) = comment.text.strip_prefix(PREFIX) else {
        unreachable!()
    };
    let text = match rest.split_once(')') {
        Some((names, _)) => names,
        None => rest,
    };
    let start = comment.start + PREFIX.len();
    Fragment {
        start,
        end: start + text.len(),
        text,
    }
}
