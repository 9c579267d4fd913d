//! Diffs: unified, without context.
use lint_output::to_visible;
use std::alloc::{AllocError, Global};

/// The lines of two texts of a file.
#[derive(Clone, Copy)]
struct LinePair<'l, 't> {
    old: &'l [&'t str],
    new: &'l [&'t str],
}

/// The lines that differ between two texts of a file, below its name; nothing if none does.
pub(crate) fn diff(alloc: Global, name: &str, old: &str, new: &str) -> Result<String, AllocError> {
    let old: Vec<&str> = old.lines().collect(alloc)?;
    let new: Vec<&str> = new.lines().collect(alloc)?;
    let lines = LinePair {
        old: &old,
        new: &new,
    };
    let name = to_visible(alloc, name)?;
    let mut out = format!(in alloc; "--- {name}\n+++ {name}\n")?;
    if old.len() == new.len() {
        push_changed_lines(alloc, lines, &mut out)?;
    } else {
        push_change(alloc, lines, &mut out)?;
    }
    Ok(out)
}

/// Adds each line that differs, of texts with the same number of lines.
fn push_changed_lines(
    alloc: Global,
    lines: LinePair<'_, '_>,
    out: &mut String,
) -> Result<(), AllocError> {
    for at in 0..lines.old.len() {
        if lines.old.get(at) != lines.new.get(at) {
            let end = at.saturating_add(1);
            push_hunk(alloc, lines, (at, end), (at, end), out)?;
        }
    }
    Ok(())
}

/// Adds the part between the lines that both texts have at their starts and at their ends.
fn push_change(alloc: Global, lines: LinePair<'_, '_>, out: &mut String) -> Result<(), AllocError> {
    let most = lines.old.len().min(lines.new.len());
    let pairs = lines.old.iter().zip(lines.new.iter());
    let start = pairs.take_while(|(old, new)| *old == *new).count();
    let pairs = lines.old.iter().rev().zip(lines.new.iter().rev());
    let same = pairs.take_while(|(old, new)| *old == *new).count();
    let end = same.min(most.saturating_sub(start));
    let old = (start, lines.old.len().saturating_sub(end));
    let new = (start, lines.new.len().saturating_sub(end));
    push_hunk(alloc, lines, old, new, out)
}

/// Adds a hunk: the lines between two indices of the old text, and those of the new one.
fn push_hunk(
    alloc: Global,
    lines: LinePair<'_, '_>,
    old: (usize, usize),
    new: (usize, usize),
    out: &mut String,
) -> Result<(), AllocError> {
    let (old_start, old_end) = old;
    let (new_start, new_end) = new;
    let old_count = old_end.saturating_sub(old_start);
    let new_count = new_end.saturating_sub(new_start);
    let header = format!(in alloc;
        "@@ -{},{old_count} +{},{new_count} @@\n",
        first_number(old_start, old_count),
        first_number(new_start, new_count)
    )?;
    out.push_str(header.as_str())?;
    push_lines(alloc, "-", lines.old, old, out)?;
    push_lines(alloc, "+", lines.new, new, out)
}

/// The number, from 1, of the first line of a part, or of the line before an empty one.
fn first_number(start: usize, count: usize) -> usize {
    if count == 0 {
        start
    } else {
        start.saturating_add(1)
    }
}

/// Adds the lines between two indices, each behind a sign.
fn push_lines(
    alloc: Global,
    sign: &str,
    lines: &[&str],
    part: (usize, usize),
    out: &mut String,
) -> Result<(), AllocError> {
    let (start, end) = part;
    for line in lines.get(start..end).unwrap_or(&[]) {
        out.push_str(sign)?;
        out.push_str(to_visible(alloc, line)?.as_str())?;
        out.push('\n')?;
    }
    Ok(())
}
