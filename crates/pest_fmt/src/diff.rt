//! The difference of two texts, as a unified diff.
ghost use Rattle.std.specs.Prelude.{◌≡◌, [], IfOk, string_bytes};

use std::alloc::{AllocError, Global};

/// The number of lines shown before and after a change.
const CONTEXT: usize = 3;
/// The greatest number of lines searched for the end of a change, in both texts together.
const LOOKAHEAD: usize = 64;

/// A run: lines that both texts have, then lines that only the old one has, and lines that only the new one
/// has.
#[derive(Clone, Copy)]
struct Run {
    kept: usize,
    removed: usize,
    added: usize,
}

/// Returns the lines of a text with their line feeds; the last one may have none.
fn lines_of<'t>(alloc: Global, text: &'t str) -> Result<Vec<&'t str>, AllocError> {
    let mut lines: Vec<&'t str> = Vec::new(alloc);
    for line in text.split_inclusive('\n') {
        lines.push(line)?;
    }
    Ok(lines)
}

/// Returns whether both lists have equal lines at these indices.
fn has_same_line(old: &[&str], new: &[&str], i: usize, j: usize) -> bool {
    match (old.get(i), new.get(j)) {
        (Some(line), Some(other)) => *line == *other,
        _ => false,
    }
}

/// Counts the lines that the lists have in common from these indices on.
fn count_kept(old: &[&str], new: &[&str], i: usize, j: usize) -> usize {
    let mut kept = 0usize;
    for _ in i..old.len() {
        if !has_same_line(old, new, i.saturating_add(kept), j.saturating_add(kept)) {
            break;
        }
        kept = kept.saturating_add(1);
    }
    kept
}

/// Returns how many lines of each list a change takes that begins at these indices.
fn size_of_change(old: &[&str], new: &[&str], i: usize, j: usize) -> (usize, usize) {
    for both in 1..LOOKAHEAD {
        if let Some(removed) = find_end(old, new, i, j, both) {
            return (removed, both.saturating_sub(removed));
        }
    }
    (1, 1)
}

/// Returns how many of the `both` lines of a change are old ones, if a change of that size ends there.
fn find_end(old: &[&str], new: &[&str], i: usize, j: usize, both: usize) -> Option<usize> {
    for removed in 0..=both {
        let added = both - removed;
        if has_same_line(old, new, i.saturating_add(removed), j.saturating_add(added)) {
            return Some(removed);
        }
    }
    None
}

/// Returns the runs of kept, removed and added lines, in order.
fn runs_of(alloc: Global, old: &[&str], new: &[&str]) -> Result<Vec<Run>, AllocError> {
    let mut runs: Vec<Run> = Vec::new(alloc);
    let mut i = 0usize;
    let mut j = 0usize;
    for _ in 0..old.len().saturating_add(new.len()) {
        if i >= old.len() && j >= new.len() {
            break;
        }
        let kept = count_kept(old, new, i, j);
        i = i.saturating_add(kept);
        j = j.saturating_add(kept);
        let (removed, added) = size_of_change(old, new, i, j);
        let removed = removed.min(old.len().saturating_sub(i));
        let added = added.min(new.len().saturating_sub(j));
        add_run(
            &mut runs,
            Run {
                kept,
                removed,
                added,
            },
        )?;
        i = i.saturating_add(removed);
        j = j.saturating_add(added);
    }
    Ok(runs)
}

/// Adds a run, to the last one if nothing is kept between them.
fn add_run(runs: &mut Vec<Run>, run: Run) -> Result<(), AllocError> {
    if run.kept == 0 {
        if let Some(last) = runs.last_mut() {
            last.removed = last.removed.saturating_add(run.removed);
            last.added = last.added.saturating_add(run.added);
            return Ok(());
        }
    }
    runs.push(run)?;
    Ok(())
}

/// Returns the unified diff of two texts of a file, or nothing if they are equal.
pub fn diff(alloc: Global, name: &str, old: &str, new: &str) -> Result<String, AllocError>
    ensures { old.now ≡ new.now → IfOk result (λ changes. string_bytes changes ≡ []) }
{
    if old == new {
        Ok(String::new(alloc))
    } else {
        print_changes(alloc, name, old, new)
    }
}

/// Returns the unified diff of two texts of a file.
fn print_changes(alloc: Global, name: &str, old: &str, new: &str) -> Result<String, AllocError> {
    let old_lines = lines_of(alloc, old)?;
    let new_lines = lines_of(alloc, new)?;
    let runs = runs_of(alloc, &old_lines, &new_lines)?;
    let mut printer = Printer {
        old: Side::new(&old_lines),
        new: Side::new(&new_lines),
        out: format!(in alloc; "--- {name}\n+++ {name}\n")?,
    };
    let mut next = 0usize;
    for first in 0..runs.len() {
        if first >= next {
            next = find_hunk_end(&runs, first);
            printer.hunk(alloc, &runs, first, next)?;
        }
    }
    let Printer { out, .. } = printer;
    Ok(out)
}

/// Returns the number after that of the last run that is shown together with one.
fn find_hunk_end(runs: &[Run], first: usize) -> usize {
    for i in first.saturating_add(1)..runs.len() {
        match runs.get(i) {
            Some(run) if run.kept <= 2 * CONTEXT && (run.removed > 0 || run.added > 0) => {}
            _ => return i,
        }
    }
    runs.len()
}

/// One of two texts, and the part that is printed.
#[derive(Drop)]
struct Side<'t> {
    lines: &'t [&'t str],
    next: usize,
}

impl<'t> Side<'t> {
    fn new(lines: &'t [&'t str]) -> Side<'t> {
        Side { lines, next: 0 }
    }

    /// Counts the lines that remain after `count` more.
    fn lines_left_after(&self, count: usize) -> usize {
        self.lines
            .len()
            .saturating_sub(self.next.saturating_add(count))
    }

    /// Returns the number, from 1, of the first line of a hunk of `count` lines, or of the line before
    /// an empty hunk.
    fn first_number(&self, count: usize) -> usize {
        if count == 0 {
            self.next
        } else {
            self.next.saturating_add(1)
        }
    }

    /// Skips lines.
    fn skip(&mut self, count: usize) {
        self.next = self.next.saturating_add(count);
    }

    /// Prints `count` lines, each after a mark. One without a line feed is followed by a note that says so.
    fn print(&mut self, out: &mut String, mark: char, count: usize) -> Result<(), AllocError> {
        for _ in 0..count {
            if let Some(line) = self.lines.get(self.next) {
                out.push(mark)?;
                out.push_str(line)?;
                if !line.ends_with('\n') {
                    out.push_str("\n\\ No newline at end of file\n")?;
                }
                self.next = self.next.saturating_add(1);
            }
        }
        Ok(())
    }
}

/// The diff printed so far.
#[derive(Drop)]
struct Printer<'t> {
    old: Side<'t>,
    new: Side<'t>,
    out: String,
}

impl Printer<'_> {
    /// Prints the runs `first..end` as one hunk. The kept lines before the first of them were not printed.
    fn hunk(
        &mut self,
        alloc: Global,
        runs: &[Run],
        first: usize,
        end: usize,
    ) -> Result<(), AllocError> {
        let kept_before = runs.get(first).map_or(0, |run| run.kept);
        let before = kept_before.min(CONTEXT);
        let skipped = kept_before.saturating_sub(before);
        self.old.skip(skipped);
        self.new.skip(skipped);
        let (removed, added) = size_of_hunk(runs, first, end, before);
        if removed == before && added == before {
            return Ok(());
        }
        let after = self.old.lines_left_after(removed).min(CONTEXT);
        let removed = removed.saturating_add(after);
        let added = added.saturating_add(after);
        let header = format!(in alloc;
            "@@ -{},{removed} +{},{added} @@\n",
            self.old.first_number(removed),
            self.new.first_number(added)
        )?;
        self.out.push_str(header.as_str())?;
        for i in first..end {
            if let Some(run) = runs.get(i) {
                let kept = if i == first { before } else { run.kept };
                self.run(kept, run.removed, run.added)?;
            }
        }
        self.run(after, 0, 0)?;
        self.give_back(after);
        Ok(())
    }

    /// Prints lines that are kept, removed and added.
    fn run(&mut self, kept: usize, removed: usize, added: usize) -> Result<(), AllocError> {
        self.old.print(&mut self.out, ' ', kept)?;
        self.new.skip(kept);
        self.old.print(&mut self.out, '-', removed)?;
        self.new.print(&mut self.out, '+', added)
    }

    /// Goes back before lines that were printed after a hunk, since the lines before the next one are counted
    /// from the last change on.
    fn give_back(&mut self, count: usize) {
        self.old.next = self.old.next.saturating_sub(count);
        self.new.next = self.new.next.saturating_sub(count);
    }
}

/// Returns how many lines of each text a hunk of the runs `first..end` has, with `before` kept lines before
/// it.
fn size_of_hunk(runs: &[Run], first: usize, end: usize, before: usize) -> (usize, usize) {
    let mut removed = before;
    let mut added = before;
    for i in first..end {
        if let Some(run) = runs.get(i) {
            let kept = if i == first { 0 } else { run.kept };
            removed = removed.saturating_add(kept).saturating_add(run.removed);
            added = added.saturating_add(kept).saturating_add(run.added);
        }
    }
    (removed, added)
}
