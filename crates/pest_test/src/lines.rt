//! Trees as lines, one line for each tree, and the difference between two lists of lines. If lines
//! differ, the search looks for the nearest pair of lines that agree again.

use crate::agreement::{is_end, part_of};
use crate::expected::Event;
use matcher_engine::walk::{TreeWalk, Visit};
use matcher_support::literal::Literal;
use std::alloc::{AllocError, Global};

/// The line of a tree.
#[derive(Clone, Copy)]
pub struct TreeLine<'r, 't> {
    /// The number of trees around it: 0 for an outermost tree.
    depth: usize,
    rule: &'r str,
    /// The text that the line shows, if it shows one.
    text: Option<&'t str>,
    /// The part of the text that a found tree matched.
    part: &'t str,
    is_leaf: bool,
}

/// The greatest depth of trees that are indented further than the tree around them.
const DEEPEST: usize = 25;
/// The greatest number of lines searched for the end of a change, of both lists together.
const LOOKAHEAD: usize = 48;
/// The number of lines shown before and after a change.
const CONTEXT: usize = 3;

/// Returns the lines of expected trees.
pub fn expected_lines<'t>(
    alloc: Global,
    events: &'t [Event<'_>],
) -> Result<Vec<TreeLine<'t, 't>>, AllocError> {
    let mut lines = Vec::new(alloc);
    let mut depth = 0usize;
    for (i, event) in events.iter().enumerate() {
        match event {
            Event::Enter { rule, text } => {
                lines.push(TreeLine {
                    depth,
                    rule,
                    text: text.as_deref(),
                    part: "",
                    is_leaf: matches!(events.get(i.saturating_add(1)), Some(Event::Leave)),
                })?;
                depth = depth.saturating_add(1);
            }
            Event::Leave => depth = depth.saturating_sub(1),
        }
    }
    Ok(lines)
}

/// Returns the lines of the trees of a match on `text`, those of `EOI` only if `has_ends`.
pub fn found_lines<'r, 't>(
    alloc: Global,
    text: &'t str,
    mut walk: TreeWalk<'r, '_>,
    has_ends: bool,
) -> Result<Vec<TreeLine<'r, 't>>, AllocError> {
    let mut lines = Vec::new(alloc);
    'visits: while let Some(visit) = walk.next_visit()? {
        if let Visit::Enter(tree) = visit {
            if has_ends || !is_end(tree.rule) {
                let part = part_of(text, &tree);
                let is_leaf = tree.node.after as usize == tree.number.saturating_add(1);
                lines.push(TreeLine {
                    depth: tree.depth,
                    rule: tree.rule,
                    text: if is_leaf { Some(part) } else { None },
                    part,
                    is_leaf,
                })?;
            }
        }
    }
    Ok(lines)
}

/// Returns whether one of the expected trees is of `EOI`.
pub fn has_ends(events: &[Event<'_>]) -> bool {
    events.iter().any(|event| match event {
        Event::Enter { rule, .. } => is_end(rule),
        Event::Leave => false,
    })
}

/// Returns whether expected trees are written with texts: if one of them is, or if there is none.
pub fn has_texts(events: &[Event<'_>]) -> bool {
    events.is_empty()
        || events.iter().any(|event| match event {
            Event::Enter { text, .. } => text.is_some(),
            Event::Leave => false,
        })
}

/// Writes a line: `(rule "text"`, and `)` if it is a leaf.
fn write_line(out: &mut String, line: &TreeLine<'_, '_>, has_text: bool) -> Result<(), AllocError> {
    write_blanks(out, line.depth)?;
    out.push_str("(")?;
    out.push_str(line.rule)?;
    if let Some(text) = line.text {
        if has_text {
            let text = Literal(text);
            write!(out, " {text}")?;
        }
    }
    if line.is_leaf {
        out.push_str(")")
    } else {
        Ok(())
    }
}

/// Writes two blanks for each level, up to a greatest depth.
fn write_blanks(out: &mut String, depth: usize) -> Result<(), AllocError> {
    for _ in 0..depth.min(DEEPEST) {
        out.push_str("  ")?;
    }
    Ok(())
}

/// Returns trees as S-expressions, one line for each tree. If `has_texts` is true, the lines of
/// leaves have their texts.
pub fn print_trees(
    alloc: Global,
    lines: &[TreeLine<'_, '_>],
    has_texts: bool,
) -> Result<String, AllocError> {
    let mut out = String::new(alloc);
    for (i, line) in lines.iter().enumerate() {
        write_line(&mut out, line, has_texts)?;
        let next = match lines.get(i.saturating_add(1)) {
            Some(next) => next.depth,
            None => 0,
        };
        let open = line.depth.saturating_add(if line.is_leaf { 0 } else { 1 });
        write_ends(&mut out, open.saturating_sub(next))?;
        out.push_str("\n")?;
    }
    Ok(out)
}

/// Writes the ends of trees.
fn write_ends(out: &mut String, count: usize) -> Result<(), AllocError> {
    for _ in 0..count {
        out.push_str(")")?;
    }
    Ok(())
}

/// A line of a difference: of the expected trees, of the found ones, or of both.
#[derive(Clone, Copy)]
enum Change {
    Removed(usize),
    Added(usize),
    Kept(usize),
}

/// Two lists of lines, and how many of each were compared.
#[derive(Drop)]
struct Comparison<'e, 'x, 'f, 'r, 't> {
    expected: &'e [TreeLine<'x, 'x>],
    found: &'f [TreeLine<'r, 't>],
    i: usize,
    j: usize,
    removed: usize,
    added: usize,
}

impl Comparison<'_, '_, '_, '_, '_> {
    /// Returns whether two lines agree.
    fn is_same(&self, i: usize, j: usize) -> bool {
        match (self.expected.get(i), self.found.get(j)) {
            (Some(line), Some(other)) => {
                line.depth == other.depth
                    && line.rule == other.rule
                    && match line.text {
                        Some(text) => text == other.part,
                        None => true,
                    }
            }
            _ => false,
        }
    }

    /// Returns the next line of the difference, or `None` after the last one.
    fn next_change(&mut self) -> Option<Change> {
        if self.removed == 0 && self.added == 0 && !self.is_same(self.i, self.j) {
            self.find_end();
        }
        if self.removed > 0 && self.i < self.expected.len() {
            self.removed = self.removed.saturating_sub(1);
            self.i = self.i.saturating_add(1);
            return Some(Change::Removed(self.i.saturating_sub(1)));
        }
        if self.added > 0 && self.j < self.found.len() {
            self.added = self.added.saturating_sub(1);
            self.j = self.j.saturating_add(1);
            return Some(Change::Added(self.j.saturating_sub(1)));
        }
        self.removed = 0;
        self.added = 0;
        if self.i >= self.expected.len() && self.j >= self.found.len() {
            return None;
        }
        self.i = self.i.saturating_add(1);
        self.j = self.j.saturating_add(1);
        Some(Change::Kept(self.j.saturating_sub(1)))
    }

    /// Finds how many lines of each list a change takes.
    fn find_end(&mut self) {
        self.removed = 1;
        self.added = 1;
        for both in 1..LOOKAHEAD {
            if let Some(removed) = self.find_end_of(both) {
                self.removed = removed;
                self.added = both.saturating_sub(removed);
                return;
            }
        }
    }

    /// Returns how many of the `both` lines of a change are expected ones, if such a change ends there.
    fn find_end_of(&self, both: usize) -> Option<usize> {
        for removed in 0..=both {
            let i = self.i.saturating_add(removed);
            let j = self.j.saturating_add(both.saturating_sub(removed));
            let is_end = i == self.expected.len() && j == self.found.len();
            if is_end || self.is_same(i, j) {
                return Some(removed);
            }
        }
        None
    }
}

/// Returns the lines of a difference.
fn find_changes<'x>(
    alloc: Global,
    expected: &[TreeLine<'x, 'x>],
    found: &[TreeLine<'_, '_>],
) -> Result<Vec<Change>, AllocError> {
    let mut comparison = Comparison {
        expected,
        found,
        i: 0,
        j: 0,
        removed: 0,
        added: 0,
    };
    let mut changes = Vec::new(alloc);
    for _ in 0..expected.len().saturating_add(found.len()) {
        let Some(change) = comparison.next_change() else {
            break;
        };
        changes.push(change)?;
    }
    Ok(changes)
}

/// Returns which lines of a difference are shown: those of changes, and some lines around them.
fn shown_changes(alloc: Global, changes: &[Change]) -> Result<Vec<bool>, AllocError> {
    let mut shown = vec![in alloc; false; changes.len()]?;
    for (i, change) in changes.iter().enumerate() {
        if !matches!(change, Change::Kept(_)) {
            show_around(&mut shown, i);
        }
    }
    Ok(shown)
}

/// Shows the lines around a line.
fn show_around(shown: &mut [bool], i: usize) {
    let last = i.saturating_add(CONTEXT).saturating_add(1).min(shown.len());
    for k in i.saturating_sub(CONTEXT)..last {
        if let Some(is_shown) = shown.get_mut(k) {
            *is_shown = true;
        }
    }
}

/// Returns the lines of the difference between expected and found trees. A line that is only
/// expected begins with `-`, and a line that is only found begins with `+`. If `has_texts` is true,
/// the texts of leaves are shown.
pub fn print_difference<'x>(
    alloc: Global,
    expected: &[TreeLine<'x, 'x>],
    found: &[TreeLine<'_, '_>],
    has_texts: bool,
) -> Result<Vec<String>, AllocError> {
    let changes = find_changes(alloc, expected, found)?;
    let shown = shown_changes(alloc, &changes)?;
    let mut lines = Vec::new(alloc);
    let mut was_shown = true;
    for (i, change) in changes.iter().enumerate() {
        let is_shown = matches!(shown.get(i), Some(true));
        if is_shown {
            lines.push(print_change(alloc, expected, found, *change, has_texts)?)?;
        } else if was_shown {
            lines.push(String::from_str(alloc, "    ..")?)?;
        }
        was_shown = is_shown;
    }
    Ok(lines)
}

/// Returns a line of a difference.
fn print_change(
    alloc: Global,
    expected: &[TreeLine<'_, '_>],
    found: &[TreeLine<'_, '_>],
    change: Change,
    has_texts: bool,
) -> Result<String, AllocError> {
    let (mark, line) = match change {
        Change::Removed(i) => ("  - ", expected.get(i)),
        Change::Added(j) => ("  + ", found.get(j)),
        Change::Kept(j) => ("    ", found.get(j)),
    };
    let mut out = String::from_str(alloc, mark)?;
    if let Some(line) = line {
        write_line(&mut out, line, has_texts)?;
    }
    Ok(out)
}
