//! Token trees as lines of text.
ghost use Rattle.std.specs.Prelude.{◌≡◌, ℕ, ◌+◌, ◌++◌, IfOk, OnOk, encode_utf8_all, option_map, string_bytes};
ghost use Rattle.std.specs.Str.{chars};
ghost use Rattle.base_language.specs.Language.State.{Trees};
ghost use Rattle.base_language.specs.Language.Text.{Text};
ghost use Rattle.matcher_engine.specs.Walks.{visit_of, visited_of, visits, visits_left};
ghost use Rattle.matcher_support.specs.Flat.{level_after, opening, piece};
ghost use Rattle.matcher_support.specs.Shown.{leaf, line_start, part, shown};

use crate::literal::Literal;
use matcher_engine::walk::{TreeWalk, Visit, VisitedTree};
use std::alloc::{AllocError, Global};

/// Returns the trees of `walk`, which is a walk over a match on `text`, as lines of text.
///
/// The line of a tree has `- ` and the name of its rule. This line is indented by two blanks more
/// than that of the tree around it. If a tree is the only child of another one, both share a line:
/// `a > b`. If a tree has no children, its part of the text follows in quotes. The only error is an
/// allocation failure.
pub fn tree_text(
    alloc: Global,
    text: &str,
    mut walk: TreeWalk<'_, '_>,
) -> Result<String, AllocError>
    ensures { IfOk result (λ lines. (rule : Text → ℕ) (trees : Trees)
        → visits_left walk.entry ≡ visits rule 0 0 trees → string_bytes lines ≡ shown text.now 0 trees) }
{
    let mut lines = String::new(alloc);
    let mut level = 0;
    let mut before = None;
    'visits: while let Some(visit) = walk.next_visit()? {
        write_visit(alloc, &mut lines, text, level, &before, &visit)?;
        level = level_behind(level, &before, &visit)?;
        before = Some(visit);
    }
    Ok(lines)
}

/// Writes what a visit adds after another.
fn write_visit(
    alloc: Global,
    lines: &mut String,
    text: &str,
    level: usize,
    before: &Option<Visit<'_>>,
    visit: &Visit<'_>,
) -> Result<(), AllocError>
    ensures { OnOk result (string_bytes lines.new ≡ string_bytes lines.old
        ++ piece text.now level (option_map visit_of before.now) (visit_of visit.now)) }
{
    match visit {
        Visit::Enter(tree) => {
            write_opening(alloc, lines, level, before, tree)?;
            write_name(lines, tree.rule)
        }
        Visit::Leave(tree) => match before {
            Some(Visit::Enter(_)) => {
                write_leaf(
                    lines,
                    text,
                    tree.node.start as usize,
                    tree.node.end as usize,
                )
            }
            Some(Visit::Leave(_)) | None => Ok(()),
        },
    }
}

/// Writes the text before the name of a tree.
fn write_opening(
    alloc: Global,
    lines: &mut String,
    level: usize,
    before: &Option<Visit<'_>>,
    tree: &VisitedTree<'_>,
) -> Result<(), AllocError>
    ensures { OnOk result (string_bytes lines.new ≡ string_bytes lines.old
        ++ opening level (option_map visit_of before.now) (visited_of tree.now)) }
{
    match before {
        Some(Visit::Enter(parent)) => {
            if parent.node.after == tree.node.after {
                lines.push_str(" > ")
            } else {
                lines.push_str("\n")?;
                write_line_start(alloc, lines, next_level(level)?)
            }
        }
        Some(Visit::Leave(_)) | None => write_line_start(alloc, lines, level),
    }
}

/// Returns `level + 1`, or an allocation failure if a `usize` does not hold the result.
fn next_level(level: usize) -> Result<usize, AllocError>
    ensures { IfOk result (λ next. next ≡ level + 1) }
{
    level.checked_add(1).ok_or(AllocError)
}

/// Writes the name of a tree.
pub(crate) fn write_name(lines: &mut String, rule: &str) -> Result<(), AllocError>
    ensures { OnOk result (string_bytes lines.new
        ≡ string_bytes lines.old ++ encode_utf8_all (chars rule.now)) }
{
    lines.push_str(rule)
}

/// Writes two blanks for each level, and a dash.
fn write_line_start(alloc: Global, lines: &mut String, level: usize) -> Result<(), AllocError>
    ensures { OnOk result (string_bytes lines.new ≡ string_bytes lines.old ++ line_start level) }
{
    let blanks = "  ".repeat(alloc, level)?;
    write!(lines, "{blanks}- ")
}

/// Writes a part of the text in quotes, and ends the line.
fn write_leaf(lines: &mut String, text: &str, from: usize, to: usize) -> Result<(), AllocError>
    ensures { OnOk result (string_bytes lines.new ≡ string_bytes lines.old ++ leaf text.now from to) }
{
    let part = Literal(part_of(text, from, to));
    write!(lines, ": {part}\n")
}

/// Returns the part of `text` from the byte `from` up to the byte `to`. If one of them is inside a
/// character or after the end, or `to` is before `from`, the part is empty.
pub(crate) fn part_of(text: &str, from: usize, to: usize) -> &str
    ensures { result.now ≡ part text.now from to }
{
    if from <= to && text.is_char_boundary(from) && text.is_char_boundary(to) {
        &text[from..to]
    } else {
        ""
    }
}

/// Returns the level after a visit. Errors: a `usize` does not hold it, which counts as an allocation
/// failure.
fn level_behind(
    level: usize,
    before: &Option<Visit<'_>>,
    visit: &Visit<'_>,
) -> Result<usize, AllocError>
    ensures { IfOk result (λ next. next
        ≡ level_after level (option_map visit_of before.now) (visit_of visit.now)) }
{
    match (before, visit) {
        (Some(Visit::Enter(parent)), Visit::Enter(tree)) => {
            if parent.node.after == tree.node.after {
                Ok(level)
            } else {
                next_level(level)
            }
        }
        (Some(Visit::Leave(last)), Visit::Leave(tree)) => {
            if last.number == next_level(tree.number)? {
                Ok(level)
            } else {
                Ok(level.saturating_sub(1))
            }
        }
        _ => Ok(level),
    }
}
