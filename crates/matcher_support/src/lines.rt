//! Token trees as flat lines.
ghost use Rattle.std.specs.Prelude.{◌≡◌, ℕ, ◌++◌, ◌≤◌, IfOk, OnOk, drop, replicate, string_bytes};
ghost use Rattle.base_language.specs.Language.State.{Trees};
ghost use Rattle.base_language.specs.Language.Text.{Text};
ghost use Rattle.matcher_engine.specs.Walks.{visit_of, visits, visits_left};
ghost use Rattle.matcher_support.specs.Lines.{lines_of, numbers, piece};

use crate::shown::write_name;
use itoa::write_digits;
use matcher_engine::walk::{TreeWalk, Visit};
use std::alloc::{AllocError, Global};

/// Returns one line for each tree of `walk`. The line of a tree is before the lines of its
/// children. A line has the start and the end of the tree in bytes, its depth from 0, and the name
/// of its rule. They are separated by blanks. The only error is an allocation failure.
pub fn tree_lines(alloc: Global, mut walk: TreeWalk<'_, '_>) -> Result<String, AllocError>
    ensures { IfOk result (λ lines. (rule : Text → ℕ) (trees : Trees)
        → visits_left walk.entry ≡ visits rule 0 0 trees → string_bytes lines ≡ lines_of 0 trees) }
{
    let mut lines = String::new(alloc);
    'visits: while let Some(visit) = walk.next_visit()? {
        write_visit(&mut lines, visit)?;
    }
    Ok(lines)
}

/// Writes the line of a tree at the visit into it.
fn write_visit(lines: &mut String, visit: Visit<'_>) -> Result<(), AllocError>
    ensures { OnOk result (string_bytes lines.new
        ≡ string_bytes lines.old ++ piece (visit_of visit.entry)) }
{
    match visit {
        Visit::Enter(tree) => {
            write_numbers(lines, tree.node.start, tree.node.end, tree.depth)?;
            write_name(lines, tree.rule)?;
            lines.push_str("\n")
        }
        Visit::Leave(_) => Ok(()),
    }
}

/// Writes the positions of a tree and its depth.
fn write_numbers(lines: &mut String, from: u32, to: u32, depth: usize) -> Result<(), AllocError>
    ensures { OnOk result (string_bytes lines.new ≡ string_bytes lines.old ++ numbers from to depth) }
{
    let mut bytes = [b' '; 64];
    let start = format_numbers(&mut bytes, from, to, depth);
    match str::from_utf8(&bytes[start..]) {
        Ok(text) => lines.push_str(text),
        Err(_) => unreachable!(),
    }
}

/// Writes the positions of a tree and its depth at the end of 64 blanks, and returns where they begin.
fn format_numbers(blanks: &mut [u8], from: u32, to: u32, depth: usize) -> usize
    requires { blanks.old ≡ replicate 64 32 }
    ensures start { result ≤ 64 }
    ensures written { drop result blanks.new ≡ numbers from to depth }
{
    let third = write_digits(depth as u64, blanks, 63);
    let second = write_digits(u64::from(to), blanks, third - 1);
    write_digits(u64::from(from), blanks, second - 1)
}
