//! Trees that are written into files of cases.
ghost use Rattle.std.specs.Prelude.{◌≡◌, IfOk, IfSome, string_bytes};
ghost use Rattle.pest_test.specs.Updates.{edited_from};

use crate::cases::{Case, Expected, FilePart};
use crate::expected::Event;
use crate::lines::{found_lines, has_ends, has_texts, print_trees};
use crate::verdicts::{Failure, Verdict};
use matcher_engine::matcher::ParseTree;
use matcher_support::compiled::CompiledGrammar;
use std::alloc::{AllocError, Global};

/// A part of a file, and the text in its place.
#[derive(Drop)]
pub struct Edit {
    pub part: FilePart,
    pub text: String,
}

/// Returns the edits that write the found trees of the cases whose trees differ.
pub fn find_edits(
    alloc: Global,
    rules: &CompiledGrammar<'_>,
    file: &str,
    cases: &[Case<'_>],
    verdicts: &[Verdict],
) -> Result<Vec<Edit>, AllocError> {
    let mut edits = Vec::new(alloc);
    for (case, verdict) in cases.iter().zip(verdicts) {
        if let Verdict::Failed(Failure::Differs(found)) = verdict {
            if let Expected::Trees(events) = &case.expected {
                let text = write_trees(alloc, rules, file, case, events, found)?;
                edits.push(Edit {
                    part: case.trees,
                    text,
                })?;
            }
        }
    }
    Ok(edits)
}

/// Returns the third part of a case, with the found trees between empty lines.
fn write_trees(
    alloc: Global,
    rules: &CompiledGrammar<'_>,
    file: &str,
    case: &Case<'_>,
    events: &[Event<'_>],
    found: &ParseTree,
) -> Result<String, AllocError> {
    let walk = rules.walk(alloc, found);
    let lines = found_lines(alloc, case.text, walk, has_ends(events))?;
    let trees = print_trees(alloc, &lines, has_texts(events))?;
    let before = file.get(..case.trees.start).unwrap_or("");
    let first = if before.ends_with('\n') { "\n" } else { "\n\n" };
    let last = if case.trees.end < file.len() {
        "\n"
    } else {
        ""
    };
    let mut text = String::from_str(alloc, first)?;
    text.push_str(trees.as_str())?;
    text.push_str(last)?;
    Ok(text)
}

/// Returns the text `file` in which the text of each edit takes the place of the part of the edit.
/// Returns `None` if the parts are not in order, or if a part begins or ends inside a character.
pub fn apply_edits(alloc: Global, file: &str, edits: &[Edit]) -> Result<Option<String>, AllocError>
    ensures { IfOk result (λ found. IfSome found (λ text.
        string_bytes text ≡ edited_from file.now 0 edits.now)) }
{
    let mut text = String::new(alloc);
    let mut place = 0usize;
    for edit in edits {
        let Some(kept) = file.get(place..edit.part.start) else {
            return Ok(None);
        };
        text.push_str(kept)?;
        text.push_str(edit.text.as_str())?;
        place = edit.part.end;
    }
    let Some(kept) = file.get(place..) else {
        return Ok(None);
    };
    text.push_str(kept)?;
    Ok(Some(text))
}
