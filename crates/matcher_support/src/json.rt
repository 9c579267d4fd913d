//! Token trees as JSON, written one visit after another.
ghost use Rattle.std.specs.Prelude.{◌≡◌, ℕ, ◌++◌, IfOk, OnOk, chars, encode_utf8_all, string_bytes};
ghost use Rattle.base_language.specs.Language.State.{Trees};
ghost use Rattle.base_language.specs.Language.Text.{Text};
ghost use Rattle.matcher_engine.specs.Walks.{visit_of, visited_of, visits, visits_left};
ghost use Rattle.matcher_support.specs.Json.{closing, head, is_leaf, is_left, own_data, piece};
ghost use Rattle.matcher_support.specs.Values.{answer_data, leaf_data};
ghost use Rattle.serde_json.specs.View.{view};
ghost use Rattle.serde_json.specs.Written.{compact_text};

use crate::shown::part_of;
use matcher_engine::walk::{TreeWalk, Visit, VisitedTree};
use serde_json::{Value, json};
use std::alloc::{AllocError, Global};

/// Returns the trees of `walk`, which is a walk over a match on `text`, and the end `end` of the
/// match as JSON.
///
/// The JSON is an object with `end` and the array `trees`. A tree is an object with `rule`, `start`
/// and `end`. If the tree has children, it also has `children`. If it has none, it also has `text`,
/// its part of the text. Positions are in bytes, from 0. The use of stack space does not depend on
/// the depth of the trees. The only error is an allocation failure.
pub fn tree_json(
    alloc: Global,
    text: &str,
    mut walk: TreeWalk<'_, '_>,
    end: usize,
) -> Result<String, AllocError>
    ensures { IfOk result (λ json. (rule : Text → ℕ) (trees : Trees)
        → visits_left walk.entry ≡ visits rule 0 0 trees
        → string_bytes json ≡ compact_text (answer_data text.now end trees)) }
{
    let mut json = String::new(alloc);
    write_head(&mut json, end)?;
    let mut later = false;
    'visits: while let Some(visit) = walk.next_visit()? {
        write_visit(alloc, &mut json, text, later, &visit)?;
        later = is_left(&visit);
    }
    json.push_str("]}")?;
    Ok(json)
}

/// Writes the end of the match, and the text before the trees.
fn write_head(json: &mut String, end: usize) -> Result<(), AllocError>
    ensures { OnOk result (string_bytes json.new ≡ string_bytes json.old ++ head end) }
{
    write!(json, "{{\"end\":{end},\"trees\":[")
}

/// Returns whether a visit is that out of a tree.
fn is_left(visit: &Visit<'_>) -> bool
    ensures { result ≡ is_left (visit_of visit.now) }
{
    match visit {
        Visit::Enter(_) => false,
        Visit::Leave(_) => true,
    }
}

/// Returns whether a tree holds no other.
fn is_leaf(tree: &VisitedTree<'_>) -> bool
    ensures { result ≡ is_leaf (visited_of tree.now) }
{
    match tree.number.checked_add(1) {
        Some(next) => tree.node.after as usize == next,
        None => false,
    }
}

/// Writes what a visit adds. `later` says whether a tree was left before the visit.
fn write_visit(
    alloc: Global,
    json: &mut String,
    text: &str,
    later: bool,
    visit: &Visit<'_>,
) -> Result<(), AllocError>
    ensures { OnOk result (string_bytes json.new
        ≡ string_bytes json.old ++ piece text.now later (visit_of visit.now)) }
{
    match visit {
        Visit::Enter(tree) => {
            if later {
                json.push_str(",")?;
            }
            if !is_leaf(tree) {
                json.push_str("{\"children\":[")?;
            }
            Ok(())
        }
        Visit::Leave(tree) => {
            let (from, to) = (tree.node.start as usize, tree.node.end as usize);
            write_end(alloc, json, text, tree.rule, from, to, is_leaf(tree))
        }
    }
}

/// Writes a leaf, or the text of another tree after its children.
fn write_end(
    alloc: Global,
    json: &mut String,
    text: &str,
    rule: &str,
    from: usize,
    to: usize,
    is_leaf: bool,
) -> Result<(), AllocError>
    ensures { OnOk result (string_bytes json.new
        ≡ string_bytes json.old ++ closing text.now is_leaf (encode_utf8_all (chars rule.now)) from to) }
{
    if is_leaf {
        json.push_str(&leaf_text(alloc, rule, from, to, part_of(text, from, to))?)
    } else {
        let own = own_text(alloc, rule, from, to)?;
        json.push_str("],")?;
        match own.get(1..) {
            Some(members) => json.push_str(members),
            None => Ok(()),
        }
    }
}

/// Returns the JSON of a leaf.
fn leaf_text(
    alloc: Global,
    rule: &str,
    from: usize,
    to: usize,
    part: &str,
) -> Result<String, AllocError>
    ensures { IfOk result (λ json. string_bytes json
        ≡ compact_text (leaf_data (encode_utf8_all (chars rule.now)) from to part.now)) }
{
    let value = leaf_value(alloc, rule, from, to, part)?;
    value.to_string(alloc)
}

/// Returns a leaf as a value.
fn leaf_value(
    alloc: Global,
    rule: &str,
    from: usize,
    to: usize,
    part: &str,
) -> Result<Value, AllocError>
    ensures { IfOk result (λ value. view value ≡ leaf_data rule.now from to part.now) }
{
    json!(in alloc; {"rule": rule, "start": from, "end": to, "text": part})
}

/// Returns the JSON of a tree's rule and positions.
fn own_text(alloc: Global, rule: &str, from: usize, to: usize) -> Result<String, AllocError>
    ensures { IfOk result (λ json. string_bytes json
        ≡ compact_text (own_data (encode_utf8_all (chars rule.now)) from to)) }
{
    let value = own_value(alloc, rule, from, to)?;
    value.to_string(alloc)
}

/// Returns a tree's rule and positions as a value.
fn own_value(alloc: Global, rule: &str, from: usize, to: usize) -> Result<Value, AllocError>
    ensures { IfOk result (λ value. view value ≡ own_data rule.now from to) }
{
    json!(in alloc; {"rule": rule, "start": from, "end": to})
}
