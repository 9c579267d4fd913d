//! Comparison of the trees of a match with the expected trees. The expected trees may leave out a
//! tree of `EOI`.
ghost use Rattle.std.specs.Prelude.{◌≡◌, ℕ, List, IfOk, IfSome, codes, true};
ghost use Rattle.std.specs.Str.{chars};
ghost use Rattle.base_language.specs.Language.State.{Trees};
ghost use Rattle.base_language.specs.Language.Text.{Text};
ghost use Rattle.matcher_engine.specs.Walks.{Enters, Leaves, visit_of, visited_of, visits, visits_left};
ghost use Rattle.matcher_support.specs.Shown.{part};
ghost use Rattle.pest_test.specs.Agreement.{Agree, IsEntered, IsWantedPart};
ghost use Rattle.pest_test.specs.Walking.{Follows};

use crate::expected::Event;
use matcher_engine::walk::{TreeWalk, Visit, VisitedTree};
use matcher_program::texts::same;
use std::alloc::AllocError;

/// How far expected trees agree with a walk.
#[derive(Clone, Copy)]
struct Progress<'e, 'f> {
    /// The events that follow.
    rest: &'e [Event<'f>],
    /// Whether the walk is inside a tree of `EOI` that is left out.
    is_inside_end: bool,
}

/// Returns whether the trees of a walk over a match on `text` are the expected ones. The only error is an
/// allocation failure.
pub fn agrees(
    events: &[Event<'_>],
    text: &str,
    mut walk: TreeWalk<'_, '_>,
) -> Result<bool, AllocError>
    ensures { IfOk result (λ yes. (rule : Text → ℕ) (trees : Trees)
        → visits_left walk.entry ≡ visits rule 0 0 trees → yes ≡ true → Agree text.now events.now trees) }
{
    let mut progress = Progress {
        rest: events,
        is_inside_end: false,
    };
    'visits: while let Some(visit) = walk.next_visit()? {
        match follow(progress, text, &visit) {
            Some(next) => progress = next,
            None => return Ok(false),
        }
    }
    Ok(progress.rest.is_empty() && !progress.is_inside_end)
}

/// Returns the progress after a visit, if that agrees.
fn follow<'e, 'f>(
    progress: Progress<'e, 'f>,
    text: &str,
    visit: &Visit<'_>,
) -> Option<Progress<'e, 'f>>
    ensures { IfSome result (λ next. Follows text.now progress.entry.rest.now progress.entry.is_inside_end
        (visit_of visit.now) next.rest.now next.is_inside_end) }
{
    match visit {
        Visit::Enter(tree) => enter(progress, text, tree),
        Visit::Leave(tree) => leave(progress, tree),
    }
}

/// Returns the progress after a walk has entered a tree, if that agrees.
fn enter<'e, 'f>(
    progress: Progress<'e, 'f>,
    text: &str,
    tree: &VisitedTree<'_>,
) -> Option<Progress<'e, 'f>>
    ensures { IfSome result (λ next. Follows text.now progress.entry.rest.now progress.entry.is_inside_end
        (Enters (visited_of tree.now)) next.rest.now next.is_inside_end) }
{
    if progress.is_inside_end {
        return None;
    }
    if let Some((event, rest)) = progress.rest.split_first() {
        if is_entered(event, text, tree) {
            return Some(Progress {
                rest,
                is_inside_end: false,
            });
        }
    }
    if is_end(tree.rule) {
        return Some(Progress {
            rest: progress.rest,
            is_inside_end: true,
        });
    }
    None
}

/// Returns the progress after a walk has left a tree, if that agrees.
fn leave<'e, 'f>(progress: Progress<'e, 'f>, tree: &VisitedTree<'_>) -> Option<Progress<'e, 'f>>
    ensures { (text : List ℕ) → IfSome result (λ next. Follows text progress.entry.rest.now
        progress.entry.is_inside_end (Leaves (visited_of tree.now)) next.rest.now next.is_inside_end) }
{
    if progress.is_inside_end {
        return Some(Progress {
            rest: progress.rest,
            is_inside_end: false,
        });
    }
    match progress.rest.split_first() {
        Some((Event::Leave, rest)) => Some(Progress {
            rest,
            is_inside_end: false,
        }),
        _ => None,
    }
}

/// Returns whether a name is `EOI`.
pub fn is_end(rule: &str) -> bool
    ensures { result ≡ true → chars rule.now ≡ codes "EOI" }
{
    same(rule, "EOI")
}

/// Returns whether an event enters such a tree.
fn is_entered(event: &Event<'_>, text: &str, tree: &VisitedTree<'_>) -> bool
    ensures { result ≡ true
        → IsEntered text.now (chars tree.now.rule.now) tree.now.node.start tree.now.node.end event.now }
{
    match event {
        Event::Enter { rule, text: wanted } => {
            same(rule, tree.rule) && is_wanted_part(wanted, text, tree)
        }
        Event::Leave => false,
    }
}

/// Returns whether a tree matched the wanted text, if there is one.
fn is_wanted_part(wanted: &Option<String>, text: &str, tree: &VisitedTree<'_>) -> bool
    ensures { result ≡ true → IsWantedPart text.now tree.now.node.start tree.now.node.end wanted.now }
{
    match wanted {
        Some(wanted) => wanted.as_str() == part_of(text, tree),
        None => true,
    }
}

/// Returns the part of the text that a tree matched.
pub fn part_of<'t>(text: &'t str, tree: &VisitedTree<'_>) -> &'t str
    ensures { result.now ≡ part text.entry.now tree.now.node.start tree.now.node.end }
{
    let (from, to) = (tree.node.start as usize, tree.node.end as usize);
    if from <= to && text.is_char_boundary(from) && text.is_char_boundary(to) {
        &text[from..to]
    } else {
        ""
    }
}
