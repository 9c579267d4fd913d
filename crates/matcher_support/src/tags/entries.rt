//! The starts and ends of the trees of a match with their tags, without those of the added trees.
ghost use Rattle.std.specs.Prelude.{◌≡◌, ℕ, IfOk, OnOk, [], chars};
ghost use Rattle.base_language.specs.Language.State.{Trees};
ghost use Rattle.base_language.specs.Pieces.TokenTrees.{NoTokens};
ghost use Rattle.base_language.specs.Language.Text.{Text};
ghost use Rattle.matcher_engine.specs.Walks.{visit_of, visits, visits_left};
ghost use Rattle.matcher_support.specs.Spliced.{spliced};
ghost use Rattle.matcher_support.specs.TagEntries.{entries_onto, last_first, tagging_of, with_visit};
ghost use Rattle.matcher_support.specs.TagEntries.{with_last_tag};

use crate::tags::names::find_tag;
use matcher_engine::walk::{TreeWalk, Visit};
use std::alloc::{AllocError, Global};

/// The start of a tree, with the name of its rule, or the end of a tree, with its tag if it has
/// one. `pos` is a position in bytes.
#[derive(Clone, Copy, Debug)]
pub enum TaggedEntry<'a> {
    Start { rule: &'a str, pos: usize },
    End { pos: usize, tag: Option<&'a str> },
}

/// Gives a tag to the last entry, if it is an end.
fn set_tag<'a>(entries: &mut Vec<TaggedEntry<'a>>, tag: &'a str) -> Result<(), AllocError>
    ensures { OnOk result (last_first entries.new.items
        ≡ with_last_tag (chars tag.entry.now) (last_first entries.old.items)) }
{
    match entries.pop() {
        Some(TaggedEntry::End { pos, .. }) => {
            entries.push(TaggedEntry::End {
                pos,
                tag: Some(tag),
            })?;
            Ok(())
        }
        Some(start) => {
            entries.push(start)?;
            Ok(())
        }
        None => Ok(()),
    }
}

/// Adds what one more visit makes. `tags` has the tag of each wrapper that is open, and `None` for each other
/// tree.
fn add_visit<'a>(
    visit: Visit<'a>,
    entries: &mut Vec<TaggedEntry<'a>>,
    tags: &mut Vec<Option<&'a str>>,
) -> Result<(), AllocError>
    ensures { OnOk result (tagging_of entries.new.items tags.new.items
        ≡ with_visit (visit_of visit.entry) (tagging_of entries.old.items tags.old.items)) }
{
    match visit {
        Visit::Enter(tree) => match find_tag(tree.rule) {
            Some(tag) => {
                tags.push(Some(tag))?;
                Ok(())
            }
            None => {
                tags.push(None)?;
                entries.push(TaggedEntry::Start {
                    rule: tree.rule,
                    pos: tree.node.start as usize,
                })?;
                Ok(())
            }
        },
        Visit::Leave(tree) => match tags.pop() {
            Some(Some(tag)) => set_tag(entries, tag),
            _ => {
                entries.push(TaggedEntry::End {
                    pos: tree.node.end as usize,
                    tag: None,
                })?;
                Ok(())
            }
        },
    }
}

/// Returns the starts and ends of the trees of `walk`, in the order of the text, without the trees
/// that wrapped rules add. Condition: `walk` is a walk over a match by rules that `wrap_rules`
/// returned.
///
/// An added tree has a tag. If the entry before its end is the end of a tree, this entry gets the
/// tag. A later tag replaces it. The only error is an allocation failure.
pub fn tag_entries<'a>(
    alloc: Global,
    mut walk: TreeWalk<'a, '_>,
) -> Result<Vec<TaggedEntry<'a>>, AllocError>
    ensures { (rule : Text → ℕ) (us : Trees) → visits_left walk.entry ≡ visits rule 0 0 us
        → IfOk result (λ tags. last_first tags.items ≡ entries_onto (spliced us NoTokens) []) }
{
    let mut tagged = Vec::new(alloc);
    let mut tags = Vec::new(alloc);
    'visits: while let Some(visit) = walk.next_visit()? {
        add_visit(visit, &mut tagged, &mut tags)?;
    }
    Ok(tagged)
}
