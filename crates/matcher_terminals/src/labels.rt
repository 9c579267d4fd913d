//! Labels of the names that exposed rules expect: terminals as a grammar writes them.
ghost use Rattle.std.specs.Prelude.{◌≡◌, IfOk, OnOk, [], chars};
ghost use Rattle.base_language.specs.Language.Builtins.{is_one_of};
ghost use Rattle.matcher_program.specs.ExpectedNames.{name_texts};
ghost use Rattle.matcher_terminals.specs.Exposed.{is_trivia};
ghost use Rattle.matcher_terminals.specs.Labels.{labels_of, with_label, with_labels, without_trivia};
ghost use Rattle.matcher_terminals.specs.Tried.{label_of};

use front_names::{comment_name, whitespace_name};
use matcher_program::texts::same;
use matcher_support::tags::names::find_tag;
use std::alloc::{AllocError, Global};

/// The greatest number of labels.
const MOST: usize = 20;

/// Returns the label of `name`, which is the name of an exposed rule. For the rule of a terminal,
/// the label is the terminal as it is written. For another rule, it is the name.
fn label_of(name: &str) -> &str
    ensures { chars result.now ≡ label_of (chars name.entry.now) }
{
    match find_tag(name) {
        Some(label) => label,
        None => name,
    }
}

/// Returns whether a name is that of the rule of whitespace or of comments.
pub(crate) fn is_trivia(name: &str) -> bool
    ensures { result ≡ is_trivia (chars name.now) }
{
    same(name, whitespace_name()) || same(name, comment_name())
}

/// Returns whether a label is among these.
fn is_among(labels: &[&str], label: &str) -> bool
    ensures { result ≡ is_one_of (name_texts labels.now) (chars label.now) }
{
    for it in labels {
        if same(*it, label) {
            return true;
        }
    }
    false
}

/// Adds a label, unless it is among these, or there are 20. The only error is an allocation failure.
fn add_label<'a>(labels: &mut Vec<&'a str>, label: &'a str) -> Result<(), AllocError>
    ensures { OnOk result (name_texts labels.new.items
        ≡ with_label (name_texts labels.old.items) (chars label.entry.now)) }
{
    if labels.len() < MOST && !is_among(labels, label) {
        labels.push(label)?;
    }
    Ok(())
}

/// Returns the first 20 labels of names, each once. The only error is an allocation failure.
fn collect_labels<'a>(alloc: Global, names: &[&'a str]) -> Result<Vec<&'a str>, AllocError>
    ensures { IfOk result (λ labels.
        name_texts labels.items ≡ with_labels [] (name_texts names.entry.now)) }
{
    let mut labels = Vec::new(alloc);
    for name in names {
        add_label(&mut labels, label_of(*name))?;
    }
    Ok(labels)
}

/// Returns the names but for those of whitespace and comments. The only error is an allocation failure.
fn leave_trivia<'a>(alloc: Global, names: &[&'a str]) -> Result<Vec<&'a str>, AllocError>
    ensures { IfOk result (λ left. name_texts left.items ≡ without_trivia (name_texts names.entry.now)) }
{
    let mut left = Vec::new(alloc);
    for name in names {
        if !is_trivia(*name) {
            left.push(*name)?;
        }
    }
    Ok(left)
}

/// Returns the labels of `names`, which are names that the rules of `expose_terminals` expect. The
/// label of a terminal is the terminal as a grammar writes it. The label of another rule is its
/// name.
///
/// A label is in the list once, in the order of `names`, and there are at most 20. `WHITESPACE` and
/// `COMMENT` are left out, unless `names` has no other name.
///
/// # Errors
/// `AllocError` if an allocation fails.
pub fn labels_of<'a>(alloc: Global, names: &[&'a str]) -> Result<Vec<&'a str>, AllocError>
    ensures { IfOk result (λ labels. name_texts labels.items ≡ labels_of (name_texts names.entry.now)) }
{
    let told = leave_trivia(alloc, names)?;
    if told.is_empty() {
        collect_labels(alloc, names)
    } else {
        collect_labels(alloc, &told)
    }
}
