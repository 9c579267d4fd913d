//! Empty lines between the items of a grammar.
use crate::pieces::{Item, ItemKind, PrintedItem};

/// Returns whether an item is a rule of more than one line.
fn is_broken_rule(items: &[Item], printed: &[PrintedItem], i: usize) -> bool {
    items.get(i).is_some_and(|item| item.kind == ItemKind::Rule)
        && printed.get(i).is_some_and(|item| item.has_lines)
}

/// Returns whether the item before one is of a kind.
fn has_kind_before(items: &[Item], i: usize, kind: ItemKind) -> bool {
    i > 0 && items.get(i - 1).is_some_and(|item| item.kind == kind)
}

/// Sets before which items an empty line is, by the text and by the rules that are printed in more than one
/// line.
pub fn space_items(items: &mut [Item], printed: &[PrintedItem]) {
    for i in 0..items.len() {
        let is_after_broken = i > 0 && is_broken_rule(items, printed, i - 1);
        let is_after_grammar_doc = has_kind_before(items, i, ItemKind::GrammarDoc);
        let is_after_doc = has_kind_before(items, i, ItemKind::RuleDoc);
        let item = &mut items[i];
        match item.kind {
            ItemKind::GrammarDoc => {}
            ItemKind::Rule | ItemKind::RuleDoc if is_after_doc => item.after_empty_line = false,
            _ => {
                if is_after_broken || is_after_grammar_doc {
                    item.after_empty_line = true;
                }
            }
        }
    }
    space_before(items, printed);
}

/// Sets an empty line before each rule of more than one line and each documentation of a rule, or before the
/// comments that lead it.
fn space_before(items: &mut [Item], printed: &[PrintedItem]) {
    let mut is_wanted = false;
    for i in (0..items.len()).rev() {
        is_wanted = is_wanted
            || is_broken_rule(items, printed, i)
            || items[i].kind == ItemKind::RuleDoc;
        if items[i].after_empty_line {
            is_wanted = false;
        }
        let leads = has_kind_before(items, i, ItemKind::Comment)
            || has_kind_before(items, i, ItemKind::RuleDoc);
        if is_wanted && !leads {
            items[i].after_empty_line = true;
            is_wanted = false;
        }
    }
}
