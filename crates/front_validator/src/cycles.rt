//! Reports whether some rule is left-recursive, by a topological order of the left calls. A depth-first
//! search numbers the nodes, and a linear pass checks the numbers as a certificate. If every left call
//! leads to a lower number, no cycle exists. If a cycle exists, levels in place of the order decide
//! which rules are on none. No left call leads to a higher level, and those of such a rule lead to lower
//! ones.
ghost use Rattle.std.specs.Prelude.{◌≡◌, ◌<◌, ◌+◌, IfOk, List, true};
ghost use Rattle.base_language.specs.Language.Text.{Text};
ghost use Rattle.base_language.specs.Language.WellFormed.{Leads};
ghost use Rattle.front_spanned.specs.declared.node.ParserRule.{ParserRule};
ghost use Rattle.front_analysis.specs.Facts.{AreFacts};
ghost use Rattle.front_analysis.specs.Names.{grammar_of};
ghost use Rattle.front_validator.specs.Cycles.{AllFall, Falls, FallsFrom, IsBelowRoot, NoneRises, rank_at};

use crate::relations::{Relation, links_of};
use base_graphs::{is_set, postorder};
use front_analysis::{Facts, NodeKind};
use std::alloc::{AllocError, Global};

/// Numbers all nodes in the order in which a depth-first search along left calls leaves them.
fn number_nodes(alloc: Global, facts: &Facts) -> Result<Vec<usize>, AllocError> {
    let links = links_of(alloc, facts, Relation::LeftCalls)?;
    postorder(alloc, links.as_slice(), facts.table.kinds.len())
}

/// Returns the number of a node.
pub(crate) fn number_at(order: &[usize], node: usize) -> usize
    ensures { result ≡ rank_at order.now node }
{
    match order.get(node) {
        Some(number) => *number,
        None => 0,
    }
}

fn is_below(order: &[usize], node: usize, bound: usize) -> bool
    ensures { result ≡ true → rank_at order.now node < bound }
{
    number_at(order, node) < bound
}

fn is_root_below(facts: &Facts, order: &[usize], rule: usize, bound: usize) -> bool
    ensures { result ≡ true → IsBelowRoot facts.now order.now rule bound }
{
    match facts.table.roots.get(rule) {
        Some(root) => is_below(order, *root, bound),
        None => true,
    }
}

/// Reports whether the left calls of such a node lead directly to nodes with numbers below a bound.
fn falls(facts: &Facts, order: &[usize], bound: usize, kind: NodeKind) -> bool
    ensures { result ≡ true → Falls facts.now order.now bound kind }
{
    match kind {
        NodeKind::Taking | NodeKind::Still | NodeKind::End => true,
        NodeKind::Call(rule) | NodeKind::EndCall(rule) => is_root_below(facts, order, rule, bound),
        NodeKind::Ahead(body)
        | NodeKind::NotAhead(body)
        | NodeKind::Free(body)
        | NodeKind::Inside(body)
        | NodeKind::Again(body)
        | NodeKind::OnceAgain(body) => is_below(order, body, bound),
        NodeKind::Seq(first, second) => {
            is_below(order, first, bound)
                && (!is_set(facts.nullable.as_slice(), first) || is_below(order, second, bound))
        }
        NodeKind::Choice(first, second) => is_below(order, first, bound)
            && is_below(order, second, bound),
    }
}

/// Reports whether every left call leads to a lower number.
fn all_fall(facts: &Facts, order: &[usize]) -> bool
    ensures { result ≡ true → AllFall facts.now order.now }
{
    for node in 0..facts.table.kinds.len() {
        let number = number_at(order, node);
        if !falls(facts, order, number, facts.table.kind_at(node)) {
            return false;
        }
    }
    true
}

/// Reports whether the left calls of a node lead directly to nodes with no higher levels.
fn stays(facts: &Facts, levels: &[usize], node: usize, kind: NodeKind) -> bool
    ensures { result ≡ true → Falls facts.now levels.now (rank_at levels.now node + 1) kind }
{
    match number_at(levels, node).checked_add(1) {
        Some(bound) => falls(facts, levels, bound, kind),
        None => false,
    }
}

/// Reports whether no left call leads to a higher level.
pub(crate) fn none_rises(facts: &Facts, levels: &[usize]) -> bool
    ensures { result ≡ true → NoneRises facts.now levels.now }
{
    for node in 0..facts.table.kinds.len() {
        if !stays(facts, levels, node, facts.table.kind_at(node)) {
            return false;
        }
    }
    true
}

/// Reports whether the left calls of the body of a rule lead to lower levels, so that none returns to the
/// rule.
pub(crate) fn falls_from(facts: &Facts, levels: &[usize], rule: usize) -> bool
    ensures { result ≡ true → FallsFrom facts.now levels.now rule }
{
    match facts.table.roots.get(rule) {
        Some(root) => match facts.table.kinds.get(*root) {
            Some(kind) => falls(facts, levels, number_at(levels, *root), *kind),
            None => true,
        },
        None => true,
    }
}

/// Reports whether no rule is left-recursive; yes is definite.
pub(crate) fn has_no_cycle(alloc: Global, facts: &Facts) -> Result<bool, AllocError>
    ensures { IfOk result (λ yes. yes ≡ true → (rules : List ParserRule) → AreFacts rules facts.now
        → (n : Text) → Leads (grammar_of rules) n n → ⊥) }
{
    let order = number_nodes(alloc, facts)?;
    let falls = all_fall(facts, order.as_slice());
    Ok(falls)
}
