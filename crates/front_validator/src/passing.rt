//! Nullability of all nodes when a call of a node's own rule takes something, as least fixpoints.
ghost use Rattle.std.specs.Prelude.{◌≡◌, ℕ, ◌+◌, ◌<◌, ◌≤◌, Some, true, false, IfOk, List, OnOk, length, slice_get};
ghost use Rattle.base_graphs.specs.Least.{is_set_at};
ghost use Rattle.front_spanned.specs.declared.node.ParserRule.{ParserRule};
ghost use Rattle.front_analysis.specs.Facts.{AreFacts};
ghost use Rattle.front_validator.specs.Levels.{AllRest, AreSettled, IsSettled, own_answer, own_answer_at};
ghost use Rattle.front_analysis.specs.RightAnswers.{AreSound, AreClosed};
ghost use Rattle.front_validator.specs.Regions.{ArePassing, ArePassingBelow};
ghost use Rattle.front_validator.specs.Without.{AreAnswersWithout, IsWithout, without_kind};

use crate::cycles::number_at;
use crate::levels::levels_of;
use base_graphs::{find_listeners, is_set};
use front_analysis::{Facts, KindTable, NodeKind, Question, answers_to};
use std::alloc::{AllocError, Global};

/// Returns the kind of a node when calls of a rule count as neither.
fn kind_without(kind: NodeKind, rule: usize) -> NodeKind
    ensures { result ≡ without_kind rule kind }
{
    match kind {
        NodeKind::Call(called) => {
            if called == rule {
                NodeKind::Taking
            } else {
                kind
            }
        }
        NodeKind::EndCall(called) => { if called == rule { NodeKind::End } else { kind } }
        _ => kind,
    }
}

/// Makes the table in which calls of a rule count as neither.
fn table_without(alloc: Global, table: &KindTable, rule: usize) -> Result<KindTable, AllocError>
    ensures { IfOk result (λ other. IsWithout rule table.now other) }
{
    let mut kinds = Vec::new(alloc);
    for kind in &table.kinds {
        kinds.push(kind_without(*kind, rule))?;
    }
    let mut roots = Vec::new(alloc);
    for root in &table.roots {
        roots.push(*root)?;
    }
    Ok(KindTable { kinds, roots })
}

/// Computes which nodes may take nothing when calls of a rule count as neither.
fn answers_without(alloc: Global, facts: &Facts, rule: usize) -> Result<Vec<bool>, AllocError>
    ensures { IfOk result (λ answers. AreAnswersWithout rule facts.now.table answers.items) }
{
    let table = table_without(alloc, &facts.table, rule)?;
    let listeners = find_listeners(alloc, &table)?;
    let answers = answers_to(alloc, &table, &listeners, Question::TakesNothing)?;
    Ok(answers)
}

/// Adds the flags of the nodes up to one of them.
fn add_flags(from: &[bool], last: usize, to: &mut Vec<bool>) -> Result<(), AllocError>
    ensures kept { OnOk result ((i : ℕ) → i < length to.old.items
        → is_set_at to.new.items i ≡ is_set_at to.old.items i) }
    ensures copied { OnOk result ((i : ℕ) → length to.old.items ≤ i → i ≤ last
        → is_set_at to.new.items i ≡ is_set_at from.now i) }
    ensures long { OnOk result (length to.old.items ≤ last + 1 → length to.new.items ≡ last + 1) }
{
    while to.len() <= last {
        let flag = is_set(from, to.len());
        to.push(flag)?;
    }
    Ok(())
}

/// Reports whether a call in a rule's body is one of the rule itself, takes something, or is of a rule
/// with a lower level.
fn is_settled(facts: &Facts, levels: &[usize], rule: usize, root: usize, kind: NodeKind) -> bool
    ensures { result ≡ true → IsSettled facts.now levels.now rule root kind }
{
    match kind {
        NodeKind::Call(called) => {
            if called == rule {
                return true;
            }
            match facts.table.roots.get(called) {
                Some(body) => {
                    !is_set(facts.nullable.as_slice(), *body)
                        || number_at(levels, *body) < number_at(levels, root)
                }
                None => true,
            }
        }
        _ => true,
    }
}

/// Reports whether all nodes of the body are so.
fn are_settled(facts: &Facts, levels: &[usize], rule: usize, first: usize, root: usize) -> bool
    ensures { result ≡ true → AreSettled facts.now levels.now rule first root }
{
    for node in first..facts.table.kinds.len() {
        if node > root {
            return true;
        }
        if !is_settled(facts, levels, rule, root, facts.table.kind_at(node)) {
            return false;
        }
    }
    true
}

/// Computes whether a node of a rule's body may take nothing when calls of the rule count as neither,
/// from the flags of its operands.
fn own_flag(facts: &Facts, rule: usize, flags: &[bool], kind: NodeKind) -> bool
    ensures { result ≡ own_answer facts.now rule (is_set_at flags.now) kind }
{
    match kind {
        NodeKind::Call(called) => {
            if called == rule {
                false
            } else {
                facts.table.is_root_set(facts.nullable.as_slice(), called)
            }
        }
        _ => facts.table.fires(Question::TakesNothing, flags, kind),
    }
}

/// Computes that flag for the node of a number.
fn own_flag_at(facts: &Facts, rule: usize, flags: &[bool], node: usize) -> bool
    ensures { result ≡ own_answer_at facts.now rule (is_set_at flags.now)
        (slice_get facts.now.table.kinds.items node) }
{
    match facts.table.kinds.get(node) {
        Some(kind) => own_flag(facts, rule, flags, *kind),
        None => false,
    }
}

/// Adds the flags of the nodes of a rule's body, computed from those of their operands.
fn add_own_flags(
    facts: &Facts,
    levels: &[usize],
    rule: usize,
    root: usize,
    flags: &mut Vec<bool>,
) -> Result<(), AllocError>
    requires levels { AllRest facts.now levels.now }
    requires root { slice_get facts.now.table.roots.items rule ≡ Some root }
    requires settled { AreSettled facts.now levels.now rule (length flags.old.items) root }
    ensures { OnOk result ((rules : List ParserRule) → AreFacts rules facts.now
        → ArePassingBelow rules facts.now.table.roots.items rule flags.old.items
        → ArePassingBelow rules facts.now.table.roots.items (rule + 1) flags.new.items) }
{
    while flags.len() <= root {
        let flag = own_flag_at(facts, rule, flags.as_slice(), flags.len());
        flags.push(flag)?;
    }
    Ok(())
}

/// Adds the flags of the nodes of the body of a rule that takes something: they are the facts.
fn add_facts(
    facts: &Facts,
    rule: usize,
    root: usize,
    flags: &mut Vec<bool>,
) -> Result<(), AllocError>
    requires root { slice_get facts.now.table.roots.items rule ≡ Some root }
    requires takes { is_set_at facts.now.nullable.items root ≡ false }
    ensures { OnOk result ((rules : List ParserRule) → AreFacts rules facts.now
        → ArePassingBelow rules facts.now.table.roots.items rule flags.old.items
        → ArePassingBelow rules facts.now.table.roots.items (rule + 1) flags.new.items) }
{
    add_flags(facts.nullable.as_slice(), root, flags)?;
    Ok(())
}

/// Adds the flags of the nodes of a rule's body, computed with those of all nodes.
fn add_answers(
    alloc: Global,
    facts: &Facts,
    rule: usize,
    root: usize,
    flags: &mut Vec<bool>,
) -> Result<(), AllocError>
    requires root { slice_get facts.now.table.roots.items rule ≡ Some root }
    ensures { OnOk result ((rules : List ParserRule) → AreFacts rules facts.now
        → ArePassingBelow rules facts.now.table.roots.items rule flags.old.items
        → ArePassingBelow rules facts.now.table.roots.items (rule + 1) flags.new.items) }
{
    let answers = answers_without(alloc, facts, rule)?;
    add_flags(answers.as_slice(), root, flags)?;
    Ok(())
}

/// Adds the flags of the nodes of a rule's body. Only if the rule may take nothing do they differ from
/// the facts. All nodes are needed only if the rule leads back to itself by other rules that may take
/// nothing.
fn add_rule(
    alloc: Global,
    facts: &Facts,
    levels: &[usize],
    rule: usize,
    flags: &mut Vec<bool>,
) -> Result<(), AllocError>
    requires levels { AllRest facts.now levels.now }
    requires inside { rule < facts.now.table.roots.len }
    ensures { OnOk result ((rules : List ParserRule) → AreFacts rules facts.now
        → ArePassingBelow rules facts.now.table.roots.items rule flags.old.items
        → ArePassingBelow rules facts.now.table.roots.items (rule + 1) flags.new.items) }
{
    let root = facts.table.root_at(rule);
    if !is_set(facts.nullable.as_slice(), root) {
        return add_facts(facts, rule, root, flags);
    }
    if are_settled(facts, levels, rule, flags.len(), root) {
        return add_own_flags(facts, levels, rule, root, flags);
    }
    add_answers(alloc, facts, rule, root, flags)
}

/// Computes which nodes may take nothing if a call of the rule in whose body they are takes something.
pub(crate) fn passing(alloc: Global, facts: &Facts) -> Result<Vec<bool>, AllocError>
    ensures { IfOk result (λ flags. (rules : List ParserRule) → AreFacts rules facts.now
        → ArePassing rules facts.now.table.roots.items flags.items) }
{
    let levels = levels_of(alloc, facts)?;
    let mut flags = Vec::new(alloc);
    for rule in 0..facts.table.roots.len() {
        add_rule(alloc, facts, levels.as_slice(), rule, &mut flags)?;
    }
    Ok(flags)
}
