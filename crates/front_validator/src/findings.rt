//! Findings besides left recursion: repetitions that never end, alternatives that are never reached, and
//! skipped rules that may take nothing.
ghost use Rattle.std.specs.Prelude.{◌≡◌, ◌++◌, ◌∷◌, [], IfOk, OnOk, map, slice_get, List, Option};
ghost use Rattle.front_spanned.specs.Nodes.{piece_of, rule_views};
ghost use Rattle.front_analysis.specs.Facts.{AreFacts};
ghost use Rattle.base_language.specs.Pieces.Saying.{written};
ghost use Rattle.front_validator.specs.Problems.{message_of, subject};
ghost use Rattle.front_validator.specs.Findings.{found_at, OfRepetition, OfChoice, OfSkipped, Reports};
ghost use Rattle.front_analysis.specs.Names.{grammar_of};
ghost use Rattle.front_spanned.specs.declared.node.ParserRule.{ParserRule};
ghost use Rattle.front_analysis.specs.Nodes.{all_nodes};
ghost use Rattle.front_analysis.specs.Roots.{IsTabled};
ghost use Rattle.front_validator.specs.Reporting.{findings_of, AreSpans, repeated_at, repetition_at, alternative_of, unreachable_at, choice_at, skipped_at};

use crate::problems::{LoopBody, RuleFinding, RuleProblem};
use base_graphs::is_set;
use base_language::runtime::Span;
use front_analysis::{Facts, NodeKind, Table};
use front_spanned::ParserRule;
use std::alloc::{AllocError, Global};

/// Adds a finding of this problem.
fn add<'i>(
    problem: RuleProblem,
    span: Span<'i>,
    found: &mut Vec<RuleFinding<'i>>,
) -> Result<(), AllocError>
    ensures { OnOk result (findings_of found.new.items ≡ findings_of found.old.items
        ++ found_at (piece_of span.entry) (message_of problem (written (piece_of span.entry))) ∷ []) }
{
    found.push(RuleFinding { problem, span })?;
    Ok(())
}

/// Returns the kind of the node of a number, if there is one.
pub(crate) fn kind_of_node(facts: &Facts, node: usize) -> Option<NodeKind>
    ensures { result ≡ slice_get facts.now.table.kinds.items node }
{
    facts.table.kinds.get(node).copied()
}

/// Returns the number of a rule's body, if there is one.
fn root_of_rule(facts: &Facts, rule: usize) -> Option<usize>
    ensures { result ≡ slice_get facts.now.table.roots.items rule }
{
    facts.table.roots.get(rule).copied()
}

/// Adds the findings of a node as what is repeated without end.
fn report_repeated<'i>(
    facts: &Facts,
    body: LoopBody,
    span: Span<'i>,
    node: usize,
    found: &mut Vec<RuleFinding<'i>>,
) -> Result<(), AllocError>
    ensures { OnOk result (findings_of found.new.items
        ≡ findings_of found.old.items ++ repeated_at facts.now (subject body) (piece_of span.entry) node) }
{
    if is_set(facts.certain.as_slice(), node) {
        add(RuleProblem::CannotFail(body), span, found)?;
    } else if is_set(facts.nullable.as_slice(), node) {
        add(RuleProblem::NonProgressing(body), span, found)?;
    }
    Ok(())
}

/// Adds the findings of a node as a repetition.
fn report_repetition<'i>(
    facts: &Facts,
    span: Span<'i>,
    kind: Option<NodeKind>,
    found: &mut Vec<RuleFinding<'i>>,
) -> Result<(), AllocError>
    ensures { OnOk result (findings_of found.new.items
        ≡ findings_of found.old.items ++ repetition_at facts.now (piece_of span.entry) kind) }
{
    let body = match kind {
        Some(NodeKind::Again(body)) => body,
        Some(NodeKind::OnceAgain(body)) => body,
        _ => return Ok(()),
    };
    report_repeated(facts, LoopBody::Expression, span, body, found)?;
    Ok(())
}

/// Collects the spans of all nodes in the order of the node table.
pub(crate) fn spans_of<'i>(
    alloc: Global,
    table: &Table<'_, 'i>,
) -> Result<Vec<Span<'i>>, AllocError>
    ensures { IfOk result (λ spans. (rules : List ParserRule) → IsTabled rules table.now
        → AreSpans rules spans.items) }
{
    let mut spans = Vec::with_capacity(alloc, table.nodes.len())?;
    for place in 0..table.nodes.len() {
        spans.push(*table.nodes[place].span)?;
    }
    Ok(spans)
}

/// Collects the findings of all nodes as repetitions.
pub(crate) fn repetitions<'i>(
    alloc: Global,
    facts: &Facts,
    spans: &[Span<'i>],
) -> Result<Vec<RuleFinding<'i>>, AllocError>
    ensures { IfOk result (λ found. (rules : List ParserRule) → AreFacts rules facts.now
        → AreSpans rules spans.now
        → Reports (OfRepetition (grammar_of rules)) (all_nodes rules) (findings_of found.items)) }
{
    let mut found = Vec::new(alloc);
    for node in 0..spans.len() {
        report_repetition(facts, spans[node], kind_of_node(facts, node), &mut found)?;
    }
    Ok(found)
}

/// Adds the findings of an alternative with others after it.
fn report_alternative<'i>(
    facts: &Facts,
    spans: &[Span<'i>],
    alternative: usize,
    found: &mut Vec<RuleFinding<'i>>,
) -> Result<(), AllocError>
    ensures { OnOk result (findings_of found.new.items
        ≡ findings_of found.old.items ++ unreachable_at facts.now spans.now alternative) }
{
    if alternative < spans.len() {
        let span = spans[alternative];
        if is_set(facts.certain.as_slice(), alternative) {
            add(RuleProblem::UnreachableChoices, span, found)?;
        }
    }
    Ok(())
}

/// Returns the last alternative of a node that is a choice, or else the node.
fn last_alternative(facts: &Facts, node: usize) -> usize
    ensures { result ≡ alternative_of (slice_get facts.now.table.kinds.items node) node }
{
    match facts.table.kinds.get(node) {
        Some(NodeKind::Choice(_, last)) => *last,
        _ => node,
    }
}

/// Adds the findings of a node as a choice.
fn report_choice<'i>(
    facts: &Facts,
    spans: &[Span<'i>],
    kind: Option<NodeKind>,
    found: &mut Vec<RuleFinding<'i>>,
) -> Result<(), AllocError>
    ensures { OnOk result (findings_of found.new.items
        ≡ findings_of found.old.items ++ choice_at facts.now spans.now kind) }
{
    if let Some(NodeKind::Choice(first, _)) = kind {
        report_alternative(facts, spans, last_alternative(facts, first), found)?;
    }
    Ok(())
}

/// Collects the findings of all nodes as choices.
pub(crate) fn choices<'i>(
    alloc: Global,
    facts: &Facts,
    spans: &[Span<'i>],
) -> Result<Vec<RuleFinding<'i>>, AllocError>
    ensures { IfOk result (λ found. (rules : List ParserRule) → AreFacts rules facts.now
        → AreSpans rules spans.now
        → Reports (OfChoice (grammar_of rules)) (all_nodes rules) (findings_of found.items)) }
{
    let mut found = Vec::new(alloc);
    for node in 0..spans.len() {
        report_choice(facts, spans, kind_of_node(facts, node), &mut found)?;
    }
    Ok(found)
}

/// Adds the findings of a rule as one that is skipped.
fn report_skipped<'i>(
    facts: &Facts,
    rule: &ParserRule<'i>,
    root: Option<usize>,
    found: &mut Vec<RuleFinding<'i>>,
) -> Result<(), AllocError>
    ensures { OnOk result (findings_of found.new.items
        ≡ findings_of found.old.items ++ skipped_at facts.now rule.now root) }
{
    if let Some(node) = root {
        if let Some(body) = LoopBody::of_rule(&rule.name) {
            report_repeated(facts, body, rule.node.span, node, found)?;
        }
    }
    Ok(())
}

/// Collects the findings of all rules as those that are skipped.
pub(crate) fn skips<'i>(
    alloc: Global,
    rules: &[ParserRule<'i>],
    facts: &Facts,
) -> Result<Vec<RuleFinding<'i>>, AllocError>
    requires { AreFacts rules.now facts.now }
    ensures { IfOk result (λ found. Reports (OfSkipped (grammar_of rules.now))
        (rule_views rules.now) (findings_of found.items)) }
{
    let mut found = Vec::new(alloc);
    for place in 0..rules.len() {
        report_skipped(facts, &rules[place], root_of_rule(facts, place), &mut found)?;
    }
    Ok(found)
}
