//! The search for left recursion from rules on a cycle of left calls: an iterative depth-first search in
//! the order of the text that enters no rule twice. One walk serves all rules, and is reset after each.
ghost use Rattle.std.specs.List.{join_by};
ghost use Rattle.std.specs.Prelude.{◌≡◌, ℕ, false, ◌<◌, ◌+◌, ◌++◌, ◌∷◌, [], List, Option, Some, None, true, IfOk, OnOk, IfNone, IfSome, length, slice_get, slice_set, string_bytes};
ghost use Rattle.base_language.specs.Language.Text.{Text};
ghost use Rattle.base_language.specs.Language.WellFormed.{Leads};
ghost use Rattle.front_spanned.specs.Nodes.{rule_views};
ghost use Rattle.front_spanned.specs.Spanned.{SpannedRule};
ghost use Rattle.base_graphs.specs.Least.{is_set_at};
ghost use Rattle.front_names.specs.Messages as spec;
ghost use Rattle.front_validator.specs.Cycles.{NoneRises};
ghost use Rattle.front_analysis.specs.Facts.{AreFacts};
ghost use Rattle.front_validator.specs.Findings.{OfRecursion, Reports, places};
ghost use Rattle.front_validator.specs.Flags.{NoneSet};
ghost use Rattle.front_validator.specs.LeftRecursion.{Means, arrows, name_at};
ghost use Rattle.front_analysis.specs.NameMaps.{KnowsRules};
ghost use Rattle.front_analysis.specs.Names.{grammar_of};
ghost use Rattle.front_analysis.specs.Nodes.{all_nodes};
ghost use Rattle.front_validator.specs.Guides.{IsGuide};
ghost use Rattle.front_validator.specs.Reporting.{AreSpans, finding_of, findings_of};
ghost use Rattle.front_validator.specs.Searching.{ordered, called_in, inside_of, cost, unentered, IsSearch, IsGoing, IsIdle, IsSearchResult, IsClosing, NeverComesBack};

use crate::cycles::{falls_from, has_no_cycle};
use crate::findings::kind_of_node;
use crate::flags::Flags;
use crate::levels::left_levels;
use crate::passing::passing;
use crate::problems::{RuleFinding, RuleProblem};
use base_graphs::is_set;
use base_language::runtime::Span;
use front_analysis::{Facts, Names, NodeKind, rule_of_name};
use front_spanned::ParserRule;
use std::alloc::{AllocError, Global};
use std::mem;

/// A task of the walk.
#[derive(Clone, Copy)]
pub enum Task {
    /// Walk over a node.
    Visit(usize),
    /// Leave the rule at the end of the trail.
    Leave,
}

/// The state of a walk.
#[derive(Drop)]
pub struct Walk {
    /// The rules that were entered.
    pub entered: Flags,
    /// The rules that were entered and not left, from the start on.
    pub trail: Vec<usize>,
    /// The worklist, the first task at the end.
    pub tasks: Vec<Task>,
}

/// The call that closes a trail of rules.
#[derive(Drop)]
pub struct ClosedTrail {
    /// The rules, from the start on.
    pub trail: Vec<usize>,
    /// The node of the call of the start.
    pub call: usize,
}

/// The input of a search for a trail: the rules, the facts of their nodes, and which nodes it may pass.
#[derive(Clone, Copy)]
pub struct Guide<'f, 'i> {
    pub rules: &'f [ParserRule<'i>],
    pub facts: &'f Facts,
    pub passing: &'f [bool],
}

/// Enters a rule, whose body is the node `root`.
fn enter_rule(walk: &mut Walk, rule: usize, root: usize) -> Result<(), AllocError>
    requires { rule < walk.old.entered.all.len }
    ensures entered { OnOk result (walk.new.entered.all.items
        ≡ slice_set walk.old.entered.all.items rule true) }
    ensures trail { OnOk result (walk.new.trail.items ≡ walk.old.trail.items ++ rule ∷ []) }
    ensures tasks { OnOk result (walk.new.tasks.items
        ≡ (walk.old.tasks.items ++ Task.Leave ∷ []) ++ Task.Visit root ∷ []) }
{
    walk.trail.push(rule)?;
    walk.tasks.push(Task::Leave)?;
    walk.tasks.push(Task::Visit(root))?;
    walk.entered.set(rule)?;
    Ok(())
}

/// Returns the rule that a node calls, if the node is a call.
fn called_by(kind: Option<NodeKind>) -> Option<usize>
    ensures { result ≡ called_in kind }
{
    match kind {
        Some(NodeKind::Call(rule)) => Some(rule),
        Some(NodeKind::EndCall(rule)) => Some(rule),
        _ => None,
    }
}

/// Pushes a node on the worklist.
fn push_node(tasks: &mut Vec<Task>, node: usize) -> Result<(), AllocError>
    ensures { OnOk result (tasks.new.items ≡ tasks.old.items ++ Task.Visit node ∷ []) }
{
    tasks.push(Task::Visit(node))?;
    Ok(())
}

/// Pushes two nodes on the worklist, the first one last.
fn push_nodes(tasks: &mut Vec<Task>, first: usize, second: usize) -> Result<(), AllocError>
    ensures { OnOk result (tasks.new.items ≡ tasks.old.items ++ Task.Visit second ∷ Task.Visit first ∷ []) }
{
    push_node(tasks, second)?;
    push_node(tasks, first)?;
    Ok(())
}

/// Pushes the nodes inside a node on the worklist, the first in the text last.
fn push_inside(
    tasks: &mut Vec<Task>,
    passing: &[bool],
    kind: Option<NodeKind>,
) -> Result<(), AllocError>
    ensures { OnOk result (tasks.new.items ≡ tasks.old.items ++ inside_of passing.now kind) }
{
    match kind {
        Some(NodeKind::Ahead(body) | NodeKind::NotAhead(body) | NodeKind::Free(body)) => push_node(
            tasks, body,
        ),
        Some(NodeKind::Inside(body) | NodeKind::Again(body) | NodeKind::OnceAgain(body)) =>
            push_node(tasks, body),
        Some(NodeKind::Seq(first, second)) => {
            if is_set(passing, first) {
                push_nodes(tasks, first, second)
            } else {
                push_node(tasks, first)
            }
        }
        Some(NodeKind::Choice(first, second)) => push_nodes(tasks, first, second),
        _ => Ok(()),
    }
}

/// Walks over a call of a rule that is not the start, and enters the rule, unless it was entered.
fn walk_call(facts: &Facts, walk: &mut Walk, rule: usize) -> Result<(), AllocError>
    requires roots { rule < facts.now.table.roots.len }
    requires flags { rule < walk.old.entered.all.len }
    ensures known { OnOk result (is_set_at walk.old.entered.all.items rule ≡ true → walk.new ≡ walk.old) }
    ensures entered { OnOk result (is_set_at walk.old.entered.all.items rule ≡ false
        → walk.new.entered.all.items ≡ slice_set walk.old.entered.all.items rule true) }
    ensures trail { OnOk result (is_set_at walk.old.entered.all.items rule ≡ false
        → walk.new.trail.items ≡ walk.old.trail.items ++ rule ∷ []) }
    ensures tasks { OnOk result (is_set_at walk.old.entered.all.items rule ≡ false → (root : ℕ)
        → slice_get facts.now.table.roots.items rule ≡ Some root
        → walk.new.tasks.items ≡ (walk.old.tasks.items ++ Task.Leave ∷ []) ++ Task.Visit root ∷ []) }
{
    if walk.entered.is_set(rule) {
        return Ok(());
    }
    let root = facts.table.root_at(rule);
    enter_rule(walk, rule, root)
}

/// Walks over a node. Answers whether the node is a call of the start, which closes the trail.
fn walk_node(
    guide: Guide<'_, '_>,
    start: usize,
    walk: &mut Walk,
    node: usize,
) -> Result<bool, AllocError>
    requires guide { IsGuide guide }
    requires going { (todo : List Task) × (path : List ℕ)
        × IsSearch guide.rules.now guide.facts.now.table.roots.items start walk.old.entered.all.items
        (Task.Visit node ∷ todo) path
        × (walk.old.tasks.items ≡ ordered todo) × (walk.old.trail.items ≡ ordered path) }
    ensures closes { IfOk result (λ closes. closes ≡ true → IsClosing guide.entry.rules.now
        guide.entry.facts.now.table.roots.items start node walk.new.trail.items) }
    ensures ends { IfOk result (λ closes. closes ≡ true → walk.new ≡ walk.old) }
    ensures goes_on { IfOk result (λ closes. closes ≡ false → IsGoing guide.entry.rules.now
        guide.entry.facts.now.table.roots.items
        start walk.new.entered.all.items walk.new.tasks.items walk.new.trail.items) }
    ensures less { IfOk result (λ closes. closes ≡ false
        → cost (all_nodes guide.entry.rules.now) walk.new.tasks.items
        + unentered walk.new.entered.all.items (rule_views guide.entry.rules.now)
        < cost (all_nodes guide.entry.rules.now) (walk.old.tasks.items ++ Task.Visit node ∷ [])
        + unentered walk.old.entered.all.items (rule_views guide.entry.rules.now)) }
{
    let kind = kind_of_node(guide.facts, node);
    match called_by(kind) {
        Some(called) => {
            if called == start {
                return Ok(true);
            }
            walk_call(guide.facts, walk, called)?;
        }
        None => push_inside(&mut walk.tasks, guide.passing, kind)?,
    }
    Ok(false)
}

/// Makes a walk over `rules`, not begun.
fn idle<'i>(alloc: Global, rules: &[ParserRule<'i>]) -> Result<Walk, AllocError>
    ensures { IfOk result (λ walk. IsIdle rules.now walk) }
{
    Ok(Walk {
        entered: Flags::new(alloc, rules.len())?,
        trail: Vec::new(alloc),
        tasks: Vec::new(alloc),
    })
}

/// Begins the walk from a rule by entering the rule.
fn begin(guide: Guide<'_, '_>, start: usize, walk: &mut Walk) -> Result<(), AllocError>
    requires guide { IsGuide guide }
    requires inside { start < length guide.rules.now }
    requires last { (r : SpannedRule) → slice_get (rule_views guide.rules.now) start ≡ Some r
        → Means (rule_views guide.rules.now) r.name start }
    requires idle { IsIdle guide.rules.now walk.old }
    ensures { OnOk result (IsGoing guide.entry.rules.now guide.entry.facts.now.table.roots.items
        start walk.new.entered.all.items walk.new.tasks.items walk.new.trail.items) }
{
    let root = guide.facts.table.root_at(start);
    enter_rule(walk, start, root)?;
    Ok(())
}

/// Ends a walk and resets its state.
fn end(walk: &mut Walk)
    ensures entered { NoneSet walk.new.entered.all.items }
    ensures long { length walk.new.entered.all.items ≡ length walk.old.entered.all.items }
    ensures trail { walk.new.trail.items ≡ [] }
    ensures tasks { walk.new.tasks.items ≡ [] }
{
    walk.entered.unset_all();
    walk.trail.clear();
    walk.tasks.clear();
}

/// Runs a walk to the first call of its start, and returns that call with the rules by which it came.
fn run_walk(
    alloc: Global,
    guide: Guide<'_, '_>,
    start: usize,
    walk: &mut Walk,
) -> Result<Option<ClosedTrail>, AllocError>
    requires guide { IsGuide guide }
    requires going { IsGoing guide.rules.now guide.facts.now.table.roots.items
        start walk.old.entered.all.items walk.old.tasks.items walk.old.trail.items }
    ensures none { IfOk result (λ found. IfNone found
        (IsSearchResult guide.entry.rules.now guide.entry.facts.now.table.roots.items start None
        × NeverComesBack guide.entry.rules.now guide.entry.facts.now.table.roots.items start)) }
    ensures some { IfOk result (λ found. IfSome found (λ closed. IsClosing guide.entry.rules.now
        guide.entry.facts.now.table.roots.items start closed.call closed.trail.items)) }
    ensures long { OnOk result (length walk.new.entered.all.items
        ≡ length (rule_views guide.entry.rules.now)) }
{
    while let Some(task) = walk.tasks.pop() {
        match task {
            Task::Leave => {
                let _left = walk.trail.pop();
            }
            Task::Visit(node) => {
                let closes = walk_node(guide, start, walk, node)?;
                if closes {
                    let trail = mem::replace(&mut walk.trail, Vec::new(alloc));
                    return Ok(Some(ClosedTrail { trail, call: node }));
                }
            }
        }
    }
    Ok(None)
}

/// Returns the first call of a rule to which the walk from there comes, with the rules by which it came.
fn find_trail(
    alloc: Global,
    guide: Guide<'_, '_>,
    start: usize,
    walk: &mut Walk,
) -> Result<Option<ClosedTrail>, AllocError>
    requires guide { IsGuide guide }
    requires inside { start < length guide.rules.now }
    requires last { (r : SpannedRule) → slice_get (rule_views guide.rules.now) start ≡ Some r
        → Means (rule_views guide.rules.now) r.name start }
    requires idle { IsIdle guide.rules.now walk.old }
    ensures none { IfOk result (λ found. IfNone found
        (IsSearchResult guide.entry.rules.now guide.entry.facts.now.table.roots.items start None
        × NeverComesBack guide.entry.rules.now guide.entry.facts.now.table.roots.items start)) }
    ensures some { IfOk result (λ found. IfSome found (λ closed. IsClosing guide.entry.rules.now
        guide.entry.facts.now.table.roots.items start closed.call closed.trail.items)) }
    ensures idle { OnOk result (IsIdle guide.entry.rules.now walk.new) }
{
    begin(guide, start, walk)?;
    let found = run_walk(alloc, guide, start, walk)?;
    end(walk);
    Ok(found)
}

/// Returns the name of the rule at an index, if there is one.
fn name_of<'r>(rules: &'r [ParserRule<'_>], place: usize) -> &'r str
    ensures { result.now ≡ name_at (slice_get (rule_views rules.entry.now) place) }
{
    match rules.get(place) {
        Some(rule) => rule.name.as_str(),
        None => "",
    }
}

/// Returns the names of the rules of a trail, and that of the first again.
fn cycle_of(
    alloc: Global,
    rules: &[ParserRule<'_>],
    trail: &[usize],
    first: &str,
) -> Result<Vec<String>, AllocError>
    ensures { IfOk result (λ names. join_by string_bytes spec.arrow names.items
        ≡ arrows (rule_views rules.now) trail.now ++ first.now) }
{
    let mut names = Vec::new(alloc);
    for rule in trail {
        let name = String::from_str(alloc, name_of(rules, *rule))?;
        names.push(name)?;
    }
    let last = String::from_str(alloc, first)?;
    names.push(last)?;
    Ok(names)
}

/// Reports whether the rule at an index is the last of its name.
fn is_last<'i>(rules: &[ParserRule<'i>], names: &Names, place: usize) -> bool
    requires known { KnowsRules rules.now names.now }
    requires inside { place < length rules.now }
    ensures yes { result ≡ true → (r : SpannedRule) → slice_get (rule_views rules.now) place ≡ Some r
        → Means (rule_views rules.now) r.name place }
    ensures no { result ≡ false → (r : SpannedRule) → slice_get (rule_views rules.now) place ≡ Some r
        → Means (rule_views rules.now) r.name place → ⊥ }
{
    match rule_of_name(names, &rules[place].name) {
        Some(last) => last == place,
        None => false,
    }
}

/// Reports whether a rule is the last of its name, and its left calls may return to it; no is definite.
fn may_come_back<'i>(
    rules: &[ParserRule<'i>],
    names: &Names,
    facts: &Facts,
    levels: &[usize],
    place: usize,
) -> bool
    requires known { KnowsRules rules.now names.now }
    requires facts { AreFacts rules.now facts.now }
    requires levels { NoneRises facts.now levels.now }
    requires inside { place < length rules.now }
    ensures last { result ≡ true → (r : SpannedRule) → slice_get (rule_views rules.now) place ≡ Some r
        → Means (rule_views rules.now) r.name place }
    ensures nothing { result ≡ false → OfRecursion (rule_views rules.now) place [] }
    ensures never { result ≡ false → NeverComesBack rules.now facts.now.table.roots.items place }
{
    if !is_last(rules, names, place) {
        return false;
    }
    !falls_from(facts, levels, place)
}

/// Searches the finding of the rule at an index, the last of its name, as left-recursive.
fn recursion_at<'i>(
    alloc: Global,
    guide: Guide<'_, 'i>,
    spans: &[Span<'i>],
    place: usize,
    walk: &mut Walk,
) -> Result<Option<RuleFinding<'i>>, AllocError>
    requires guide { IsGuide guide }
    requires spans { AreSpans guide.rules.now spans.now }
    requires inside { place < length guide.rules.now }
    requires last { (r : SpannedRule) → slice_get (rule_views guide.rules.now) place ≡ Some r
        → Means (rule_views guide.rules.now) r.name place }
    requires idle { IsIdle guide.rules.now walk.old }
    ensures idle { OnOk result (IsIdle guide.entry.rules.now walk.new) }
    ensures nothing { IfOk result (λ found. IfNone found
        (OfRecursion (rule_views guide.entry.rules.now) place [])) }
    ensures never { IfOk result (λ found. IfNone found
        (NeverComesBack guide.entry.rules.now guide.entry.facts.now.table.roots.items place)) }
    ensures some { IfOk result (λ found. IfSome found
        (λ finding. OfRecursion (rule_views guide.entry.rules.now) place (finding_of finding ∷ []))) }
{
    let rules = guide.rules;
    match find_trail(alloc, guide, place, walk)? {
        None => Ok(None),
        Some(closed) => {
            let first = rules[place].name.as_str();
            let cycle = cycle_of(alloc, rules, closed.trail.as_slice(), first)?;
            Ok(Some(RuleFinding {
                problem: RuleProblem::LeftRecursion(cycle),
                span: spans[closed.call],
            }))
        }
    }
}

/// Collects the findings of left recursion, rule by rule.
fn closed_trails<'i>(
    alloc: Global,
    rules: &[ParserRule<'i>],
    names: &Names,
    facts: &Facts,
    spans: &[Span<'i>],
) -> Result<Vec<RuleFinding<'i>>, AllocError>
    requires known { KnowsRules rules.now names.now }
    requires facts { AreFacts rules.now facts.now }
    requires spans { AreSpans rules.now spans.now }
    ensures exact { IfOk result (λ found. Reports (OfRecursion (rule_views rules.now))
        (places (rule_views rules.now)) (findings_of found.items)) }
    ensures none { IfOk result (λ found. findings_of found.items ≡ [] → (place : ℕ)
        → place < length rules.now → NeverComesBack rules.now facts.now.table.roots.items place) }
{
    let levels = left_levels(alloc, facts)?;
    let passing = passing(alloc, facts)?;
    let guide = Guide {
        rules,
        facts,
        passing: passing.as_slice(),
    };
    let mut walk = idle(alloc, rules)?;
    let mut found = Vec::new(alloc);
    for place in 0..rules.len() {
        if !may_come_back(rules, names, facts, levels.as_slice(), place) {
            continue;
        }
        match recursion_at(alloc, guide, spans, place, &mut walk)? {
            None => continue,
            Some(finding) => found.push(finding)?,
        }
    }
    Ok(found)
}

/// Collects the findings of left recursion, at most one for a name. If left calls have no cycle, which
/// a linear pass proves, there are none. Otherwise the search begins at every rule that is the last of
/// its name and on a cycle.
pub(crate) fn recursions<'i>(
    alloc: Global,
    rules: &[ParserRule<'i>],
    names: &Names,
    facts: &Facts,
    spans: &[Span<'i>],
) -> Result<Vec<RuleFinding<'i>>, AllocError>
    requires known { KnowsRules rules.now names.now }
    requires facts { AreFacts rules.now facts.now }
    requires spans { AreSpans rules.now spans.now }
    ensures exact { IfOk result (λ found. Reports (OfRecursion (rule_views rules.now))
        (places (rule_views rules.now)) (findings_of found.items)) }
    ensures none { IfOk result (λ found. findings_of found.items ≡ [] → (n : Text)
        → Leads (grammar_of rules.now) n n → ⊥) }
    ensures some { IfOk result (λ found. (findings_of found.items ≡ [] → ⊥) → (n : Text)
        × Leads (grammar_of rules.now) n n) }
{
    let falls = has_no_cycle(alloc, facts)?;
    if falls {
        return Ok(Vec::new(alloc));
    }
    let found = closed_trails(alloc, rules, names, facts, spans)?;
    Ok(found)
}
