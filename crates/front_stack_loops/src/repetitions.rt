//! The stack pass, the entry points.
ghost use Rattle.std.specs.Prelude.{◌≡◌, ◌<◌, ◌&&◌, not, IfOk, IfErr, IfSome, OnOk, MatchOption, alloc_error, map, is_some, List, [], ◌∷◌};
ghost use Rattle.std.specs.List.{filter};
ghost use Rattle.std.specs.Str.{IsAscii};
ghost use Rattle.base_language.specs.Language.Expression.{whitespace, comment, last_place};
ghost use Rattle.base_language.specs.Pieces.Saying.{AreErrorsFor};
ghost use Rattle.base_graphs.specs.Least.{is_set_at};
ghost use Rattle.front_spanned.specs.Nodes.{rule_views, piece_of};
ghost use Rattle.front_spanned.specs.declared.node.ParserRule.{ParserRule};
ghost use Rattle.front_analysis.specs.Facts.{AreFacts, AreNullable};
ghost use Rattle.front_analysis.specs.Analysis.{IsAnalysis};
ghost use Rattle.front_analysis.specs.Resolved.{IsResolved};
ghost use Rattle.front_stack_domain.specs.Reports.{skips_in};
ghost use Rattle.front_stack_loops.specs.Certain.{AreFound, AreReports, IsSorted, AreErrorsOfReports, complaint_at};
ghost use Rattle.front_stack_loops.specs.Expressions.{body_flag, name_flag};
ghost use Rattle.front_analysis.specs.NameMaps.{KnowsRules};
ghost use Rattle.front_analysis.specs.Names.{grammar_of};
ghost use Rattle.front_stack_loops.specs.Table.{AreInside, IsOrdered};
ghost use Rattle.front_stack_loops.specs.Reportable.{FindsMore, IsToVisit};
ghost use Rattle.front_stack_loops.specs.Visiting.{FindsAll, Keeps};

use crate::apart::apart_of;
use crate::facts::{Question, answers, is_root_set, nodes_of_rule};
use crate::kinds::nodes_with_kinds;
use crate::memory::Memory;
use crate::reader::read;
use crate::recursion::{Calls, calls_of};
use crate::reportable::{is_some_root_set, reportable_nodes};
use crate::table::Table;
use crate::visits::{Pending, visit};
use base_graphs::{is_set, numbers};
use base_language::grammar::Rule;
use base_language::runtime::{Error, ErrorVariant, Fault, Span, Survey};
use front_analysis::{Analysis, Facts, Names, ResolvedGrammar, facts_of, resolve};
use front_names::{comment_name, non_progressing, repeated_expression, whitespace_name};
use front_spanned::ParserRule;
use front_stack_domain::Stack;
use std::alloc::{AllocError, Global};

/// The number of abstract stacks.
const ABSTRACT_STACKS: usize = 3066;

/// The greatest number of turns of a repetition that are followed. Among this number of turns, one
/// starts from a stack that was seen.
const MOST_TURNS: usize = ABSTRACT_STACKS + 1;

/// The number of turns that the loop search follows.
const SEARCHED_TURNS: usize = 64;

/// Whether the flag of the body of the rule of that name is set.
fn is_body_set(names: &Names, roots: &[usize], flags: &[bool], name: &str) -> bool
    requires { IsAscii name.now }
    ensures { (rules : List ParserRule) → KnowsRules rules names.now
        → result ≡ body_flag roots.now flags.now (last_place (grammar_of rules) name.now) }
{
    match names.place_of(name) {
        Some(rule) => is_root_set(roots, flags, rule),
        None => false,
    }
}

/// Whether there is a rule of that name.
fn is_defined(names: &Names, name: &str) -> bool
    requires { IsAscii name.now }
    ensures { (rules : List ParserRule) → KnowsRules rules names.now
        → result ≡ is_some (last_place (grammar_of rules) name.now) }
{
    names.place_of(name).is_some()
}

/// Whether something may be skipped between the parts of a sequence.
fn is_skipping(names: &Names) -> bool
    ensures { (rules : List ParserRule) → KnowsRules rules names.now
        → result ≡ skips_in (grammar_of rules) }
{
    is_defined(names, whitespace_name()) || is_defined(names, comment_name())
}

/// Whether the implicit whitespace leaves the stack alone, by the flags of nodes that change it.
fn leaves_stack(names: &Names, roots: &[usize], flags: &[bool]) -> bool
    ensures { (rules : List ParserRule) → KnowsRules rules names.now
        → result ≡ (not (name_flag (grammar_of rules) roots.now flags.now whitespace)
        && not (name_flag (grammar_of rules) roots.now flags.now comment)) }
{
    !is_body_set(names, roots, flags, whitespace_name())
        && !is_body_set(names, roots, flags, comment_name())
}

/// Returns which nodes may take nothing, copied from the facts that are lent, or computed if none are.
fn nullable_flags(
    alloc: Global,
    grammar: &ResolvedGrammar<'_, '_>,
    lent: Option<&Facts>,
) -> Result<Vec<bool>, AllocError>
    requires resolved { IsResolved grammar.now }
    requires facts { IfSome lent (λ facts. AreFacts grammar.now.rules.now facts.now) }
    ensures { IfOk result (λ flags. AreNullable grammar.now.rules.now flags.items) }
{
    match lent {
        Some(facts) => facts.copy_nullable(alloc),
        None => {
            let Facts { nullable, .. } = facts_of(alloc, grammar)?;
            Ok(nullable)
        }
    }
}

/// The table to visit, and the nodes worth a visit.
#[derive(Drop)]
pub struct ToVisit<'n, 'i> {
    /// The table of rules.
    pub table: Table<'n, 'i>,
    /// In which of its nodes something may be reported.
    pub reportable: Vec<bool>,
}

/// Returns the table to visit, or `None` if nothing is reported, which is mostly seen before the call graph
/// is searched.
fn to_visit_in<'n, 'i>(
    alloc: Global,
    grammar: &ResolvedGrammar<'n, 'i>,
    lent: Option<&Facts>,
) -> Result<Option<ToVisit<'n, 'i>>, AllocError>
    requires resolved { IsResolved grammar.now }
    requires facts { IfSome lent (λ facts. AreFacts grammar.now.rules.now facts.now) }
    ensures { IfOk result (λ found. MatchOption found (AreFound (rule_views grammar.now.rules.now) [])
        (λ visited. IsToVisit grammar.now.rules.now visited)) }
{
    let nodes = nodes_with_kinds(alloc, grammar)?;
    let roots = grammar.table.copy_roots(alloc)?;
    let reportable = reportable_nodes(alloc, roots.as_slice(), nodes.as_slice())?;
    if !is_some_root_set(roots.as_slice(), reportable.as_slice()) {
        return Ok(None);
    }
    let changing = answers(
        alloc,
        Question::AltersStack,
        roots.as_slice(),
        nodes.as_slice(),
    )?;
    if !leaves_stack(&grammar.names, roots.as_slice(), changing.as_slice()) {
        return Ok(None);
    }
    let nullable = nullable_flags(alloc, grammar, lent)?;
    let Calls { recursive, ranks } = calls_of(alloc, roots.as_slice(), nodes.as_slice())?;
    let table = Table {
        nodes,
        roots,
        recursive,
        ranks,
        nullable,
        skips: is_skipping(&grammar.names),
        limit: MOST_TURNS,
        turns: SEARCHED_TURNS,
    };
    Ok(Some(ToVisit { table, reportable }))
}

/// Returns the rules by their ranks, the lowest first.
fn by_rank<'n, 'i>(alloc: Global, table: &Table<'n, 'i>) -> Result<Vec<usize>, AllocError> {
    let mut order = numbers(alloc, table.roots.len())?;
    order.sort_by_key(|rule| table.rank_of_rule(*rule))?;
    Ok(order)
}

/// Reads the body of a rule from the abstract stack at the start of a rule, if the rule is flagged.
fn read_body<'n, 'i>(
    alloc: Global,
    table: &Table<'n, 'i>,
    wanted: &[bool],
    memory: &mut Memory,
    rule: usize,
) -> Result<(), AllocError>
    requires { IsOrdered table.now }
    ensures { OnOk result (Keeps table.now memory.old memory.new) }
{
    if !is_set(wanted, rule) {
        return Ok(());
    }
    match table.roots.get(rule) {
        None => Ok(()),
        Some(root) => {
            if *root < table.nodes.len() {
                read(alloc, table, memory, *root, Stack::entry())?;
            }
            Ok(())
        }
    }
}

/// Flags a rule.
fn want(wanted: &mut Vec<bool>, rule: usize) {
    if rule < wanted.len() {
        wanted[rule] = true;
    }
}

/// Flags a rule in whose body something may be reported. If a rule is flagged, flags the rules that it
/// calls by calls that are followed.
fn want_with_calls<'n, 'i>(
    table: &Table<'n, 'i>,
    reportable: &[bool],
    wanted: &mut Vec<bool>,
    rule: usize,
) {
    if is_root_set(table.roots.as_slice(), reportable, rule) {
        want(wanted, rule);
    }
    if !is_set(wanted.as_slice(), rule) {
        return;
    }
    let (first, root) = nodes_of_rule(table.roots.as_slice(), rule);
    for place in first..root {
        want_call(table, wanted, place);
    }
    want_call(table, wanted, root);
}

/// Flags the rule that a node calls, if the call is followed.
fn want_call<'n, 'i>(table: &Table<'n, 'i>, wanted: &mut Vec<bool>, place: usize) {
    let Some(node) = table.nodes.get(place) else {
        return;
    };
    let Some(rule) = node.kind.called_rule() else {
        return;
    };
    if table.followed_body(rule).is_some() {
        want(wanted, rule);
    }
}

/// Returns flags of the rules in whose bodies something may be reported, and of those that they lead to by
/// calls that are followed; `order` has all rules, those of lower ranks first.
fn wanted_of<'n, 'i>(
    alloc: Global,
    table: &Table<'n, 'i>,
    reportable: &[bool],
    order: &[usize],
) -> Result<Vec<bool>, AllocError> {
    let mut wanted = vec![in alloc; false; table.roots.len()]?;
    for done in 0..order.len() {
        want_with_calls(
            table,
            reportable,
            &mut wanted,
            order[order.len() - 1 - done],
        );
    }
    Ok(wanted)
}

/// Reads the bodies that are visited, and those that they lead to, in topological order of the calls (lower
/// ranks first), so that no reading goes deep along calls.
fn read_wanted<'n, 'i>(
    alloc: Global,
    table: &Table<'n, 'i>,
    reportable: &[bool],
    memory: &mut Memory,
) -> Result<(), AllocError>
    requires { IsOrdered table.now }
    ensures { OnOk result (Keeps table.now memory.old memory.new) }
{
    let order = by_rank(alloc, table)?;
    let wanted = wanted_of(alloc, table, reportable, order.as_slice())?;
    for rule in &order {
        read_body(alloc, table, wanted.as_slice(), memory, *rule)?;
    }
    Ok(())
}

/// Appends the repetitions that are reported in a body, if something may be.
fn visit_body<'n, 'i>(
    alloc: Global,
    table: &Table<'n, 'i>,
    reportable: &[bool],
    memory: &mut Memory,
    body: usize,
    found: &mut Vec<Span<'i>>,
) -> Result<(), AllocError>
    requires inside { body < table.now.nodes.len }
    requires ordered { IsOrdered table.now }
    ensures kept { OnOk result (Keeps table.now memory.old memory.new) }
    ensures found { OnOk result (FindsMore table.now reportable.now memory.old body
        found.old.items found.new.items) }
{
    if !is_set(reportable, body) {
        return Ok(());
    }
    let start = Pending {
        node: body,
        stacks: vec![in alloc; Stack::entry(); 1]?,
    };
    visit(alloc, table, memory, start, found)?;
    Ok(())
}

/// Returns the repetitions that are reported in the rules' bodies, one body after another; bodies in which
/// nothing can be reported are left out.
fn visit_all<'n, 'i>(
    alloc: Global,
    table: &Table<'n, 'i>,
    reportable: &[bool],
) -> Result<Vec<Span<'i>>, AllocError>
    requires ordered { IsOrdered table.now }
    requires inside { AreInside table.now }
    ensures { IfOk result (λ found. FindsAll table.now
        (filter (is_set_at reportable.now) table.now.roots.items) found.items) }
{
    let apart = apart_of(alloc, table)?;
    let mut memory = Memory::new(alloc, apart);
    read_wanted(alloc, table, reportable, &mut memory)?;
    let mut found = Vec::new(alloc);
    for rule in 0..table.roots.len() {
        visit_body(
            alloc,
            table,
            reportable,
            &mut memory,
            table.roots[rule],
            &mut found,
        )?;
    }
    Ok(found)
}

/// Returns the spans of all reports, one body after another.
fn all_reports<'i>(
    alloc: Global,
    grammar: &ResolvedGrammar<'_, 'i>,
    lent: Option<&Facts>,
) -> Result<Vec<Span<'i>>, AllocError>
    requires resolved { IsResolved grammar.now }
    requires facts { IfSome lent (λ facts. AreFacts grammar.now.rules.now facts.now) }
    ensures { IfOk result (λ found.
        AreFound (rule_views grammar.now.rules.now) (map piece_of found.items)) }
{
    match to_visit_in(alloc, grammar, lent)? {
        None => Ok(Vec::new(alloc)),
        Some(visited) => visit_all(alloc, &visited.table, visited.reportable.as_slice()),
    }
}

/// Sorts spans by start, then end.
fn sort_spans<'i>(found: &mut Vec<Span<'i>>) -> Result<(), AllocError>
    ensures { OnOk result (IsSorted (map piece_of found.old.items) (map piece_of found.new.items)) }
{
    found.sort_by_key(|span| (span.start(), span.end()))?;
    Ok(())
}

/// Returns the spans of the repetitions that `validate_stack_repetition` reports, by start, then end. The
/// only error is an allocation failure.
pub fn sorted_reports<'i>(
    alloc: Global,
    rules: &[ParserRule<'i>],
) -> Result<Vec<Span<'i>>, AllocError>
    ensures exact { IfOk result (λ found. AreReports (rule_views rules.now) (map piece_of found.items)) }
{
    let grammar = resolve(alloc, rules)?;
    let mut found = all_reports(alloc, &grammar, None)?;
    sort_spans(&mut found)?;
    Ok(found)
}

/// Returns the spans of `sorted_reports`, by an analysis of the rules that is lent. The only error is an
/// allocation failure.
pub fn sorted_reports_in<'i>(
    alloc: Global,
    groundwork: &Analysis<'_, 'i>,
) -> Result<Vec<Span<'i>>, AllocError>
    requires { IsAnalysis groundwork.now }
    ensures exact { IfOk result (λ found.
        AreReports (rule_views groundwork.now.grammar.rules.now) (map piece_of found.items)) }
{
    let Analysis { grammar, facts } = groundwork;
    let mut found = all_reports(alloc, grammar, Some(facts))?;
    sort_spans(&mut found)?;
    Ok(found)
}

/// Returns the error that reports a repetition, with the line and column that the survey finds.
fn error_at<'i>(
    alloc: Global,
    survey: &mut Survey<'_>,
    span: Span<'i>,
) -> Result<Error<Rule>, Fault>
    ensures tells { IfOk result (λ error.
        AreErrorsFor (complaint_at (piece_of span.entry) ∷ []) (error ∷ [])) }
    ensures memory { IfErr result (λ fault. fault ≡ Fault.Memory alloc_error) }
{
    let message = non_progressing(alloc, repeated_expression())?;
    let variant = ErrorVariant::CustomError { message };
    let error = Error::new_where_surveyed(alloc, variant, survey, span)?;
    Ok(error)
}

/// Returns the input of the first span, which is that of all spans if they are of one text.
fn first_text<'i>(found: &[Span<'i>]) -> &'i str {
    match found.first() {
        Some(span) => span.get_input(),
        None => "",
    }
}

/// Returns the errors that report repetitions, in their order.
fn errors_at<'i>(alloc: Global, found: &[Span<'i>]) -> Result<Vec<Error<Rule>>, Fault>
    ensures told { IfOk result (λ errors.
        AreErrorsFor (map complaint_at (map piece_of found.now)) errors.items) }
    ensures memory { IfErr result (λ fault. fault ≡ Fault.Memory alloc_error) }
{
    let mut errors = Vec::new(alloc);
    let mut survey = Survey::new(alloc, first_text(found))?;
    for place in 0..found.len() {
        let error = error_at(alloc, &mut survey, found[place])?;
        errors.push(error)?;
    }
    Ok(errors)
}

/// Reports the repetitions `e*`, `e+` and `e{n,}` that certainly never end because of the stack, as in `a =
/// { POP_ALL ~ PEEK_ALL* }`, by start, then end. The span of an error is that of the repetition. The only
/// fault is an allocation failure.
pub fn validate_stack_repetition<'i>(
    alloc: Global,
    rules: &Vec<ParserRule<'i>>,
) -> Result<Vec<Error<Rule>>, Fault>
    ensures exact { IfOk result (λ errors. AreErrorsOfReports (rule_views rules.now.items) errors.items) }
    ensures memory { IfErr result (λ fault. fault ≡ Fault.Memory alloc_error) }
{
    let found = sorted_reports(alloc, rules.as_slice())?;
    errors_at(alloc, found.as_slice())
}
