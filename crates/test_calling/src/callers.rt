//! Use of the front end by a program, as CALLING.md describes it: callers, each proved.
ghost use Rattle.std.specs.Prelude.{◌≡◌, IfOk, map};
ghost use Rattle.test_calling.specs.NamedPlaces.{AreNamedPlaces, named_place, named_place_of};
ghost use Rattle.front_spanned.specs.Nodes.{rule_views};
ghost use Rattle.pest_meta.specs.Spelling.{IsAnswer};

use matcher_engine::block::{BlockStop, compile_block};
use matcher_program::compile::Unfit;
use matcher_support::compiled::CompiledGrammar;
use matcher_support::shown::tree_text;
use matcher_support::tags::entries::{TaggedEntry, tag_entries};
use matcher_support::unicode_properties::UnicodeProperties;
use pest_meta::optimizer::OptimizedRule;
use pest_meta::parser::{ParserRule, Rule, consume_rules_with_spans, parse};
use pest_meta::runtime::Fault;
use pest_meta::{Report, parse_and_optimize, unwrap_or_report};
use std::alloc::{AllocError, Global};
use std::io;

/// Returns the builtins and the optimized rules of `grammar`, or the printed report of its errors.
pub fn optimized_rules<'i>(
    alloc: Global,
    grammar: &'i str,
) -> Result<(Vec<&'i str>, Vec<OptimizedRule>), Report>
    ensures { IfOk result (λ answer. IsAnswer grammar.entry.now answer.0.items answer.1.items) }
{
    unwrap_or_report(alloc, parse_and_optimize(alloc, grammar))
}

/// Returns the names of a grammar's rules, in order, each with its line and column.
pub fn named_places(alloc: Global, grammar: &str) -> Result<Vec<(String, (usize, usize))>, Fault>
    ensures { IfOk result (λ places. AreNamedPlaces grammar.now places.items) }
{
    let pairs = parse(alloc, Rule::grammar_rules, grammar)?;
    let rules = consume_rules_with_spans(alloc, pairs)?;
    Ok(places(alloc, rules)?)
}

/// Returns the names of rules, each with its line and column.
fn places(
    alloc: Global,
    rules: Vec<ParserRule<'_>>,
) -> Result<Vec<(String, (usize, usize))>, AllocError>
    ensures { IfOk result
        (λ places. map named_place_of places.items ≡ map named_place (rule_views rules.entry.items)) }
{
    let mut places = Vec::new(alloc);
    for rule in rules {
        let place = rule.span.start_pos().line_col();
        places.push((rule.name, place))?;
    }
    Ok(places)
}

/// Prints the trees of the match of the rule named `rule` on `text`, or why there is no match.
pub fn print_trees(
    rt: &HostRuntime,
    rules: &[OptimizedRule],
    rule: &str,
    text: &str,
) -> io::Result<()> {
    let alloc = rt.alloc();
    let block = match compile_block(alloc, rules, &UnicodeProperties) {
        Ok(block) => block,
        Err(Unfit::Memory) => return eprintln!(rt; "out of memory"),
        Err(_) => return eprintln!(rt; "these rules cannot be run"),
    };
    let Ok(Some(compiled)) = CompiledGrammar::read(alloc, &block) else {
        return eprintln!(rt; "out of memory");
    };
    match compiled.match_text(alloc, rule, text, None) {
        Ok(found) => match tree_text(alloc, text, compiled.walk(alloc, &found)) {
            Ok(lines) => print!(rt; "{lines}"),
            Err(_) => eprintln!(rt; "out of memory"),
        },
        Err(BlockStop::NoMatch(place)) => eprintln!(rt;
            "no match: it gets no further than byte {place}"
        ),
        Err(BlockStop::NoRule) => eprintln!(rt; "no rule {rule}"),
        Err(_) => eprintln!(rt; "stopped"),
    }
}

/// Prints each tag of a match on `text`, with the part of the text that it is on.
pub fn print_tags(
    rt: &HostRuntime,
    wrapped: &CompiledGrammar<'_>,
    rule: &str,
    text: &str,
) -> io::Result<()> {
    let alloc = rt.alloc();
    let Ok(found) = wrapped.match_text(alloc, rule, text, None) else {
        return eprintln!(rt; "no match");
    };
    let Ok(entries) = tag_entries(alloc, wrapped.walk(alloc, &found)) else {
        return eprintln!(rt; "out of memory");
    };
    let mut start = 0;
    for entry in &entries {
        match entry {
            TaggedEntry::Start { pos, .. } => start = *pos,
            TaggedEntry::End { pos, tag } => {
                if let (Some(tag), Some(part)) = (tag, text.get(start..*pos)) {
                    println!(rt; "{tag}: {part:?}")?;
                }
            }
        }
    }
    Ok(())
}
