//! Prints the trees of matches in preorder, and why there are none.
use crate::tags::PAIRS;
use matcher_engine::block::compile_block;
use matcher_engine::walk::text_name;
use matcher_support::compiled::CompiledGrammar;
use matcher_support::unicode_properties::UnicodeProperties;
use pest_meta::optimizer::release;
use pest_meta::parse_and_optimize;
use std::alloc::{AllocError, Global};
use std::io;

/// How many rules stand before the pairs in a large grammar.
const OTHER_RULES: usize = 4096;

/// A grammar of rules that refuse the characters of many ranges. `nested` ends soon on a long text, since
/// calls are remembered.
const MANY_RANGES: &str = "sign = @{ !XID_START ~ ANY }
signs = @{ (!LETTER ~ ANY)* }
word = { (!LETTER ~ ANY)* ~ \"x\" }
nested = { inner ~ EOI }
inner = { \"x\" ~ inner ~ \"y\" | \"x\" ~ inner ~ \"z\" | \"x\" }";

/// Prints the rule of each tree, its positions in bytes, and the number of trees up to its last descendant,
/// or why there is no match in `steps` steps at most.
fn print_trees(
    rt: &HostRuntime,
    block: &[u8],
    rule: &str,
    text: &str,
    steps: u64,
) -> io::Result<()> {
    let Ok(Some(compiled)) = CompiledGrammar::read(rt.alloc(), block) else {
        return eprintln!(rt; "out of memory");
    };
    match compiled.match_text(rt.alloc(), rule, text, Some(steps)) {
        Ok(found) => {
            for tree in &found.trees {
                let name = text_name(compiled.rule_names(), tree.rule);
                println!(rt; "{name}: {} to {}, {}", tree.start, tree.end, tree.after)?;
            }
            println!(rt; "end: {}, furthest failure: {}", found.end, found.furthest)
        }
        Err(refusal) => println!(rt; "{refusal:?}"),
    }
}

/// Returns the block of a grammar's optimized rules.
fn block_of(alloc: Global, grammar: &str) -> Option<Vec<u8>> {
    let (_builtins, rules) = parse_and_optimize(alloc, grammar).ok()?;
    let block = compile_block(alloc, &rules, &UnicodeProperties);
    release(rules);
    block.ok()
}

/// Returns the grammar of pairs behind many other rules. The only error is an allocation failure.
fn with_other_rules(alloc: Global) -> Result<String, AllocError> {
    let mut grammar = String::new(alloc);
    for number in 0..OTHER_RULES {
        let rule = format!(in alloc; "other{number} = {{ \"x\" }}\n")?;
        grammar.push_str(rule.as_str())?;
    }
    grammar.push_str(PAIRS)?;
    Ok(grammar)
}

/// Prints trees of a grammar of pairs, and a refusal for each reason.
fn print_pairs(rt: &HostRuntime, grammar: &str) -> io::Result<()> {
    let Some(block) = block_of(rt.alloc(), grammar) else {
        return eprintln!(rt; "the grammar of pairs gives no block");
    };
    print_trees(rt, &block, "pair", "left=-7", 1_000_000)?;
    print_trees(rt, &block, "pair", "left=?", 1_000_000)?;
    print_trees(rt, &block, "pair", "left=-7", 1)?;
    print_trees(rt, &block, "list", "left=-7", 1_000_000)
}

/// Prints what a rule answers that takes a text from the empty stack.
fn print_empty_stack(rt: &HostRuntime) -> io::Result<()> {
    match block_of(rt.alloc(), "taken = { POP }") {
        Some(block) => print_trees(rt, &block, "taken", "x", 1_000_000),
        None => eprintln!(rt; "the grammar of the stack gives no block"),
    }
}

/// Prints trees and refusals of rules that refuse the characters of many ranges.
fn print_many_ranges(rt: &HostRuntime) -> io::Result<()> {
    let Some(block) = block_of(rt.alloc(), MANY_RANGES) else {
        return eprintln!(rt; "the grammar of many ranges gives no block");
    };
    print_trees(rt, &block, "sign", "1", 1_000_000)?;
    print_trees(rt, &block, "sign", "x", 1_000_000)?;
    print_trees(rt, &block, "signs", "1+漢", 1_000_000)?;
    print_trees(rt, &block, "word", "1+x", 1_000_000)?;
    print_trees(
        rt,
        &block,
        "nested",
        "xxxxxxxxxxxxxxxxxxxxxxxxxxxxxx",
        1_000_000,
    )
}

/// Prints trees and refusals by a grammar of few rules, and by one of thousands.
pub fn print_examples(rt: &HostRuntime) -> io::Result<()> {
    print_pairs(rt, PAIRS)?;
    print_empty_stack(rt)?;
    print_many_ranges(rt)?;
    match with_other_rules(rt.alloc()) {
        Ok(grammar) => print_pairs(rt, grammar.as_str()),
        Err(_) => eprintln!(rt; "out of memory"),
    }
}
