//! Prints the tags of texts with a key and a value.
use crate::callers::print_tags;
use matcher_engine::block::compile_block;
use matcher_support::compiled::CompiledGrammar;
use matcher_support::tags::wrapped::wrap_rules;
use matcher_support::unicode_properties::UnicodeProperties;
use pest_meta::optimizer::release;
use pest_meta::parse_and_optimize;
use std::io;

/// The grammar of pairs.
pub(crate) const PAIRS: &str = "pair = { #key = name ~ \"=\" ~ #value = (sign? ~ digits) }
    name = @{ ASCII_ALPHA+ }
    sign = { \"-\" }
    digits = @{ ASCII_DIGIT+ }";

/// Prints the tags in a text, by the rule of a name of a grammar.
fn print_tags_of(rt: &HostRuntime, grammar: &str, rule: &str, text: &str) -> io::Result<()> {
    let alloc = rt.alloc();
    let Ok((_builtins, rules)) = parse_and_optimize(alloc, grammar) else {
        return eprintln!(rt; "the grammar is refused");
    };
    let wrapped = wrap_rules(alloc, &rules);
    release(rules);
    let Ok(wrapped) = wrapped else {
        return eprintln!(rt; "out of memory");
    };
    let Ok(block) = compile_block(alloc, &wrapped.value, &UnicodeProperties) else {
        return eprintln!(rt; "these rules cannot be run");
    };
    match CompiledGrammar::read(alloc, &block) {
        Ok(Some(compiled)) => print_tags(rt, &compiled, rule, text),
        _ => eprintln!(rt; "out of memory"),
    }
}

/// Prints the tags of a text without and of one with a sign.
pub fn print_examples(rt: &HostRuntime) -> io::Result<()> {
    print_tags_of(rt, PAIRS, "pair", "width=80")?;
    print_tags_of(rt, PAIRS, "pair", "left=-7")
}
