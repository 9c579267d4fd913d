//! The front end as a library for C and for Rust: texts and JSON go in, JSON goes out into a buffer of the
//! caller. include/pest_meta.h has the calls.
//!
//! Inputs are UTF-8. Outputs are JSON (docs/FORMAT.md) with positions in bytes. Every call returns a status:
//! - 0 for an answer, and 1 for a refusal: JSON is at the start of `out`, and its length is in `needed`;
//! - 2 if an allocation fails, and 3 if an input is not UTF-8: nothing is written, and `needed` is 0;
//! - 4 if `out` is too small: nothing is written, and the length of the JSON is in `needed`.
//!
//! `pest_meta_diagnostics` writes lines of JSON, `pest_meta_grammar` the binary form, and
//! `pest_meta_token_numbers` numbers. The calls on compiled grammars return lists that the caller owns, and
//! have more statuses.
#![tactic(auto)]

mod calls;
mod compiled;
mod diagnostics;
mod handing;
mod names;
mod outcome;
mod paths;
mod web;

ghost use Rattle.std.specs.Prelude.{◌≡◌, ◌≢◌};
ghost use Rattle.std.specs.Str.{IsUtf8};
ghost use Rattle.pest_meta_c.specs.Answers.{AreKeywordErrors, AreNames, AreNodes, AreOptimized, AreRules, AreTokenNumbers, AreTokens, IsGrammar, IsPrepared, IsVersion, IsWhole};
ghost use Rattle.pest_meta.specs.Spelling.{HasAnswer};
ghost use Rattle.pest_meta_c.specs.Diagnostics.{AreDiagnostics};
ghost use Rattle.pest_meta_c.specs.Handing.{HandsOver, HandsOverNumbers};
ghost use Rattle.pest_meta_c.specs.Refusals.{HasNoMatch, HasNoNames, HasNoNodes, HasNoRules, HasNoTokens, IsNoOptimized, IsNoRules, IsRefused, Never};

use handing::{hand_over, hand_over_bytes, hand_over_numbers, no_text};
use std::alloc::Global;

/// Writes the tokens of a text for the rule of the meta-grammar of that name, from the text's start on.
#[unsafe(no_mangle)]
pub extern "C" fn pest_meta_tokens(
    alloc: Global,
    text: &[u8],
    rule: &[u8],
    out: &mut [u8],
    needed: &mut usize,
) -> u8
    ensures hands { HandsOver (AreTokens text.now rule.now) (HasNoTokens text.now rule.now)
        out.old out.new needed.new result }
    ensures texts { result ≢ 3 → IsUtf8 text.now × IsUtf8 rule.now }
    ensures no_texts { result ≡ 3 → IsUtf8 text.now × IsUtf8 rule.now → ⊥ }
{
    match (str::from_utf8(text), str::from_utf8(rule)) {
        (Ok(text), Ok(rule)) => hand_over(out, needed, calls::tokens(alloc, text, rule)),
        _ => no_text(needed),
    }
}

/// Writes the same tokens as numbers. A refusal has none.
#[unsafe(no_mangle)]
pub extern "C" fn pest_meta_token_numbers(
    alloc: Global,
    text: &[u8],
    rule: &[u8],
    out: &mut [usize],
    needed: &mut usize,
) -> u8
    ensures hands { HandsOverNumbers (AreTokenNumbers text.now rule.now) (HasNoMatch text.now rule.now)
        out.old out.new needed.new result }
    ensures texts { result ≢ 3 → IsUtf8 text.now × IsUtf8 rule.now }
    ensures no_texts { result ≡ 3 → IsUtf8 text.now × IsUtf8 rule.now → ⊥ }
{
    match (str::from_utf8(text), str::from_utf8(rule)) {
        (Ok(text), Ok(rule)) => {
            hand_over_numbers(out, needed, calls::token_numbers(alloc, text, rule))
        }
        _ => no_text(needed),
    }
}

/// Writes the builtins that a grammar uses.
#[unsafe(no_mangle)]
pub extern "C" fn pest_meta_names(
    alloc: Global,
    text: &[u8],
    out: &mut [u8],
    needed: &mut usize,
) -> u8
    ensures hands { HandsOver (AreNames text.now) (HasNoNames text.now) out.old out.new needed.new result }
    ensures text { result ≢ 3 → IsUtf8 text.now }
    ensures no_text { result ≡ 3 → IsUtf8 text.now → ⊥ }
{
    match str::from_utf8(text) {
        Ok(text) => hand_over(out, needed, calls::names(alloc, text)),
        Err(_) => no_text(needed),
    }
}

/// Writes a list of errors. If `name` is a keyword of Rust, it has one error with the span of the name. If
/// not, it is empty.
#[unsafe(no_mangle)]
pub extern "C" fn pest_meta_rust_keyword(
    alloc: Global,
    name: &[u8],
    out: &mut [u8],
    needed: &mut usize,
) -> u8
    ensures hands { HandsOver (AreKeywordErrors name.now) Never out.old out.new needed.new result }
    ensures text { result ≢ 3 → IsUtf8 name.now }
    ensures no_text { result ≡ 3 → IsUtf8 name.now → ⊥ }
{
    match str::from_utf8(name) {
        Ok(name) => hand_over(out, needed, calls::rust_keyword(alloc, name)),
        Err(_) => no_text(needed),
    }
}

/// Writes the rules that a grammar's text spells, if they have no errors; its names are not checked.
#[unsafe(no_mangle)]
pub extern "C" fn pest_meta_rules(
    alloc: Global,
    text: &[u8],
    out: &mut [u8],
    needed: &mut usize,
) -> u8
    ensures hands { HandsOver (AreRules text.now) (HasNoRules text.now) out.old out.new needed.new result }
    ensures text { result ≢ 3 → IsUtf8 text.now }
    ensures no_text { result ≡ 3 → IsUtf8 text.now → ⊥ }
{
    match str::from_utf8(text) {
        Ok(text) => hand_over(out, needed, calls::rules(alloc, text)),
        Err(_) => no_text(needed),
    }
}

/// Writes the rules that a grammar's text spells, with the spans of their names and nodes. Neither names nor
/// rules are checked.
#[unsafe(no_mangle)]
pub extern "C" fn pest_meta_nodes(
    alloc: Global,
    text: &[u8],
    out: &mut [u8],
    needed: &mut usize,
) -> u8
    ensures hands { HandsOver (AreNodes text.now) (HasNoNodes text.now) out.old out.new needed.new result }
    ensures text { result ≢ 3 → IsUtf8 text.now }
    ensures no_text { result ≡ 3 → IsUtf8 text.now → ⊥ }
{
    match str::from_utf8(text) {
        Ok(text) => hand_over(out, needed, calls::nodes(alloc, text)),
        Err(_) => no_text(needed),
    }
}

/// Writes optimized rules, for rules in JSON.
#[unsafe(no_mangle)]
pub extern "C" fn pest_meta_optimize(
    alloc: Global,
    rules: &[u8],
    out: &mut [u8],
    needed: &mut usize,
) -> u8
    ensures hands { HandsOver (AreOptimized rules.now) (IsNoRules rules.now)
        out.old out.new needed.new result }
    ensures text { result ≢ 3 → IsUtf8 rules.now }
    ensures no_text { result ≡ 3 → IsUtf8 rules.now → ⊥ }
{
    match str::from_utf8(rules) {
        Ok(rules) => hand_over(out, needed, calls::optimize(alloc, rules)),
        Err(_) => no_text(needed),
    }
}

/// Writes the builtins that a grammar uses, and its optimized rules.
#[unsafe(no_mangle)]
pub extern "C" fn pest_meta_parse_and_optimize(
    alloc: Global,
    text: &[u8],
    out: &mut [u8],
    needed: &mut usize,
) -> u8
    ensures hands { HandsOver (IsWhole text.now) (IsRefused text.now) out.old out.new needed.new result }
    ensures text { result ≢ 3 → IsUtf8 text.now }
    ensures no_text { result ≡ 3 → IsUtf8 text.now → ⊥ }
{
    match str::from_utf8(text) {
        Ok(text) => hand_over(out, needed, calls::parse_and_optimize(alloc, text)),
        Err(_) => no_text(needed),
    }
}

/// Writes the builtins that a grammar uses, its rules and its optimized rules, in binary form.
#[unsafe(no_mangle)]
pub extern "C" fn pest_meta_grammar(
    alloc: Global,
    text: &[u8],
    out: &mut [u8],
    needed: &mut usize,
) -> u8
    ensures hands { HandsOver (IsGrammar text.now) (IsRefused text.now) out.old out.new needed.new result }
    ensures text { result ≢ 3 → IsUtf8 text.now }
    ensures no_text { result ≡ 3 → IsUtf8 text.now → ⊥ }
{
    match str::from_utf8(text) {
        Ok(text) => hand_over_bytes(out, needed, calls::grammar(alloc, text)),
        Err(_) => no_text(needed),
    }
}

/// Writes optimized rules in binary form, for optimized rules in JSON.
#[unsafe(no_mangle)]
pub extern "C" fn pest_meta_prepare(
    alloc: Global,
    rules: &[u8],
    out: &mut [u8],
    needed: &mut usize,
) -> u8
    ensures hands { HandsOver (IsPrepared rules.now) (IsNoOptimized rules.now)
        out.old out.new needed.new result }
    ensures text { result ≢ 3 → IsUtf8 rules.now }
    ensures no_text { result ≡ 3 → IsUtf8 rules.now → ⊥ }
{
    match str::from_utf8(rules) {
        Ok(rules) => hand_over_bytes(out, needed, calls::prepare(alloc, rules)),
        Err(_) => no_text(needed),
    }
}

/// Writes the diagnostics of a grammar's text, a line of JSON for each: the errors with which it is refused,
/// or else its warnings. An answer of no line says that it is accepted.
#[unsafe(no_mangle)]
pub extern "C" fn pest_meta_diagnostics(
    alloc: Global,
    text: &[u8],
    out: &mut [u8],
    needed: &mut usize,
) -> u8
    ensures hands { HandsOver (AreDiagnostics text.now) Never out.old out.new needed.new result }
    ensures accepted { result ≡ 0 → needed.new ≡ 0 → HasAnswer text.now }
    ensures text { result ≢ 3 → IsUtf8 text.now }
    ensures no_text { result ≡ 3 → IsUtf8 text.now → ⊥ }
{
    match str::from_utf8(text) {
        Ok(text) => hand_over(out, needed, calls::diagnostics(alloc, text)),
        Err(_) => no_text(needed),
    }
}

/// Writes the number of the format, and the version of the original crate.
#[unsafe(no_mangle)]
pub extern "C" fn pest_meta_version(alloc: Global, out: &mut [u8], needed: &mut usize) -> u8
    ensures hands { HandsOver IsVersion Never out.old out.new needed.new result }
    ensures always { result ≢ 3 }
{
    hand_over(out, needed, calls::version(alloc))
}
