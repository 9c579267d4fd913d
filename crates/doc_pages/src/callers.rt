//! For each rule the rules that call it.
ghost use Rattle.std.specs.Prelude.{◌≡◌, ◌<◌, ℕ, IfOk, OnOk, length};
ghost use Rattle.doc_pages.specs.Links.{AreCallersBelow};

use crate::source::{RuleSource, SourcePart};
use std::alloc::{AllocError, Global};
use std::collections::HashMap;

/// Finds for each of the first `count` rules those of them that call it, each once, in order. `numbers` has
/// the indexes of the rules by their names.
pub fn find_callers(
    alloc: Global,
    count: usize,
    rules: &[RuleSource<'_>],
    numbers: &HashMap<String, usize>,
) -> Result<Vec<Vec<usize>>, AllocError>
    ensures each { IfOk result (λ callers. length callers.items ≡ count) }
    ensures below { IfOk result (λ callers. AreCallersBelow count callers.items) }
{
    let mut callers = no_callers(alloc, count)?;
    for caller in 0..count.min(rules.len()) {
        add_calls(caller, &rules[caller], numbers, &mut callers)?;
    }
    Ok(callers)
}

/// No callers for each of `count` rules.
fn no_callers(alloc: Global, count: usize) -> Result<Vec<Vec<usize>>, AllocError>
    ensures each { IfOk result (λ callers. length callers.items ≡ count) }
    ensures below { (n : ℕ) → IfOk result (λ callers. AreCallersBelow n callers.items) }
{
    let mut callers: Vec<Vec<usize>> = Vec::new(alloc);
    for _rule in 0..count {
        callers.push(Vec::new(alloc))?;
    }
    Ok(callers)
}

/// Adds a rule to the callers of each rule that it calls.
fn add_calls(
    caller: usize,
    rule: &RuleSource<'_>,
    numbers: &HashMap<String, usize>,
    callers: &mut Vec<Vec<usize>>,
) -> Result<(), AllocError>
    ensures each { OnOk result (length callers.new.items ≡ length callers.old.items) }
    ensures below { OnOk result ((n : ℕ) → caller < n → AreCallersBelow n callers.old.items
        → AreCallersBelow n callers.new.items) }
{
    for part in rule.parts.iter().skip(2) {
        if let SourcePart::Name(name) = part {
            if let Some(called) = numbers.get(*name) {
                add_caller(caller, *called, callers)?;
            }
        }
    }
    Ok(())
}

/// Adds a rule to the callers of another, unless it is the last of them.
fn add_caller(caller: usize, called: usize, callers: &mut Vec<Vec<usize>>) -> Result<(), AllocError>
    ensures each { OnOk result (length callers.new.items ≡ length callers.old.items) }
    ensures below { OnOk result ((n : ℕ) → caller < n → AreCallersBelow n callers.old.items
        → AreCallersBelow n callers.new.items) }
{
    if let Some(others) = callers.get_mut(called) {
        if others.last().copied() != Some(caller) {
            others.push(caller)?;
        }
    }
    Ok(())
}
