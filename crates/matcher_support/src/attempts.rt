//! The names of the rules that an error of pest names.
ghost use Rattle.std.specs.Prelude.{◌≡◌, List, IfOk, OnOk, [], map};
ghost use Rattle.base_language.specs.Language.Expression.{Grammar};
ghost use Rattle.base_language.specs.Language.Text.{Text};
ghost use Rattle.matcher_code.specs.Steps.{insert_rule, insert_rules};
ghost use Rattle.matcher_compiler.specs.Names.{HaveNumbers, number_in};
ghost use Rattle.matcher_engine.specs.Walks.{AreNamesOf};
ghost use Rattle.matcher_program.specs.ExpectedNames.{each_once, name_texts};

use crate::compiled::names_of;
use matcher_engine::attempts::Attempts;
use std::alloc::{AllocError, Global};

/// The names of the rules that an error of pest names, and the position of the error.
#[derive(Drop)]
pub struct NamedAttempts<'m> {
    /// The position of the error, in bytes.
    pub place: usize,
    /// The names of the rules that are expected at this position, each once, in the order of their
    /// first calls.
    pub positives: Vec<&'m str>,
    /// The names of the rules that are not expected at this position, since a `!` refused them.
    /// They have the same order.
    pub negatives: Vec<&'m str>,
}

/// Returns attempts by the names of all rules in order. The only error is an allocation failure.
pub(crate) fn name_attempts<'m>(
    alloc: Global,
    names: &'m [&'m str],
    attempts: &Attempts,
) -> Result<NamedAttempts<'m>, AllocError>
    ensures place { IfOk result (λ named. named.place ≡ attempts.now.place) }
    ensures positives { IfOk result (λ named. (g : Grammar) → AreNamesOf g names.entry.now
        → (ns : List Text) → attempts.now.positives.items ≡ map (number_in g) ns → HaveNumbers g ns
        → name_texts named.positives.items ≡ each_once ns) }
    ensures negatives { IfOk result (λ named. (g : Grammar) → AreNamesOf g names.entry.now
        → (ns : List Text) → attempts.now.negatives.items ≡ map (number_in g) ns → HaveNumbers g ns
        → name_texts named.negatives.items ≡ each_once ns) }
{
    let positives = each_name_of(alloc, names, &attempts.positives)?;
    let negatives = each_name_of(alloc, names, &attempts.negatives)?;
    Ok(NamedAttempts {
        place: attempts.place,
        positives,
        negatives,
    })
}

/// Returns the names of numbers, each once. The only error is an allocation failure.
fn each_name_of<'m>(
    alloc: Global,
    names: &'m [&'m str],
    rules: &[u32],
) -> Result<Vec<&'m str>, AllocError>
    ensures { IfOk result (λ found. (g : Grammar) → AreNamesOf g names.entry.now → (ns : List Text)
        → rules.now ≡ map (number_in g) ns → HaveNumbers g ns → name_texts found.items ≡ each_once ns) }
{
    let once = rules_once(alloc, rules)?;
    names_of(alloc, names, &once)
}

/// Returns rules in the order in which each comes first. The only error is an allocation failure.
fn rules_once(alloc: Global, rules: &[u32]) -> Result<Vec<u32>, AllocError>
    ensures { IfOk result (λ once. once.items ≡ insert_rules [] rules.now) }
{
    let mut once = Vec::new(alloc);
    for rule in rules {
        add_rule(&mut once, *rule)?;
    }
    Ok(once)
}

/// Adds a rule, if it is not among these. The only error is an allocation failure.
fn add_rule(rules: &mut Vec<u32>, rule: u32) -> Result<(), AllocError>
    ensures { OnOk result (rules.new.items ≡ insert_rule rules.old.items rule) }
{
    if rules.contains(&rule) {
        return Ok(());
    }
    rules.push(rule)?;
    Ok(())
}
