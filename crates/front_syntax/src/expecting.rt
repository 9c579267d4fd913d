//! Rules by their numbers.
ghost use Rattle.std.specs.Prelude.{◌≡◌, ◌++◌, ◌∷◌, List, [], IfOk, OnOk, filter, map};
ghost use Rattle.base_language.specs.Language.Text.{Text};
ghost use Rattle.base_language.specs.Pieces.MetaRules.{name_of};
ghost use Rattle.front_code.specs.Numbers.{number_of};
ghost use Rattle.front_syntax.specs.ExpectedRules.{is_numbered, rules_named};
ghost use Rattle.matcher_code.specs.Steps.{insert_rules};

use base_language::grammar::Rule;
use front_code::numbers::rule_number;
use std::alloc::{AllocError, Global};

/// Whether the number of a rule is among these.
fn is_numbered(numbers: &[u32], rule: Rule) -> bool
    ensures { result ≡ is_numbered numbers.now rule }
{
    numbers.contains(&rule_number(rule))
}

/// Adds a rule, if its number is among these.
fn add_if_numbered(rules: &mut Vec<Rule>, numbers: &[u32], rule: Rule) -> Result<(), AllocError>
    ensures { OnOk result
        (rules.new.items ≡ rules.old.items ++ filter (is_numbered numbers.now) (rule ∷ [])) }
{
    if is_numbered(numbers, rule) {
        rules.push(rule)?;
    }
    Ok(())
}

/// Returns the rules of these numbers in the order of the meta-grammar, `EOI` first.
pub(crate) fn rules_in_order(alloc: Global, numbers: &[u32]) -> Result<Vec<Rule>, AllocError>
    ensures { (names : List Text) → numbers.now ≡ insert_rules [] (map number_of names)
        → IfOk result (λ rules. rules.items ≡ rules_named names) }
{
    let mut rules = Vec::new(alloc);
    add_if_numbered(&mut rules, numbers, Rule::EOI)?;
    for rule in Rule::all_rules() {
        add_if_numbered(&mut rules, numbers, *rule)?;
    }
    Ok(rules)
}
