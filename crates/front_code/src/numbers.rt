//! The numbers of the rules.
ghost use Rattle.std.specs.Prelude.{◌≡◌, ◌<◌};
ghost use Rattle.base_language.specs.Pieces.MetaRules.{name_of};
ghost use Rattle.front_code.specs.Numbers.{number_of, rule_numbered};

use base_language::grammar::Rule;

/// Returns the number of a rule: its place in the order of the meta-grammar, `EOI` before all.
pub fn rule_number(rule: Rule) -> u32
    ensures number { result ≡ number_of (name_of rule) }
    ensures small { result < 66 }
{
    rule as u32
}

/// Returns the rule of a number, and `EOI` for a number that is no rule's.
#[inline(always)]
pub fn rule_at(number: u32) -> Rule
    ensures { result ≡ rule_numbered number }
{
    if number == 0 {
        return Rule::EOI;
    }
    match Rule::all_rules().get(number as usize - 1) {
        Some(rule) => *rule,
        None => Rule::EOI,
    }
}
