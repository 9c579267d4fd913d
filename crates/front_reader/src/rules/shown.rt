//! The names of the meta-grammar's rules that errors show.
ghost use Rattle.std.specs.Prelude.{◌≡◌, alloc_error, string_bytes, MatchResult};
ghost use Rattle.front_reader.specs.ShownNames.{shown_name};

use base_language::grammar::Rule;
use base_language::runtime::Fault;
use std::alloc::Global;

/// Returns the name of a rule that errors show: `rule`, `PUSH` and `PUSH_LITERAL`; a mark between grave
/// accents if a rule is written as one; `//!` and `///` for the comments that document; the rule's own
/// name for any other, `EOI` included.
///
/// The only fault is an allocation failure.
pub fn rename_meta_rule(alloc: Global, rule: &Rule) -> Result<String, Fault>
    ensures { MatchResult result
        (λ name. string_bytes name ≡ shown_name rule.now)
        (λ fault. fault ≡ Fault.Memory alloc_error) }
{
    Ok(String::from_str(alloc, meta_rule_name(*rule))?)
}

/// Returns the name of a rule that errors show.
fn meta_rule_name(rule: Rule) -> &'static str
    ensures { result.now ≡ shown_name rule }
{
    match rule {
        Rule::grammar_rule => "rule",
        Rule::assignment_operator => "`=`",
        Rule::opening_brace => "`{`",
        Rule::closing_brace => "`}`",
        Rule::opening_paren => "`(`",
        Rule::closing_paren => "`)`",
        Rule::opening_brack => "`[`",
        Rule::closing_brack => "`]`",
        Rule::silent_modifier => "`_`",
        Rule::atomic_modifier => "`@`",
        Rule::compound_atomic_modifier => "`$`",
        Rule::non_atomic_modifier => "`!`",
        Rule::positive_predicate_operator => "`&`",
        Rule::negative_predicate_operator => "`!`",
        Rule::sequence_operator => "`&`",
        Rule::choice_operator => "`|`",
        Rule::optional_operator => "`?`",
        Rule::repeat_operator => "`*`",
        Rule::repeat_once_operator => "`+`",
        Rule::comma => "`,`",
        Rule::_push => "PUSH",
        Rule::_push_literal => "PUSH_LITERAL",
        Rule::insensitive_string => "`^`",
        Rule::quote => "`\"`",
        Rule::single_quote => "`'`",
        Rule::range_operator => "`..`",
        Rule::grammar_doc => "//!",
        Rule::line_doc => "///",
        _ => rule.name(),
    }
}
