//! Rules as JSON.
ghost use Rattle.std.specs.Prelude.{IfNone, IfOk, IfSome, string_bytes, ◌≡◌};
ghost use Rattle.base_language.specs.Pieces.MetaRules.{name_of};
ghost use Rattle.format_json.specs.Errors.{errors_data};
ghost use Rattle.format_json.specs.Format.{rules_data};
ghost use Rattle.format_json.specs.Reading.{AreRules};
ghost use Rattle.format_json.specs.RuleNames.{IsOfNoRule};
ghost use Rattle.serde_json.specs.Written.{compact_text};

use base_ast::ast::Rule;
use base_language::grammar;
use base_language::runtime::Error;
use format_json::Refusal;
use std::alloc::{AllocError, Global};

/// Returns rules as a text.
pub fn rules_text(alloc: Global, rules: &[Rule]) -> Result<String, AllocError>
    ensures { IfOk result (λ text. string_bytes text ≡ compact_text (rules_data rules.now)) }
{
    format_json::rules_text(alloc, rules)
}

/// Reads the rules of a text in JSON.
pub fn read_rules(alloc: Global, text: &str) -> Result<Vec<Rule>, Refusal>
    ensures { IfOk result (λ rules. AreRules text.now rules.items) }
{
    format_json::read_rules(alloc, text)
}

/// Returns errors as a text.
pub fn errors_text(
    alloc: Global,
    errors: &[Error<grammar::Rule>],
    expected: &[grammar::Rule],
) -> Result<String, AllocError>
    ensures { IfOk result (λ text. string_bytes text ≡ compact_text (errors_data expected.now errors.now)) }
{
    format_json::errors_text(alloc, errors, expected)
}

/// Returns the rule of the meta-grammar of that name.
pub fn rule_named(name: &str) -> Option<grammar::Rule>
    ensures found { IfSome result (λ rule. name_of rule ≡ name.now) }
    ensures none { IfNone result (IsOfNoRule name.now) }
{
    format_json::rule_named(name)
}
