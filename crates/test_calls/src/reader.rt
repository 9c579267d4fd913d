//! Answers of the reader on a text.
ghost use Rattle.std.specs.Prelude.{IfOk, MatchResult, alloc_error, string_bytes, ◌≡◌};
ghost use Rattle.front_reader.specs.ShownNames.{shown_name};
ghost use Rattle.front_syntax.specs.ExpectedRules.{AreExpected, ExpectsNothing};

use base_language::grammar::Rule;
use base_language::runtime::Fault;
use front_reader::rules::PestParser;
use std::alloc::{AllocError, Global};

/// Returns the rules that are expected where a text fails.
pub fn expected_rules(alloc: Global, rule: Rule, text: &str) -> Result<Vec<Rule>, AllocError>
    ensures nothing { IfOk result (λ rules. ExpectsNothing rule text.now rules.items) }
    ensures expected { IfOk result (λ rules. AreExpected rule text.now rules.items) }
{
    PestParser::expected_set(alloc, rule, text)
}

/// Returns the name of a rule of the meta-grammar in errors.
pub fn rename_meta_rule(alloc: Global, rule: &Rule) -> Result<String, Fault>
    ensures { MatchResult result
        (λ name. string_bytes name ≡ shown_name rule.now)
        (λ fault. fault ≡ Fault.Memory alloc_error) }
{
    front_reader::rules::rename_meta_rule(alloc, rule)
}
