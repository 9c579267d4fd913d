//! The errors of rules.
ghost use Rattle.std.specs.Prelude.{IfErr, IfOk, IsTrue, [], alloc_error, map, ◌↔◌, ◌≡◌};
ghost use Rattle.front_analysis.specs.NamedPlaces.{last_name};
ghost use Rattle.base_language.specs.Language.WellFormed.{CannotFail, IsWellFormed};
ghost use Rattle.front_spanned.specs.Erasure.{rules_without_spans, without_spans};
ghost use Rattle.front_spanned.specs.Nodes.{piece_of, rule_views, unplaced};
ghost use Rattle.front_stack_loops.specs.Certain.{AreReports, AreErrorsOfReports};
ghost use Rattle.front_validator.specs.Reported.{AreReported};
ghost use Rattle.pest_meta.specs.Findings.{AreErrorsOfFindings};

use base_language::grammar::Rule;
use base_language::runtime::{Error, Fault, Span};
use front_spanned::{ParserExpr, ParserRule};
use std::alloc::Global;

/// Returns whether an expression cannot fail.
pub fn is_non_failing<'i>(
    alloc: Global,
    expr: &ParserExpr<'i>,
    rules: &Vec<ParserRule<'i>>,
) -> Result<bool, Fault>
    ensures exact { IfOk result (λ yes. IsTrue yes
        ↔ CannotFail (rules_without_spans (rule_views rules.now.items)) (without_spans (unplaced expr.now))) }
    ensures memory { IfErr result (λ fault. fault ≡ Fault.Memory alloc_error) }
{
    front_validator::validator::is_non_failing(alloc, expr, rules)
}

/// Returns the errors of rules, with those of some repetitions.
pub fn validate_rules<'i>(
    alloc: Global,
    rules: &Vec<ParserRule<'i>>,
    endless: &[Span<'i>],
) -> Result<Vec<Error<Rule>>, Fault>
    ensures exact { IfOk result (λ errors.
        AreReported (rule_views rules.now.items) (map piece_of endless.now) errors.items) }
    ensures accepted { IfOk result (λ errors. errors.items ≡ []
        → IsWellFormed (rules_without_spans (rule_views rules.now.items))) }
    ensures memory { IfErr result (λ fault. fault ≡ Fault.Memory alloc_error) }
{
    front_validator::validator::validate_rules(alloc, rules, endless)
}

/// Returns all errors of rules.
pub fn validate_ast<'i>(
    alloc: Global,
    rules: &Vec<ParserRule<'i>>,
) -> Result<Vec<Error<Rule>>, Fault>
    ensures exact { IfOk result (λ errors. AreErrorsOfFindings (rule_views rules.now.items) errors.items) }
    ensures accepted { IfOk result (λ errors. errors.items ≡ []
        → IsWellFormed (rules_without_spans (rule_views rules.now.items))) }
    ensures silent { IfOk result (λ errors. errors.items ≡ [] → AreReports (rule_views rules.now.items) []) }
    ensures memory { IfErr result (λ fault. fault ≡ Fault.Memory alloc_error) }
{
    pest_meta::validator::validate_ast(alloc, rules)
}

/// Returns the index of the last of some names that is equal to one.
pub fn rule_number(names: &Vec<&str>, name: &str) -> Option<usize>
    ensures { result ≡ last_name names.now.items name.now }
{
    front_analysis::rule_number(names, name)
}

/// Returns the errors of the stack pass.
pub fn validate_stack_repetition<'i>(
    alloc: Global,
    rules: &Vec<ParserRule<'i>>,
) -> Result<Vec<Error<Rule>>, Fault>
    ensures exact { IfOk result (λ errors. AreErrorsOfReports (rule_views rules.now.items) errors.items) }
    ensures memory { IfErr result (λ fault. fault ≡ Fault.Memory alloc_error) }
{
    front_stack_loops::validate_stack_repetition(alloc, rules)
}
