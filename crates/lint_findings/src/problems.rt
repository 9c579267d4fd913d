//! Codes and helps of what can be wrong with a grammar.
ghost use Rattle.std.specs.Prelude.{◌≡◌};
ghost use Rattle.lint_findings.specs.Codes.{severity_of};
ghost use Rattle.lint_findings.specs.Problems as spec;
ghost use Rattle.lint_findings.specs.declared.codes.Severity.TheVariants as severity;

use crate::codes::Code;
use crate::facts::facts_of;
use front_names::NameProblem;
use front_reader::rules::Cause;
use front_validator::{LoopBody, RuleProblem};
use lint_hints::is_pest_property;

/// The code of what is wrong with a name.
pub(crate) fn name_code(problem: NameProblem, name: &str) -> Code
    ensures code { result ≡ spec.name_code problem name.now }
    ensures severity { severity_of result ≡ severity.Error }
{
    match problem {
        NameProblem::RustKeyword | NameProblem::PestKeyword => Code::ReservedName,
        NameProblem::AlreadyDefined => Code::DuplicateRule,
        NameProblem::Undefined => {
            if is_pest_property(name) {
                Code::MissingProperty
            } else {
                Code::UndefinedRule
            }
        }
    }
}

/// The code of a flaw.
pub(crate) fn flaw_code(cause: Cause) -> Code
    ensures code { result ≡ spec.flaw_code cause }
    ensures severity { severity_of result ≡ severity.Error }
{
    match cause {
        Cause::NoScalarValue => Code::EscapeValue,
        Cause::PastI32 | Cause::PastU32 => Code::NumberRange,
        Cause::ZeroTimes => Code::ZeroRepetition,
    }
}

/// The help for a flaw.
pub(crate) fn flaw_help(cause: Cause) -> Option<&'static str> {
    match cause {
        Cause::PastI32 => Some("a bound of `PEEK[..]` has 32 bits with its sign"),
        Cause::PastU32 => Some(
            "a count is at most 4294967295; `e*` and `e+` have no greatest count",
        ),
        Cause::NoScalarValue | Cause::ZeroTimes => facts_of(flaw_code(cause)).help,
    }
}

/// The code of what is wrong with a rule.
pub(crate) fn rule_code(problem: &RuleProblem) -> Code
    ensures code { result ≡ spec.rule_code problem.now }
    ensures severity { severity_of result ≡ severity.Error }
{
    match problem {
        RuleProblem::CannotFail(_) | RuleProblem::NonProgressing(_) => Code::EndlessRepetition,
        RuleProblem::UnreachableChoices => Code::UnreachableChoice,
        RuleProblem::LeftRecursion(_) => Code::LeftRecursion,
        RuleProblem::TagOnSilentRule | RuleProblem::TagOnBuiltin => Code::TagWithoutToken,
    }
}

/// The help for what is wrong with a rule.
pub(crate) fn rule_help(problem: &RuleProblem) -> Option<&'static str> {
    match problem {
        RuleProblem::CannotFail(body) | RuleProblem::NonProgressing(body) => Some(endless_help(
            *body,
        )),
        _ => facts_of(rule_code(problem)).help,
    }
}

/// The help for an endless repetition.
fn endless_help(body: LoopBody) -> &'static str {
    match body {
        LoopBody::Expression => "each turn of a repetition has to take a character",
        LoopBody::Whitespace | LoopBody::Comment => {
            "it is repeated by itself: match one turn, which takes a character"
        }
    }
}
