//! Verdicts on cases.
ghost use Rattle.std.specs.Prelude.{◌≡◌, ℕ, List, IfOk, chars, false, length};
ghost use Rattle.base_language.specs.Language.Expression.{Grammar};
ghost use Rattle.matcher_engine.specs.ParseTrees.{HasParseTree};
ghost use Rattle.matcher_program.specs.Answers.{start_of};
ghost use Rattle.matcher_support.specs.Compiled.{FailsIn, IsCompiledOf, IsRefusedBy};
ghost use Rattle.matcher_support.specs.Sets.{is_in_property};
ghost use Rattle.pest_test.specs.Verdicts.{AreVerdicts, IsVerdict, IsVerdictBy, is_failure, most_steps, rule_name, status_for};

use crate::agreement::agrees;
use crate::cases::{Case, Expected};
use matcher_engine::block::BlockStop;
use matcher_engine::matcher::ParseTree;
use matcher_program::answers::Stop;
use matcher_support::compiled::CompiledGrammar;
use program_support::status::Status;
use std::alloc::{AllocError, Global};

/// The verdict on a case.
#[derive(Drop)]
pub enum Verdict {
    Passed,
    Skipped,
    Failed(Failure),
}

/// Why a case fails.
#[derive(Drop)]
pub enum Failure {
    /// The rule matches, but the trees of this match are not the expected ones.
    Differs(ParseTree),
    /// The rule matches, but the case says that the text does not match.
    Matches,
    /// The rule matches only a prefix of the text. This is the match.
    EndsEarly(ParseTree),
    /// The rule fails. This is the furthest position of a failure, in bytes.
    NoMatch(usize),
    /// The grammar has no rule of that name.
    NoRule,
    /// The run was stopped.
    Stopped(Stop),
}

/// Returns the name of the rule that matches the text of a case, if the case names none: `given`, or else
/// that of the first rule.
pub fn default_rule<'a>(rules: &'a CompiledGrammar<'_>, given: Option<&'a str>) -> &'a str {
    match given {
        Some(name) => name,
        None => match rules.rule_names().first() {
            Some(name) => name,
            None => "",
        },
    }
}

/// Returns the name of the rule that matches the text of a case.
pub fn rule_of<'a>(case: &Case<'a>, default: &'a str) -> &'a str
    ensures { result.now ≡ rule_name case.now default.entry.now }
{
    match case.rule {
        Some(name) => name,
        None => default,
    }
}

/// Returns the limit of a match on a text of `length` bytes: 2^28 steps, and 4,096 more for each
/// byte.
pub fn most_steps(length: usize) -> u64
    ensures { result ≡ most_steps length }
{
    (length as u64).saturating_add(65_536).saturating_mul(4_096)
}

/// Returns the verdicts on `cases`, in order. A case that names no rule is matched by the rule
/// named `default`. The only error is an allocation failure.
pub fn judge_all(
    alloc: Global,
    rules: &CompiledGrammar<'_>,
    default: &str,
    cases: &[Case<'_>],
) -> Result<Vec<Verdict>, AllocError>
    ensures { (g : Grammar) → IsCompiledOf g rules.now
        → IfOk result (λ verdicts. AreVerdicts g default.now cases.now verdicts.items) }
{
    let mut verdicts = Vec::new(alloc);
    for case in cases {
        verdicts.push(judge(alloc, rules, default, case)?)?;
    }
    Ok(verdicts)
}

/// Returns the verdict on `case`. If the case names no rule, it is matched by the rule named
/// `default`. The only error is an allocation failure.
pub fn judge(
    alloc: Global,
    rules: &CompiledGrammar<'_>,
    default: &str,
    case: &Case<'_>,
) -> Result<Verdict, AllocError>
    ensures { (g : Grammar) → IsCompiledOf g rules.now
        → IfOk result (IsVerdict g default.now case.now) }
{
    if case.is_skipped {
        return Ok(Verdict::Skipped);
    }
    let rule = rule_of(case, default);
    let steps = Some(most_steps(case.text.len()));
    match rules.match_text(alloc, rule, case.text, steps) {
        Ok(found) => judge_match(alloc, rules, case, found),
        Err(stop) => judge_stop(case, stop),
    }
}

/// Returns the verdict on `case`, whose rule gives no match because of `stop`.
fn judge_stop(case: &Case<'_>, stop: BlockStop) -> Result<Verdict, AllocError>
    requires { case.now.is_skipped ≡ false }
    ensures { (g : Grammar) (rule : List ℕ)
        → IsRefusedBy g rule case.now.text.now (most_steps (length case.now.text.now)) stop
        → IfOk result (IsVerdictBy g rule case.now) }
{
    match stop {
        BlockStop::NoMatch(place) => Ok(judge_failure(case, place)),
        BlockStop::NoRule => Ok(Verdict::Failed(Failure::NoRule)),
        BlockStop::Stopped(stop) => describe_stop(stop),
        BlockStop::Flaw(_) => Err(AllocError),
    }
}

/// Returns the verdict on a case whose run was stopped because of `stop`. The only error is an
/// allocation failure: if `stop` is `Stop::Memory`, no further case is run.
fn describe_stop(stop: Stop) -> Result<Verdict, AllocError>
    ensures { IfOk result (λ verdict. verdict ≡ Verdict.Failed (Failure.Stopped stop)) }
{
    match stop {
        Stop::Memory => Err(AllocError),
        other => Ok(Verdict::Failed(Failure::Stopped(other))),
    }
}

/// Returns the verdict on a case of which the rule fails.
fn judge_failure(case: &Case<'_>, place: usize) -> Verdict
    requires { case.now.is_skipped ≡ false }
    ensures { (g : Grammar) (rule : List ℕ) → FailsIn g rule case.now.text.now place
        → IsVerdictBy g rule case.now result }
{
    match case.expected {
        Expected::Failure => Verdict::Passed,
        Expected::Trees(_) => Verdict::Failed(Failure::NoMatch(place)),
    }
}

/// Returns the verdict on a case of which the rule matches the text or a prefix.
fn judge_match(
    alloc: Global,
    rules: &CompiledGrammar<'_>,
    case: &Case<'_>,
    found: ParseTree,
) -> Result<Verdict, AllocError>
    requires { case.now.is_skipped ≡ false }
    ensures { (g : Grammar) (rule : List ℕ) → IsCompiledOf g rules.now
        → HasParseTree g (chars rule) (start_of case.now.text.now) is_in_property found
        → IfOk result (IsVerdictBy g rule case.now) }
{
    let is_early = !case.is_prefix && found.end != case.text.len();
    match &case.expected {
        Expected::Failure => {
            if is_early {
                Ok(Verdict::Passed)
            } else {
                Ok(Verdict::Failed(Failure::Matches))
            }
        }
        Expected::Trees(events) => {
            if is_early {
                Ok(Verdict::Failed(Failure::EndsEarly(found)))
            } else if agrees(events, case.text, rules.walk(alloc, &found))? {
                Ok(Verdict::Passed)
            } else {
                Ok(Verdict::Failed(Failure::Differs(found)))
            }
        }
    }
}

/// Returns whether `verdict` counts as a failure. If `is_update` is true, a case whose trees differ
/// does not count as one.
pub fn is_failure(verdict: &Verdict, is_update: bool) -> bool
    ensures { result ≡ is_failure is_update verdict.now }
{
    match verdict {
        Verdict::Passed | Verdict::Skipped => false,
        Verdict::Failed(Failure::Differs(_)) => !is_update,
        Verdict::Failed(_) => true,
    }
}

/// Returns the status for verdicts: `Found` if one of them counts as a failure.
pub fn status_of(verdicts: &[Verdict], is_update: bool) -> Status
    ensures { result ≡ status_for is_update verdicts.now }
{
    for verdict in verdicts {
        if is_failure(verdict, is_update) {
            return Status::Found;
        }
    }
    Status::Done
}
