//! All findings in rules, as errors.
ghost use Rattle.std.specs.Prelude.{◌≡◌, ◌++◌, [], All, IfOk, IfErr, OnOk, alloc_error, map};
ghost use Rattle.base_language.specs.Pieces.Saying.{IsErrorAt, AreErrorsFor};
ghost use Rattle.base_language.specs.Language.WellFormed.{IsWellFormed};
ghost use Rattle.base_language.specs.Pieces.Span.{span_text};
ghost use Rattle.base_language.specs.Pieces.Survey.{survey_text};
ghost use Rattle.front_spanned.specs.Nodes.{piece_of, rule_views};
ghost use Rattle.front_validator.specs.Findings.{AreFound, AreAllFound, IsSortedBySpan, endless_at};
ghost use Rattle.front_analysis.specs.Analysis.{IsAnalysis};
ghost use Rattle.front_analysis.specs.Names.{grammar_of};
ghost use Rattle.front_validator.specs.Reporting.{finding_of, findings_of};

use crate::findings::{choices, repetitions, skips, spans_of};
use crate::problems::{LoopBody, RuleFinding, RuleProblem};
use crate::recursions::recursions;
use crate::tags::tags;
use base_language::grammar::Rule;
use base_language::runtime::{Error, ErrorVariant, Fault, Span, Survey};
use front_analysis::Analysis;
use std::alloc::{AllocError, Global};

/// Makes the findings of repetitions that are known to be endless.
fn endless_findings<'i>(
    alloc: Global,
    endless: &[Span<'i>],
) -> Result<Vec<RuleFinding<'i>>, AllocError>
    ensures { IfOk result (λ found.
        findings_of found.items ≡ map endless_at (map piece_of endless.now)) }
{
    let mut found = Vec::new(alloc);
    for span in endless {
        found.push(RuleFinding {
            problem: RuleProblem::NonProgressing(LoopBody::Expression),
            span: *span,
        })?;
    }
    Ok(found)
}

/// Collects all findings in rules: repetitions, then those that are known to be endless, then choices,
/// then skipped rules, then left recursion, then tags.
fn all_findings<'i>(
    alloc: Global,
    groundwork: &Analysis<'_, 'i>,
    endless: &[Span<'i>],
) -> Result<Vec<RuleFinding<'i>>, AllocError>
    requires groundwork { IsAnalysis groundwork.now }
    ensures found { IfOk result (λ found.
        AreFound (rule_views groundwork.now.grammar.rules.now)
        (map piece_of endless.now) (findings_of found.items)) }
    ensures accepted { IfOk result (λ found. findings_of found.items ≡ []
        → IsWellFormed (grammar_of groundwork.now.grammar.rules.now)) }
{
    let Analysis { grammar, facts } = groundwork;
    let rules = grammar.rules;
    let spans = spans_of(alloc, &grammar.table)?;
    let found = repetitions(alloc, facts, spans.as_slice())?;
    let known = endless_findings(alloc, endless)?;
    let found = append_findings(found, known)?;
    let choices = choices(alloc, facts, spans.as_slice())?;
    let found = append_findings(found, choices)?;
    let skips = skips(alloc, rules, facts)?;
    let found = append_findings(found, skips)?;
    let recursions = recursions(alloc, rules, &grammar.names, facts, spans.as_slice())?;
    let found = append_findings(found, recursions)?;
    let tags = tags(alloc, rules, &grammar.names)?;
    let found = append_findings(found, tags)?;
    Ok(found)
}

/// Appends other findings.
fn append_findings<'i>(
    found: Vec<RuleFinding<'i>>,
    others: Vec<RuleFinding<'i>>,
) -> Result<Vec<RuleFinding<'i>>, AllocError>
    ensures { IfOk result (λ all.
        findings_of all.items ≡ findings_of found.entry.items ++ findings_of others.entry.items) }
{
    let mut all = found;
    let mut others = others;
    all.append(&mut others)?;
    Ok(all)
}

/// Sorts findings by their spans. The sort is stable.
fn sort_by_span<'i>(found: &mut Vec<RuleFinding<'i>>) -> Result<(), AllocError>
    ensures { OnOk result (IsSortedBySpan (findings_of found.old.items) (findings_of found.new.items)) }
{
    found.sort_by_key(|finding| (finding.span.start(), finding.span.end()))?;
    Ok(())
}

/// Collects all findings in rules, given the shared analysis of the rules: those that the errors of
/// `validate_rules` tell of, in the order of these. The only error is an allocation failure.
pub fn findings_in<'i>(
    alloc: Global,
    groundwork: &Analysis<'_, 'i>,
    endless: &[Span<'i>],
) -> Result<Vec<RuleFinding<'i>>, AllocError>
    requires groundwork { IsAnalysis groundwork.now }
    ensures found { IfOk result (λ sorted.
        AreAllFound (rule_views groundwork.now.grammar.rules.now)
        (map piece_of endless.now) (findings_of sorted.items)) }
    ensures accepted { IfOk result (λ sorted. findings_of sorted.items ≡ []
        → IsWellFormed (grammar_of groundwork.now.grammar.rules.now)) }
{
    let mut found = all_findings(alloc, groundwork, endless)?;
    sort_by_span(&mut found)?;
    Ok(found)
}

/// Makes the error that reports a finding. If the finding is in the text of the survey, the survey makes it.
fn error_of<'i>(
    alloc: Global,
    survey: &mut Survey<'_>,
    finding: &RuleFinding<'i>,
) -> Result<Error<Rule>, Fault>
    ensures tells { IfOk result (λ error.
        IsErrorAt (finding_of finding.now).message (finding_of finding.now).span error) }
    ensures memory { IfErr result (λ fault. fault ≡ Fault.Memory alloc_error) }
{
    let message = finding.message(alloc)?;
    let variant = ErrorVariant::CustomError { message };
    let error = Error::new_where_surveyed(alloc, variant, survey, finding.span)?;
    Ok(error)
}

/// Returns the text of the first finding, which is that of all of them if they are in one text.
fn first_text<'i>(found: &[RuleFinding<'i>]) -> &'i str {
    match found.first() {
        Some(finding) => finding.span.get_input(),
        None => "",
    }
}

/// Makes the errors that report findings, in their order.
pub(crate) fn errors_of<'i>(
    alloc: Global,
    found: &[RuleFinding<'i>],
) -> Result<Vec<Error<Rule>>, Fault>
    ensures told { IfOk result (λ errors. AreErrorsFor (findings_of found.now) errors.items) }
    ensures memory { IfErr result (λ fault. fault ≡ Fault.Memory alloc_error) }
{
    let mut errors = Vec::new(alloc);
    let mut survey = Survey::new(alloc, first_text(found))?;
    for place in 0..found.len() {
        let error = error_of(alloc, &mut survey, &found[place])?;
        errors.push(error)?;
    }
    Ok(errors)
}

/// Makes the error that reports a finding in the surveyed text.
fn error_in<'i>(
    alloc: Global,
    survey: &mut Survey<'_>,
    finding: &RuleFinding<'i>,
) -> Result<Error<Rule>, Fault>
    requires in_text { span_text finding.now.span ≡ survey_text survey.old }
    ensures tells { IfOk result (λ error.
        IsErrorAt (finding_of finding.now).message (finding_of finding.now).span error) }
    ensures survey { survey_text survey.new ≡ survey_text survey.old }
    ensures memory { IfErr result (λ fault. fault ≡ Fault.Memory alloc_error) }
{
    let message = finding.message(alloc)?;
    let variant = ErrorVariant::CustomError { message };
    Error::new_in_survey(alloc, variant, survey, finding.span)
}

/// Makes the errors that tell of findings in one text, in their order. The only fault is an allocation
/// failure.
pub fn errors_in<'i>(
    alloc: Global,
    text: &str,
    found: &[RuleFinding<'i>],
) -> Result<Vec<Error<Rule>>, Fault>
    requires in_text { All (λ f. f.span.text ≡ text.now) (findings_of found.now) }
    ensures told { IfOk result (λ errors. AreErrorsFor (findings_of found.now) errors.items) }
    ensures memory { IfErr result (λ fault. fault ≡ Fault.Memory alloc_error) }
{
    let mut errors = Vec::new(alloc);
    if found.is_empty() {
        return Ok(errors);
    }
    let mut survey = Survey::new(alloc, text)?;
    for place in 0..found.len() {
        let error = error_in(alloc, &mut survey, &found[place])?;
        errors.push(error)?;
    }
    Ok(errors)
}
