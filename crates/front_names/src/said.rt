//! The errors that tell of findings about names.
ghost use Rattle.std.specs.Prelude.{◌≡◌, IfErr, IfOk, alloc_error, map};
ghost use Rattle.base_language.specs.Pieces.Saying.{IsErrorAt, AreErrorsFor, piece_of};
ghost use Rattle.base_language.specs.Pieces.Span.{span_text};
ghost use Rattle.base_language.specs.Pieces.Survey.{survey_text};
ghost use Rattle.front_names.specs.NameFindings.{complaint_of, told_by};
ghost use Rattle.front_names.specs.Names.{AreIn, complaints};

use crate::{NameFinding, NameProblem};
use base_language::grammar::Rule;
use base_language::runtime::{Error, ErrorVariant, Fault, Span, Survey};
use std::alloc::{AllocError, Global};

/// Makes the error that tells of a finding. The only error is allocation failure.
fn error(alloc: Global, finding: NameFinding<'_>) -> Result<Error<Rule>, Fault>
    ensures says { IfOk result
        (IsErrorAt (complaint_of finding.entry).message (complaint_of finding.entry).span) }
    ensures memory { IfErr result (λ fault. fault ≡ Fault.Memory alloc_error) }
{
    let message = finding.message(alloc)?;
    Error::new_from_span(alloc, ErrorVariant::CustomError { message }, finding.span)
}

/// Makes an error of this problem at each of these spans of names, in their order. The only error is
/// allocation failure.
pub(crate) fn errors(
    alloc: Global,
    problem: NameProblem,
    places: &[Span<'_>],
) -> Result<Vec<Error<Rule>>, Fault>
    ensures told { IfOk result (λ errors.
        AreErrorsFor (complaints problem (map piece_of places.now)) errors.items) }
    ensures memory { IfErr result (λ fault. fault ≡ Fault.Memory alloc_error) }
{
    let mut errors = Vec::new(alloc);
    for place in places {
        let finding = NameFinding {
            problem,
            span: *place,
        };
        let error = error(alloc, finding)?;
        errors.push(error)?;
    }
    Ok(errors)
}

/// Makes the error that tells of a finding in a surveyed text. The only error is allocation failure.
fn error_in(
    alloc: Global,
    survey: &mut Survey<'_>,
    finding: NameFinding<'_>,
) -> Result<Error<Rule>, Fault>
    requires in_text { span_text finding.span ≡ survey_text survey.old }
    ensures says { IfOk result
        (IsErrorAt (complaint_of finding.entry).message (complaint_of finding.entry).span) }
    ensures memory { IfErr result (λ fault. fault ≡ Fault.Memory alloc_error) }
    ensures survey { survey_text survey.new ≡ survey_text survey.old }
{
    let message = finding.message(alloc)?;
    let variant = ErrorVariant::CustomError { message };
    Error::new_in_survey(alloc, variant, survey, finding.span)
}

/// Makes the errors that tell of findings in one text, in their order. The only error is allocation failure.
pub fn name_errors(
    alloc: Global,
    text: &str,
    findings: &[NameFinding<'_>],
) -> Result<Vec<Error<Rule>>, Fault>
    requires in_text { AreIn text.now (map (λ finding. piece_of finding.span) findings.now) }
    ensures told { IfOk result (λ errors. AreErrorsFor (told_by findings.now) errors.items) }
    ensures memory { IfErr result (λ fault. fault ≡ Fault.Memory alloc_error) }
{
    let mut errors = Vec::new(alloc);
    let mut survey = Survey::new(alloc, text)?;
    for finding in findings {
        let error = error_in(alloc, &mut survey, *finding)?;
        errors.push(error)?;
    }
    Ok(errors)
}
