//! The names and the position of the report of a failure. The names are those that are expected at the
//! furthest failure. If there are none, they are those of pest's own error.
ghost use Rattle.std.specs.Prelude.{◌≡◌, IfErr, IfOk, IfSome, IsErr, true};
ghost use Rattle.std.specs.Str.{IsCharBoundary};
ghost use Rattle.base_language.specs.Language.Expression.{Grammar};
ghost use Rattle.matcher_support.specs.Compiled.{AreAttemptsIn, AreExpectedIn, IsCompiledOf, IsUnanswered};
ghost use Rattle.pest_run.specs.Failures.{IsFound};
ghost use Rattle.pest_run.specs.Outcomes.{tells_expected};

use crate::arguments::Format;
use crate::messages::is_more;
use matcher_engine::block::BlockStop;
use matcher_engine::matcher::ParseTree;
use matcher_support::attempts::NamedAttempts;
use matcher_support::compiled::CompiledGrammar;
use std::alloc::Global;

/// Looks for the names that are expected at the furthest failure. If there are none, it looks for those of
/// pest's own error, and for the position of that error. No name is returned if that error has none, if they
/// are not found within the limit of steps, or if an allocation fails.
///
/// # Errors
/// Those of `CompiledGrammar::expected_at`.
pub fn find_failure<'a>(
    alloc: Global,
    rules: &'a CompiledGrammar<'a>,
    rule: &'a str,
    text: &'a str,
    furthest: usize,
    steps: u64,
) -> Result<NamedAttempts<'a>, BlockStop>
    requires { IsCharBoundary text.now furthest }
    ensures place { IfOk result (λ failure. IsCharBoundary text.entry.now failure.place) }
    ensures found { (g : Grammar) → IsCompiledOf g rules.entry.now
        → IfOk result (IsFound g rule.entry.now text.entry.now furthest) }
    ensures refused { (g : Grammar) → IsCompiledOf g rules.entry.now
        → IfErr result (IsUnanswered g rule.entry.now text.entry.now steps) }
{
    let positives = rules.expected_at(alloc, rule, text, furthest, steps)?;
    if positives.is_empty() {
        if let Some(attempts) = find_attempts(alloc, rules, rule, text, furthest, steps) {
            return Ok(attempts);
        }
    }
    Ok(NamedAttempts {
        place: furthest,
        positives,
        negatives: Vec::new(alloc),
    })
}

/// Looks for the names of pest's own error, first at the byte `place`, by runs of at most `steps` steps.
/// Returns `None` if the error has no name, or if it is not found.
fn find_attempts<'a>(
    alloc: Global,
    rules: &'a CompiledGrammar<'a>,
    rule: &'a str,
    text: &'a str,
    place: usize,
    steps: u64,
) -> Option<NamedAttempts<'a>>
    ensures place { IfSome result (λ attempts. IsCharBoundary text.entry.now attempts.place) }
    ensures attempts { (g : Grammar) → IsCompiledOf g rules.entry.now
        → IfSome result (AreAttemptsIn g rule.entry.now text.entry.now) }
{
    let Ok(attempts) = rules.attempts(alloc, rule, text, place, steps) else {
        return None;
    };
    let has_names = !attempts.positives.is_empty() || !attempts.negatives.is_empty();
    if has_names && text.is_char_boundary(attempts.place) {
        Some(attempts)
    } else {
        None
    }
}

/// Looks for the names that are expected at the furthest failure of a match, by a run of at most `steps`
/// steps, if the note on its end has them.
///
/// # Errors
/// Those of `CompiledGrammar::expected_at`.
pub fn names_after<'a>(
    alloc: Global,
    rules: &'a CompiledGrammar<'a>,
    rule: &'a str,
    text: &'a str,
    found: &ParseTree,
    format: Format,
    steps: u64,
) -> Result<Vec<&'a str>, BlockStop>
    requires { IsCharBoundary text.now found.now.end }
    ensures expected { (g : Grammar) → IsCompiledOf g rules.entry.now → IfOk result (λ names.
        tells_expected format text.entry.now found.now.end found.now.furthest ≡ true
        → AreExpectedIn g rule.entry.now text.entry.now found.now.furthest names.items) }
    ensures refused { (g : Grammar) → IsCompiledOf g rules.entry.now
        → IfErr result (IsUnanswered g rule.entry.now text.entry.now steps) }
    ensures asked { IsErr result
        → tells_expected format text.entry.now found.now.end found.now.furthest ≡ true }
{
    match format {
        Format::Text if found.furthest >= found.end && is_more(&text[found.end..]) => {
            rules.expected_at(alloc, rule, text, found.furthest, steps)
        }
        _ => Ok(Vec::new(alloc)),
    }
}
