//! Named starts that are the name of no rule.
ghost use Rattle.std.specs.Prelude.{◌≡◌, ℕ, Bool, IfOk, List, chars, filter, map, not};
ghost use Rattle.std.specs.List.{AllZip};
ghost use Rattle.base_language.specs.Language.Builtins.{is_one_of};
ghost use Rattle.base_language.specs.Language.Text.{Text};
ghost use Rattle.front_spanned.specs.Nodes.{rule_views};
ghost use Rattle.lint_findings.specs.Codes.{warning};
ghost use Rattle.lint_findings.specs.Fragments.{fragment_of};
ghost use Rattle.lint_findings.specs.Reports.{ReportsWarning};
ghost use Rattle.lint_findings.specs.Starts.{is_unknown, place_of};
ghost use Rattle.lint_findings.specs.declared.codes.Code.TheVariants as code;
ghost use Rattle.lint_warnings.specs.Lists.{HasNames, texts_of};

use crate::codes::Code;
use crate::diagnostic::Diagnostic;
use crate::fragments::Fragment;
use crate::helps::listed_help;
use front_spanned::ParserRule;
use lint_hints::{Related, nearest_name};
use lint_warnings::names_of;
use std::alloc::{AllocError, Global};
use std::collections::HashSet;

/// The greatest number of unknown starts of a text for which a similar name is looked for.
const NAMES_LOOKED_UP: usize = 20;

/// Returns a warning for each named start that is the name of no rule. The only error is an
/// allocation failure.
pub fn diagnose_starts(
    alloc: Global,
    rules: &[ParserRule<'_>],
    starts: &[Fragment<'_>],
) -> Result<Vec<Diagnostic>, AllocError>
    ensures { IfOk result (λ warnings. (text : List ℕ) → AllZip ReportsWarning
        (map (warning code.UnknownStart)
        (map (place_of text) (filter (is_unknown (rule_views rules.now)) (map fragment_of starts.now))))
        warnings.items) }
{
    let names = rule_names(alloc, rules)?;
    let strays = strays_among(alloc, &names, starts)?;
    warn_of(alloc, rules, &names, &strays)
}

/// The names of rules, in order.
fn rule_names<'n>(alloc: Global, rules: &'n [ParserRule<'_>]) -> Result<Vec<&'n str>, AllocError>
    ensures { IfOk result (λ names.
        texts_of names.items ≡ map (λ rule. rule.name) (rule_views rules.entry.now)) }
{
    let mut names = Vec::new(alloc);
    for rule in rules {
        names.push(rule.name.as_str())?;
    }
    Ok(names)
}

/// The starts that have none of these names.
fn strays_among<'t>(
    alloc: Global,
    names: &[&str],
    starts: &[Fragment<'t>],
) -> Result<Vec<Fragment<'t>>, AllocError>
    ensures { IfOk result (λ strays. strays.items
        ≡ filter (λ start. not (is_one_of (texts_of names.now) (chars start.text.now))) starts.now) }
{
    let known = names_of(alloc, names)?;
    starts
        .iter()
        .copied()
        .filter(|start| !is_known(start.text, &known))
        .collect(alloc)
}

/// Whether a name is among others.
fn is_known(name: &str, known: &HashSet<&str>) -> bool
    ensures { (f : Text → Bool) → HasNames f known.now → result ≡ f (chars name.now) }
{
    known.contains(&name)
}

/// The warnings of starts that no rule of these names has.
fn warn_of(
    alloc: Global,
    rules: &[ParserRule<'_>],
    names: &[&str],
    strays: &[Fragment<'_>],
) -> Result<Vec<Diagnostic>, AllocError>
    ensures { IfOk result (λ warnings. (text : List ℕ) → AllZip
        (λ stray. ReportsWarning (warning code.UnknownStart (place_of text (fragment_of stray))))
        strays.now warnings.items) }
{
    let mut warnings = Vec::new(alloc);
    for stray in strays {
        let notes = if warnings.len() < NAMES_LOOKED_UP {
            notes_on(alloc, rules, names, stray.text)?
        } else {
            Vec::new(alloc)
        };
        let warning = warning_of(alloc, *stray, notes)?;
        warnings.push(warning)?;
    }
    Ok(warnings)
}

/// The warning of a start that no rule has, with notes.
fn warning_of(
    alloc: Global,
    stray: Fragment<'_>,
    notes: Vec<Related>,
) -> Result<Diagnostic, AllocError>
    ensures { IfOk result (λ diagnostic. (text : List ℕ) →
        ReportsWarning (warning code.UnknownStart (place_of text (fragment_of stray.entry))) diagnostic) }
{
    let code = Code::UnknownStart;
    let mut warning = Diagnostic::new(alloc, code, stray.start, stray.end, code.message())?;
    warning.help = listed_help(alloc, code, stray.text, false)?;
    warning.related = notes;
    Ok(warning)
}

/// The rule whose name is nearest to another one, if one is near.
fn notes_on(
    alloc: Global,
    rules: &[ParserRule<'_>],
    names: &[&str],
    name: &str,
) -> Result<Vec<Related>, AllocError> {
    let mut notes = Vec::new(alloc);
    let Some(nearest) = nearest_name(alloc, name, names)? else {
        return Ok(notes);
    };
    for rule in rules {
        if rule.name.as_str() == nearest {
            let (start, end) = (rule.span.start(), rule.span.end());
            notes.push(Related::new(alloc, start, end, "did you mean this rule?")?)?;
            break;
        }
    }
    Ok(notes)
}
