//! Starts of matching.
ghost use Rattle.std.specs.Prelude.{◌≡◌, Bool, IfOk, map};
ghost use Rattle.base_language.specs.Language.Text.{Text};
ghost use Rattle.doc_pages.specs.Starts.{is_start};
ghost use Rattle.front_spanned.specs.Nodes.{rule_view, rule_views};
ghost use Rattle.lint_findings.specs.Fragments.{fragment_of};
ghost use Rattle.lint_findings.specs.Starts.{names_of as names_in};
ghost use Rattle.lint_warnings.specs.Lists.{HasNames, texts_of};

use front_spanned::ParserRule;
use lint_findings::{Fragment, stated_starts};
use lint_warnings::names_of;
use std::alloc::{AllocError, Global};
use std::collections::HashSet;

/// Whether each rule of a text is a start that a comment of the text states, in the order of the rules. The
/// only error is an allocation failure.
pub fn find_starts(
    alloc: Global,
    text: &str,
    rules: &[ParserRule<'_>],
) -> Result<Vec<bool>, AllocError>
    ensures { IfOk result (λ starts. starts.items ≡ map (is_start text.now) (rule_views rules.now)) }
{
    let stated = stated_starts(alloc, text)?;
    let names = texts_in(alloc, &stated)?;
    let known = names_of(alloc, &names)?;
    let mut starts = Vec::new(alloc);
    for rule in rules {
        starts.push(is_named(rule, &known))?;
    }
    Ok(starts)
}

/// Whether the name of a rule is among these.
fn is_named(rule: &ParserRule<'_>, names: &HashSet<&str>) -> bool
    ensures { (f : Text → Bool) → HasNames f names.now → result ≡ f (rule_view rule.now).name }
{
    names.contains(&rule.name.as_str())
}

/// The texts of fragments.
fn texts_in<'t>(alloc: Global, fragments: &[Fragment<'t>]) -> Result<Vec<&'t str>, AllocError>
    ensures { IfOk result (λ texts. texts_of texts.items ≡ names_in (map fragment_of fragments.now)) }
{
    let mut texts = Vec::new(alloc);
    for fragment in fragments {
        texts.push(fragment.text)?;
    }
    Ok(texts)
}
