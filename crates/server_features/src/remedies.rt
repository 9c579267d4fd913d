//! Remedies of diagnostics.
ghost use Rattle.std.specs.Prelude.{◌≡◌, IfOk, None};
ghost use Rattle.server_features.specs.Remedies.{AppliesFix, Defines, IsRemedyBy, IsRemedyByCode};
ghost use Rattle.server_features.specs.Remedies.{Removes};
ghost use Rattle.server_features.specs.Remedies as spec;

use crate::diagnostics::extent_of;
use lint_diagnostics::{Applicability, Code, Diagnostic, Fix, Help};
use server_requests::context::Context;
use server_symbols::{Extent, Token};
use std::alloc::{AllocError, Global};

/// A remedy: the bytes that are replaced, their replacement, and what that does, in words.
#[derive(Drop)]
pub struct Remedy {
    pub extent: Extent,
    pub replacement: String,
    pub title: String,
    /// Whether editors may apply it unasked.
    pub is_preferred: bool,
}

/// Returns the remedy of a diagnostic: the fix of its help, or else that of its code.
pub fn remedy_of(
    alloc: Global,
    context: &Context<'_>,
    diagnostic: &Diagnostic,
) -> Result<Option<Remedy>, AllocError>
    ensures { IfOk result (IsRemedyBy context.now diagnostic.now diagnostic.now.help) }
{
    match &diagnostic.help {
        Some(Help { fix: Some(fix), .. }) => Ok(Some(fix_remedy(alloc, fix)?)),
        _ => remedy_by_code(alloc, context, diagnostic),
    }
}

/// Returns the remedy that applies a fix.
fn fix_remedy(alloc: Global, fix: &Fix) -> Result<Remedy, AllocError>
    ensures { IfOk result (AppliesFix fix.now) }
{
    Ok(Remedy {
        extent: extent_of(fix.start, fix.end),
        replacement: String::from_str(alloc, fix.replacement.as_str())?,
        title: String::from_str(alloc, fix.title.as_str())?,
        is_preferred: is_safe(fix.applicability),
    })
}

/// Whether a fix may be applied unasked.
fn is_safe(applicability: Applicability) -> bool
    ensures { result ≡ spec.is_safe applicability }
{
    match applicability {
        Applicability::Safe => true,
        Applicability::Unsafe => false,
    }
}

/// Returns the remedy of a diagnostic without a fix.
fn remedy_by_code(
    alloc: Global,
    context: &Context<'_>,
    diagnostic: &Diagnostic,
) -> Result<Option<Remedy>, AllocError>
    ensures { IfOk result (IsRemedyByCode context.now diagnostic.now diagnostic.now.code) }
{
    match diagnostic.code {
        Code::UndefinedRule => {
            let name = context.part(extent_of(diagnostic.start, diagnostic.end));
            Ok(Some(definition_remedy(alloc, context, name)?))
        }
        Code::Unreachable => {
            let bar = bar_before(context.tokens, diagnostic.start);
            removal_of(alloc, bar, diagnostic)
        }
        _ => Ok(None),
    }
}

/// Returns the remedy of a call of a rule that is not defined: a definition at the end.
fn definition_remedy(alloc: Global, context: &Context<'_>, name: &str) -> Result<Remedy, AllocError>
    ensures { IfOk result (Defines context.now name.now) }
{
    let end = context.text.len();
    Ok(Remedy {
        extent: extent_of(end, end),
        replacement: format!(in alloc; "\n{name} = {{ \"{name}\" }}\n")?,
        title: format!(in alloc; "Define the rule `{name}`")?,
        is_preferred: false,
    })
}

/// Returns the remedy of an alternative that is never taken, its removal with the `|` before it.
fn removal_of(
    alloc: Global,
    bar: Option<Token>,
    diagnostic: &Diagnostic,
) -> Result<Option<Remedy>, AllocError>
    ensures { IfOk result (Removes diagnostic.now bar) }
{
    let Some(bar) = bar else {
        return Ok(None);
    };
    Ok(Some(Remedy {
        extent: extent_of(bar.start, diagnostic.end),
        replacement: String::new(alloc),
        title: String::from_str(alloc, "Remove this alternative")?,
        is_preferred: false,
    }))
}

/// Returns the last token that ends before an offset, if it is a `|`.
fn bar_before(tokens: &[Token], offset: usize) -> Option<Token>
    ensures { result ≡ spec.bar_before offset tokens.now }
{
    let last = last_before(tokens, offset)?;
    if last.is_sign(b'|') { Some(last) } else { None }
}

/// Returns the last token before an offset that is no comment.
#[tactic(auto, using(crate::proofs::Finding::last_found, crate::proofs::Finding::last_kept))]
fn last_before(tokens: &[Token], offset: usize) -> Option<Token>
    ensures { result ≡ spec.last_before offset tokens.now }
{
    let mut last = None;
    let mut rest = tokens;
    while let Some((token, after)) = rest.split_first() {
        if is_before(*token, offset) {
            last = Some(*token);
        }
        rest = after;
    }
    last
}

/// Whether a token is no comment, and ends before an offset.
fn is_before(token: Token, offset: usize) -> bool
    ensures { result ≡ spec.is_before offset token }
{
    token.end <= offset && !token.is_comment()
}
