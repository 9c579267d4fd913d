//! Renames, also in a statement of starts.
ghost use Rattle.std.specs.Prelude.{◌≡◌, IfOk, map};
ghost use Rattle.lint_findings.specs.Fragments.{fragment_of};
ghost use Rattle.server_features.specs.Renames as spec;
ghost use Rattle.server_requests.specs.Answers.{IsRename};
ghost use Rattle.serde_json.specs.View.{view};

use lint_findings::{Fragment, stated_starts};
use serde_json::Value;
use server_protocol::messages::Answer;
use server_requests::context::Context;
use server_requests::names;
use server_symbols::Extent;
use std::alloc::{AllocError, Global};

/// Returns the edits that rename the rule at a position, also in the comment that states the starts of the
/// grammar.
pub fn rename_rule(
    alloc: Global,
    context: &Context<'_>,
    params: &Value,
) -> Result<Answer, AllocError>
    ensures { IfOk result (IsRename context.now (spec.stated_names context.now.text.now) (view params.now)) }
{
    let stated = stated_names(alloc, context.text)?;
    names::rename_rule(alloc, context, &stated, params)
}

/// Returns the extents in which a text states the names of its starts.
fn stated_names(alloc: Global, text: &str) -> Result<Vec<Extent>, AllocError>
    ensures { IfOk result (λ names. names.items ≡ spec.stated_names text.now) }
{
    let starts = stated_starts(alloc, text)?;
    extents_of(alloc, &starts)
}

/// Returns the bytes of parts of a text.
fn extents_of(alloc: Global, parts: &[Fragment<'_>]) -> Result<Vec<Extent>, AllocError>
    ensures { IfOk result (λ extents. extents.items
        ≡ map (λ part. spec.extent_of (fragment_of part)) parts.now) }
{
    parts.iter().map(|part| extent_of(part)).collect(alloc)
}

/// Returns the bytes of a part of a text.
fn extent_of(part: &Fragment<'_>) -> Extent
    ensures { result ≡ spec.extent_of (fragment_of part.now) }
{
    Extent {
        start: part.start,
        end: part.end,
    }
}
