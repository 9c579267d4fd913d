//! Calls of undefined names.
ghost use Rattle.std.specs.Prelude.{◌≡◌, IfErr, IfOk, alloc_error, filter, map};
ghost use Rattle.base_language.specs.Pieces.Saying.{AreErrorsFor, piece_of, written};
ghost use Rattle.front_names.specs.NameSets.{HasNames, is_outside, is_unknown};
ghost use Rattle.front_names.specs.Names.{undefined_complaints};

use crate::NameProblem;
use crate::said::errors;
use crate::tables::is_builtin;
use base_language::grammar::Rule;
use base_language::runtime::{Error, Fault, Span};
use std::alloc::{AllocError, Global};
use std::collections::HashSet;

/// Reports `rule NAME is undefined` at each of these calls whose name is neither defined nor a builtin's,
/// in the order of the calls. The only error is allocation failure.
pub fn validate_undefined<'i>(
    alloc: Global,
    definitions: &Vec<Span<'i>>,
    called: &Vec<Span<'i>>,
) -> Result<Vec<Error<Rule>>, Fault>
    ensures told { IfOk result (λ errors.
        AreErrorsFor
        (undefined_complaints (map piece_of definitions.now.items) (map piece_of called.now.items))
        errors.items) }
    ensures memory { IfErr result (λ fault. fault ≡ Fault.Memory alloc_error) }
{
    let defined = names(alloc, definitions)?;
    let undefined = collect_undefined(alloc, &defined, called)?;
    errors(alloc, NameProblem::Undefined, &undefined)
}

/// Collects the calls whose name is neither in a set of names nor a builtin's, in their order.
pub(crate) fn collect_undefined<'i>(
    alloc: Global,
    defined: &HashSet<&str>,
    called: &[Span<'i>],
) -> Result<Vec<Span<'i>>, AllocError>
    ensures { IfOk result (λ calls. calls.items
        ≡ filter (λ call. is_outside defined.now (piece_of call)) called.now) }
{
    called
        .iter()
        .copied()
        .filter(|call| is_undefined(defined, call.as_str()))
        .collect(alloc)
}

/// Whether `name` is neither in a set of names nor a builtin's.
fn is_undefined(defined: &HashSet<&str>, name: &str) -> bool
    ensures { result ≡ is_unknown defined.now name.now }
{
    !defined.contains(&name) && !is_builtin(name)
}

/// Collects the names at these spans.
fn names<'i>(alloc: Global, places: &[Span<'i>]) -> Result<HashSet<&'i str>, AllocError>
    ensures { IfOk result (HasNames (map written (map piece_of places.now))) }
{
    let mut names = HashSet::with_capacity(alloc, places.len())?;
    for place in places {
        names.insert(place.as_str())?;
    }
    Ok(names)
}
