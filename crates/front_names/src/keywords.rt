//! Names that no rule may have, and names that are defined twice.
ghost use Rattle.std.specs.Prelude.{[], ◌≡◌, IfErr, IfOk, OnOk, alloc_error, map};
ghost use Rattle.base_language.specs.Pieces.Saying.{AreErrorsFor, piece_of, written};
ghost use Rattle.front_names.specs.NameSets.{HasNames};
ghost use Rattle.front_names.specs.Names.{duplicate_complaints, later_places, pest_keyword_complaints, places_of, rust_keyword_complaints};

use crate::NameProblem;
use crate::said::errors;
use crate::tables::{is_among, pest_keywords, rust_keywords};
use base_language::grammar::Rule;
use base_language::runtime::{Error, Fault, Span};
use std::alloc::{AllocError, Global};
use std::collections::HashSet;

/// Reports `NAME is a rust keyword` at each of these definitions whose name Rust reserves, in their order.
/// The only error is allocation failure.
pub fn validate_rust_keywords(
    alloc: Global,
    definitions: &Vec<Span<'_>>,
) -> Result<Vec<Error<Rule>>, Fault>
    ensures told { let places = map piece_of definitions.now.items in
        IfOk result (λ errors. AreErrorsFor (rust_keyword_complaints places) errors.items) }
    ensures memory { IfErr result (λ fault. fault ≡ Fault.Memory alloc_error) }
{
    let words = places_of(alloc, rust_keywords(), definitions)?;
    errors(alloc, NameProblem::RustKeyword, &words)
}

/// Reports `NAME is a pest keyword` at each of these definitions whose name pest reserves, in their order.
/// The only error is allocation failure.
pub fn validate_pest_keywords(
    alloc: Global,
    definitions: &Vec<Span<'_>>,
) -> Result<Vec<Error<Rule>>, Fault>
    ensures told { let places = map piece_of definitions.now.items in
        IfOk result (λ errors. AreErrorsFor (pest_keyword_complaints places) errors.items) }
    ensures memory { IfErr result (λ fault. fault ≡ Fault.Memory alloc_error) }
{
    let words = places_of(alloc, pest_keywords(), definitions)?;
    errors(alloc, NameProblem::PestKeyword, &words)
}

/// Reports `rule NAME already defined` at each of these definitions that has an earlier one of its name, in
/// their order. The only error is allocation failure.
pub fn validate_already_defined(
    alloc: Global,
    definitions: &Vec<Span<'_>>,
) -> Result<Vec<Error<Rule>>, Fault>
    ensures told { let places = map piece_of definitions.now.items in
        IfOk result (λ errors. AreErrorsFor (duplicate_complaints places) errors.items) }
    ensures memory { IfErr result (λ fault. fault ≡ Fault.Memory alloc_error) }
{
    let again = later(alloc, definitions, &mut HashSet::new(alloc))?;
    errors(alloc, NameProblem::AlreadyDefined, &again)
}

/// Collects the spans whose name occurs at an earlier span, in their order, and adds all names to `known`.
pub(crate) fn later<'i>(
    alloc: Global,
    places: &[Span<'i>],
    known: &mut HashSet<&'i str>,
) -> Result<Vec<Span<'i>>, AllocError>
    requires empty { HasNames [] known.old }
    ensures later { IfOk result (λ later.
        map piece_of later.items ≡ later_places [] (map piece_of places.now)) }
    ensures known { OnOk result (HasNames (map written (map piece_of places.now)) known.new) }
{
    let mut later = Vec::new(alloc);
    for place in places {
        if !known.insert(place.as_str())? {
            later.push(*place)?;
        }
    }
    Ok(later)
}

/// Collects the spans whose name is among `names`, in their order.
pub(crate) fn places_of<'i>(
    alloc: Global,
    names: &[&str],
    places: &[Span<'i>],
) -> Result<Vec<Span<'i>>, AllocError>
    ensures { IfOk result (λ found. map piece_of found.items
        ≡ places_of (map (λ name. name.now) names.now) (map piece_of places.now)) }
{
    places
        .iter()
        .copied()
        .filter(|place| is_among(names, place.as_str()))
        .collect(alloc)
}
