//! The names of a grammar.
ghost use Rattle.std.specs.Prelude.{IfErr, IfOk, OnOk, [], alloc_error, map, ◌≡◌};
ghost use Rattle.base_language.specs.Pieces.Saying.{AreErrorsFor, piece_of};
ghost use Rattle.front_names.specs.GrammarNames.{AreWrittenAt, IsNameRefusal, complaints_of, first_calls_of};
ghost use Rattle.front_names.specs.Names.{rust_keyword_complaints, undefined_complaints};

use base_language::grammar::Rule;
use base_language::runtime::{Error, Fault, Pairs, Span};
use std::alloc::Global;

/// Returns the builtins that a grammar uses, or the errors of its names.
pub fn validate_pairs<'i>(alloc: Global, pairs: Pairs<'i, Rule>) -> Result<Vec<&'i str>, Fault>
    ensures no_complaints { OnOk result (complaints_of pairs.entry ≡ []) }
    ensures builtins { IfOk result (λ names. AreWrittenAt (first_calls_of pairs.entry) names.items) }
    ensures refused { IfErr result (IsNameRefusal (complaints_of pairs.entry)) }
{
    front_names::validate_pairs(alloc, pairs)
}

/// Returns the definitions that are keywords of Rust.
pub fn validate_rust_keywords(
    alloc: Global,
    definitions: &Vec<Span<'_>>,
) -> Result<Vec<Error<Rule>>, Fault>
    ensures told { let places = map piece_of definitions.now.items in
        IfOk result (λ errors. AreErrorsFor (rust_keyword_complaints places) errors.items) }
    ensures memory { IfErr result (λ fault. fault ≡ Fault.Memory alloc_error) }
{
    front_names::validate_rust_keywords(alloc, definitions)
}

/// Returns the calls of names that nothing defines.
pub fn validate_undefined<'i>(
    alloc: Global,
    definitions: &Vec<Span<'i>>,
    called: &Vec<Span<'i>>,
) -> Result<Vec<Error<Rule>>, Fault>
    ensures told { IfOk result (λ errors.
        AreErrorsFor
        (undefined_complaints (map piece_of definitions.now.items) (map piece_of called.now.items))
        errors.items) }
    ensures memory { IfErr result (λ fault. fault ≡ Fault.Memory alloc_error) }
{
    front_names::validate_undefined(alloc, definitions, called)
}
