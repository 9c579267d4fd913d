//! The names of a whole grammar.
ghost use Rattle.std.specs.Prelude.{[], ◌≡◌, List, IfErr, IfOk, OnOk, map};
ghost use Rattle.base_language.specs.Language.Text.{Text};
ghost use Rattle.base_language.specs.Pieces.Saying.{piece_of, written};
ghost use Rattle.front_names.specs.NameFindings.{AreNameFindings, told_by};
ghost use Rattle.front_names.specs.NameSets.{HasNames};
ghost use Rattle.front_names.specs.Names.{first_places};
ghost use Rattle.front_names.specs.GrammarNames.{AreWrittenAt, IsNameRefusal, complaints_of, first_calls_of, forest_complaints, forest_first_calls, name_complaints};

use crate::findings::add_findings;
use crate::keywords::{later, places_of};
use crate::said::name_errors;
use crate::tables::pest_keywords;
use crate::undefined::collect_undefined;
use crate::{NameError, NameFinding, NameProblem, found};
use base_language::grammar::Rule;
use base_language::runtime::{Fault, Pairs, Span};
use front_nodes::forest::Forest;
use std::alloc::{AllocError, Global};
use std::collections::HashSet;

/// Returns the names that a grammar calls and does not define, each once, in the order of their first calls,
/// as written at that call. All of them are builtins. `pairs` are those of a parse of a text by
/// `grammar_rules`. In any others, the first tree of a `grammar_rule` is its definition, if that is an
/// `identifier`, and all `identifier`s after it are calls.
///
/// If names are wrong, there is an error at each of these positions, in this order:
/// - `NAME is a pest keyword`, at each definition whose name pest reserves;
/// - `rule NAME already defined`, at each definition that has an earlier one of its name;
/// - `rule NAME is undefined`, at each call of a name that is neither defined nor a builtin.
///
/// Any other fault is an allocation failure.
pub fn validate_pairs<'i>(alloc: Global, pairs: Pairs<'i, Rule>) -> Result<Vec<&'i str>, Fault>
    ensures no_complaints { OnOk result (complaints_of pairs.entry ≡ []) }
    ensures builtins { IfOk result (λ names. AreWrittenAt (first_calls_of pairs.entry) names.items) }
    ensures refused { IfErr result (IsNameRefusal (complaints_of pairs.entry)) }
{
    collect_builtins(alloc, &pairs)
}

/// Returns the names or the errors of `validate_pairs` for pairs that are lent.
pub fn collect_builtins<'i>(alloc: Global, pairs: &Pairs<'i, Rule>) -> Result<Vec<&'i str>, Fault>
    ensures no_complaints { OnOk result (complaints_of pairs.now ≡ []) }
    ensures builtins { IfOk result (λ names. AreWrittenAt (first_calls_of pairs.now) names.items) }
    ensures refused { IfErr result (IsNameRefusal (complaints_of pairs.now)) }
{
    let forest = Forest::of_pairs(alloc, pairs)?;
    collect_in_forest(alloc, &forest)
}

/// Returns the names or the errors of `validate_pairs` for the trees of a grammar's text.
pub fn collect_in_forest<'i>(alloc: Global, forest: &Forest<'i>) -> Result<Vec<&'i str>, Fault>
    ensures no_complaints { OnOk result (forest_complaints forest.now ≡ []) }
    ensures builtins { IfOk result (λ names. AreWrittenAt (forest_first_calls forest.now) names.items) }
    ensures refused { IfErr result (IsNameRefusal (forest_complaints forest.now)) }
{
    match check_forest(alloc, forest) {
        Ok(names) => Ok(names),
        Err(NameError::Memory(error)) => Err(error.into()),
        Err(NameError::Found(findings)) => {
            let errors = name_errors(alloc, forest.get_input(), &findings)?;
            Err(Fault::Grammar(errors))
        }
    }
}

/// Returns the names of `validate_pairs` for pairs that are lent, or the findings that its errors tell of, in
/// the order of these.
pub fn check_names<'i>(
    alloc: Global,
    pairs: &Pairs<'i, Rule>,
) -> Result<Vec<&'i str>, NameError<'i>>
    ensures no_complaints { OnOk result (complaints_of pairs.now ≡ []) }
    ensures builtins { IfOk result (λ names. AreWrittenAt (first_calls_of pairs.now) names.items) }
    ensures refused { IfErr result (AreNameFindings (complaints_of pairs.now)) }
{
    let forest = Forest::of_pairs(alloc, pairs)?;
    check_forest(alloc, &forest)
}

/// Returns the names of `validate_pairs` for the trees of a grammar's text, or the findings of its errors.
pub fn check_forest<'i>(alloc: Global, forest: &Forest<'i>) -> Result<Vec<&'i str>, NameError<'i>>
    ensures no_complaints { OnOk result (forest_complaints forest.now ≡ []) }
    ensures builtins { IfOk result (λ names. AreWrittenAt (forest_first_calls forest.now) names.items) }
    ensures refused { IfErr result (AreNameFindings (forest_complaints forest.now)) }
{
    let text = forest.get_input();
    let trees = forest.nodes();
    let definitions = found::definitions(alloc, text, trees)?;
    let calls = found::calls(alloc, text, trees)?;
    let mut known = HashSet::with_capacity(alloc, definitions.len())?;
    let findings = find_in_names(alloc, &definitions, &calls, &mut known)?;
    if !findings.is_empty() {
        return Err(NameError::Found(findings));
    }
    Ok(first_calls(alloc, known, &calls)?)
}

/// Collects the findings about the names of these definitions and calls: keywords, then duplicates, then
/// undefined names. Adds the names of the definitions to `known`.
fn find_in_names<'i>(
    alloc: Global,
    definitions: &[Span<'i>],
    calls: &[Span<'i>],
    known: &mut HashSet<&'i str>,
) -> Result<Vec<NameFinding<'i>>, AllocError>
    requires empty { HasNames [] known.old }
    ensures told { IfOk result (λ findings. told_by findings.items
        ≡ name_complaints (map piece_of definitions.now) (map piece_of calls.now)) }
    ensures known { OnOk result (HasNames (map written (map piece_of definitions.now)) known.new) }
{
    let reserved = places_of(alloc, pest_keywords(), definitions)?;
    let again = later(alloc, definitions, known)?;
    let undefined = collect_undefined(alloc, known, calls)?;
    let mut found = Vec::new(alloc);
    add_findings(NameProblem::PestKeyword, &reserved, &mut found)?;
    add_findings(NameProblem::AlreadyDefined, &again, &mut found)?;
    add_findings(NameProblem::Undefined, &undefined, &mut found)?;
    Ok(found)
}

/// Collects the names of the calls that are not `known`, each once, in the order of their first calls.
fn first_calls<'i>(
    alloc: Global,
    mut known: HashSet<&'i str>,
    calls: &[Span<'i>],
) -> Result<Vec<&'i str>, AllocError>
    ensures { (before : List Text) → HasNames before known.entry
        → IfOk result (λ names. AreWrittenAt (first_places before (map piece_of calls.now)) names.items) }
{
    let mut first = Vec::new(alloc);
    for call in calls {
        let name = call.as_str();
        if known.insert(name)? {
            first.push(name)?;
        }
    }
    Ok(first)
}
