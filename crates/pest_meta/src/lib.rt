//! The front end: from a grammar's text to its optimized rules.
#![tactic(auto)]

pub mod ast;
pub mod laws;
mod opened;
pub mod parser;
mod report;
mod spanned;
pub mod validator;
mod written;

ghost use Rattle.std.specs.Prelude.{[], IfErr, IfOk};
ghost use Rattle.base_ast.specs.Optimized.{optimized_rules_of};
ghost use Rattle.base_language.specs.Language.CharacterBounds.{HasCharacterBounds};
ghost use Rattle.base_language.specs.Language.KnownNames.{HasKnownNames};
ghost use Rattle.base_language.specs.Language.WellFormed.{IsPlain};
ghost use Rattle.front_stack_loops.specs.Certain.{AreReports};
ghost use Rattle.pest_meta.specs.Promises.{AreBuiltinsOf, EndsFromEverywhere, HasOutcomesOf};
ghost use Rattle.pest_meta.specs.Promises.{IsWellFormedGrammar, OfRead, OfSpelled};
ghost use Rattle.front_restorer.specs.Agreeing.{AgreesLoosely, WrappersSuffice};
ghost use Rattle.pest_meta.specs.Spelling.{HasRefusal, IsAnswer, IsRefusal};

pub use base_language::runtime;
pub use front_optimizer as optimizer;
use front_spanned::erase_spans;
pub use front_syntax::grammar;
pub use opened::{OpenError, OpenGrammar, open, open_unvalidated};
use optimizer::OptimizedRule;
pub use report::{Report, unwrap_or_report};
use runtime::Fault;
pub use spanned::{optimize_with_spans, parse_with_spans};
use std::alloc::Global;
pub use written::parse_as_written;

/// Parses the grammar `grammar`. Returns the builtins that it uses, and its optimized rules.
///
/// The builtins are the names that the grammar calls and does not define. All are builtins of pest
/// or names of Unicode properties. No name is there twice, and the names are in the order of their
/// first calls. The rules are those that the text spells, in order, with their names and types.
/// Three changes are made to their bodies. Rewriting steps keep the outcomes from every start. The
/// pass `list` may change what some rules match. Then wrappers are added.
///
/// The returned rules call only rules and builtins, and both bounds of each range are one
/// character. If the text's grammar is plain, every rule has exactly one outcome from every start.
/// A failed `POP` or `POP_ALL` may give its entries back or not. The outcomes of the returned rules
/// do not depend on this, if `WHITESPACE` and `COMMENT` of the text reach no `POP` and no
/// `POP_ALL`. The stack pass reports nothing for an accepted text.
///
/// # Errors
/// The first one that applies, in this order. Positions in errors are in bytes, from 0. Lines and
/// columns count from 1, and columns are in characters.
/// - `Fault::Grammar` with one syntax error, if the text is no grammar.
/// - `Fault::Grammar` with the errors of `validator::validate_pairs`, if the names are not in
///   order.
/// - `Fault::Grammar` with the errors of `parser::consume_rules`, if the rules are wrong. The
///   reports of the stack pass are among them.
///
/// `Fault::Memory` is returned if an allocation fails, or if `grammar` has 2^32 bytes or more.
pub fn parse_and_optimize<'i>(
    alloc: Global,
    grammar: &'i str,
) -> Result<(Vec<&'i str>, Vec<OptimizedRule>), Fault>
    ensures answer { IfOk result (λ answer. IsAnswer grammar.entry.now answer.0.items answer.1.items) }
    ensures builtins { IfOk result (λ answer. OfSpelled grammar.entry.now
        (λ rules. AreBuiltinsOf rules answer.0.items)) }
    ensures sound { IfOk result (λ answer. OfSpelled grammar.entry.now IsWellFormedGrammar) }
    ensures outcomes { IfOk result (λ answer. OfSpelled grammar.entry.now
        (λ rules. HasOutcomesOf rules (optimized_rules_of answer.1.items))) }
    ensures known_names { IfOk result (λ answer. HasKnownNames (optimized_rules_of answer.1.items)) }
    ensures character_bounds { IfOk result
        (λ answer. HasCharacterBounds (optimized_rules_of answer.1.items)) }
    ensures ends { IfOk result (λ answer. OfSpelled grammar.entry.now
        (λ rules. IsPlain rules → EndsFromEverywhere rules)) }
    ensures answer_ends { IfOk result (λ answer. OfSpelled grammar.entry.now
        (λ rules. IsPlain rules → EndsFromEverywhere (optimized_rules_of answer.1.items))) }
    ensures no_reports { IfOk result (λ answer. OfRead grammar.entry.now (λ rules. AreReports rules [])) }
    ensures agrees { IfOk result (λ answer. OfSpelled grammar.entry.now
        (λ rules. WrappersSuffice rules → AgreesLoosely (optimized_rules_of answer.1.items))) }
    ensures refused { IfErr result (IsRefusal grammar.entry.now) }
    ensures no_refusal { IfOk result (λ answer. HasRefusal grammar.entry.now → ⊥) }
{
    let (builtins, spanned) = parse_with_spans(alloc, grammar)?;
    let rules = erase_spans(alloc, spanned)?;
    Ok((builtins, optimizer::optimize(alloc, rules)?))
}
