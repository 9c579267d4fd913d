//! The front end as a whole.
ghost use Rattle.std.specs.Prelude.{IfErr, IfOk, IsErrAnd, [], ◌≡◌};
ghost use Rattle.base_ast.specs.Ast.{rules_of};
ghost use Rattle.base_ast.specs.Optimized.{optimized_rules_of};
ghost use Rattle.base_language.specs.Language.CharacterBounds.{HasCharacterBounds};
ghost use Rattle.base_language.specs.Language.KnownNames.{HasKnownNames};
ghost use Rattle.base_language.specs.Language.WellFormed.{HasReadableCounts, IsPlain};
ghost use Rattle.base_language.specs.Pieces.NamedTrees.{named};
ghost use Rattle.base_language.specs.Pieces.Pairs.{pairs_text, pairs_trees};
ghost use Rattle.front_restorer.specs.Agreeing.{AgreesLoosely, WrappersSuffice};
ghost use Rattle.front_stack_loops.specs.Certain.{AreReports};
ghost use Rattle.front_syntax.specs.Parses.{AreOfAGrammar};
ghost use Rattle.pest_meta.specs.Promises.{AreBuiltinsOf, EndsFromEverywhere, HasOutcomesOf, IsWellFormedGrammar, OfRead, OfSpelled};
ghost use Rattle.pest_meta.specs.Reports.{IsReportOf};
ghost use Rattle.pest_meta.specs.Spelling.{AreAccepted, AreRejected, HasRefusal, IsAnswer, IsRefusal};

use base_ast::ast;
use base_ast::optimized::OptimizedRule;
use base_language::grammar::Rule;
use base_language::runtime::{Fault, Pairs};
use pest_meta::Report;
use std::alloc::Global;

/// Returns the rules that the pairs of a grammar spell, or their errors.
pub fn consume_rules(alloc: Global, pairs: Pairs<'_, Rule>) -> Result<Vec<ast::Rule>, Fault>
    requires { AreOfAGrammar pairs }
    ensures rules { IfOk result
        (λ rules. AreAccepted (pairs_text pairs.entry) (named (pairs_trees pairs.entry))
        (rules_of rules.items)) }
    ensures counts { IfOk result (λ rules. HasReadableCounts (rules_of rules.items)) }
    ensures refused { IfErr result (AreRejected (pairs_text pairs.entry) (named (pairs_trees pairs.entry))) }
{
    pest_meta::parser::consume_rules(alloc, pairs)
}

/// Returns the builtins that a grammar uses, and its optimized rules.
pub fn parse_and_optimize<'i>(
    alloc: Global,
    grammar: &'i str,
) -> Result<(Vec<&'i str>, Vec<OptimizedRule>), Fault>
    ensures answer { IfOk result (λ answer. IsAnswer grammar.entry.now answer.0.items answer.1.items) }
    ensures builtins { IfOk result (λ answer. OfSpelled grammar.entry.now
        (λ rules. AreBuiltinsOf rules answer.0.items)) }
    ensures sound { IfOk result (λ answer. OfSpelled grammar.entry.now IsWellFormedGrammar) }
    ensures outcomes { IfOk result (λ answer. OfSpelled grammar.entry.now
        (λ rules. HasOutcomesOf rules (optimized_rules_of answer.1.items))) }
    ensures known_names { IfOk result (λ answer. HasKnownNames (optimized_rules_of answer.1.items)) }
    ensures character_bounds { IfOk result
        (λ answer. HasCharacterBounds (optimized_rules_of answer.1.items)) }
    ensures ends { IfOk result (λ answer. OfSpelled grammar.entry.now
        (λ rules. IsPlain rules → EndsFromEverywhere rules)) }
    ensures answer_ends { IfOk result (λ answer. OfSpelled grammar.entry.now
        (λ rules. IsPlain rules → EndsFromEverywhere (optimized_rules_of answer.1.items))) }
    ensures no_reports { IfOk result (λ answer. OfRead grammar.entry.now (λ rules. AreReports rules [])) }
    ensures agrees { IfOk result (λ answer. OfSpelled grammar.entry.now
        (λ rules. WrappersSuffice rules → AgreesLoosely (optimized_rules_of answer.1.items))) }
    ensures refused { IfErr result (IsRefusal grammar.entry.now) }
    ensures no_refusal { IfOk result (λ answer. HasRefusal grammar.entry.now → ⊥) }
{
    pest_meta::parse_and_optimize(alloc, grammar)
}

/// Returns the value of an outcome, or the report of its fault.
pub fn unwrap_or_report<T>(alloc: Global, outcome: Result<T, Fault>) -> Result<T, Report>
    ensures value { IfOk outcome (λ value. result ≡ Ok value) }
    ensures report { IfErr outcome (λ fault. IsErrAnd result (IsReportOf fault)) }
{
    pest_meta::unwrap_or_report(alloc, outcome)
}
