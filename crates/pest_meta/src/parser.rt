//! From a grammar's text to its pairs, and from these to its rules.
ghost use Rattle.std.specs.Prelude.{IfErr, IfOk};
ghost use Rattle.base_ast.specs.Ast.{rules_of};
ghost use Rattle.base_language.specs.Pieces.NamedTrees.{named};
ghost use Rattle.base_language.specs.Pieces.Pairs.{pairs_text, pairs_trees};
ghost use Rattle.base_language.specs.Language.WellFormed.{HasReadableCounts};
ghost use Rattle.front_nodes.specs.Forests.{forest_text, forest_trees};
ghost use Rattle.front_reader.specs.Refusals.{IsReadAs};
ghost use Rattle.front_spanned.specs.Erasure.{rules_without_spans};
ghost use Rattle.front_spanned.specs.Nodes.{rule_views};
ghost use Rattle.front_syntax.specs.Parses.{AreOfAGrammar, IsOfAGrammar};
ghost use Rattle.pest_meta.specs.Spelling.{AreAccepted, AreRejected};

use crate::validator::validate_ast_in;
use base_ast::ast;
use base_ast::deep::Deep;
use base_language::runtime::{Fault, Pairs};
use front_nodes::forest::Forest;
use front_reader::rules::consume_forest_with_spans;
pub use front_reader::rules::{
    ParserExpr, ParserNode, ParserRule, PestParser, Rule, common_name, consume_rules_with_spans,
    filter_internal, parse, rename_meta_rule,
};
use front_spanned::erase_spans;
pub use front_spanned::release;
use std::alloc::Global;

/// Returns the rules that `pairs` spell, in order, without spans. Condition: `pairs` are all pairs of a
/// parse of a text by `grammar_rules`.
///
/// # Errors
/// - `Fault::Memory` if an allocation fails.
/// - `Fault::Grammar` with one error, if there is a flaw: the error of the first flaw, as in
///   `consume_rules_with_spans`.
/// - `Fault::Grammar` with all errors of `validate_ast`, if the rules are wrong. Reports of the stack pass
///   are among them.
pub fn consume_rules(alloc: Global, pairs: Pairs<'_, Rule>) -> Result<Vec<ast::Rule>, Fault>
    requires { AreOfAGrammar pairs }
    ensures rules { IfOk result
        (λ rules. AreAccepted (pairs_text pairs.entry) (named (pairs_trees pairs.entry))
        (rules_of rules.items)) }
    ensures counts { IfOk result (λ rules. HasReadableCounts (rules_of rules.items)) }
    ensures refused { IfErr result (AreRejected (pairs_text pairs.entry) (named (pairs_trees pairs.entry))) }
{
    let forest = Forest::of_pairs(alloc, &pairs)?;
    consume_forest(alloc, &forest)
}

/// Returns the rules that the trees in `forest` spell, in order, without spans. Condition: `forest`
/// has all trees of a parse of a text by `grammar_rules`.
///
/// # Errors
/// Those of `consume_rules`.
pub fn consume_forest(alloc: Global, forest: &Forest<'_>) -> Result<Vec<ast::Rule>, Fault>
    requires { IsOfAGrammar forest.now }
    ensures rules { IfOk result
        (λ rules. AreAccepted (forest_text forest.now) (named (forest_trees forest.now))
        (rules_of rules.items)) }
    ensures counts { IfOk result (λ rules. HasReadableCounts (rules_of rules.items)) }
    ensures refused { IfErr result (AreRejected (forest_text forest.now) (named (forest_trees forest.now))) }
{
    let rules = consume_valid_rules(alloc, forest)?;
    Ok(erase_spans(alloc, rules)?)
}

/// Returns the rules that the trees of a grammar's text spell, in order, with the spans of their nodes, if
/// nothing is found in them. Errors are those of `consume_rules`.
fn consume_valid_rules<'i>(alloc: Global, forest: &Forest<'i>) -> Result<Vec<ParserRule<'i>>, Fault>
    requires { IsOfAGrammar forest.now }
    ensures read { IfOk result (λ rules. IsReadAs forest.now (rule_views rules.items)) }
    ensures accepted { IfOk result
        (λ rules. AreAccepted (forest_text forest.now) (named (forest_trees forest.now))
        (rules_without_spans (rule_views rules.items))) }
    ensures refused { IfErr result (AreRejected (forest_text forest.now) (named (forest_trees forest.now))) }
{
    let text = forest.get_input();
    let rules = consume_forest_with_spans(alloc, forest)?;
    let rules = Deep { value: rules };
    let errors = validate_ast_in(alloc, text, &rules.value)?;
    if !errors.is_empty() {
        return Err(Fault::Grammar(errors));
    }
    Ok(rules.into_inner())
}
