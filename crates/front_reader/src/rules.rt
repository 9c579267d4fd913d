//! The reader turns the token trees of a grammar's text into its rules.
ghost use Rattle.std.specs.Prelude.{◌≡◌, [], IfErr, IfOk, MatchResult, OnOk};
ghost use Rattle.base_language.specs.Pieces.Pairs.{pairs_text};
ghost use Rattle.front_nodes.specs.Nodes.{named_trees_of};
ghost use Rattle.front_syntax.specs.Parses.{AreOfAGrammar, AreSpelled, IsOfAGrammar, ParseRefuses};
ghost use Rattle.front_reader.specs.Refusals.{AreReadAs, IsReadAs, IsReadRefusal, first_flaw_in, first_flaw_of};
ghost use Rattle.front_reader.specs.Pieces.{AreInText};
ghost use Rattle.front_grammar.specs.Shape.{AreGrammarTrees, IsRule};
ghost use Rattle.front_reader.specs.Views.{AnswersRule, AnswersRules, IsFirst, MayBeModifier, TakesModifier};
ghost use Rattle.front_spanned.specs.Nodes.{rule_views, type_of};

mod common;
mod flaws;
mod levels;
mod literal;
mod operators;
mod pieces;
mod reading;
mod shown;
mod signs;
mod terminals;

pub use crate::rules::common::common_name;
use crate::rules::flaws::refusal;
pub use crate::rules::flaws::{Cause, Flaw, ReadError, flaw_errors};
use crate::rules::levels::Level;
use crate::rules::pieces::{span_of, text_of};
use crate::rules::reading::expression;
pub use crate::rules::shown::rename_meta_rule;
use base_ast::ast::RuleType;
use base_ast::deep::Deep;
pub use base_language::grammar::Rule;
use base_language::runtime::{Fault, Pairs};
use front_grammar::laws::trees_of_a_grammar_have_their_shape;
use front_nodes::forest::Forest;
use front_nodes::nodes::TokenNode;
pub use front_spanned::{ParserExpr, ParserNode, ParserRule, filter_internal};
pub use front_syntax::grammar::PestParser;
use front_syntax::trees::{first_tree, leading_tree};
use std::alloc::Global;

/// Returns the type that a rule's modifier gives, Normal if there is none, and the trees after the
/// modifier.
fn modifier(trees: &[TokenNode]) -> (RuleType, &[TokenNode])
    requires { MayBeModifier (named_trees_of trees.now) }
    ensures { TakesModifier (named_trees_of trees.entry.now)
        (type_of result.0) (named_trees_of result.1.now) }
{
    let sign = leading_tree(trees);
    match sign.rule {
        Rule::silent_modifier => (RuleType::Silent, sign.others),
        Rule::atomic_modifier => (RuleType::Atomic, sign.others),
        Rule::compound_atomic_modifier => (RuleType::CompoundAtomic, sign.others),
        Rule::non_atomic_modifier => (RuleType::NonAtomic, sign.others),
        _ => (RuleType::Normal, trees),
    }
}

/// Reads a rule from the trees in it, and reports its first flaw. Answers none for a comment that
/// documents a rule. `levels`, an empty list, is lent for the expressions that are open; after an error it
/// may keep some.
fn rule<'i, 't>(
    alloc: Global,
    text: &'i str,
    trees: &'t [TokenNode],
    levels: &mut Vec<Level<'i, 't>>,
) -> Result<Option<ParserRule<'i>>, ReadError<'i>>
    requires shape { IsRule text.now (named_trees_of trees.now) }
    requires nested { AreInText text.now (named_trees_of trees.now) }
    requires empty { levels.old.items ≡ [] }
    ensures answers { AnswersRule text.entry.now (named_trees_of trees.entry.now) result }
    ensures empty { OnOk result (levels.new.items ≡ []) }
{
    let first = leading_tree(trees);
    let Rule::identifier = first.rule else {
        return Ok(None);
    };
    let assignment = leading_tree(first.others);
    let (ty, rest) = modifier(assignment.others);
    let brace = leading_tree(rest);
    let body = leading_tree(brace.others);
    let name = String::from_str(alloc, text_of(text, first))?;
    let node = expression(alloc, text, body.inner, levels)?;
    let span = span_of(text, first);
    Ok(Some(ParserRule {
        name,
        span,
        ty,
        node,
    }))
}

/// Reads the rules that all trees of a grammar's text spell, in their order, and reports the first flaw
/// in it. `trees` are those of a parse of `text` by `grammar_rules`; positions count bytes.
fn rules<'i>(
    alloc: Global,
    text: &'i str,
    trees: &[TokenNode],
) -> Result<Vec<ParserRule<'i>>, ReadError<'i>>
    requires shape { AreGrammarTrees text.now (named_trees_of trees.now) }
    requires nested { AreInText text.now (named_trees_of trees.now) }
    ensures { AnswersRules text.entry.now (named_trees_of trees.now) result }
{
    let mut read = Deep {
        value: Vec::new(alloc),
    };
    let mut levels = Vec::new(alloc);
    let mut rest = trees;
    while let Some(tree) = first_tree(rest) {
        rest = tree.others;
        if let Rule::grammar_rule = tree.rule {
            if let Some(one) = rule(alloc, text, tree.inner, &mut levels)? {
                read.push(Deep { value: one })?;
            }
        }
    }
    Ok(read.into_inner())
}

/// Returns the pairs that the text spells for a rule of the meta-grammar, from its start on, as
/// `PestParser::parse` does. The pairs of a whole grammar are those for `grammar_rules`.
///
/// The rule may stop before the end, unless it asks for `EOI`. Positions in pairs and errors count
/// bytes. If the rule fails, the fault holds one `ParsingError`. Its position is the greatest one at which
/// a rule that gives a token, or `EOI`, was called and failed. Calls in a mode other than Atomic count, in
/// any branch. If there is none, the position is 0. Any other fault is an allocation failure.
pub fn parse<'i>(alloc: Global, rule: Rule, text: &'i str) -> Result<Pairs<'i, Rule>, Fault>
    ensures text { IfOk result (λ pairs. pairs_text pairs ≡ text.entry.now) }
    ensures spelled { MatchResult result (AreSpelled rule) (ParseRefuses rule text.entry.now) }
{
    PestParser::parse(alloc, rule, text)
}

/// Reads the rules that the pairs of a grammar's text spell, in their order, and reports its first flaw.
/// `pairs` are all those of a parse of a text by `grammar_rules`. All positions count bytes of that text.
///
/// A choice splits at its last `|` and a sequence at its last `~`, which binds tighter. The postfix
/// operators after a node apply one after another, and a `!`, `&` or tag before it takes all that follows
/// in its term. A bar before the first alternative and a comment that documents say nothing. A slice
/// without its first number starts at 0, and one without its second has no end.
///
/// A rule has the span of its name, and a node without operands has that of its own text. A choice or a
/// sequence reaches from the start of its left operand to the end of its right one, and a postfix
/// operator from the start of its operand to its own end. A predicate, a tag and `PUSH` begin where they
/// are written, and end where their operand does; a literal push has the span of its string. An
/// expression in parentheses ends with the second of them; and with all postfix operators after them it
/// begins with the first.
///
/// The first flaw of a text is reported, reading from left to right and a tree before those in it: the
/// fault holds one error with a message of its own, at the span of the piece that is wrong:
/// - `escape is not a Unicode scalar value`, at the whole literal: an escape names no character;
/// - `number cannot overflow i32`, at a number of a slice;
/// - `number cannot overflow u32`, at a number in braces;
/// - `cannot repeat 0 times`, at the greatest or exact number of repetitions.
///
/// Any other fault is an allocation failure.
pub fn consume_rules_with_spans<'i>(
    alloc: Global,
    pairs: Pairs<'i, Rule>,
) -> Result<Vec<ParserRule<'i>>, Fault>
    requires { AreOfAGrammar pairs }
    ensures rules { IfOk result (λ rules. AreReadAs pairs.entry (rule_views rules.items)) }
    ensures flawless { OnOk result (first_flaw_of pairs.entry ≡ None) }
    ensures refused { IfErr result (IsReadRefusal (first_flaw_of pairs.entry)) }
{
    let forest = Forest::of_pairs(alloc, &pairs)?;
    consume_forest_with_spans(alloc, &forest)
}

/// Returns the rules or the errors of `consume_rules_with_spans` for the trees of a grammar's text.
pub fn consume_forest_with_spans<'i>(
    alloc: Global,
    forest: &Forest<'i>,
) -> Result<Vec<ParserRule<'i>>, Fault>
    requires { IsOfAGrammar forest.now }
    ensures rules { IfOk result (λ rules. IsReadAs forest.now (rule_views rules.items)) }
    ensures flawless { OnOk result (first_flaw_in forest.now ≡ None) }
    ensures refused { IfErr result (IsReadRefusal (first_flaw_in forest.now)) }
{
    match read_forest(alloc, forest) {
        Ok(rules) => Ok(rules),
        Err(error) => Err(refusal(alloc, error)),
    }
}

/// Returns the rules of `consume_rules_with_spans` for pairs that are lent, or the flaw that its error
/// reports.
pub fn read_rules<'i>(
    alloc: Global,
    pairs: &Pairs<'i, Rule>,
) -> Result<Vec<ParserRule<'i>>, ReadError<'i>>
    requires { AreOfAGrammar pairs.now }
    ensures rules { IfOk result (λ rules. AreReadAs pairs.now (rule_views rules.items)) }
    ensures flawless { OnOk result (first_flaw_of pairs.now ≡ None) }
    ensures refused { IfErr result (IsFirst (first_flaw_of pairs.now)) }
{
    let forest = Forest::of_pairs(alloc, pairs)?;
    read_forest(alloc, &forest)
}

/// Returns the rules of `consume_rules_with_spans` for the trees of a grammar's text, or the flaw that its
/// error reports.
pub fn read_forest<'i>(
    alloc: Global,
    forest: &Forest<'i>,
) -> Result<Vec<ParserRule<'i>>, ReadError<'i>>
    requires { IsOfAGrammar forest.now }
    ensures rules { IfOk result (λ rules. IsReadAs forest.now (rule_views rules.items)) }
    ensures flawless { OnOk result (first_flaw_in forest.now ≡ None) }
    ensures refused { IfErr result (IsFirst (first_flaw_in forest.now)) }
{
    trees_of_a_grammar_have_their_shape();
    rules(alloc, forest.get_input(), forest.nodes())
}
