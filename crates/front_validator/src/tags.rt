//! Tags on pieces that give no token.
ghost use Rattle.std.specs.Prelude.{◌≡◌, ◌++◌, ℕ, IfOk, List, OnOk, Option};
ghost use Rattle.std.specs.Option.{option_map};
ghost use Rattle.base_ast.specs.Ast.{text_of};
ghost use Rattle.base_language.specs.Language.Expression.{rule_of};
ghost use Rattle.front_spanned.specs.Nodes.{rule_views, view};
ghost use Rattle.front_analysis.specs.NameMaps.{KnowsRules};
ghost use Rattle.front_analysis.specs.Names.{grammar_of, rule_said};
ghost use Rattle.front_validator.specs.Problems.{message_of};
ghost use Rattle.front_validator.specs.Reporting.{findings_of};
ghost use Rattle.front_validator.specs.Tags as spec;

use crate::problems::{RuleFinding, RuleProblem};
use base_ast::ast::RuleType;
use front_analysis::{Names, rule_of_name};
use front_names::is_builtin;
use front_spanned::{ParserExpr, ParserNode, ParserRule, push_operands};
use std::alloc::{AllocError, Global};

/// Collects the findings of all tags on Silent rules and on builtins, in the order of the text.
pub(crate) fn tags<'i>(
    alloc: Global,
    rules: &[ParserRule<'i>],
    names: &Names,
) -> Result<Vec<RuleFinding<'i>>, AllocError>
    requires { KnowsRules rules.now names.now }
    ensures { IfOk result (λ found. findings_of found.items ≡ spec.of_tags (rule_views rules.now)) }
{
    let mut found = Vec::new(alloc);
    for rule in rules {
        add_of_body(alloc, rules, names, &rule.node, &mut found)?;
    }
    Ok(found)
}

/// Adds the findings in a body.
fn add_of_body<'i>(
    alloc: Global,
    rules: &[ParserRule<'i>],
    names: &Names,
    body: &ParserNode<'i>,
    found: &mut Vec<RuleFinding<'i>>,
) -> Result<(), AllocError>
    requires { KnowsRules rules.now names.now }
    ensures { OnOk result (findings_of found.new.items
        ≡ findings_of found.old.items ++ spec.of_tags_in (grammar_of rules.now) (view body.now)) }
{
    let mut stack = Vec::new(alloc);
    stack.push(body)?;
    while let Some(next) = stack.pop() {
        add_of_node(rules, names, next, found)?;
        push_operands(next, &mut stack)?;
    }
    Ok(())
}

/// Adds the findings of a node as a tag.
fn add_of_node<'i>(
    rules: &[ParserRule<'i>],
    names: &Names,
    node: &ParserNode<'i>,
    found: &mut Vec<RuleFinding<'i>>,
) -> Result<(), AllocError>
    requires { KnowsRules rules.now names.now }
    ensures { OnOk result (findings_of found.new.items
        ≡ findings_of found.old.items ++ spec.of_tag (grammar_of rules.now) (view node.now)) }
{
    if let Some(problem) = problem_of(rules, names, node) {
        let span = node.span;
        found.push(RuleFinding { problem, span })?;
    }
    Ok(())
}

/// Returns what is wrong with a node as a tag.
fn problem_of<'i>(
    rules: &[ParserRule<'i>],
    names: &Names,
    node: &ParserNode<'i>,
) -> Option<RuleProblem>
    requires { KnowsRules rules.now names.now }
    ensures { (text : List ℕ) → option_map (λ problem. message_of problem text) result
        ≡ spec.message_at (grammar_of rules.now) (view node.now) }
{
    match &node.expr {
        ParserExpr::NodeTag(inner, _) => match name_within(inner) {
            Some(name) => problem_of_name(rules, names, name),
            None => None,
        },
        _ => None,
    }
}

/// Returns what is wrong with a tag on a name.
fn problem_of_name<'i>(
    rules: &[ParserRule<'i>],
    names: &Names,
    name: &String,
) -> Option<RuleProblem>
    requires { KnowsRules rules.now names.now }
    ensures { (text : List ℕ) → option_map (λ problem. message_of problem text) result
        ≡ spec.of_name (grammar_of rules.now) (Option.Some (text_of name.now)) }
{
    match rule_named(rules, names, name) {
        Some(rule) => match rule.ty {
            RuleType::Silent => Some(RuleProblem::TagOnSilentRule),
            _ => None,
        },
        None => {
            if is_builtin(name.as_str()) {
                Some(RuleProblem::TagOnBuiltin)
            } else {
                None
            }
        }
    }
}

/// Returns the rule that a name means.
fn rule_named<'r, 'i>(
    rules: &'r [ParserRule<'i>],
    names: &Names,
    name: &String,
) -> Option<&'r ParserRule<'i>>
    requires { KnowsRules rules.now names.now }
    ensures { option_map (λ rule. rule_said rule.now) result
        ≡ rule_of (grammar_of rules.entry.now) (text_of name.now) }
{
    match rule_of_name(names, name) {
        Some(number) => rules.get(number),
        None => None,
    }
}

/// Returns the name in a node, if the node is a name inside operators; inside another tag no name counts.
fn name_within<'n>(node: &'n ParserNode<'_>) -> Option<&'n String>
    ensures { option_map (λ name. text_of name.now) result ≡ spec.name_within (view node.entry.now) }
{
    let mut inner = node;
    'inward: loop {
        match &inner.expr {
            ParserExpr::Ident(name) => return Some(name),
            ParserExpr::PosPred(body) => inner = body,
            ParserExpr::NegPred(body) => inner = body,
            ParserExpr::Opt(body) => inner = body,
            ParserExpr::Rep(body) => inner = body,
            ParserExpr::RepOnce(body) => inner = body,
            ParserExpr::RepExact(body, _) => inner = body,
            ParserExpr::RepMin(body, _) => inner = body,
            ParserExpr::RepMax(body, _) => inner = body,
            ParserExpr::RepMinMax(body, _, _) => inner = body,
            ParserExpr::Push(body) => inner = body,
            ParserExpr::Str(_) | ParserExpr::Insens(_) | ParserExpr::PushLiteral(_) => return None,
            ParserExpr::Range(_, _) | ParserExpr::PeekSlice(_, _) => return None,
            ParserExpr::Seq(_, _) | ParserExpr::Choice(_, _) => return None,
            ParserExpr::NodeTag(_, _) => return None,
        }
    }
}
