//! Postfix operators and their numbers.
ghost use Rattle.std.specs.Prelude.{◌≡◌, codes};
ghost use Rattle.front_nodes.specs.Nodes.{named_trees_of};
ghost use Rattle.base_language.specs.Pieces.Span.{span_text};
ghost use Rattle.front_reader.specs.Pieces.{AreInText};
ghost use Rattle.base_language.specs.Pieces.MetaRules.{name_of};
ghost use Rattle.front_grammar.specs.Shape.{ArePostfixes, IsCounted, IsPostfix};
ghost use Rattle.front_spanned.specs.Nodes.{view, view_at};
ghost use Rattle.front_spanned.specs.Spanned as spanned;
ghost use Rattle.front_spanned.specs.Spanned.{One, RepExact, RepMax, RepMin, RepMinMax};
ghost use Rattle.front_reader.specs.Views.{AnswersCount, AnswersPostfix, AnswersPostfixes, IsNodeBefore, operator_of};

use crate::rules::flaws::ReadError;
use crate::rules::pieces::{count, number, span_at};
use base_ast::deep::Deep;
use base_language::grammar::Rule;
use base_language::runtime::Span;
use front_nodes::nodes::{FirstTree, TokenNode};
use front_spanned::{ParserExpr, ParserNode};
use front_syntax::trees::{first_tree, leading_tree};
use std::alloc::Global;

/// Returns the count of `{n}`, by the trees in it. A number that fits no `u32` is a flaw, and so is 0.
fn exact<'i>(text: &'i str, inner: &[TokenNode]) -> Result<u32, ReadError<'i>>
    requires shape { IsCounted text.now (codes "repeat_exact") (named_trees_of inner.now) }
    requires nested { AreInText text.now (named_trees_of inner.now) }
    ensures { AnswersCount text.entry.now (codes "repeat_exact") (named_trees_of inner.now) RepExact result }
{
    let brace = leading_tree(inner);
    let times = leading_tree(brace.others);
    count(text, times)
}

/// Returns the least number of `{n,}`, by the trees in it. A number that fits no `u32` is a flaw.
fn at_least<'i>(text: &'i str, inner: &[TokenNode]) -> Result<u32, ReadError<'i>>
    requires shape { IsCounted text.now (codes "repeat_min") (named_trees_of inner.now) }
    requires nested { AreInText text.now (named_trees_of inner.now) }
    ensures { AnswersCount text.entry.now (codes "repeat_min") (named_trees_of inner.now) RepMin result }
{
    let brace = leading_tree(inner);
    let least = leading_tree(brace.others);
    number(text, least)
}

/// Returns the greatest number of `{,n}`, by the trees in it. A number that fits no `u32` is a flaw, and
/// so is 0.
fn at_most<'i>(text: &'i str, inner: &[TokenNode]) -> Result<u32, ReadError<'i>>
    requires shape { IsCounted text.now (codes "repeat_max") (named_trees_of inner.now) }
    requires nested { AreInText text.now (named_trees_of inner.now) }
    ensures { AnswersCount text.entry.now (codes "repeat_max") (named_trees_of inner.now) RepMax result }
{
    let brace = leading_tree(inner);
    let comma = leading_tree(brace.others);
    let most = leading_tree(comma.others);
    count(text, most)
}

/// Returns the numbers of `{m,n}`, by the trees in it. A number that fits no `u32` is a flaw, and so is 0
/// as the second.
fn least_and_most<'i>(text: &'i str, inner: &[TokenNode]) -> Result<(u32, u32), ReadError<'i>>
    requires shape { IsCounted text.now (codes "repeat_min_max") (named_trees_of inner.now) }
    requires nested { AreInText text.now (named_trees_of inner.now) }
    ensures { AnswersCount text.entry.now (codes "repeat_min_max") (named_trees_of inner.now)
        (λ n. RepMinMax n.0 n.1) result }
{
    let brace = leading_tree(inner);
    let first = leading_tree(brace.others);
    let least = number(text, first)?;
    let comma = leading_tree(first.others);
    let second = leading_tree(comma.others);
    let most = count(text, second)?;
    Ok((least, most))
}

/// The number of repetitions that a postfix operator allows.
#[derive(Clone, Copy)]
pub enum Times {
    /// `?`: once or not at all.
    AtMostOnce,
    /// `*`: any number of times.
    AnyTimes,
    /// `+`: once at least.
    OnceOrMore,
    /// `{n}`.
    Exactly(u32),
    /// `{n,}`.
    AtLeast(u32),
    /// `{,n}`.
    AtMost(u32),
    /// `{m,n}`.
    Between(u32, u32),
}

/// Returns the number of repetitions that a postfix operator allows, or the first flaw of the numbers in
/// it.
fn times_of<'i>(text: &'i str, operator: FirstTree<'_>) -> Result<Times, ReadError<'i>>
    requires shape { IsPostfix text.now (name_of operator.rule) (named_trees_of operator.inner.now) }
    requires nested { AreInText text.now (named_trees_of operator.inner.now) }
    ensures { AnswersCount text.entry.now (name_of operator.entry.rule)
        (named_trees_of operator.entry.inner.now) operator_of result }
{
    let inner = operator.inner;
    match operator.rule {
        Rule::optional_operator => Ok(Times::AtMostOnce),
        Rule::repeat_operator => Ok(Times::AnyTimes),
        Rule::repeat_once_operator => Ok(Times::OnceOrMore),
        Rule::repeat_exact => Ok(Times::Exactly(exact(text, inner)?)),
        Rule::repeat_min => Ok(Times::AtLeast(at_least(text, inner)?)),
        Rule::repeat_max => Ok(Times::AtMost(at_most(text, inner)?)),
        Rule::repeat_min_max => {
            let (least, most) = least_and_most(text, inner)?;
            Ok(Times::Between(least, most))
        }
        _ => unreachable!(),
    }
}

/// Makes an expression that repeats a node `times`.
fn repeat_node<'i>(times: Times, node: Box<ParserNode<'i>>) -> ParserExpr<'i>
    ensures { (place : spanned.Span) → view_at place result
        ≡ One place (operator_of times) (view node.entry.value) }
{
    match times {
        Times::AtMostOnce => ParserExpr::Opt(node),
        Times::AnyTimes => ParserExpr::Rep(node),
        Times::OnceOrMore => ParserExpr::RepOnce(node),
        Times::Exactly(n) => ParserExpr::RepExact(node, n),
        Times::AtLeast(n) => ParserExpr::RepMin(node, n),
        Times::AtMost(n) => ParserExpr::RepMax(node, n),
        Times::Between(least, most) => ParserExpr::RepMinMax(node, least, most),
    }
}

/// Applies a postfix operator to a node. `span` is that of the node with the operator.
fn apply_postfix<'i>(
    alloc: Global,
    node: ParserNode<'i>,
    span: Span<'i>,
    operator: FirstTree<'_>,
) -> Result<ParserNode<'i>, ReadError<'i>>
    requires shape { IsPostfix (span_text span) (name_of operator.rule) (named_trees_of operator.inner.now) }
    requires nested { AreInText (span_text span) (named_trees_of operator.inner.now) }
    ensures { AnswersPostfix span.entry operator.entry node.entry result }
{
    let node = Deep { value: node };
    let times = times_of(span.get_input(), operator)?;
    let node = node.into_box(alloc)?.into_inner();
    Ok(ParserNode {
        expr: repeat_node(times, node),
        span,
    })
}

/// Applies the postfix operators after a node, one after another, and reports their first flaw.
pub fn apply_postfixes<'i>(
    alloc: Global,
    text: &'i str,
    operand: ParserNode<'i>,
    operators: &[TokenNode],
) -> Result<ParserNode<'i>, ReadError<'i>>
    requires shape { ArePostfixes text.now (named_trees_of operators.now) }
    requires place { IsNodeBefore text.now operand (named_trees_of operators.now) }
    ensures { AnswersPostfixes text.entry.now (named_trees_of operators.now) operand.entry result }
{
    let mut node = operand;
    let mut rest = operators;
    while let Some(operator) = first_tree(rest) {
        let span = span_at(text, node.span.start(), operator.end);
        node = apply_postfix(alloc, node, span, operator)?;
        rest = operator.others;
    }
    Ok(node)
}
