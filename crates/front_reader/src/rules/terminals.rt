//! Nodes that hold no expression.
ghost use Rattle.std.specs.Prelude.{codes};
ghost use Rattle.front_nodes.specs.Nodes.{named_trees_of};
ghost use Rattle.front_reader.specs.Pieces.{AreInText};
ghost use Rattle.front_reader.specs.Reading.{ANode};
ghost use Rattle.base_language.specs.Pieces.MetaRules.{name_of};
ghost use Rattle.front_grammar.specs.Shape.{IsSlice, IsTerminal, MayBeNumber};
ghost use Rattle.front_reader.specs.Views.{AnswersBound, ReadsAs, alone, alone_as};

use crate::rules::flaws::ReadError;
use crate::rules::literal::literal;
use crate::rules::pieces::{slice_number, span_of, text_of};
use base_language::grammar::Rule;
use front_nodes::nodes::{FirstTree, TokenNode};
use front_spanned::{ParserExpr, ParserNode};
use front_syntax::trees::leading_tree;
use std::alloc::Global;

/// Reads a range. Its flaws are those of its literals.
fn range<'i>(
    alloc: Global,
    text: &'i str,
    tree: FirstTree<'_>,
) -> Result<ParserNode<'i>, ReadError<'i>>
    requires shape { IsTerminal text.now (codes "range") (named_trees_of tree.inner.now) }
    requires nested { AreInText text.now (alone_as (codes "range") tree) }
    ensures { ReadsAs text.entry.now ANode (alone_as (codes "range") tree.entry) result }
{
    let first = leading_tree(tree.inner);
    let dots = leading_tree(first.others);
    let last = leading_tree(dots.others);
    let low = literal(alloc, text, first, first.inner)?;
    let high = literal(alloc, text, last, last.inner)?;
    Ok(ParserNode {
        expr: ParserExpr::Range(low, high),
        span: span_of(text, tree),
    })
}

/// Takes the number that may come first, and returns it with the trees after it. A number that fits no
/// `i32` is a flaw.
fn take_bound<'i, 't>(
    text: &'i str,
    trees: &'t [TokenNode],
) -> Result<(Option<i32>, &'t [TokenNode]), ReadError<'i>>
    requires shape { MayBeNumber text.now (named_trees_of trees.now) }
    requires nested { AreInText text.now (named_trees_of trees.now) }
    ensures { AnswersBound text.entry.now (named_trees_of trees.entry.now) result }
{
    let tree = leading_tree(trees);
    match tree.rule {
        Rule::integer => {
            let n = slice_number(text, tree)?;
            Ok((Some(n), tree.others))
        }
        _ => Ok((None, trees)),
    }
}

/// Reads a slice of the stack. Its flaws are those of its numbers.
fn slice<'i>(text: &'i str, tree: FirstTree<'_>) -> Result<ParserNode<'i>, ReadError<'i>>
    requires shape { IsSlice text.now (named_trees_of tree.inner.now) }
    requires nested { AreInText text.now (alone_as (codes "peek_slice") tree) }
    ensures { ReadsAs text.entry.now ANode (alone_as (codes "peek_slice") tree.entry) result }
{
    let bracket = leading_tree(tree.inner);
    let (low, rest) = take_bound(text, bracket.others)?;
    let dots = leading_tree(rest);
    let (high, _) = take_bound(text, dots.others)?;
    Ok(ParserNode {
        expr: ParserExpr::PeekSlice(low.unwrap_or(0), high),
        span: span_of(text, tree),
    })
}

/// Reads a literal push, which has the span of its string. Its flaws are those of the string.
fn push_literal<'i>(
    alloc: Global,
    text: &'i str,
    tree: FirstTree<'_>,
) -> Result<ParserNode<'i>, ReadError<'i>>
    requires shape { IsTerminal text.now (codes "_push_literal") (named_trees_of tree.inner.now) }
    requires nested { AreInText text.now (alone_as (codes "_push_literal") tree) }
    ensures { ReadsAs text.entry.now ANode (alone_as (codes "_push_literal") tree.entry) result }
{
    let paren = leading_tree(tree.inner);
    let string = leading_tree(paren.others);
    let read = literal(alloc, text, string, string.inner)?;
    Ok(ParserNode {
        expr: ParserExpr::PushLiteral(read),
        span: span_of(text, string),
    })
}

/// Reads the node of a rule that holds no expression, and reports its first flaw.
pub fn terminal<'i>(
    alloc: Global,
    text: &'i str,
    tree: FirstTree<'_>,
) -> Result<ParserNode<'i>, ReadError<'i>>
    requires shape { IsTerminal text.now (name_of tree.rule) (named_trees_of tree.inner.now) }
    requires nested { AreInText text.now (alone tree) }
    ensures { ReadsAs text.entry.now ANode (alone tree.entry) result }
{
    let span = span_of(text, tree);
    match tree.rule {
        Rule::identifier => {
            let name = String::from_str(alloc, text_of(text, tree))?;
            Ok(ParserNode {
                expr: ParserExpr::Ident(name),
                span,
            })
        }
        Rule::string => {
            let read = literal(alloc, text, tree, tree.inner)?;
            Ok(ParserNode {
                expr: ParserExpr::Str(read),
                span,
            })
        }
        Rule::insensitive_string => {
            let string = leading_tree(tree.inner);
            let read = literal(alloc, text, tree, string.inner)?;
            Ok(ParserNode {
                expr: ParserExpr::Insens(read),
                span,
            })
        }
        Rule::range => range(alloc, text, tree),
        Rule::peek_slice => slice(text, tree),
        Rule::_push_literal => push_literal(alloc, text, tree),
        _ => unreachable!(),
    }
}
