//! The signs of predicates and the tags before their operands.
ghost use Rattle.std.specs.Prelude.{◌≡◌, All, IfOk, chars};
ghost use Rattle.front_nodes.specs.Nodes.{named_trees_of};
ghost use Rattle.base_language.specs.Pieces.Span.{span_end, span_text};
ghost use Rattle.front_spanned.specs.Nodes.{view, view_at};
ghost use Rattle.front_spanned.specs.Spanned.{One, Span};
ghost use Rattle.front_reader.specs.Pieces.{IsPiece, AreInText};
ghost use Rattle.front_reader.specs.Reading.{tag_name};
ghost use Rattle.front_reader.specs.Signs.{IsAfterSigns, sign_of, signed};
ghost use Rattle.front_grammar.specs.Shape.{IsTerm};

use crate::rules::pieces::{span_at, text_of};
use base_ast::deep::Deep;
use base_language::grammar::Rule;
use front_nodes::nodes::{FirstTree, TokenNode};
use front_spanned::{ParserExpr, ParserNode};
use front_syntax::trees::first_tree;
use std::alloc::{AllocError, Global};

/// The kind of a sign before an operand.
#[derive(Clone, Copy)]
pub enum SignKind<'i> {
    /// `&`
    Positive,
    /// `!`
    Negative,
    /// A tag, without its `#`.
    Tag(&'i str),
}

/// A sign before an operand, and the byte position where it begins.
#[derive(Clone, Copy)]
pub struct Sign<'i> {
    pub kind: SignKind<'i>,
    pub start: usize,
}

/// Returns the name of a tag, without its `#`.
fn tag_name<'i>(text: &'i str, tag: FirstTree<'_>) -> &'i str
    requires { IsPiece text.now tag.start tag.end }
    ensures { chars result.now ≡ tag_name text.entry.now tag.entry.start tag.entry.end }
{
    let mut characters = text_of(text, tag).chars();
    match characters.next() {
        Some(_) => characters.as_str(),
        None => "",
    }
}

/// Collects the signs of predicates and the tags in a term, the first first, and returns the trees after
/// them.
pub fn take_signs<'i, 't>(
    alloc: Global,
    text: &'i str,
    trees: &'t [TokenNode],
) -> Result<(Vec<Sign<'i>>, &'t [TokenNode]), AllocError>
    requires shape { IsTerm text.now (named_trees_of trees.now) }
    requires nested { AreInText text.now (named_trees_of trees.now) }
    ensures { IfOk result (λ x. IsAfterSigns text.entry.now (named_trees_of trees.entry.now)
        x.0.items (named_trees_of x.1.now)) }
{
    let mut signs = Vec::new(alloc);
    let mut rest: &'t [TokenNode] = trees;
    while let Some(tree) = first_tree(rest) {
        match tree.rule {
            Rule::tag_id => {
                let Some(equals) = first_tree(tree.others) else {
                    return Ok((signs, rest));
                };
                signs.push(Sign {
                    kind: SignKind::Tag(tag_name(text, tree)),
                    start: tree.start,
                })?;
                rest = equals.others;
            }
            Rule::positive_predicate_operator => {
                signs.push(Sign {
                    kind: SignKind::Positive,
                    start: tree.start,
                })?;
                rest = tree.others;
            }
            Rule::negative_predicate_operator => {
                signs.push(Sign {
                    kind: SignKind::Negative,
                    start: tree.start,
                })?;
                rest = tree.others;
            }
            _ => return Ok((signs, rest)),
        }
    }
    Ok((signs, rest))
}

/// Applies a sign to a node.
fn signed_by<'i>(
    alloc: Global,
    kind: SignKind<'_>,
    node: Deep<ParserNode<'i>>,
) -> Result<ParserExpr<'i>, AllocError>
    ensures { IfOk result (λ expr. (place : Span) → view_at place expr
        ≡ One place (sign_of kind.entry) (view node.entry.value)) }
{
    match kind {
        SignKind::Positive => Ok(ParserExpr::PosPred(node.into_box(alloc)?.into_inner())),
        SignKind::Negative => Ok(ParserExpr::NegPred(node.into_box(alloc)?.into_inner())),
        SignKind::Tag(tag) => {
            let tag = String::from_str(alloc, tag)?;
            Ok(ParserExpr::NodeTag(node.into_box(alloc)?.into_inner(), tag))
        }
    }
}

/// Wraps a node in predicates and tags, given their signs, the first first. All of them end where the
/// node does.
pub fn with_signs<'i>(
    alloc: Global,
    operand: ParserNode<'i>,
    signs: Vec<Sign<'_>>,
) -> Result<ParserNode<'i>, AllocError>
    requires { All (λ sign. IsPiece (span_text operand.span) sign.start (span_end operand.span))
        signs.items }
    ensures { IfOk result (λ n. view n
        ≡ signed (span_text operand.entry.span) signs.entry.items (view operand.entry)) }
{
    let mut node = operand;
    let mut left = signs;
    while let Some(sign) = left.pop() {
        let span = span_at(node.span.get_input(), sign.start, node.span.end());
        let expr = signed_by(alloc, sign.kind, Deep { value: node })?;
        node = ParserNode { expr, span };
    }
    Ok(node)
}
