//! Kinds of the nodes of all rules.
ghost use Rattle.std.specs.Prelude.{◌≡◌, IfOk, List};
ghost use Rattle.base_ast.specs.Ast.{text_of};
ghost use Rattle.front_spanned.specs.declared.node.ParserRule.{ParserRule};
ghost use Rattle.front_analysis.specs.NameMaps.{KnowsRules};
ghost use Rattle.front_analysis.specs.Names.{grammar_of};
ghost use Rattle.front_analysis.specs.Resolved.{IsResolved};
ghost use Rattle.front_stack_loops.specs.Kinds.{AreTabled, both_kind, is_empty_text, kind_of_code, node_kind, slice_kind, text_kind, wrap_kind};
ghost use Rattle.front_stack_loops.specs.Names.{kind_in};

use crate::names::kind_of_name;
use crate::table::{NodeKind, PassNode};
use front_analysis::{Joint, Names, ResolvedGrammar, Shape, UnaryOperator};
use front_spanned::ParserExpr;
use std::alloc::{AllocError, Global};

/// Returns the kind of an expression without operands.
fn kind_of_leaf(names: &Names, expr: &ParserExpr<'_>) -> NodeKind
    ensures { (rules : List ParserRule) → KnowsRules rules names.now
        → result ≡ kind_of_code (kind_in (grammar_of rules)) expr.now }
{
    match expr {
        ParserExpr::Str(text) => kind_of_text(text),
        ParserExpr::Insens(text) => kind_of_text(text),
        ParserExpr::Ident(name) => kind_of_name(names, name),
        ParserExpr::PeekSlice(start, end) => kind_of_slice(*start, *end),
        ParserExpr::PushLiteral(text) => NodeKind::PushLiteral(is_empty_text(text)),
        ParserExpr::Range(_, _) => NodeKind::Leaf,
        ParserExpr::PosPred(_) => NodeKind::Leaf,
        ParserExpr::NegPred(_) => NodeKind::Leaf,
        ParserExpr::Opt(_) => NodeKind::Leaf,
        ParserExpr::Push(_) => NodeKind::Leaf,
        ParserExpr::NodeTag(_, _) => NodeKind::Leaf,
        ParserExpr::Seq(_, _) => NodeKind::Leaf,
        ParserExpr::Choice(_, _) => NodeKind::Leaf,
        ParserExpr::Rep(_) => NodeKind::Leaf,
        ParserExpr::RepOnce(_) => NodeKind::Leaf,
        ParserExpr::RepExact(_, _) => NodeKind::Leaf,
        ParserExpr::RepMin(_, _) => NodeKind::Leaf,
        ParserExpr::RepMax(_, _) => NodeKind::Leaf,
        ParserExpr::RepMinMax(_, _, _) => NodeKind::Leaf,
    }
}

fn kind_of_text(text: &String) -> NodeKind
    ensures { result ≡ text_kind (text_of text.now) }
{
    if text.is_empty() {
        NodeKind::Still
    } else {
        NodeKind::Leaf
    }
}

fn kind_of_slice(start: i32, end: Option<i32>) -> NodeKind
    ensures { result ≡ slice_kind start end }
{
    if start != 0 {
        return NodeKind::Leaf;
    }
    match end {
        None => NodeKind::PeekAll,
        Some(end) => if end == 0 {
            NodeKind::Still
        } else {
            NodeKind::Leaf
        },
    }
}

fn is_empty_text(text: &String) -> bool
    ensures { result ≡ is_empty_text (text_of text.now) }
{
    text.is_empty()
}

fn kind_of_wrap(sign: UnaryOperator, body: usize) -> NodeKind
    ensures { result ≡ wrap_kind sign body }
{
    match sign {
        UnaryOperator::PosPred => NodeKind::PosPred(body),
        UnaryOperator::NegPred => NodeKind::NegPred(body),
        UnaryOperator::Opt => NodeKind::Opt(body),
        UnaryOperator::Push => NodeKind::Push(body),
        UnaryOperator::NodeTag => NodeKind::Tag(body),
        UnaryOperator::Rep => NodeKind::Repeat(body, 0, 0, true),
        UnaryOperator::RepOnce => NodeKind::Repeat(body, 1, 0, true),
        UnaryOperator::RepExact(count) => NodeKind::Repeat(body, count, 0, false),
        UnaryOperator::RepMin(count) => NodeKind::Repeat(body, count, 0, true),
        UnaryOperator::RepMax(count) => NodeKind::Repeat(body, 0, count, false),
        UnaryOperator::RepMinMax(low, high) => {
            NodeKind::Repeat(body, low.min(high), high.saturating_sub(low), false)
        }
    }
}

fn kind_of_both(joint: Joint, first: usize, second: usize) -> NodeKind
    ensures { result ≡ both_kind joint first second }
{
    match joint {
        Joint::Sequence => NodeKind::Seq(first, second),
        Joint::Choice => NodeKind::Choice(first, second),
    }
}

/// Returns the kind of an expression of this shape.
fn kind_of_node(names: &Names, expr: &ParserExpr<'_>, shape: Shape) -> NodeKind
    ensures { (rules : List ParserRule) → KnowsRules rules names.now
        → result ≡ node_kind (kind_in (grammar_of rules)) expr.now shape }
{
    match shape {
        Shape::Leaf => kind_of_leaf(names, expr),
        Shape::One(sign, body) => kind_of_wrap(sign, body),
        Shape::Two(joint, first, second) => kind_of_both(joint, first, second),
    }
}

/// Returns the nodes of the table of rules, with their kinds.
pub(crate) fn nodes_with_kinds<'n, 'i>(
    alloc: Global,
    grammar: &ResolvedGrammar<'n, 'i>,
) -> Result<Vec<PassNode<'n, 'i>>, AllocError>
    requires { IsResolved grammar.now }
    ensures { IfOk result (λ nodes. AreTabled grammar.now.rules.now
        (kind_in (grammar_of grammar.now.rules.now)) nodes.items grammar.now.table.roots.items) }
{
    let table = &grammar.table;
    let mut nodes = Vec::with_capacity(alloc, table.nodes.len())?;
    for place in 0..table.nodes.len() {
        let node = table.nodes[place];
        nodes.push(PassNode {
            kind: kind_of_node(&grammar.names, node.expr, node.shape),
            rule: node.rule,
            span: node.span,
        })?;
    }
    Ok(nodes)
}
