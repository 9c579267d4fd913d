//! Computes the kinds of the nodes of all rules.
ghost use Rattle.std.specs.Prelude.{◌≡◌, IfOk, List};
ghost use Rattle.base_ast.specs.Ast.{text_of};
ghost use Rattle.front_spanned.specs.Spanned.{Spanned};
ghost use Rattle.front_spanned.specs.declared.node.ParserRule.{ParserRule};
ghost use Rattle.front_analysis.specs.NameMaps.{KnowsRules};
ghost use Rattle.front_analysis.specs.Names.{grammar_of};
ghost use Rattle.front_analysis.specs.Shapes as shapes;
ghost use Rattle.front_analysis.specs.Kinds.{AreNodes, both_kind, counted, kind_of_code, node_kind, repeated, sign_wrap, text_kind, wrap_kind};
ghost use Rattle.front_analysis.specs.NameKinds.{kind_in};

use crate::kind_table::NodeKind;
use crate::name_kinds::kind_of_name;
use crate::names::Names;
use crate::shapes::{Joint, Shape, UnaryOperator};
use crate::table::Node;
use front_spanned::ParserExpr;
use std::alloc::{AllocError, Global};

/// The effect of an operator round one operand.
#[derive(Clone, Copy)]
pub enum Wrap {
    Ahead,
    NotAhead,
    Free,
    Inside,
    Again,
    OnceAgain,
}

/// Returns the kind of an expression without operands.
fn kind_of_leaf(names: &Names, expr: &ParserExpr<'_>) -> NodeKind
    ensures { (rules : List ParserRule) → KnowsRules rules names.now
        → result ≡ kind_of_code (kind_in (grammar_of rules)) expr.now }
{
    match expr {
        ParserExpr::Str(text) => kind_of_text(text),
        ParserExpr::Insens(text) => kind_of_text(text),
        ParserExpr::Ident(name) => kind_of_name(names, name),
        ParserExpr::PushLiteral(_) => NodeKind::Still,
        ParserExpr::Range(_, _) => NodeKind::Taking,
        ParserExpr::PeekSlice(_, _) => NodeKind::Taking,
        ParserExpr::PosPred(_) => NodeKind::Taking,
        ParserExpr::NegPred(_) => NodeKind::Taking,
        ParserExpr::Opt(_) => NodeKind::Taking,
        ParserExpr::Push(_) => NodeKind::Taking,
        ParserExpr::NodeTag(_, _) => NodeKind::Taking,
        ParserExpr::Seq(_, _) => NodeKind::Taking,
        ParserExpr::Choice(_, _) => NodeKind::Taking,
        ParserExpr::Rep(_) => NodeKind::Taking,
        ParserExpr::RepOnce(_) => NodeKind::Taking,
        ParserExpr::RepExact(_, _) => NodeKind::Taking,
        ParserExpr::RepMin(_, _) => NodeKind::Taking,
        ParserExpr::RepMax(_, _) => NodeKind::Taking,
        ParserExpr::RepMinMax(_, _, _) => NodeKind::Taking,
    }
}

fn kind_of_text(text: &String) -> NodeKind
    ensures { result ≡ text_kind (text_of text.now) }
{
    if text.is_empty() {
        NodeKind::Still
    } else {
        NodeKind::Taking
    }
}

fn counted_wrap(count: u32) -> Wrap
    ensures { result ≡ counted count }
{
    if count == 0 { Wrap::Free } else { Wrap::Inside }
}

fn repeated_wrap(count: u32) -> Wrap
    ensures { result ≡ repeated count }
{
    if count == 0 {
        Wrap::Again
    } else {
        Wrap::OnceAgain
    }
}

fn wrap_of(sign: UnaryOperator) -> Wrap
    ensures { result ≡ sign_wrap sign }
{
    match sign {
        UnaryOperator::PosPred => Wrap::Ahead,
        UnaryOperator::NegPred => Wrap::NotAhead,
        UnaryOperator::Opt => Wrap::Free,
        UnaryOperator::Push => Wrap::Inside,
        UnaryOperator::NodeTag => Wrap::Inside,
        UnaryOperator::Rep => Wrap::Again,
        UnaryOperator::RepOnce => Wrap::OnceAgain,
        UnaryOperator::RepExact(count) => counted_wrap(count),
        UnaryOperator::RepMin(count) => repeated_wrap(count),
        UnaryOperator::RepMax(_) => Wrap::Free,
        UnaryOperator::RepMinMax(low, _) => counted_wrap(low),
    }
}

fn kind_of_wrap(wrap: Wrap, body: usize) -> NodeKind
    ensures { result ≡ wrap_kind wrap body }
{
    match wrap {
        Wrap::Ahead => NodeKind::Ahead(body),
        Wrap::NotAhead => NodeKind::NotAhead(body),
        Wrap::Free => NodeKind::Free(body),
        Wrap::Inside => NodeKind::Inside(body),
        Wrap::Again => NodeKind::Again(body),
        Wrap::OnceAgain => NodeKind::OnceAgain(body),
    }
}

fn kind_of_both(joint: Joint, first: usize, second: usize) -> NodeKind
    ensures { result ≡ both_kind joint first second }
{
    match joint {
        Joint::Sequence => NodeKind::Seq(first, second),
        Joint::Choice => NodeKind::Choice(first, second),
    }
}

/// Returns the kind of an expression of this shape.
fn kind_of_shape(names: &Names, expr: &ParserExpr<'_>, shape: Shape) -> NodeKind
    ensures { (rules : List ParserRule) → KnowsRules rules names.now
        → result ≡ node_kind (kind_in (grammar_of rules)) expr.now shape }
{
    match shape {
        Shape::Leaf => kind_of_leaf(names, expr),
        Shape::One(sign, body) => kind_of_wrap(wrap_of(sign), body),
        Shape::Two(joint, first, second) => kind_of_both(joint, first, second),
    }
}

/// Computes the kinds of the nodes of a table.
pub(crate) fn kinds_of(
    alloc: Global,
    names: &Names,
    nodes: &[Node<'_, '_>],
) -> Result<Vec<NodeKind>, AllocError>
    ensures { IfOk result (λ kinds. (rules : List ParserRule) → KnowsRules rules names.now
        → (all : List Spanned) → shapes.AreNodes all nodes.now
        → AreNodes (kind_in (grammar_of rules)) all kinds.items) }
{
    let mut kinds = Vec::with_capacity(alloc, nodes.len())?;
    for place in 0..nodes.len() {
        let node = nodes[place];
        kinds.push(kind_of_shape(names, node.expr, node.shape))?;
    }
    Ok(kinds)
}
