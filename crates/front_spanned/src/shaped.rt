//! Destructures and rebuilds nodes.
ghost use Rattle.std.specs.Prelude.{◌≡◌, ◌+◌, ◌*◌, ◌≤◌, ◌<◌, IfOk};
ghost use Rattle.base_ast.specs.Shapes.{heaviness_of, meaning_of, LeafIs};
ghost use Rattle.base_ast.specs.Weight.{weight};
ghost use Rattle.front_spanned.specs.Erasure.{without_spans};
ghost use Rattle.front_spanned.specs.Nodes.{piece_of, unplaced, view, view_at};
ghost use Rattle.front_spanned.specs.Shapes.{binary_of, unary_of, IsLeaf};
ghost use Rattle.front_spanned.specs.Spanned.{One, Span as Place, Spanned, Two};

use crate::node::{ParserExpr, ParserNode};
use base_ast::ast::Sign;
use base_ast::shape::{Joint, Shape, Shaped};
use base_language::runtime::Span;
use std::alloc::AllocError;

/// The operator over the operand of a node, and the span of the node.
#[derive(Drop)]
pub struct NodeSign<'i> {
    pub sign: Sign,
    pub span: Span<'i>,
}

/// The operator between the operands of a node, and the span of the node.
#[derive(Drop)]
pub struct NodeJoint<'i> {
    pub joint: Joint,
    pub span: Span<'i>,
}

impl<'i> Shaped for ParserNode<'i> {
    type Sign = NodeSign<'i>;

    type Joint = NodeJoint<'i>;

    ghost Meaning = { Spanned };

    ghost says = { λ node. view node };

    ghost around = { λ around operand. One (piece_of around.span) (unary_of around.sign) operand };

    ghost between = { λ between left right.
        Two (piece_of between.span) (binary_of between.joint) left right };

    ghost is_bare = { λ node. IsLeaf (view node) };

    ghost heaviness = { λ node. weight (without_spans (view node)) };

    fn open(self) -> Shape<ParserNode<'i>, NodeSign<'i>, NodeJoint<'i>, Box<ParserNode<'i>>> {
        let ParserNode { expr, span } = self;
        match open_expr(expr) {
            Shape::Leaf(expr) => Shape::Leaf(ParserNode { expr, span }),
            Shape::One(sign, operand) => Shape::One(NodeSign { sign, span }, operand),
            Shape::Two(joint, left, right) => Shape::Two(NodeJoint { joint, span }, left, right),
        }
    }

    fn shape<'a>(
        &'a self,
    ) -> Result<
        Shape<ParserNode<'i>, NodeSign<'i>, NodeJoint<'i>, &'a Box<ParserNode<'i>>>,
        AllocError,
    > {
        let span = self.span;
        match expr_shape(&self.expr)? {
            Shape::Leaf(expr) => Ok(Shape::Leaf(ParserNode { expr, span })),
            Shape::One(sign, operand) => Ok(Shape::One(NodeSign { sign, span }, operand)),
            Shape::Two(joint, left, right) => {
                Ok(Shape::Two(NodeJoint { joint, span }, left, right))
            }
        }
    }

    fn enclose(around: NodeSign<'i>, operand: Box<ParserNode<'i>>) -> ParserNode<'i>
        ensures { view result
            ≡ One (piece_of around.entry.span) (unary_of around.entry.sign) (view operand.entry.value) }
    {
        let NodeSign { sign, span } = around;
        let expr = enclose_expr(sign, operand);
        ParserNode { expr, span }
    }

    fn join(
        between: NodeJoint<'i>,
        left: Box<ParserNode<'i>>,
        right: Box<ParserNode<'i>>,
    ) -> ParserNode<'i>
        ensures { view result ≡ Two (piece_of between.entry.span) (binary_of between.entry.joint)
            (view left.entry.value) (view right.entry.value) }
    {
        let NodeJoint { joint, span } = between;
        let expr = join_exprs(joint, left, right);
        ParserNode { expr, span }
    }

    fn take(place: &mut Box<ParserNode<'i>>) -> ParserNode<'i> {
        let span = place.span;
        let expr = ParserExpr::PeekSlice(0, None);
        Box::replace(place, ParserNode { expr, span })
    }

    fn chain(first: Box<ParserNode<'i>>, second: Box<ParserNode<'i>>) -> ParserNode<'i>
        ensures { weight (without_spans (view result)) ≤ 2 * weight (without_spans (view first.entry.value))
            + weight (without_spans (view second.entry.value)) + 1 }
    {
        let span = second.span;
        let expr = ParserExpr::Seq(first, second);
        ParserNode { expr, span }
    }
}

/// Destructures an expression. An expression without operands is kept whole.
pub(crate) fn open_expr<'i>(
    expr: ParserExpr<'i>,
) -> Shape<ParserExpr<'i>, Sign, Joint, Box<ParserNode<'i>>>
    ensures meaning { (place : Place) → meaning_of (view_at place) (λ operand. view operand.value)
        (λ sign. One place (unary_of sign)) (λ joint. Two place (binary_of joint)) result
        ≡ view_at place expr.entry }
    ensures lighter { heaviness_of (λ operand. weight (without_spans (view operand.value))) result
        < weight (without_spans (unplaced expr.entry)) }
    ensures bare { LeafIs (λ leaf. IsLeaf (unplaced leaf)) result }
{
    use ParserExpr as E;
    let (sign, operand) = match expr {
        E::PosPred(inner) => (Sign::PosPred, inner),
        E::NegPred(inner) => (Sign::NegPred, inner),
        E::Opt(inner) => (Sign::Opt, inner),
        E::Rep(inner) => (Sign::Rep, inner),
        E::RepOnce(inner) => (Sign::RepOnce, inner),
        E::RepExact(inner, count) => (Sign::RepExact(count), inner),
        E::RepMin(inner, least) => (Sign::RepMin(least), inner),
        E::RepMax(inner, greatest) => (Sign::RepMax(greatest), inner),
        E::RepMinMax(inner, least, greatest) => (Sign::RepMinMax(least, greatest), inner),
        E::Push(inner) => (Sign::Push, inner),
        E::NodeTag(inner, tag) => (Sign::NodeTag(tag), inner),
        E::Seq(left, right) => return Shape::Two(Joint::Sequence, left, right),
        E::Choice(left, right) => return Shape::Two(Joint::Choice, left, right),
        leaf => return Shape::Leaf(leaf),
    };
    Shape::One(sign, operand)
}

/// Returns the shape of an expression, with its operands borrowed and copies of all else. The only error is
/// allocation failure.
pub(crate) fn expr_shape<'n, 'i>(
    expr: &'n ParserExpr<'i>,
) -> Result<Shape<ParserExpr<'i>, Sign, Joint, &'n Box<ParserNode<'i>>>, AllocError>
    ensures meaning { IfOk result (λ shape. (place : Place)
        → meaning_of (view_at place) (λ operand. view operand.now.value)
        (λ sign. One place (unary_of sign)) (λ joint. Two place (binary_of joint)) shape
        ≡ view_at place expr.entry.now) }
    ensures lighter { IfOk result (λ shape.
        heaviness_of (λ operand. weight (without_spans (view operand.now.value))) shape
        < weight (without_spans (unplaced expr.entry.now))) }
{
    use ParserExpr as E;
    let (sign, operand) = match expr {
        E::Str(text) => return Ok(Shape::Leaf(E::Str(text.clone()?))),
        E::Insens(text) => return Ok(Shape::Leaf(E::Insens(text.clone()?))),
        E::Range(first, last) => return Ok(Shape::Leaf(E::Range(first.clone()?, last.clone()?))),
        E::Ident(name) => return Ok(Shape::Leaf(E::Ident(name.clone()?))),
        E::PushLiteral(text) => return Ok(Shape::Leaf(E::PushLiteral(text.clone()?))),
        E::PeekSlice(start, end) => return Ok(Shape::Leaf(E::PeekSlice(*start, *end))),
        E::PosPred(inner) => (Sign::PosPred, inner),
        E::NegPred(inner) => (Sign::NegPred, inner),
        E::Opt(inner) => (Sign::Opt, inner),
        E::Rep(inner) => (Sign::Rep, inner),
        E::RepOnce(inner) => (Sign::RepOnce, inner),
        E::RepExact(inner, count) => (Sign::RepExact(*count), inner),
        E::RepMin(inner, least) => (Sign::RepMin(*least), inner),
        E::RepMax(inner, greatest) => (Sign::RepMax(*greatest), inner),
        E::RepMinMax(inner, least, greatest) => (Sign::RepMinMax(*least, *greatest), inner),
        E::Push(inner) => (Sign::Push, inner),
        E::NodeTag(inner, tag) => (Sign::NodeTag(tag.clone()?), inner),
        E::Seq(left, right) => return Ok(Shape::Two(Joint::Sequence, left, right)),
        E::Choice(left, right) => return Ok(Shape::Two(Joint::Choice, left, right)),
    };
    Ok(Shape::One(sign, operand))
}

/// Rebuilds an expression from an operator and its operand.
pub(crate) fn enclose_expr<'i>(sign: Sign, operand: Box<ParserNode<'i>>) -> ParserExpr<'i>
    ensures { (place : Place)
        → view_at place result ≡ One place (unary_of sign) (view operand.entry.value) }
{
    use ParserExpr as E;
    match sign {
        Sign::PosPred => E::PosPred(operand),
        Sign::NegPred => E::NegPred(operand),
        Sign::Opt => E::Opt(operand),
        Sign::Rep => E::Rep(operand),
        Sign::RepOnce => E::RepOnce(operand),
        Sign::RepExact(count) => E::RepExact(operand, count),
        Sign::RepMin(least) => E::RepMin(operand, least),
        Sign::RepMax(greatest) => E::RepMax(operand, greatest),
        Sign::RepMinMax(least, greatest) => E::RepMinMax(operand, least, greatest),
        Sign::Push => E::Push(operand),
        Sign::NodeTag(tag) => E::NodeTag(operand, tag),
    }
}

/// Rebuilds an expression from an operator and its two operands.
pub(crate) fn join_exprs<'i>(
    joint: Joint,
    left: Box<ParserNode<'i>>,
    right: Box<ParserNode<'i>>,
) -> ParserExpr<'i>
    ensures { (place : Place) → view_at place result
        ≡ Two place (binary_of joint) (view left.entry.value) (view right.entry.value) }
{
    match joint {
        Joint::Sequence => ParserExpr::Seq(left, right),
        Joint::Choice => ParserExpr::Choice(left, right),
    }
}
