//! Destructures and rebuilds expressions.
ghost use Rattle.std.specs.Prelude.{◌≡◌, ◌+◌, ◌*◌, ◌≤◌, []};
ghost use Rattle.base_language.specs.Language.Expression.{Expression};
ghost use Rattle.base_ast.specs.Ast.{expression_of};
ghost use Rattle.base_ast.specs.ExprWalks.{unary_of};
ghost use Rattle.base_ast.specs.Frames.{around as under, joined};
ghost use Rattle.base_ast.specs.Operands.{operands};
ghost use Rattle.base_ast.specs.Weight.{weight};

use super::Expr;
use crate::shape::{Joint, Shape, Shaped};
use crate::texts::copy_texts;
use std::alloc::AllocError;

/// The operator over one operand of an expression.
#[derive(Drop)]
pub enum Sign {
    PosPred,
    NegPred,
    Opt,
    Rep,
    RepOnce,
    RepExact(u32),
    RepMin(u32),
    RepMax(u32),
    RepMinMax(u32, u32),
    Push,
    NodeTag(String),
}

impl Shaped for Expr {
    type Sign = Sign;

    type Joint = Joint;

    ghost Meaning = { Expression };

    ghost says = { λ expr. expression_of expr };

    ghost around = { λ sign operand. under (unary_of sign) operand };

    ghost between = { λ joint left right. joined joint left right };

    ghost is_bare = { λ expr. operands (expression_of expr) ≡ [] };

    ghost heaviness = { λ expr. weight (expression_of expr) };

    fn open(self) -> Shape<Expr, Sign, Joint, Box<Expr>> {
        use Expr as E;
        let (sign, operand) = match self {
            E::PosPred(inner) => (Sign::PosPred, inner),
            E::NegPred(inner) => (Sign::NegPred, inner),
            E::Opt(inner) => (Sign::Opt, inner),
            E::Rep(inner) => (Sign::Rep, inner),
            E::RepOnce(inner) => (Sign::RepOnce, inner),
            E::RepExact(inner, count) => (Sign::RepExact(count), inner),
            E::RepMin(inner, min) => (Sign::RepMin(min), inner),
            E::RepMax(inner, max) => (Sign::RepMax(max), inner),
            E::RepMinMax(inner, min, max) => (Sign::RepMinMax(min, max), inner),
            E::Push(inner) => (Sign::Push, inner),
            E::NodeTag(inner, tag) => (Sign::NodeTag(tag), inner),
            E::Seq(left, right) => return Shape::Two(Joint::Sequence, left, right),
            E::Choice(left, right) => return Shape::Two(Joint::Choice, left, right),
            leaf => return Shape::Leaf(leaf),
        };
        Shape::One(sign, operand)
    }

    fn shape<'a>(&'a self) -> Result<Shape<Expr, Sign, Joint, &'a Box<Expr>>, AllocError> {
        use Expr as E;
        let (sign, operand) = match self {
            E::Str(text) => return Ok(Shape::Leaf(E::Str(text.clone()?))),
            E::Insens(text) => return Ok(Shape::Leaf(E::Insens(text.clone()?))),
            E::Range(first, last) => {
                return Ok(Shape::Leaf(E::Range(first.clone()?, last.clone()?)));
            }
            E::Ident(name) => return Ok(Shape::Leaf(E::Ident(name.clone()?))),
            E::PushLiteral(text) => return Ok(Shape::Leaf(E::PushLiteral(text.clone()?))),
            E::PeekSlice(start, end) => return Ok(Shape::Leaf(E::PeekSlice(*start, *end))),
            E::Skip(texts) => return Ok(Shape::Leaf(E::Skip(copy_texts(texts)?))),
            E::PosPred(inner) => (Sign::PosPred, inner),
            E::NegPred(inner) => (Sign::NegPred, inner),
            E::Opt(inner) => (Sign::Opt, inner),
            E::Rep(inner) => (Sign::Rep, inner),
            E::RepOnce(inner) => (Sign::RepOnce, inner),
            E::RepExact(inner, count) => (Sign::RepExact(*count), inner),
            E::RepMin(inner, least) => (Sign::RepMin(*least), inner),
            E::RepMax(inner, greatest) => (Sign::RepMax(*greatest), inner),
            E::RepMinMax(inner, least, greatest) => (Sign::RepMinMax(*least, *greatest), inner),
            E::Push(inner) => (Sign::Push, inner),
            E::NodeTag(inner, tag) => (Sign::NodeTag(tag.clone()?), inner),
            E::Seq(left, right) => return Ok(Shape::Two(Joint::Sequence, left, right)),
            E::Choice(left, right) => return Ok(Shape::Two(Joint::Choice, left, right)),
        };
        Ok(Shape::One(sign, operand))
    }

    fn enclose(sign: Sign, operand: Box<Expr>) -> Expr
        ensures { expression_of result ≡ under (unary_of sign) (expression_of operand.value) }
    {
        match sign {
            Sign::PosPred => Expr::PosPred(operand),
            Sign::NegPred => Expr::NegPred(operand),
            Sign::Opt => Expr::Opt(operand),
            Sign::Rep => Expr::Rep(operand),
            Sign::RepOnce => Expr::RepOnce(operand),
            Sign::RepExact(count) => Expr::RepExact(operand, count),
            Sign::RepMin(min) => Expr::RepMin(operand, min),
            Sign::RepMax(max) => Expr::RepMax(operand, max),
            Sign::RepMinMax(min, max) => Expr::RepMinMax(operand, min, max),
            Sign::Push => Expr::Push(operand),
            Sign::NodeTag(tag) => Expr::NodeTag(operand, tag),
        }
    }

    fn join(joint: Joint, left: Box<Expr>, right: Box<Expr>) -> Expr
        ensures { expression_of result
            ≡ joined joint (expression_of left.value) (expression_of right.value) }
    {
        match joint {
            Joint::Sequence => Expr::Seq(left, right),
            Joint::Choice => Expr::Choice(left, right),
        }
    }

    fn take(place: &mut Box<Expr>) -> Expr {
        Box::replace(place, Expr::PeekSlice(0, None))
    }

    fn chain(first: Box<Expr>, second: Box<Expr>) -> Expr
        ensures { weight (expression_of result)
            ≤ 2 * weight (expression_of first.value) + weight (expression_of second.value) + 1 }
    {
        Expr::Seq(first, second)
    }
}
