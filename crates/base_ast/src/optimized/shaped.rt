//! Destructures and rebuilds optimized expressions.
ghost use Rattle.std.specs.Prelude.{◌≡◌, ◌+◌, ◌*◌, ◌≤◌, []};
ghost use Rattle.base_language.specs.Language.Expression.{Expression};
ghost use Rattle.base_ast.specs.Frames.{joined};
ghost use Rattle.base_ast.specs.Operands.{operands};
ghost use Rattle.base_ast.specs.Optimized.{optimized_expression_of};
ghost use Rattle.base_ast.specs.OptimizedSigns.{under_sign};
ghost use Rattle.base_ast.specs.Weight.{weight};

use super::OptimizedExpr;
use crate::shape::{Joint, Shape, Shaped};
use crate::texts::copy_texts;
use std::alloc::AllocError;

/// The operator over one operand of an optimized expression.
#[derive(Drop)]
pub enum Sign {
    /// An operator that occurs before the passes, too.
    Plain(PlainSign),
    /// The wrapper that restores the stack.
    Wrapper,
}

/// The operator over one operand, wrappers aside.
#[derive(Drop)]
pub enum PlainSign {
    PosPred,
    NegPred,
    Opt,
    Rep,
    RepOnce,
    Push,
    NodeTag(String),
}

impl Shaped for OptimizedExpr {
    type Sign = Sign;

    type Joint = Joint;

    ghost Meaning = { Expression };

    ghost says = { λ expr. optimized_expression_of expr };

    ghost around = { λ sign operand. under_sign sign operand };

    ghost between = { λ joint left right. joined joint left right };

    ghost is_bare = { λ expr. operands (optimized_expression_of expr) ≡ [] };

    ghost heaviness = { λ expr. weight (optimized_expression_of expr) };

    fn open(self) -> Shape<OptimizedExpr, Sign, Joint, Box<OptimizedExpr>> {
        use OptimizedExpr as E;
        let (sign, operand) = match self {
            E::PosPred(inner) => (PlainSign::PosPred, inner),
            E::NegPred(inner) => (PlainSign::NegPred, inner),
            E::Opt(inner) => (PlainSign::Opt, inner),
            E::Rep(inner) => (PlainSign::Rep, inner),
            E::RepOnce(inner) => (PlainSign::RepOnce, inner),
            E::Push(inner) => (PlainSign::Push, inner),
            E::NodeTag(inner, tag) => (PlainSign::NodeTag(tag), inner),
            E::RestoreOnErr(inner) => return Shape::One(Sign::Wrapper, inner),
            E::Seq(left, right) => return Shape::Two(Joint::Sequence, left, right),
            E::Choice(left, right) => return Shape::Two(Joint::Choice, left, right),
            leaf => return Shape::Leaf(leaf),
        };
        Shape::One(Sign::Plain(sign), operand)
    }

    fn shape<'a>(
        &'a self,
    ) -> Result<Shape<OptimizedExpr, Sign, Joint, &'a Box<OptimizedExpr>>, AllocError> {
        use OptimizedExpr as E;
        let (sign, operand) = match self {
            E::Str(text) => return Ok(Shape::Leaf(E::Str(text.clone()?))),
            E::Insens(text) => return Ok(Shape::Leaf(E::Insens(text.clone()?))),
            E::Range(first, last) => {
                return Ok(Shape::Leaf(E::Range(first.clone()?, last.clone()?)));
            }
            E::Ident(name) => return Ok(Shape::Leaf(E::Ident(name.clone()?))),
            E::PushLiteral(text) => return Ok(Shape::Leaf(E::PushLiteral(text.clone()?))),
            E::PeekSlice(start, end) => return Ok(Shape::Leaf(E::PeekSlice(*start, *end))),
            E::Skip(texts) => return Ok(Shape::Leaf(E::Skip(copy_texts(texts)?))),
            E::PosPred(inner) => (PlainSign::PosPred, inner),
            E::NegPred(inner) => (PlainSign::NegPred, inner),
            E::Opt(inner) => (PlainSign::Opt, inner),
            E::Rep(inner) => (PlainSign::Rep, inner),
            E::RepOnce(inner) => (PlainSign::RepOnce, inner),
            E::Push(inner) => (PlainSign::Push, inner),
            E::NodeTag(inner, tag) => (PlainSign::NodeTag(tag.clone()?), inner),
            E::RestoreOnErr(inner) => return Ok(Shape::One(Sign::Wrapper, inner)),
            E::Seq(left, right) => return Ok(Shape::Two(Joint::Sequence, left, right)),
            E::Choice(left, right) => return Ok(Shape::Two(Joint::Choice, left, right)),
        };
        Ok(Shape::One(Sign::Plain(sign), operand))
    }

    fn enclose(sign: Sign, operand: Box<OptimizedExpr>) -> OptimizedExpr
        ensures { optimized_expression_of result ≡ under_sign sign (optimized_expression_of operand.value) }
    {
        use OptimizedExpr as E;
        match sign {
            Sign::Wrapper => E::RestoreOnErr(operand),
            Sign::Plain(PlainSign::PosPred) => E::PosPred(operand),
            Sign::Plain(PlainSign::NegPred) => E::NegPred(operand),
            Sign::Plain(PlainSign::Opt) => E::Opt(operand),
            Sign::Plain(PlainSign::Rep) => E::Rep(operand),
            Sign::Plain(PlainSign::RepOnce) => E::RepOnce(operand),
            Sign::Plain(PlainSign::Push) => E::Push(operand),
            Sign::Plain(PlainSign::NodeTag(tag)) => E::NodeTag(operand, tag),
        }
    }

    fn join(joint: Joint, left: Box<OptimizedExpr>, right: Box<OptimizedExpr>) -> OptimizedExpr
        ensures { optimized_expression_of result
            ≡ joined joint (optimized_expression_of left.value) (optimized_expression_of right.value) }
    {
        match joint {
            Joint::Sequence => OptimizedExpr::Seq(left, right),
            Joint::Choice => OptimizedExpr::Choice(left, right),
        }
    }

    fn take(place: &mut Box<OptimizedExpr>) -> OptimizedExpr {
        Box::replace(place, OptimizedExpr::PeekSlice(0, None))
    }

    fn chain(first: Box<OptimizedExpr>, second: Box<OptimizedExpr>) -> OptimizedExpr
        ensures { weight (optimized_expression_of result)
            ≤ 2 * weight (optimized_expression_of first.value)
            + weight (optimized_expression_of second.value) + 1 }
    {
        OptimizedExpr::Seq(first, second)
    }
}
