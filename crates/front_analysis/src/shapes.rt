//! The shapes of nodes: operators and operands.
ghost use Rattle.front_analysis.specs.Shapes.{IsMadeOf};

use front_spanned::{ParserExpr, ParserNode};

/// The operator round one operand.
#[derive(Clone, Copy)]
pub enum UnaryOperator {
    PosPred,
    NegPred,
    Opt,
    Rep,
    RepOnce,
    RepExact(u32),
    RepMin(u32),
    RepMax(u32),
    RepMinMax(u32, u32),
    Push,
    /// A tag, whatever its text.
    NodeTag,
}

/// The operator between two operands.
#[derive(Clone, Copy)]
pub enum Joint {
    Sequence,
    Choice,
}

/// The operator of a node, with its operands by their numbers.
#[derive(Clone, Copy)]
pub enum Shape {
    Leaf,
    One(UnaryOperator, usize),
    Two(Joint, usize, usize),
}

/// The operator and the operands of an expression.
pub enum Operands<'n, 'i> {
    /// No operand.
    Nothing,
    /// One operand, and the operator round it.
    Inside(UnaryOperator, &'n ParserNode<'i>),
    /// Two operands, and the operator between them.
    Both(Joint, &'n ParserNode<'i>, &'n ParserNode<'i>),
}

/// Destructures an expression into its operator and operands.
pub(crate) fn destructure<'n, 'i>(expr: &'n ParserExpr<'i>) -> Operands<'n, 'i>
    ensures { IsMadeOf expr.now result }
{
    match expr {
        ParserExpr::Str(_) => Operands::Nothing,
        ParserExpr::Insens(_) => Operands::Nothing,
        ParserExpr::Range(_, _) => Operands::Nothing,
        ParserExpr::Ident(_) => Operands::Nothing,
        ParserExpr::PeekSlice(_, _) => Operands::Nothing,
        ParserExpr::PushLiteral(_) => Operands::Nothing,
        ParserExpr::PosPred(body) => Operands::Inside(UnaryOperator::PosPred, body),
        ParserExpr::NegPred(body) => Operands::Inside(UnaryOperator::NegPred, body),
        ParserExpr::Opt(body) => Operands::Inside(UnaryOperator::Opt, body),
        ParserExpr::Push(body) => Operands::Inside(UnaryOperator::Push, body),
        ParserExpr::NodeTag(body, _) => Operands::Inside(UnaryOperator::NodeTag, body),
        ParserExpr::Seq(first, second) => Operands::Both(Joint::Sequence, first, second),
        ParserExpr::Choice(first, second) => Operands::Both(Joint::Choice, first, second),
        ParserExpr::Rep(body) => Operands::Inside(UnaryOperator::Rep, body),
        ParserExpr::RepOnce(body) => Operands::Inside(UnaryOperator::RepOnce, body),
        ParserExpr::RepExact(body, count) => Operands::Inside(
            UnaryOperator::RepExact(*count),
            body,
        ),
        ParserExpr::RepMin(body, count) => Operands::Inside(UnaryOperator::RepMin(*count), body),
        ParserExpr::RepMax(body, count) => Operands::Inside(UnaryOperator::RepMax(*count), body),
        ParserExpr::RepMinMax(body, low, high) => {
            Operands::Inside(UnaryOperator::RepMinMax(*low, *high), body)
        }
    }
}
