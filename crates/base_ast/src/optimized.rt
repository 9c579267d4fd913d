//! Optimized rules as values: the result of the optimizer's passes.
use crate::ast::RuleType;

mod cloned;
mod compared;
mod printed;
mod released;
mod shaped;
mod walked;

pub use released::release;
pub use shaped::{PlainSign, Sign};
pub use walked::OptimizedExprTopDownIterator;

/// An optimized rule of a grammar.
#[derive(Debug, Drop)]
pub struct OptimizedRule {
    /// The name that calls it.
    pub name: String,
    /// How its body is run, and whether it gives a token.
    pub ty: RuleType,
    /// Its body.
    pub expr: OptimizedExpr,
}

/// An optimized expression of a grammar: of repetitions there are `*` and `+`, and no counted ones.
#[derive(Debug, Drop)]
pub enum OptimizedExpr {
    /// The text itself: `"a"`.
    Str(String),
    /// The text up to the case of ASCII letters: `^"a"`.
    Insens(String),
    /// One character from the first of one text to the first of the other, both included:
    /// `'a'..'z'`.
    Range(String, String),
    /// A call of the rule or the builtin of that name.
    Ident(String),
    /// The texts from one index of the stack up to another, counted from its bottom. A negative index
    /// counts from the stack's length, which is also the end if none is given: `PEEK[0..-1]`.
    PeekSlice(i32, Option<i32>),
    /// Succeeds if the expression succeeds, and takes nothing: `&e`.
    PosPred(Box<OptimizedExpr>),
    /// Succeeds if the expression fails, and takes nothing: `!e`.
    NegPred(Box<OptimizedExpr>),
    /// One expression after another: `a ~ b`.
    Seq(Box<OptimizedExpr>, Box<OptimizedExpr>),
    /// The first expression, or the second if that fails: `a | b`.
    Choice(Box<OptimizedExpr>, Box<OptimizedExpr>),
    /// The expression, or nothing if it fails: `e?`.
    Opt(Box<OptimizedExpr>),
    /// The expression as often as it succeeds: `e*`.
    Rep(Box<OptimizedExpr>),
    /// The expression as often as it succeeds, and at least once: `e+`.
    RepOnce(Box<OptimizedExpr>),
    /// Goes to the next position where one of the texts occurs, or to the end.
    Skip(Vec<String>),
    /// The expression; its text is then pushed onto the stack: `PUSH(e)`.
    Push(Box<OptimizedExpr>),
    /// Pushes the text onto the stack, and takes nothing: `PUSH_LITERAL("a")`.
    PushLiteral(String),
    /// The expression under a tag, without the `#`; the tag does not change its meaning: `#tag = e`.
    NodeTag(Box<OptimizedExpr>, String),
    /// The expression; if it fails, the stack is as it was before.
    RestoreOnErr(Box<OptimizedExpr>),
}
