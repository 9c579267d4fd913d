//! Grammars as values: rules, their types and their expressions.
//!
//! A string field is a text, and two values are equal if they are of the same variant with equal
//! fields. Neither an allocator nor a capacity counts.
mod cloned;
mod compared;
mod printed;
mod released;
mod shaped;
mod walked;

pub use released::release;
pub use shaped::Sign;
pub use walked::ExprTopDownIterator;

/// A rule of a grammar: `name = { expr }`, with the modifier of its type before the brace.
#[derive(Debug, Drop)]
pub struct Rule {
    /// The name that calls it.
    pub name: String,
    /// How its body is run, and whether it gives a token.
    pub ty: RuleType,
    /// Its body.
    pub expr: Expr,
}

/// How a rule's body is run, and whether the rule gives a token.
///
/// A rule named `WHITESPACE` or `COMMENT` runs as an Atomic one, unless it is CompoundAtomic.
#[derive(Clone, Copy, Debug, Eq, PartialEq)]
pub enum RuleType {
    /// Runs as its caller does, and gives a token: `a = { .. }`.
    Normal,
    /// Runs as its caller does, and gives no token: `a = _{ .. }`.
    Silent,
    /// Runs with no implicit skipping and no tokens inside, and gives a token: `a = @{ .. }`.
    Atomic,
    /// Runs with no implicit skipping, and gives a token: `a = ${ .. }`.
    CompoundAtomic,
    /// Runs with the implicit skipping, and gives a token: `a = !{ .. }`.
    NonAtomic,
}

/// An expression of a grammar.
#[derive(Debug, Drop)]
pub enum Expr {
    /// The text itself: `"a"`.
    Str(String),
    /// The text up to the case of ASCII letters: `^"a"`.
    Insens(String),
    /// One character from the first of one text to the first of the other, both included:
    /// `'a'..'z'`.
    Range(String, String),
    /// A call of the rule or the builtin of that name.
    Ident(String),
    /// The texts from one index of the stack up to another, counted from its bottom. A negative index
    /// counts from the stack's length, which is also the end if none is given: `PEEK[0..-1]`.
    PeekSlice(i32, Option<i32>),
    /// Succeeds if the expression succeeds, and takes nothing: `&e`.
    PosPred(Box<Expr>),
    /// Succeeds if the expression fails, and takes nothing: `!e`.
    NegPred(Box<Expr>),
    /// One expression after another: `a ~ b`.
    Seq(Box<Expr>, Box<Expr>),
    /// The first expression, or the second if that fails: `a | b`.
    Choice(Box<Expr>, Box<Expr>),
    /// The expression, or nothing if it fails: `e?`.
    Opt(Box<Expr>),
    /// The expression as often as it succeeds: `e*`.
    Rep(Box<Expr>),
    /// The expression as often as it succeeds, and at least once: `e+`.
    RepOnce(Box<Expr>),
    /// Exactly this number of times: `e{2}`.
    RepExact(Box<Expr>, u32),
    /// At least this number of times: `e{2,}`.
    RepMin(Box<Expr>, u32),
    /// At most this number of times: `e{,2}`.
    RepMax(Box<Expr>, u32),
    /// From the first number of times to the second: `e{2, 3}`.
    RepMinMax(Box<Expr>, u32, u32),
    /// Goes to the next position where one of the texts occurs, or to the end.
    Skip(Vec<String>),
    /// The expression; its text is then pushed onto the stack: `PUSH(e)`.
    Push(Box<Expr>),
    /// Pushes the text onto the stack, and takes nothing: `PUSH_LITERAL("a")`.
    PushLiteral(String),
    /// The expression under a tag, without the `#`; the tag does not change its meaning: `#tag = e`.
    NodeTag(Box<Expr>, String),
}
