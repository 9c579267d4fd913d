//! Syntax trees: rules, and expressions with their pieces of the text.
use base_ast::ast::RuleType;
use base_language::runtime::Span;

/// A rule: `name = { node }`, with the modifier of its type before the brace.
#[derive(Debug, Drop)]
pub struct ParserRule<'i> {
    /// The name that calls it.
    pub name: String,
    /// The span of that name.
    pub span: Span<'i>,
    /// How its body is run, and whether it gives a token.
    pub ty: RuleType,
    /// Its body.
    pub node: ParserNode<'i>,
}

/// An expression, and its span.
#[cycle(node)]
#[derive(Debug, Drop)]
pub struct ParserNode<'i> {
    /// The expression itself.
    pub expr: ParserExpr<'i>,
    /// The part of the text in which it is written.
    pub span: Span<'i>,
}

/// An expression over nodes.
#[cycle(node)]
#[derive(Debug, Drop)]
pub enum ParserExpr<'i> {
    /// The text itself: `"a"`.
    Str(String),
    /// The text up to the case of ASCII letters: `^"a"`.
    Insens(String),
    /// One character from the first of one text to the first of the other, both included:
    /// `'a'..'z'`.
    Range(String, String),
    /// A call of the rule or the builtin of that name.
    Ident(String),
    /// The texts from one index of the stack up to another, or up to its end: `PEEK[0..-1]`.
    PeekSlice(i32, Option<i32>),
    /// Succeeds if the node succeeds, and takes nothing: `&e`.
    PosPred(Box<ParserNode<'i>>),
    /// Succeeds if the node fails, and takes nothing: `!e`.
    NegPred(Box<ParserNode<'i>>),
    /// One node after another: `a ~ b`.
    Seq(Box<ParserNode<'i>>, Box<ParserNode<'i>>),
    /// The first node, or the second if that fails: `a | b`.
    Choice(Box<ParserNode<'i>>, Box<ParserNode<'i>>),
    /// The node, or nothing if it fails: `e?`.
    Opt(Box<ParserNode<'i>>),
    /// The node as often as it succeeds: `e*`.
    Rep(Box<ParserNode<'i>>),
    /// The node as often as it succeeds, and at least once: `e+`.
    RepOnce(Box<ParserNode<'i>>),
    /// Exactly this number of times: `e{2}`.
    RepExact(Box<ParserNode<'i>>, u32),
    /// At least this number of times: `e{2,}`.
    RepMin(Box<ParserNode<'i>>, u32),
    /// At most this number of times: `e{,2}`.
    RepMax(Box<ParserNode<'i>>, u32),
    /// From the first number of times to the second: `e{2, 3}`.
    RepMinMax(Box<ParserNode<'i>>, u32, u32),
    /// The node; its text is then pushed onto the stack: `PUSH(e)`.
    Push(Box<ParserNode<'i>>),
    /// Pushes the text onto the stack, and takes nothing: `PUSH_LITERAL("a")`. Its span is that of its
    /// string.
    PushLiteral(String),
    /// The node under a tag, without the `#`; the tag does not change its meaning: `#tag = e`.
    NodeTag(Box<ParserNode<'i>>, String),
}
