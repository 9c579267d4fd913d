//! Continuation frames of the reader: a list of levels keeps the expressions that are open around each
//! other.
use crate::rules::signs::Sign;
use base_ast::deep::Deep;
use front_nodes::nodes::TokenNode;
use front_spanned::ParserNode;

/// The surroundings of a term in its expression.
#[derive(Drop)]
pub struct TermContext<'i, 't> {
    /// The alternatives before the term's own, read and combined into one node.
    pub choice: Option<Deep<ParserNode<'i>>>,
    /// The terms before this one in its alternative, read and combined into one node.
    pub sequence: Option<Deep<ParserNode<'i>>>,
    /// The trees after the term.
    pub rest: &'t [TokenNode],
}

/// The operand that an inner expression is in.
#[derive(Clone, Copy)]
pub enum Enclosure {
    /// Parentheses, by the byte positions where the first begins and where the second ends.
    Parentheses { start: usize, end: usize },
    /// `PUSH`, by the byte position where it begins.
    Push { start: usize },
}

/// A term whose inner expression is being read.
#[derive(Drop)]
pub struct Level<'i, 't> {
    pub beside: TermContext<'i, 't>,
    /// The signs before the operand.
    pub signs: Vec<Sign<'i>>,
    pub within: Enclosure,
    /// The postfix operators after the operand.
    pub postfixes: &'t [TokenNode],
}

/// The next step of the reader.
#[derive(Drop)]
pub enum Next<'i, 't> {
    /// A term is to be read, by the trees in it.
    Term(TermContext<'i, 't>, &'t [TokenNode]),
    /// An expression in a term is to be read, by the trees in it.
    Inner(Level<'i, 't>, &'t [TokenNode]),
    /// Nothing: an expression is read.
    Done(ParserNode<'i>),
}
