//! Facts about the rules of a grammar: whether they may match nothing, and their first sets.
ghost use Rattle.std.specs.Prelude.{◌≡◌, IfOk, false, slice_index_or};
ghost use Rattle.front_analysis.specs.Names.{grammar_of};

use base_ast::ast::Expr;
use front_analysis::{
    Analysis, Facts, Joint, Names, Node, ResolvedGrammar, Shape, Table, UnaryOperator, analyze,
};
use front_names::Builtin;
use front_spanned::{ParserExpr, ParserRule};
use std::alloc::{AllocError, Global};

/// The most expressions of a first set that are listed.
const MOST_FIRST: usize = 20;

/// Facts about a rule.
#[derive(Drop)]
pub struct RuleFacts {
    /// Whether it may match without taking a character.
    pub is_nullable: bool,
    /// The beginnings of its matches.
    pub first: FirstLabels,
}

/// The beginnings of a rule's matches.
#[derive(Drop)]
pub struct FirstLabels {
    /// The first characters of literals, ranges and builtins, as they are printed, each once, at most 20.
    pub labels: Vec<String>,
    /// Whether there are more.
    pub has_more: bool,
}

/// The start of a node: the beginnings of its matches.
#[derive(Drop)]
pub enum Start {
    /// Nothing that takes a character.
    Nothing,
    /// An expression, as it is printed.
    Label(String),
    /// The start of another node.
    Node(usize),
    /// The starts of two other nodes.
    Either(usize, usize),
}

/// The rules of a grammar by their names, with what facts are made of.
#[derive(Drop)]
pub struct RuleTable {
    pub names: Names,
    /// The numbers of the rules' bodies.
    pub roots: Vec<usize>,
    /// Flags of the nodes that may match without taking a character.
    pub nullable: Vec<bool>,
    /// The starts of the nodes.
    pub starts: Vec<Start>,
}

impl RuleTable {
    ghost use Rattle.server_features.specs.Facts.{AreFactsBy, IsTableOf, root_of};

    /// Returns the table of rules.
    pub fn new(alloc: Global, rules: &[ParserRule<'_>]) -> Result<RuleTable, AllocError>
        ensures { IfOk result (IsTableOf (grammar_of rules.now)) }
    {
        let analysis = analyze(alloc, rules)?;
        let starts = starts_of(alloc, &analysis)?;
        let Analysis { grammar, facts } = analysis;
        let ResolvedGrammar { names, table, .. } = grammar;
        let Table { roots, .. } = table;
        let Facts { nullable, .. } = facts;
        Ok(RuleTable {
            names,
            roots,
            nullable,
            starts,
        })
    }

    /// Returns the facts of the rule named `name`, or `None` if there is no such rule.
    pub fn facts_of(&self, alloc: Global, name: &str) -> Result<Option<RuleFacts>, AllocError>
        ensures { IfOk result (AreFactsBy self.now name.now) }
    {
        let Some(root) = self.root_of(name) else {
            return Ok(None);
        };
        let first = self.first_set(alloc, root)?;
        Ok(Some(RuleFacts {
            is_nullable: self.is_nullable(root),
            first,
        }))
    }

    /// Returns the index of the body of the rule named `name`.
    fn root_of(&self, name: &str) -> Option<usize>
        ensures { result ≡ root_of self.now name.now }
    {
        let rule = self.names.place_of(name)?;
        self.roots.get(rule).copied()
    }

    /// Whether a node may match without taking a character.
    fn is_nullable(&self, node: usize) -> bool
        ensures { result ≡ slice_index_or self.now.nullable.items node false }
    {
        self.nullable.get(node).copied().unwrap_or(false)
    }

    /// Returns what can begin a node, by a depth-first search of the starts.
    fn first_set(&self, alloc: Global, root: usize) -> Result<FirstLabels, AllocError> {
        let count = self.starts.len();
        let mut is_visited = vec![in alloc; false; count]?;
        let mut stack = vec![in alloc; root]?;
        let mut first = FirstLabels::new(alloc);
        for _ in 0..count.saturating_mul(2) {
            let Some(number) = stack.pop() else {
                break;
            };
            let Some(flag) = is_visited.get_mut(number) else {
                continue;
            };
            if *flag {
                continue;
            }
            *flag = true;
            self.visit(alloc, number, &mut stack, &mut first)?;
        }
        Ok(first)
    }

    /// Adds the start of a node: other nodes to the stack, or a label to the first set.
    fn visit(
        &self,
        alloc: Global,
        number: usize,
        stack: &mut Vec<usize>,
        first: &mut FirstLabels,
    ) -> Result<(), AllocError> {
        match self.starts.get(number) {
            None | Some(Start::Nothing) => Ok(()),
            Some(Start::Label(label)) => first.push(alloc, label.as_str()),
            Some(Start::Node(other)) => {
                stack.push(*other)?;
                Ok(())
            }
            Some(Start::Either(other, last)) => {
                stack.push(*last)?;
                stack.push(*other)?;
                Ok(())
            }
        }
    }
}

impl FirstLabels {
    /// Returns an empty set.
    fn new(alloc: Global) -> FirstLabels {
        FirstLabels {
            labels: Vec::new(alloc),
            has_more: false,
        }
    }

    /// Adds an expression as it is printed, unless it is there.
    fn push(&mut self, alloc: Global, label: &str) -> Result<(), AllocError> {
        if self.labels.iter().any(|other| other.as_str() == label) {
            return Ok(());
        }
        if self.labels.len() >= MOST_FIRST {
            self.has_more = true;
            return Ok(());
        }
        self.labels.push(String::from_str(alloc, label)?)?;
        Ok(())
    }
}

/// Returns the starts of all nodes.
fn starts_of(alloc: Global, analysis: &Analysis<'_, '_>) -> Result<Vec<Start>, AllocError> {
    let mut starts = Vec::new(alloc);
    for node in &analysis.grammar.table.nodes {
        starts.push(start_of(alloc, analysis, *node)?)?;
    }
    Ok(starts)
}

/// Returns the start of a node.
fn start_of(
    alloc: Global,
    analysis: &Analysis<'_, '_>,
    node: Node<'_, '_>,
) -> Result<Start, AllocError> {
    match node.shape {
        Shape::Leaf => start_of_leaf(alloc, analysis, node),
        Shape::One(UnaryOperator::PosPred, _) | Shape::One(UnaryOperator::NegPred, _) => {
            Ok(Start::Nothing)
        }
        Shape::One(_, inner) => Ok(Start::Node(inner)),
        Shape::Two(Joint::Choice, left, right) => Ok(Start::Either(left, right)),
        Shape::Two(Joint::Sequence, left, right) => {
            if analysis.facts.nullable.get(left).copied().unwrap_or(false) {
                Ok(Start::Either(left, right))
            } else {
                Ok(Start::Node(left))
            }
        }
    }
}

/// Returns the start of a leaf: the body of the rule that it calls, or the leaf as it is printed.
fn start_of_leaf(
    alloc: Global,
    analysis: &Analysis<'_, '_>,
    node: Node<'_, '_>,
) -> Result<Start, AllocError> {
    match node.expr {
        ParserExpr::PushLiteral(_) => Ok(Start::Nothing),
        ParserExpr::Ident(name) => match analysis.grammar.names.place_of(name.as_str()) {
            Some(rule) => Ok(start_of_call(analysis, rule)),
            None => start_of_builtin(alloc, name.as_str()),
        },
        ParserExpr::Str(text) => start_of_literal(alloc, text.as_str(), false),
        ParserExpr::Insens(text) => start_of_literal(alloc, text.as_str(), true),
        _ => Ok(Start::Label(String::from_str(alloc, node.span.as_str().trim())?)),
    }
}

/// Returns the start of a call of the rule of a number.
fn start_of_call(analysis: &Analysis<'_, '_>, rule: usize) -> Start {
    match analysis.grammar.table.roots.get(rule) {
        Some(root) => Start::Node(*root),
        None => Start::Nothing,
    }
}

/// Returns the start of a builtin.
fn start_of_builtin(alloc: Global, name: &str) -> Result<Start, AllocError> {
    match Builtin::from_name(name) {
        Some(builtin) if takes_nothing(builtin) => Ok(Start::Nothing),
        _ => Ok(Start::Label(String::from_str(alloc, name)?)),
    }
}

/// Whether a builtin never takes a character.
fn takes_nothing(builtin: Builtin) -> bool {
    match builtin {
        Builtin::Soi | Builtin::Eoi | Builtin::Drop => true,
        Builtin::Set(_)
        | Builtin::Newline
        | Builtin::Peek
        | Builtin::Pop
        | Builtin::PeekAll
        | Builtin::PopAll => false,
    }
}

/// Returns the start of a literal: its first character, as a literal.
fn start_of_literal(alloc: Global, text: &str, has_any_case: bool) -> Result<Start, AllocError> {
    let Some(character) = text.chars().next() else {
        return Ok(Start::Nothing);
    };
    let mut literal = String::new(alloc);
    literal.push(character)?;
    let literal = if has_any_case {
        Expr::Insens(literal)
    } else {
        Expr::Str(literal)
    };
    Ok(Start::Label(literal.to_string(alloc)?))
}
