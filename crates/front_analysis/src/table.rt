//! The node table: all nodes of all rules in postorder, built iteratively, so that nesting takes no stack
//! space.
ghost use Rattle.std.specs.Prelude.{◌≡◌, ◌+◌, ◌-◌, ◌++◌, ◌∷◌, [], IfOk, OnOk, List, length, replicate};
ghost use Rattle.front_spanned.specs.Nodes.{view_at, piece_of};
ghost use Rattle.front_spanned.specs.Spanned as spanned;
ghost use Rattle.front_spanned.specs.Spanned.{Spanned};
ghost use Rattle.front_analysis.specs.Layout.{AreNumbered, AreLaidOut, IsAfter, NothingWaits, start_at, all_below, forwards, rule_numbers};
ghost use Rattle.front_analysis.specs.Nodes.{postorder, size};
ghost use Rattle.front_analysis.specs.Roots.{IsTabled};
ghost use Rattle.front_analysis.specs.declared.shapes.Shape.TheVariants as shapes;

use crate::shapes::{Joint, Operands, Shape, UnaryOperator, destructure};
use base_language::runtime::Span;
use front_spanned::{ParserExpr, ParserNode, ParserRule};
use std::alloc::{AllocError, Global};

/// A node: an expression, its span, and its shape.
#[derive(Clone, Copy)]
pub struct Node<'n, 'i> {
    pub expr: &'n ParserExpr<'i>,
    pub span: &'n Span<'i>,
    pub shape: Shape,
    /// The number of the first node inside this one, or its own if there is none inside.
    pub start: usize,
    /// The number of the rule in which the node is.
    pub rule: usize,
}

/// The nodes of all rules in postorder.
#[derive(Drop)]
pub struct Table<'n, 'i> {
    pub nodes: Vec<Node<'n, 'i>>,
    /// The numbers of the rules' bodies.
    pub roots: Vec<usize>,
}

impl<'n, 'i> Table<'n, 'i> {
    /// Copies the numbers of the rules' bodies.
    pub fn copy_roots(&self, alloc: Global) -> Result<Vec<usize>, AllocError>
        ensures { IfOk result (λ roots. roots.items ≡ self.now.roots.items) }
    {
        let mut roots = Vec::new(alloc);
        roots.extend_from_slice(self.roots.as_slice())?;
        Ok(roots)
    }
}

/// Returns the number of the first node inside a node, or the node's own if there is none inside.
fn start_at<'n, 'i>(nodes: &[Node<'n, 'i>], node: usize) -> usize
    ensures { result ≡ start_at nodes.now node }
{
    match nodes.get(node) {
        Some(node) => node.start,
        None => 0,
    }
}

/// The shape of a node, and the number of the first node inside it.
#[derive(Clone, Copy)]
pub struct Placement {
    pub shape: Shape,
    pub start: usize,
}

/// Shapes a node round the one before it.
fn shape_unary<'n, 'i>(sign: UnaryOperator, own: usize, nodes: &[Node<'n, 'i>]) -> Placement
    ensures shape { result.shape ≡ shapes.One sign (own - 1) }
    ensures start { result.start ≡ start_at nodes.now (own - 1) }
{
    let inside = own.saturating_sub(1);
    Placement {
        shape: Shape::One(sign, inside),
        start: start_at(nodes, inside),
    }
}

/// Shapes a node with two operands before it: the second one ends there, the first one before the second.
fn shape_binary<'n, 'i>(joint: Joint, own: usize, nodes: &[Node<'n, 'i>]) -> Placement
    ensures shape { result.shape ≡ shapes.Two joint (start_at nodes.now (own - 1) - 1) (own - 1) }
    ensures start { result.start ≡ start_at nodes.now (start_at nodes.now (own - 1) - 1) }
{
    let second = own.saturating_sub(1);
    let first = start_at(nodes, second).saturating_sub(1);
    Placement {
        shape: Shape::Two(joint, first, second),
        start: start_at(nodes, first),
    }
}

/// Puts the operands of an expression on a list, the left one first.
fn push_operands<'n, 'i>(
    expr: &'n ParserExpr<'i>,
    waiting: &mut Vec<&'n ParserNode<'i>>,
) -> Result<(), AllocError>
    ensures { OnOk result ((t : spanned.Span) → all_below waiting.new.items ++ view_at t expr.now ∷ []
        ≡ all_below waiting.old.items ++ postorder (view_at t expr.now)) }
{
    match destructure(expr) {
        Operands::Nothing => {}
        Operands::Inside(_, body) => waiting.push(body)?,
        Operands::Both(_, first, second) => {
            waiting.push(first)?;
            waiting.push(second)?;
        }
    }
    Ok(())
}

/// Moves the nodes of a list, with all nodes inside them, to another list in reverse postorder: a node
/// before those inside it, and a right one before the left.
fn reverse_nodes<'n, 'i>(
    waiting: &mut Vec<&'n ParserNode<'i>>,
    inside: &mut Vec<&'n ParserNode<'i>>,
) -> Result<(), AllocError>
    requires { inside.old.items ≡ [] }
    ensures none { OnOk result (waiting.new.items ≡ []) }
    ensures nodes { OnOk result (forwards inside.new.items ≡ all_below waiting.old.items) }
{
    while let Some(next) = waiting.pop() {
        inside.push(next)?;
        push_operands(&next.expr, waiting)?;
    }
    Ok(())
}

/// Numbers an expression whose operands have the last numbers.
fn add_node<'n, 'i>(
    rule: usize,
    expr: &'n ParserExpr<'i>,
    span: &'n Span<'i>,
    nodes: &mut Vec<Node<'n, 'i>>,
) -> Result<(), AllocError>
    ensures last { OnOk result (length nodes.new.items ≡ length nodes.old.items + 1) }
    ensures rules { OnOk result (rule_numbers nodes.new.items
        ≡ rule_numbers nodes.old.items ++ rule ∷ []) }
    ensures nodes { OnOk result ((done : List Spanned)
        → AreNumbered done nodes.old.items
        → IsAfter done (view_at (piece_of span.now) expr.now)
        → AreNumbered (done ++ view_at (piece_of span.now) expr.now ∷ []) nodes.new.items) }
{
    let own = nodes.len();
    let placed = match destructure(expr) {
        Operands::Nothing => Placement {
            shape: Shape::Leaf,
            start: own,
        },
        Operands::Inside(sign, _) => shape_unary(sign, own, nodes.as_slice()),
        Operands::Both(joint, _, _) => shape_binary(joint, own, nodes.as_slice()),
    };
    nodes.push(Node {
        expr,
        span,
        shape: placed.shape,
        start: placed.start,
        rule,
    })?;
    Ok(())
}

/// Numbers the nodes of a list, from its end to its start, and empties the list.
fn add_nodes<'n, 'i>(
    rule: usize,
    inside: &mut Vec<&'n ParserNode<'i>>,
    nodes: &mut Vec<Node<'n, 'i>>,
) -> Result<(), AllocError>
    ensures none { OnOk result (inside.new.items ≡ []) }
    ensures nodes { OnOk result ((done : List Spanned)
        → AreNumbered done nodes.old.items
        → AreLaidOut (done ++ forwards inside.old.items)
        → AreNumbered (done ++ forwards inside.old.items) nodes.new.items) }
    ensures rules { OnOk result (rule_numbers nodes.new.items
        ≡ rule_numbers nodes.old.items ++ replicate (length (forwards inside.old.items)) rule) }
{
    while let Some(next) = inside.pop() {
        add_node(rule, &next.expr, &next.span, nodes)?;
    }
    Ok(())
}

/// The worklist of an expression's nodes that have no number yet. Between two expressions the list is
/// empty, so that one list serves a whole grammar.
#[derive(Drop)]
pub struct Unnumbered<'n, 'i> {
    /// Nodes whose operands are not in the list yet.
    pub waiting: Vec<&'n ParserNode<'i>>,
    /// The others, in reverse postorder.
    pub inside: Vec<&'n ParserNode<'i>>,
}

impl<'n, 'i> Unnumbered<'n, 'i> {
    /// Makes an empty worklist.
    pub fn new(alloc: Global) -> Unnumbered<'n, 'i>
        ensures { NothingWaits result }
    {
        Unnumbered {
            waiting: Vec::new(alloc),
            inside: Vec::new(alloc),
        }
    }
}

/// Numbers the nodes inside an expression, after those in the list, and then the expression itself, and
/// returns its number.
pub fn number<'n, 'i>(
    unnumbered: &mut Unnumbered<'n, 'i>,
    rule: usize,
    expr: &'n ParserExpr<'i>,
    span: &'n Span<'i>,
    nodes: &mut Vec<Node<'n, 'i>>,
) -> Result<usize, AllocError>
    requires { NothingWaits unnumbered.old }
    ensures none { OnOk result (NothingWaits unnumbered.new) }
    ensures last { IfOk result (λ own. length nodes.new.items ≡ own + 1) }
    ensures nodes { OnOk result ((done : List Spanned)
        → AreNumbered done nodes.old.items
        → AreNumbered (done ++ postorder (view_at (piece_of span.now) expr.now)) nodes.new.items) }
    ensures rules { OnOk result (rule_numbers nodes.new.items
        ≡ rule_numbers nodes.old.items ++ replicate (size (view_at (piece_of span.now) expr.now)) rule) }
{
    push_operands(expr, &mut unnumbered.waiting)?;
    reverse_nodes(&mut unnumbered.waiting, &mut unnumbered.inside)?;
    add_nodes(rule, &mut unnumbered.inside, nodes)?;
    let own = nodes.len();
    add_node(rule, expr, span, nodes)?;
    Ok(own)
}

/// Makes the node table of rules: the nodes of all bodies, and the numbers of the bodies.
pub fn tabulate<'n, 'i>(
    alloc: Global,
    rules: &'n [ParserRule<'i>],
) -> Result<Table<'n, 'i>, AllocError>
    ensures { IfOk result (λ table. IsTabled rules.now table) }
{
    let mut unnumbered = Unnumbered::new(alloc);
    let mut table = Table {
        nodes: Vec::new(alloc),
        roots: Vec::with_capacity(alloc, rules.len())?,
    };
    for place in 0..rules.len() {
        let body = &rules[place].node;
        let root = number(
            &mut unnumbered,
            place,
            &body.expr,
            &body.span,
            &mut table.nodes,
        )?;
        table.roots.push(root)?;
    }
    Ok(table)
}
