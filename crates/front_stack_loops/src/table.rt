//! The node table of the stack pass: all rules' nodes by index, with their kinds.
ghost use Rattle.std.specs.Prelude.{◌≡◌, ◌<◌, ℕ, slice_get};
ghost use Rattle.base_graphs.specs.Least.{is_set_at};
ghost use Rattle.front_stack_domain.specs.Stack as is;
ghost use Rattle.front_stack_domain.specs.Reading as says;

use base_graphs::is_set;
use base_language::runtime::Span;

/// The kind of a node: its operation, with the indices of its operands.
#[derive(Clone, Copy)]
pub enum NodeKind {
    /// Takes nothing, and cannot fail.
    Still,
    /// May take something, or fail, and leaves the stack.
    Leaf,
    Peek,
    Pop,
    Drop,
    PeekAll,
    PopAll,
    /// Pushes a text, empty (`true`) or not.
    PushLiteral(bool),
    /// A call, with the index of the rule.
    Call(usize),
    PosPred(usize),
    NegPred(usize),
    Opt(usize),
    Push(usize),
    /// A tagged expression, which does the same without its tag.
    Tag(usize),
    Seq(usize, usize),
    Choice(usize, usize),
    /// A repetition: its body, the number of required and of optional copies, and whether turns without end
    /// follow.
    Repeat(usize, u32, u32, bool),
}

/// The operands of a node, as they are visited.
#[derive(Clone, Copy)]
pub enum Parts {
    Nothing,
    /// One, as often as the copies of a repetition are followed.
    Inside(usize, u32, u32, bool),
    /// Two: the second one after the first, or after its failure.
    Both(usize, usize, bool),
}

impl NodeKind {
    ghost use Rattle.front_stack_loops.specs.Table.{called_by, parts_of};

    /// Returns the index of the rule that is called.
    pub(crate) fn called_rule(self) -> Option<usize>
        ensures { result ≡ called_by self }
    {
        match self {
            NodeKind::Call(rule) => Some(rule),
            NodeKind::PosPred(_) => None,
            NodeKind::NegPred(_) => None,
            NodeKind::Opt(_) => None,
            NodeKind::Push(_) => None,
            NodeKind::Tag(_) => None,
            NodeKind::Repeat(_, _, _, _) => None,
            NodeKind::Seq(_, _) => None,
            NodeKind::Choice(_, _) => None,
            NodeKind::Still => None,
            NodeKind::Leaf => None,
            NodeKind::Peek => None,
            NodeKind::Pop => None,
            NodeKind::Drop => None,
            NodeKind::PeekAll => None,
            NodeKind::PopAll => None,
            NodeKind::PushLiteral(_) => None,
        }
    }

    /// Returns the operands, as they are visited.
    pub(crate) fn parts(self) -> Parts
        ensures { result ≡ parts_of self }
    {
        match self {
            NodeKind::PosPred(body) => Parts::Inside(body, 1, 0, false),
            NodeKind::NegPred(body) => Parts::Inside(body, 1, 0, false),
            NodeKind::Opt(body) => Parts::Inside(body, 1, 0, false),
            NodeKind::Push(body) => Parts::Inside(body, 1, 0, false),
            NodeKind::Tag(body) => Parts::Inside(body, 1, 0, false),
            NodeKind::Repeat(body, required, optional, endless) => {
                Parts::Inside(body, required, optional, endless)
            }
            NodeKind::Seq(first, second) => Parts::Both(first, second, false),
            NodeKind::Choice(first, second) => Parts::Both(first, second, true),
            NodeKind::Still => Parts::Nothing,
            NodeKind::Leaf => Parts::Nothing,
            NodeKind::Peek => Parts::Nothing,
            NodeKind::Pop => Parts::Nothing,
            NodeKind::Drop => Parts::Nothing,
            NodeKind::PeekAll => Parts::Nothing,
            NodeKind::PopAll => Parts::Nothing,
            NodeKind::PushLiteral(_) => Parts::Nothing,
            NodeKind::Call(_) => Parts::Nothing,
        }
    }
}

/// A node of a rule's body.
#[derive(Clone, Copy)]
pub struct PassNode<'n, 'i> {
    pub kind: NodeKind,
    /// The index of its rule.
    pub rule: usize,
    pub span: &'n Span<'i>,
}

/// The nodes of all rules, in postorder, and results of the analysis.
#[derive(Drop)]
pub struct Table<'n, 'i> {
    pub nodes: Vec<PassNode<'n, 'i>>,
    /// The index of the root of each rule's body.
    pub roots: Vec<usize>,
    /// Which rules reach themselves; calls of them are not followed.
    pub recursive: Vec<bool>,
    /// For each node a number: not below those of its operands, and above that of a body that it calls, if
    /// the call is followed.
    pub ranks: Vec<usize>,
    /// Which nodes may succeed without taking anything.
    pub nullable: Vec<bool>,
    /// Whether something is skipped between the parts of a sequence.
    pub skips: bool,
    /// The greatest number of turns of a repetition that are followed.
    pub limit: usize,
    /// The number of turns that the loop search follows.
    pub turns: usize,
}

impl<'n, 'i> Table<'n, 'i> {
    ghost use Rattle.front_stack_loops.specs.Table.{IsMeaning, IsOrdered, HasOrderedOperands, HasParts, AreOrderedParts, node_reading, nodes_of, followed_at, rank_at};

    /// Returns the rank of a node.
    pub(crate) fn rank_of(&self, node: usize) -> usize
        ensures { result ≡ rank_at self.now node }
    {
        match self.ranks.get(node) {
            Some(rank) => *rank,
            None => 0,
        }
    }

    /// Returns the kind of the node with an index.
    pub fn kind_at(&self, node: usize) -> NodeKind
        requires inside { node < self.now.nodes.len }
        ensures means { (meaning : ℕ → is.AbstractStack → says.Reading) → IsMeaning self.now meaning
            → (a : is.AbstractStack) → meaning node a ≡ node_reading self.now meaning result a }
        ensures ordered { IsOrdered self.now → HasOrderedOperands self.now node result }
    {
        self.nodes[node].kind
    }

    /// Returns the node with an index.
    pub fn node_at(&self, node: usize) -> PassNode<'n, 'i>
        requires inside { node < self.now.nodes.len }
        ensures { slice_get (nodes_of self.now) node ≡ Some result }
    {
        self.nodes[node]
    }

    /// Returns the operands of the node with an index.
    pub fn parts_at(&self, node: usize) -> Parts
        requires inside { node < self.now.nodes.len }
        ensures parts { HasParts self.now node result }
        ensures ordered { IsOrdered self.now → AreOrderedParts self.now node result }
    {
        self.node_at(node).kind.parts()
    }

    /// Returns the rank of a rule's body.
    pub(crate) fn rank_of_rule(&self, rule: usize) -> usize {
        match self.roots.get(rule) {
            Some(body) => self.rank_of(*body),
            None => 0,
        }
    }

    /// Returns the index of a rule's body, or `None` if calls of the rule are not followed.
    pub fn followed_body(&self, rule: usize) -> Option<usize>
        ensures { result ≡ followed_at self.now rule }
    {
        if is_set(self.recursive.as_slice(), rule) {
            return None;
        }
        self.roots.get(rule).copied()
    }
}
