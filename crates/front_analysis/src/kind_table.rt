//! The kinds of nodes, by number.
ghost use Rattle.std.specs.Prelude.{◌≡◌, ◌<◌, slice_get};
ghost use Rattle.base_graphs.specs.Least.{is_set_at};
ghost use Rattle.front_analysis.specs.KindTable.{fires, at_root};

use base_graphs::is_set;

/// The kind of a node, with its operands by their numbers.
#[derive(Clone, Copy)]
pub enum NodeKind {
    /// Takes something, or fails.
    Taking,
    /// Takes nothing, and cannot fail.
    Still,
    /// Takes nothing, and may fail.
    End,
    /// A call, by the number of the rule.
    Call(usize),
    /// Succeeds in place if its operand succeeds.
    EndCall(usize),
    /// Succeeds in place if its operand fails.
    Ahead(usize),
    /// May leave its operand out.
    NotAhead(usize),
    /// Does the same as its operand.
    Free(usize),
    /// Repeats its operand without end, and may leave it out.
    Inside(usize),
    /// Repeats its operand without end, once at least.
    Again(usize),
    /// Repeats its operand without end, once at least.
    OnceAgain(usize),
    Seq(usize, usize),
    Choice(usize, usize),
}

/// A question about nodes.
#[derive(Clone, Copy)]
pub enum Question {
    /// Whether a node may succeed without taking anything.
    TakesNothing,
    /// Whether a node cannot fail.
    CannotFail,
}

/// The kinds of the nodes of all rules, in the order of the node table.
#[derive(Drop)]
pub struct KindTable {
    pub kinds: Vec<NodeKind>,
    /// The numbers of the rules' bodies.
    pub roots: Vec<usize>,
}

impl KindTable {
    /// Returns the kind of the node of a number.
    pub fn kind_at(&self, node: usize) -> NodeKind
        requires { node < self.now.kinds.len }
        ensures { slice_get self.now.kinds.items node ≡ Some result }
    {
        self.kinds[node]
    }

    /// Returns the number of a rule's body.
    pub fn root_at(&self, rule: usize) -> usize
        requires { rule < self.now.roots.len }
        ensures { slice_get self.now.roots.items rule ≡ Some result }
    {
        self.roots[rule]
    }

    /// Reports whether the flag of a rule's body is set.
    pub fn is_root_set(&self, answers: &[bool], rule: usize) -> bool
        ensures { result ≡ at_root (is_set_at answers.now) (slice_get self.now.roots.items rule) }
    {
        match self.roots.get(rule) {
            Some(root) => is_set(answers, *root),
            None => false,
        }
    }

    /// Reports whether the answer for a node is yes by the answers for others.
    pub fn fires(&self, question: Question, answers: &[bool], kind: NodeKind) -> bool
        ensures { result ≡ fires question self.now.roots.items (is_set_at answers.now) kind }
    {
        match kind {
            NodeKind::Taking => false,
            NodeKind::Still | NodeKind::Free(_) | NodeKind::Again(_) => true,
            NodeKind::End | NodeKind::NotAhead(_) => question.is_of_taking(),
            NodeKind::Call(rule) => self.is_root_set(answers, rule),
            NodeKind::EndCall(rule) => question.is_of_taking() || self.is_root_set(answers, rule),
            NodeKind::Ahead(body) => question.is_of_taking() || is_set(answers, body),
            NodeKind::Inside(body) | NodeKind::OnceAgain(body) => is_set(answers, body),
            NodeKind::Seq(first, second) => is_set(answers, first) && is_set(answers, second),
            NodeKind::Choice(first, second) => is_set(answers, first) || is_set(answers, second),
        }
    }
}

impl Question {
    ghost use Rattle.front_analysis.specs.KindTable.{is_of_taking};

    fn is_of_taking(self) -> bool
        ensures { result ≡ is_of_taking self }
    {
        match self {
            Question::TakesNothing => true,
            Question::CannotFail => false,
        }
    }
}
