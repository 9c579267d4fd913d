//! Nodes for which the answer to a question is yes: a least fixpoint, by a worklist.
ghost use Rattle.std.specs.Prelude.{◌≡◌, ℕ, Bool, IfOk};
ghost use Rattle.front_analysis.specs.RightAnswers.{AreSound, AreClosed};
ghost use Rattle.front_analysis.specs.KindTable.{AgreeAt, fires};
ghost use Rattle.front_analysis.specs.declared.kind_table.Question.{Question};

use crate::kind_table::{KindTable, NodeKind, Question};
use base_graphs::{DependencyGraph, DependencyVisitor, Inference, Listeners, least_flags};
use std::alloc::{AllocError, Global};

/// Returns the nodes on which the answers for a node depend, two at most.
pub fn dependencies_of(table: &KindTable, kind: NodeKind) -> (Option<usize>, Option<usize>)
    ensures { (q : Question) (p r : ℕ → Bool) → AgreeAt p r result.0 → AgreeAt p r result.1
        → fires q table.now.roots.items p kind ≡ fires q table.now.roots.items r kind }
{
    match kind {
        NodeKind::Taking | NodeKind::Still | NodeKind::End => (None, None),
        NodeKind::Call(rule) | NodeKind::EndCall(rule) => (table.roots.get(rule).copied(), None),
        NodeKind::Ahead(body)
        | NodeKind::NotAhead(body)
        | NodeKind::Free(body)
        | NodeKind::Inside(body)
        | NodeKind::Again(body)
        | NodeKind::OnceAgain(body) => (Some(body), None),
        NodeKind::Seq(first, second) | NodeKind::Choice(first, second) => (
            Some(first),
            Some(second),
        ),
    }
}

impl DependencyGraph for KindTable {
    fn count(&self) -> usize {
        self.kinds.len()
    }

    fn visit_dependencies<V: DependencyVisitor>(&self, node: usize, visitor: &mut V) {
        if let Some(kind) = self.kinds.get(node) {
            let (first, second) = dependencies_of(self, *kind);
            if let Some(first) = first {
                visitor.visit(first);
            }
            if let Some(second) = second {
                visitor.visit(second);
            }
        }
    }
}

/// A question about the nodes of a table.
#[derive(Clone, Copy)]
struct Query<'a> {
    question: Question,
    table: &'a KindTable,
}

impl<'a> Inference for Query<'a> {
    ghost use Rattle.front_analysis.specs.KindTable.{fires};

    type Item = NodeKind;

    ghost items = { λ asked. asked.table.now.kinds.items };

    ghost infers = { λ asked. fires asked.question asked.table.now.roots.items };

    fn count(&self) -> usize {
        self.table.kinds.len()
    }

    fn infers(&self, answers: &[bool], node: usize) -> bool {
        self.table
            .fires(self.question, answers, self.table.kind_at(node))
    }
}

/// Computes for which nodes the answer to a question is yes, as a least fixpoint. The only fault is an
/// allocation failure.
pub fn answers_to(
    alloc: Global,
    table: &KindTable,
    listeners: &Listeners,
    question: Question,
) -> Result<Vec<bool>, AllocError>
    ensures sound { IfOk result (λ answers. AreSound question table.now answers.items) }
    ensures closed { IfOk result (λ answers. AreClosed question table.now answers.items) }
{
    least_flags(alloc, &Query { question, table }, listeners)
}
