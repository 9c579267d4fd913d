//! Attributes of nodes by least fixpoints: which nodes change the stack, which may be read as taking
//! nothing, and which lead to calls of a rule.
ghost use Rattle.std.specs.Prelude.{◌≡◌, IfOk, slice_get};
ghost use Rattle.base_graphs.specs.Least.{is_set_at};
ghost use Rattle.front_stack_loops.specs.Answers as spec;
ghost use Rattle.front_stack_loops.specs.Answers.{AreSound, AreClosed};
ghost use Rattle.front_stack_loops.specs.Table.{called_by, parts_of};

use crate::table::{NodeKind, Parts, PassNode};
use base_graphs::{
    DependencyGraph, DependencyVisitor, Inference, find_listeners, is_set, least_flags,
};
use std::alloc::{AllocError, Global};

/// An attribute of nodes.
#[derive(Clone, Copy)]
pub enum Question {
    /// Whether it changes the stack, outside predicates.
    AltersStack,
    /// Whether it may be read as taking nothing, from some stack.
    MayBeStill,
    /// Whether it leads to a call of the rule of that number.
    LeadsTo(usize),
}

/// Whether the flag of a rule's body is set.
pub(crate) fn is_root_set(roots: &[usize], flags: &[bool], rule: usize) -> bool
    ensures { result ≡ spec.at_place (is_set_at flags.now) (slice_get roots.now rule) }
{
    match roots.get(rule) {
        Some(root) => is_set(flags, *root),
        None => false,
    }
}

/// Whether a node changes the stack by the flags of its operands.
fn changes_stack(roots: &[usize], flags: &[bool], kind: NodeKind) -> bool
    ensures { result ≡ spec.changing_kind roots.now (is_set_at flags.now) kind }
{
    match kind {
        NodeKind::Push(_)
        | NodeKind::PushLiteral(_)
        | NodeKind::Pop
        | NodeKind::Drop
        | NodeKind::PopAll => true,
        NodeKind::Call(rule) => is_root_set(roots, flags, rule),
        NodeKind::Tag(body) | NodeKind::Opt(body) | NodeKind::Repeat(body, _, _, _) => is_set(
            flags, body,
        ),
        NodeKind::Seq(first, second) | NodeKind::Choice(first, second) => {
            is_set(flags, first) || is_set(flags, second)
        }
        NodeKind::Still | NodeKind::Leaf | NodeKind::Peek | NodeKind::PeekAll => false,
        NodeKind::PosPred(_) | NodeKind::NegPred(_) => false,
    }
}

/// Whether a node may be read as taking nothing, from some stack, by the flags of its operands.
fn may_be_still(roots: &[usize], flags: &[bool], kind: NodeKind) -> bool
    ensures { result ≡ spec.still_kind roots.now (is_set_at flags.now) kind }
{
    match kind {
        NodeKind::Leaf => false,
        NodeKind::Call(rule) => is_root_set(roots, flags, rule),
        NodeKind::Push(body) | NodeKind::Tag(body) => is_set(flags, body),
        NodeKind::Repeat(body, required, _, _) => required == 0 || is_set(flags, body),
        NodeKind::Seq(first, second) => is_set(flags, first) && is_set(flags, second),
        NodeKind::Choice(first, second) => is_set(flags, first) || is_set(flags, second),
        NodeKind::Still | NodeKind::PosPred(_) | NodeKind::NegPred(_) | NodeKind::Opt(_) => true,
        NodeKind::Peek | NodeKind::Pop | NodeKind::Drop | NodeKind::PeekAll | NodeKind::PopAll =>
            true,
        NodeKind::PushLiteral(_) => true,
    }
}

/// Whether some operand has its flag set.
pub(crate) fn is_part_set(flags: &[bool], parts: Parts) -> bool
    ensures { result ≡ spec.some_part (is_set_at flags.now) parts }
{
    match parts {
        Parts::Nothing => false,
        Parts::Inside(body, _, _, _) => is_set(flags, body),
        Parts::Both(first, second, _) => is_set(flags, first) || is_set(flags, second),
    }
}

/// Whether a node calls a rule, or leads to a call of it by the flags of its operands and of the body that it
/// calls.
fn leads_to(roots: &[usize], flags: &[bool], rule: usize, kind: NodeKind) -> bool
    ensures { result ≡ spec.leading roots.now (is_set_at flags.now) rule (called_by kind) (parts_of kind) }
{
    match kind.called_rule() {
        Some(callee) => callee == rule || is_root_set(roots, flags, callee),
        None => is_part_set(flags, kind.parts()),
    }
}

/// Returns the answer for a node, by those for its operands.
fn answer<'n, 'i>(
    question: Question,
    roots: &[usize],
    flags: &[bool],
    node: PassNode<'n, 'i>,
) -> bool
    ensures { result ≡ spec.answer question roots.now (is_set_at flags.now) node.entry }
{
    match question {
        Question::AltersStack => changes_stack(roots, flags, node.kind),
        Question::MayBeStill => may_be_still(roots, flags, node.kind),
        Question::LeadsTo(rule) => leads_to(roots, flags, rule, node.kind),
    }
}

/// Returns the indices of a rule's first node and of its body.
pub(crate) fn nodes_of_rule(roots: &[usize], rule: usize) -> (usize, usize) {
    let first = match rule.checked_sub(1) {
        None => 0,
        Some(before) => match roots.get(before) {
            None => 0,
            Some(last) => *last,
        },
    };
    match roots.get(rule) {
        None => (first, first),
        Some(root) => (first, *root),
    }
}

/// The nodes of all rules, and the bodies of rules among them.
#[derive(Drop)]
pub(crate) struct Nodes<'a, 'n, 'i> {
    pub roots: &'a [usize],
    pub nodes: &'a [PassNode<'n, 'i>],
}

impl<'a, 'n, 'i> DependencyGraph for Nodes<'a, 'n, 'i> {
    fn count(&self) -> usize {
        self.nodes.len()
    }

    fn visit_dependencies<V: DependencyVisitor>(&self, place: usize, visitor: &mut V) {
        let Some(node) = self.nodes.get(place) else {
            return;
        };
        if let Some(rule) = node.kind.called_rule() {
            if let Some(root) = self.roots.get(rule) {
                visitor.visit(*root);
            }
            return;
        }
        match node.kind.parts() {
            Parts::Nothing => {}
            Parts::Inside(body, _, _, _) => visitor.visit(body),
            Parts::Both(first, second, _) => {
                visitor.visit(first);
                visitor.visit(second);
            }
        }
    }
}

/// A question about nodes.
#[derive(Drop)]
struct Asked<'a, 'n, 'i> {
    question: Question,
    roots: &'a [usize],
    nodes: &'a [PassNode<'n, 'i>],
}

impl<'a, 'n, 'i> Inference for Asked<'a, 'n, 'i> {
    type Item = PassNode<'n, 'i>;

    ghost items = { λ asked. asked.nodes.now };

    ghost infers = { λ asked. spec.answer asked.question asked.roots.now };

    fn count(&self) -> usize {
        self.nodes.len()
    }

    fn infers(&self, flags: &[bool], place: usize) -> bool {
        answer(self.question, self.roots, flags, self.nodes[place])
    }
}

/// Returns the answers for all nodes, a least fixpoint.
pub(crate) fn answers<'n, 'i>(
    alloc: Global,
    question: Question,
    roots: &[usize],
    nodes: &[PassNode<'n, 'i>],
) -> Result<Vec<bool>, AllocError>
    ensures sound { IfOk result (λ flags. AreSound question nodes.now roots.now flags.items) }
    ensures closed { IfOk result (λ flags. AreClosed question nodes.now roots.now flags.items) }
{
    let listeners = find_listeners(alloc, &Nodes { roots, nodes })?;
    let asked = Asked {
        question,
        roots,
        nodes,
    };
    least_flags(alloc, &asked, &listeners)
}
