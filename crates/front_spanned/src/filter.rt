//! Walks over nodes.
ghost use Rattle.std.specs.Prelude.{◌≡◌, ◌∷◌, ◌++◌, alloc_error, IfErr, IfOk, OnErr, OnOk};
ghost use Rattle.front_spanned.specs.Nodes.{view};
ghost use Rattle.front_spanned.specs.Walk.{preorder, waiting, Answered, AnsweredFirst, Appended};

use crate::node::{ParserExpr, ParserNode};
use base_ast::deep::Deep;
use base_language::runtime::Fault;
use std::alloc::{AllocError, Global};

impl<'i> ParserNode<'i> {
    /// Collects the answers of `f` at this node and at all nodes below it, if it has one.
    ///
    /// `f` is called once at each node in preorder, left before right, with a copy of the node. The only
    /// error is allocation failure.
    pub fn filter_map_top_down<T, F>(self, alloc: Global, f: F) -> Result<Vec<T>, Fault>
    where
        T: Drop,
        F: FnMut(ParserNode<'i>) -> Option<T> + Drop,
        requires { F.IsAlwaysCallable f }
        ensures answers { IfOk result (λ answers. (last : F)
            × Answered F.step f (preorder (view self.entry)) last answers.items) }
        ensures fault { IfErr result (λ fault. fault ≡ Fault.Memory alloc_error) }
    {
        let mut f = f;
        let node = Deep { value: self };
        let mut answers = Vec::new(alloc);
        walk(alloc, &node.value, &mut f, &mut answers)?;
        Ok(answers)
    }
}

/// Appends the answers of `f` at `node` and at all nodes below it, if it has one, to `answers`.
///
/// `f` is called once at each node in preorder, left before right, with a copy of the node, and may be
/// called again afterwards. The only error is allocation failure; then `answers` is unchanged, and `f` is
/// as the calls at the first nodes left it.
pub fn filter_internal<'i, T, F>(
    alloc: Global,
    node: ParserNode<'i>,
    f: &mut F,
    answers: &mut Vec<T>,
) -> Result<(), Fault>
where
    T: Drop,
    F: FnMut(ParserNode<'i>) -> Option<T>,
    requires { F.IsAlwaysCallable f.old }
    ensures appended { OnOk result
        (Appended F.step f.old (view node.entry) f.new answers.old.items answers.new.items) }
    ensures unchanged { OnErr result (answers.new.items ≡ answers.old.items) }
    ensures interrupted { OnErr result (AnsweredFirst F.step f.old (view node.entry) f.new) }
    ensures fault { IfErr result (λ fault. fault ≡ Fault.Memory alloc_error) }
    ensures callable { F.IsAlwaysCallable f.new }
{
    let node = Deep { value: node };
    let mut found = Vec::new(alloc);
    walk(alloc, &node.value, f, &mut found)?;
    Ok(answers.append(&mut found)?)
}

/// Appends the answers of `f` at a node and at all below it. The only error is allocation failure; then
/// some of them are appended, and `f` is as the calls at the first nodes left it.
fn walk<'i, T: Drop, F: FnMut(ParserNode<'i>) -> Option<T>>(
    alloc: Global,
    node: &ParserNode<'i>,
    f: &mut F,
    answers: &mut Vec<T>,
) -> Result<(), AllocError>
    requires { F.IsAlwaysCallable f.old }
    ensures appended { OnOk result
        (Appended F.step f.old (view node.now) f.new answers.old.items answers.new.items) }
    ensures interrupted { OnErr result (AnsweredFirst F.step f.old (view node.now) f.new) }
    ensures callable { F.IsAlwaysCallable f.new }
{
    let mut stack = Vec::new(alloc);
    stack.push(node)?;
    while let Some(next) = stack.pop() {
        if let Some(answer) = f(next.clone()?) {
            answers.push(answer)?;
        }
        push_operands(next, &mut stack)?;
    }
    Ok(())
}

/// Pushes the operands of a node on a stack, the left one on top: so a loop over the stack visits nodes in
/// preorder. The only error is allocation failure.
#[tactic(auto, using(crate::proofs::Walks::waiting_push))]
pub fn push_operands<'n, 'i>(
    node: &'n ParserNode<'i>,
    stack: &mut Vec<&'n ParserNode<'i>>,
) -> Result<(), AllocError>
    ensures { OnOk result (view node.entry.now ∷ waiting stack.new.items
        ≡ preorder (view node.entry.now) ++ waiting stack.old.items) }
{
    match &node.expr {
        ParserExpr::PosPred(inner)
        | ParserExpr::NegPred(inner)
        | ParserExpr::Opt(inner)
        | ParserExpr::Rep(inner)
        | ParserExpr::RepOnce(inner)
        | ParserExpr::RepExact(inner, _)
        | ParserExpr::RepMin(inner, _)
        | ParserExpr::RepMax(inner, _)
        | ParserExpr::RepMinMax(inner, _, _)
        | ParserExpr::Push(inner)
        | ParserExpr::NodeTag(inner, _) => stack.push(inner)?,
        ParserExpr::Seq(left, right) | ParserExpr::Choice(left, right) => {
            stack.push(right)?;
            stack.push(left)?;
        }
        _ => {}
    }
    Ok(())
}
