//! Walks over trees in preorder.
ghost use Rattle.std.specs.Prelude.{◌≡◌, ◌∷◌, IfOk, MatchOption, [], chars};
ghost use Rattle.base_language.specs.Language.Expression.{Grammar};
ghost use Rattle.base_language.specs.Language.State.{Classes, State};
ghost use Rattle.base_language.specs.Language.Text.{Text};
ghost use Rattle.matcher_compiler.specs.Names.{number_in};
ghost use Rattle.matcher_engine.specs.ParseTrees.{HasParseTree};
ghost use Rattle.matcher_program.specs.ExpectedNames.{name_texts};
ghost use Rattle.matcher_engine.specs.Walks.{AreNamesOf, name_in, visit_of, visits, visits_left};

use crate::matcher::ParseTree;
use front_names::Builtin;
use matcher_code::state::TreeNode;
use std::alloc::{AllocError, Global};

/// A tree that a walk comes to.
#[derive(Clone, Copy, Debug)]
pub struct VisitedTree<'m> {
    /// The name of the tree's rule.
    pub rule: &'m str,
    /// The index of the rule, and the start and the end of the tree, in bytes.
    pub node: TreeNode,
    /// The index of the tree in preorder, from 0.
    pub number: usize,
    /// The number of trees around this one: 0 for an outermost tree.
    pub depth: usize,
}

/// One event of a walk: entering a tree, or leaving it.
#[derive(Clone, Copy, Debug)]
pub enum Visit<'m> {
    Enter(VisitedTree<'m>),
    Leave(VisitedTree<'m>),
}

/// A walk over the trees of a match, with the names of their rules.
#[derive(Drop)]
pub struct TreeWalk<'m, 't> {
    names: &'m [&'m str],
    trees: &'t [TreeNode],
    /// The number of the next tree.
    number: usize,
    /// The open trees, the last one at the end.
    pending: Vec<VisitedTree<'m>>,
}

/// Returns the name with the index `rule` in `names`, or `EOI` if `names` has no such index.
#[inline(always)]
pub fn text_name<'a>(names: &'a [&'a str], rule: u32) -> &'a str
    ensures { chars result.now ≡ name_in (name_texts names.entry.now) rule }
{
    match names.get(rule as usize) {
        Some(name) => name,
        None => Builtin::Eoi.name(),
    }
}

/// Begins a walk over the trees of the match `found`. `names` has the names of all rules, in order.
pub fn walk_names<'m, 't>(
    alloc: Global,
    names: &'m [&'m str],
    found: &'t ParseTree,
) -> TreeWalk<'m, 't>
    ensures { (g : Grammar) → AreNamesOf g names.entry.now → (n : Text) (s : State) (classes : Classes)
        → (x : HasParseTree g n s classes found.entry.now)
        → visits_left result ≡ visits (number_in g) 0 0 x.trees }
{
    TreeWalk {
        names,
        trees: &found.trees,
        number: 0,
        pending: Vec::new(alloc),
    }
}

impl<'m> TreeWalk<'m, '_> {
    /// Returns the next event, or `None` after the last one. The walk enters a tree before the
    /// trees inside it, and leaves it after them.
    ///
    /// # Errors
    /// `AllocError` if an allocation fails.
    #[inline(always)]
    pub fn next_visit(&mut self) -> Result<Option<Visit<'m>>, AllocError>
        ensures { IfOk result (λ visit. MatchOption visit (visits_left self.old ≡ [])
            (λ visit. visits_left self.old ≡ visit_of visit ∷ visits_left self.new)) }
    {
        if let Some(last) = self.pending.last() {
            let after = last.node.after;
            if after as usize <= self.number {
                let tree = *last;
                self.pending.pop();
                return Ok(Some(Visit::Leave(tree)));
            }
        }
        let Some(node) = self.trees.get(self.number) else {
            return Ok(None);
        };
        let tree = VisitedTree {
            rule: text_name(self.names, node.rule),
            node: *node,
            number: self.number,
            depth: self.pending.len(),
        };
        self.pending.push(tree)?;
        self.number += 1;
        Ok(Some(Visit::Enter(tree)))
    }
}
