//! The rules that change the stack, as a least fixpoint over the shares of their bodies.
ghost use Rattle.std.specs.Prelude.{IfOk};
ghost use Rattle.front_restorer.specs.Summaries.{AreClosed, AreSound, AreWithin};

use crate::summaries::{Summaries, Summary, is_shown};
use base_graphs::{DependencyGraph, DependencyVisitor, Inference, find_listeners, least_flags};
use std::alloc::{AllocError, Global};

impl DependencyGraph for Summaries {
    fn count(&self) -> usize {
        self.shares.len()
    }

    fn visit_dependencies<V: DependencyVisitor>(&self, caller: usize, visitor: &mut V) {
        let Some(share) = self.shares.get(caller) else {
            return;
        };
        for rule in self.numbers.get(share.start..share.end).unwrap_or(&[]) {
            if let Some(rule) = rule {
                visitor.visit(*rule);
            }
        }
    }
}

/// Shares of bodies, all of which are in the list.
#[derive(Drop)]
struct Bodies<'a> {
    noted: &'a Summaries,
    ghost within: { AreWithin noted.now },
}

impl<'a> Inference for Bodies<'a> {
    ghost use Rattle.front_restorer.specs.Summaries.{shows};

    type Item = Summary;

    ghost items = { λ bodies. bodies.noted.now.shares.items };

    ghost infers = { λ bodies. shows bodies.noted.now.numbers.items };

    fn count(&self) -> usize {
        self.noted.shares.len()
    }

    fn infers(&self, flags: &[bool], rule: usize) -> bool {
        is_shown(&self.noted.numbers, self.noted.shares[rule], flags)
    }
}

/// Finds the rules that change the stack.
pub(crate) fn find_changing_rules(alloc: Global, noted: &Summaries) -> Result<Vec<bool>, AllocError>
    requires { AreWithin noted.now }
    ensures sound { IfOk result (λ flags. AreSound noted.now flags.items) }
    ensures closed { IfOk result (λ flags. AreClosed noted.now flags.items) }
{
    let callers = find_listeners(alloc, noted)?;
    least_flags(alloc, &Bodies { noted }, &callers)
}
