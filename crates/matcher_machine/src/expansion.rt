//! The trees of a log: its events are played from the first one on.
ghost use Rattle.std.specs.Prelude.{◌≡◌, ◌+◌, ◌*◌, ◌<◌, ◌≤◌, ◌++◌, ◌∷◌, [], ℕ, IfOk, List, MatchOption, OnOk, false, get_or, length, reverse, suc, true};
ghost use Rattle.matcher_machine.specs.Events.{Balances, Spans, no_entry, no_trees, play, play_one, trees_of};
ghost use Rattle.matcher_machine.specs.Expansions.{AreWaiting, Expands, playing};
ghost use Rattle.matcher_machine.specs.Logs.{HasSpan};

use crate::events::{Event, Log};
use crate::machine::Machine;
use matcher_code::state::TreeNode;
use std::alloc::{AllocError, Global};

/// The trees of a run, and how many entries of its log were visited for them.
#[derive(Drop)]
pub(crate) struct Expansion {
    pub trees: Vec<TreeNode>,
    pub visits: u64,
}

/// The trees so far, the numbers of those that have not ended, and the numbers of the entries that are to be
/// visited. In both lists the next one is the last.
#[derive(Drop)]
pub(crate) struct Expander {
    pub machine: Machine,
    pub unended: Vec<usize>,
    pub waiting: Vec<u32>,
}

impl Expander {
    /// Returns an expander without trees, which visits nothing.
    fn new(alloc: Global) -> Expander
        ensures trees { playing result ≡ no_trees }
        ensures waiting { result.waiting.items ≡ [] }
    {
        Expander {
            machine: Machine::new(alloc),
            unended: Vec::new(alloc),
            waiting: Vec::new(alloc),
        }
    }

    /// Does what an event says. Errors: allocation failed, or a number does not fit a `u32`.
    fn play(&mut self, event: Event) -> Result<(), AllocError>
        ensures trees { OnOk result (playing self.new ≡ play_one event (playing self.old)) }
        ensures waiting { self.new.waiting ≡ self.old.waiting }
    {
        match event {
            Event::Open(rule, at) => {
                self.unended.push(self.machine.trees.len())?;
                self.machine.open(rule, at as usize)
            }
            Event::Close(at) => match self.unended.pop() {
                Some(number) => self.machine.close(number, at as usize),
                None => Ok(()),
            },
            Event::Leaf(rule, at) => {
                let number = self.machine.trees.len();
                self.machine.open(rule, at as usize)?;
                self.machine.close(number, at as usize)
            }
            Event::Known(_, _) => Ok(()),
        }
    }

    /// Adds the entries behind one of a number, up to that of another, so that the first of them is visited
    /// next. Errors: allocation failed.
    fn push_frame(&mut self, log: &Log, from: u32, to: u32) -> Result<(), AllocError>
        ensures waiting { OnOk result ((xs rest : List Event) (visits left : ℕ)
            → Spans log.now.entries.items from to xs visits
            → AreWaiting log.now.entries.items (reverse self.old.waiting.items) rest left
            → AreWaiting log.now.entries.items (reverse self.new.waiting.items) (xs ++ rest)
            (visits + left)) }
        ensures trees { playing self.new ≡ playing self.old }
    {
        let mut last = to;
        while last > from {
            self.waiting.push(last)?;
            last = log.previous(last);
        }
        Ok(())
    }

    /// Removes the next entry that is to be visited.
    fn pop(&mut self) -> Option<u32>
        ensures waiting { MatchOption result
            ((reverse self.old.waiting.items ≡ []) × (reverse self.new.waiting.items ≡ []))
            (λ number. reverse self.old.waiting.items ≡ number ∷ reverse self.new.waiting.items) }
        ensures trees { playing self.new ≡ playing self.old }
    {
        self.waiting.pop()
    }

    /// Visits the next entry, and returns whether there is one. Errors: as `play`.
    fn visit(&mut self, log: &Log) -> Result<bool, AllocError>
        ensures visited { IfOk result (λ more. (xs : List Event) (visits : ℕ)
            → Expands log.now.entries.items self.old xs visits → more ≡ true
            → (left : ℕ) × (visits ≡ suc left) × Expands log.now.entries.items self.new xs left) }
        ensures ended { IfOk result (λ more. (xs : List Event) (visits : ℕ)
            → Expands log.now.entries.items self.old xs visits → more ≡ false
            → (visits ≡ 0) × (playing self.new ≡ play xs no_trees)) }
    {
        match self.pop() {
            Some(number) => match log.entry(number) {
                Some(entry) => {
                    match entry.event {
                        Event::Known(from, to) => self.push_frame(log, from, to)?,
                        event => self.play(event)?,
                    }
                    Ok(true)
                }
                None => Ok(true),
            },
            None => Ok(false),
        }
    }
}

impl Log {
    /// Returns the trees of all events. Errors: allocation failed, or a number does not fit a `u32`.
    pub(crate) fn expand(&self, alloc: Global) -> Result<Expansion, AllocError>
        ensures trees { IfOk result (λ made. (xs : List Event)
            → HasSpan self.now.entries.items 0 self.now.last xs → made.trees.items ≡ trees_of xs) }
        ensures visits { IfOk result (λ made. (xs : List Event) (left : ℕ)
            → HasSpan self.now.entries.items 0 self.now.last xs → Balances 0 left xs
            → made.visits ≤ 6 * length made.trees.items) }
    {
        let mut expander = Expander::new(alloc);
        expander.push_frame(self, 0, self.last)?;
        for visits in 0..u64::MAX {
            if !expander.visit(self)? {
                let Expander { machine, .. } = expander;
                let Machine { trees, .. } = machine;
                return Ok(Expansion { trees, visits });
            }
        }
        Err(AllocError)
    }
}
