//! The state of a machine.
ghost use Rattle.std.specs.Prelude.{◌≤◌, length, reverse};
ghost use Rattle.matcher_machine.specs.Links.{AreHeld, AreHeld-prop, AreNamed, AreNamed-prop};

use crate::frame::Frame;
use crate::stack::TextStack;
use matcher_code::state::TreeNode;
use std::alloc::Global;

/// The state of a run, without the position and the next operation.
#[derive(Drop)]
pub struct Machine {
    /// The continuation frames, the last one at the end.
    pub frames: Vec<Frame>,
    /// The trees so far in preorder.
    pub trees: Vec<TreeNode>,
    pub stack: TextStack,
    /// The furthest position, in bytes, at which a call that counts has failed.
    pub furthest: usize,
    /// The position, in bytes, at which names are asked for.
    pub asked: usize,
    /// The numbers of the rules that are expected there.
    pub names: Vec<u32>,
    ghost held: { AreHeld (length stack.pushed.items) (reverse frames.items) } by { AreHeld-prop _ _ },
    ghost named: { AreNamed (length names.items) (reverse frames.items) } by { AreNamed-prop _ _ },
    ghost few: { length names.items ≤ 65535 },
}

/// The result of an operation.
#[derive(Clone, Copy, Debug)]
pub enum Next {
    /// The number of the next operation, and its position in bytes.
    At(u32, usize),
    /// The run has matched.
    Found,
    /// The run has failed.
    Lost,
    /// The operation needs a frame or a text on the stack, and there is none.
    Stuck,
}

/// The end of a run.
#[derive(Clone, Copy, Debug)]
pub enum RunEnd {
    /// A match that ends at this position, in bytes.
    Found(usize),
    /// No match.
    Failed,
    /// An operation needed a frame or a text on the stack, and there was none.
    Stuck,
    /// The run takes more steps than were allowed.
    OutOfSteps,
}

/// A call: its operations, and those after success and failure.
#[derive(Clone, Copy, Debug)]
pub(crate) struct CallTarget {
    pub to: u32,
    pub rule: u32,
    pub next: u32,
    pub fail: u32,
    pub counts: bool,
}

/// The skipping of a set, and the operations after it.
#[derive(Clone, Copy, Debug)]
pub(crate) struct Blanks {
    pub set: u32,
    pub stops: u32,
    pub next: u32,
    pub slow: u32,
}

impl Machine {
    ghost use Rattle.std.specs.Prelude.{◌≡◌, ◌-◌, ◌^◌, []};

    /// Returns a machine before its first step. Names are asked for at no position of a text.
    pub fn new(alloc: Global) -> Machine
        ensures frames { result.frames.items ≡ [] }
        ensures trees { result.trees.items ≡ [] }
        ensures pushed { result.stack.pushed.items ≡ [] }
        ensures top { result.stack.top ≡ 0 }
        ensures furthest { result.furthest ≡ 0 }
        ensures asked { result.asked ≡ 2 ^ 64 - 1 }
        ensures names { result.names.items ≡ [] }
    {
        Machine {
            frames: Vec::new(alloc),
            trees: Vec::new(alloc),
            stack: TextStack::new(alloc),
            furthest: 0,
            asked: usize::MAX,
            names: Vec::new(alloc),
        }
    }
}
