//! Code whose operations pop the frames that they are meant for.
//!
//! `Return` is meant for the frame of a call that gives a tree, `Back` for that of a call without one, and
//! `Commit` for that of a choice. Kinds of labels show that code is so: a search finds them, and then each
//! operation is checked against them. Of the search nothing is proved.
ghost use Rattle.std.specs.Prelude.{◌≡◌, ◌+◌, ◌<◌, IfOk, get_or, true};
ghost use Rattle.matcher_code.specs.Bytecodes.{lists_in};
ghost use Rattle.matcher_code.specs.Lists.{CodeLists};
ghost use Rattle.matcher_code.specs.declared.code.Op.TheVariants as op;
ghost use Rattle.matcher_machine.specs.Kinds.{Deeper, HasKinds, Higher, IsFramed, IsFramedOp, MayRun, kind_at};

use crate::running::op_at;
use matcher_code::bytecode::Bytecode;
use matcher_code::code::Op;
use matcher_code::words::word;
use std::alloc::{AllocError, Global};

/// The part of a run that a label is in.
#[derive(Clone, Copy, Debug, PartialEq, Eq)]
pub(crate) enum Scope {
    /// The whole run, below no call.
    Run,
    /// A call that gives a tree.
    Call,
    /// Another call.
    Sub,
}

/// Where a label is run.
#[derive(Clone, Copy, Debug, PartialEq, Eq)]
pub(crate) enum Kind {
    /// Anywhere: what is run from there only fails or ends.
    Anywhere,
    /// In a part, below this number of frames of choices and lookaheads.
    Within(Scope, u32),
}

/// Returns whether each operation of code is known to pop a frame that it is meant for. The time is linear in
/// the operations and tables. Errors: allocation failed.
pub fn is_framed(alloc: Global, code: &Bytecode<'_>) -> Result<bool, AllocError>
    ensures { IfOk result (λ framed. framed ≡ true → IsFramed (lists_in code.now)) }
{
    let kinds = find_kinds(alloc, code)?;
    Ok(have_kinds(code, kinds.as_slice()))
}

/// Returns whether all operations fit kinds of labels.
fn have_kinds(code: &Bytecode<'_>, kinds: &[Kind]) -> bool
    ensures { result ≡ true → HasKinds (lists_in code.now) kinds.now }
{
    for label in 0..u32::MAX {
        if label as usize >= code.ops.len() {
            return true;
        }
        if !has_kind(code, kinds, op_at(code, label), kind_at(kinds, label)) {
            return false;
        }
    }
    false
}

/// Returns the kind of a label.
fn kind_at(kinds: &[Kind], label: u32) -> Kind
    ensures { (code : CodeLists) → result ≡ kind_at code kinds.now label }
{
    match kinds.get(label as usize) {
        Some(kind) => *kind,
        None => Kind::Anywhere,
    }
}

/// Returns whether two kinds are one.
fn is_same(a: Kind, b: Kind) -> bool
    ensures { result ≡ true → a ≡ b }
{
    match a {
        Kind::Anywhere => match b {
            Kind::Anywhere => true,
            _ => false,
        },
        Kind::Within(part, depth) => match b {
            Kind::Anywhere => false,
            Kind::Within(other, other_depth) => is_same_part(part, other) && depth == other_depth,
        },
    }
}

fn is_same_part(a: Scope, b: Scope) -> bool
    ensures { result ≡ true → a ≡ b }
{
    match a {
        Scope::Run => match b {
            Scope::Run => true,
            _ => false,
        },
        Scope::Call => match b {
            Scope::Call => true,
            _ => false,
        },
        Scope::Sub => match b {
            Scope::Sub => true,
            _ => false,
        },
    }
}

/// Returns whether a label may be run where one of a kind is.
fn may_run(kinds: &[Kind], kind: Kind, label: u32) -> bool
    ensures { (code : CodeLists) → result ≡ true → MayRun code kinds.now kind label }
{
    let own = kind_at(kinds, label);
    if is_same(own, Kind::Anywhere) {
        return true;
    }
    is_same(own, kind)
}

/// Returns whether two labels may be run where one of a kind is.
fn may_run_both(kinds: &[Kind], kind: Kind, next: u32, fail: u32) -> bool
    ensures { (code : CodeLists) → result ≡ true
        → MayRun code kinds.now kind next × MayRun code kinds.now kind fail }
{
    if may_run(kinds, kind, next) {
        may_run(kinds, kind, fail)
    } else {
        false
    }
}

/// Returns whether a label may be run below one frame of a choice more than one of a kind.
fn may_run_deeper(kinds: &[Kind], kind: Kind, label: u32) -> bool
    ensures { (code : CodeLists) → result ≡ true → Deeper code kinds.now kind label }
{
    match kind {
        Kind::Anywhere => false,
        Kind::Within(part, depth) => match depth.checked_add(1) {
            Some(more) => may_run(kinds, Kind::Within(part, more), label),
            None => false,
        },
    }
}

/// Returns whether a label may be run below one frame of a choice less than one of a kind.
fn may_run_higher(kinds: &[Kind], kind: Kind, label: u32) -> bool
    ensures { (code : CodeLists) → result ≡ true → Higher code kinds.now kind label }
{
    match kind {
        Kind::Anywhere => false,
        Kind::Within(part, depth) => match depth.checked_sub(1) {
            Some(less) => may_run(kinds, Kind::Within(part, less), label),
            None => false,
        },
    }
}

/// Returns the label of a number in a table.
fn label_in(code: &Bytecode<'_>, table: u32, number: u16) -> u32
    ensures { result ≡ get_or (lists_in code.now).tables (table + number) 0 }
{
    match code.tables.get(table as usize + number as usize) {
        Some(label) => word(label),
        None => 0,
    }
}

/// Returns whether all labels of a table may be run where one of a kind is.
fn may_run_table(code: &Bytecode<'_>, kinds: &[Kind], kind: Kind, table: u32) -> bool
    ensures { result ≡ true → IsFramedOp (lists_in code.now) kinds.now (op.Switch table) kind }
{
    for number in 0..257u16 {
        if !may_run(kinds, kind, label_in(code, table, number)) {
            return false;
        }
    }
    true
}

/// Returns whether an operation leads to labels that may be run behind one of a kind, and pops the frame of
/// that kind.
fn has_kind(code: &Bytecode<'_>, kinds: &[Kind], op: Op, kind: Kind) -> bool
    ensures { result ≡ true → IsFramedOp (lists_in code.now) kinds.now op kind }
{
    match op {
        Op::Fail | Op::Halt | Op::Lose => true,
        Op::Call { to, next, fail, .. } => {
            if may_run(kinds, Kind::Within(Scope::Call, 0), to) {
                may_run_both(kinds, kind, next, fail)
            } else {
                false
            }
        }
        Op::Sub { to, next, fail } => {
            if may_run(kinds, Kind::Within(Scope::Sub, 0), to) {
                may_run_both(kinds, kind, next, fail)
            } else {
                false
            }
        }
        Op::Return => is_same(kind, Kind::Within(Scope::Call, 0)),
        Op::Back => is_same(kind, Kind::Within(Scope::Sub, 0)),
        Op::Switch { table } => may_run_table(code, kinds, kind, table),
        Op::Try { next, fail } | Op::Not { next, fail } => {
            if may_run_deeper(kinds, kind, next) {
                may_run(kinds, kind, fail)
            } else {
                false
            }
        }
        Op::Commit { next } | Op::Ahead { next } | Op::Push { next } => {
            may_run_higher(kinds, kind, next)
        }
        Op::All { next, .. }
        | Op::Until { next, .. }
        | Op::Note { next }
        | Op::Miss { next, .. }
        | Op::Leaf { next, .. }
        | Op::PushText { next, .. } => may_run(kinds, kind, next),
        Op::Trivia { next, slow, .. } => may_run_both(kinds, kind, next, slow),
        Op::One { next, fail, .. }
        | Op::IsOne { next, fail, .. }
        | Op::Text { next, fail, .. }
        | Op::AnyCase { next, fail, .. }
        | Op::Nested { next, fail, .. }
        | Op::Start { next, fail }
        | Op::End { next, fail }
        | Op::Peek { next, fail }
        | Op::Pop { next, fail }
        | Op::Discard { next, fail }
        | Op::PeekAll { next, fail }
        | Op::PopAll { next, fail }
        | Op::Slice { next, fail, .. } => may_run_both(kinds, kind, next, fail),
    }
}

/// How many operations that only record a failure may stand before one that fails or ends the run, if all of
/// them are run anywhere.
const MOST_RECORDS: u32 = 8;

/// Returns whether the run from a label only fails or ends, as far as `MOST_RECORDS` operations show.
fn only_fails(code: &Bytecode<'_>, label: u32) -> bool {
    let mut here = label;
    for _ in 0..MOST_RECORDS {
        match op_at(code, here) {
            Op::Fail | Op::Halt | Op::Lose => return true,
            Op::Note { next } | Op::Miss { next, .. } => here = next,
            _ => return false,
        }
    }
    false
}

/// Labels whose kinds follow from each other: a forest of disjoint sets. In a set each label is deeper than
/// its parent by a number of frames, modulo 2^32.
#[derive(Drop)]
struct LabelSets {
    parents: Vec<u32>,
    depths: Vec<u32>,
    sizes: Vec<u32>,
    /// The kinds of roots that are known.
    kinds: Vec<Option<Kind>>,
}

/// The depth of a root whose kind is not known. Code that no run reaches may begin below any number of
/// frames.
const SOME_DEPTH: u32 = 0x8000_0000;

/// Returns a kind for each label. Labels of one set have kinds that differ by their depths alone. Calls and
/// returns give the kind of a set; one without them is in the whole run. Errors: allocation failed.
fn find_kinds(alloc: Global, code: &Bytecode<'_>) -> Result<Vec<Kind>, AllocError> {
    let mut sets = LabelSets::new(alloc, code.ops.len())?;
    sets.join_all(code);
    sets.place_all(code);
    sets.kinds(alloc, code)
}

impl LabelSets {
    /// Makes a set of each label. Errors: allocation failed.
    fn new(alloc: Global, count: usize) -> Result<LabelSets, AllocError> {
        let mut sets = LabelSets {
            parents: Vec::new(alloc),
            depths: Vec::new(alloc),
            sizes: Vec::new(alloc),
            kinds: Vec::new(alloc),
        };
        for label in 0..u32::MAX {
            if label as usize >= count {
                break;
            }
            sets.parents.push(label)?;
            sets.depths.push(0)?;
            sets.sizes.push(1)?;
            sets.kinds.push(None)?;
        }
        Ok(sets)
    }

    /// Returns the root of the set of a label, and how much deeper the label is.
    fn find(&self, label: u32) -> (u32, u32) {
        let mut here = label;
        let mut depth = 0u32;
        for _ in 0..u32::MAX {
            let parent = match self.parents.get(here as usize) {
                Some(parent) => *parent,
                None => here,
            };
            if parent == here {
                break;
            }
            depth = depth.wrapping_add(self.depths.get(here as usize).copied().unwrap_or(0));
            here = parent;
        }
        (here, depth)
    }

    /// Puts a root below another one, deeper by `depth`.
    fn attach(&mut self, root: u32, parent: u32, depth: u32) {
        let size = self.sizes.get(root as usize).copied().unwrap_or(0);
        if let Some(own) = self.sizes.get_mut(parent as usize) {
            *own = own.saturating_add(size);
        }
        if let Some(own) = self.parents.get_mut(root as usize) {
            *own = parent;
        }
        if let Some(own) = self.depths.get_mut(root as usize) {
            *own = depth;
        }
    }

    /// Joins the sets of two labels, of which `next` is deeper by `more`. Labels that may be run anywhere are
    /// in no set with others.
    fn join(&mut self, code: &Bytecode<'_>, label: u32, next: u32, more: u32) {
        if only_fails(code, label) || only_fails(code, next) {
            return;
        }
        let (left, left_depth) = self.find(label);
        let (right, right_depth) = self.find(next);
        if left == right {
            return;
        }
        let depth = left_depth.wrapping_add(more).wrapping_sub(right_depth);
        let left_size = self.sizes.get(left as usize).copied().unwrap_or(0);
        let right_size = self.sizes.get(right as usize).copied().unwrap_or(0);
        if left_size < right_size {
            self.attach(left, right, 0u32.wrapping_sub(depth));
        } else {
            self.attach(right, left, depth);
        }
    }

    /// Joins the labels of all operations with those to which these lead.
    fn join_all(&mut self, code: &Bytecode<'_>) {
        for label in 0..u32::MAX {
            if label as usize >= code.ops.len() {
                break;
            }
            self.join_next(code, label);
        }
    }

    /// Joins a label with those of a table.
    fn join_table(&mut self, code: &Bytecode<'_>, label: u32, table: u32) {
        for number in 0..257u16 {
            self.join(code, label, label_in(code, table, number), 0);
        }
    }

    /// Joins a label with those to which its operation leads.
    fn join_next(&mut self, code: &Bytecode<'_>, label: u32) {
        match op_at(code, label) {
            Op::Fail | Op::Return | Op::Back | Op::Halt | Op::Lose => (),
            Op::Switch { table } => self.join_table(code, label, table),
            Op::Try { next, fail } | Op::Not { next, fail } => {
                self.join(code, label, next, 1);
                self.join(code, label, fail, 0);
            }
            Op::Commit { next } | Op::Ahead { next } | Op::Push { next } => {
                self.join(code, label, next, u32::MAX);
            }
            Op::All { next, .. }
            | Op::Until { next, .. }
            | Op::Note { next }
            | Op::Miss { next, .. }
            | Op::Leaf { next, .. }
            | Op::PushText { next, .. } => self.join(code, label, next, 0),
            Op::Trivia { next, slow, .. } => {
                self.join(code, label, next, 0);
                self.join(code, label, slow, 0);
            }
            Op::Call { next, fail, .. }
            | Op::Sub { next, fail, .. }
            | Op::One { next, fail, .. }
            | Op::IsOne { next, fail, .. }
            | Op::Text { next, fail, .. }
            | Op::AnyCase { next, fail, .. }
            | Op::Nested { next, fail, .. }
            | Op::Start { next, fail }
            | Op::End { next, fail }
            | Op::Peek { next, fail }
            | Op::Pop { next, fail }
            | Op::Discard { next, fail }
            | Op::PeekAll { next, fail }
            | Op::PopAll { next, fail }
            | Op::Slice { next, fail, .. } => {
                self.join(code, label, next, 0);
                self.join(code, label, fail, 0);
            }
        }
    }

    /// Gives the set of a label its kinds, if it has none: those with which the label is in a scope, below no
    /// frame of a choice.
    fn place(&mut self, code: &Bytecode<'_>, label: u32, scope: Scope) {
        if only_fails(code, label) {
            return;
        }
        let (root, depth) = self.find(label);
        if let Some(own) = self.kinds.get_mut(root as usize) {
            if own.is_none() {
                *own = Some(Kind::Within(scope, 0u32.wrapping_sub(depth)));
            }
        }
    }

    /// Gives kinds to the sets of labels to which calls lead, and of those that return.
    fn place_all(&mut self, code: &Bytecode<'_>) {
        for label in 0..u32::MAX {
            if label as usize >= code.ops.len() {
                break;
            }
            match op_at(code, label) {
                Op::Call { to, .. } => self.place(code, to, Scope::Call),
                Op::Sub { to, .. } => self.place(code, to, Scope::Sub),
                Op::Return => self.place(code, label, Scope::Call),
                Op::Back => self.place(code, label, Scope::Sub),
                _ => (),
            }
        }
    }

    /// Returns the kind of a label.
    fn kind_of(&self, code: &Bytecode<'_>, label: u32) -> Kind {
        if only_fails(code, label) {
            return Kind::Anywhere;
        }
        let (root, depth) = self.find(label);
        match self.kinds.get(root as usize) {
            Some(Some(Kind::Within(scope, own))) => Kind::Within(*scope, own.wrapping_add(depth)),
            _ => Kind::Within(Scope::Run, SOME_DEPTH.wrapping_add(depth)),
        }
    }

    /// Returns the kinds of all labels. Errors: allocation failed.
    fn kinds(&self, alloc: Global, code: &Bytecode<'_>) -> Result<Vec<Kind>, AllocError> {
        let mut kinds = Vec::new(alloc);
        for label in 0..u32::MAX {
            if label as usize >= code.ops.len() {
                break;
            }
            kinds.push(self.kind_of(code, label))?;
        }
        Ok(kinds)
    }
}
