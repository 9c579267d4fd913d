//! A machine whose calls are recorded.
ghost use Rattle.std.specs.Prelude.{◌≡◌, ◌≤◌, ◌++◌, ◌∷◌, [], OnOk, length};
ghost use Rattle.matcher_engine.specs.Marks.{HaveMarks, marks-prop};

use crate::mark::Mark;
use matcher_code::bytecode::Bytecode;
use matcher_code::code::Op;
use matcher_code::state::{Failing, OpenCall, TreeNode};
use matcher_machine::frame::Frame;
use matcher_machine::machine::{Machine, Next, RunEnd};
use matcher_machine::running::op_at;
use std::alloc::{AllocError, Global};

/// The greatest number of paths.
const PATHS: usize = 1_024;

/// The greatest number of attempts of a kind.
const ATTEMPTS: usize = 65_535;

/// A machine whose calls are recorded.
#[derive(Drop)]
pub struct Tracer {
    pub machine: Machine,
    /// The counted calls that are open, the outermost first.
    pub calls: Vec<OpenCall>,
    /// The calls that were open when a rule was expected, each list once.
    pub paths: Vec<Vec<OpenCall>>,
    /// Whether the run is below an odd number of `!`.
    pub below: bool,
    /// The position, in bytes, at which attempts are recorded. Paths are recorded at the position
    /// at which the machine is asked for names.
    pub place: usize,
    /// The greatest position, in bytes, of an attempt, and at least `place`.
    pub furthest: usize,
    /// The indices of the rules that are expected at `place`. An index may occur several times.
    pub positives: Vec<u32>,
    /// The indices of the rules that are not expected at `place`. An index may occur several times.
    pub negatives: Vec<u32>,
    /// A mark for each frame, or `None` for the frame of a choice or of a call that gives no token.
    pub marks: Vec<Option<Mark>>,
    ghost marked: { HaveMarks calls paths positives negatives marks } by { marks-prop _ marks },
}

/// Appends `rule` to `rules`. The error is an allocation failure, or that `rules` has 65,535 rules.
fn push_rule(rules: &mut Vec<u32>, rule: u32) -> Result<(), AllocError>
    ensures rule { OnOk result (rules.new.items ≡ rules.old.items ++ rule ∷ []) }
    ensures kept { length rules.old.items ≤ length rules.new.items }
{
    if rules.len() >= ATTEMPTS {
        return Err(AllocError);
    }
    rules.push(rule)?;
    Ok(())
}

impl Tracer {
    ghost use Rattle.std.specs.Prelude.{◌≡◌, ◌∷◌, ⊤, ℕ, List, [], IfOk, MatchOption, None, OnOk, Some, drop, false, get_or, reverse, true};
    ghost use Rattle.matcher_code.specs.Attempts.{with_rule};
    ghost use Rattle.matcher_code.specs.Bytecodes.{lists_in};
    ghost use Rattle.matcher_code.specs.Lists.{CodeLists};
    ghost use Rattle.matcher_code.specs.declared.code.Op.TheVariants as op;
    ghost use Rattle.matcher_code.specs.Steps.{add_path, enter, has_path, leave, no_trace, no_tree, op_at, open_call, record_end, restore, trace_ahead, trace_behind};
    ghost use Rattle.matcher_machine.specs.Machines.{EndsIn, config};
    ghost use Rattle.matcher_engine.specs.Marks.{AreMarked, IsWithin, counts_of};
    ghost use Rattle.matcher_engine.specs.Traces.{TracedFollows, asked_of, first, mark_of, own_trace, paths_in, frame_trace, frame_traces, trace_after, trace_at, trace_of, traced_config, traces_after};

    /// Returns a tracer that records the calls of `machine`, and the attempts at the byte `place`.
    pub fn new(alloc: Global, machine: Machine, place: usize) -> Tracer
        ensures machine { result.machine ≡ machine }
        ensures place { result.place ≡ place }
        ensures trace { trace_of result ≡ no_trace }
        ensures marks { result.marks.items ≡ [] }
    {
        Tracer {
            machine,
            calls: Vec::new(alloc),
            paths: Vec::new(alloc),
            below: false,
            place,
            furthest: 0,
            positives: Vec::new(alloc),
            negatives: Vec::new(alloc),
            marks: Vec::new(alloc),
        }
    }

    /// Returns a mark with the counts of what is recorded so far.
    fn mark(&self) -> Mark
        ensures { result ≡ mark_of self.now }
    {
        Mark {
            calls: self.calls.len(),
            paths: self.paths.len(),
            below: self.below,
            furthest: self.furthest,
            positives: self.positives.len(),
            negatives: self.negatives.len(),
        }
    }

    /// Pushes the mark of a frame that is pushed now. The only error is an allocation failure.
    fn push_mark(&mut self) -> Result<(), AllocError>
        ensures traces { OnOk result (frame_traces self.new ≡ own_trace self.old ∷ frame_traces self.old) }
        ensures trace { trace_of self.new ≡ trace_of self.old }
        ensures machine { self.new.machine ≡ self.old.machine }
        ensures place { self.new.place ≡ self.old.place }
    {
        let mark = self.mark();
        self.marks.push(Some(mark))?;
        Ok(())
    }

    /// Leaves a frame that is pushed without a mark. The only error is an allocation failure.
    fn push_none(&mut self) -> Result<(), AllocError>
        ensures traces { OnOk result (frame_traces self.new ≡ None ∷ frame_traces self.old) }
        ensures trace { trace_of self.new ≡ trace_of self.old }
        ensures machine { self.new.machine ≡ self.old.machine }
        ensures place { self.new.place ≡ self.old.place }
    {
        self.marks.push(None)?;
        Ok(())
    }

    /// Drops the mark of a frame that is popped.
    fn pop_mark(&mut self)
        ensures traces { frame_traces self.new ≡ drop 1 (frame_traces self.old) }
        ensures trace { trace_of self.new ≡ trace_of self.old }
        ensures machine { self.new.machine ≡ self.old.machine }
        ensures place { self.new.place ≡ self.old.place }
    {
        let _ = self.marks.pop();
    }

    /// Returns the mark of the last frame, if it has one.
    fn last_mark(&self) -> Option<Mark>
        ensures trace { frame_trace (trace_of self.now) result ≡ first (frame_traces self.now) }
        ensures mark { MatchOption result ⊤ (λ mark. IsWithin mark (counts_of (mark_of self.now))
            × AreMarked (counts_of mark) (reverse self.now.marks.items)) }
    {
        match self.marks.last() {
            Some(mark) => *mark,
            None => None,
        }
    }

    /// Returns whether the paths have this list of calls.
    fn has_path(&self, calls: &[OpenCall]) -> bool
        ensures { result ≡ has_path (paths_in self.now.paths.items) calls.now }
    {
        for path in &self.paths {
            if path.as_slice() == calls {
                return true;
            }
        }
        false
    }

    /// Records that a rule is expected at a position, inside the open calls. The error is an
    /// allocation failure, also if there are more than 1,024 paths.
    fn expect(&mut self, alloc: Global, rule: u32, at: usize) -> Result<(), AllocError>
        ensures trace { OnOk result
            (own_trace self.new ≡ add_path (open_call rule at ∷ []) (own_trace self.old)) }
        ensures traces { OnOk result (frame_traces self.new ≡ frame_traces self.old) }
        ensures machine { self.new.machine ≡ self.old.machine }
        ensures place { self.new.place ≡ self.old.place }
    {
        let mut path = Vec::from_slice(alloc, self.calls.as_slice())?;
        path.push(OpenCall { rule, start: at })?;
        if self.has_path(path.as_slice()) {
            return Ok(());
        }
        if self.paths.len() >= PATHS {
            return Err(AllocError);
        }
        self.paths.push(path)?;
        Ok(())
    }

    /// Records the end of a call of the rule with the index `rule`, which began at the byte `at`.
    /// The mark `before` is that of the beginning of the call. The rule takes the place of the
    /// attempts inside the call, unless there is exactly one. The error is that of `push_rule`.
    fn record_end(
        &mut self,
        matched: bool,
        rule: u32,
        at: usize,
        before: Mark,
    ) -> Result<(), AllocError>
        requires within { IsWithin before (counts_of (mark_of self.old)) }
        requires marked { AreMarked (counts_of before) (reverse self.old.marks.items) }
        ensures trace { OnOk result (own_trace self.new ≡ record_end matched self.old.place rule at
            (Some (trace_at (trace_of self.old) before)) (own_trace self.old)) }
        ensures traces { OnOk result (frame_traces self.new ≡ frame_traces self.old) }
        ensures machine { self.new.machine ≡ self.old.machine }
        ensures place { self.new.place ≡ self.old.place }
    {
        if matched != self.below || at < self.place {
            return Ok(());
        }
        self.furthest = self.furthest.max(at);
        let positives = self.positives.len() - before.positives;
        let negatives = self.negatives.len() - before.negatives;
        if at > self.place || matches!((positives, negatives), (0, 1) | (1, 0)) {
            return Ok(());
        }
        self.positives.truncate(before.positives);
        self.negatives.truncate(before.negatives);
        self.push_attempt(rule)?;
        Ok(())
    }

    /// Appends `rule` to the rules that are expected, or below an odd number of `!` to those that
    /// are not expected. The error is that of `push_rule`.
    fn push_attempt(&mut self, rule: u32) -> Result<(), AllocError>
        ensures trace { OnOk result (trace_of self.new ≡ record (trace_of self.old) {
          attempts = with_rule self.old.below rule (trace_of self.old).attempts;
        }) }
        ensures traces { OnOk result (frame_traces self.new ≡ frame_traces self.old) }
        ensures machine { self.new.machine ≡ self.old.machine }
        ensures place { self.new.place ≡ self.old.place }
    {
        if self.below {
            push_rule(&mut self.negatives, rule)?;
        } else {
            push_rule(&mut self.positives, rule)?;
        }
        Ok(())
    }

    /// Records the end of the call of the last frame, if that has a mark. Errors are those of `record_end`.
    fn record_last_end(&mut self, matched: bool, rule: u32, at: usize) -> Result<(), AllocError>
        ensures trace { OnOk result (own_trace self.new ≡ record_end matched self.old.place rule at
            (first (frame_traces self.old)) (own_trace self.old)) }
        ensures traces { OnOk result (frame_traces self.new ≡ frame_traces self.old) }
        ensures machine { self.new.machine ≡ self.old.machine }
        ensures place { self.new.place ≡ self.old.place }
    {
        match self.last_mark() {
            Some(mark) => self.record_end(matched, rule, at, mark),
            None => Ok(()),
        }
    }

    /// Records the end of a call that has none within it. Errors are those of `record_end`.
    fn record_leaf(&mut self, matched: bool, rule: u32, at: usize) -> Result<(), AllocError>
        ensures trace { OnOk result (own_trace self.new ≡ record_end matched self.old.place rule at
            (own_trace self.old) (own_trace self.old)) }
        ensures traces { OnOk result (frame_traces self.new ≡ frame_traces self.old) }
        ensures machine { self.new.machine ≡ self.old.machine }
        ensures place { self.new.place ≡ self.old.place }
    {
        let mark = self.mark();
        self.record_end(matched, rule, at, mark)
    }

    /// Leaves the calls that were opened since the last frame was pushed, if it has a mark.
    fn leave(&mut self)
        ensures trace { own_trace self.new ≡ leave (first (frame_traces self.old)) (own_trace self.old) }
        ensures traces { frame_traces self.new ≡ frame_traces self.old }
        ensures machine { self.new.machine ≡ self.old.machine }
        ensures place { self.new.place ≡ self.old.place }
    {
        if let Some(mark) = self.last_mark() {
            self.calls.truncate(mark.calls);
        }
    }

    /// If the last frame has a mark, restores the calls, the paths and `below` as they were at the
    /// mark.
    fn restore(&mut self)
        ensures trace { own_trace self.new ≡ restore (first (frame_traces self.old)) (own_trace self.old) }
        ensures traces { frame_traces self.new ≡ frame_traces self.old }
        ensures machine { self.new.machine ≡ self.old.machine }
        ensures place { self.new.place ≡ self.old.place }
    {
        if let Some(mark) = self.last_mark() {
            self.calls.truncate(mark.calls);
            self.paths.truncate(mark.paths);
            self.below = mark.below;
        }
    }

    /// Opens a call, if it counts. The only error is an allocation failure.
    fn enter(&mut self, counts: bool, rule: u32, at: usize) -> Result<(), AllocError>
        ensures trace { OnOk result (own_trace self.new ≡ enter counts rule at (own_trace self.old)) }
        ensures traces { OnOk result (frame_traces self.new ≡ frame_traces self.old) }
        ensures machine { self.new.machine ≡ self.old.machine }
        ensures place { self.new.place ≡ self.old.place }
    {
        if counts {
            self.calls.push(OpenCall { rule, start: at })?;
        }
        Ok(())
    }

    /// Returns the last frame of the machine.
    fn last_frame(&self) -> Option<Frame>
        ensures { MatchOption result (reverse self.now.machine.frames.items ≡ [])
            (λ s. reverse self.now.machine.frames.items
            ≡ s ∷ drop 1 (reverse self.now.machine.frames.items)) }
    {
        self.machine.frames.last().copied()
    }

    /// Returns the tree with this number, or a tree of no characters if there is none.
    fn tree_at(&self, number: usize) -> TreeNode
        ensures { result ≡ get_or self.now.machine.trees.items number no_tree }
    {
        match self.machine.trees.get(number) {
            Some(tree) => *tree,
            None => TreeNode {
                rule: 0,
                start: 0,
                end: 0,
                after: 0,
            },
        }
    }

    /// Records the failure of the part of a frame, which is the last one. Errors: allocation failed, or there
    /// are too many paths or attempts.
    fn fail(&mut self, alloc: Global, frame: Frame) -> Result<(), AllocError>
        ensures trace { OnOk result (own_trace self.new ≡ trace_behind frame.failing (asked_of self.old)
            (get_or self.old.machine.trees.items frame.trees no_tree).rule frame.at
            (first (frame_traces self.old)) (own_trace self.old)) }
        ensures traces { OnOk result (frame_traces self.new ≡ frame_traces self.old) }
        ensures machine { self.new.machine ≡ self.old.machine }
        ensures place { self.new.place ≡ self.old.place }
    {
        let rule = self.tree_at(frame.trees).rule;
        match frame.failing {
            Failing::Plain => self.record_last_end(false, rule, frame.at),
            Failing::Counted => {
                if frame.at == self.machine.asked {
                    self.restore();
                    self.expect(alloc, rule, frame.at)?;
                    self.record_last_end(false, rule, frame.at)
                } else {
                    self.leave();
                    self.record_last_end(false, rule, frame.at)
                }
            }
            Failing::Negated => {
                self.restore();
                Ok(())
            }
        }
    }

    /// Records a failure, which pops the last frame. Errors are those of `fail`.
    fn pop_failure(&mut self, alloc: Global) -> Result<(), AllocError>
        ensures trace { OnOk result ((code : CodeLists) (text : List ℕ) (pc at : ℕ)
            → own_trace self.new ≡ trace_after op.Fail self.old.place
            (config code text self.old.machine pc at) (first (frame_traces self.old)) (own_trace self.old)) }
        ensures traces { OnOk result (frame_traces self.new ≡ drop 1 (frame_traces self.old)) }
        ensures machine { self.new.machine ≡ self.old.machine }
        ensures place { self.new.place ≡ self.old.place }
    {
        if let Some(frame) = self.last_frame() {
            self.fail(alloc, frame)?;
        }
        self.pop_mark();
        Ok(())
    }

    /// Records the return of a call, which pops its frame. Errors: allocation failed, or there are too many
    /// attempts.
    fn pop_return(&mut self) -> Result<(), AllocError>
        ensures trace { OnOk result ((code : CodeLists) (text : List ℕ) (pc at : ℕ)
            → own_trace self.new ≡ trace_after op.Return self.old.place
            (config code text self.old.machine pc at) (first (frame_traces self.old)) (own_trace self.old)) }
        ensures traces { OnOk result (frame_traces self.new ≡ drop 1 (frame_traces self.old)) }
        ensures machine { self.new.machine ≡ self.old.machine }
        ensures place { self.new.place ≡ self.old.place }
    {
        if let Some(frame) = self.last_frame() {
            let rule = self.tree_at(frame.trees).rule;
            self.leave();
            self.record_last_end(true, rule, frame.at)?;
        }
        self.pop_mark();
        Ok(())
    }

    /// Records the end of a lookahead that has found its part, which pops its frame.
    fn pop_lookahead(&mut self)
        ensures trace { (code : CodeLists) (text : List ℕ) (pc at next : ℕ)
            → own_trace self.new ≡ trace_after (op.Ahead next) self.old.place
            (config code text self.old.machine pc at) (first (frame_traces self.old)) (own_trace self.old) }
        ensures traces { frame_traces self.new ≡ drop 1 (frame_traces self.old) }
        ensures machine { self.new.machine ≡ self.old.machine }
        ensures place { self.new.place ≡ self.old.place }
    {
        if let Some(frame) = self.last_frame() {
            match frame.failing {
                Failing::Plain | Failing::Counted => {}
                Failing::Negated => self.restore(),
            }
        }
        self.pop_mark();
    }

    /// Records an operation that is to be run next. Errors: allocation failed, or there are too many paths or
    /// attempts.
    fn record(&mut self, alloc: Global, op: Op, at: usize) -> Result<(), AllocError>
        ensures traces { OnOk result
            (frame_traces self.new ≡ traces_after op (own_trace self.old) (frame_traces self.old)) }
        ensures trace { OnOk result ((code : CodeLists) (text : List ℕ) (pc : ℕ)
            → own_trace self.new ≡ trace_after op self.old.place
            (config code text self.old.machine pc at) (first (frame_traces self.old)) (own_trace self.old)) }
        ensures machine { self.new.machine ≡ self.old.machine }
        ensures place { self.new.place ≡ self.old.place }
    {
        match op {
            Op::Call { rule, counts, .. } => {
                self.push_mark()?;
                self.enter(counts, rule, at)
            }
            Op::Sub { .. } | Op::Try { .. } => self.push_none(),
            Op::Not { .. } => {
                self.push_mark()?;
                self.below = !self.below;
                Ok(())
            }
            Op::Fail => self.pop_failure(alloc),
            Op::Return => self.pop_return(),
            Op::Ahead { .. } => {
                self.pop_lookahead();
                Ok(())
            }
            Op::Back | Op::Commit { .. } | Op::Push { .. } => {
                self.pop_mark();
                Ok(())
            }
            Op::Miss { rule, .. } => {
                self.record_leaf(false, rule, at)?;
                if at == self.machine.asked {
                    self.expect(alloc, rule, at)?;
                }
                Ok(())
            }
            Op::Leaf { rule, .. } => self.record_leaf(true, rule, at),
            _ => Ok(()),
        }
    }

    /// Runs the operation of a number. Errors: allocation failed, or there are too many paths or attempts.
    fn step(
        &mut self,
        alloc: Global,
        code: &Bytecode<'_>,
        text: &str,
        pc: u32,
        at: usize,
    ) -> Result<Next, AllocError>
        ensures { IfOk result (TracedFollows (lists_in code.now) text.now
            (op_at (lists_in code.now) text.now pc)
            (traced_config (lists_in code.now) text.now self.old pc at) self.new) }
    {
        self.record(alloc, op_at(code, pc), at)?;
        self.machine.step_at(code, text, pc, at)
    }

    /// Runs `code` on `text`, from the operation `entry` and the byte `from` on, for at most
    /// `steps` operations. A step of a limit is four of these operations.
    ///
    /// # Errors
    /// `AllocError` if an allocation fails, if there are more than 1,024 paths, or if there are
    /// more than 65,535 attempts of a kind.
    pub fn run(
        &mut self,
        alloc: Global,
        code: &Bytecode<'_>,
        text: &str,
        entry: u32,
        from: usize,
        steps: u64,
    ) -> Result<RunEnd, AllocError>
        ensures { IfOk result (EndsIn (lists_in code.now) text.now steps
            (traced_config (lists_in code.now) text.now self.old entry from)
            (traced_config (lists_in code.now) text.now self.new)) }
    {
        let mut here = entry;
        let mut place = from;
        for taken in 0..steps {
            match self.step(alloc, code, text, here, place)? {
                Next::At(next, to) => {
                    here = next;
                    place = to;
                }
                Next::Found => return Ok(RunEnd::Found(place)),
                Next::Lost => return Ok(RunEnd::Failed),
                Next::Stuck => return Ok(RunEnd::Stuck),
            }
        }
        Ok(self.machine.end_at(code, here, place))
    }
}
