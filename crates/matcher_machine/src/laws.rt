//! Laws over the definitions alone.
ghost use Rattle.std.specs.Prelude.{◌≡◌, ◌+◌, ◌≤◌, ℕ, List, [], false, length, true};
ghost use Rattle.matcher_code.specs.Lists.{CodeLists};
ghost use Rattle.matcher_code.specs.StackUses.{is_stackless};
ghost use Rattle.matcher_code.specs.Steps.{Config, op_at, step, steps};
ghost use Rattle.matcher_machine.specs.Contexts.{Context, IsOwnRun, in_context, pops_frame};
ghost use Rattle.matcher_machine.specs.Machines.{ends_run};
ghost use Rattle.matcher_machine.specs.Memos.{IsGivenUp};
ghost use Rattle.matcher_machine.specs.Outlines.{ComesBack, is_plain, outline};

/// A run that uses none of the frames of its start goes the same way in every context.
pub fn own_runs_go_the_same_way_in_contexts()
    ensures { (code : CodeLists) (text : List ℕ) (f : Context) (c d : Config) → IsOwnRun code text c d
        → IsOwnRun code text (in_context f c) (in_context f d) }
{}

/// An operation that leaves the stack as it is goes to one place, whatever a run has found.
pub fn outlines_go_the_same_way()
    ensures { (code : CodeLists) (text : List ℕ) (c d : Config) → outline c ≡ outline d
        → is_plain (op_at code text c.pc) ≡ true → outline (step code text c) ≡ outline (step code text d) }
{}

/// A run to the end of a call does not begin the call again at its position.
pub fn runs_that_end_do_not_come_back()
    ensures { (code : CodeLists) (text : List ℕ) (c d : Config) → IsOwnRun code text c d → d.frames ≡ []
        → pops_frame (op_at code text d.pc) ≡ true → ComesBack code text c → ⊥ }
{}

/// If no operation of the code uses the stack, a run from a position of the text, without frames before it,
/// passes the text by three bytes at most.
pub fn runs_stay_near_the_text()
    ensures { (code : CodeLists) (text : List ℕ) → is_stackless code ≡ true → (c : Config)
        → c.frames ≡ [] → c.at ≤ length text → (n : ℕ) → (steps code text n c).at ≤ length text + 3 }
{}

/// Such a run that is given up never comes to an end: it pops a frame, and there is none.
pub fn runs_that_are_given_up_never_end()
    ensures { (code : CodeLists) (text : List ℕ) → is_stackless code ≡ true → (c : Config)
        → c.frames ≡ [] → c.at ≤ length text → IsGivenUp code text c
        → (n : ℕ) → ends_run (op_at code text (steps code text n c).pc) ≡ false }
{}
