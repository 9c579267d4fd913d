//! FIRST sets of rules and of the implicit skipping.
ghost use Rattle.std.specs.Prelude.{◌<◌, IfOk, IfSome, OnOk, get_or, length};
ghost use Rattle.base_language.specs.Language.Expression.{comment, whitespace};
ghost use Rattle.base_language.specs.Language.State.{Mode};
ghost use Rattle.matcher_program.specs.Programs.{IsKnown, IsSkippedRule};
ghost use Rattle.matcher_program.specs.declared.form.Program.{Program};
ghost use Rattle.matcher_program.specs.declared.form.ProgramRule.{ProgramRule};
ghost use Rattle.matcher_sets.specs.Forms.{IsSoundProgram, grammar_in, said};
ghost use Rattle.matcher_sets.specs.FirstSets.{AreFirstSets, AreFirstSetsIn, HasFirstSet, IsTriviaFirstSet, IsSkipFirstSet};
ghost use Rattle.matcher_sets.specs.Modes.{mode_of};

use crate::first_sets::{
    DEPTH, FirstSet, FirstSets, call_first_set, first_sets_in, form_first_set, join, rule_first_set,
};
use crate::modes::{Atomicity, has_body_in};
use matcher_program::form::Program;
use std::alloc::{AllocError, Global};

/// How often the FIRST sets of all rules are looked for.
const ROUNDS: u32 = 3;

/// Sets the FIRST set of a body.
fn put(list: &mut Vec<Option<FirstSet>>, rule: usize, first_set: Option<FirstSet>)
    ensures { (p : Program) (m : Mode) → AreFirstSetsIn p m list.old.items
        → ((d : ProgramRule) → rule < length p.rules.items
        → IfSome first_set (HasFirstSet p m (said p (get_or p.rules.items rule d).body)))
        → AreFirstSetsIn p m list.new.items }
{
    if rule < list.len() {
        list[rule] = first_set;
    }
}

/// Sets the FIRST set of a body in a mode.
fn set_first_set(
    first_sets: &mut FirstSets,
    rule: usize,
    mode: Atomicity,
    first_set: Option<FirstSet>,
)
    ensures { (p : Program) → AreFirstSets p first_sets.old
        → ((d : ProgramRule) → rule < length p.rules.items
        → IfSome first_set (HasFirstSet p (mode_of mode) (said p (get_or p.rules.items rule d).body)))
        → AreFirstSets p first_sets.new }
{
    match mode {
        Atomicity::NonAtomic => put(&mut first_sets.non_atomic, rule, first_set),
        Atomicity::Atomic => put(&mut first_sets.atomic, rule, first_set),
        Atomicity::CompoundAtomic => put(&mut first_sets.compound_atomic, rule, first_set),
    }
}

/// Looks for the FIRST set of a body in a mode, if it is not known and the rule has a body in that mode.
/// Returns whether it was found.
fn learn(
    alloc: Global,
    program: &Program,
    first_sets: &mut FirstSets,
    rule: usize,
    mode: Atomicity,
) -> Result<bool, AllocError>
    requires sound { IsSoundProgram program.now }
    requires first_sets { AreFirstSets program.now first_sets.old }
    ensures { OnOk result (AreFirstSets program.now first_sets.new) }
{
    if rule_first_set(first_sets_in(first_sets, mode), rule).is_some() {
        return Ok(false);
    }
    let program_rule = match program.rules.get(rule) {
        Some(program_rule) => program_rule,
        None => return Ok(false),
    };
    if !has_body_in(program_rule, mode) {
        return Ok(false);
    }
    let made = form_first_set(alloc, program, first_sets, &program_rule.body, mode, DEPTH)?;
    let is_found = made.is_some();
    set_first_set(first_sets, rule, mode, made);
    Ok(is_found)
}

/// Looks for the FIRST sets of the bodies of a rule. Returns whether one was found.
fn learn_rule(
    alloc: Global,
    program: &Program,
    first_sets: &mut FirstSets,
    rule: usize,
) -> Result<bool, AllocError>
    requires sound { IsSoundProgram program.now }
    requires first_sets { AreFirstSets program.now first_sets.old }
    ensures { OnOk result (AreFirstSets program.now first_sets.new) }
{
    let loose = learn(alloc, program, first_sets, rule, Atomicity::NonAtomic)?;
    let atomic = learn(alloc, program, first_sets, rule, Atomicity::Atomic)?;
    let compound = learn(alloc, program, first_sets, rule, Atomicity::CompoundAtomic)?;
    Ok(loose || atomic || compound)
}

/// Looks for the FIRST sets of all bodies, the last rule first. Returns whether one was found.
fn learn_all(
    alloc: Global,
    program: &Program,
    first_sets: &mut FirstSets,
) -> Result<bool, AllocError>
    requires sound { IsSoundProgram program.now }
    requires first_sets { AreFirstSets program.now first_sets.old }
    ensures { OnOk result (AreFirstSets program.now first_sets.new) }
{
    let mut is_found = false;
    let mut below = program.rules.len();
    while below > 0 {
        below -= 1;
        if learn_rule(alloc, program, first_sets, below)? {
            is_found = true;
        }
    }
    Ok(is_found)
}

/// Returns the FIRST set of a call of a rule of the implicit skipping, which takes something. Without such a
/// rule there is no call, as if it failed everywhere.
fn skip_first_set(
    alloc: Global,
    program: &Program,
    first_sets: &FirstSets,
    rule: Option<usize>,
) -> Result<Option<FirstSet>, AllocError>
    requires sound { IsSoundProgram program.now }
    requires first_sets { AreFirstSets program.now first_sets.now }
    requires known { IsKnown (grammar_in program.now) rule }
    ensures blank { IfOk result (λ made. IfSome made (λ first_set.
        IsSkippedRule (grammar_in program.now) whitespace rule
        → IsSkipFirstSet program.now whitespace first_set)) }
    ensures note { IfOk result (λ made. IfSome made (λ first_set.
        IsSkippedRule (grammar_in program.now) comment rule → IsSkipFirstSet program.now comment first_set)) }
{
    let number = match rule {
        Some(number) => number,
        None => {
            let ranges = Vec::new(alloc);
            return Ok(Some(FirstSet {
                ranges,
                empty: false,
                noted: false,
            }));
        }
    };
    let made = call_first_set(alloc, program, first_sets, number, Atomicity::NonAtomic)?;
    match made {
        Some(first_set) => {
            if first_set.empty {
                Ok(None)
            } else {
                Ok(Some(first_set))
            }
        }
        None => Ok(None),
    }
}

/// Returns the FIRST set of the implicit skipping in NonAtomic, by those of blanks and comments.
fn trivia_first_set(
    alloc: Global,
    program: &Program,
    first_sets: &FirstSets,
) -> Result<Option<FirstSet>, AllocError>
    requires sound { IsSoundProgram program.now }
    requires first_sets { AreFirstSets program.now first_sets.now }
    ensures { IfOk result (λ made. IfSome made (IsTriviaFirstSet program.now)) }
{
    let blanks = skip_first_set(alloc, program, first_sets, program.whitespace)?;
    let blank = match blanks {
        Some(blank) => blank,
        None => return Ok(None),
    };
    let comments = skip_first_set(alloc, program, first_sets, program.comment)?;
    match comments {
        Some(note) => join(blank, &note),
        None => Ok(None),
    }
}

/// Looks for the FIRST set of the implicit skipping.
fn learn_trivia(
    alloc: Global,
    program: &Program,
    first_sets: &mut FirstSets,
) -> Result<(), AllocError>
    requires sound { IsSoundProgram program.now }
    requires first_sets { AreFirstSets program.now first_sets.old }
    ensures { OnOk result (AreFirstSets program.now first_sets.new) }
{
    let made = trivia_first_set(alloc, program, first_sets)?;
    first_sets.trivia = made;
    Ok(())
}

/// Returns a list without a known FIRST set.
fn none_known(alloc: Global, rules: usize) -> Result<Vec<Option<FirstSet>>, AllocError>
    ensures { IfOk result (λ list. (p : Program) (m : Mode) → AreFirstSetsIn p m list.items) }
{
    let mut list = Vec::new(alloc);
    'rules: for _ in 0..rules {
        list.push(None)?;
    }
    Ok(list)
}

/// Returns the FIRST sets of the bodies of rules, as far as three rounds find them, or fewer if one finds
/// nothing more. The only error is an allocation failure.
pub fn rule_first_sets(
    alloc: Global,
    program: &Program,
    calls_all: bool,
) -> Result<FirstSets, AllocError>
    requires sound { IsSoundProgram program.now }
    ensures { IfOk result (AreFirstSets program.now) }
{
    let rules = program.rules.len();
    let non_atomic = none_known(alloc, rules)?;
    let atomic = none_known(alloc, rules)?;
    let compound_atomic = none_known(alloc, rules)?;
    let mut first_sets = FirstSets {
        non_atomic,
        atomic,
        compound_atomic,
        trivia: None,
        calls_all,
    };
    'rounds: for round in 0..ROUNDS {
        let is_found = learn_all(alloc, program, &mut first_sets)?;
        if round > 0 && !is_found {
            return Ok(first_sets);
        }
        learn_trivia(alloc, program, &mut first_sets)?;
    }
    Ok(first_sets)
}
