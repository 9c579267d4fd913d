//! First characters of forms.
ghost use Rattle.std.specs.Prelude.{◌≡◌, ◌<◌, ◌&&◌, IfOk, IfSome, None, OnOk, chars, false, get_or, length, true};
ghost use Rattle.base_language.specs.Language.Expression.{Choice, Expression, Grammar, Ident, Insens, NegPred, NodeTag, Opt, Rep, RepOnce, RestoreOnErr, Seq, Str};
ghost use Rattle.base_ast.specs.Ast.{rule_type_of};
ghost use Rattle.base_language.specs.Language.Meaning.{gives_token, seen_from};
ghost use Rattle.base_language.specs.Language.Text.{Text};
ghost use Rattle.base_language.specs.Language.State.{Classes, Mode, NonAtomicMode};
ghost use Rattle.matcher_code.specs.Laid.{IsTight};
ghost use Rattle.matcher_program.specs.Programs.{IsRuleOf, name_at, names_of};
ghost use Rattle.matcher_program.specs.declared.form.Program.{Program};
ghost use Rattle.matcher_sets.specs.Forms.{IsBoundIn, IsSoundProgram, grammar_in, said};
ghost use Rattle.matcher_sets.specs.FirstSets.{AreFirstSets, AreFirstSetsIn, HasFront, HasFirstSet, IsCall, IsJoin};
ghost use Rattle.matcher_sets.specs.Modes.{mode_of};

use crate::difference::{MOST_RANGES, push_firsts};
use crate::modes::{Atomicity, body_mode, gives_token, is_seen_from};
use crate::ranges::{first_character, push_range};
use base_ast::ast::RuleType;
use matcher_code::ranges::Ranges;
use matcher_program::form::{Form, Program, ProgramRule};
use std::alloc::{AllocError, Global};

/// How deep the parts of a form are looked into.
pub(crate) const DEPTH: u32 = 64;

/// The largest number of ranges of a FIRST set that those of another one come before. So FIRST sets of rules
/// that begin with one another do not grow with their number.
const MOST_JOINED: usize = 1024;

/// The characters with which a form begins. If none of them is next, the form takes nothing.
#[derive(Drop)]
pub struct FirstSet {
    pub ranges: Ranges,
    /// Whether the form succeeds then. Else it fails.
    pub empty: bool,
    /// Whether a call that counts has failed there by then.
    pub noted: bool,
}

/// The FIRST sets of the bodies of rules in each mode, and that of the implicit skipping, if they are known.
#[derive(Drop)]
pub struct FirstSets {
    pub(crate) non_atomic: Vec<Option<FirstSet>>,
    pub(crate) atomic: Vec<Option<FirstSet>>,
    pub(crate) compound_atomic: Vec<Option<FirstSet>>,
    pub(crate) trivia: Option<FirstSet>,
    /// Whether a call whose failure is recorded has no FIRST set.
    pub calls_all: bool,
}

/// Returns a FIRST set with the characters of two, or `None` if they are too many.
pub(crate) fn join(first: FirstSet, second: &FirstSet) -> Result<Option<FirstSet>, AllocError>
    ensures { IfOk result (λ made. IfSome made (IsJoin first second.now)) }
{
    let FirstSet {
        ranges,
        empty: _,
        noted,
    } = first;
    if ranges.len() > MOST_RANGES || second.ranges.len() > MOST_JOINED {
        return Ok(None);
    }
    let mut joined = ranges;
    joined.extend_from_slice(&second.ranges)?;
    Ok(Some(FirstSet {
        ranges: joined,
        empty: second.empty,
        noted: noted || second.noted,
    }))
}

/// Returns the FIRST set of a choice, by those of its alternatives.
fn choice_first_set(
    first: FirstSet,
    second: Option<FirstSet>,
) -> Result<Option<FirstSet>, AllocError>
    ensures { IfOk result (λ made. IfSome made (λ first_set. (p : Program) (m : Mode) (a b : Expression)
        → HasFirstSet p m a first → IfSome second (HasFirstSet p m b)
        → HasFirstSet p m (Choice a b) first_set)) }
{
    if first.empty {
        return Ok(Some(first));
    }
    match second {
        Some(other) => join(first, &other),
        None => Ok(None),
    }
}

/// Returns the FIRST set of a sequence, by that of its first part with the skipping behind it, which may take
/// nothing, and that of its second part.
fn sequence_first_set(
    first: FirstSet,
    second: Option<FirstSet>,
) -> Result<Option<FirstSet>, AllocError>
    ensures { IfOk result (λ made. IfSome made (λ first_set. (p : Program) (m : Mode) (a b : Expression)
        → HasFront p m a first → IfSome second (HasFirstSet p m b) → HasFirstSet p m (Seq a b) first_set)) }
{
    match second {
        Some(other) => join(first, &other),
        None => Ok(None),
    }
}

/// Returns the FIRST set of an option, a repetition or a negative lookahead, by that of its operand.
fn option_first_set(body: FirstSet) -> FirstSet
    ensures option { (p : Program) (m : Mode) (e : Expression)
        → HasFirstSet p m e body → HasFirstSet p m (Opt e) result }
    ensures repetition { body.empty ≡ false → (p : Program) (m : Mode) (e : Expression)
        → HasFirstSet p m e body → HasFirstSet p m (Rep e) result }
    ensures lookahead { body.empty ≡ false → (p : Program) (m : Mode) (e : Expression)
        → HasFirstSet p m e body → HasFirstSet p m (NegPred e) result }
{
    let FirstSet {
        ranges,
        empty: _,
        noted,
    } = body;
    FirstSet {
        ranges,
        empty: true,
        noted,
    }
}

/// Returns the FIRST set of a literal.
fn literal_first_set(alloc: Global, text: &str) -> Result<Option<FirstSet>, AllocError>
    ensures { IfOk result (λ made. IfSome made (λ first_set. (p : Program) (m : Mode)
        → HasFirstSet p m (Str (chars text.now)) first_set)) }
{
    let c = match first_character(text) {
        Some(c) => c,
        None => return Ok(None),
    };
    let mut ranges = Vec::new(alloc);
    push_range(&mut ranges, c as u32, c as u32)?;
    Ok(Some(FirstSet {
        ranges,
        empty: false,
        noted: false,
    }))
}

/// Returns the FIRST set of a literal in any case.
fn any_case_first_set(alloc: Global, text: &str) -> Result<Option<FirstSet>, AllocError>
    ensures { IfOk result (λ made. IfSome made (λ first_set. (p : Program) (m : Mode)
        → HasFirstSet p m (Insens (chars text.now)) first_set)) }
{
    let c = match first_character(text) {
        Some(c) => c,
        None => return Ok(None),
    };
    let lower = c.to_ascii_lowercase() as u32;
    let upper = c.to_ascii_uppercase() as u32;
    let mut ranges = Vec::new(alloc);
    push_range(&mut ranges, lower, lower)?;
    push_range(&mut ranges, upper, upper)?;
    Ok(Some(FirstSet {
        ranges,
        empty: false,
        noted: false,
    }))
}

/// Returns the FIRST set of a form that begins with one of some characters, and has no operands.
fn leaf_first_set(
    alloc: Global,
    program: &Program,
    form: &Form,
    mode: Atomicity,
) -> Result<Option<FirstSet>, AllocError>
    requires bound { IsBoundIn program.now form.now }
    ensures { IfOk result (λ made. IfSome made
        (HasFirstSet program.now (mode_of mode) (said program.now form.now))) }
{
    let mut ranges = Vec::new(alloc);
    if push_firsts(alloc, program, &mut ranges, form)? {
        Ok(Some(FirstSet {
            ranges,
            empty: false,
            noted: false,
        }))
    } else {
        Ok(None)
    }
}

/// Returns the FIRST sets of bodies in a mode.
pub(crate) fn first_sets_in(first_sets: &FirstSets, mode: Atomicity) -> &[Option<FirstSet>]
    ensures { (p : Program) → AreFirstSets p first_sets.entry.now
        → AreFirstSetsIn p (mode_of mode) result.now }
{
    match mode {
        Atomicity::NonAtomic => first_sets.non_atomic.as_slice(),
        Atomicity::Atomic => first_sets.atomic.as_slice(),
        Atomicity::CompoundAtomic => first_sets.compound_atomic.as_slice(),
    }
}

/// Returns a FIRST set, if it is known.
pub(crate) fn known_first_set(known: &Option<FirstSet>) -> Option<&FirstSet>
    ensures { IfSome result (λ first_set. known.entry.now ≡ Some first_set.now) }
{
    match known {
        Some(first_set) => Some(first_set),
        None => None,
    }
}

/// Returns the FIRST set of a rule, if it is known.
pub(crate) fn rule_first_set(first_sets: &[Option<FirstSet>], rule: usize) -> Option<&FirstSet>
    ensures { IfSome result (λ first_set. get_or first_sets.entry.now rule None ≡ Some first_set.now) }
{
    match first_sets.get(rule) {
        Some(known) => known_first_set(known),
        None => None,
    }
}

/// Returns the FIRST set of a call, by that of the body. `counts`: whether a failure of the call is recorded.
fn called_first_set(
    alloc: Global,
    body: &FirstSet,
    counts: bool,
) -> Result<Option<FirstSet>, AllocError>
    ensures { IfOk result (λ made. IfSome made (IsCall body.now counts)) }
{
    if body.empty {
        return Ok(None);
    }
    let ranges = Vec::from_slice(alloc, &body.ranges)?;
    Ok(Some(FirstSet {
        ranges,
        empty: false,
        noted: counts || body.noted,
    }))
}

/// Returns whether a failure of a call of a rule is recorded.
fn is_counted(kind: RuleType, mode: Atomicity) -> bool
    ensures { result ≡ (seen_from (mode_of mode) && gives_token (rule_type_of kind) (mode_of mode)) }
{
    is_seen_from(mode) && gives_token(kind, mode)
}

/// Returns whether a call of a rule gives a token, and a failure of it is not recorded.
fn is_uncounted(kind: RuleType, mode: Atomicity) -> bool
    ensures { result ≡ false → gives_token (rule_type_of kind) (mode_of mode)
        ≡ (seen_from (mode_of mode) && gives_token (rule_type_of kind) (mode_of mode)) }
{
    gives_token(kind, mode) && !is_seen_from(mode)
}

/// Returns the FIRST set of a call of a rule.
fn program_rule_first_set(
    alloc: Global,
    program: &Program,
    first_sets: &FirstSets,
    rule: usize,
    program_rule: &ProgramRule,
    mode: Atomicity,
) -> Result<Option<FirstSet>, AllocError>
    requires sound { IsSoundProgram program.now }
    requires first_sets { AreFirstSets program.now first_sets.now }
    requires within { rule < length program.now.rules.items }
    requires meant { IsRuleOf (grammar_in program.now)
        (name_at (names_of program.now.rules.items) rule) rule }
    requires is { program_rule.now ≡ get_or program.now.rules.items rule program_rule.now }
    ensures { IfOk result (λ made. IfSome made (HasFirstSet program.now (mode_of mode)
        (Ident (name_at (names_of program.now.rules.items) rule)))) }
{
    if is_uncounted(program_rule.kind, mode) {
        return Ok(None);
    }
    let inner = body_mode(program_rule.kind, program_rule.blank, mode);
    let counts = is_counted(program_rule.kind, mode);
    if counts && first_sets.calls_all {
        return Ok(None);
    }
    let known = first_sets_in(first_sets, inner);
    match rule_first_set(known, rule) {
        Some(body) => called_first_set(alloc, body, counts),
        None => Ok(None),
    }
}

/// Returns the FIRST set of a call of the rule of a number, if it is known.
pub fn call_first_set(
    alloc: Global,
    program: &Program,
    first_sets: &FirstSets,
    rule: usize,
    mode: Atomicity,
) -> Result<Option<FirstSet>, AllocError>
    requires sound { IsSoundProgram program.now }
    requires first_sets { AreFirstSets program.now first_sets.now }
    requires meant { IsRuleOf (grammar_in program.now)
        (name_at (names_of program.now.rules.items) rule) rule }
    ensures { IfOk result (λ made. IfSome made (HasFirstSet program.now (mode_of mode)
        (Ident (name_at (names_of program.now.rules.items) rule)))) }
{
    match program.rules.get(rule) {
        Some(program_rule) => program_rule_first_set(
            alloc,
            program,
            first_sets,
            rule,
            program_rule,
            mode,
        ),
        None => Ok(None),
    }
}

/// Returns whether nothing is skipped in a mode, whatever the rules are.
fn is_tight(mode: Atomicity) -> bool
    ensures tight { result ≡ true → (g : Grammar) (classes : Classes) → IsTight g classes (mode_of mode) }
    ensures loose { result ≡ false → mode_of mode ≡ NonAtomicMode }
{
    match mode {
        Atomicity::NonAtomic => false,
        Atomicity::Atomic => true,
        Atomicity::CompoundAtomic => true,
    }
}

/// Returns the FIRST set of a first part that may take nothing, with the skipping behind it in a mode.
fn front_first_set(
    first_sets: &FirstSets,
    first: FirstSet,
    mode: Atomicity,
) -> Result<Option<FirstSet>, AllocError>
    requires empty { first.empty ≡ true }
    ensures { IfOk result (λ made. IfSome made (λ first_set. (p : Program) (e : Expression)
        → AreFirstSets p first_sets.now → HasFirstSet p (mode_of mode) e first
        → HasFront p (mode_of mode) e first_set)) }
{
    if is_tight(mode) {
        return Ok(Some(first));
    }
    match known_first_set(&first_sets.trivia) {
        Some(trivia) => join(first, trivia),
        None => Ok(None),
    }
}

/// Returns the FIRST set of a choice.
#[cycle(form_first_sets)]
fn alternatives_first_set(
    alloc: Global,
    program: &Program,
    first_sets: &FirstSets,
    left: &Form,
    right: &Form,
    mode: Atomicity,
    depth: u32,
) -> Result<Option<FirstSet>, AllocError>
    requires sound { IsSoundProgram program.now }
    requires first_sets { AreFirstSets program.now first_sets.now }
    requires left_bound { IsBoundIn program.now left.now }
    requires right_bound { IsBoundIn program.now right.now }
    ensures { IfOk result (λ made. IfSome made (HasFirstSet program.now (mode_of mode)
        (Choice (said program.now left.now) (said program.now right.now)))) }
{
    let made = form_first_set(alloc, program, first_sets, left, mode, depth)?;
    let first = match made {
        Some(first) => first,
        None => return Ok(None),
    };
    let second = form_first_set(alloc, program, first_sets, right, mode, depth)?;
    choice_first_set(first, second)
}

/// Returns the FIRST set of a sequence.
#[cycle(form_first_sets)]
fn parts_first_set(
    alloc: Global,
    program: &Program,
    first_sets: &FirstSets,
    left: &Form,
    right: &Form,
    mode: Atomicity,
    depth: u32,
) -> Result<Option<FirstSet>, AllocError>
    requires sound { IsSoundProgram program.now }
    requires first_sets { AreFirstSets program.now first_sets.now }
    requires left_bound { IsBoundIn program.now left.now }
    requires right_bound { IsBoundIn program.now right.now }
    ensures { IfOk result (λ made. IfSome made (HasFirstSet program.now (mode_of mode)
        (Seq (said program.now left.now) (said program.now right.now)))) }
{
    let made = form_first_set(alloc, program, first_sets, left, mode, depth)?;
    let first = match made {
        Some(first) => first,
        None => return Ok(None),
    };
    if !first.empty {
        return Ok(Some(first));
    }
    let behind = front_first_set(first_sets, first, mode)?;
    let front = match behind {
        Some(front) => front,
        None => return Ok(None),
    };
    let second = form_first_set(alloc, program, first_sets, right, mode, depth)?;
    sequence_first_set(front, second)
}

/// Returns the FIRST set of an option.
#[cycle(form_first_sets)]
fn optional_first_set(
    alloc: Global,
    program: &Program,
    first_sets: &FirstSets,
    body: &Form,
    mode: Atomicity,
    depth: u32,
) -> Result<Option<FirstSet>, AllocError>
    requires sound { IsSoundProgram program.now }
    requires first_sets { AreFirstSets program.now first_sets.now }
    requires bound { IsBoundIn program.now body.now }
    ensures { IfOk result (λ made. IfSome made (HasFirstSet program.now (mode_of mode)
        (Opt (said program.now body.now)))) }
{
    let made = form_first_set(alloc, program, first_sets, body, mode, depth)?;
    match made {
        Some(first_set) => Ok(Some(option_first_set(first_set))),
        None => Ok(None),
    }
}

/// Returns the FIRST set of what takes nothing if its operand fails: a repetition, or a negative
/// lookahead.
#[cycle(form_first_sets)]
fn spared_first_set(
    alloc: Global,
    program: &Program,
    first_sets: &FirstSets,
    body: &Form,
    mode: Atomicity,
    depth: u32,
) -> Result<Option<FirstSet>, AllocError>
    requires sound { IsSoundProgram program.now }
    requires first_sets { AreFirstSets program.now first_sets.now }
    requires bound { IsBoundIn program.now body.now }
    ensures repetition { IfOk result (λ made. IfSome made (HasFirstSet program.now (mode_of mode)
        (Rep (said program.now body.now)))) }
    ensures lookahead { IfOk result (λ made. IfSome made (HasFirstSet program.now (mode_of mode)
        (NegPred (said program.now body.now)))) }
{
    let made = form_first_set(alloc, program, first_sets, body, mode, depth)?;
    match made {
        Some(first_set) => {
            if first_set.empty {
                Ok(None)
            } else {
                Ok(Some(option_first_set(first_set)))
            }
        }
        None => Ok(None),
    }
}

/// Returns the FIRST set of what takes as much as its operand: a tagged expression, or one whose failure
/// restores the stack.
#[cycle(form_first_sets)]
fn wrapped_first_set(
    alloc: Global,
    program: &Program,
    first_sets: &FirstSets,
    body: &Form,
    mode: Atomicity,
    depth: u32,
) -> Result<Option<FirstSet>, AllocError>
    requires sound { IsSoundProgram program.now }
    requires first_sets { AreFirstSets program.now first_sets.now }
    requires bound { IsBoundIn program.now body.now }
    ensures tag { IfOk result (λ made. IfSome made (λ first_set. (t : Text)
        → HasFirstSet program.now (mode_of mode)
        (NodeTag (said program.now body.now) t) first_set)) }
    ensures restore { IfOk result (λ made. IfSome made (HasFirstSet program.now (mode_of mode)
        (RestoreOnErr (said program.now body.now)))) }
{
    form_first_set(alloc, program, first_sets, body, mode, depth)
}

/// Returns the FIRST set of a repetition that matches at least once.
#[cycle(form_first_sets)]
fn repeated_first_set(
    alloc: Global,
    program: &Program,
    first_sets: &FirstSets,
    body: &Form,
    mode: Atomicity,
    depth: u32,
) -> Result<Option<FirstSet>, AllocError>
    requires sound { IsSoundProgram program.now }
    requires first_sets { AreFirstSets program.now first_sets.now }
    requires bound { IsBoundIn program.now body.now }
    ensures { IfOk result (λ made. IfSome made (HasFirstSet program.now (mode_of mode)
        (RepOnce (said program.now body.now)))) }
{
    let made = form_first_set(alloc, program, first_sets, body, mode, depth)?;
    match made {
        Some(first_set) => {
            if first_set.empty {
                Ok(None)
            } else {
                Ok(Some(first_set))
            }
        }
        None => Ok(None),
    }
}

/// Returns the FIRST set of a form. `depth`: how deep its parts are looked into.
#[cycle(form_first_sets)]
pub(crate) fn form_first_set(
    alloc: Global,
    program: &Program,
    first_sets: &FirstSets,
    form: &Form,
    mode: Atomicity,
    depth: u32,
) -> Result<Option<FirstSet>, AllocError>
    requires sound { IsSoundProgram program.now }
    requires first_sets { AreFirstSets program.now first_sets.now }
    requires bound { IsBoundIn program.now form.now }
    ensures { IfOk result (λ made. IfSome made
        (HasFirstSet program.now (mode_of mode) (said program.now form.now))) }
{
    if depth == 0 {
        return Ok(None);
    }
    let less = depth - 1;
    match form {
        Form::Str(text) => literal_first_set(alloc, text.as_str()),
        Form::Insens(text) => any_case_first_set(alloc, text.as_str()),
        Form::Call(rule) => call_first_set(alloc, program, first_sets, *rule, mode),
        Form::Choice(left, right) => {
            alternatives_first_set(alloc, program, first_sets, left, right, mode, less)
        }
        Form::Seq(left, right) => parts_first_set(
            alloc, program, first_sets, left, right, mode, less,
        ),
        Form::Opt(body) => optional_first_set(alloc, program, first_sets, body, mode, less),
        Form::RepOnce(body) => repeated_first_set(alloc, program, first_sets, body, mode, less),
        Form::Rep(body) => spared_first_set(alloc, program, first_sets, body, mode, less),
        Form::NegPred(body) => spared_first_set(alloc, program, first_sets, body, mode, less),
        Form::Tag(body, _) => wrapped_first_set(alloc, program, first_sets, body, mode, less),
        Form::Restore(body) => wrapped_first_set(alloc, program, first_sets, body, mode, less),
        Form::Range(_, _) | Form::One(_) | Form::Set(_) | Form::Property(_, _) | Form::Newline => {
            leaf_first_set(alloc, program, form, mode)
        }
        _ => Ok(None),
    }
}

/// Returns the FIRST set of a form in a mode, if it is known.
pub fn first_set_of(
    alloc: Global,
    program: &Program,
    first_sets: &FirstSets,
    form: &Form,
    mode: Atomicity,
) -> Result<Option<FirstSet>, AllocError>
    requires sound { IsSoundProgram program.now }
    requires first_sets { AreFirstSets program.now first_sets.now }
    requires bound { IsBoundIn program.now form.now }
    ensures { IfOk result (λ made. IfSome made
        (HasFirstSet program.now (mode_of mode) (said program.now form.now))) }
{
    form_first_set(alloc, program, first_sets, form, mode, DEPTH)
}
