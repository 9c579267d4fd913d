//! Sizes of bodies, with those that are laid in the place of calls in them. Only the size and the speed of
//! programs depend on them.
use crate::modes::{Atomicity, body_mode, gives_token};
use matcher_program::form::{Form, Program, ProgramRule};
use std::alloc::{AllocError, Global};

/// The size of the largest body that is laid in place, in forms without parts.
pub const MOST_FORMS: u32 = 128;

/// How many bodies are laid in place inside one another.
pub const MOST_INSIDE: u32 = 4;

/// How deep the parts of a form are looked into.
const DEPTH: u32 = 64;

/// How many forms without parts the bodies of rules have in each mode, with those of bodies in place. What
/// has too many, or is never laid in place, has more than `MOST_FORMS`.
#[derive(Drop)]
pub struct Sizes {
    list: Vec<u32>,
}

/// All modes.
const MODES: [Atomicity; 3] = [
    Atomicity::NonAtomic,
    Atomicity::Atomic,
    Atomicity::CompoundAtomic,
];

/// Returns whether two modes are the same.
fn is_same_mode(one: Atomicity, other: Atomicity) -> bool {
    index_in(one) == index_in(other)
}

/// A rule whose body is counted, and the mode of the body.
#[derive(Clone, Copy)]
struct Body {
    rule: usize,
    mode: Atomicity,
}

/// Returns the index of a mode.
fn index_in(mode: Atomicity) -> usize {
    match mode {
        Atomicity::NonAtomic => 0,
        Atomicity::Atomic => 1,
        Atomicity::CompoundAtomic => 2,
    }
}

/// Returns the index of a body in the list of sizes.
fn index_of(body: Body) -> usize {
    body.rule
        .saturating_mul(3)
        .saturating_add(index_in(body.mode))
}

impl Sizes {
    /// Returns the size of a body.
    fn size_of(&self, body: Body) -> u32 {
        match self.list.get(index_of(body)) {
            Some(size) => *size,
            None => MOST_FORMS + 1,
        }
    }

    /// Returns whether the body of a rule in a mode is small enough to be laid in place. Rules that are
    /// skipped implicitly are called, since their calls are many.
    pub fn is_small(&self, program_rule: &ProgramRule, rule: usize, mode: Atomicity) -> bool {
        !program_rule.blank && self.size_of(Body { rule, mode }) <= MOST_FORMS
    }

    /// Returns whether two copies of a form in a mode are small enough to be laid.
    pub fn is_small_twice(&self, program: &Program, form: &Form, mode: Atomicity) -> bool {
        let inside = Body {
            rule: usize::MAX,
            mode,
        };
        self.form_size(program, form, inside, DEPTH) <= MOST_FORMS / 2
    }

    /// Returns the size of a call in a body: that of what is called, if it is laid in place.
    fn call_size(&self, program: &Program, rule: usize, inside: Body) -> u32 {
        let program_rule = match program.rules.get(rule) {
            Some(program_rule) => program_rule,
            None => return 1,
        };
        let mode = body_mode(program_rule.kind, program_rule.blank, inside.mode);
        if gives_token(program_rule.kind, inside.mode)
            || rule == inside.rule
            || !self.is_small(program_rule, rule, mode)
        {
            1
        } else {
            self.size_of(Body { rule, mode })
        }
    }

    /// Returns the size of a form in a body. `depth`: how deep its parts are looked into.
    fn form_size(&self, program: &Program, form: &Form, inside: Body, depth: u32) -> u32 {
        if depth == 0 {
            return MOST_FORMS + 1;
        }
        let less = depth - 1;
        match form {
            Form::Call(rule) => self.call_size(program, *rule, inside),
            Form::Seq(first, second) | Form::Choice(first, second) => {
                let size = self.form_size(program, first, inside, less);
                if size > MOST_FORMS {
                    return size;
                }
                size.saturating_add(self.form_size(program, second, inside, less))
            }
            Form::RepOnce(body) => self
                .form_size(program, body, inside, less)
                .saturating_mul(2),
            Form::PosPred(body)
            | Form::NegPred(body)
            | Form::Opt(body)
            | Form::Rep(body)
            | Form::Push(body)
            | Form::Restore(body)
            | Form::Tag(body, _) => { self.form_size(program, body, inside, less) }
            _ => 1,
        }
    }

    /// Counts a body again, if it is not too large. Returns whether it has another size than before.
    fn count(&mut self, program: &Program, body: Body) -> bool {
        let before = self.size_of(body);
        if before > MOST_FORMS {
            return false;
        }
        let size = match program.rules.get(body.rule) {
            Some(program_rule) => self.form_size(program, &program_rule.body, body, DEPTH),
            None => return false,
        };
        if let Some(place) = self.list.get_mut(index_of(body)) {
            *place = size;
        }
        size != before
    }

    /// Counts the body of a rule in each mode again. Returns whether one has another size than before.
    fn count_rule(&mut self, program: &Program, rule: usize) -> bool {
        let mut changed = false;
        for mode in MODES {
            if self.count(program, Body { rule, mode }) {
                changed = true;
            }
        }
        changed
    }

    /// Counts all bodies again. Returns whether one has another size than before.
    fn count_all(&mut self, program: &Program) -> bool {
        let mut changed = false;
        for rule in 0..program.rules.len() {
            if self.count_rule(program, rule) {
                changed = true;
            }
        }
        changed
    }
}

/// Returns whether a call of a rule that gives no token runs its body in a mode.
fn is_called_without_token(program_rule: &ProgramRule, mode: Atomicity) -> bool {
    for caller in MODES {
        if !gives_token(program_rule.kind, caller)
            && is_same_mode(
                body_mode(program_rule.kind, program_rule.blank, caller),
                mode,
            )
        {
            return true;
        }
    }
    false
}

/// Returns the size of a body before it is counted: too large if it is never laid in place.
fn first_size(program_rule: &ProgramRule, mode: Atomicity) -> u32 {
    if is_called_without_token(program_rule, mode) {
        1
    } else {
        MOST_FORMS + 1
    }
}

/// Returns the sizes of all bodies. The only error is an allocation failure.
pub fn body_sizes(alloc: Global, program: &Program) -> Result<Sizes, AllocError> {
    let mut list = Vec::with_capacity(alloc, program.rules.len().saturating_mul(3))?;
    'bodies: for program_rule in &program.rules {
        list.push(first_size(program_rule, Atomicity::NonAtomic))?;
        list.push(first_size(program_rule, Atomicity::Atomic))?;
        list.push(first_size(program_rule, Atomicity::CompoundAtomic))?;
    }
    let mut sizes = Sizes { list };
    'rounds: for _ in 0..MOST_INSIDE {
        if !sizes.count_all(program) {
            return Ok(sizes);
        }
    }
    Ok(sizes)
}
