//! Calls of rules that match one character.
ghost use Rattle.std.specs.Prelude.{◌≡◌, ◌<◌, IfOk, IfSome, get_or, length};
ghost use Rattle.base_ast.specs.Ast.{rule_type_of};
ghost use Rattle.base_language.specs.Language.Expression.{Silent};
ghost use Rattle.matcher_program.specs.Programs.{IsRuleOf, name_at, names_of};
ghost use Rattle.matcher_program.specs.declared.form.Form.TheVariants as form;
ghost use Rattle.matcher_sets.specs.Differences.{HasRanges};
ghost use Rattle.matcher_sets.specs.Forms.{IsBoundIn, IsSoundProgram, grammar_in};

use crate::difference::choice_ranges;
use base_ast::ast::RuleType;
use matcher_code::ranges::Ranges;
use matcher_program::form::{Form, Program, ProgramRule};
use std::alloc::{AllocError, Global};

/// Returns the ranges of the characters that a call of a silent rule matches, if its body is a choice of sets
/// of characters.
fn silent_ranges(
    alloc: Global,
    program: &Program,
    rule: usize,
    program_rule: &ProgramRule,
    body: &Form,
) -> Result<Option<Ranges>, AllocError>
    requires sound { IsSoundProgram program.now }
    requires within { rule < length program.now.rules.items }
    requires meant { IsRuleOf (grammar_in program.now)
        (name_at (names_of program.now.rules.items) rule) rule }
    requires is { program_rule.now ≡ get_or program.now.rules.items rule program_rule.now }
    requires kind { rule_type_of program_rule.now.kind ≡ Silent }
    requires body { body.now ≡ program_rule.now.body }
    ensures { IfOk result (λ made. IfSome made (λ ranges.
        HasRanges program.now (form.Call rule) ranges.items)) }
{
    let made = choice_ranges(alloc, program, body)?;
    match made {
        Some(ranges) => Ok(Some(ranges)),
        None => Ok(None),
    }
}

/// Returns the ranges of the characters that a call of a rule matches, if the rule is silent, and its body
/// is a choice of sets of characters.
fn call_ranges(alloc: Global, program: &Program, rule: usize) -> Result<Option<Ranges>, AllocError>
    requires sound { IsSoundProgram program.now }
    requires meant { IsRuleOf (grammar_in program.now)
        (name_at (names_of program.now.rules.items) rule) rule }
    ensures { IfOk result (λ made. IfSome made (λ ranges.
        HasRanges program.now (form.Call rule) ranges.items)) }
{
    match program.rules.get(rule) {
        Some(program_rule) => match program_rule.kind {
            RuleType::Silent => silent_ranges(
                alloc,
                program,
                rule,
                program_rule,
                &program_rule.body,
            ),
            _ => Ok(None),
        },
        None => Ok(None),
    }
}

/// Returns the ranges of the characters that a form matches, which is a choice of sets of characters, or
/// calls a silent rule whose body is one, or `None` if it is another form, or the ranges are too many.
pub fn character_ranges(
    alloc: Global,
    program: &Program,
    form: &Form,
) -> Result<Option<Ranges>, AllocError>
    requires sound { IsSoundProgram program.now }
    requires bound { IsBoundIn program.now form.now }
    ensures { IfOk result (λ made. IfSome made (λ ranges. HasRanges program.now form.now ranges.items)) }
{
    match form {
        Form::Call(rule) => call_ranges(alloc, program, *rule),
        _ => choice_ranges(alloc, program, form),
    }
}
