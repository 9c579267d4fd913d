//! Modes of rules: in which a rule's body runs, and which rules give tokens.
ghost use Rattle.std.specs.Prelude.{◌≡◌};
ghost use Rattle.base_ast.specs.Ast.{rule_type_of};
ghost use Rattle.base_language.specs.Language.Meaning.{gives_token, mode_in, seen_from};
ghost use Rattle.matcher_sets.specs.Modes.{mode_of};

use base_ast::ast::RuleType;
use matcher_program::form::ProgramRule;

/// The atomicity.
#[derive(Clone, Copy)]
pub enum Atomicity {
    NonAtomic,
    Atomic,
    CompoundAtomic,
}

/// Whether a mode sees the tokens of normal and atomic rules.
pub fn is_seen_from(mode: Atomicity) -> bool
    ensures { result ≡ seen_from (mode_of mode) }
{
    !matches!(mode, Atomicity::Atomic)
}

/// Whether a rule of a kind gives a token to a caller's mode.
pub fn gives_token(kind: RuleType, mode: Atomicity) -> bool
    ensures { result ≡ gives_token (rule_type_of kind) (mode_of mode) }
{
    match kind {
        RuleType::Normal | RuleType::Atomic => is_seen_from(mode),
        RuleType::CompoundAtomic | RuleType::NonAtomic => true,
        RuleType::Silent => false,
    }
}

/// Returns the mode in which the body of a rule is run.
pub fn body_mode(kind: RuleType, blank: bool, mode: Atomicity) -> Atomicity
    ensures { mode_of result ≡ mode_in (rule_type_of kind) blank (mode_of mode) }
{
    match kind {
        RuleType::Atomic => Atomicity::Atomic,
        RuleType::CompoundAtomic => Atomicity::CompoundAtomic,
        RuleType::NonAtomic => {
            if blank {
                Atomicity::Atomic
            } else {
                Atomicity::NonAtomic
            }
        }
        RuleType::Normal | RuleType::Silent => { if blank { Atomicity::Atomic } else { mode } }
    }
}

/// Returns whether the body of a rule is run in a mode, whatever its caller's mode is.
pub(crate) fn has_body_in(program_rule: &ProgramRule, mode: Atomicity) -> bool {
    match mode {
        Atomicity::NonAtomic => {
            matches!(
                body_mode(program_rule.kind, program_rule.blank, mode),
                Atomicity::NonAtomic
            )
        }
        Atomicity::Atomic => {
            matches!(
                body_mode(program_rule.kind, program_rule.blank, mode),
                Atomicity::Atomic
            )
        }
        Atomicity::CompoundAtomic => {
            matches!(
                body_mode(program_rule.kind, program_rule.blank, mode),
                Atomicity::CompoundAtomic
            )
        }
    }
}
