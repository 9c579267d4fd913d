//! What can be wrong with rules.
ghost use Rattle.std.specs.Prelude.{◌≡◌, IfNone, IfOk, IfSome, false, string_bytes, true};
ghost use Rattle.base_ast.specs.Ast.{text_of};
ghost use Rattle.front_validator.specs.Findings.{is_skipped_name};
ghost use Rattle.front_validator.specs.Problems as spec;
ghost use Rattle.front_validator.specs.Reporting.{finding_of};

use base_language::runtime::Span;
use front_analysis::is_literal;
use front_names::{
    arrow, cannot_fail, comment_name, left_recursion, non_progressing, repeated_expression,
    tag_on_builtin, tag_on_silent_rule, unreachable_choices, whitespace_name,
};
use std::alloc::{AllocError, Global};

/// What is repeated without end.
#[derive(Clone, Copy, Debug, PartialEq, Eq)]
pub enum LoopBody {
    /// The operand of a repetition.
    Expression,
    /// The body of the rule `WHITESPACE`.
    Whitespace,
    /// The body of the rule `COMMENT`.
    Comment,
}

impl LoopBody {
    /// Returns the subject of messages about it: the name of a rule that is skipped, or else what it is.
    pub fn subject(self) -> &'static str
        ensures { result.now ≡ spec.subject self }
    {
        match self {
            LoopBody::Expression => repeated_expression(),
            LoopBody::Whitespace => whitespace_name(),
            LoopBody::Comment => comment_name(),
        }
    }

    /// Returns the body of the rule of a name, if such rules are skipped.
    pub(crate) fn of_rule(name: &String) -> Option<LoopBody>
        ensures subject { IfSome result (λ body. spec.subject body ≡ string_bytes name.now) }
        ensures some { IfSome result (λ body. is_skipped_name (text_of name.now) ≡ true) }
        ensures none { IfNone result (is_skipped_name (text_of name.now) ≡ false) }
    {
        if is_literal(name, whitespace_name()) {
            return Some(LoopBody::Whitespace);
        }
        if is_literal(name, comment_name()) {
            return Some(LoopBody::Comment);
        }
        None
    }
}

/// What is wrong with a rule.
#[derive(Debug, Drop)]
pub enum RuleProblem {
    /// This is repeated and always succeeds, so that the repetition never ends.
    CannotFail(LoopBody),
    /// This is repeated and may take nothing, so that the repetition may never end.
    NonProgressing(LoopBody),
    /// An alternative always succeeds, so that those after it are never tried.
    UnreachableChoices,
    /// A rule comes back to itself before it takes anything, by calls of the rules of these names; the last
    /// is the first again.
    LeftRecursion(Vec<String>),
    /// A call of a Silent rule has a tag.
    TagOnSilentRule,
    /// A call of a builtin has a tag.
    TagOnBuiltin,
}

impl RuleProblem {
    /// Returns the message about a piece of a text that is written like this. The only error is an allocation
    /// failure.
    pub fn message(&self, alloc: Global, written: &str) -> Result<String, AllocError>
        ensures { IfOk result (λ message. string_bytes message ≡ spec.message_of self.now written.now) }
    {
        match self {
            RuleProblem::CannotFail(body) => cannot_fail(alloc, body.subject()),
            RuleProblem::NonProgressing(body) => non_progressing(alloc, body.subject()),
            RuleProblem::UnreachableChoices => String::from_str(alloc, unreachable_choices()),
            RuleProblem::LeftRecursion(names) => {
                let cycle = names.join(alloc, arrow())?;
                left_recursion(alloc, written, cycle.as_str())
            }
            RuleProblem::TagOnSilentRule => String::from_str(alloc, tag_on_silent_rule()),
            RuleProblem::TagOnBuiltin => String::from_str(alloc, tag_on_builtin()),
        }
    }
}

/// A finding in rules, and the span of the piece that is wrong.
#[derive(Drop)]
pub struct RuleFinding<'i> {
    pub problem: RuleProblem,
    pub span: Span<'i>,
}

impl RuleFinding<'_> {
    /// Returns the message. The only error is an allocation failure.
    pub fn message(&self, alloc: Global) -> Result<String, AllocError>
        ensures { IfOk result (λ message. string_bytes message ≡ (finding_of self.now).message) }
    {
        self.problem.message(alloc, self.span.as_str())
    }
}
