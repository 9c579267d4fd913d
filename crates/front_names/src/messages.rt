//! The messages of errors in the names and the rules of a grammar.

ghost use Rattle.std.specs.Prelude.{◌≡◌, IfOk, string_bytes};
ghost use Rattle.front_names.specs.Messages as spec;

use std::alloc::{AllocError, Global};

/// What is wrong with a name.
#[derive(Clone, Copy, Debug, PartialEq, Eq)]
pub enum NameProblem {
    /// A rule has a name that Rust reserves.
    RustKeyword,
    /// A rule has a name that pest reserves.
    PestKeyword,
    /// A rule has the name of an earlier one.
    AlreadyDefined,
    /// A call's name is neither a rule's nor a builtin's.
    Undefined,
}

impl NameProblem {
    /// Returns the message about a name. The only error is an allocation failure.
    pub fn message(self, alloc: Global, name: &str) -> Result<String, AllocError>
        ensures { IfOk result (λ message. string_bytes message ≡ spec.about self name.now) }
    {
        let prefix = self.prefix();
        let suffix = self.suffix();
        format!(in alloc; "{prefix}{name}{suffix}")
    }

    /// Returns the text before the name.
    fn prefix(self) -> &'static str
        ensures { result.now ≡ spec.prefix self }
    {
        match self {
            NameProblem::AlreadyDefined | NameProblem::Undefined => "rule ",
            NameProblem::RustKeyword | NameProblem::PestKeyword => "",
        }
    }

    /// Returns the text after the name.
    fn suffix(self) -> &'static str
        ensures { result.now ≡ spec.suffix self }
    {
        match self {
            NameProblem::RustKeyword => " is a rust keyword",
            NameProblem::PestKeyword => " is a pest keyword",
            NameProblem::AlreadyDefined => " already defined",
            NameProblem::Undefined => " is undefined",
        }
    }
}

/// Returns the message about a repetition that never ends, since what it repeats always succeeds. The
/// subject says what it repeats. The only error is an allocation failure.
pub fn cannot_fail(alloc: Global, subject: &str) -> Result<String, AllocError>
    ensures { IfOk result (λ message. string_bytes message ≡ spec.cannot_fail subject.now) }
{
    format!(in alloc; "{subject} cannot fail and will repeat infinitely")
}

/// Returns the message about a repetition that may never end, since what it repeats may take nothing. The
/// subject says what it repeats. The only error is an allocation failure.
pub fn non_progressing(alloc: Global, subject: &str) -> Result<String, AllocError>
    ensures { IfOk result (λ message. string_bytes message ≡ spec.non_progressing subject.now) }
{
    format!(in alloc; "{subject} is non-progressing and will repeat infinitely")
}

/// Returns the subject of messages about the body of a repetition.
pub fn repeated_expression() -> &'static str
    ensures { result.now ≡ spec.repeated_expression }
{
    "expression inside repetition"
}

/// Returns the message about an alternative that always succeeds, so that those after it are never tried.
pub fn unreachable_choices() -> &'static str
    ensures { result.now ≡ spec.unreachable_choices }
{
    "expression cannot fail; following choices cannot be reached"
}

/// Returns the message about a tag on a call of a Silent rule.
pub fn tag_on_silent_rule() -> &'static str
    ensures { result.now ≡ spec.tag_on_silent_rule }
{
    "tags on silent rules will not appear in the output"
}

/// Returns the message about a tag on a call of a builtin.
pub fn tag_on_builtin() -> &'static str
    ensures { result.now ≡ spec.tag_on_builtin }
{
    "tags on built-in rules will not appear in the output"
}

/// Returns what separates the names of a cycle of calls.
pub fn arrow() -> &'static str
    ensures { result.now ≡ spec.arrow }
{
    " -> "
}

/// Returns the message about left recursion: `call` is the name of a rule that comes back to itself, `cycle`
/// the names of the rules on the way, as `a -> b -> a`. The only error is an allocation failure.
pub fn left_recursion(alloc: Global, call: &str, cycle: &str) -> Result<String, AllocError>
    ensures { IfOk result (λ message. string_bytes message ≡ spec.left_recursion call.now cycle.now) }
{
    format!(in alloc;
        "rule {call} is left-recursive ({cycle}); pest::pratt_parser might be useful in this case"
    )
}
