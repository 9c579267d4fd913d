//! The codes of diagnostics.
ghost use Rattle.std.specs.Prelude.{◌≡◌, ◌++◌, IfNone, IfSome, bytes_eq, true};
ghost use Rattle.lint_findings.specs.Codes as spec;
ghost use Rattle.lint_findings.specs.Codes.{IsUnknown, code_name, has_name, is_optional, message_of};
ghost use Rattle.lint_findings.specs.Codes.{severity_of};
ghost use Rattle.lint_findings.specs.Codes.{is_on_request, severity_as, severity_name};

use crate::facts::{all_facts, facts_of};

/// The severity of a diagnostic.
#[derive(Clone, Copy, Debug, PartialEq, Eq)]
pub enum Severity {
    /// The text is refused.
    Error,
    /// The text is accepted.
    Warning,
}

impl Severity {
    /// Its name.
    pub fn name(self) -> &'static str
        ensures { result.now ≡ severity_name self }
    {
        match self {
            Severity::Error => "error",
            Severity::Warning => "warning",
        }
    }
}

/// How diagnostics of a code are reported.
#[derive(Clone, Copy, Debug, PartialEq, Eq)]
pub enum Report {
    /// As errors.
    Error,
    /// As warnings.
    Warning,
    /// As warnings, but only if the caller asks for all warnings.
    OnRequest,
}

impl Report {
    /// Whether a text with such a diagnostic is refused.
    fn severity(self) -> Severity
        ensures { result ≡ severity_as self }
    {
        match self {
            Report::Error => Severity::Error,
            Report::Warning | Report::OnRequest => Severity::Warning,
        }
    }

    /// Whether it is reported only if all warnings are asked for.
    fn is_on_request(self) -> bool
        ensures { result ≡ is_on_request self }
    {
        match self {
            Report::OnRequest => true,
            Report::Error | Report::Warning => false,
        }
    }
}

/// The class of a diagnostic.
#[derive(Clone, Copy, Debug, PartialEq, Eq)]
pub enum Code {
    /// The text is no grammar.
    Syntax,
    /// An escape is no Unicode scalar value.
    EscapeValue,
    /// A number does not fit 32 bits.
    NumberRange,
    /// An expression is repeated zero times.
    ZeroRepetition,
    /// A rule has a name that pest keeps for itself.
    ReservedName,
    /// A rule is defined twice.
    DuplicateRule,
    /// A name is called that is not defined.
    UndefinedRule,
    /// A Unicode property is called that pest has and the front end has not.
    MissingProperty,
    /// A rule can call itself, directly or through other rules, before a character is consumed.
    LeftRecursion,
    /// A repetition may never end, since its body can match without consuming a character.
    EndlessRepetition,
    /// A choice has an alternative after one that cannot fail.
    UnreachableChoice,
    /// A tag is on a call that gives no token.
    TagWithoutToken,
    /// A comment allows no warning.
    UnusedAllowance,
    /// No other rule calls a rule.
    UncalledRule,
    /// A rule with which matching starts never asks for the end of the text.
    MissingEnd,
    /// A comment gives a start that is no rule.
    UnknownStart,
    /// An earlier alternative, a literal or a call, matches a prefix of every text that an
    /// alternative matches.
    Unreachable,
    /// A range matches nothing.
    ReversedRange,
    /// The first number of a counted repetition is greater than the last one.
    ReversedCount,
    /// The operand of a predicate or of an option cannot fail.
    IdleTest,
    /// An expression matches nowhere.
    NeverMatches,
    /// Blanks are skipped between the characters of a repetition.
    BlanksInToken,
    /// Counts multiply, so that very many copies of an expression are made.
    ManyCopies,
    /// An alternative is the same as one before it.
    RepeatedAlternative,
    /// The optimizer changes a list such that the rule may match more than it does as it is
    /// written.
    RewrittenList,
    /// A rule has the name of a keyword of Rust.
    KeywordName,
    /// A rule has the name of a builtin.
    BuiltinName,
    /// A rule has the type and the body of one before it.
    RepeatedBody,
    /// A rule reads pest's stack, so its matches may take exponential time.
    StackRead,
}

impl Code {
    /// Returns the name of the code, such as `pest::left_recursion`.
    pub fn name(self) -> &'static str
        ensures { result.now ≡ code_name self }
    {
        facts_of(self).name
    }

    /// Returns the code with the name `name`, which may be with or without `pest::`. Returns `None`
    /// if there is none.
    pub fn from_name(name: &str) -> Option<Code>
        ensures named { IfSome result (λ code. has_name code name.now ≡ true) }
        ensures unknown { IfNone result (IsUnknown name.now) }
    {
        for facts in all_facts() {
            if facts.code.has_name(name) {
                return Some(facts.code);
            }
        }
        None
    }

    /// Whether a name is that of the code, with or without `pest::`.
    fn has_name(self, name: &str) -> bool
        ensures { result ≡ has_name self name.now }
    {
        let full = self.name();
        full == name || is_short(full.as_bytes(), name.as_bytes())
    }

    /// Whether warnings of it are reported only if all are asked for.
    #[tactic(auto, unfolding(crate::specs::Codes::is_optional))]
    pub fn is_optional(self) -> bool
        ensures { result ≡ is_optional self }
    {
        facts_of(self).report.is_on_request()
    }

    /// Returns the severity of the diagnostics of the code. If it is `Severity::Error`, a text with
    /// such a diagnostic is refused.
    pub fn severity(self) -> Severity
        ensures { result ≡ severity_of self }
    {
        facts_of(self).report.severity()
    }

    /// Returns the message of the warnings of the code. For an error it is empty, since an error
    /// has a message of its own.
    pub fn message(self) -> &'static str
        ensures { result.now ≡ message_of self }
    {
        facts_of(self).message
    }

    /// Returns the page of the code: when it is reported, an example, and how to correct it.
    pub fn explanation(self) -> &'static str {
        facts_of(self).page
    }
}

/// Whether a name is that after `pest::` in a full one.
fn is_short(full: &[u8], name: &[u8]) -> bool
    ensures { result ≡ bytes_eq full.now (spec.pest ++ name.now) }
{
    match full.strip_prefix(b"pest::") {
        Some(rest) => rest == name,
        None => false,
    }
}
