//! Helps for codes.
use crate::codes::{Code, Severity};
use crate::facts::facts_of;
use lint_hints::{Help, pest_property_text};
use lint_warnings::is_blank_name_in_any_case;
use std::alloc::{AllocError, Global};

/// The help for a code about a part of the text, which may be the same as one before it; none for a syntax
/// error or an undefined name.
pub(crate) fn listed_help(
    alloc: Global,
    code: Code,
    about: &str,
    is_repeat: bool,
) -> Result<Option<Help>, AllocError> {
    help_of(alloc, help_text(code, about, is_repeat))
}

/// The help of this text, if there is one.
pub(crate) fn help_of(
    alloc: Global,
    text: Option<&'static str>,
) -> Result<Option<Help>, AllocError> {
    match text {
        None => Ok(None),
        Some(text) => Ok(Some(Help::new(alloc, text)?)),
    }
}

/// The text of such a help: if it depends on more than the code, and otherwise that of the code's facts.
fn help_text(code: Code, about: &str, is_repeat: bool) -> Option<&'static str> {
    match code {
        Code::MissingProperty => Some(pest_property_text()),
        Code::UncalledRule => Some(uncalled_text(about)),
        Code::Unreachable => Some(unreachable_text(is_repeat)),
        Code::IdleTest => Some(idle_text(about)),
        Code::NeverMatches => Some(never_text(about)),
        Code::BuiltinName => Some(builtin_text(about)),
        _ => facts_of(code).help,
    }
}

/// The help for a rule of this name that no other calls.
fn uncalled_text(name: &str) -> &'static str {
    if is_blank_name_in_any_case(name) {
        "the rules for implicit whitespace are named in capitals"
    } else {
        "if this is an entry point, declare it: `//! pest-lint: start(NAME)`"
    }
}

/// The help for an alternative that is never taken, which may be the same as one before it.
fn unreachable_text(is_repeat: bool) -> &'static str {
    if is_repeat {
        "remove this alternative: it stands twice"
    } else {
        "put the longer alternative first"
    }
}

/// The help for this test or option of an expression that cannot fail.
fn idle_text(test: &str) -> &'static str {
    if test.starts_with('&') {
        "what `&` tests cannot fail: test one turn, as `&e`, or remove it"
    } else if test.ends_with("*?") {
        "no repetition is lazy: write `(!end ~ ANY)*` for what is before an end"
    } else {
        "remove this `?`: its operand is optional already"
    }
}

/// The help for this expression, which never matches.
fn never_text(expression: &str) -> &'static str {
    if expression.starts_with('!') {
        "the operand of `!` cannot fail, so `!` always does"
    } else if repeats_once(expression) {
        "`ANY+` takes the whole rest of the text: write `(!end ~ ANY)+` for what is before an end"
    } else {
        "`ANY*` takes the whole rest of the text: write `(!end ~ ANY)*` for what is before an end"
    }
}

/// Whether an expression has `ANY+`, and no `ANY*` before it.
fn repeats_once(expression: &str) -> bool {
    match expression.split_once("ANY+") {
        Some((before, _)) => !before.contains("ANY*"),
        None => false,
    }
}

/// The help for a rule of this name, which a builtin has, or had in pest 1.
fn builtin_text(name: &str) -> &'static str {
    if is_small(name) {
        "this is a rule like others: the builtin's name is in capitals since pest 2"
    } else {
        "the rule takes the builtin's place"
    }
}

/// The help for an allowance of a code that allows nothing, or that does not count.
pub(crate) fn allowance_help(
    alloc: Global,
    allowed: Option<Code>,
    is_counted: bool,
) -> Result<Option<Help>, AllocError> {
    let text = if is_counted {
        allowance_text(allowed)
    } else {
        "of such comments the first 256 of a text count"
    };
    Ok(Some(Help::new(alloc, text)?))
}

/// The help for an allowance that allows nothing.
fn allowance_text(allowed: Option<Code>) -> &'static str {
    match allowed.map(|code| code.severity()) {
        Some(Severity::Warning) => "remove the comment",
        Some(Severity::Error) => "errors cannot be allowed; fix it",
        None => "name the code of a warning, as `// pest-lint: allow(pest::idle_test)`",
    }
}

/// Whether a name begins with a small letter.
fn is_small(name: &str) -> bool {
    name.as_bytes()
        .first()
        .copied()
        .unwrap_or(0)
        .is_ascii_lowercase()
}
