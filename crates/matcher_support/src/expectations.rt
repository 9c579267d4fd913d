//! Messages on what is expected in a text.
ghost use Rattle.std.specs.Prelude.{◌≡◌, ◌==◌, ◌++◌, IfOk, OnOk, encode_utf8_all, length, string_bytes};
ghost use Rattle.std.specs.Str.{chars};
ghost use Rattle.matcher_program.specs.ExpectedNames.{name_texts};
ghost use Rattle.matcher_support.specs.Expectations.{failure_message, list_text, name_separator, other_names};

use std::alloc::{AllocError, Global};

/// Returns pest's message for a position at which the rules with the names `names` are expected.
/// The only error is an allocation failure.
pub fn failure_message(alloc: Global, names: &[&str]) -> Result<String, AllocError>
    ensures { IfOk result (λ message. string_bytes message ≡ failure_message (name_texts names.now)) }
{
    if names.is_empty() {
        return String::from_str(alloc, "unknown parsing error");
    }
    let mut message = String::from_str(alloc, "expected ")?;
    add_names(&mut message, names)?;
    Ok(message)
}

/// Appends `names` to `message` in the form `a`, `a or b`, or `a, b, or c`. The only error is an
/// allocation failure.
pub fn add_names(message: &mut String, names: &[&str]) -> Result<(), AllocError>
    ensures { OnOk result (string_bytes message.new
        ≡ string_bytes message.old ++ list_text (name_texts names.now)) }
{
    let Some((first, others)) = names.split_first() else {
        return Ok(());
    };
    add_name(message, "", first)?;
    add_others(message, others)
}

/// Adds a separator and a name.
fn add_name(message: &mut String, before: &str, name: &str) -> Result<(), AllocError>
    ensures { OnOk result (string_bytes message.new
        ≡ string_bytes message.old ++ before.now ++ encode_utf8_all (chars name.now)) }
{
    message.push_str(before)?;
    message.push_str(name)
}

/// Returns the separator before a name that is not the first.
fn name_separator(of_two: bool, last: bool) -> &'static str
    ensures { result.now ≡ name_separator of_two last }
{
    match (of_two, last) {
        (_, false) => ", ",
        (true, true) => " or ",
        (false, true) => ", or ",
    }
}

/// Adds the names after the first one.
fn add_others(message: &mut String, names: &[&str]) -> Result<(), AllocError>
    ensures { OnOk result (string_bytes message.new
        ≡ string_bytes message.old ++ other_names (length names.now == 1) (name_texts names.now)) }
{
    let of_two = names.len() == 1;
    let mut following = names.len();
    for name in names {
        following -= 1;
        add_name(message, name_separator(of_two, following == 0), name)?;
    }
    Ok(())
}
