//! Whether text is in colours.
ghost use Rattle.std.specs.Prelude.{◌≡◌, ◌≢◌, Some, codes, false, true};
ghost use Rattle.pest_lint.specs.Colours.{has_value, is_colourful, is_dumb, value_of};

/// Whether text is in colours, by the value of `--color`, and by the variables TERM and NO_COLOR: as the
/// command line says, or else on a terminal, unless TERM is `dumb` or NO_COLOR has a value.
pub fn is_coloured(
    choice: Option<&str>,
    is_terminal: bool,
    term: Option<&str>,
    no_color: Option<&str>,
) -> bool
    ensures always { value_of choice.entry ≡ Some (codes "always") → result ≡ true }
    ensures never { value_of choice.entry ≡ Some (codes "never") → result ≡ false }
    ensures unasked { value_of choice.entry ≢ Some (codes "always")
        → value_of choice.entry ≢ Some (codes "never")
        → result ≡ is_colourful is_terminal (value_of term.entry) (value_of no_color.entry) }
{
    match choice {
        Some("always") => true,
        Some("never") => false,
        _ => is_terminal && !is_dumb(term) && !has_value(no_color),
    }
}

/// Whether TERM names a terminal without colours.
fn is_dumb(term: Option<&str>) -> bool
    ensures { result ≡ is_dumb (value_of term.entry) }
{
    match term {
        Some(term) => term == "dumb",
        None => false,
    }
}

/// Whether a variable has a value that is not empty.
fn has_value(value: Option<&str>) -> bool
    ensures { result ≡ has_value (value_of value.entry) }
{
    match value {
        Some(value) => !value.is_empty(),
        None => false,
    }
}
