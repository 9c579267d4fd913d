//! The ends of the line of a position.
ghost use Rattle.std.specs.Prelude.{◌≡◌};
ghost use Rattle.base_language.specs.Pieces.LineColumn.{first_line, last_line};

/// Returns the suffix of `text` after its last `\n`, or all of it if there is none.
pub(crate) fn last_line(text: &str) -> &str
    ensures { result.now ≡ last_line text.now }
{
    match text.rfind('\n') {
        Some(i) => &text[i + 1..],
        None => text,
    }
}

/// Returns the prefix of `text` before its first `\n`, or all of it if there is none.
pub(crate) fn first_line(text: &str) -> &str
    ensures { result.now ≡ first_line text.now }
{
    match text.split_once('\n') {
        Some((line, _)) => line,
        None => text,
    }
}
