//! Texts as literals, what expressions without parts print, and expressions piece by piece.
pub(crate) mod pieces;

ghost use Rattle.std.specs.Prelude.{◌≡◌, ◌≢◌, ◌<◌, ◌∷◌, ◌++◌, IfNone, IfSome, ℕ, [], codes, cond, encode_utf8_all};
ghost use Rattle.std.specs.Fmt.{WritesOnOk};
ghost use Rattle.std.specs.Str.{chars};
ghost use Rattle.base_ast.specs.Printing.{bound_literal, escaped, is_control, literal, numbered};
ghost use Rattle.base_ast.specs.PrintedBytes.{alternatives_bytes, counts_bytes, range_bytes, skip_bytes, slice_bytes};

use std::fmt;

/// Writes a text as a literal: between two quotes `quote`, which is `"` or `'`.
///
/// Escaped are the quote itself by a backslash, a backslash, the characters of `\0`, `\t`, `\n` and `\r` by
/// those, and U+2028, U+2029 and the other control characters by their number, as `\u{1f}`, in two digits
/// or more of lower case. The other quote and all else are written unchanged.
pub fn fmt_literal<W: fmt::Write>(f: &mut fmt::Formatter<W>, text: &str, quote: char) -> fmt::Result
    ensures { WritesOnOk W.write_str_gives f.old result
        (encode_utf8_all (literal quote (chars text.now))) f.new }
{
    f.write_char(quote)?;
    for c in text.chars() {
        fmt_escaped(f, c, quote)?;
    }
    f.write_char(quote)
}

// Writes a character of a literal.
fn fmt_escaped<W: fmt::Write>(f: &mut fmt::Formatter<W>, c: char, quote: char) -> fmt::Result
    ensures { WritesOnOk W.write_str_gives f.old result (encode_utf8_all (escaped quote c)) f.new }
{
    if c == quote {
        f.write_str("\\")?;
        return f.write_char(c);
    }
    if let Some(text) = escape_of(c) {
        return f.write_str(text);
    }
    match c {
        '\u{1}'..='\u{1f}' | '\u{7f}'..='\u{9f}' => fmt_numbered(f, c),
        _ => f.write_char(c),
    }
}

// Returns the escape of a character that has one of its own.
fn escape_of(c: char) -> Option<&'static str>
    ensures some { IfSome result (λ text.
        (quote : ℕ) → c ≢ quote → text.now ≡ encode_utf8_all (escaped quote c)) }
    ensures none { IfNone result ((quote : ℕ) → c ≢ quote
        → escaped quote c ≡ cond (is_control c) (numbered c) (c ∷ [])) }
{
    match c {
        '\0' => Some("\\0"),
        '\t' => Some("\\t"),
        '\n' => Some("\\n"),
        '\r' => Some("\\r"),
        '\\' => Some("\\\\"),
        '\u{2028}' => Some("\\u{2028}"),
        '\u{2029}' => Some("\\u{2029}"),
        _ => None,
    }
}

// Writes a character below U+0100 by its number.
fn fmt_numbered<W: fmt::Write>(f: &mut fmt::Formatter<W>, c: char) -> fmt::Result
    requires { c < 256 }
    ensures { WritesOnOk W.write_str_gives f.old result (encode_utf8_all (numbered c)) f.new }
{
    write!(f, "\\u{{{:02x}}}", u32::from(c))
}

// Writes a text that is matched up to the case of its letters: `^"a"`.
pub(crate) fn fmt_insensitive<W: fmt::Write>(f: &mut fmt::Formatter<W>, text: &str) -> fmt::Result
    ensures { WritesOnOk W.write_str_gives f.old result
        (codes "^" ++ encode_utf8_all (literal 34 (chars text.now))) f.new }
{
    f.write_str("^")?;
    fmt_literal(f, text, '"')
}

/// How often something is repeated.
#[derive(Clone, Copy)]
pub(crate) enum Counts {
    Exactly(u32),
    AtLeast(u32),
    AtMost(u32),
    Between(u32, u32),
}

// Writes how often something is repeated: `{2}`, `{2,}`, `{,2}` or `{2, 3}`.
pub(crate) fn fmt_counts<W: fmt::Write>(f: &mut fmt::Formatter<W>, counts: Counts) -> fmt::Result
    ensures { WritesOnOk W.write_str_gives f.old result (counts_bytes counts) f.new }
{
    match counts {
        Counts::Exactly(count) => write!(f, "{{{count}}}"),
        Counts::AtLeast(least) => write!(f, "{{{least},}}"),
        Counts::AtMost(greatest) => write!(f, "{{,{greatest}}}"),
        Counts::Between(least, greatest) => write!(f, "{{{least}, {greatest}}}"),
    }
}

// Writes a range: `('a'..'z')`.
pub(crate) fn fmt_range<W: fmt::Write>(
    f: &mut fmt::Formatter<W>,
    low: &str,
    high: &str,
) -> fmt::Result
    ensures { WritesOnOk W.write_str_gives f.old result (range_bytes (chars low.now) (chars high.now)) f.new }
{
    f.write_str("(")?;
    fmt_bound(f, low)?;
    f.write_str("..")?;
    fmt_bound(f, high)?;
    f.write_str(")")
}

// Writes the first character of a range's bound as a literal; of an empty one the quotes alone.
fn fmt_bound<W: fmt::Write>(f: &mut fmt::Formatter<W>, text: &str) -> fmt::Result
    ensures { WritesOnOk W.write_str_gives f.old result
        (encode_utf8_all (bound_literal (chars text.now))) f.new }
{
    match text.chars().next() {
        Some(c) => {
            f.write_str("'")?;
            fmt_escaped(f, c, '\'')?;
            f.write_str("'")
        }
        None => f.write_str("''"),
    }
}

// Writes a slice of the stack: `PEEK[0..-1]`, or `PEEK[0..]`.
pub(crate) fn fmt_slice<W: fmt::Write>(
    f: &mut fmt::Formatter<W>,
    start: i32,
    end: Option<i32>,
) -> fmt::Result
    ensures { WritesOnOk W.write_str_gives f.old result (slice_bytes start end) f.new }
{
    write!(f, "PEEK[{start}..")?;
    if let Some(end) = end {
        write!(f, "{end}")?;
    }
    f.write_str("]")
}

// Writes the search for one of the texts: `(!("a" | "bc") ~ ANY)*`.
pub(crate) fn fmt_skip<W: fmt::Write>(f: &mut fmt::Formatter<W>, texts: &[String]) -> fmt::Result
    ensures { WritesOnOk W.write_str_gives f.old result (skip_bytes texts.now) f.new }
{
    f.write_str("(!(")?;
    fmt_alternatives(f, texts)?;
    f.write_str(") ~ ANY)*")
}

// Writes a push of a literal: `PUSH_LITERAL("a")`.
pub(crate) fn fmt_push_literal<W: fmt::Write>(f: &mut fmt::Formatter<W>, text: &str) -> fmt::Result
    ensures { WritesOnOk W.write_str_gives f.old result
        (codes "PUSH_LITERAL(" ++ encode_utf8_all (literal 34 (chars text.now)) ++ codes ")") f.new }
{
    f.write_str("PUSH_LITERAL(")?;
    fmt_literal(f, text, '"')?;
    f.write_str(")")
}

// Writes texts as literals with bars between them.
fn fmt_alternatives<W: fmt::Write>(f: &mut fmt::Formatter<W>, texts: &[String]) -> fmt::Result
    ensures { WritesOnOk W.write_str_gives f.old result (alternatives_bytes texts.now) f.new }
{
    let Some((first, others)) = texts.split_first() else {
        return Ok(());
    };
    fmt_literal(f, first.as_str(), '"')?;
    for text in others {
        f.write_str(" | ")?;
        fmt_literal(f, text.as_str(), '"')?;
    }
    Ok(())
}
