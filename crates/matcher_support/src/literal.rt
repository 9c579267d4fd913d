//! Texts between quotes.
ghost use Rattle.std.specs.Prelude.{Some, encode_utf8_all};
ghost use Rattle.std.specs.Str.{chars};
ghost use Rattle.base_ast.specs.Printing.{literal};

use base_ast::printing::fmt_literal;
use std::fmt;

/// A text that is printed in quotes, as a literal of a grammar is written. Quotes and backslashes
/// are escaped by a backslash. Control characters are printed as a letter or a number after a
/// backslash, as Rust's `Debug` prints them.
#[derive(Clone, Copy, Debug)]
pub struct Literal<'a>(pub &'a str);

impl fmt::Display for Literal<'_> {
    ghost output = { λ l. Some (encode_utf8_all (literal 34 (chars l.0.now))) };

    fn fmt<W: fmt::Write>(&self, f: &mut fmt::Formatter<W>) -> fmt::Result {
        fmt_literal(f, self.0, '"')
    }
}
