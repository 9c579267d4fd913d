//! The builtins, by name.
ghost use Rattle.std.specs.Prelude.{◌≡◌, IfNone, IfSome, chars, false, map};
ghost use Rattle.base_language.specs.Language.Builtins.{builtins, is_one_of};
ghost use Rattle.front_names.specs.Builtins.{begins_with_capital, builtin_names, changes_stack, entry_of, is_nullable, meaning_of, name_of};

use crate::char_set::CharSet;

/// A builtin other than a property name.
#[derive(Clone, Copy, Debug, PartialEq, Eq)]
pub enum Builtin {
    /// One character of a set.
    Set(CharSet),
    /// The start of the text.
    Soi,
    /// The end of the text.
    Eoi,
    /// A line break: `\n`, `\r\n` or `\r`.
    Newline,
    /// The text of the top entry of the stack.
    Peek,
    /// The text of the top entry, which is removed.
    Pop,
    /// The removal of the top entry.
    Drop,
    /// The texts of all entries, from the top to the bottom.
    PeekAll,
    /// The texts of all entries, which are removed.
    PopAll,
}

/// The builtins, in the order of the language's list.
static BUILTINS: [Builtin; 19] = [
    Builtin::Set(CharSet::Any),
    Builtin::Soi,
    Builtin::Eoi,
    Builtin::Peek,
    Builtin::Pop,
    Builtin::Drop,
    Builtin::PeekAll,
    Builtin::PopAll,
    Builtin::Newline,
    Builtin::Set(CharSet::AsciiDigit),
    Builtin::Set(CharSet::AsciiNonzeroDigit),
    Builtin::Set(CharSet::AsciiBinDigit),
    Builtin::Set(CharSet::AsciiOctDigit),
    Builtin::Set(CharSet::AsciiHexDigit),
    Builtin::Set(CharSet::AsciiAlphaLower),
    Builtin::Set(CharSet::AsciiAlphaUpper),
    Builtin::Set(CharSet::AsciiAlpha),
    Builtin::Set(CharSet::AsciiAlphanumeric),
    Builtin::Set(CharSet::Ascii),
];

impl Builtin {
    /// Returns all builtins, in the order of the language's list.
    pub fn all() -> &'static [Builtin]
        ensures { map entry_of result.now ≡ builtins }
    {
        &BUILTINS
    }

    /// Returns the builtin of a name, or `None` if no builtin but perhaps a property has it.
    pub fn from_name(name: &str) -> Option<Builtin>
        ensures written { IfSome result (λ builtin. name.now ≡ name_of builtin) }
        ensures named { IfSome result (λ builtin. chars name.now ≡ name_of builtin) }
        ensures unwritten { IfNone result (is_one_of builtin_names name.now ≡ false) }
        ensures unnamed { IfNone result (is_one_of builtin_names (chars name.now) ≡ false) }
    {
        if !begins_with_capital(name) {
            return None;
        }
        for builtin in Builtin::all() {
            if builtin.name() == name {
                return Some(*builtin);
            }
        }
        None
    }

    /// Returns the name.
    pub fn name(self) -> &'static str
        ensures { result.now ≡ name_of self }
    {
        match self {
            Builtin::Set(set) => set.name(),
            Builtin::Soi => "SOI",
            Builtin::Eoi => "EOI",
            Builtin::Newline => "NEWLINE",
            Builtin::Peek => "PEEK",
            Builtin::Pop => "POP",
            Builtin::Drop => "DROP",
            Builtin::PeekAll => "PEEK_ALL",
            Builtin::PopAll => "POP_ALL",
        }
    }

    /// Returns whether the builtin counts as one that takes no character. `PEEK` and its like do not: what
    /// they take is known only in a run.
    pub fn is_nullable(self) -> bool
        ensures { result ≡ is_nullable (meaning_of self) }
    {
        match self {
            Builtin::Soi | Builtin::Eoi => true,
            Builtin::Set(_)
            | Builtin::Newline
            | Builtin::Peek
            | Builtin::Pop
            | Builtin::Drop
            | Builtin::PeekAll
            | Builtin::PopAll => false,
        }
    }

    /// Returns whether the builtin removes entries of the stack.
    pub fn changes_stack(self) -> bool
        ensures { result ≡ changes_stack (meaning_of self) }
    {
        match self {
            Builtin::Pop | Builtin::Drop | Builtin::PopAll => true,
            Builtin::Set(_)
            | Builtin::Soi
            | Builtin::Eoi
            | Builtin::Newline
            | Builtin::Peek
            | Builtin::PeekAll => false,
        }
    }
}

/// Reports whether a name begins with a capital letter of ASCII, as the names of all builtins do.
fn begins_with_capital(name: &str) -> bool
    ensures { result ≡ begins_with_capital name.now }
{
    match name.as_bytes().first() {
        Some(first) => b'A' <= *first && *first <= b'Z',
        None => false,
    }
}
