//! The sets of characters that have a name.
ghost use Rattle.std.specs.Prelude.{◌≡◌};
ghost use Rattle.front_names.specs.CharSets.{has_character, set_name};

/// A set of characters. The builtin of its name matches one of them.
#[derive(Clone, Copy, Debug, PartialEq, Eq)]
pub enum CharSet {
    /// All characters.
    Any,
    /// `0` to `9`.
    AsciiDigit,
    /// `1` to `9`.
    AsciiNonzeroDigit,
    /// `0` and `1`.
    AsciiBinDigit,
    /// `0` to `7`.
    AsciiOctDigit,
    /// `0` to `9`, `a` to `f` and `A` to `F`.
    AsciiHexDigit,
    /// `a` to `z`.
    AsciiAlphaLower,
    /// `A` to `Z`.
    AsciiAlphaUpper,
    /// `a` to `z` and `A` to `Z`.
    AsciiAlpha,
    /// `a` to `z`, `A` to `Z` and `0` to `9`.
    AsciiAlphanumeric,
    /// The characters below U+0080.
    Ascii,
}

impl CharSet {
    /// Returns the name of the builtin that matches one character of the set.
    pub fn name(self) -> &'static str
        ensures { result.now ≡ set_name self }
    {
        match self {
            CharSet::Any => "ANY",
            CharSet::AsciiDigit => "ASCII_DIGIT",
            CharSet::AsciiNonzeroDigit => "ASCII_NONZERO_DIGIT",
            CharSet::AsciiBinDigit => "ASCII_BIN_DIGIT",
            CharSet::AsciiOctDigit => "ASCII_OCT_DIGIT",
            CharSet::AsciiHexDigit => "ASCII_HEX_DIGIT",
            CharSet::AsciiAlphaLower => "ASCII_ALPHA_LOWER",
            CharSet::AsciiAlphaUpper => "ASCII_ALPHA_UPPER",
            CharSet::AsciiAlpha => "ASCII_ALPHA",
            CharSet::AsciiAlphanumeric => "ASCII_ALPHANUMERIC",
            CharSet::Ascii => "ASCII",
        }
    }

    /// Returns whether the set has a character.
    pub fn contains(self, c: char) -> bool
        ensures { result ≡ has_character self c }
    {
        match self {
            CharSet::Any => true,
            CharSet::AsciiDigit => '0' <= c && c <= '9',
            CharSet::AsciiNonzeroDigit => '1' <= c && c <= '9',
            CharSet::AsciiBinDigit => '0' <= c && c <= '1',
            CharSet::AsciiOctDigit => '0' <= c && c <= '7',
            CharSet::AsciiHexDigit => {
                '0' <= c && c <= '9' || ('a' <= c && c <= 'f' || 'A' <= c && c <= 'F')
            }
            CharSet::AsciiAlphaLower => 'a' <= c && c <= 'z',
            CharSet::AsciiAlphaUpper => 'A' <= c && c <= 'Z',
            CharSet::AsciiAlpha => 'A' <= c && c <= 'Z' || 'a' <= c && c <= 'z',
            CharSet::AsciiAlphanumeric => {
                'A' <= c && c <= 'Z' || 'a' <= c && c <= 'z' || '0' <= c && c <= '9'
            }
            CharSet::Ascii => c <= '\x7f',
        }
    }
}
