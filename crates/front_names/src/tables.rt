//! The tables of names.
ghost use Rattle.std.specs.Prelude.{◌≡◌, chars, map};
ghost use Rattle.std.specs.Str.{IsAscii};
ghost use Rattle.base_language.specs.Language.Builtins.{is_one_of, property_names};
ghost use Rattle.base_language.specs.Language.Expression.{comment, whitespace};
ghost use Rattle.base_language.specs.Language.Grammar.{keywords};
ghost use Rattle.front_names.specs.Names as spec;

use crate::Builtin;

/// The names that pest keeps for itself.
static PEST_KEYWORDS: [&str; 10] = [
    "_", "ANY", "DROP", "EOI", "PEEK", "PEEK_ALL", "POP", "POP_ALL", "PUSH", "SOI",
];

/// The words that Rust keeps for itself.
static RUST_KEYWORDS: [&str; 52] = [
    "abstract", "alignof", "as", "become", "box", "break", "const", "continue", "crate", "do",
    "else", "enum", "extern", "false", "final", "fn", "for", "if", "impl", "in", "let", "loop",
    "macro", "match", "mod", "move", "mut", "offsetof", "override", "priv", "proc", "pure", "pub",
    "ref", "return", "Self", "self", "sizeof", "static", "struct", "super", "trait", "true",
    "type", "typeof", "unsafe", "unsized", "use", "virtual", "where", "while", "yield",
];

/// The names of Unicode properties: general categories, binary properties and scripts.
static PROPERTY_NAMES: [&str; 115] = [
    "LETTER",
    "CASED_LETTER",
    "UPPERCASE_LETTER",
    "LOWERCASE_LETTER",
    "TITLECASE_LETTER",
    "MODIFIER_LETTER",
    "OTHER_LETTER",
    "MARK",
    "NONSPACING_MARK",
    "SPACING_MARK",
    "ENCLOSING_MARK",
    "NUMBER",
    "DECIMAL_NUMBER",
    "LETTER_NUMBER",
    "OTHER_NUMBER",
    "PUNCTUATION",
    "CONNECTOR_PUNCTUATION",
    "DASH_PUNCTUATION",
    "OPEN_PUNCTUATION",
    "CLOSE_PUNCTUATION",
    "INITIAL_PUNCTUATION",
    "FINAL_PUNCTUATION",
    "OTHER_PUNCTUATION",
    "SYMBOL",
    "MATH_SYMBOL",
    "CURRENCY_SYMBOL",
    "MODIFIER_SYMBOL",
    "OTHER_SYMBOL",
    "SEPARATOR",
    "SPACE_SEPARATOR",
    "LINE_SEPARATOR",
    "PARAGRAPH_SEPARATOR",
    "OTHER",
    "CONTROL",
    "FORMAT",
    "SURROGATE",
    "PRIVATE_USE",
    "UNASSIGNED",
    "ALPHABETIC",
    "BIDI_CONTROL",
    "CASED",
    "CASE_IGNORABLE",
    "CHANGES_WHEN_CASEFOLDED",
    "CHANGES_WHEN_CASEMAPPED",
    "CHANGES_WHEN_LOWERCASED",
    "CHANGES_WHEN_TITLECASED",
    "CHANGES_WHEN_UPPERCASED",
    "DASH",
    "DEFAULT_IGNORABLE_CODE_POINT",
    "DEPRECATED",
    "DIACRITIC",
    "EXTENDER",
    "GRAPHEME_BASE",
    "GRAPHEME_EXTEND",
    "HEX_DIGIT",
    "HYPHEN",
    "IDEOGRAPHIC",
    "ID_CONTINUE",
    "ID_START",
    "JOIN_CONTROL",
    "LOWERCASE",
    "MATH",
    "NONCHARACTER_CODE_POINT",
    "PATTERN_SYNTAX",
    "PATTERN_WHITE_SPACE",
    "QUOTATION_MARK",
    "RADICAL",
    "REGIONAL_INDICATOR",
    "SENTENCE_TERMINAL",
    "SOFT_DOTTED",
    "TERMINAL_PUNCTUATION",
    "UNIFIED_IDEOGRAPH",
    "UPPERCASE",
    "VARIATION_SELECTOR",
    "WHITE_SPACE",
    "XID_CONTINUE",
    "XID_START",
    "ARABIC",
    "ARMENIAN",
    "BENGALI",
    "BOPOMOFO",
    "BRAILLE",
    "CHEROKEE",
    "COPTIC",
    "CYRILLIC",
    "DEVANAGARI",
    "ETHIOPIC",
    "GEORGIAN",
    "GOTHIC",
    "GREEK",
    "GUJARATI",
    "GURMUKHI",
    "HAN",
    "HANGUL",
    "HEBREW",
    "HIRAGANA",
    "KANNADA",
    "KATAKANA",
    "KHMER",
    "LAO",
    "LATIN",
    "MALAYALAM",
    "MONGOLIAN",
    "MYANMAR",
    "OGHAM",
    "ORIYA",
    "RUNIC",
    "SINHALA",
    "SYRIAC",
    "TAMIL",
    "TELUGU",
    "THAANA",
    "THAI",
    "TIBETAN",
    "YI",
];

/// Returns the names of the properties of Unicode that a grammar may call: the general categories, the
/// binary properties and the scripts, in this order.
pub fn unicode_property_names() -> &'static [&'static str]
    ensures { map (λ name. name.now) result.now ≡ property_names }
{
    &PROPERTY_NAMES
}

/// Returns the name of the rule for white space, which is skipped between the parts of a sequence.
#[tactic(auto, unfolding(base_language::specs::Language::Expression::whitespace))]
pub fn whitespace_name() -> &'static str
    ensures named { result.now ≡ whitespace }
    ensures ascii { IsAscii result.now }
{
    "WHITESPACE"
}

/// Returns the name of the rule for comments, which is skipped likewise.
#[tactic(auto, unfolding(base_language::specs::Language::Expression::comment))]
pub fn comment_name() -> &'static str
    ensures named { result.now ≡ comment }
    ensures ascii { IsAscii result.now }
{
    "COMMENT"
}

/// Returns the names that pest reserves.
pub(crate) fn pest_keywords() -> &'static [&'static str]
    ensures { map (λ name. name.now) result.now ≡ keywords }
{
    &PEST_KEYWORDS
}

/// Returns the words that Rust reserves.
pub(crate) fn rust_keywords() -> &'static [&'static str]
    ensures { map (λ name. name.now) result.now ≡ spec.rust_keywords }
{
    &RUST_KEYWORDS
}

/// Whether `name` is among `names`.
pub(crate) fn is_among(names: &[&str], name: &str) -> bool
    ensures { result ≡ is_one_of (map (λ n. n.now) names.now) name.now }
{
    names.contains(&name)
}

/// Whether a grammar need not define `name`, since a builtin or a property of Unicode has that name.
pub fn is_builtin(name: &str) -> bool
    ensures written { result ≡ spec.is_builtin name.now }
    ensures named { result ≡ spec.is_builtin (chars name.now) }
{
    is_known(name)
}

/// Whether a grammar need not define `name`, by the bytes of the names.
fn is_known(name: &str) -> bool
    ensures { result ≡ spec.is_builtin name.now }
{
    match Builtin::from_name(name) {
        Some(_) => true,
        None => is_among(unicode_property_names(), name),
    }
}
