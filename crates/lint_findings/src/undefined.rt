//! Definitions, and what undefined names may mean.
ghost use Rattle.std.specs.Prelude.{◌≡◌, IfOk, IfSome, map};
ghost use Rattle.lint_findings.specs.Helps.{IsSuggestion};
ghost use Rattle.front_names.specs.Builtins.{builtin_names};

use front_names::{Builtin, CharSet, unicode_property_names};
use lint_hints::{Fix, Help, Related, definitions, nearest_name};
use std::alloc::{AllocError, Global};
use std::collections::HashMap;

/// The greatest number of undefined names in a text for which another is looked for.
const NAMES_LOOKED_UP: usize = 20;

/// The definitions of a text.
#[derive(Drop)]
pub(crate) struct Definitions<'t> {
    /// The bytes of each name's first definition.
    first: HashMap<&'t str, (usize, usize)>,
    /// The names in order.
    names: Vec<&'t str>,
    /// The first byte of each definition, and its name, in order.
    places: Vec<(usize, &'t str)>,
    /// The names of builtins that are no Unicode properties.
    builtins: Vec<&'static str>,
    /// How many undefined names were looked up.
    count: usize,
}

impl<'t> Definitions<'t> {
    /// The definitions of a text.
    pub(crate) fn new(alloc: Global, text: &'t str) -> Result<Definitions<'t>, AllocError> {
        let builtins = names_of_builtins(alloc)?;
        let mut first = HashMap::new(alloc);
        let mut names = Vec::new(alloc);
        let mut places = Vec::new(alloc);
        for (start, end) in &definitions(alloc, text)? {
            let name = text.get(*start..*end).unwrap_or("");
            places.push((*start, name))?;
            if !first.contains_key(&name) {
                first.insert(name, (*start, *end))?;
                names.push(name)?;
            }
        }
        Ok(Definitions {
            first,
            names,
            places,
            builtins,
            count: 0,
        })
    }

    /// Adds the first definition of a name, with this message.
    pub(crate) fn push_definition(
        &self,
        alloc: Global,
        name: &str,
        message: &str,
        related: &mut Vec<Related>,
    ) -> Result<(), AllocError> {
        if let Some((start, end)) = self.first.get(&name) {
            related.push(Related::new(alloc, *start, *end, message)?)?;
        }
        Ok(())
    }

    /// The names but for that of the rule around a byte.
    fn names_of_others(&self, alloc: Global, position: usize) -> Result<Vec<&'t str>, AllocError> {
        let mut own = "";
        for (start, name) in &self.places {
            if *start <= position {
                own = *name;
            }
        }
        self.names
            .iter()
            .copied()
            .filter(|name| *name != own)
            .collect(alloc)
    }

    /// A help for an undefined name at the bytes `start..end`: the nearest of the other defined ones and the
    /// builtins.
    pub(crate) fn help_undefined(
        &mut self,
        alloc: Global,
        name: &str,
        start: usize,
        end: usize,
    ) -> Result<Option<Help>, AllocError>
        ensures { IfOk result (λ help. IfSome help IsSuggestion) }
    {
        if self.count >= NAMES_LOOKED_UP {
            return Ok(None);
        }
        self.count = self.count.saturating_add(1);
        let others = self.names_of_others(alloc, start)?;
        if let Some(nearest) = nearest_name(alloc, name, &others)? {
            return did_you_mean(alloc, name, nearest, start, end);
        }
        if let Some(known) = known_elsewhere(name) {
            return did_you_mean(alloc, name, known, start, end);
        }
        let capitals = name.to_ascii_uppercase(alloc)?;
        if let Some(known) = known_elsewhere(capitals.as_str()) {
            return did_you_mean(alloc, name, known, start, end);
        }
        if let Some(nearest) = nearest_name(alloc, capitals.as_str(), &self.builtins)? {
            return did_you_mean(alloc, name, nearest, start, end);
        }
        if let Some(nearest) = nearest_name(alloc, name, &self.builtins)? {
            return did_you_mean(alloc, name, nearest, start, end);
        }
        match nearest_name(alloc, name, unicode_property_names())? {
            Some(nearest) => did_you_mean(alloc, name, nearest, start, end),
            None => Ok(None),
        }
    }
}

/// The names of builtins that are no Unicode properties.
fn names_of_builtins(alloc: Global) -> Result<Vec<&'static str>, AllocError>
    ensures { IfOk result (λ names. map (λ name. name.now) names.items ≡ builtin_names) }
{
    let mut names = Vec::new(alloc);
    for builtin in Builtin::all() {
        names.push(builtin.name())?;
    }
    Ok(names)
}

/// The builtin or the string that other notations call by a name.
fn known_elsewhere(name: &str) -> Option<&'static str> {
    match builtin_elsewhere(name) {
        Some(builtin) => Some(builtin.name()),
        None => property_elsewhere(name),
    }
}

/// The builtin that other notations call by a name.
fn builtin_elsewhere(name: &str) -> Option<Builtin> {
    match name {
        "nl" | "NL" | "eol" | "EOL" | "CRLF" | "newline" => Some(Builtin::Newline),
        "eof" | "EOF" | "end" | "END" => Some(Builtin::Eoi),
        "bof" | "BOF" | "BOI" | "start" | "START" => Some(Builtin::Soi),
        _ => set_elsewhere(name).map(Builtin::Set),
    }
}

/// The set of characters that other notations call by a name.
fn set_elsewhere(name: &str) -> Option<CharSet> {
    match name {
        "digit" | "DIGIT" | "DIGITS" | "ASCII_NUMBER" => Some(CharSet::AsciiDigit),
        "alpha" | "ALPHA" | "letter" | "ASCII_LETTER" => Some(CharSet::AsciiAlpha),
        "ASCII_ALPHABETIC" | "ASCII_ALPHABET" => Some(CharSet::AsciiAlpha),
        "ASCII_LOWER" | "ASCII_LOWERCASE" => Some(CharSet::AsciiAlphaLower),
        "ASCII_UPPER" | "ASCII_UPPERCASE" => Some(CharSet::AsciiAlphaUpper),
        "ALNUM" | "alphanumeric" | "ASCII_ALNUM" => Some(CharSet::AsciiAlphanumeric),
        "ASCII_ALPHANUM" | "ASCII_ALPHA_NUMERIC" => Some(CharSet::AsciiAlphanumeric),
        "XDIGIT" | "HEXDIG" | "HEX_DIGIT" | "ASCII_HEX" => Some(CharSet::AsciiHexDigit),
        "_" | "CHAR" | "DOT" | "ANYCHAR" | "ANY_CHAR" | "ANYTHING" => Some(CharSet::Any),
        _ => None,
    }
}

/// The Unicode property or the string that other notations call by a name.
fn property_elsewhere(name: &str) -> Option<&'static str> {
    match name {
        "Lu" => Some("UPPERCASE_LETTER"),
        "Ll" => Some("LOWERCASE_LETTER"),
        "L" => Some("LETTER"),
        "N" => Some("NUMBER"),
        "Nd" => Some("DECIMAL_NUMBER"),
        "P" => Some("PUNCTUATION"),
        _ => character_of(name),
    }
}

/// The string that other notations call by a name.
fn character_of(name: &str) -> Option<&'static str> {
    match name {
        "SP" | "SPACE" => Some("\" \""),
        "WS" | "WHITESPACES" | "WHITE_SPACES" => Some("WHITE_SPACE"),
        "WHITESPACE" | "BLANK" => Some("WHITE_SPACE"),
        "tab" | "TAB" | "HTAB" => Some("\"\\t\""),
        "cr" | "CR" => Some("\"\\r\""),
        "lf" | "LF" => Some("\"\\n\""),
        "DQUOTE" => Some("\"\\\"\""),
        "empty" | "EMPTY" | "epsilon" => Some("\"\""),
        _ => None,
    }
}

/// A help that replaces an undefined name at the bytes `start..end` by another.
fn did_you_mean(
    alloc: Global,
    undefined: &str,
    name: &str,
    start: usize,
    end: usize,
) -> Result<Option<Help>, AllocError>
    ensures { IfOk result (λ help. IfSome help IsSuggestion) }
{
    let message = format!(in alloc; "did you mean `{name}`?")?;
    let fix = Fix::suggest(alloc, undefined, start, end, name)?;
    let help = Help::with_fix(alloc, message.as_str(), fix)?;
    Ok(Some(help))
}
