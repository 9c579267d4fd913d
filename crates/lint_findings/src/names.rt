//! Names of rules that mean something elsewhere.
ghost use Rattle.std.specs.Prelude.{◌≡◌, ◌++◌, IfOk, OnOk, map};
ghost use Rattle.base_language.specs.Language.Builtins.{is_one_of};
ghost use Rattle.front_spanned.specs.Nodes.{piece_of, rule_view, rule_views};
ghost use Rattle.lint_findings.specs.Names as spec;

use base_language::runtime::Span;
use front_names::is_builtin;
use front_spanned::ParserRule;
use std::alloc::{AllocError, Global};

/// The words that Rust keeps for itself in any edition up to 2024. The list of `front_names` is pest's own,
/// of Rust 1.0.
static EDITION_KEYWORDS: [&str; 52] = [
    "abstract", "as", "async", "await", "become", "box", "break", "const", "continue", "crate",
    "do", "dyn", "else", "enum", "extern", "false", "final", "fn", "for", "gen", "if", "impl",
    "in", "let", "loop", "macro", "match", "mod", "move", "mut", "override", "priv", "pub", "ref",
    "return", "Self", "self", "static", "struct", "super", "trait", "true", "try", "type",
    "typeof", "unsafe", "unsized", "use", "virtual", "where", "while", "yield",
];

/// The names that builtins had in pest 1.
static OLD_BUILTINS: [&str; 8] = [
    "any",
    "comment",
    "eoi",
    "peek",
    "pop",
    "push",
    "soi",
    "whitespace",
];

/// The spans of the names of rules that are keywords of Rust.
pub(crate) fn keyword_names<'i>(
    alloc: Global,
    rules: &[ParserRule<'i>],
) -> Result<Vec<Span<'i>>, AllocError>
    ensures { IfOk result (λ found.
        map piece_of found.items ≡ spec.named_rules spec.is_keyword (rule_views rules.now)) }
{
    let mut found = Vec::new(alloc);
    for rule in rules {
        add_keyword(rule, &mut found)?;
    }
    Ok(found)
}

/// The spans of the names of rules that are those of builtins.
pub(crate) fn builtin_names<'i>(
    alloc: Global,
    rules: &[ParserRule<'i>],
) -> Result<Vec<Span<'i>>, AllocError>
    ensures { IfOk result (λ found.
        map piece_of found.items ≡ spec.named_rules spec.is_builtin_name (rule_views rules.now)) }
{
    let mut found = Vec::new(alloc);
    for rule in rules {
        add_builtin(rule, &mut found)?;
    }
    Ok(found)
}

/// Adds the span of a rule's name, if the name is a keyword of Rust.
fn add_keyword<'i>(rule: &ParserRule<'i>, found: &mut Vec<Span<'i>>) -> Result<(), AllocError>
    ensures { OnOk result (map piece_of found.new.items
        ≡ map piece_of found.old.items ++ spec.named_at spec.is_keyword (rule_view rule.now)) }
{
    if is_keyword(rule.span.as_str()) {
        found.push(rule.span)?;
    }
    Ok(())
}

/// Adds the span of a rule's name, if the name is that of a builtin.
fn add_builtin<'i>(rule: &ParserRule<'i>, found: &mut Vec<Span<'i>>) -> Result<(), AllocError>
    ensures { OnOk result (map piece_of found.new.items
        ≡ map piece_of found.old.items ++ spec.named_at spec.is_builtin_name (rule_view rule.now)) }
{
    if is_builtin_name(rule.span.as_str()) {
        found.push(rule.span)?;
    }
    Ok(())
}

/// Whether Rust keeps a name for itself.
fn is_keyword(name: &str) -> bool
    ensures { result ≡ spec.is_keyword name.now }
{
    is_among(edition_keywords(), name)
}

/// Whether a builtin has a name, or had it in pest 1.
fn is_builtin_name(name: &str) -> bool
    ensures { result ≡ spec.is_builtin_name name.now }
{
    is_builtin(name) || is_among(old_builtins(), name)
}

/// The words that Rust keeps for itself in any edition.
fn edition_keywords() -> &'static [&'static str]
    ensures { map (λ name. name.now) result.now ≡ spec.edition_keywords }
{
    &EDITION_KEYWORDS
}

/// The names that builtins had in pest 1.
fn old_builtins() -> &'static [&'static str]
    ensures { map (λ name. name.now) result.now ≡ spec.old_builtins }
{
    &OLD_BUILTINS
}

/// Whether a name is among others.
fn is_among(names: &[&str], name: &str) -> bool
    ensures { result ≡ is_one_of (map (λ n. n.now) names.now) name.now }
{
    names.contains(&name)
}
