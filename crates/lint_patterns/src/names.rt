//! Optional rules.
ghost use Rattle.std.specs.Prelude.{◌≡◌, ◌||◌, Bool, IfOk, OnOk, List, ℕ};
ghost use Rattle.std.specs.Str.{IsUtf8, chars};
ghost use Rattle.base_ast.specs.Ast.{text_of};
ghost use Rattle.base_language.specs.Language.Text.{Text};
ghost use Rattle.lint_patterns.specs.Rewritten as spec;
ghost use Rattle.front_spanned.specs.Erasure.{without_spans};
ghost use Rattle.front_spanned.specs.Nodes.{rule_view, rule_views, view};
ghost use Rattle.lint_warnings.specs.Lists.{HasNames, has_name};

use front_spanned::{ParserExpr, ParserNode, ParserRule};
use std::alloc::{AllocError, Global};
use std::collections::HashSet;

/// The names of rules whose bodies are options or repetitions, or empty.
pub(crate) fn optional_names<'n, 'i>(
    alloc: Global,
    rules: &'n [ParserRule<'i>],
) -> Result<HashSet<&'n str>, AllocError>
    ensures { IfOk result (HasNames (spec.is_optional_name (rule_views rules.entry.now))) }
{
    let mut names = HashSet::new(alloc);
    for rule in rules {
        add_where_optional(rule, &mut names)?;
    }
    Ok(names)
}

/// Adds the name of a rule whose body is an option or a repetition, or empty.
fn add_where_optional<'n, 'i>(
    rule: &'n ParserRule<'i>,
    names: &mut HashSet<&'n str>,
) -> Result<(), AllocError>
    ensures { OnOk result ((name : List ℕ) → IsUtf8 name → has_name names.new name
        ≡ (has_name names.old name || spec.is_optional_as (rule_view rule.entry.now) (chars name))) }
{
    if is_optional(&rule.node) {
        names.insert(rule.name.as_str())?;
    }
    Ok(())
}

/// Whether a node is an option or a repetition, or empty.
fn is_optional(node: &ParserNode<'_>) -> bool
    ensures { result ≡ spec.cannot_fail spec.no_names (without_spans (view node.now)) }
{
    match &node.expr {
        ParserExpr::Opt(_) | ParserExpr::Rep(_) | ParserExpr::RepMax(_, _) => true,
        ParserExpr::Str(text) => text.as_str().is_empty(),
        _ => false,
    }
}

/// Whether a name is among these.
pub(crate) fn is_among(name: &String, names: &HashSet<&str>) -> bool
    ensures { (f : Text → Bool) → HasNames f names.now → result ≡ f (text_of name.now) }
{
    names.contains(&name.as_str())
}
