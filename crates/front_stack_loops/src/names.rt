//! Kinds of names.
ghost use Rattle.std.specs.Prelude.{◌≡◌, List, Some};
ghost use Rattle.base_ast.specs.Ast.{text_of};
ghost use Rattle.base_language.specs.Language.Builtins.{builtin_of};
ghost use Rattle.front_names.specs.Builtins.{meaning_of};
ghost use Rattle.front_spanned.specs.declared.node.ParserRule.{ParserRule};
ghost use Rattle.front_analysis.specs.NameMaps.{KnowsRules};
ghost use Rattle.front_analysis.specs.Names.{grammar_of};
ghost use Rattle.front_stack_loops.specs.Names.{builtin_kind, kind_in};

use crate::table::NodeKind;
use front_analysis::{Names, rule_of_name};
use front_names::Builtin;

/// Returns the kind of a builtin.
fn kind_of_builtin(builtin: Builtin) -> NodeKind
    ensures { result ≡ builtin_kind (Some (meaning_of builtin)) }
{
    match builtin {
        Builtin::Peek => NodeKind::Peek,
        Builtin::Pop => NodeKind::Pop,
        Builtin::Drop => NodeKind::Drop,
        Builtin::PeekAll => NodeKind::PeekAll,
        Builtin::PopAll => NodeKind::PopAll,
        Builtin::Set(_) | Builtin::Soi | Builtin::Eoi | Builtin::Newline => NodeKind::Leaf,
    }
}

/// Returns the kind of a name that no rule has.
fn kind_of_other(name: &String) -> NodeKind
    ensures { result ≡ builtin_kind (builtin_of (text_of name.now)) }
{
    match Builtin::from_name(name.as_str()) {
        Some(builtin) => kind_of_builtin(builtin),
        None => NodeKind::Leaf,
    }
}

/// Returns the kind of a name.
pub(crate) fn kind_of_name(names: &Names, name: &String) -> NodeKind
    ensures { (rules : List ParserRule) → KnowsRules rules names.now
        → result ≡ kind_in (grammar_of rules) (text_of name.now) }
{
    match rule_of_name(names, name) {
        Some(rule) => NodeKind::Call(rule),
        None => kind_of_other(name),
    }
}
