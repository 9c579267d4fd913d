//! The kinds of names.
ghost use Rattle.std.specs.Prelude.{◌≡◌, List};
ghost use Rattle.base_ast.specs.Ast.{text_of};
ghost use Rattle.front_spanned.specs.declared.node.ParserRule.{ParserRule};
ghost use Rattle.front_analysis.specs.NameMaps.{KnowsRules};
ghost use Rattle.front_analysis.specs.Names.{grammar_of};
ghost use Rattle.front_analysis.specs.NameKinds.{kind_in};

use crate::kind_table::NodeKind;
use crate::names::{Names, is_end, rule_of_name};

/// Returns the kind of a name.
pub(crate) fn kind_of_name(names: &Names, name: &String) -> NodeKind
    ensures { (rules : List ParserRule) → KnowsRules rules names.now
        → result ≡ kind_in (grammar_of rules) (text_of name.now) }
{
    let is_end = is_end(name);
    match rule_of_name(names, name) {
        Some(rule) => {
            if is_end {
                NodeKind::EndCall(rule)
            } else {
                NodeKind::Call(rule)
            }
        }
        None => {
            if is_end {
                NodeKind::End
            } else {
                NodeKind::Taking
            }
        }
    }
}
