//! Rules of the meta-grammar by their names.
ghost use Rattle.std.specs.Prelude.{◌≡◌, IfNone, IfSome};
ghost use Rattle.base_language.specs.Pieces.MetaRules.{name_of};
ghost use Rattle.format_json.specs.RuleNames.{IsOfNoRule};

use base_language::grammar::Rule;

/// Returns the rule of that name, if there is one.
pub fn rule_named(name: &str) -> Option<Rule>
    ensures found { IfSome result (λ rule. name_of rule ≡ name.now) }
    ensures none { IfNone result (IsOfNoRule name.now) }
{
    if name == "EOI" {
        return Some(Rule::EOI);
    }
    Rule::all_rules()
        .iter()
        .copied()
        .find(|rule| name == rule.name())
}
