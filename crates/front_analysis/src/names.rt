//! Names, resolved to the numbers of rules.
ghost use Rattle.std.specs.Prelude.{◌≡◌, IfOk, List, bytes_eq};
ghost use Rattle.std.specs.Str.{IsAscii};
ghost use Rattle.base_language.specs.Language.Expression.{last_place};
ghost use Rattle.base_ast.specs.Ast.{text_of};
ghost use Rattle.front_spanned.specs.declared.node.ParserRule.{ParserRule};
ghost use Rattle.front_analysis.specs.Names.{grammar_of, is_end};
ghost use Rattle.front_analysis.specs.NameMaps.{KnowsRules};

use front_names::Builtin;
use front_spanned::ParserRule;
use std::alloc::{AllocError, Global};
use std::collections::HashMap;

/// The map from names to the indices of their last rules.
#[derive(Drop)]
pub struct Names {
    pub places: HashMap<String, usize>,
}

/// Makes the map of the names of rules.
pub fn names_of<'i>(alloc: Global, rules: &[ParserRule<'i>]) -> Result<Names, AllocError>
    ensures { IfOk result (λ names. KnowsRules rules.now names) }
{
    let mut places = HashMap::new(alloc);
    for place in 0..rules.len() {
        let name = String::from_str(alloc, rules[place].name.as_str())?;
        places.insert(name, place)?;
    }
    Ok(Names { places })
}

impl Names {
    ghost use Rattle.std.specs.Prelude.{string_bytes};
    ghost use Rattle.std.specs.HashMap.{get_by_text};

    /// Returns the index of the last rule of that name, if there is one.
    pub fn place_of(&self, name: &str) -> Option<usize>
        ensures { result ≡ get_by_text self.now.places name.now }
    {
        self.places.get(name).copied()
    }
}

/// Returns the index of the last rule of that name, if there is one.
pub fn rule_of_name(names: &Names, name: &String) -> Option<usize>
    ensures { (rules : List ParserRule) → KnowsRules rules names.now
        → result ≡ last_place (grammar_of rules) (text_of name.now) }
{
    names.place_of(name.as_str())
}

/// Reports whether a name is a literal's text.
pub fn is_literal(name: &String, literal: &str) -> bool
    requires { IsAscii literal.now }
    ensures { result ≡ bytes_eq (text_of name.now) literal.now }
{
    name.as_str() == literal
}

/// Reports whether a name is that of a builtin that takes nothing.
pub fn is_end(name: &String) -> bool
    ensures { result ≡ is_end (text_of name.now) }
{
    match Builtin::from_name(name.as_str()) {
        Some(builtin) => builtin.is_nullable(),
        None => false,
    }
}
