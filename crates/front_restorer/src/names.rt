//! Names, resolved to the numbers of rules.
ghost use Rattle.std.specs.Prelude.{◌≡◌, IfOk, map};
ghost use Rattle.base_ast.specs.Ast.{text_of};
ghost use Rattle.front_restorer.specs.Bodies.{said_by, grammar_with};
ghost use Rattle.front_restorer.specs.Changing.{is_changer};
ghost use Rattle.front_restorer.specs.Names.{number_of, KnowsNames};

use crate::bodies::Body;
use front_names::Builtin;
use std::alloc::{AllocError, Global};
use std::collections::HashMap;

/// The map from names to the numbers of their last rules.
#[derive(Drop)]
pub struct Names {
    pub numbers: HashMap<String, usize>,
}

/// Makes the map of the names of rules.
pub(crate) fn names_of<'a>(alloc: Global, bodies: &[Body<'a>]) -> Result<Names, AllocError>
    ensures { IfOk result (λ names. KnowsNames names (grammar_with (map said_by bodies.now))) }
{
    let mut numbers = HashMap::with_capacity(alloc, bodies.len())?;
    for number in 0..bodies.len() {
        let name = String::from_str(alloc, bodies[number].name.as_str())?;
        numbers.insert(name, number)?;
    }
    Ok(Names { numbers })
}

/// Returns the number of the rule that a name means, if it means one.
pub(crate) fn number_of_name(names: &Names, name: &String) -> Option<usize>
    ensures { result ≡ number_of names.now (text_of name.now) }
{
    names.numbers.get(name.as_str()).copied()
}

/// Reports whether a name is that of a builtin that counts as changing the stack.
pub(crate) fn is_changer_name(name: &String) -> bool
    ensures { result ≡ is_changer (text_of name.now) }
{
    match Builtin::from_name(name.as_str()) {
        Some(builtin) => builtin.changes_stack(),
        None => false,
    }
}
