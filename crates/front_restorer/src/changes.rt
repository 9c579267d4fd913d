//! The rules that change the stack, by name.
ghost use Rattle.std.specs.Prelude.{◌≡◌, ◌+◌, IfOk, Some, map, slice_get};
ghost use Rattle.base_ast.specs.Ast.{text_of};
ghost use Rattle.front_restorer.specs.Bodies.{said_by, grammar_with};
ghost use Rattle.front_restorer.specs.Names.{number_of};
ghost use Rattle.front_restorer.specs.Summaries.{AreSummariesOf};
ghost use Rattle.front_restorer.specs.KnownChanges.{KnowsChanges, changes_stack};

use crate::bodies::Body;
use crate::calls::is_flagged;
use crate::flags::find_changing_rules;
use crate::names::{Names, is_changer_name, names_of};
use crate::summaries::{Summaries, summarize_bodies};
use std::alloc::{AllocError, Global};

/// The rules that change the stack.
#[derive(Drop)]
pub struct Changes {
    pub names: Names,
    /// The shares of the bodies of all rules.
    pub noted: Summaries,
    /// Flags of the rules that change the stack, by number.
    pub flags: Vec<bool>,
}

/// Finds the rules that change the stack.
pub(crate) fn changes_of<'a>(alloc: Global, bodies: &[Body<'a>]) -> Result<Changes, AllocError>
    ensures tells { IfOk result (λ changes. KnowsChanges changes (grammar_with (map said_by bodies.now))) }
    ensures noted { IfOk result (λ changes.
        AreSummariesOf changes.names (map said_by bodies.now) changes.noted) }
{
    let names = names_of(alloc, bodies)?;
    let noted = summarize_bodies(alloc, &names, bodies)?;
    let flags = find_changing_rules(alloc, &noted)?;
    Ok(Changes {
        names,
        noted,
        flags,
    })
}

/// Reports whether a call of a name changes the stack, given the number of its rule.
pub(crate) fn is_changing(changes: &Changes, name: &String, rule: Option<usize>) -> bool
    requires { rule ≡ number_of changes.now.names (text_of name.now) }
    ensures { result ≡ changes_stack changes.now (text_of name.now) }
{
    is_changer_name(name) || is_flagged(&changes.flags, rule)
}

/// Reports whether a call of a name changes the stack. The number of its rule is at the index `place`,
/// which moves on.
pub(crate) fn is_next_changing(changes: &Changes, place: &mut usize, name: &String) -> bool
    requires { slice_get changes.now.noted.numbers.items place.old
        ≡ Some (number_of changes.now.names (text_of name.now)) }
    ensures changes { result ≡ changes_stack changes.now (text_of name.now) }
    ensures place { place.new ≡ place.old + 1 }
{
    let rule = changes.noted.numbers[*place];
    *place += 1;
    is_changing(changes, name, rule)
}
