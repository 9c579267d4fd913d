//! Rules, with names resolved and nodes numbered.
ghost use Rattle.std.specs.Prelude.{◌≡◌, IfOk};
ghost use Rattle.front_analysis.specs.Resolved.{IsResolved};

use crate::names::{Names, names_of};
use crate::table::{Table, tabulate};
use front_spanned::ParserRule;
use std::alloc::{AllocError, Global};

/// Rules, with the names and the nodes of their bodies.
#[derive(Drop)]
pub struct ResolvedGrammar<'n, 'i> {
    pub rules: &'n [ParserRule<'i>],
    /// The numbers of the rules that names mean.
    pub names: Names,
    /// The nodes of all bodies.
    pub table: Table<'n, 'i>,
}

/// Resolves the names of rules, and numbers the nodes of all bodies. The only fault is an allocation
/// failure.
pub fn resolve<'n, 'i>(
    alloc: Global,
    rules: &'n [ParserRule<'i>],
) -> Result<ResolvedGrammar<'n, 'i>, AllocError>
    ensures rules { IfOk result (λ grammar. grammar.rules.now ≡ rules.now) }
    ensures resolved { IfOk result IsResolved }
{
    let names = names_of(alloc, rules)?;
    let table = tabulate(alloc, rules)?;
    Ok(ResolvedGrammar {
        rules,
        names,
        table,
    })
}
