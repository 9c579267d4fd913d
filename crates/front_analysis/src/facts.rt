//! Facts of nodes: nullability and failure.
ghost use Rattle.std.specs.Prelude.{◌≡◌, IfOk};
ghost use Rattle.front_analysis.specs.Resolved.{IsResolved};
ghost use Rattle.front_analysis.specs.Facts.{AreFacts, AreTabled};

use crate::answers::answers_to;
use crate::grammar::ResolvedGrammar;
use crate::kind_table::{KindTable, Question};
use crate::kinds::kinds_of;
use base_graphs::find_listeners;
use std::alloc::{AllocError, Global};

/// The facts of the nodes of all rules.
#[derive(Drop)]
pub struct Facts {
    pub table: KindTable,
    /// Flags of the nodes that may succeed without taking anything.
    pub nullable: Vec<bool>,
    /// Flags of the nodes that cannot fail.
    pub certain: Vec<bool>,
}

impl Facts {
    /// Copies the flags `nullable`.
    pub fn copy_nullable(&self, alloc: Global) -> Result<Vec<bool>, AllocError>
        ensures { IfOk result (λ flags. flags.items ≡ self.now.nullable.items) }
    {
        let mut flags = Vec::new(alloc);
        flags.extend_from_slice(self.nullable.as_slice())?;
        Ok(flags)
    }
}

/// Makes the table of the kinds of the nodes of rules.
fn table_with_kinds(
    alloc: Global,
    grammar: &ResolvedGrammar<'_, '_>,
) -> Result<KindTable, AllocError>
    requires { IsResolved grammar.now }
    ensures { IfOk result (λ made. AreTabled grammar.now.rules.now made) }
{
    let kinds = kinds_of(alloc, &grammar.names, grammar.table.nodes.as_slice())?;
    let roots = grammar.table.copy_roots(alloc)?;
    Ok(KindTable { kinds, roots })
}

/// Computes which nodes may take nothing, and which cannot fail. The only fault is an allocation failure.
pub fn facts_of(alloc: Global, grammar: &ResolvedGrammar<'_, '_>) -> Result<Facts, AllocError>
    requires { IsResolved grammar.now }
    ensures { IfOk result (λ facts. AreFacts grammar.now.rules.now facts) }
{
    let table = table_with_kinds(alloc, grammar)?;
    let listeners = find_listeners(alloc, &table)?;
    let nullable = answers_to(alloc, &table, &listeners, Question::TakesNothing)?;
    let certain = answers_to(alloc, &table, &listeners, Question::CannotFail)?;
    Ok(Facts {
        table,
        nullable,
        certain,
    })
}
