//! The analysis that the validator and the stack pass share: name table, node table and nullability.
ghost use Rattle.std.specs.Prelude.{◌≡◌, IfOk};
ghost use Rattle.front_analysis.specs.Analysis.{IsAnalysis};

use crate::facts::{Facts, facts_of};
use crate::grammar::{ResolvedGrammar, resolve};
use front_spanned::ParserRule;
use std::alloc::{AllocError, Global};

/// The analysis of rules that the passes share.
#[derive(Drop)]
pub struct Analysis<'n, 'i> {
    pub grammar: ResolvedGrammar<'n, 'i>,
    /// Nullability and failure of its nodes.
    pub facts: Facts,
}

/// Analyses rules: their names, the nodes of all bodies, and which of them may take nothing and which
/// cannot fail. The only fault is an allocation failure.
pub fn analyze<'n, 'i>(
    alloc: Global,
    rules: &'n [ParserRule<'i>],
) -> Result<Analysis<'n, 'i>, AllocError>
    ensures rules { IfOk result (λ made. made.grammar.rules.now ≡ rules.now) }
    ensures right { IfOk result IsAnalysis }
{
    let grammar = resolve(alloc, rules)?;
    let facts = facts_of(alloc, &grammar)?;
    Ok(Analysis { grammar, facts })
}
