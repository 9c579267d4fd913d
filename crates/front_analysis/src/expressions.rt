//! The answer to a question for one expression.
ghost use Rattle.std.specs.Prelude.{IfOk};
ghost use Rattle.std.specs.Bool.{Decides};
ghost use Rattle.front_spanned.specs.Erasure.{without_spans};
ghost use Rattle.front_spanned.specs.Nodes.{unplaced};
ghost use Rattle.front_analysis.specs.Facts.{IsTrueOf};
ghost use Rattle.front_analysis.specs.Names.{grammar_of};

use crate::answers::answers_to;
use crate::kind_table::{KindTable, Question};
use crate::kinds::kinds_of;
use crate::names::names_of;
use crate::table::{Unnumbered, number, tabulate};
use base_graphs::{find_listeners, is_set};
use base_language::runtime::Span;
use front_spanned::{ParserExpr, ParserRule};
use std::alloc::{AllocError, Global};

/// Answers a question about an expression by adding its nodes after those of the rules. Its names mean
/// these rules (the last of a name). The only fault is an allocation failure.
pub fn answer_for<'i>(
    alloc: Global,
    expr: &ParserExpr<'i>,
    rules: &[ParserRule<'i>],
    question: Question,
) -> Result<bool, AllocError>
    ensures { IfOk result (λ yes. Decides yes
        (IsTrueOf question (grammar_of rules.now) (without_spans (unplaced expr.now)))) }
{
    let nowhere = Span::of("", 0, 0);
    let names = names_of(alloc, rules)?;
    let mut nodes = tabulate(alloc, rules)?;
    let own = number(
        &mut Unnumbered::new(alloc),
        rules.len(),
        expr,
        &nowhere,
        &mut nodes.nodes,
    )?;
    let table = KindTable {
        kinds: kinds_of(alloc, &names, nodes.nodes.as_slice())?,
        roots: nodes.roots,
    };
    let listeners = find_listeners(alloc, &table)?;
    let answers = answers_to(alloc, &table, &listeners, question)?;
    let answer = is_set(answers.as_slice(), own);
    Ok(answer)
}
