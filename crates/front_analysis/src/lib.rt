//! The analysis of rules with spans that the passes share, made once for a grammar: rules by the names
//! that mean them, the nodes of all bodies by number, and which nodes are nullable or cannot fail.
#![tactic(auto)]

mod analysis;
mod answers;
mod expressions;
mod facts;
mod grammar;
mod kind_table;
mod kinds;
mod name_kinds;
mod names;
mod places;
mod shapes;
mod table;

pub use analysis::{Analysis, analyze};
pub use answers::{answers_to, dependencies_of};
pub use expressions::answer_for;
pub use facts::{Facts, facts_of};
pub use grammar::{ResolvedGrammar, resolve};
pub use kind_table::{KindTable, NodeKind, Question};
pub use names::{Names, is_end, is_literal, names_of, rule_of_name};
pub use places::rule_number;
pub use shapes::{Joint, Shape, UnaryOperator};
pub use table::{Node, Table, Unnumbered, number, tabulate};
