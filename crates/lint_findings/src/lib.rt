//! Diagnostics of grammars as data. They are made from the errors or from the rules of a grammar.
#![tactic(auto)]

mod allowances;
mod bodies;
mod choices;
mod codes;
mod diagnostic;
mod errors;
mod facts;
mod fixes;
mod fragments;
mod helps;
pub mod laws;
mod messages;
mod names;
mod problems;
mod quotes;
mod remedies;
mod repairs;
mod repeats;
mod starts;
mod strays;
mod undefined;
mod warnings;

pub use crate::allowances::{Allowance, leave_out_allowed};
pub use crate::codes::{Code, Report, Severity};
pub use crate::diagnostic::{Diagnostic, Options};
pub use crate::errors::diagnose_refusal;
pub use crate::facts::{Facts, all_facts};
pub use crate::fixes::{Applied, Mended, apply_fix, is_allowed, line_of, mend};
pub use crate::fragments::Fragment;
pub use crate::repairs::hint_for;
pub use crate::starts::stated_starts;
pub use crate::strays::diagnose_starts;
pub use crate::warnings::{diagnose_all_rules, diagnose_list, diagnose_rules};
pub use lint_hints::{Applicability, Fix, Help, Related};
