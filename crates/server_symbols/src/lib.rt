//! The symbols of a grammar's text, which need not be accepted: tokens, definitions, occurrences, and
//! renamed texts.
#![tactic(auto)]

mod edits;
mod folding;
pub mod laws;
mod occurrences;
mod outline;
mod parts;
mod refusals;
mod renaming;
mod scanning;
mod selection;
mod tokens;

pub use edits::{Edit, edits_between};
pub use folding::{Fold, folds_of};
pub use occurrences::occurrences_of;
pub use outline::{Definition, definitions_named, definitions_of};
pub use refusals::RenameRefusal;
pub use renaming::{Renaming, rename};
pub use selection::selections_at;
pub use tokens::{Extent, Token, TokenClass, tokens_of};
