//! The parts of the crate `pest` that a reader of grammars calls: positions in a text, pairs and errors;
//! and the faults of every call.

mod errors;
mod faults;
mod layout;
mod lines;
mod places;
mod surveys;
mod tokens;
mod trees;

pub use errors::{Error, ErrorVariant, InputLocation, LineColLocation};
pub use faults::Fault;
pub use places::{Position, Span};
pub use surveys::Survey;
pub use tokens::{FlatPairs, Pair, Pairs};
pub use trees::{FirstTree, TokenTree, first_tree};
