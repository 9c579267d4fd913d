//! Rules and expressions with a span at each node, as values: clones, equality, release, walks and erasure.
#![tactic(auto)]

mod cloned;
mod compared;
mod copies;
mod erasure;
mod filter;
mod node;
mod released;
mod shaped;

pub use crate::copies::{copy_rule, copy_rules};
pub use crate::erasure::erase_spans;
pub use crate::filter::{filter_internal, push_operands};
pub use crate::node::{ParserExpr, ParserNode, ParserRule};
pub use crate::released::release;
