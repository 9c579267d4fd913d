//! Messages and structures of the Language Server Protocol 3.17 as values, the open documents, positions
//! in a text by line and character, and changes of texts.
#![tactic(auto)]

mod changes;
pub mod client;
pub mod documents;
mod index;
pub mod laws;
pub mod messages;
pub mod params;
mod positions;
pub mod values;

pub use changes::{Change, apply_change, apply_changes};
pub use index::PositionIndex;
pub use positions::{Encoding, Position, Range, offset_of, position_of};
