//! Railroad diagrams of expressions, as SVG.
#![tactic(auto)]

mod boxes;
mod build;
mod drawing;
mod labels;
mod layout;
mod rails;

pub use crate::drawing::{DiagramStyle, draw_diagram};
pub use crate::labels::leaf_label;
