//! Diagnostics as they are printed: as text, JSON, SARIF and annotations of GitHub.
#![tactic(auto)]

mod excerpts;
mod github;
mod json;
mod lines;
mod objects;
mod sarif;
mod styles;
mod text;
mod visible;

pub use crate::lines::{LineIndex, Location};
pub use crate::sarif::{sarif_log, sarif_result, sarif_rule};
pub use crate::styles::print_diagnostic;
pub use crate::visible::to_visible;

/// A text whose diagnostics are printed.
#[derive(Clone, Copy)]
pub struct Origin<'f> {
    /// The name of its file.
    pub name: &'f str,
    pub text: &'f str,
    /// The lines of the text.
    pub lines: &'f LineIndex,
}

/// How diagnostics are printed, one after another.
#[derive(Clone, Copy, Debug, PartialEq, Eq)]
pub enum Style {
    /// Blocks of text for people, in colours or not.
    Text(bool),
    /// A line of JSON for each.
    Json,
    /// A workflow command of GitHub for each.
    Github,
}
