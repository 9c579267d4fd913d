//! The version of the programs.

/// The version of this workspace, as in the file VERSION, and that of the original crate.
pub const VERSION: &str = "0.4.0, of pest_meta 2.9.5";
