//! Blocks: compiled grammars as bytes. Their rules are run without a copy of these bytes.
mod head;
mod making;
mod names;
mod runs;

pub use head::{BlockFlaw, check_block};
pub use making::compile_block;
pub use names::{rule_count, rule_name};
pub use runs::{BlockStop, attempts_block, expected_block, paths_block, run_block};
