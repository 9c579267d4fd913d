//! Tags: wrapped rules, whose matches have one more tree for each tag, and the tags of the other
//! trees.

pub mod entries;
pub mod names;
pub mod wrapped;
