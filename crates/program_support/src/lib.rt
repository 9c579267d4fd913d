//! Parts of all programs: arguments, exit statuses, inputs, folders, output, replaced files, escaped
//! messages, the version.
#![tactic(auto)]

pub mod arguments;
pub mod ends;
pub mod escape;
pub mod excerpt;
pub mod folders;
pub mod input;
pub mod json;
pub mod messages;
pub mod output;
pub mod replacement;
pub mod status;
pub mod syntax;
pub mod usage;
pub mod version;
