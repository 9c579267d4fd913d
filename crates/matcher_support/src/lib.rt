//! What programs need for matches: runs by the names of rules, tags, token trees as text and as
//! JSON, and the character sets of Unicode properties.
#![tactic(auto)]

pub mod attempts;
pub mod compiled;
pub mod expectations;
pub mod json;
pub mod laws;
pub mod lines;
pub mod literal;
pub mod shown;
pub mod tags;
pub mod unicode_properties;
