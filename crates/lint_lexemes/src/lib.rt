//! The lexemes of a text that need not be a grammar, around one of its bytes, and the names that lexemes
//! define.
#![tactic(auto)]

mod lexer;
mod names;
mod site;

pub use crate::lexer::{Lexeme, LexemeClass, byte_at, lexemes};
pub use crate::names::{definitions, nearest_name};
pub use crate::site::{Site, ends_term, is_sign, starts_term};
