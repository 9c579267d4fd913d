//! Documents of grammars: pages of HTML with railroad diagrams, single diagrams, pages of Markdown, and EBNF.
#![tactic(auto)]

mod callers;
mod ebnf;
mod facts;
mod first_sets;
mod html;
mod markdown;
mod read;
mod source;
mod starts;
mod terms;
mod warnings;

pub use crate::ebnf::ebnf_text;
pub use crate::html::{html_page, svg_diagram};
pub use crate::markdown::markdown_page;
pub use crate::read::{GrammarDoc, read_grammar};
