//! HTML, SVG, Markdown and EBNF as lists of tokens, in which every text is escaped.
#![tactic(auto)]

mod builder;
mod ebnf;
mod escape;
pub mod laws;
mod markdown;
mod sections;
mod template;
mod tokens;
mod vocabulary;

pub use crate::builder::MarkupBuilder;
pub use crate::ebnf::{EbnfToken, EbnfWord, is_plain};
pub use crate::escape::{push_escaped, push_visible};
pub use crate::markdown::{MarkdownToken, MarkdownWord};
pub use crate::sections::{
    MarkdownContents, SectionContents, push_definition, push_markdown_section, push_section,
    start_markdown, start_page,
};
pub use crate::template::foot;
pub use crate::tokens::{Markup, push_markup};
pub use crate::vocabulary::{Attribute, Class, PathCommand, Tag};
