//! Laws over the definitions alone: no text becomes markup, and links lead to sections.
ghost use Rattle.doc_markup.specs.Laws.{CodeIsIndented, CommentsAreInert, EscapedIsInert, InlineIsInert, LinksLead, NoLinksElsewhere, StringsArePlain};

/// Texts in HTML and SVG: entities, and characters that are neither special nor hidden.
pub fn escaped_texts_are_inert()
    ensures { EscapedIsInert }
{}

/// Texts in Markdown: in a line each punctuation character is escaped, and in a block of code each line is
/// indented.
pub fn markdown_texts_are_inert()
    ensures inline { InlineIsInert }
    ensures code { CodeIsIndented }
{}

/// Texts in EBNF: a string has no quote in it, and a comment no end.
pub fn ebnf_texts_are_inert()
    ensures strings { StringsArePlain }
    ensures comments { CommentsAreInert }
{}

/// Links of a page: one to a rule of the page leads to a section that is on the page; no other is written.
pub fn links_lead_to_sections()
    ensures lead { LinksLead }
    ensures nowhere_else { NoLinksElsewhere }
{}
