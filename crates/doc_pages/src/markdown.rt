//! Pages of Markdown.
ghost use Rattle.std.specs.Prelude.{◌≡◌, ◌++◌, ◌∷◌, [], IfOk, OnOk, length, string_bytes};
ghost use Rattle.std.specs.List.{range_with_len};
ghost use Rattle.base_ast.specs.Ast.{rules_of};
ghost use Rattle.doc_markup.specs.Links.{AreMarkdownLinksWithin, markdown_links, markdown_token_links};
ghost use Rattle.doc_markup.specs.Pages.{AreNames, IsMarkdownPage};
ghost use Rattle.doc_pages.specs.Documents.{EndsWithMarkdownSections};

use crate::facts::RuleFacts;
use crate::html::meaning_of;
use crate::read::GrammarDoc;
use crate::source::{RuleSource, SourcePart};
use crate::warnings::RuleWarning;
use base_ast::ast;
use base_ast::ast::RuleType;
use doc_markup::{
    MarkdownContents, MarkdownToken, MarkdownWord, push_markdown_section, start_markdown,
};
use std::alloc::{AllocError, Global};

/// Tokens so far.
#[derive(Drop)]
struct MarkdownBuilder<'t> {
    tokens: Vec<MarkdownToken<'t>>,
}

/// Returns the page of a grammar under a title, in Markdown. The only error is an allocation failure.
pub fn markdown_page(alloc: Global, title: &str, doc: &GrammarDoc<'_>) -> Result<String, AllocError>
    ensures { IfOk result
        (λ page. IsMarkdownPage title.now (rules_of doc.now.rules.value.items) (string_bytes page)) }
{
    let names = doc.names(alloc)?;
    let introduction = introduce(alloc, doc)?;
    let mut page = start_markdown(alloc, title, &introduction.tokens, &names)?;
    push_sections(alloc, doc, &names, &mut page)?;
    Ok(page)
}

/// Appends the sections of all rules.
fn push_sections(
    alloc: Global,
    doc: &GrammarDoc<'_>,
    names: &[&str],
    page: &mut String,
) -> Result<(), AllocError>
    requires { AreNames (rules_of doc.now.rules.value.items) names.now }
    ensures { OnOk result (EndsWithMarkdownSections names.now (rules_of doc.now.rules.value.items)
        (string_bytes page.old) (string_bytes page.new)) }
{
    for (number, rule) in doc.rules.value.iter().enumerate() {
        let contents = describe(alloc, doc, number, rule)?;
        push_markdown_section(alloc, rule, &contents, names, page)?;
    }
    Ok(())
}

/// The comment of a grammar, and the list of its rules.
fn introduce<'i>(alloc: Global, doc: &GrammarDoc<'i>) -> Result<MarkdownBuilder<'i>, AllocError>
    ensures { IfOk result (λ markdown. markdown_links markdown.tokens.items
        ≡ range_with_len 0 (length doc.now.rules.value.items)) }
{
    let mut markdown = MarkdownBuilder::new(alloc);
    markdown.comment(&doc.source.comment)?;
    markdown.rules(doc.rules.value.len())?;
    Ok(markdown)
}

/// The contents of the section of a rule.
fn describe<'i>(
    alloc: Global,
    doc: &GrammarDoc<'i>,
    number: usize,
    rule: &ast::Rule,
) -> Result<MarkdownContents<'i>, AllocError>
    ensures before { IfOk result
        (λ contents. AreMarkdownLinksWithin (length doc.now.rules.value.items) contents.before.items) }
    ensures after { IfOk result
        (λ contents. AreMarkdownLinksWithin (length doc.now.rules.value.items) contents.after.items) }
{
    let before = show_rule(alloc, doc, number, rule.ty)?;
    let after = show_facts(alloc, doc, number)?;
    Ok(MarkdownContents {
        before: before.tokens,
        after: after.tokens,
    })
}

/// Adds the meaning of the modifier, the comment and the text of a rule.
fn show_rule<'i>(
    alloc: Global,
    doc: &GrammarDoc<'i>,
    number: usize,
    ty: RuleType,
) -> Result<MarkdownBuilder<'i>, AllocError>
    ensures { IfOk result (λ markdown. markdown_links markdown.tokens.items ≡ []) }
{
    let mut markdown = MarkdownBuilder::new(alloc);
    markdown.emphasis(meaning_of(ty))?;
    match doc.source.rules.get(number) {
        Some(source) => {
            markdown.definition(source)?;
            Ok(markdown)
        }
        None => Ok(markdown),
    }
}

/// The facts of a rule.
fn show_facts<'i>(
    alloc: Global,
    doc: &GrammarDoc<'i>,
    number: usize,
) -> Result<MarkdownBuilder<'i>, AllocError>
    ensures { IfOk result
        (λ markdown. AreMarkdownLinksWithin (length doc.now.rules.value.items) markdown.tokens.items) }
{
    let mut markdown = MarkdownBuilder::new(alloc);
    match doc.facts.get(number) {
        Some(facts) => {
            markdown.facts(facts)?;
            Ok(markdown)
        }
        None => Ok(markdown),
    }
}

impl<'t> MarkdownBuilder<'t> {
    /// No tokens.
    fn new(alloc: Global) -> MarkdownBuilder<'t>
        ensures { markdown_links result.tokens.items ≡ [] }
    {
        MarkdownBuilder {
            tokens: Vec::new(alloc),
        }
    }

    /// Adds a token.
    fn put(&mut self, token: MarkdownToken<'t>) -> Result<(), AllocError>
        ensures { OnOk result (markdown_links self.new.tokens.items
            ≡ markdown_links self.old.tokens.items ++ markdown_token_links token.entry) }
    {
        self.tokens.push(token)?;
        Ok(())
    }

    /// Adds a word.
    fn word(&mut self, word: MarkdownWord) -> Result<(), AllocError>
        ensures { OnOk result (markdown_links self.new.tokens.items ≡ markdown_links self.old.tokens.items) }
    {
        self.put(MarkdownToken::Word(word))
    }

    /// Adds a text.
    fn text(&mut self, text: &'t str) -> Result<(), AllocError>
        ensures { OnOk result (markdown_links self.new.tokens.items ≡ markdown_links self.old.tokens.items) }
    {
        self.put(MarkdownToken::Text(text))
    }

    /// Adds a link to a rule.
    fn rule_link(&mut self, number: usize) -> Result<(), AllocError>
        ensures { OnOk result (markdown_links self.new.tokens.items
            ≡ markdown_links self.old.tokens.items ++ number ∷ []) }
    {
        self.put(MarkdownToken::RuleLink(number))
    }

    /// Adds a list of links to the first `count` rules.
    fn rules(&mut self, count: usize) -> Result<(), AllocError>
        ensures { OnOk result (markdown_links self.new.tokens.items
            ≡ markdown_links self.old.tokens.items ++ range_with_len 0 count) }
    {
        for number in 0..count {
            self.word(MarkdownWord::Item)?;
            self.rule_link(number)?;
            self.word(MarkdownWord::LineFeed)?;
        }
        self.word(MarkdownWord::LineFeed)
    }

    /// Adds a paragraph that is emphasized, unless it is empty.
    fn emphasis(&mut self, text: &'t str) -> Result<(), AllocError>
        ensures { OnOk result (markdown_links self.new.tokens.items ≡ markdown_links self.old.tokens.items) }
    {
        if text.is_empty() {
            return Ok(());
        }
        self.word(MarkdownWord::Emphasis)?;
        self.text(text)?;
        self.word(MarkdownWord::Emphasis)?;
        self.word(MarkdownWord::BlockEnd)
    }

    /// Adds the lines of a comment as paragraphs, which empty lines separate.
    fn comment(&mut self, lines: &[&'t str]) -> Result<(), AllocError>
        ensures { OnOk result (markdown_links self.new.tokens.items ≡ markdown_links self.old.tokens.items) }
    {
        for line in lines {
            self.text(line.trim_start())?;
            self.word(MarkdownWord::LineFeed)?;
        }
        if lines.is_empty() {
            return Ok(());
        }
        self.word(MarkdownWord::LineFeed)
    }

    /// Adds a rule with its comment.
    fn definition(&mut self, source: &RuleSource<'t>) -> Result<(), AllocError>
        ensures { OnOk result (markdown_links self.new.tokens.items ≡ markdown_links self.old.tokens.items) }
    {
        self.comment(&source.comment)?;
        self.source(source)
    }

    /// Adds a rule as it is written.
    fn source(&mut self, source: &RuleSource<'t>) -> Result<(), AllocError>
        ensures { OnOk result (markdown_links self.new.tokens.items ≡ markdown_links self.old.tokens.items) }
    {
        self.word(MarkdownWord::CodeBlock)?;
        for part in &source.parts {
            self.code(part)?;
        }
        self.word(MarkdownWord::BlockEnd)
    }

    /// Adds a part of a rule's text.
    fn code(&mut self, part: &SourcePart<'t>) -> Result<(), AllocError>
        ensures { OnOk result (markdown_links self.new.tokens.items ≡ markdown_links self.old.tokens.items) }
    {
        match part {
            SourcePart::Name(text) => self.put(MarkdownToken::Code(*text)),
            SourcePart::Other(text) => self.put(MarkdownToken::Code(*text)),
        }
    }

    /// Adds the facts of a rule, as a list.
    fn facts(&mut self, facts: &RuleFacts<'t>) -> Result<(), AllocError>
        ensures { OnOk result (markdown_links self.new.tokens.items
            ≡ markdown_links self.old.tokens.items ++ facts.now.callers.items) }
    {
        self.callers(facts)?;
        self.first_set(&facts.first_set.labels, facts.first_set.has_more)?;
        self.nullable(facts.is_nullable)?;
        self.warnings(&facts.warnings)
    }

    /// Adds that a rule may match nothing, if it may.
    fn nullable(&mut self, is_nullable: bool) -> Result<(), AllocError>
        ensures { OnOk result (markdown_links self.new.tokens.items ≡ markdown_links self.old.tokens.items) }
    {
        if !is_nullable {
            return Ok(());
        }
        self.item(MarkdownWord::MayMatchNothing)?;
        self.word(MarkdownWord::LineFeed)
    }

    /// Adds the warnings of a rule.
    fn warnings(&mut self, warnings: &[RuleWarning<'t>]) -> Result<(), AllocError>
        ensures { OnOk result (markdown_links self.new.tokens.items ≡ markdown_links self.old.tokens.items) }
    {
        for warning in warnings {
            self.item(MarkdownWord::Warning)?;
            self.word(MarkdownWord::CodeStart)?;
            self.text(warning.text)?;
            self.word(MarkdownWord::CodeEnd)?;
            self.word(MarkdownWord::Colon)?;
            self.text(warning.code.message())?;
            self.word(MarkdownWord::LineFeed)?;
        }
        Ok(())
    }

    /// Adds the start of an item of a list, with its first word.
    fn item(&mut self, word: MarkdownWord) -> Result<(), AllocError>
        ensures { OnOk result (markdown_links self.new.tokens.items ≡ markdown_links self.old.tokens.items) }
    {
        self.word(MarkdownWord::Item)?;
        self.word(word)
    }

    /// Adds the rules that call a rule.
    fn callers(&mut self, facts: &RuleFacts<'_>) -> Result<(), AllocError>
        ensures { OnOk result (markdown_links self.new.tokens.items
            ≡ markdown_links self.old.tokens.items ++ facts.now.callers.items) }
    {
        self.item(MarkdownWord::UsedIn)?;
        self.other_use(facts)?;
        for (place, caller) in facts.callers.iter().enumerate() {
            self.comma(place > 0 || facts.is_implicit || facts.is_start)?;
            self.rule_link(*caller)?;
        }
        self.word(MarkdownWord::LineFeed)
    }

    /// Adds how else a rule is used than by the rules that call it.
    fn other_use(&mut self, facts: &RuleFacts<'_>) -> Result<(), AllocError>
        ensures { OnOk result (markdown_links self.new.tokens.items ≡ markdown_links self.old.tokens.items) }
    {
        if facts.is_implicit {
            self.word(MarkdownWord::Implicitly)
        } else if facts.is_start {
            self.text("the start of matching")
        } else if facts.callers.is_empty() {
            self.word(MarkdownWord::NoOtherRule)
        } else {
            Ok(())
        }
    }

    /// Adds a comma, if there is to be one.
    fn comma(&mut self, has_comma: bool) -> Result<(), AllocError>
        ensures { OnOk result (markdown_links self.new.tokens.items ≡ markdown_links self.old.tokens.items) }
    {
        if has_comma {
            self.word(MarkdownWord::Comma)
        } else {
            Ok(())
        }
    }

    /// Adds the terminals that may begin a rule.
    fn first_set(&mut self, labels: &[String], has_more: bool) -> Result<(), AllocError>
        ensures { OnOk result (markdown_links self.new.tokens.items ≡ markdown_links self.old.tokens.items) }
    {
        if labels.is_empty() {
            return Ok(());
        }
        self.item(MarkdownWord::BeginsWith)?;
        for (place, label) in labels.iter().enumerate() {
            self.comma(place > 0)?;
            self.label(label)?;
        }
        self.end_first_set(has_more)
    }

    /// Adds a terminal, as code.
    fn label(&mut self, label: &String) -> Result<(), AllocError>
        ensures { OnOk result (markdown_links self.new.tokens.items ≡ markdown_links self.old.tokens.items) }
    {
        self.word(MarkdownWord::CodeStart)?;
        self.put(MarkdownToken::Label(label.clone()?))?;
        self.word(MarkdownWord::CodeEnd)
    }

    /// Adds that there are more terminals, if there are, and the end of the line.
    fn end_first_set(&mut self, has_more: bool) -> Result<(), AllocError>
        ensures { OnOk result (markdown_links self.new.tokens.items ≡ markdown_links self.old.tokens.items) }
    {
        if has_more {
            self.word(MarkdownWord::AndMore)?;
        }
        self.word(MarkdownWord::LineFeed)
    }
}
