//! A builder of markup: elements, attributes and path commands as tokens.
use crate::tokens::Markup;
use crate::vocabulary::{Attribute, Class, PathCommand, Tag};
use std::alloc::{AllocError, Global};

/// Tokens so far.
#[derive(Drop)]
pub struct MarkupBuilder<'t> {
    pub tokens: Vec<Markup<'t>>,
}

impl<'t> MarkupBuilder<'t> {
    ghost use Rattle.std.specs.Prelude.{◌≡◌, ◌∷◌, ◌++◌, [], OnOk};
    ghost use Rattle.doc_markup.specs.declared.tokens.Markup.TheVariants as token;
    ghost use Rattle.doc_markup.specs.declared.vocabulary.PathCommand.TheVariants as path;
    ghost use Rattle.doc_markup.specs.declared.vocabulary.Tag.TheVariants as tag;

    /// No tokens.
    pub fn new(alloc: Global) -> MarkupBuilder<'t>
        ensures { result.tokens.items ≡ [] }
    {
        MarkupBuilder {
            tokens: Vec::new(alloc),
        }
    }

    /// Adds a token.
    pub fn put(&mut self, token: Markup<'t>) -> Result<(), AllocError>
        ensures { OnOk result (self.new.tokens.items ≡ self.old.tokens.items ++ token.entry ∷ []) }
    {
        self.tokens.push(token)?;
        Ok(())
    }

    /// Adds a start tag without attributes.
    pub fn start(&mut self, tag: Tag) -> Result<(), AllocError>
        ensures { OnOk result (self.new.tokens.items ≡ self.old.tokens.items
            ++ token.Open tag ∷ token.TagEnd ∷ []) }
    {
        self.put(Markup::Open(tag))?;
        self.put(Markup::TagEnd)
    }

    /// Adds a start tag with a class.
    pub fn start_with_class(&mut self, tag: Tag, class: Class) -> Result<(), AllocError>
        ensures { OnOk result (self.new.tokens.items ≡ self.old.tokens.items
            ++ token.Open tag ∷ token.Class class ∷ token.TagEnd ∷ []) }
    {
        self.put(Markup::Open(tag))?;
        self.put(Markup::Class(class))?;
        self.put(Markup::TagEnd)
    }

    /// Adds an end tag.
    pub fn close(&mut self, tag: Tag) -> Result<(), AllocError>
        ensures { OnOk result (self.new.tokens.items ≡ self.old.tokens.items ++ token.Close tag ∷ []) }
    {
        self.put(Markup::Close(tag))
    }

    /// Adds an end tag and a line feed.
    pub fn close_line(&mut self, tag: Tag) -> Result<(), AllocError>
        ensures { OnOk result (self.new.tokens.items ≡ self.old.tokens.items
            ++ token.Close tag ∷ token.LineFeed ∷ []) }
    {
        self.close(tag)?;
        self.put(Markup::LineFeed)
    }

    /// Adds an element that contains a text.
    pub fn element(&mut self, tag: Tag, text: &'t str) -> Result<(), AllocError>
        ensures { OnOk result (self.new.tokens.items ≡ self.old.tokens.items
            ++ token.Open tag ∷ token.TagEnd ∷ token.Text text.entry ∷ token.Close tag ∷ []) }
    {
        self.start(tag)?;
        self.put(Markup::Text(text))?;
        self.close(tag)
    }

    /// Adds an attribute whose value is a number.
    pub fn attribute(&mut self, attribute: Attribute, value: u64) -> Result<(), AllocError>
        ensures { OnOk result (self.new.tokens.items ≡ self.old.tokens.items
            ++ token.Attribute attribute ∷ token.Number value ∷ token.Quote ∷ []) }
    {
        self.put(Markup::Attribute(attribute))?;
        self.put(Markup::Number(value))?;
        self.put(Markup::Quote)
    }

    /// Adds a command of a path to a point.
    pub fn command_to(&mut self, command: PathCommand, x: u64, y: u64) -> Result<(), AllocError>
        ensures { OnOk result (self.new.tokens.items ≡ self.old.tokens.items
            ++ token.Command command ∷ token.Number x ∷ token.Command path.Separator ∷ token.Number y ∷ []) }
    {
        self.put(Markup::Command(command))?;
        self.put(Markup::Number(x))?;
        self.put(Markup::Command(PathCommand::Separator))?;
        self.put(Markup::Number(y))
    }

    /// Adds a command of a path along one axis.
    pub fn command(&mut self, command: PathCommand, to: u64) -> Result<(), AllocError>
        ensures { OnOk result (self.new.tokens.items ≡ self.old.tokens.items
            ++ token.Command command ∷ token.Number to ∷ []) }
    {
        self.put(Markup::Command(command))?;
        self.put(Markup::Number(to))
    }

    /// Adds a link to the rule of a number, which shows the rule's name.
    pub fn rule_link(&mut self, rule: usize) -> Result<(), AllocError>
        ensures { OnOk result (self.new.tokens.items ≡ self.old.tokens.items
            ++ token.Open tag.A ∷ token.Link rule ∷ token.TagEnd ∷ token.RuleName rule
            ∷ token.Close tag.A ∷ []) }
    {
        self.put(Markup::Open(Tag::A))?;
        self.put(Markup::Link(rule))?;
        self.put(Markup::TagEnd)?;
        self.put(Markup::RuleName(rule))?;
        self.close(Tag::A)
    }
}
