//! The text of a grammar by rules: their comments, and the names in them.
use base_language::grammar::Rule;
use front_nodes::forest::Forest;
use front_nodes::nodes::TokenNode;
use std::alloc::{AllocError, Global};
use std::mem;

/// A part of a rule's text.
#[derive(Clone, Copy)]
pub enum SourcePart<'i> {
    /// The name of a rule or a builtin.
    Name(&'i str),
    /// Any other text.
    Other(&'i str),
}

/// A rule as it is written.
#[derive(Drop)]
pub struct RuleSource<'i> {
    /// The lines of its comment, without `///`.
    pub comment: Vec<&'i str>,
    /// Its text, in parts. The first name is its own.
    pub parts: Vec<SourcePart<'i>>,
    /// The byte of the grammar at which it begins.
    pub start: usize,
}

/// A grammar as it is written.
#[derive(Drop)]
pub struct GrammarSource<'i> {
    /// The lines of its comment, without `//!`. Those for pest-lint are no part of it, nor are empty lines
    /// before them.
    pub comment: Vec<&'i str>,
    /// Its rules, in order.
    pub rules: Vec<RuleSource<'i>>,
}

/// A reader of nodes.
#[derive(Drop)]
struct SourceReader<'i> {
    alloc: Global,
    text: &'i str,
    /// The source so far.
    source: GrammarSource<'i>,
    /// The comment of the next rule.
    comment: Vec<&'i str>,
    /// The part of the text that is in the current rule, and in none of its parts yet, in bytes.
    start: usize,
    end: usize,
    /// Whether the current rule has its name already.
    is_named: bool,
}

/// Reads the comments and the texts of a grammar's rules. The only error is an allocation failure.
pub fn read_source<'i>(
    alloc: Global,
    forest: &Forest<'i>,
) -> Result<GrammarSource<'i>, AllocError> {
    let mut reader = SourceReader {
        alloc,
        text: forest.get_input(),
        source: GrammarSource {
            comment: Vec::new(alloc),
            rules: Vec::new(alloc),
        },
        comment: Vec::new(alloc),
        start: 0,
        end: 0,
        is_named: false,
    };
    reader.read_all(forest.nodes())?;
    let SourceReader { source, .. } = reader;
    Ok(source)
}

impl<'i> SourceReader<'i> {
    /// Reads all nodes, in order.
    fn read_all(&mut self, nodes: &[TokenNode]) -> Result<(), AllocError> {
        for node in nodes {
            self.read(*node)?;
        }
        self.finish_rule()
    }

    /// Reads a node, without those inside it.
    fn read(&mut self, node: TokenNode) -> Result<(), AllocError> {
        let (start, end) = (node.start as usize, node.end as usize);
        match node.rule {
            Rule::grammar_doc => {
                let line = self.text_between(start, end);
                self.add_line(strip_marker(line, "//!"))?;
            }
            Rule::line_doc => {
                let line = self.text_between(start, end);
                self.comment.push(strip_marker(line, "///"))?;
            }
            Rule::grammar_rule => {
                self.finish_rule()?;
                self.start = start;
                self.end = end;
            }
            Rule::identifier => self.add_name(start, end)?,
            _ => {}
        }
        Ok(())
    }

    /// Adds a line to the grammar's comment, except for one for pest-lint.
    fn add_line(&mut self, line: &'i str) -> Result<(), AllocError> {
        if line.starts_with("pest-lint:") {
            drop_empty_end(&mut self.source.comment);
        } else {
            self.source.comment.push(line)?;
        }
        Ok(())
    }

    /// The text between two positions.
    fn text_between(&self, start: usize, end: usize) -> &'i str {
        self.text.get(start..end).unwrap_or("")
    }

    /// Adds the name between two positions, which is that of a rule or of a call, to the current rule.
    fn add_name(&mut self, start: usize, end: usize) -> Result<(), AllocError> {
        if !self.is_named {
            self.is_named = true;
            let comment = mem::replace(&mut self.comment, Vec::new(self.alloc));
            self.source.rules.push(RuleSource {
                comment,
                parts: Vec::new(self.alloc),
                start,
            })?;
        }
        self.add_text(start)?;
        let name = self.text_between(start, end);
        self.add_part(SourcePart::Name(name))?;
        self.start = end;
        Ok(())
    }

    /// Adds the text up to a position.
    fn add_text(&mut self, end: usize) -> Result<(), AllocError> {
        let start = self.start;
        let text = self.text_between(start, end);
        self.add_part(SourcePart::Other(text))
    }

    /// Adds a part to the current rule.
    fn add_part(&mut self, part: SourcePart<'i>) -> Result<(), AllocError> {
        if let Some(rule) = self.source.rules.last_mut() {
            rule.parts.push(part)?;
        }
        Ok(())
    }

    /// Adds the rest of the current rule.
    fn finish_rule(&mut self) -> Result<(), AllocError> {
        if self.is_named {
            self.is_named = false;
            return self.add_text(self.end);
        }
        Ok(())
    }
}

/// Takes an empty line away that ends a comment.
fn drop_empty_end(lines: &mut Vec<&str>) {
    if lines.last().copied() == Some("") {
        lines.pop();
    }
}

/// A comment's line without its marker and one blank after it.
fn strip_marker<'i>(line: &'i str, marker: &str) -> &'i str {
    let line = line.strip_prefix(marker).unwrap_or(line);
    line.strip_prefix(" ").unwrap_or(line).trim_end()
}
