//! Expected trees, read from S-expressions.

use std::alloc::{AllocError, Global};

/// One event of a walk over expected trees.
#[derive(Drop)]
pub enum Event<'f> {
    /// Into a tree of the rule named `rule`. If `text` is given, it is the part of the text that the tree
    /// matched.
    Enter { rule: &'f str, text: Option<String> },
    /// Out of a tree.
    Leave,
}

/// Why a text is no list of trees.
#[derive(Drop)]
pub enum ReadError {
    /// An allocation failed.
    Memory,
    /// What is wrong, and the byte of the text at which it was found.
    Wrong { place: usize, why: &'static str },
}

/// Why a reader does not continue.
#[derive(Drop)]
enum Flaw {
    Memory,
    Wrong(&'static str),
}

impl From<AllocError> for Flaw {
    fn from(_error: AllocError) -> Self {
        Flaw::Memory
    }
}

/// A reader of trees: the rest of the text, how many trees are open, and the events so far.
#[derive(Drop)]
struct Reader<'f> {
    rest: &'f str,
    depth: usize,
    events: Vec<Event<'f>>,
}

const NOT_CLOSED: &str = "a string has no closing quote";

/// Reads the trees in `text`, such as `(rule (rule "text"))`. Returns them as a list of events.
/// White space between the parts has no meaning. A comment begins with `;`, and ends at the end of
/// its line.
pub fn read_trees<'f>(alloc: Global, text: &'f str) -> Result<Vec<Event<'f>>, ReadError> {
    let mut reader = Reader {
        rest: text,
        depth: 0,
        events: Vec::new(alloc),
    };
    let outcome = reader.read_all(alloc);
    let Reader { rest, events, .. } = reader;
    match outcome {
        Ok(()) => Ok(events),
        Err(Flaw::Memory) => Err(ReadError::Memory),
        Err(Flaw::Wrong(why)) => Err(ReadError::Wrong {
            place: text.len().saturating_sub(rest.len()),
            why,
        }),
    }
}

impl<'f> Reader<'f> {
    /// Reads to the end of the text.
    fn read_all(&mut self, alloc: Global) -> Result<(), Flaw> {
        // each turn takes a character at least
        for _ in 0..self.rest.len() {
            self.rest = self.rest.trim_start();
            if self.rest.is_empty() {
                break;
            }
            self.read_sign(alloc)?;
        }
        if self.depth == 0 {
            Ok(())
        } else {
            Err(Flaw::Wrong("a `(` has no `)`"))
        }
    }

    /// Reads a comment, the start of a tree or the end of one.
    fn read_sign(&mut self, alloc: Global) -> Result<(), Flaw> {
        if let Some(rest) = self.rest.strip_prefix('(') {
            self.rest = rest.trim_start();
            return self.read_head(alloc);
        }
        if self.rest.starts_with(')') {
            return self.read_end();
        }
        if self.rest.starts_with(';') {
            self.rest = match self.rest.split_once('\n') {
                Some((_, rest)) => rest,
                None => "",
            };
            return Ok(());
        }
        Err(Flaw::Wrong("a tree begins with `(`, and ends with `)`"))
    }

    /// Reads the name of a rule, and the text of its tree if there is one.
    fn read_head(&mut self, alloc: Global) -> Result<(), Flaw> {
        let end = find_end_of_name(self.rest);
        let rule = self.rest.get(..end).unwrap_or("");
        if rule.is_empty() {
            return Err(Flaw::Wrong("the name of a rule follows `(`"));
        }
        self.rest = self.rest.get(end..).unwrap_or("");
        self.rest = self.rest.strip_prefix(':').unwrap_or(self.rest);
        self.rest = self.rest.trim_start();
        let text = match self.rest.strip_prefix('"') {
            Some(rest) => {
                self.rest = rest;
                Some(self.read_text(alloc)?)
            }
            None => None,
        };
        self.depth = self.depth.saturating_add(1);
        self.add(Event::Enter { rule, text })?;
        Ok(())
    }

    /// Adds an event.
    fn add(&mut self, event: Event<'f>) -> Result<(), AllocError> {
        self.events.push(event)?;
        Ok(())
    }

    /// Reads `)`.
    fn read_end(&mut self) -> Result<(), Flaw> {
        if self.depth == 0 {
            return Err(Flaw::Wrong("a `)` has no `(`"));
        }
        self.rest = self.rest.strip_prefix(')').unwrap_or(self.rest);
        self.depth = self.depth.saturating_sub(1);
        self.add(Event::Leave)?;
        Ok(())
    }

    /// Reads a text up to its closing quote.
    fn read_text(&mut self, alloc: Global) -> Result<String, Flaw> {
        let mut text = String::new(alloc);
        for _ in 0..self.rest.len() {
            let Some(end) = find_mark(self.rest) else {
                return Err(Flaw::Wrong(NOT_CLOSED));
            };
            text.push_str(self.rest.get(..end).unwrap_or(""))?;
            self.rest = self.rest.get(end..).unwrap_or("");
            if let Some(rest) = self.rest.strip_prefix('"') {
                self.rest = rest;
                return Ok(text);
            }
            text.push(self.read_escape()?)?;
        }
        Err(Flaw::Wrong(NOT_CLOSED))
    }

    /// Reads an escape, and returns the character that it stands for.
    fn read_escape(&mut self) -> Result<char, Flaw> {
        if let Some(rest) = self.rest.strip_prefix("\\u{") {
            return self.read_code(rest);
        }
        let mut signs = self.rest.chars();
        let _ = signs.next();
        let character = match signs.next() {
            Some('n') => '\n',
            Some('r') => '\r',
            Some('t') => '\t',
            Some('0') => '\0',
            Some('"') => '"',
            Some('\'') => '\'',
            Some('\\') => '\\',
            _ => return Err(Flaw::Wrong(r#"an escape is \" \' \\ \n \r \t \0 or \u{..}"#)),
        };
        self.rest = self.rest.get(2..).unwrap_or("");
        Ok(character)
    }

    /// Reads the digits of a character, and `}`.
    fn read_code(&mut self, rest: &'f str) -> Result<char, Flaw> {
        let wrong = "a character is written \\u{..}, in hexadecimal digits";
        let Some((digits, rest)) = rest.split_once('}') else {
            return Err(Flaw::Wrong(wrong));
        };
        let Ok(code) = u32::from_str_radix(digits, 16) else {
            return Err(Flaw::Wrong(wrong));
        };
        self.rest = rest;
        char::from_u32(code).ok_or(Flaw::Wrong(wrong))
    }
}

/// Returns the byte at which the name at the start of `text` ends.
fn find_end_of_name(text: &str) -> usize {
    text.find(|c: char| !(c.is_ascii_alphanumeric() || c == '_'))
        .unwrap_or(text.len())
}

/// Returns the byte of the first quote or backslash of `text`.
fn find_mark(text: &str) -> Option<usize> {
    text.find(|c: char| c == '"' || c == '\\')
}
