//! Bodies of rules.
use lint_lexemes::{Lexeme, is_sign, lexemes};
use std::alloc::{AllocError, Global};

/// The body of a rule, in bytes of the text.
#[derive(Clone, Copy)]
pub(crate) struct RuleBody {
    /// The first byte of the rule's name.
    pub name: usize,
    pub has_modifier: bool,
    /// The opening brace.
    pub brace: usize,
    /// The first byte of the expression, and the one after it.
    pub first: usize,
    pub last: usize,
    /// The expression is a choice.
    pub has_choice: bool,
}

/// The rule that is read, and how many brackets are open in its body.
#[derive(Clone, Copy)]
struct BodyReader {
    body: RuleBody,
    depth: usize,
    before: Option<Lexeme>,
}

/// The bodies of the rules of an accepted text, in order. The time is linear in the text.
pub(crate) fn bodies_of(alloc: Global, text: &str) -> Result<Vec<RuleBody>, AllocError> {
    let lexemes = lexemes(alloc, text)?;
    let mut bodies = Vec::new(alloc);
    let mut reader = BodyReader {
        body: empty_body(0),
        depth: 0,
        before: None,
    };
    for lexeme in &lexemes {
        if let Some(body) = reader.read(*lexeme) {
            bodies.push(body)?;
        }
        reader.before = Some(*lexeme);
    }
    Ok(bodies)
}

/// A body that is not read yet, of a rule whose name begins at a byte.
fn empty_body(name: usize) -> RuleBody {
    RuleBody {
        name,
        has_modifier: false,
        brace: name,
        first: name,
        last: name,
        has_choice: false,
    }
}

impl BodyReader {
    /// Reads a lexeme; returns the body that it ends, if it ends one.
    fn read(&mut self, lexeme: Lexeme) -> Option<RuleBody> {
        if self.depth == 0 {
            self.read_outside(lexeme);
            return None;
        }
        if is_open(lexeme) {
            self.depth = self.depth.saturating_add(1);
        } else if is_closed(lexeme) {
            self.depth = self.depth.saturating_sub(1);
            if self.depth == 0 {
                return Some(self.body);
            }
        } else if self.depth == 1 && is_sign(lexeme, b'|') {
            self.body.has_choice = true;
        }
        if self.body.first == self.body.name {
            self.body.first = lexeme.start;
        }
        self.body.last = lexeme.end;
        None
    }

    /// Reads a lexeme outside of bodies.
    fn read_outside(&mut self, lexeme: Lexeme) {
        if is_sign(lexeme, b'=') {
            self.body = empty_body(self.before.map_or(0, |name| name.start));
        } else if is_sign(lexeme, b'{') {
            self.body.brace = lexeme.start;
            self.body.has_modifier = !self.before.is_some_and(|before| is_sign(before, b'='));
            self.depth = 1;
        }
    }
}

/// Whether a lexeme opens a bracket.
fn is_open(lexeme: Lexeme) -> bool {
    is_sign(lexeme, b'(') || is_sign(lexeme, b'[') || is_sign(lexeme, b'{')
}

/// Whether a lexeme closes a bracket.
fn is_closed(lexeme: Lexeme) -> bool {
    is_sign(lexeme, b')') || is_sign(lexeme, b']') || is_sign(lexeme, b'}')
}

/// The body of the last rule whose name begins at a byte or before it.
pub(crate) fn body_around(bodies: &[RuleBody], position: usize) -> Option<RuleBody> {
    let count = bodies.partition_point(|body| body.name <= position);
    bodies.get(count.checked_sub(1)?).copied()
}
