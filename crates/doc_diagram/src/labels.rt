//! The texts in a diagram.
ghost use Rattle.std.specs.Prelude.{◌≡◌, ◌++◌, IfOk, List, codes, string_bytes, ℕ};
ghost use Rattle.base_ast.specs.Ast.{expression_of};
ghost use Rattle.doc_diagram.specs.Labels.{caption_text, first_characters, leaf_label, shortened};

use base_ast::ast::Expr;
use std::alloc::{AllocError, Global};

/// The number of characters that a label shows of a longer text.
const SHOWN: usize = 40;

/// Returns the label of an expression without operands: the expression as it is printed, a range without its
/// parentheses; of a longer text the first 40 characters, and an ellipsis. The only error is an allocation
/// failure.
pub fn leaf_label(alloc: Global, expr: &Expr) -> Result<String, AllocError>
    ensures { IfOk result (λ label. string_bytes label ≡ leaf_label (expression_of expr.now)) }
{
    let printed = expr.to_string(alloc)?;
    match expr {
        Expr::Range(_, _) => shorten(alloc, strip_parentheses(printed.as_str())),
        _ => shorten(alloc, printed.as_str()),
    }
}

/// A text without the parentheses around it.
fn strip_parentheses(text: &str) -> &str
    ensures { (inner : List ℕ) → text.now ≡ codes "(" ++ inner ++ codes ")" → result.now ≡ inner }
{
    match text.strip_prefix('(') {
        Some(rest) => match rest.strip_suffix(')') {
            Some(inner) => inner,
            None => text,
        },
        None => text,
    }
}

/// A text, or its first 40 characters with an ellipsis.
fn shorten(alloc: Global, text: &str) -> Result<String, AllocError>
    ensures { IfOk result (λ label. string_bytes label ≡ shortened text.now) }
{
    let mut label = first_characters(alloc, text)?;
    if label.len() == text.len() {
        return Ok(label);
    }
    label.push('…')?;
    Ok(label)
}

/// The first 40 characters of a text.
fn first_characters(alloc: Global, text: &str) -> Result<String, AllocError>
    ensures { IfOk result (λ start. string_bytes start ≡ first_characters text.now) }
{
    let mut start = String::new(alloc);
    for character in text.chars().take(SHOWN) {
        start.push(character)?;
    }
    Ok(start)
}

/// The text at a box that has children.
#[derive(Clone, Copy)]
pub enum Caption<'e> {
    Empty,
    Fixed(&'static str),
    Tag(&'e str),
    Exactly(u32),
    AtLeast(u32),
    AtMost(u32),
    Between(u32, u32),
}

impl Caption<'_> {
    /// Returns the caption as text.
    pub fn text(self, alloc: Global) -> Result<String, AllocError>
        ensures { IfOk result (λ text. string_bytes text ≡ caption_text self.entry) }
    {
        match self {
            Caption::Empty => Ok(String::new(alloc)),
            Caption::Fixed(text) => String::from_str(alloc, text),
            Caption::Tag(tag) => {
                let tag = shorten(alloc, tag)?;
                format!(in alloc; "#{tag}")
            }
            Caption::Exactly(count) => format!(in alloc; "{count} times"),
            Caption::AtLeast(count) => format!(in alloc; "{count} times or more"),
            Caption::AtMost(count) => format!(in alloc; "up to {count} times"),
            Caption::Between(least, most) => {
                let mut text = format!(in alloc; "{least} to {most}")?;
                text.push_str(" times")?;
                Ok(text)
            }
        }
    }
}
