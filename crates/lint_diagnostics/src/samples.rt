//! Pieces of a rule.
ghost use Rattle.std.specs.Prelude.{◌≡◌, length, true};
ghost use Rattle.std.specs.List.{list_all};
ghost use Rattle.front_names.specs.CharSets.{has_character};

use base_ast::optimized::{OptimizedExpr, OptimizedRule};
use front_names::{Builtin, CharSet};
use std::alloc::{AllocError, Global};
use std::collections::HashMap;

/// The most pieces of a rule.
const MOST_PIECES: usize = 8;

/// The most parts of expressions that are looked at for the pieces of a rule, and for one piece.
const MOST_PARTS: usize = 100;

/// The most bytes of a piece.
const MOST_BYTES: usize = 40;

/// The bodies of rules by their names.
#[derive(Drop)]
pub(crate) struct RuleBodies<'r> {
    bodies: HashMap<&'r str, &'r OptimizedExpr>,
}

impl<'r> RuleBodies<'r> {
    /// Builds the index. The only error is an allocation failure.
    pub(crate) fn new(
        alloc: Global,
        rules: &'r [OptimizedRule],
    ) -> Result<RuleBodies<'r>, AllocError> {
        let mut bodies = HashMap::new(alloc);
        for rule in rules {
            bodies.insert(rule.name.as_str(), &rule.expr)?;
        }
        Ok(RuleBodies { bodies })
    }

    /// The body of the rule named `name`.
    fn body_of(&self, name: &str) -> Option<&'r OptimizedExpr> {
        self.bodies.get(name).copied()
    }
}

/// Returns the pieces of the rule named `rule`, without duplicates. If no rule has the name, there are none.
pub(crate) fn pieces_of(
    alloc: Global,
    bodies: &RuleBodies<'_>,
    rule: &str,
) -> Result<Vec<String>, AllocError> {
    let mut pieces = Vec::new(alloc);
    let Some(body) = bodies.body_of(rule) else {
        return Ok(pieces);
    };
    let mut waiting = Vec::new(alloc);
    waiting.push(body)?;
    for _ in 0..MOST_PARTS {
        let Some(part) = waiting.pop() else {
            return Ok(pieces);
        };
        add_piece(alloc, bodies, part, &mut pieces)?;
        push_operands(part, &mut waiting)?;
    }
    Ok(pieces)
}

/// Adds the piece of a part, if it has one.
fn add_piece<'r>(
    alloc: Global,
    bodies: &RuleBodies<'r>,
    part: &'r OptimizedExpr,
    pieces: &mut Vec<String>,
) -> Result<(), AllocError> {
    let Some(source) = piece_source(part) else {
        return Ok(());
    };
    let Some(piece) = sample_of(alloc, bodies, source)? else {
        return Ok(());
    };
    if pieces.len() < MOST_PIECES && !piece.is_empty() && !pieces.contains(&piece) {
        pieces.push(piece)?;
    }
    Ok(())
}

/// The expression of which a part has a sample as a piece: a repetition has one turn.
fn piece_source(part: &OptimizedExpr) -> Option<&OptimizedExpr> {
    match part {
        OptimizedExpr::Str(_)
        | OptimizedExpr::Insens(_)
        | OptimizedExpr::Range(_, _)
        | OptimizedExpr::Ident(_) => Some(part),
        OptimizedExpr::Rep(inner) | OptimizedExpr::RepOnce(inner) => Some(inner),
        _ => None,
    }
}

/// Pushes the operands of an expression on a stack, the left one on top.
fn push_operands<'e>(
    part: &'e OptimizedExpr,
    waiting: &mut Vec<&'e OptimizedExpr>,
) -> Result<(), AllocError> {
    match part {
        OptimizedExpr::Seq(left, right) | OptimizedExpr::Choice(left, right) => {
            waiting.push(right)?;
            waiting.push(left)?;
        }
        OptimizedExpr::PosPred(inner)
        | OptimizedExpr::NegPred(inner)
        | OptimizedExpr::Opt(inner)
        | OptimizedExpr::Rep(inner)
        | OptimizedExpr::RepOnce(inner)
        | OptimizedExpr::Push(inner)
        | OptimizedExpr::NodeTag(inner, _)
        | OptimizedExpr::RestoreOnErr(inner) => waiting.push(inner)?,
        _ => {}
    }
    Ok(())
}

/// Returns a text that an expression may match: by the first alternative of each choice, or by the last one
/// if that has no end; none if neither has.
fn sample_of<'r>(
    alloc: Global,
    bodies: &RuleBodies<'r>,
    expr: &'r OptimizedExpr,
) -> Result<Option<String>, AllocError> {
    match sample_by(alloc, bodies, expr, false)? {
        Some(text) => Ok(Some(text)),
        None => sample_by(alloc, bodies, expr, true),
    }
}

/// Returns a text that an expression may match, by the first or the last alternative of each choice, and
/// without what may be left out; none if more than some parts or bytes make it up.
fn sample_by<'r>(
    alloc: Global,
    bodies: &RuleBodies<'r>,
    expr: &'r OptimizedExpr,
    has_last: bool,
) -> Result<Option<String>, AllocError> {
    let mut text = String::new(alloc);
    let mut waiting = Vec::new(alloc);
    waiting.push(expr)?;
    for _ in 0..MOST_PARTS {
        let Some(part) = waiting.pop() else {
            return Ok(Some(text));
        };
        text.push_str(own_text(bodies, part))?;
        if text.len() > MOST_BYTES {
            return Ok(None);
        }
        push_needed(bodies, part, has_last, &mut waiting)?;
    }
    Ok(None)
}

/// The text of an expression without operands; of a range its first character.
fn own_text<'e>(bodies: &RuleBodies<'_>, part: &'e OptimizedExpr) -> &'e str {
    match part {
        OptimizedExpr::Str(text) | OptimizedExpr::Insens(text) => text.as_str(),
        OptimizedExpr::Range(low, _) => low.as_str(),
        OptimizedExpr::Ident(name) if bodies.body_of(name.as_str()).is_none() => {
            builtin_text(name.as_str())
        }
        _ => "",
    }
}

/// A character of a builtin's set, and nothing for one that takes nothing on the empty stack.
fn builtin_text(name: &str) -> &'static str {
    match Builtin::from_name(name) {
        Some(Builtin::Set(set)) => sample_character(set),
        Some(Builtin::Newline) => "\n",
        Some(Builtin::Soi | Builtin::Eoi) => "",
        Some(Builtin::Peek | Builtin::PeekAll | Builtin::Pop | Builtin::PopAll | Builtin::Drop) =>
            "",
        None => property_text(name),
    }
}

/// A character of a set.
fn sample_character(set: CharSet) -> &'static str
    ensures one { length result.now ≡ 1 }
    ensures contained { list_all (has_character set) result.now ≡ true }
{
    match set {
        CharSet::AsciiDigit | CharSet::AsciiNonzeroDigit => "1",
        CharSet::AsciiBinDigit | CharSet::AsciiOctDigit | CharSet::AsciiHexDigit => "1",
        CharSet::AsciiAlphaUpper => "A",
        CharSet::Any | CharSet::Ascii | CharSet::AsciiAlphanumeric => "a",
        CharSet::AsciiAlpha | CharSet::AsciiAlphaLower => "a",
    }
}

/// A character with the Unicode property named `name`, if that is one of a few, or else `a`.
fn property_text(name: &str) -> &'static str {
    match name {
        "WHITE_SPACE" | "SPACE_SEPARATOR" => " ",
        "UPPERCASE" | "UPPERCASE_LETTER" => "A",
        "NUMBER" | "DECIMAL_NUMBER" | "HEX_DIGIT" => "1",
        _ => "a",
    }
}

/// Pushes what an expression matches in any case on a stack, the first part on top.
fn push_needed<'r>(
    bodies: &RuleBodies<'r>,
    part: &'r OptimizedExpr,
    has_last: bool,
    waiting: &mut Vec<&'r OptimizedExpr>,
) -> Result<(), AllocError> {
    match part {
        OptimizedExpr::Seq(left, right) => {
            waiting.push(right)?;
            waiting.push(left)?;
        }
        OptimizedExpr::Choice(_, right) if has_last => waiting.push(right)?,
        OptimizedExpr::Choice(left, _) => waiting.push(left)?,
        OptimizedExpr::RepOnce(inner)
        | OptimizedExpr::Push(inner)
        | OptimizedExpr::NodeTag(inner, _)
        | OptimizedExpr::RestoreOnErr(inner) => waiting.push(inner)?,
        OptimizedExpr::Ident(name) => {
            if let Some(body) = bodies.body_of(name.as_str()) {
                waiting.push(body)?;
            }
        }
        _ => {}
    }
    Ok(())
}
