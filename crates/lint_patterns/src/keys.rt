//! Keys of nodes: numbers that are the same if and only if the expressions are.
ghost use Rattle.std.specs.Prelude.{◌≡◌, ◌++◌, ◌∷◌, [], IfOk, OnOk};
ghost use Rattle.std.specs.Str.{chars};
ghost use Rattle.lint_patterns.specs.Keys.{HasKey, int_key, option_key, sign, text_key};
ghost use Rattle.front_spanned.specs.Erasure.{without_spans};
ghost use Rattle.front_spanned.specs.Nodes.{view};

use front_spanned::{ParserExpr, ParserNode, push_operands};
use std::alloc::{AllocError, Global};

/// Numbers in a key, at most.
const LONGEST: usize = 256;

/// The key of a node, if that is short.
pub(crate) fn key_of(alloc: Global, node: &ParserNode<'_>) -> Result<Option<Vec<u32>>, AllocError>
    ensures { IfOk result (HasKey (without_spans (view node.now))) }
{
    let mut key = Vec::new(alloc);
    let mut stack = Vec::new(alloc);
    stack.push(node)?;
    while let Some(next) = stack.pop() {
        push_sign(next, &mut key)?;
        if key.len() > LONGEST {
            return Ok(None);
        }
        push_operands(next, &mut stack)?;
    }
    Ok(Some(key))
}

/// Appends what a node has besides its operands.
fn push_sign(node: &ParserNode<'_>, key: &mut Vec<u32>) -> Result<(), AllocError>
    ensures { OnOk result (key.new.items ≡ key.old.items ++ sign (view node.now)) }
{
    match &node.expr {
        ParserExpr::Str(text) => push_text(1, text.as_str(), key),
        ParserExpr::Insens(text) => push_text(2, text.as_str(), key),
        ParserExpr::Ident(name) => push_text(3, name.as_str(), key),
        ParserExpr::PushLiteral(text) => push_text(4, text.as_str(), key),
        ParserExpr::Range(first, last) => {
            push_text(5, first.as_str(), key)?;
            push_characters(last.as_str(), key)
        }
        ParserExpr::PeekSlice(start, end) => push_slice(*start, *end, key),
        ParserExpr::NodeTag(_, tag) => push_text(19, tag.as_str(), key),
        ParserExpr::RepExact(_, count) => push_two(14, *count, key),
        ParserExpr::RepMin(_, least) => push_two(15, *least, key),
        ParserExpr::RepMax(_, most) => push_two(16, *most, key),
        ParserExpr::RepMinMax(_, least, most) => {
            push_two(17, *least, key)?;
            push_one(*most, key)
        }
        ParserExpr::PosPred(_) => push_one(7, key),
        ParserExpr::NegPred(_) => push_one(8, key),
        ParserExpr::Seq(_, _) => push_one(9, key),
        ParserExpr::Choice(_, _) => push_one(10, key),
        ParserExpr::Opt(_) => push_one(11, key),
        ParserExpr::Rep(_) => push_one(12, key),
        ParserExpr::RepOnce(_) => push_one(13, key),
        ParserExpr::Push(_) => push_one(18, key),
    }
}

/// Appends a number.
fn push_one(number: u32, key: &mut Vec<u32>) -> Result<(), AllocError>
    ensures { OnOk result (key.new.items ≡ key.old.items ++ number ∷ []) }
{
    key.push(number)?;
    Ok(())
}

/// Appends two numbers.
fn push_two(number: u32, other: u32, key: &mut Vec<u32>) -> Result<(), AllocError>
    ensures { OnOk result (key.new.items ≡ key.old.items ++ number ∷ other ∷ []) }
{
    key.push(number)?;
    key.push(other)?;
    Ok(())
}

/// Appends a number and a text.
fn push_text(number: u32, text: &str, key: &mut Vec<u32>) -> Result<(), AllocError>
    ensures { OnOk result (key.new.items ≡ key.old.items ++ number ∷ text_key (chars text.now)) }
{
    key.push(number)?;
    push_characters(text, key)
}

/// Appends a text: its characters, each one number up, and 0.
fn push_characters(text: &str, key: &mut Vec<u32>) -> Result<(), AllocError>
    ensures { OnOk result (key.new.items ≡ key.old.items ++ text_key (chars text.now)) }
{
    for character in text.chars() {
        key.push(character as u32 + 1)?;
    }
    key.push(0)?;
    Ok(())
}

/// Appends a slice of the stack.
fn push_slice(start: i32, end: Option<i32>, key: &mut Vec<u32>) -> Result<(), AllocError>
    ensures { OnOk result (key.new.items ≡ key.old.items ++ 6 ∷ (int_key start ++ option_key end)) }
{
    key.push(6)?;
    push_integer(start, key)?;
    match end {
        Some(end) => {
            key.push(1)?;
            push_integer(end, key)
        }
        None => push_one(0, key),
    }
}

/// Appends a signed number.
fn push_integer(number: i32, key: &mut Vec<u32>) -> Result<(), AllocError>
    ensures { OnOk result (key.new.items ≡ key.old.items ++ int_key number) }
{
    let is_negative = number < 0;
    key.push(u32::from(is_negative))?;
    key.push(number.unsigned_abs())?;
    Ok(())
}
