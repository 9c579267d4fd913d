//! Nodes of expressions in binary form: a form's number and its arguments.
ghost use Rattle.std.specs.Prelude.{◌≡◌, ◌∷◌, [], ◌++◌, OnOk};
ghost use Rattle.format_binary.specs.Format.{count_bytes, text_bytes};
ghost use Rattle.format_binary.specs.Nodes.{node_bytes};

use crate::scalars::{push_count, push_slice, push_text, push_texts};
use std::alloc::AllocError;

/// A node of an expression: its form and its arguments, without its operands.
#[derive(Clone, Copy)]
pub(crate) enum BinaryNode<'a> {
    Str(&'a str),
    Insens(&'a str),
    Range(&'a str, &'a str),
    Ident(&'a str),
    PeekSlice(i32, Option<i32>),
    PosPred,
    NegPred,
    Seq,
    Choice,
    Opt,
    Rep,
    RepOnce,
    RepExact(u32),
    RepMin(u32),
    RepMax(u32),
    RepMinMax(u32, u32),
    Skip(&'a [String]),
    Push,
    PushLiteral(&'a str),
    NodeTag(&'a str),
    RestoreOnErr,
}

/// The operands of a node.
#[derive(Clone, Copy)]
pub(crate) enum NodeOperands<'a, E> {
    None,
    One(&'a E),
    Two(&'a E, &'a E),
}

/// Appends a node.
pub(crate) fn push_node(out: &mut Vec<u8>, node: BinaryNode<'_>) -> Result<(), AllocError>
    ensures { OnOk result (out.new.items ≡ out.old.items ++ node_bytes node.entry) }
{
    match node {
        BinaryNode::Str(text) => push_form_text(out, 0, text),
        BinaryNode::Insens(text) => push_form_text(out, 1, text),
        BinaryNode::Range(low, high) => {
            push_form_text(out, 2, low)?;
            push_text(out, high)
        }
        BinaryNode::Ident(name) => push_form_text(out, 3, name),
        BinaryNode::PeekSlice(start, end) => {
            push_form(out, 4)?;
            push_slice(out, start, end)
        }
        BinaryNode::PosPred => push_form(out, 5),
        BinaryNode::NegPred => push_form(out, 6),
        BinaryNode::Seq => push_form(out, 7),
        BinaryNode::Choice => push_form(out, 8),
        BinaryNode::Opt => push_form(out, 9),
        BinaryNode::Rep => push_form(out, 10),
        BinaryNode::RepOnce => push_form(out, 11),
        BinaryNode::RepExact(count) => push_form_count(out, 12, count),
        BinaryNode::RepMin(least) => push_form_count(out, 13, least),
        BinaryNode::RepMax(greatest) => push_form_count(out, 14, greatest),
        BinaryNode::RepMinMax(least, greatest) => {
            push_form_count(out, 15, least)?;
            push_count(out, greatest)
        }
        BinaryNode::Skip(texts) => {
            push_form(out, 16)?;
            push_texts(out, texts)
        }
        BinaryNode::Push => push_form(out, 17),
        BinaryNode::PushLiteral(text) => push_form_text(out, 18, text),
        BinaryNode::NodeTag(tag) => push_form_text(out, 19, tag),
        BinaryNode::RestoreOnErr => push_form(out, 20),
    }
}

/// Appends the number of a form.
fn push_form(out: &mut Vec<u8>, form: u8) -> Result<(), AllocError>
    ensures { OnOk result (out.new.items ≡ out.old.items ++ (form ∷ [])) }
{
    out.push(form)?;
    Ok(())
}

/// Appends the number of a form, and a text.
fn push_form_text(out: &mut Vec<u8>, form: u8, text: &str) -> Result<(), AllocError>
    ensures { OnOk result (out.new.items ≡ out.old.items ++ (form ∷ text_bytes text.now)) }
{
    push_form(out, form)?;
    push_text(out, text)
}

/// Appends the number of a form, and a count.
fn push_form_count(out: &mut Vec<u8>, form: u8, count: u32) -> Result<(), AllocError>
    ensures { OnOk result (out.new.items ≡ out.old.items ++ (form ∷ count_bytes count)) }
{
    push_form(out, form)?;
    push_count(out, count)
}
