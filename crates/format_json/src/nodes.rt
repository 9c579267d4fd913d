//! Nodes of expressions as JSON: a list of a form's name and its arguments.
ghost use Rattle.std.specs.Prelude.{◌≡◌, ◌≢◌, ℕ, ℤ, IfErr, IfOk, List, None, Option, String, codes};
ghost use Rattle.std.specs.declared.alloc.Global.{Global};
ghost use Rattle.serde_json.specs.Data.{array, item, string};
ghost use Rattle.serde_json.specs.Find.{as_str};
ghost use Rattle.serde_json.specs.View.{items_view, view};
ghost use Rattle.base_language.specs.Language.Grammar.{EndFits, FitsSigned32, FitsUnsigned32};
ghost use Rattle.format_json.specs.Format.{count_data, end_data, form as form_data, form_with, form_with_two, place_data, texts_data};
ghost use Rattle.format_json.specs.Nodes.{IsNoNode, node_data};
ghost use Rattle.format_json.specs.Unread.{OnReason};

use crate::refusal::{RefusalReason, Unread};
use serde_json::{Value, json};
use std::alloc::{AllocError, Global};

/// A node of an expression: its form and its arguments, without its operands.
#[derive(Drop)]
pub(crate) enum JsonNode<'a> {
    Str(&'a str),
    Insens(&'a str),
    Range(&'a str, &'a str),
    Ident(&'a str),
    PeekSlice(i32, Option<i32>),
    PosPred,
    NegPred,
    Seq,
    Choice,
    Opt,
    Rep,
    RepOnce,
    RepExact(u32),
    RepMin(u32),
    RepMax(u32),
    RepMinMax(u32, u32),
    Skip(Vec<String>),
    Push,
    PushLiteral(&'a str),
    NodeTag(&'a str),
    RestoreOnErr,
}

impl<'a> JsonNode<'a> {
    /// Returns the node as a value.
    pub(crate) fn to_value(&self, alloc: Global) -> Result<Value, AllocError>
        ensures { IfOk result (λ value. view value ≡ node_data self.now) }
    {
        match self {
            JsonNode::Str(text) => with_text(alloc, "str", text),
            JsonNode::Insens(text) => with_text(alloc, "insens", text),
            JsonNode::Range(low, high) => range_value(alloc, low, high),
            JsonNode::Ident(name) => with_text(alloc, "ident", name),
            JsonNode::PeekSlice(start, end) => slice_value(alloc, *start, *end),
            JsonNode::PosPred => alone(alloc, "pos_pred"),
            JsonNode::NegPred => alone(alloc, "neg_pred"),
            JsonNode::Seq => alone(alloc, "seq"),
            JsonNode::Choice => alone(alloc, "choice"),
            JsonNode::Opt => alone(alloc, "opt"),
            JsonNode::Rep => alone(alloc, "rep"),
            JsonNode::RepOnce => alone(alloc, "rep_once"),
            JsonNode::RepExact(count) => with_count(alloc, "rep_exact", *count),
            JsonNode::RepMin(least) => with_count(alloc, "rep_min", *least),
            JsonNode::RepMax(greatest) => with_count(alloc, "rep_max", *greatest),
            JsonNode::RepMinMax(least, greatest) => limits_value(alloc, *least, *greatest),
            JsonNode::Skip(texts) => skip_value(alloc, texts),
            JsonNode::Push => alone(alloc, "push"),
            JsonNode::PushLiteral(text) => with_text(alloc, "push_literal", text),
            JsonNode::NodeTag(tag) => with_text(alloc, "node_tag", tag),
            JsonNode::RestoreOnErr => alone(alloc, "restore_on_err"),
        }
    }

    /// Reads a node from a value.
    pub(crate) fn of_value(alloc: Global, value: &'a Value) -> Result<JsonNode<'a>, Unread>
        ensures node { IfOk result (λ node. node_data node ≡ view value.now) }
        ensures refused { IfErr result (λ unread. OnReason unread (IsNoNode (view value.now))) }
    {
        let Some(parts) = value.as_array() else {
            return Err(Unread::Reason(RefusalReason::Node));
        };
        let [form, arguments @ ..] = parts.as_slice() else {
            return Err(Unread::Reason(RefusalReason::Node));
        };
        match form.as_str() {
            Some(form) => node_of(alloc, form, arguments),
            None => Err(Unread::Reason(RefusalReason::Node)),
        }
    }
}

/// Returns a form without arguments.
fn alone(alloc: Global, form: &str) -> Result<Value, AllocError>
    ensures { IfOk result (λ value. view value ≡ form_data form.now) }
{
    json!(in alloc; [form])
}

/// Returns a form with a text.
fn with_text(alloc: Global, form: &str, text: &str) -> Result<Value, AllocError>
    ensures { IfOk result (λ value. view value ≡ form_with form.now (string text.now)) }
{
    json!(in alloc; [form, text])
}

/// Returns a form with a count.
fn with_count(alloc: Global, form: &str, count: u32) -> Result<Value, AllocError>
    ensures { IfOk result (λ value. view value ≡ form_with form.now (count_data count)) }
{
    json!(in alloc; [form, count])
}

/// Returns a range.
fn range_value(alloc: Global, low: &str, high: &str) -> Result<Value, AllocError>
    ensures { IfOk result (λ value. view value
        ≡ form_with_two (codes "range") (string low.now) (string high.now)) }
{
    json!(in alloc; ["range", low, high])
}

/// Returns a repetition with both limits.
fn limits_value(alloc: Global, least: u32, greatest: u32) -> Result<Value, AllocError>
    ensures { IfOk result (λ value. view value
        ≡ form_with_two (codes "rep_min_max") (count_data least) (count_data greatest)) }
{
    json!(in alloc; ["rep_min_max", least, greatest])
}

/// Returns a slice of the stack.
fn slice_value(alloc: Global, start: i32, end: Option<i32>) -> Result<Value, AllocError>
    ensures { IfOk result (λ value. view value
        ≡ form_with_two (codes "peek_slice") (place_data start) (end_data end)) }
{
    match end {
        Some(end) => json!(in alloc; ["peek_slice", start, end]),
        None => json!(in alloc; ["peek_slice", start, null]),
    }
}

/// Returns a search for one of the texts.
fn skip_value(alloc: Global, texts: &[String]) -> Result<Value, AllocError>
    ensures { IfOk result (λ value. view value ≡ form_with (codes "skip") (texts_data texts.now)) }
{
    let mut values = Vec::new(alloc);
    for text in texts {
        values.push(Value::try_from_str(alloc, text.as_str())?)?;
    }
    json!(in alloc; ["skip", Value::Array(values)])
}

/// Returns the node of that form with these arguments.
fn node_of<'a>(alloc: Global, form: &'a str, arguments: &'a [Value]) -> Result<JsonNode<'a>, Unread>
    ensures node { IfOk result (λ node. node_data node
        ≡ array (item (string form.now) (items_view arguments.now))) }
    ensures refused { IfErr result (λ unread.
        OnReason unread (IsNoNode (array (item (string form.now) (items_view arguments.now))))) }
{
    match arguments {
        [] => node_alone(form),
        [one] => node_with(alloc, form, one),
        [first, second] => node_with_two(form, first, second),
        _ => Err(Unread::Reason(RefusalReason::Form)),
    }
}

/// Returns the node of that form without arguments.
fn node_alone<'a>(form: &'a str) -> Result<JsonNode<'a>, Unread>
    ensures node { IfOk result (λ node. node_data node ≡ form_data form.now) }
    ensures refused { IfErr result (λ unread. OnReason unread (IsNoNode (form_data form.now))) }
{
    match form {
        "pos_pred" => Ok(JsonNode::PosPred),
        "neg_pred" => Ok(JsonNode::NegPred),
        "seq" => Ok(JsonNode::Seq),
        "choice" => Ok(JsonNode::Choice),
        "opt" => Ok(JsonNode::Opt),
        "rep" => Ok(JsonNode::Rep),
        "rep_once" => Ok(JsonNode::RepOnce),
        "push" => Ok(JsonNode::Push),
        "restore_on_err" => Ok(JsonNode::RestoreOnErr),
        _ => Err(Unread::Reason(RefusalReason::Form)),
    }
}

/// Returns the node of that form with one argument.
fn node_with<'a>(alloc: Global, form: &'a str, one: &'a Value) -> Result<JsonNode<'a>, Unread>
    ensures node { IfOk result (λ node. node_data node
        ≡ form_with form.now (view one.now)) }
    ensures refused { IfErr result (λ unread.
        OnReason unread (IsNoNode (form_with form.now (view one.now)))) }
{
    match form {
        "str" => Ok(JsonNode::Str(text_of(one)?)),
        "insens" => Ok(JsonNode::Insens(text_of(one)?)),
        "ident" => Ok(JsonNode::Ident(text_of(one)?)),
        "push_literal" => Ok(JsonNode::PushLiteral(text_of(one)?)),
        "node_tag" => Ok(JsonNode::NodeTag(text_of(one)?)),
        "rep_exact" => Ok(JsonNode::RepExact(count_of(one)?)),
        "rep_min" => Ok(JsonNode::RepMin(count_of(one)?)),
        "rep_max" => Ok(JsonNode::RepMax(count_of(one)?)),
        "skip" => Ok(JsonNode::Skip(texts_of(alloc, one)?)),
        _ => Err(Unread::Reason(RefusalReason::Form)),
    }
}

/// Returns the node of that form with two arguments.
fn node_with_two<'a>(
    form: &'a str,
    first: &'a Value,
    second: &'a Value,
) -> Result<JsonNode<'a>, Unread>
    ensures node { IfOk result (λ node. node_data node
        ≡ form_with_two form.now (view first.now) (view second.now)) }
    ensures refused { IfErr result (λ unread.
        OnReason unread (IsNoNode (form_with_two form.now (view first.now) (view second.now)))) }
{
    match form {
        "range" => Ok(JsonNode::Range(text_of(first)?, text_of(second)?)),
        "rep_min_max" => Ok(JsonNode::RepMinMax(count_of(first)?, count_of(second)?)),
        "peek_slice" => Ok(JsonNode::PeekSlice(index_of(first)?, end_of(second)?)),
        _ => Err(Unread::Reason(RefusalReason::Form)),
    }
}

/// Returns a text, if the value is one.
fn text_of(value: &Value) -> Result<&str, Unread>
    ensures text { IfOk result (λ text. string text.now ≡ view value.now) }
    ensures refused { IfErr result (λ unread. (unread ≡ Unread.Reason RefusalReason.Form)
        × (as_str (view value.now) ≡ None)) }
{
    match value.as_str() {
        Some(text) => Ok(text),
        None => Err(Unread::Reason(RefusalReason::Form)),
    }
}

/// Returns a number of 32 bits, if the value is one.
fn count_of(value: &Value) -> Result<u32, Unread>
    ensures count { IfOk result (λ count. count_data count ≡ view value.now) }
    ensures refused { IfErr result (λ unread. (unread ≡ Unread.Reason RefusalReason.Form)
        × ((count : ℕ) → FitsUnsigned32 count → count_data count ≢ view value.now)) }
{
    match value.as_u64() {
        Some(count) if count <= u64::from(u32::MAX) => Ok(count as u32),
        _ => Err(Unread::Reason(RefusalReason::Form)),
    }
}

/// Returns a signed number of 32 bits, if the value is one.
fn index_of(value: &Value) -> Result<i32, Unread>
    ensures index { IfOk result (λ index. place_data index ≡ view value.now) }
    ensures refused { IfErr result (λ unread. (unread ≡ Unread.Reason RefusalReason.Form)
        × ((index : ℤ) → FitsSigned32 index → place_data index ≢ view value.now)) }
{
    match value.as_i64() {
        Some(index) if i64::from(i32::MIN) <= index && index <= i64::from(i32::MAX) => Ok(
            index as i32,
        ),
        _ => Err(Unread::Reason(RefusalReason::Form)),
    }
}

/// Returns a signed number of 32 bits, or `None` if the value is null.
fn end_of(value: &Value) -> Result<Option<i32>, Unread>
    ensures end { IfOk result (λ end. end_data end ≡ view value.now) }
    ensures refused { IfErr result (λ unread. (unread ≡ Unread.Reason RefusalReason.Form)
        × ((end : Option ℤ) → EndFits end → end_data end ≢ view value.now)) }
{
    match value {
        Value::Null => Ok(None),
        _ => Ok(Some(index_of(value)?)),
    }
}

/// Returns a list of texts, if the value is one.
fn texts_of(alloc: Global, value: &Value) -> Result<Vec<String>, Unread>
    ensures texts { IfOk result (λ texts. texts_data texts.items ≡ view value.now) }
    ensures refused { IfErr result (λ unread.
        OnReason unread ((texts : List (String Global)) → texts_data texts ≢ view value.now)) }
{
    let Some(values) = value.as_array() else {
        return Err(Unread::Reason(RefusalReason::Form));
    };
    let mut texts = Vec::new(alloc);
    for value in values {
        texts.push(String::from_str(alloc, text_of(value)?)?)?;
    }
    Ok(texts)
}

/// Copies texts.
pub(crate) fn copies(alloc: Global, texts: &[String]) -> Result<Vec<String>, AllocError>
    ensures { IfOk result (λ copies. texts_data copies.items ≡ texts_data texts.now) }
{
    let mut copies = Vec::new(alloc);
    for text in texts {
        copies.push(String::from_str(alloc, text.as_str())?)?;
    }
    Ok(copies)
}
