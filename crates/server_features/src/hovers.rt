//! Hovers.
ghost use Rattle.std.specs.Prelude.{IfOk};
ghost use Rattle.server_requests.specs.Answers.{IsResult};

use crate::diagnoses::Diagnoses;
use crate::facts::{FirstLabels, RuleFacts};
use crate::notes::{GrammarNotes, KeptNotes};
use front_names::is_builtin;
use serde_json::{Value, json};
use server_protocol::client::Client;
use server_protocol::messages::Answer;
use server_requests::builtins::builtin_doc;
use server_requests::context::Context;
use server_requests::locations::range_at;
use server_requests::symbols::modifier_name;
use server_symbols::{Definition, Extent, TokenClass};
use std::alloc::{AllocError, Global};

/// Returns what is known about the name at a position. The optimized form of a rule is shown if the diagnosis
/// of the text that is kept has no error. The notes of the text are made if they are not kept.
pub fn hover(
    alloc: Global,
    context: &Context<'_>,
    diagnoses: &Diagnoses,
    kept: &mut KeptNotes,
    params: &Value,
) -> Result<Answer, AllocError>
    ensures { IfOk result IsResult }
{
    let Some(name) = context.name(params) else {
        return Ok(Answer::Result(Value::Null));
    };
    let text = match rule_named(context, name.text) {
        Some(definition) => {
            let is_accepted = is_accepted(context, diagnoses);
            let notes = kept.get_or_make(alloc, context.text, is_accepted)?;
            rule_text(alloc, context, definition, notes)?
        }
        None => builtin_text(alloc, context.client.has_markdown, name.text)?,
    };
    if text.is_empty() {
        return Ok(Answer::Result(Value::Null));
    }
    Ok(Answer::Result(hover_value(alloc, context, name.extent, text.as_str())?))
}

/// Whether the diagnosis that is kept of a document's text has no error.
fn is_accepted(context: &Context<'_>, diagnoses: &Diagnoses) -> bool {
    match diagnoses.get(context.uri, context.text) {
        Some(diagnosis) => !diagnosis.is_refused(),
        None => false,
    }
}

/// Returns a hover as a value.
fn hover_value(
    alloc: Global,
    context: &Context<'_>,
    extent: Extent,
    text: &str,
) -> Result<Value, AllocError> {
    let range = range_at(alloc, context, extent)?;
    json!(in alloc; {
        "contents": { "kind": kind_for(context.client), "value": text },
        "range": range,
    })
}

/// Returns the protocol's name of the kind of text that a client is sent.
fn kind_for(client: Client) -> &'static str {
    if client.has_markdown {
        "markdown"
    } else {
        "plaintext"
    }
}

/// Returns the first definition of a document that has a name.
fn rule_named(context: &Context<'_>, name: &str) -> Option<Definition> {
    for definition in context.definitions {
        if context.part(definition.name) == name {
            return Some(*definition);
        }
    }
    None
}

/// Returns what a builtin matches, or nothing of another name.
fn builtin_text(alloc: Global, has_markdown: bool, name: &str) -> Result<String, AllocError> {
    match builtin_doc(name) {
        Some(doc) => meaning_text(alloc, has_markdown, name, doc),
        None => property_text(alloc, has_markdown, name),
    }
}

/// Returns what a builtin matches, in a sentence.
fn meaning_text(
    alloc: Global,
    has_markdown: bool,
    name: &str,
    doc: &str,
) -> Result<String, AllocError> {
    let doc = marked_doc(alloc, has_markdown, doc)?;
    let mut text = String::new(alloc);
    push_code(has_markdown, name, &mut text)?;
    text.push_str(" matches ")?;
    text.push_str(doc.as_str())?;
    text.push_str(".")?;
    Ok(text)
}

/// Returns a text in which code is marked: as it is, or without the marks.
fn marked_doc(alloc: Global, has_markdown: bool, doc: &str) -> Result<String, AllocError> {
    if has_markdown {
        String::from_str(alloc, doc)
    } else {
        strip_marks(alloc, doc)
    }
}

/// Returns a text without the marks of code in it.
fn strip_marks(alloc: Global, text: &str) -> Result<String, AllocError> {
    text.chars()
        .filter(|character| *character != '`')
        .collect(alloc)
}

/// Adds a piece of a grammar, marked as code or not.
fn push_code(has_markdown: bool, code: &str, text: &mut String) -> Result<(), AllocError> {
    if !has_markdown {
        return text.push_str(code);
    }
    text.push_str("`")?;
    text.push_str(code)?;
    text.push_str("`")
}

/// Returns what the name of a Unicode property matches, or nothing of another name.
fn property_text(alloc: Global, has_markdown: bool, name: &str) -> Result<String, AllocError> {
    let mut text = String::new(alloc);
    if is_builtin(name) {
        push_code(has_markdown, name, &mut text)?;
        text.push_str(" matches a character with this Unicode property.")?;
    }
    Ok(text)
}

/// Returns what is known of a rule: its doc comment, its definition from its name on, and notes.
fn rule_text(
    alloc: Global,
    context: &Context<'_>,
    definition: Definition,
    notes: &GrammarNotes,
) -> Result<String, AllocError> {
    let code = context.part(Extent {
        start: definition.name.start,
        end: definition.whole.end,
    });
    let mut text = doc_text(alloc, context, definition)?;
    push_block(context.client.has_markdown, code, &mut text)?;
    push_notes(alloc, context, definition, notes, &mut text)?;
    Ok(text)
}

/// Adds lines of a grammar, marked as code or not.
fn push_block(has_markdown: bool, code: &str, text: &mut String) -> Result<(), AllocError> {
    if !has_markdown {
        return text.push_str(code);
    }
    text.push_str("```pest\n")?;
    text.push_str(code)?;
    text.push_str("\n```")
}

/// Adds notes about a rule: its modifier, what is known of it, and its optimized form.
fn push_notes(
    alloc: Global,
    context: &Context<'_>,
    definition: Definition,
    notes: &GrammarNotes,
    text: &mut String,
) -> Result<(), AllocError> {
    let modifier = modifier_name(definition.modifier);
    if !modifier.is_empty() {
        write!(text, "\n\nThe rule is {modifier}.")?;
    }
    let name = context.part(definition.name);
    let has_markdown = context.client.has_markdown;
    if let Some(facts) = notes.facts_of(alloc, name)? {
        push_facts(has_markdown, &facts, text)?;
    }
    if let Some(body) = notes.optimized_body(alloc, name)? {
        text.push_str("\n\nOptimized:\n")?;
        push_block(has_markdown, body.as_str(), text)?;
    }
    Ok(())
}

/// Adds whether a rule may match nothing, and what can begin it.
fn push_facts(has_markdown: bool, facts: &RuleFacts, text: &mut String) -> Result<(), AllocError> {
    text.push_str(if facts.is_nullable {
        "\n\nIt may match nothing."
    } else {
        "\n\nIt takes at least one character."
    })?;
    push_first(has_markdown, &facts.first, text)
}

/// Adds what can begin a rule.
fn push_first(
    has_markdown: bool,
    first: &FirstLabels,
    text: &mut String,
) -> Result<(), AllocError> {
    let mut separator = "\n\nIt begins with ";
    for label in &first.labels {
        text.push_str(separator)?;
        push_label(has_markdown, label.as_str(), text)?;
        separator = ", ";
    }
    if first.has_more {
        text.push_str(", ..")?;
    }
    if !first.labels.is_empty() {
        text.push_str(".")?;
    }
    Ok(())
}

/// Adds what can begin a rule, marked as code or not. In Markdown the mark is doubled around one that has it.
fn push_label(has_markdown: bool, label: &str, text: &mut String) -> Result<(), AllocError> {
    if has_markdown && label.contains('`') {
        write!(text, "`` {label} ``")
    } else {
        push_code(has_markdown, label, text)
    }
}

/// Returns the doc comment of a definition, without its slashes.
fn doc_text(
    alloc: Global,
    context: &Context<'_>,
    definition: Definition,
) -> Result<String, AllocError> {
    let mut text = String::new(alloc);
    for token in context.tokens {
        let is_before = token.start >= definition.whole.start && token.end <= definition.name.start;
        if is_before && token.class == TokenClass::Doc {
            let line = context.part(token.extent());
            text.push_str(line.strip_prefix("///").unwrap_or(line).trim())?;
            text.push_str("\n")?;
        }
    }
    Ok(text)
}
