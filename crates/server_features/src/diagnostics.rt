//! Diagnostics of a document.
ghost use Rattle.std.specs.Prelude.{◌≡◌, ◌++◌, ◌∷◌, [], IfOk, None, OnOk, codes, map, option_copied, string_bytes, true};
ghost use Rattle.server_protocol.specs.Shown.{index_encoding, index_text};
ghost use Rattle.server_features.specs.Diagnoses.{accepted_in};
ghost use Rattle.server_features.specs.Diagnostics as spec;
ghost use Rattle.server_features.specs.Diagnostics.{AreOthers, IsPublication, Publishes};
ghost use Rattle.serde_json.specs.Data.{array, no_items};
ghost use Rattle.serde_json.specs.View.{items_of, view};

use crate::diagnoses::{Diagnoses, Diagnosis};
use crate::earlier::staying_warnings;
use lint_diagnostics::{Code, Diagnostic, Help, Related, Severity};
use serde_json::{Value, json};
use server_protocol::PositionIndex;
use server_protocol::client::Client;
use server_protocol::documents::Document;
use server_protocol::messages::notification;
use server_protocol::values::{location_value, range_value};
use server_symbols::Extent;
use std::alloc::{AllocError, Global};

/// Returns the notification of a document's diagnostics, of its text, and with errors the warnings of the
/// last accepted text that stay. A text whose diagnosis is kept is not diagnosed again, and a new
/// diagnosis is kept if there is memory for that.
pub fn publish(
    alloc: Global,
    client: Client,
    uri: &str,
    document: &Document,
    diagnoses: &mut Diagnoses,
) -> Result<String, AllocError>
    ensures { IfOk result (λ body. Publishes client (accepted_in diagnoses.old uri.now) uri.now document.now
        (string_bytes body)) }
{
    let earlier = diagnoses.get_accepted(uri);
    if let Some(diagnosis) = diagnoses.get(uri, document.text.as_str()) {
        return publish_diagnosis(alloc, client, uri, document, diagnosis, earlier);
    }
    let diagnosis = Diagnosis::new(alloc, document.text.as_str(), &document.definitions)?;
    let body = publish_diagnosis(alloc, client, uri, document, &diagnosis, earlier)?;
    let _ = diagnoses.put(alloc, uri, diagnosis);
    Ok(body)
}

/// Returns the notification of the diagnostics of a document's text. If the text is refused, the notification
/// also has the warnings of an earlier text that stay in it.
fn publish_diagnosis(
    alloc: Global,
    client: Client,
    uri: &str,
    document: &Document,
    diagnosis: &Diagnosis,
    earlier: Option<&Diagnosis>,
) -> Result<String, AllocError>
    requires { string_bytes diagnosis.now.text ≡ string_bytes document.now.text }
    ensures { IfOk result (λ body. Publishes client (option_copied earlier.entry) uri.now document.now
        (string_bytes body)) }
{
    let others = other_warnings(alloc, diagnosis, earlier)?;
    let index = document.index(client.encoding);
    let has_related = client.has_related;
    let mut values = Vec::new(alloc);
    let own = diagnosis.diagnostics.as_slice();
    push_diagnostics(alloc, &index, uri, has_related, own, &mut values)?;
    push_diagnostics(alloc, &index, uri, has_related, &others, &mut values)?;
    publication(alloc, uri, document.version, Value::Array(values))
}

/// Returns the warnings of an earlier text that stay in one that is refused; none in one that is accepted.
fn other_warnings(
    alloc: Global,
    diagnosis: &Diagnosis,
    earlier: Option<&Diagnosis>,
) -> Result<Vec<Diagnostic>, AllocError>
    ensures { IfOk result (λ others. AreOthers (option_copied earlier.entry)
        (string_bytes diagnosis.now.text) diagnosis.now.diagnostics.items others.items) }
{
    match earlier {
        Some(earlier) if diagnosis.is_refused() => {
            staying_warnings(
                alloc,
                earlier,
                diagnosis.text.as_str(),
                &diagnosis.definitions,
            )
        }
        _ => Ok(Vec::new(alloc)),
    }
}

/// Returns the notification that a document has no diagnostics.
pub fn publish_none(alloc: Global, uri: &str) -> Result<String, AllocError>
    ensures { IfOk result (λ body. IsPublication uri.now None (array no_items) (string_bytes body)) }
{
    publication(alloc, uri, None, Value::Array(Vec::new(alloc)))
}

/// Returns a notification of diagnostics.
fn publication(
    alloc: Global,
    uri: &str,
    version: Option<i64>,
    diagnostics: Value,
) -> Result<String, AllocError>
    ensures { IfOk result (λ body.
        IsPublication uri.now version (view diagnostics) (string_bytes body)) }
{
    let params = publication_params(alloc, uri, version, diagnostics)?;
    notification(alloc, "textDocument/publishDiagnostics", params)
}

/// Returns the parameters of a notification of diagnostics.
fn publication_params(
    alloc: Global,
    uri: &str,
    version: Option<i64>,
    diagnostics: Value,
) -> Result<Value, AllocError>
    ensures { IfOk result (λ v.
        view v ≡ spec.publication_data uri.now version (view diagnostics)) }
{
    match version {
        Some(version) => json!(in alloc; {
            "uri": uri,
            "version": version,
            "diagnostics": diagnostics,
        }),
        None => json!(in alloc; { "uri": uri, "diagnostics": diagnostics }),
    }
}

/// Adds diagnostics.
fn push_diagnostics(
    alloc: Global,
    index: &PositionIndex<'_>,
    uri: &str,
    has_related: bool,
    diagnostics: &[Diagnostic],
    values: &mut Vec<Value>,
) -> Result<(), AllocError>
    ensures { OnOk result (map view values.new.items ≡ map view values.old.items
        ++ map (spec.diagnostic_data has_related (index_encoding index.now) (index_text index.now) uri.now)
        diagnostics.now) }
{
    let mut rest = diagnostics;
    while let Some((diagnostic, after)) = rest.split_first() {
        push_diagnostic(alloc, index, uri, has_related, diagnostic, values)?;
        rest = after;
    }
    Ok(())
}

/// Adds a diagnostic.
fn push_diagnostic(
    alloc: Global,
    index: &PositionIndex<'_>,
    uri: &str,
    has_related: bool,
    diagnostic: &Diagnostic,
    values: &mut Vec<Value>,
) -> Result<(), AllocError>
    ensures { OnOk result (map view values.new.items ≡ map view values.old.items
        ++ spec.diagnostic_data has_related (index_encoding index.now) (index_text index.now) uri.now
        diagnostic.now ∷ []) }
{
    let value = diagnostic_value(alloc, index, uri, has_related, diagnostic)?;
    values.push(value)?;
    Ok(())
}

/// Returns a diagnostic as a value, with the other parts of the text that matter to it if the client can have
/// them.
pub fn diagnostic_value(
    alloc: Global,
    index: &PositionIndex<'_>,
    uri: &str,
    has_related: bool,
    diagnostic: &Diagnostic,
) -> Result<Value, AllocError>
    ensures { IfOk result (λ v. view v ≡ spec.diagnostic_data has_related
        (index_encoding index.now) (index_text index.now) uri.now diagnostic.now) }
{
    if has_related {
        related_diagnostic(alloc, index, uri, diagnostic)
    } else {
        plain_diagnostic(alloc, index, diagnostic)
    }
}

/// Returns a diagnostic without other parts of the text as a value.
fn plain_diagnostic(
    alloc: Global,
    index: &PositionIndex<'_>,
    diagnostic: &Diagnostic,
) -> Result<Value, AllocError>
    ensures { IfOk result (λ v. view v ≡ spec.plain_data
        (index_encoding index.now) (index_text index.now) diagnostic.now) }
{
    let range = range_value(alloc, index, extent_of(diagnostic.start, diagnostic.end))?;
    let message = message_of(alloc, diagnostic)?;
    json!(in alloc; {
        "range": range,
        "severity": severity_number(diagnostic.severity),
        "code": diagnostic.code.name(),
        "source": "pest",
        "message": message.as_str(),
    })
}

/// Returns a diagnostic with the other parts of the text that matter to it as a value.
fn related_diagnostic(
    alloc: Global,
    index: &PositionIndex<'_>,
    uri: &str,
    diagnostic: &Diagnostic,
) -> Result<Value, AllocError>
    ensures { IfOk result (λ v. view v ≡ spec.diagnostic_data true
        (index_encoding index.now) (index_text index.now) uri.now diagnostic.now) }
{
    let range = range_value(alloc, index, extent_of(diagnostic.start, diagnostic.end))?;
    let message = message_of(alloc, diagnostic)?;
    let related = related_values(alloc, index, uri, &diagnostic.related)?;
    json!(in alloc; {
        "range": range,
        "severity": severity_number(diagnostic.severity),
        "code": diagnostic.code.name(),
        "source": "pest",
        "message": message.as_str(),
        "relatedInformation": related,
    })
}

/// Returns the bytes from `start` up to `end`.
pub(crate) fn extent_of(start: usize, end: usize) -> Extent
    ensures { result ≡ spec.extent_of start end }
{
    Extent { start, end }
}

/// Returns the protocol's number of a severity.
fn severity_number(severity: Severity) -> u64
    ensures { result ≡ spec.severity_number severity }
{
    match severity {
        Severity::Error => 1,
        Severity::Warning => 2,
    }
}

/// Returns the message of a diagnostic, with its help in a line of its own.
fn message_of(alloc: Global, diagnostic: &Diagnostic) -> Result<String, AllocError>
    ensures { IfOk result (λ message. string_bytes message ≡ spec.message_of diagnostic.now) }
{
    let mut message = String::from_str(alloc, diagnostic.message.as_str())?;
    push_help(has_help(diagnostic.code), &diagnostic.help, &mut message)?;
    Ok(message)
}

/// Whether the help for a code is of use in an editor.
fn has_help(code: Code) -> bool
    ensures { result ≡ spec.has_help code }
{
    match code {
        Code::UncalledRule => false,
        _ => true,
    }
}

/// Adds a line with a help, if there is one and it is to be shown.
fn push_help(is_shown: bool, help: &Option<Help>, message: &mut String) -> Result<(), AllocError>
    ensures { OnOk result (string_bytes message.new
        ≡ string_bytes message.old ++ spec.help_line is_shown help.now) }
{
    if !is_shown {
        return Ok(());
    }
    match help {
        Some(help) => push_line(help.message.as_str(), message),
        None => Ok(()),
    }
}

/// Adds a line.
fn push_line(line: &str, message: &mut String) -> Result<(), AllocError>
    ensures { OnOk result (string_bytes message.new
        ≡ string_bytes message.old ++ (codes "\n" ++ line.now)) }
{
    message.push_str("\n")?;
    message.push_str(line)?;
    Ok(())
}

/// Returns the other parts of the text that matter to a diagnostic, as a value.
fn related_values(
    alloc: Global,
    index: &PositionIndex<'_>,
    uri: &str,
    related: &[Related],
) -> Result<Value, AllocError>
    ensures { IfOk result (λ v. view v ≡ array (items_of (map (spec.related_data
        (index_encoding index.now) (index_text index.now) uri.now) related.now))) }
{
    let mut values = Vec::new(alloc);
    let mut rest = related;
    while let Some((part, after)) = rest.split_first() {
        push_related(alloc, index, uri, part, &mut values)?;
        rest = after;
    }
    Ok(Value::Array(values))
}

/// Adds a part of the text that matters to a diagnostic.
fn push_related(
    alloc: Global,
    index: &PositionIndex<'_>,
    uri: &str,
    part: &Related,
    values: &mut Vec<Value>,
) -> Result<(), AllocError>
    ensures { OnOk result (map view values.new.items ≡ map view values.old.items
        ++ spec.related_data (index_encoding index.now) (index_text index.now) uri.now part.now ∷ []) }
{
    let value = related_value(alloc, index, uri, part)?;
    values.push(value)?;
    Ok(())
}

/// Returns a part of the text that matters to a diagnostic, as a value.
fn related_value(
    alloc: Global,
    index: &PositionIndex<'_>,
    uri: &str,
    part: &Related,
) -> Result<Value, AllocError>
    ensures { IfOk result (λ v. view v
        ≡ spec.related_data (index_encoding index.now) (index_text index.now) uri.now part.now) }
{
    let location = location_value(alloc, uri, index, extent_of(part.start, part.end))?;
    json!(in alloc; { "location": location, "message": part.message.as_str() })
}
