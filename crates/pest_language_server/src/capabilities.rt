//! The capabilities of the server.

use serde_json::{Map, Value, json, put};
use server_protocol::Encoding;
use server_protocol::client::Client;
use server_requests::semantic::{modifiers, types};
use std::alloc::{AllocError, Global};

/// The version of the server, as in the file VERSION.
const VERSION: &str = "0.4.0";

/// Returns the answer to `initialize`.
pub fn initialize_result(alloc: Global, client: Client) -> Result<Value, AllocError> {
    let capabilities = capabilities(alloc, client.encoding)?;
    let info = server_info(alloc)?;
    json!(in alloc; { "capabilities": capabilities, "serverInfo": info })
}

/// Returns the name and the version of the server.
fn server_info(alloc: Global) -> Result<Value, AllocError> {
    json!(in alloc; { "name": "pest-language-server", "version": VERSION })
}

/// Returns the protocol's name of an encoding.
fn encoding_name(encoding: Encoding) -> &'static str {
    match encoding {
        Encoding::Utf8 => "utf-8",
        Encoding::Utf16 => "utf-16",
    }
}

/// Returns what the server can do.
fn capabilities(alloc: Global, encoding: Encoding) -> Result<Value, AllocError> {
    let mut members = Map::new(alloc);
    put_options(alloc, encoding, &mut members)?;
    put_providers(alloc, &mut members)?;
    Ok(Value::Object(members))
}

/// Adds the capabilities that have options.
fn put_options(
    alloc: Global,
    encoding: Encoding,
    members: &mut Map<String, Value>,
) -> Result<(), AllocError> {
    let name = Value::try_from_str(alloc, encoding_name(encoding))?;
    put(members, alloc, "positionEncoding", name)?;
    put(members, alloc, "textDocumentSync", synchronization(alloc)?)?;
    put(members, alloc, "completionProvider", completions(alloc)?)?;
    put(members, alloc, "renameProvider", renames(alloc)?)?;
    put(members, alloc, "codeActionProvider", code_actions(alloc)?)?;
    put(
        members,
        alloc,
        "semanticTokensProvider",
        tokens_capability(alloc)?,
    )?;
    Ok(())
}

/// Adds the requests that are answered, those without options.
fn put_providers(alloc: Global, members: &mut Map<String, Value>) -> Result<(), AllocError> {
    put_provider(alloc, "documentSymbolProvider", members)?;
    put_provider(alloc, "workspaceSymbolProvider", members)?;
    put_provider(alloc, "foldingRangeProvider", members)?;
    put_provider(alloc, "selectionRangeProvider", members)?;
    put_provider(alloc, "definitionProvider", members)?;
    put_provider(alloc, "referencesProvider", members)?;
    put_provider(alloc, "documentHighlightProvider", members)?;
    put_provider(alloc, "hoverProvider", members)?;
    put_provider(alloc, "documentFormattingProvider", members)?;
    put_provider(alloc, "documentRangeFormattingProvider", members)?;
    Ok(())
}

/// Adds a request that is answered, without options.
fn put_provider(
    alloc: Global,
    name: &str,
    members: &mut Map<String, Value>,
) -> Result<(), AllocError> {
    put(members, alloc, name, Value::Bool(true))
}

/// Returns what is known of completions.
fn completions(alloc: Global) -> Result<Value, AllocError> {
    json!(in alloc; { "resolveProvider": false })
}

/// Returns what is known of renames: a name can be asked for before.
fn renames(alloc: Global) -> Result<Value, AllocError> {
    json!(in alloc; { "prepareProvider": true })
}

/// Returns the kinds of code actions.
fn code_actions(alloc: Global) -> Result<Value, AllocError> {
    json!(in alloc; { "codeActionKinds": ["quickfix", "source.fixAll"] })
}

/// Returns how documents are synchronized: by edits.
fn synchronization(alloc: Global) -> Result<Value, AllocError> {
    json!(in alloc; { "openClose": true, "change": 2u64, "save": true })
}

/// Returns the semantic tokens that there are.
fn tokens_capability(alloc: Global) -> Result<Value, AllocError> {
    let legend = legend(alloc)?;
    json!(in alloc; { "legend": legend, "full": true })
}

/// Returns the legend of semantic tokens.
fn legend(alloc: Global) -> Result<Value, AllocError> {
    let type_names = texts_value(alloc, types())?;
    let modifier_names = texts_value(alloc, modifiers())?;
    json!(in alloc; { "tokenTypes": type_names, "tokenModifiers": modifier_names })
}

/// Returns texts as a value.
fn texts_value(alloc: Global, texts: &[&'static str]) -> Result<Value, AllocError> {
    let mut values = Vec::new(alloc);
    for text in texts {
        values.push(Value::try_from_str(alloc, *text)?)?;
    }
    Ok(Value::Array(values))
}
