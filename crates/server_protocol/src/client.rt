//! Capabilities of clients.

use crate::Encoding;
use crate::params::{is_true_at, lists_at};
use serde_json::Value;

/// The capabilities of a client, as it said when it was initialized.
#[derive(Clone, Copy, Debug)]
pub struct Client {
    /// The code units in which characters are counted.
    pub encoding: Encoding,
    pub has_snippets: bool,
    pub has_markdown: bool,
    pub has_nested_symbols: bool,
    /// Whether a diagnostic can have other parts of the text.
    pub has_related: bool,
}

impl Default for Client {
    /// A client that said nothing.
    fn default() -> Client {
        Client {
            encoding: Encoding::Utf16,
            has_snippets: false,
            has_markdown: false,
            has_nested_symbols: false,
            has_related: false,
        }
    }
}

/// Returns what a client can show, by the parameters of `initialize`.
pub fn client_of(params: &Value) -> Client {
    Client {
        encoding: encoding_of(params),
        has_snippets: is_true_at(
            params,
            "/capabilities/textDocument/completion/completionItem/snippetSupport",
        ),
        has_markdown: lists_at(
            params,
            "/capabilities/textDocument/hover/contentFormat",
            "markdown",
        ),
        has_nested_symbols: is_true_at(
            params,
            "/capabilities/textDocument/documentSymbol/hierarchicalDocumentSymbolSupport",
        ),
        has_related: is_true_at(
            params,
            "/capabilities/textDocument/publishDiagnostics/relatedInformation",
        ),
    }
}

/// Returns the encoding of positions: UTF-8 if the client offers it.
fn encoding_of(params: &Value) -> Encoding {
    if lists_at(params, "/capabilities/general/positionEncodings", "utf-8") {
        Encoding::Utf8
    } else {
        Encoding::Utf16
    }
}
