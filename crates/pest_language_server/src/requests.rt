//! The requests about documents.
ghost use Rattle.std.specs.Prelude.{◌≡◌, IfOk, map};
ghost use Rattle.pest_language_server.specs.Requests as spec;
ghost use Rattle.pest_language_server.specs.Requests.{IsAnswerOf};
ghost use Rattle.serde_json.specs.View.{view};

use serde_json::Value;
use server_features::actions::code_actions;
use server_features::diagnoses::Diagnoses;
use server_features::formatting::{format_document, format_range};
use server_features::hovers::hover;
use server_features::notes::KeptNotes;
use server_features::renames::rename_rule;
use server_protocol::messages::Answer;
use server_requests::completions::completions;
use server_requests::context::Context;
use server_requests::names::{definition, highlights, prepare_rename, references};
use server_requests::semantic::semantic_tokens;
use server_requests::structure::{folding_ranges, selection_ranges};
use server_requests::symbols::document_symbols;
use std::alloc::{AllocError, Global};

/// A request about a document.
#[derive(Clone, Copy, Debug, PartialEq, Eq)]
pub(crate) enum RequestMethod {
    DocumentSymbol,
    FoldingRange,
    SelectionRange,
    Definition,
    References,
    DocumentHighlight,
    PrepareRename,
    Rename,
    Hover,
    Completion,
    Formatting,
    RangeFormatting,
    CodeAction,
    SemanticTokens,
}

/// The name of a method.
#[derive(Clone, Copy)]
pub(crate) struct MethodName {
    pub name: &'static str,
    pub request: RequestMethod,
}

/// The names of the methods.
static METHOD_NAMES: [MethodName; 14] = [
    MethodName {
        name: "textDocument/documentSymbol",
        request: RequestMethod::DocumentSymbol,
    },
    MethodName {
        name: "textDocument/foldingRange",
        request: RequestMethod::FoldingRange,
    },
    MethodName {
        name: "textDocument/selectionRange",
        request: RequestMethod::SelectionRange,
    },
    MethodName {
        name: "textDocument/definition",
        request: RequestMethod::Definition,
    },
    MethodName {
        name: "textDocument/references",
        request: RequestMethod::References,
    },
    MethodName {
        name: "textDocument/documentHighlight",
        request: RequestMethod::DocumentHighlight,
    },
    MethodName {
        name: "textDocument/prepareRename",
        request: RequestMethod::PrepareRename,
    },
    MethodName {
        name: "textDocument/rename",
        request: RequestMethod::Rename,
    },
    MethodName {
        name: "textDocument/hover",
        request: RequestMethod::Hover,
    },
    MethodName {
        name: "textDocument/completion",
        request: RequestMethod::Completion,
    },
    MethodName {
        name: "textDocument/formatting",
        request: RequestMethod::Formatting,
    },
    MethodName {
        name: "textDocument/rangeFormatting",
        request: RequestMethod::RangeFormatting,
    },
    MethodName {
        name: "textDocument/codeAction",
        request: RequestMethod::CodeAction,
    },
    MethodName {
        name: "textDocument/semanticTokens/full",
        request: RequestMethod::SemanticTokens,
    },
];

/// Returns the names of the methods.
fn method_names() -> &'static [MethodName]
    ensures { map spec.name_of result.now ≡ spec.method_names }
{
    &METHOD_NAMES
}

/// Returns the request of a method.
pub(crate) fn request_of(method: &str) -> Option<RequestMethod>
    ensures { result ≡ spec.request_of method.now }
{
    request_among(method_names(), method)
}

/// Returns the request of a method, if its name is among these.
fn request_among(names: &[MethodName], method: &str) -> Option<RequestMethod>
    ensures { result ≡ spec.request_among (map spec.name_of names.now) method.now }
{
    let mut rest = names;
    while let Some((entry, after)) = rest.split_first() {
        if entry.name == method {
            return Some(entry.request);
        }
        rest = after;
    }
    None
}

/// Answers a request about a document, by what is kept of documents.
pub(crate) fn answer_in(
    alloc: Global,
    context: &Context<'_>,
    diagnoses: &Diagnoses,
    notes: &mut KeptNotes,
    request: RequestMethod,
    params: &Value,
) -> Result<Answer, AllocError>
    ensures { IfOk result (IsAnswerOf request context.now (view params.now)) }
{
    match request {
        RequestMethod::DocumentSymbol => document_symbols(alloc, context),
        RequestMethod::FoldingRange => folding_ranges(alloc, context),
        RequestMethod::SelectionRange => selection_ranges(alloc, context, params),
        RequestMethod::Definition => definition(alloc, context, params),
        RequestMethod::References => references(alloc, context, params),
        RequestMethod::DocumentHighlight => highlights(alloc, context, params),
        RequestMethod::PrepareRename => prepare_rename(alloc, context, params),
        RequestMethod::Rename => rename_rule(alloc, context, params),
        RequestMethod::Hover => hover(alloc, context, diagnoses, notes, params),
        RequestMethod::Completion => completions(alloc, context, params),
        RequestMethod::Formatting => format_document(alloc, context),
        RequestMethod::RangeFormatting => format_range(alloc, context, params),
        RequestMethod::CodeAction => code_actions(alloc, context, diagnoses, params),
        RequestMethod::SemanticTokens => semantic_tokens(alloc, context),
    }
}
