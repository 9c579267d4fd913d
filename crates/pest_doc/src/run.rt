//! From the bytes of a grammar to a document, or to the reason why there is none.
ghost use Rattle.std.specs.Prelude.{IfOk};
ghost use Rattle.base_ast.specs.Ast.{rules_of};
ghost use Rattle.pest_doc.specs.Outcomes.{IsMadeOf, IsOutcome};

use crate::arguments::DocumentFormat;
use crate::messages::{has_no_rule, refusal_message};
use doc_pages::{GrammarDoc, ebnf_text, html_page, markdown_page, read_grammar, svg_diagram};
use pest_meta::open_unvalidated;
use std::alloc::{AllocError, Global};

/// A request for a document.
#[derive(Clone, Copy)]
pub struct Request<'a> {
    /// The name of the grammar's file.
    pub name: &'a str,
    pub format: DocumentFormat<'a>,
}

/// The answer to a request.
#[derive(Drop)]
pub enum DocumentOutcome {
    /// A document.
    Document(String),
    /// The message that there is none, for a terminal.
    Refused(String),
    /// The grammar is not UTF-8.
    NotUtf8,
}

/// Returns the document of a grammar's bytes, or why there is none: they are not UTF-8, the grammar is
/// refused, or it has no such rule. The only error is an allocation failure.
pub fn outcome_of(
    alloc: Global,
    bytes: &[u8],
    request: Request<'_>,
) -> Result<DocumentOutcome, AllocError>
    ensures { IfOk result (IsOutcome request.entry.format bytes.now) }
{
    let Ok(text) = str::from_utf8(bytes) else {
        return Ok(DocumentOutcome::NotUtf8);
    };
    match open_unvalidated(alloc, text) {
        Ok(opened) => {
            let doc = read_grammar(alloc, opened)?;
            answer_of(alloc, &doc, request)
        }
        Err(error) => {
            let message = refusal_message(alloc, request.name, text, error)?;
            Ok(DocumentOutcome::Refused(message))
        }
    }
}

/// The document of a grammar, or the message that the grammar has no such rule. The only error is an
/// allocation failure.
fn answer_of(
    alloc: Global,
    doc: &GrammarDoc<'_>,
    request: Request<'_>,
) -> Result<DocumentOutcome, AllocError>
    ensures { IfOk result (IsMadeOf request.entry.format (rules_of doc.now.rules.value.items)) }
{
    let title = file_name(request.name);
    match request.format {
        DocumentFormat::Html => Ok(DocumentOutcome::Document(html_page(alloc, title, doc)?)),
        DocumentFormat::Markdown => Ok(DocumentOutcome::Document(markdown_page(
            alloc, title, doc,
        )?)),
        DocumentFormat::Ebnf => Ok(DocumentOutcome::Document(ebnf_text(alloc, doc)?)),
        DocumentFormat::Svg(rule) => match svg_diagram(alloc, doc, rule)? {
            Some(diagram) => Ok(DocumentOutcome::Document(diagram)),
            None => {
                let names = doc.names(alloc)?;
                let message = has_no_rule(alloc, request.name, rule, &names)?;
                Ok(DocumentOutcome::Refused(message))
            }
        },
    }
}

/// The last part of a path.
fn file_name(path: &str) -> &str {
    match path.rsplit_once('/') {
        Some((_, name)) => name,
        None => path,
    }
}
