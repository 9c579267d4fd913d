//! The open documents, each with its tokens, its definitions and its marks.
ghost use Rattle.std.specs.Prelude.{◌≡◌, [], IfOk, None, OnErr, OnOk, Some, map, option_copied, string_bytes};
ghost use Rattle.server_protocol.specs.Index.{AreMarks};
ghost use Rattle.server_symbols.specs.Lexemes.{AreTokens};
ghost use Rattle.server_symbols.specs.Tokens.{defined_names, name_of};

use crate::index::{Mark, PositionIndex, marks_of};
use crate::positions::Encoding;
use server_symbols::{Definition, Token, definitions_of, tokens_of};
use std::alloc::{AllocError, Global};
use std::collections::BTreeMap;

/// An open document, and what was made of its text when it was opened or changed.
#[derive(Drop)]
pub struct Document {
    pub text: String,
    /// The version that the client gave it last.
    pub version: Option<i64>,
    pub tokens: Vec<Token>,
    pub definitions: Vec<Definition>,
    /// Offsets of the text with their positions.
    pub marks: Vec<Mark>,
    pub ghost lexed: { ∥ AreTokens (string_bytes text) tokens.items ∥₁ },
    pub ghost defined: { map name_of definitions.items ≡ defined_names tokens.items },
    pub ghost marked: { AreMarks (string_bytes text) marks.items },
}

impl Document {
    ghost use Rattle.server_protocol.specs.Shown.{index_encoding, index_text};

    /// Returns a document of a text, in linear time.
    pub fn new(alloc: Global, text: String, version: Option<i64>) -> Result<Document, AllocError>
        ensures text { IfOk result (λ document. document.text ≡ text) }
        ensures version { IfOk result (λ document. document.version ≡ version) }
    {
        let view = text.as_str();
        let tokens = tokens_of(alloc, view)?;
        let definitions = definitions_of(alloc, view, &tokens)?;
        let marks = marks_of(alloc, view)?;
        Ok(Document {
            text,
            version,
            tokens,
            definitions,
            marks,
        })
    }

    /// Returns the index of its text.
    pub fn index(&self, encoding: Encoding) -> PositionIndex<'_>
        ensures text { index_text result ≡ string_bytes self.now.text }
        ensures encoding { index_encoding result ≡ encoding }
    {
        PositionIndex::new(self.text.as_str(), encoding, &self.marks)
    }
}

/// The open documents, by their URIs.
#[derive(Drop)]
pub struct Documents {
    documents: BTreeMap<String, Document>,
}

impl Documents {
    ghost use Rattle.server_protocol.specs.Documents.{KeepsDocuments, document_in, open_documents};
    ghost use Rattle.std.specs.Map.Iter.{deref_pair};

    /// Returns no documents.
    pub fn new(alloc: Global) -> Documents
        ensures { open_documents result ≡ [] }
    {
        Documents {
            documents: BTreeMap::new(alloc),
        }
    }

    /// Returns the document of a URI.
    pub fn get(&self, uri: &str) -> Option<&Document>
        ensures { option_copied result ≡ document_in self.now uri.now }
    {
        self.documents.get(uri)
    }

    /// Opens a document, or replaces it. After a refusal the documents are as before.
    pub fn put(&mut self, alloc: Global, uri: &str, document: Document) -> Result<(), AllocError>
        ensures stored { OnOk result (document_in self.new uri.now ≡ Some document) }
        ensures others { KeepsDocuments (Some uri.now) self.old self.new }
        ensures refused { OnErr result (KeepsDocuments None self.old self.new) }
    {
        let uri = String::from_str(alloc, uri)?;
        let _ = self.documents.insert(uri, document)?;
        Ok(())
    }

    /// Closes a document.
    pub fn remove(&mut self, uri: &str)
        ensures removed { document_in self.new uri.now ≡ None }
        ensures others { KeepsDocuments (Some uri.now) self.old self.new }
    {
        let _ = self.documents.remove(uri);
    }

    /// Returns all documents with their URIs, in the order of these.
    pub fn entries(&self, alloc: Global) -> Result<Vec<(&String, &Document)>, AllocError>
        ensures { IfOk result (λ entries. map deref_pair entries.items ≡ open_documents self.now) }
    {
        self.documents.iter().collect(alloc)
    }
}
