//! Diagnoses of texts, kept for their documents.
ghost use Rattle.std.specs.List.{list_any};
ghost use Rattle.std.specs.Prelude.{◌≡◌, ℕ, List, [], IfOk, IfSome, None, OnErr, OnOk, option_and_then, Some, option_copied, string_bytes};
ghost use Rattle.lint_diagnostics.specs.Diagnosis.{IsDiagnosis};
ghost use Rattle.lint_findings.specs.Reports as reports;

use lint_diagnostics::{Diagnostic, Options, Severity, diagnose};
use server_symbols::Definition;
use std::alloc::{AllocError, Global};
use std::collections::BTreeMap;

/// A text, with its definitions and its diagnostics.
#[derive(Drop)]
pub struct Diagnosis {
    pub text: String,
    pub definitions: Vec<Definition>,
    pub diagnostics: Vec<Diagnostic>,
    pub ghost of_text: { ∥ IsDiagnosis [] (string_bytes text) diagnostics.items ∥₁ },
}

impl Diagnosis {
    /// Diagnoses a text with these definitions.
    pub fn new(
        alloc: Global,
        text: &str,
        definitions: &[Definition],
    ) -> Result<Diagnosis, AllocError>
        ensures { IfOk result (λ diagnosis. string_bytes diagnosis.text ≡ text.now) }
    {
        let diagnostics = diagnose(alloc, text, Options { starts: &[] })?;
        let text = String::from_str(alloc, text)?;
        let mut kept = Vec::new(alloc);
        kept.extend_from_slice(definitions)?;
        Ok(Diagnosis {
            text,
            definitions: kept,
            diagnostics,
        })
    }

    /// Whether the text is refused: one of its diagnostics is an error.
    pub fn is_refused(&self) -> bool
        ensures { result ≡ list_any reports.is_error self.now.diagnostics.items }
    {
        self.diagnostics
            .iter()
            .any(|diagnostic| is_error(diagnostic))
    }
}

/// Whether a diagnostic is an error.
pub(crate) fn is_error(diagnostic: &Diagnostic) -> bool
    ensures { result ≡ reports.is_error diagnostic.now }
{
    matches!(diagnostic.severity, Severity::Error)
}

/// The last diagnoses of documents, by their URIs.
#[derive(Drop)]
pub struct Diagnoses {
    /// The diagnoses of the last accepted texts.
    accepted: BTreeMap<String, Diagnosis>,
    /// The diagnoses of the last texts that are refused, of documents without an accepted text since.
    refused: BTreeMap<String, Diagnosis>,
}

impl Diagnoses {
    ghost use Rattle.server_features.specs.Diagnoses.{IsUnchanged, accepted_in, diagnosis_of, if_of, last_accepted};

    /// Returns no diagnoses.
    pub fn new(alloc: Global) -> Diagnoses
        ensures { (uri text : List ℕ) → diagnosis_of result uri text ≡ None }
    {
        Diagnoses {
            accepted: BTreeMap::new(alloc),
            refused: BTreeMap::new(alloc),
        }
    }

    /// Returns the diagnosis of a document that has this text, if it is kept.
    pub fn get(&self, uri: &str, text: &str) -> Option<&Diagnosis>
        ensures found { option_copied result ≡ diagnosis_of self.now uri.now text.now }
        ensures text { IfSome result (λ diagnosis. string_bytes diagnosis.now.text ≡ text.now) }
    {
        match Diagnoses::filter_by_text(self.refused.get(uri), text) {
            Some(diagnosis) => Some(diagnosis),
            None => Diagnoses::filter_by_text(self.accepted.get(uri), text),
        }
    }

    /// Returns the diagnosis of the last accepted text of a document, if there was one.
    pub fn get_accepted(&self, uri: &str) -> Option<&Diagnosis>
        ensures { option_copied result ≡ accepted_in self.now uri.now }
    {
        self.accepted.get(uri)
    }

    /// Keeps the diagnosis of a document in place of an earlier one, and beside a text that is refused that
    /// of the last accepted text. After a refusal the diagnoses are as before.
    pub fn put(&mut self, alloc: Global, uri: &str, diagnosis: Diagnosis) -> Result<(), AllocError>
        ensures stored { OnOk result
            (diagnosis_of self.new uri.now (string_bytes diagnosis.text) ≡ Some diagnosis) }
        ensures accepted { OnOk result
            (accepted_in self.new uri.now ≡ last_accepted diagnosis (accepted_in self.old uri.now)) }
        ensures refused { OnErr result (IsUnchanged self.old self.new) }
    {
        let key = String::from_str(alloc, uri)?;
        if diagnosis.is_refused() {
            let _ = self.refused.insert(key, diagnosis)?;
        } else {
            let _ = self.accepted.insert(key, diagnosis)?;
            let _ = self.refused.remove(uri);
        }
        Ok(())
    }

    /// Forgets the diagnoses of a document.
    pub fn remove(&mut self, uri: &str)
        ensures { (text : List ℕ) → diagnosis_of self.new uri.now text ≡ None }
    {
        let _ = self.accepted.remove(uri);
        let _ = self.refused.remove(uri);
    }

    /// Returns a diagnosis, if it is of this text.
    fn filter_by_text<'d>(diagnosis: Option<&'d Diagnosis>, text: &str) -> Option<&'d Diagnosis>
        ensures found { option_copied result
            ≡ option_and_then (if_of text.now) (option_copied diagnosis.entry) }
        ensures text { IfSome result (λ diagnosis. string_bytes diagnosis.now.text ≡ text.now) }
    {
        let diagnosis = diagnosis?;
        if diagnosis.text.as_str() == text {
            Some(diagnosis)
        } else {
            None
        }
    }
}
