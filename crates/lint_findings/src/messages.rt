//! What is expected at a syntax error.
ghost use Rattle.std.specs.Prelude.{IfOk};
ghost use Rattle.lint_findings.specs.Reports.{AreExpectedNames};

use base_language::grammar::Rule;
use pest_meta::parser::{PestParser, common_name};
use std::alloc::{AllocError, Global};

/// The expected set of a text's syntax error, by name, in the order of the meta-grammar.
pub(crate) fn expected_names(alloc: Global, text: &str) -> Result<Vec<&'static str>, AllocError>
    ensures { IfOk result (λ names. AreExpectedNames text.now names.items) }
{
    let rules = PestParser::expected_set(alloc, Rule::grammar_rules, text)?;
    let mut names = Vec::new(alloc);
    for rule in &rules {
        names.push(common_name(*rule))?;
    }
    Ok(names)
}
