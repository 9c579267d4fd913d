//! Grammars in W3C's EBNF. Comments have what has no counterpart there.
ghost use Rattle.std.specs.Prelude.{IfOk, string_bytes};
ghost use Rattle.base_ast.specs.Ast.{rules_of};
ghost use Rattle.doc_markup.specs.Pages.{AreDefinitions};

use crate::read::GrammarDoc;
use crate::terms::expression_tokens;
use base_ast::ast;
use base_ast::ast::RuleType;
use doc_markup::{EbnfToken, EbnfWord, push_definition};
use std::alloc::{AllocError, Global};
use std::collections::HashMap;

/// Returns a grammar in EBNF. The only error is an allocation failure.
pub fn ebnf_text(alloc: Global, doc: &GrammarDoc<'_>) -> Result<String, AllocError>
    ensures { IfOk result (λ text. AreDefinitions (rules_of doc.now.rules.value.items) (string_bytes text)) }
{
    let mut text = String::new(alloc);
    for rule in &doc.rules.value {
        let body = body_of(alloc, rule, &doc.numbers)?;
        push_definition(rule, &body, &mut text)?;
    }
    Ok(text)
}

/// The expression of a rule, and what its modifier means.
fn body_of<'r>(
    alloc: Global,
    rule: &'r ast::Rule,
    numbers: &HashMap<String, usize>,
) -> Result<Vec<EbnfToken<'r>>, AllocError> {
    let mut tokens = expression_tokens(alloc, &rule.expr, numbers)?;
    let modifier = comment_of(rule.ty);
    if !modifier.is_empty() {
        push_comment(&mut tokens, modifier)?;
    }
    Ok(tokens)
}

/// Adds a blank and a comment.
fn push_comment<'r>(tokens: &mut Vec<EbnfToken<'r>>, text: &'r str) -> Result<(), AllocError> {
    tokens.push(EbnfToken::Word(EbnfWord::Blank))?;
    tokens.push(EbnfToken::Word(EbnfWord::CommentStart))?;
    tokens.push(EbnfToken::Comment(text))?;
    tokens.push(EbnfToken::Word(EbnfWord::CommentEnd))?;
    Ok(())
}

/// The comment on the modifier of a rule.
fn comment_of(ty: RuleType) -> &'static str {
    match ty {
        RuleType::Normal => "",
        RuleType::Silent => "silent",
        RuleType::Atomic => "atomic",
        RuleType::CompoundAtomic => "compound-atomic",
        RuleType::NonAtomic => "non-atomic",
    }
}
