//! Strings as texts: a string is viewed as the list of its characters.
ghost use Rattle.std.specs.Prelude.{◌≡◌, ◌↔◌, IsTrue, IfOk, map};
ghost use Rattle.base_ast.specs.Ast.{text_of};
ghost use Rattle.base_language.specs.Rewritings.Equality.{text_eq, texts_eq};

use std::alloc::AllocError;

/// Whether two strings have the same characters.
pub fn same_text(s: &String, t: &String) -> bool
    ensures computed { result ≡ text_eq (text_of s.now) (text_of t.now) }
    ensures exact { IsTrue result ↔ (text_of s.now ≡ text_of t.now) }
{
    s == t
}

/// Whether two lists have the same texts in the same order.
pub fn same_texts(ss: &Vec<String>, ts: &Vec<String>) -> bool
    ensures computed { result ≡ texts_eq (map text_of ss.now.items) (map text_of ts.now.items) }
    ensures exact { IsTrue result ↔ (map text_of ss.now.items ≡ map text_of ts.now.items) }
{
    ss == ts
}

/// Copies texts, with their allocators. The only error is allocation failure.
pub fn copy_texts(texts: &Vec<String>) -> Result<Vec<String>, AllocError>
    ensures { IfOk result (λ copy. map text_of copy.items ≡ map text_of texts.now.items) }
{
    Ok(texts.clone()?)
}
