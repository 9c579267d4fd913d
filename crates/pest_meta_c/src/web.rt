//! The calls for pages about a grammar: its formatted text, and its document.
ghost use Rattle.std.specs.Prelude.{◌≡◌, ◌≢◌};
ghost use Rattle.std.specs.Str.{IsUtf8};
ghost use Rattle.format_grammar.specs.Formatting.{IsFormatted};
ghost use Rattle.format_grammar.specs.declared.LineEnds.TheVariants.{LineFeed};

use crate::compiled::hand_out;
use base_language::runtime::Fault;
use doc_pages::{html_page, read_grammar};
use format_grammar::{Formatted, Options, format};
use pest_meta::{OpenError, open_unvalidated};
use std::alloc::{AllocError, Global};

/// Returns the formatted text of a grammar, which the caller owns. Status 1 says that its syntax is wrong. If
/// the printed text fails the check of tokens, comments and line ends, the status is 6.
#[unsafe(no_mangle)]
pub extern "C" fn pest_meta_format<'a>(alloc: Global, text: &[u8], formatted: &mut &'a [u8]) -> u8
    ensures formatted { result ≡ 0 → IsFormatted LineFeed text.now formatted.new.now }
    ensures no_text { result ≡ 3 → IsUtf8 text.now → ⊥ }
    ensures unchanged { result ≢ 0 → formatted.new ≡ formatted.old }
{
    let Ok(text) = str::from_utf8(text) else {
        return 3;
    };
    match format(alloc, text, Options::default()) {
        Ok(Formatted::Text(answer)) => {
            *formatted = hand_out(answer.into_bytes());
            0
        }
        Ok(Formatted::Unchanged) => 6,
        Err(Fault::Memory(_)) => 2,
        Err(Fault::Grammar(_)) => 1,
    }
}

/// Returns the document of a grammar. Its rules may have errors. Returns `None` if the grammar is refused for
/// its syntax, its names or a flaw.
fn page_of(alloc: Global, text: &str) -> Result<Option<String>, AllocError> {
    match open_unvalidated(alloc, text) {
        Ok(opened) => {
            let doc = read_grammar(alloc, opened)?;
            Ok(Some(html_page(alloc, "grammar", &doc)?))
        }
        Err(OpenError::Memory(error)) => Err(error),
        Err(_) => Ok(None),
    }
}

/// Returns the document of a grammar in HTML, which the caller owns. Its rules may have errors. Status 1 says
/// that the grammar is refused for its syntax, its names or a flaw.
#[unsafe(no_mangle)]
pub extern "C" fn pest_meta_page<'a>(alloc: Global, text: &[u8], page: &mut &'a [u8]) -> u8
    ensures no_text { result ≡ 3 → IsUtf8 text.now → ⊥ }
    ensures unchanged { result ≢ 0 → page.new ≡ page.old }
{
    let Ok(text) = str::from_utf8(text) else {
        return 3;
    };
    match page_of(alloc, text) {
        Ok(Some(answer)) => {
            *page = hand_out(answer.into_bytes());
            0
        }
        Ok(None) => 1,
        Err(_) => 2,
    }
}
