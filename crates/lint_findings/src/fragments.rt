//! Parts of a text, with their positions in the text, in bytes.
ghost use Rattle.std.specs.Prelude.{◌≡◌, ◌+◌, ◌^◌, ◌<◌, ◌∷◌};
ghost use Rattle.std.specs.Prelude.{◌++◌, [], OnOk, IfOk, length, map};
ghost use Rattle.std.specs.Str.{IsCharBoundary};

use std::alloc::{AllocError, Global};

/// A part of a text.
#[derive(Clone, Copy)]
pub struct Fragment<'t> {
    /// The byte of the text at which it begins.
    pub start: usize,
    /// The byte of the text before which it ends.
    pub end: usize,
    /// The text of the part.
    pub text: &'t str,
    pub ghost long: { start + length text.now ≡ end },
}

impl<'t> Fragment<'t> {
    ghost use Rattle.lint_findings.specs.Fragments.{between, fragment_of, parts_at, trimmed, whole};

    /// A whole text.
    pub(crate) fn whole(text: &'t str) -> Self
        ensures { fragment_of result ≡ whole text.now }
    {
        Fragment {
            start: 0,
            end: text.len(),
            text,
        }
    }

    /// Returns the part of the text from the byte `from` up to the byte `to`. If `to` is before
    /// `from`, or one of them is inside a character or after the end, the part is empty.
    pub(crate) fn between(text: &'t str, from: usize, to: usize) -> Self
        ensures { IsCharBoundary text.now from → IsCharBoundary text.now to
            → fragment_of result ≡ between text.now from to }
    {
        match text.get(from..to) {
            Some(part) => Fragment {
                start: from,
                end: to,
                text: part,
            },
            None => Fragment {
                start: from,
                end: from,
                text: "",
            },
        }
    }

    /// The fragment of a text that begins at a byte, without the white space around it.
    fn trimmed(at: usize, text: &'t str) -> Self
        requires { at + length text.now < 2 ^ 64 }
        ensures { fragment_of result ≡ trimmed (record { start = at; text = text.entry.now }) }
    {
        let front = text.trim_start();
        let inner = front.trim_end();
        let start = at + (text.len() - front.len());
        Fragment {
            start,
            end: start + inner.len(),
            text: inner,
        }
    }

    /// Returns the parts of the fragment between separators. White space at the ends of a part is
    /// left out. The only error is an allocation failure.
    pub(crate) fn split(
        self,
        alloc: Global,
        separator: char,
    ) -> Result<Vec<Fragment<'t>>, AllocError>
        requires { separator < 128 }
        ensures { IfOk result (λ parts.
            map fragment_of parts.items ≡ parts_at separator (fragment_of self.entry)) }
    {
        let mut parts = Vec::new(alloc);
        let mut at = self.start;
        for part in self.text.split(separator) {
            let end = at.saturating_add(part.len());
            push_fragment(Fragment::trimmed(at, part), &mut parts)?;
            at = end.saturating_add(1);
        }
        Ok(parts)
    }
}

/// Adds a fragment.
fn push_fragment<'t>(
    fragment: Fragment<'t>,
    fragments: &mut Vec<Fragment<'t>>,
) -> Result<(), AllocError>
    ensures { OnOk result (fragments.new.items ≡ fragments.old.items ++ fragment.entry ∷ []) }
{
    fragments.push(fragment)?;
    Ok(())
}
