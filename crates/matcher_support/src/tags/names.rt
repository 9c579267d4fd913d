//! Names of the rules that wrapped rules add for tags: a number, `#`, and a tag.
ghost use Rattle.std.specs.Prelude.{◌≡◌, IfOk, MatchOption, None, Some, chars};
ghost use Rattle.base_ast.specs.Ast.{text_of};
ghost use Rattle.matcher_support.specs.Names.{tag_in, wrapper_name};

use std::alloc::{AllocError, Global};

/// Returns the name of the added rule with the number `number` and the tag `tag`, such as `0#tag`.
/// The only error is an allocation failure.
pub(crate) fn name_wrapper(alloc: Global, number: usize, tag: &str) -> Result<String, AllocError>
    ensures { IfOk result (λ name. text_of name ≡ wrapper_name number (chars tag.now)) }
{
    let name = format!(in alloc; "{number}#{tag}")?;
    Ok(name)
}

/// Returns the tag in `name`: the part after the first `#`. Returns `None` if `name` has no `#`, as
/// the name of a rule of the grammar.
pub fn find_tag(name: &str) -> Option<&str>
    ensures { MatchOption result (tag_in (chars name.entry.now) ≡ None)
        (λ tag. tag_in (chars name.entry.now) ≡ Some (chars tag.now)) }
{
    match name.split_once('#') {
        Some((_, tag)) => Some(tag),
        None => None,
    }
}
