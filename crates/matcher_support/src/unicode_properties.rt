//! The sets of the property names of a grammar, by the kit's tables of Unicode.
ghost use Rattle.std.specs.Prelude.{◌≡◌, ◌<◌, ℕ, IfOk, IfSome, chars, is_some};
ghost use Rattle.matcher_program.specs.Programs.{is_in_ranges};
ghost use Rattle.matcher_support.specs.Sets.{has_set, is_in_property};
ghost use Rattle.ucd_sets.specs.Lookup.{by_name};
ghost use Rattle.ucd_sets.specs.Loose.{normalize};

use matcher_program::compile::is_property;
use matcher_program::properties::Properties;
use std::alloc::{AllocError, Global};
use ucd_sets::{by_name, normalize};

/// The 115 property names, each with the set that Unicode gives to it: a binary property, a general category
/// or a script.
#[derive(Clone, Copy, Debug)]
pub struct UnicodeProperties;

impl Properties for UnicodeProperties {
    ghost knows = { has_set };

    ghost classes = { is_in_property };

    /// Returns the set of the property with the given name, as ranges of code points with both ends
    /// included. Returns `None` if the name is none of the 115. The only error is an allocation
    /// failure.
    fn ranges(&self, alloc: Global, name: &str) -> Result<Option<Vec<(u32, u32)>>, AllocError> {
        if is_property(name) {
            ranges_of(alloc, name)
        } else {
            Ok(None)
        }
    }
}

/// Returns the set of the property named `name` as ranges, or `None` if the tables do not have the name.
fn ranges_of(alloc: Global, name: &str) -> Result<Option<Vec<(u32, u32)>>, AllocError>
    ensures known { IfOk result (λ found. is_some found ≡ is_some (by_name (normalize (chars name.now)))) }
    ensures ranges { IfOk result (λ found. IfSome found (λ ranges. (c : ℕ) → c < 1114112
        → is_in_ranges ranges.items c ≡ is_in_property (chars name.now) c)) }
{
    let letters: Vec<char> = name.chars().collect(alloc)?;
    let plain = normalize(alloc, &letters)?;
    match by_name(&plain) {
        Ok(set) => Ok(Some(set.ranges(alloc)?)),
        Err(_) => Ok(None),
    }
}
