//! Names of rules, and near names.
ghost use Rattle.std.specs.Prelude.{◌≡◌, ◌++◌, IfOk, OnOk, chars, codes, encode_utf8_all, string_bytes};
ghost use Rattle.base_ast.specs.Ast.{rules_of};
ghost use Rattle.matcher_program.specs.ExpectedNames.{name_texts};
ghost use Rattle.pest_run.specs.RuleNames.{is_near, name_lines, near_among};

use base_ast::ast::Rule;
use std::alloc::{AllocError, Global};
use strsim::osa_distance;

/// A name of more bytes has none near it.
const LONGEST_NAME: usize = 64;

/// Returns the names of rules, a line each. The only error is an allocation failure.
pub fn name_lines(alloc: Global, rules: &[Rule]) -> Result<String, AllocError>
    ensures { IfOk result (λ lines. string_bytes lines ≡ name_lines (rules_of rules.now)) }
{
    let mut lines = String::new(alloc);
    for rule in rules {
        add_line(&mut lines, rule.name.as_str())?;
    }
    Ok(lines)
}

/// Adds a name and a line break.
fn add_line(lines: &mut String, name: &str) -> Result<(), AllocError>
    ensures { OnOk result (string_bytes lines.new ≡ string_bytes lines.old ++ name.now ++ codes "\n") }
{
    lines.push_str(name)?;
    lines.push_str("\n")
}

/// Returns those of some names that are near a name, in their order. The only error is an allocation failure.
pub fn near_names<'r>(
    alloc: Global,
    names: &[&'r str],
    name: &str,
) -> Result<Vec<&'r str>, AllocError>
    ensures { IfOk result (λ near. name_texts near.items ≡ near_among (name_texts names.now) name.now) }
{
    let mut near = Vec::new(alloc);
    for other in names {
        if is_near_text(alloc, name, other)? {
            near.push(*other)?;
        }
    }
    Ok(near)
}

/// Returns whether a name is near another, by its characters. The only error is an allocation failure.
fn is_near_text(alloc: Global, name: &str, other: &str) -> Result<bool, AllocError>
    ensures { IfOk result (λ near. near ≡ is_near name.now (encode_utf8_all (chars other.now))) }
{
    is_near(alloc, name, other)
}

/// Returns whether a name differs from another in the case of letters alone, or by edits, of which swapping
/// two letters is one, at most a third of its length. The only error is an allocation failure.
fn is_near(alloc: Global, name: &str, other: &str) -> Result<bool, AllocError>
    ensures { IfOk result (λ near. near ≡ is_near name.now other.now) }
{
    if name.len() > LONGEST_NAME {
        return Ok(false);
    }
    if name.eq_ignore_ascii_case(other) {
        return Ok(true);
    }
    let edits = osa_distance(alloc, name, other)?;
    Ok(edits <= name.len() / 3)
}
