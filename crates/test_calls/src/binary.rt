//! Rules in binary form.
ghost use Rattle.std.specs.Prelude.{◌≡◌, ◌++◌, OnOk};
ghost use Rattle.format_binary.specs.Format.{rules_bytes};

use base_ast::ast::Rule;
use std::alloc::{AllocError, Global};

/// Appends rules to some bytes.
pub fn push_rules(alloc: Global, out: &mut Vec<u8>, rules: &[Rule]) -> Result<(), AllocError>
    ensures { OnOk result (out.new.items ≡ out.old.items ++ rules_bytes rules.now) }
{
    format_binary::push_rules(alloc, out, rules)
}
