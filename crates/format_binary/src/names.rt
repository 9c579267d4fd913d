//! Lists of names in binary form.
ghost use Rattle.std.specs.Prelude.{◌≡◌, ◌++◌, OnOk};
ghost use Rattle.format_binary.specs.Format.{names_bytes};

use crate::scalars::{push_size, push_text};
use std::alloc::AllocError;

/// Appends a list of names. The only error is an allocation failure.
pub fn push_names(out: &mut Vec<u8>, names: &[&str]) -> Result<(), AllocError>
    ensures { OnOk result (out.new.items ≡ out.old.items ++ names_bytes names.now) }
{
    push_size(out, names.len())?;
    for name in names {
        push_text(out, name)?;
    }
    Ok(())
}
