//! Versions as JSON.
ghost use Rattle.std.specs.Prelude.{◌≡◌, IfOk, string_bytes};
ghost use Rattle.serde_json.specs.View.{view};
ghost use Rattle.serde_json.specs.Written.{compact_text};
ghost use Rattle.format_json.specs.Versions.{version_data};

use serde_json::{Value, json};
use std::alloc::{AllocError, Global};

/// Returns the number of the format and the version of the original crate, as JSON. The only error is an
/// allocation failure.
pub fn version_text(alloc: Global) -> Result<String, AllocError>
    ensures { IfOk result (λ text. string_bytes text ≡ compact_text version_data) }
{
    version_value(alloc)?.to_string(alloc)
}

/// Returns the two versions as a value.
fn version_value(alloc: Global) -> Result<Value, AllocError>
    ensures { IfOk result (λ value. view value ≡ version_data) }
{
    json!(in alloc; {"format": 1u8, "version": "2.9.5"})
}
