//! Members of JSON objects.
ghost use Rattle.std.specs.Prelude.{◌≡◌, OnOk};
ghost use Rattle.serde_json.specs.Data.{put as with_member, string};
ghost use Rattle.serde_json.specs.View.{members_view};
ghost use Rattle.format_json.specs.Errors.{size_data};

use serde_json::{Map, Number, Value, put};
use std::alloc::{AllocError, Global};

/// Adds a member with a text.
pub(crate) fn put_text(
    alloc: Global,
    members: &mut Map<String, Value>,
    name: &str,
    text: &str,
) -> Result<(), AllocError>
    ensures { OnOk result (members_view members.new.entries
        ≡ with_member name.now (string text.now) (members_view members.old.entries)) }
{
    put(members, alloc, name, Value::try_from_str(alloc, text)?)
}

/// Adds a member with a number.
pub(crate) fn put_size(
    alloc: Global,
    members: &mut Map<String, Value>,
    name: &str,
    size: usize,
) -> Result<(), AllocError>
    ensures { OnOk result (members_view members.new.entries
        ≡ with_member name.now (size_data size) (members_view members.old.entries)) }
{
    put(members, alloc, name, Value::Number(Number::from(size)))
}
