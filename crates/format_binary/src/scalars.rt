//! Sizes, counts, indices and texts in binary form.
ghost use Rattle.std.specs.Prelude.{◌≡◌, ◌∷◌, [], ◌++◌, OnOk, flat_map, string_bytes};
ghost use Rattle.format_binary.specs.Format.{count_bytes, end_bytes, index_bytes, list_bytes, size_bytes, text_bytes};

use std::alloc::AllocError;

/// Appends a size.
#[tactic(auto, unfolding(crate::specs::Format::size_bytes))]
pub(crate) fn push_size(out: &mut Vec<u8>, size: usize) -> Result<(), AllocError>
    ensures { OnOk result (out.new.items ≡ out.old.items ++ size_bytes size) }
{
    out.extend_from_slice(&size.to_le_bytes())
}

/// Appends a count of repetitions.
#[tactic(auto, unfolding(crate::specs::Format::count_bytes))]
pub(crate) fn push_count(out: &mut Vec<u8>, count: u32) -> Result<(), AllocError>
    ensures { OnOk result (out.new.items ≡ out.old.items ++ count_bytes count) }
{
    out.extend_from_slice(&count.to_le_bytes())
}

/// Appends an index of the stack.
#[tactic(auto, unfolding(crate::specs::Format::index_bytes))]
fn push_index(out: &mut Vec<u8>, index: i32) -> Result<(), AllocError>
    ensures { OnOk result (out.new.items ≡ out.old.items ++ index_bytes index) }
{
    out.extend_from_slice(&index.to_le_bytes())
}

/// Appends the bounds of a slice of the stack.
pub(crate) fn push_slice(out: &mut Vec<u8>, start: i32, end: Option<i32>) -> Result<(), AllocError>
    ensures { OnOk result (out.new.items ≡ out.old.items ++ (index_bytes start ++ end_bytes end)) }
{
    push_index(out, start)?;
    match end {
        Some(end) => {
            out.push(1)?;
            push_index(out, end)
        }
        None => {
            out.push(0)?;
            Ok(())
        }
    }
}

/// Appends a text.
pub(crate) fn push_text(out: &mut Vec<u8>, text: &str) -> Result<(), AllocError>
    ensures { OnOk result (out.new.items ≡ out.old.items ++ text_bytes text.now) }
{
    push_size(out, text.len())?;
    out.extend_from_slice(text.as_bytes())
}

/// Appends a list of texts.
pub(crate) fn push_texts(out: &mut Vec<u8>, texts: &[String]) -> Result<(), AllocError>
    ensures { OnOk result (out.new.items
        ≡ out.old.items ++ list_bytes (λ text. text_bytes (string_bytes text)) texts.now) }
{
    push_size(out, texts.len())?;
    for text in texts {
        push_text(out, text.as_str())?;
    }
    Ok(())
}
