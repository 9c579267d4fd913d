//! Bytes in binary form, read from the front.
ghost use Rattle.std.specs.Prelude.{◌≡◌, ◌<◌, ◌^◌, ℕ, List, [], ◌∷◌, ◌++◌, FitsSigned, IfErr, IfOk, length, string_bytes};
ghost use Rattle.std.specs.Int.{w32};
ghost use Rattle.format_binary.specs.declared.input.BinaryRefusal.TheVariants.{Form, Memory};
ghost use Rattle.format_binary.specs.Format.{end_bytes, index_bytes, list_bytes, size_bytes, text_bytes};
ghost use Rattle.format_binary.specs.Indices.{FitsEnd};
ghost use Rattle.format_binary.specs.Fronts.{BeginsWithEnd, BeginsWithText, BeginsWithTexts, Texts, item_bytes};

use std::alloc::{AllocError, AllocFailed, Global};

/// The reason why bytes are not read as rules.
#[derive(Debug, Drop)]
pub enum BinaryRefusal {
    /// An allocation failed.
    Memory,
    /// The bytes are not those of a list of rules.
    Form,
}

impl From<AllocError> for BinaryRefusal {
    ghost from_gives = { λ _ refusal. refusal ≡ Memory };

    fn from(_refused: AllocError) -> BinaryRefusal {
        BinaryRefusal::Memory
    }
}

impl<T: Drop> From<AllocFailed<T>> for BinaryRefusal {
    ghost from_gives = { λ _ refusal. refusal ≡ Memory };

    fn from(_refused: AllocFailed<T>) -> BinaryRefusal {
        BinaryRefusal::Memory
    }
}

/// Returns the size of these bytes.
fn size_of(bytes: [u8; 8]) -> usize
    ensures { size_bytes result ≡ bytes }
{
    usize::from_le_bytes(bytes)
}

/// Returns the index of these bytes.
fn index_of(bytes: [u8; 4]) -> i32
    ensures { index_bytes result ≡ bytes }
{
    i32::from_le_bytes(bytes)
}

/// The bytes that are not read yet.
#[derive(Drop)]
pub(crate) struct ByteInput<'a> {
    pub rest: &'a [u8],
}

impl<'a> ByteInput<'a> {
    /// Reads a byte.
    pub(crate) fn read_byte(&mut self) -> Result<u8, BinaryRefusal>
        ensures read { IfOk result (λ byte. self.old.rest.now ≡ byte ∷ self.new.rest.now) }
        ensures refused { IfErr result (λ why. self.old.rest.now ≡ []) }
    {
        match self.rest.split_first() {
            Some((byte, rest)) => {
                self.rest = rest;
                Ok(*byte)
            }
            None => Err(BinaryRefusal::Form),
        }
    }

    /// Reads a size.
    pub(crate) fn read_size(&mut self) -> Result<usize, BinaryRefusal>
        ensures read { IfOk result (λ size. self.old.rest.now ≡ size_bytes size ++ self.new.rest.now) }
        ensures fits { IfOk result (λ size. size < 2 ^ 64) }
        ensures refused { IfErr result (λ why. length self.old.rest.now < 8) }
    {
        match self.rest.split_first_chunk::<8>() {
            Some((bytes, rest)) => {
                self.rest = rest;
                Ok(size_of(*bytes))
            }
            None => Err(BinaryRefusal::Form),
        }
    }

    /// Reads an index of the stack.
    pub(crate) fn read_index(&mut self) -> Result<i32, BinaryRefusal>
        ensures read { IfOk result (λ index. self.old.rest.now ≡ index_bytes index ++ self.new.rest.now) }
        ensures fits { IfOk result (FitsSigned w32) }
        ensures refused { IfErr result (λ why. length self.old.rest.now < 4) }
    {
        match self.rest.split_first_chunk::<4>() {
            Some((bytes, rest)) => {
                self.rest = rest;
                Ok(index_of(*bytes))
            }
            None => Err(BinaryRefusal::Form),
        }
    }

    /// Reads the end of a slice of the stack.
    pub(crate) fn read_end(&mut self) -> Result<Option<i32>, BinaryRefusal>
        ensures read { IfOk result (λ end. self.old.rest.now ≡ end_bytes end ++ self.new.rest.now) }
        ensures fits { IfOk result FitsEnd }
        ensures refused { IfErr result (λ why. BeginsWithEnd self.old.rest.now → ⊥) }
    {
        match self.read_byte()? {
            0 => Ok(None),
            1 => Ok(Some(self.read_index()?)),
            _ => Err(BinaryRefusal::Form),
        }
    }

    /// Reads `size` bytes.
    fn read_bytes(&mut self, size: usize) -> Result<&'a [u8], BinaryRefusal>
        ensures bytes { IfOk result (λ bytes. self.old.rest.now ≡ bytes.now ++ self.new.rest.now) }
        ensures size { IfOk result (λ bytes. length bytes.now ≡ size) }
        ensures refused { IfErr result (λ why. length self.old.rest.now < size) }
    {
        match self.rest.split_at_checked(size) {
            Some((bytes, rest)) => {
                self.rest = rest;
                Ok(bytes)
            }
            None => Err(BinaryRefusal::Form),
        }
    }

    /// Reads a text.
    pub(crate) fn read_string(&mut self, alloc: Global) -> Result<String, BinaryRefusal>
        ensures read { IfOk result (λ text.
            self.old.rest.now ≡ text_bytes (string_bytes text) ++ self.new.rest.now) }
        ensures refused { IfErr result (λ why. why ≡ Form → BeginsWithText self.old.rest.now → ⊥) }
    {
        let size = self.read_size()?;
        let bytes = self.read_bytes(size)?;
        match str::from_utf8(bytes) {
            Ok(text) => Ok(String::from_str(alloc, text)?),
            Err(_) => Err(BinaryRefusal::Form),
        }
    }

    /// Reads a list of texts.
    pub(crate) fn read_strings(&mut self, alloc: Global) -> Result<Vec<String>, BinaryRefusal>
        ensures read { IfOk result (λ texts. self.old.rest.now
            ≡ list_bytes (λ text. text_bytes (string_bytes text)) texts.items ++ self.new.rest.now) }
        ensures ends { IfOk result (λ read. (texts : Texts) (rest : List ℕ)
            → self.old.rest.now ≡ list_bytes item_bytes texts.items ++ rest → self.new.rest.now ≡ rest) }
        ensures refused { IfErr result (λ why. why ≡ Form → BeginsWithTexts self.old.rest.now → ⊥) }
    {
        let count = self.read_size()?;
        let mut texts = Vec::new(alloc);
        for place in 0..count {
            texts.push(self.read_string(alloc)?)?;
        }
        Ok(texts)
    }
}
