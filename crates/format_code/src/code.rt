//! Programs in bytes.
ghost use Rattle.std.specs.Prelude.{◌≡◌, IfOk, map};
ghost use Rattle.matcher_code.specs.Bytecodes.{lists_in, sets_in};
ghost use Rattle.matcher_code.specs.Lists.{is_covered, lists_of};
ghost use Rattle.matcher_code.specs.Words.{pairs_in, parts_in, words_in};
ghost use Rattle.format_code.specs.Codes.{lists_at, order_of};

use crate::lists::{join, pairs_bytes, places_of, word_pieces, words_bytes};
use crate::operations::op_pieces;
use crate::sections::{join_sections, section};
use matcher_code::bytecode::Bytecode;
use matcher_code::code::Code;
use matcher_code::ranges::RangeList;
use std::alloc::{AllocError, Global};

/// Returns the program in some bytes, which are not copied. Every bytes have one: a missing part is empty,
/// or 0.
pub fn read_code(bytes: &[u8]) -> Bytecode<'_>
    ensures { lists_in result ≡ lists_at bytes.entry.now }
{
    Bytecode {
        ops: section(bytes, 0).as_chunks::<20>().0,
        byte_sets: section(bytes, 1),
        tables: section(bytes, 2).as_chunks::<4>().0,
        set_places: section(bytes, 3).as_chunks::<4>().0,
        ranges: section(bytes, 4).as_chunks::<8>().0,
        orders: section(bytes, 5),
        text_places: section(bytes, 6).as_chunks::<4>().0,
        texts: section(bytes, 7),
        list_places: section(bytes, 8).as_chunks::<4>().0,
        lists: section(bytes, 9).as_chunks::<4>().0,
    }
}

/// Lists as bytes: the places of each, and the items of all.
#[derive(Drop)]
struct ListBytes {
    places: Vec<u8>,
    items: Vec<u8>,
}

/// Returns lists of ranges as slices.
fn range_slices<'a>(
    alloc: Global,
    lists: &'a [RangeList],
) -> Result<Vec<&'a [(u32, u32)]>, AllocError>
    ensures { IfOk result (λ slices. map (λ s. s.now) slices.items
        ≡ map (λ r. r.ranges.items) lists.entry.now) }
{
    let mut slices = Vec::with_capacity(alloc, lists.len())?;
    for list in lists {
        slices.push(list.ranges.as_slice())?;
    }
    Ok(slices)
}

/// Returns lists as slices.
fn slices_of<'a, T>(alloc: Global, lists: &'a [Vec<T>]) -> Result<Vec<&'a [T]>, AllocError>
    ensures { IfOk result (λ slices. map (λ s. s.now) slices.items ≡ map (λ l. l.items) lists.entry.now) }
{
    let mut slices = Vec::with_capacity(alloc, lists.len())?;
    for list in lists {
        slices.push(list.as_slice())?;
    }
    Ok(slices)
}

/// Returns for each list of ranges a byte that says whether they are in order.
fn orders_of(alloc: Global, lists: &[RangeList]) -> Result<Vec<u8>, AllocError>
    ensures { IfOk result (λ orders. orders.items ≡ map order_of lists.now) }
{
    let mut orders = Vec::with_capacity(alloc, lists.len())?;
    for list in lists {
        orders.push(if list.is_sorted { 1 } else { 0 })?;
    }
    Ok(orders)
}

/// Returns lists of ranges as bytes.
fn ranges_bytes(alloc: Global, lists: &[RangeList]) -> Result<ListBytes, AllocError>
    ensures { IfOk result (λ bytes. parts_in (words_in bytes.places.items) (pairs_in bytes.items.items)
        ≡ map (λ r. r.ranges.items) lists.now) }
{
    let slices = range_slices(alloc, lists)?;
    let places = places_of(alloc, 0, &slices)?;
    let items = join(alloc, &slices)?;
    Ok(ListBytes {
        places: words_bytes(alloc, &places)?,
        items: pairs_bytes(alloc, &items)?,
    })
}

/// Returns lists of numbers as bytes.
fn lists_bytes(alloc: Global, lists: &[Vec<u32>]) -> Result<ListBytes, AllocError>
    ensures { IfOk result (λ bytes. parts_in (words_in bytes.places.items) (words_in bytes.items.items)
        ≡ map (λ l. l.items) lists.now) }
{
    let slices = slices_of(alloc, lists)?;
    let places = places_of(alloc, 0, &slices)?;
    let items = join(alloc, &slices)?;
    Ok(ListBytes {
        places: words_bytes(alloc, &places)?,
        items: words_bytes(alloc, &items)?,
    })
}

/// Returns texts as bytes.
fn texts_bytes(alloc: Global, texts: &[Vec<u8>]) -> Result<ListBytes, AllocError>
    ensures { IfOk result (λ bytes. parts_in (words_in bytes.places.items) bytes.items.items
        ≡ map (λ t. t.items) texts.now) }
{
    let slices = slices_of(alloc, texts)?;
    let places = places_of(alloc, 0, &slices)?;
    let items = join(alloc, &slices)?;
    Ok(ListBytes {
        places: words_bytes(alloc, &places)?,
        items,
    })
}

/// Returns a program as bytes. Errors: allocation failed, or the bytes are more than 2^32.
pub fn write_code(alloc: Global, code: &Code) -> Result<Vec<u8>, AllocError>
    ensures { IfOk result (λ bytes. lists_at bytes.items ≡ lists_of code.now) }
{
    let ops = op_pieces(alloc, &code.ops)?;
    let tables = word_pieces(alloc, &code.tables)?;
    let ranges = ranges_bytes(alloc, &code.ranges)?;
    let orders = orders_of(alloc, &code.ranges)?;
    let texts = texts_bytes(alloc, &code.texts)?;
    let lists = lists_bytes(alloc, &code.lists)?;
    let bytes = join_sections(
        alloc,
        &[
            ops.as_flattened().as_flattened(),
            code.byte_sets.as_slice(),
            tables.as_flattened(),
            ranges.places.as_slice(),
            ranges.items.as_slice(),
            orders.as_slice(),
            texts.places.as_slice(),
            texts.items.as_slice(),
            lists.places.as_slice(),
            lists.items.as_slice(),
        ],
    )?;
    Ok(bytes)
}
