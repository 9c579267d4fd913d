//! Programs in bytes that are lent.
ghost use Rattle.std.specs.Prelude.{◌≡◌, [], MatchOption, get_or};
ghost use Rattle.matcher_code.specs.Bytecodes.{lists_in};
ghost use Rattle.matcher_code.specs.Steps.{op_at};
ghost use Rattle.matcher_code.specs.declared.code.Op.TheVariants as op;

use crate::code::Op;
use crate::operations::read_op;

/// A program in bytes: its operations, of twenty bytes each, and the lists that these refer to by numbers, as
/// `Code` has them. A list of lists has all their items, and the place where each begins, with one more place
/// at the end. A missing part is empty, or 0.
#[derive(Clone, Copy)]
pub struct Bytecode<'a> {
    pub ops: &'a [[u8; 20]],
    pub byte_sets: &'a [u8],
    pub tables: &'a [[u8; 4]],
    pub set_places: &'a [[u8; 4]],
    pub ranges: &'a [[u8; 8]],
    /// For each set a byte that is not 0 if its ranges are in order, so that a search by halves finds one.
    pub orders: &'a [u8],
    pub text_places: &'a [[u8; 4]],
    pub texts: &'a [u8],
    pub list_places: &'a [[u8; 4]],
    pub lists: &'a [[u8; 4]],
}

/// Returns the operation of a number.
#[inline(always)]
pub fn find_op(code: &Bytecode<'_>, pc: u32) -> Option<Op>
    ensures { MatchOption result (op_at (lists_in code.now) [] pc ≡ op.Lose)
        (λ found. op_at (lists_in code.now) [] pc ≡ found) }
{
    match code.ops.get(pc as usize) {
        Some(piece) => Some(read_op(piece)),
        None => None,
    }
}

/// Returns the byte that says whether the ranges of a set are in order.
#[inline(always)]
pub(crate) fn order_of(code: &Bytecode<'_>, set: u32) -> u8
    ensures { result ≡ get_or code.now.orders.now set 0 }
{
    match code.orders.get(set as usize) {
        Some(order) => *order,
        None => 0,
    }
}
