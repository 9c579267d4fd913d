//! The constant programs in bytes, from which they are run in place.
ghost use Rattle.matcher_code.specs.Bytecodes.{lists_in};
ghost use Rattle.matcher_code.specs.Fused.{IsFusionOf};
ghost use Rattle.front_code.specs.Codes.{IsExactCode, IsFastCode};

use crate::constants::{
    EXACT_BYTE_SETS, EXACT_BYTES, EXACT_ORDERS, EXACT_RANGES, EXACT_SET_PLACES, FAST_BYTE_SETS,
    FAST_BYTES, FAST_FUSED, FAST_ORDERS, FAST_RANGES, FAST_SET_PLACES, FAST_TABLES, TEXT_BYTES,
    TEXT_PLACES,
};
use matcher_code::bytecode::Bytecode;
use matcher_code::fused::Fused;

/// A program, with the fused operations that stand for its own, or none.
pub struct FusedCode {
    pub code: Bytecode<'static>,
    pub fused: &'static [Fused],
}

/// Returns the exact code, of which nothing is fused: it runs if a text is refused.
pub fn exact_code() -> FusedCode
    ensures code { IsExactCode (lists_in result.code) }
    ensures fused { IsFusionOf (lists_in result.code) result.fused.now }
{
    FusedCode {
        code: Bytecode {
            ops: &EXACT_BYTES,
            byte_sets: &EXACT_BYTE_SETS,
            tables: &[],
            set_places: &EXACT_SET_PLACES,
            ranges: &EXACT_RANGES,
            orders: &EXACT_ORDERS,
            text_places: &TEXT_PLACES,
            texts: TEXT_BYTES,
            list_places: &[],
            lists: &[],
        },
        fused: &[],
    }
}

/// Returns the fast code.
pub fn fast_code() -> FusedCode
    ensures code { IsFastCode (lists_in result.code) }
    ensures fused { IsFusionOf (lists_in result.code) result.fused.now }
{
    FusedCode {
        code: Bytecode {
            ops: &FAST_BYTES,
            byte_sets: &FAST_BYTE_SETS,
            tables: &FAST_TABLES,
            set_places: &FAST_SET_PLACES,
            ranges: &FAST_RANGES,
            orders: &FAST_ORDERS,
            text_places: &TEXT_PLACES,
            texts: TEXT_BYTES,
            list_places: &[],
            lists: &[],
        },
        fused: &FAST_FUSED,
    }
}
