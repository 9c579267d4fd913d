//! Rules as a block.
ghost use Rattle.std.specs.Prelude.{◌≡◌, IfErr, IfOk, map, string_bytes};
ghost use Rattle.base_ast.specs.Optimized.{optimized_rules_of};
ghost use Rattle.format_binary.specs.Format.{type_byte};
ghost use Rattle.matcher_engine.specs.Blocks.{HasCode, HasRules, IsBlockOf, IsWhole};
ghost use Rattle.matcher_program.specs.Refusals.{IsReason};
ghost use Rattle.matcher_sets.specs.Forms.{IsSoundProgram};

use crate::block::head::with_head;
use crate::codes::{code_bytes, name_code_bytes};
use base_ast::ast::RuleType;
use base_ast::optimized::OptimizedRule;
use format_code::sections::join_sections;
use matcher_compiler::points::NotCompiled;
use matcher_program::compile::{Unfit, program_of};
use matcher_program::form::Program;
use matcher_program::properties::Properties;
use std::alloc::{AllocError, Global};

/// Returns the number of the rule type `ty` in a block.
fn type_number(ty: RuleType) -> u8
    ensures { result ≡ type_byte ty }
{
    match ty {
        RuleType::Normal => 0,
        RuleType::Silent => 1,
        RuleType::Atomic => 2,
        RuleType::CompoundAtomic => 3,
        RuleType::NonAtomic => 4,
    }
}

/// Returns the numbers of the types of `rules`, in order.
fn types_of(alloc: Global, rules: &[OptimizedRule]) -> Result<Vec<u8>, AllocError>
    ensures { IfOk result (λ types. types.items ≡ map (λ r. type_byte r.ty) rules.now) }
{
    let mut types = Vec::with_capacity(alloc, rules.len())?;
    for rule in rules {
        types.push(type_number(rule.ty))?;
    }
    Ok(types)
}

/// Returns the names of rules.
fn names_of<'a>(alloc: Global, rules: &'a [OptimizedRule]) -> Result<Vec<&'a [u8]>, AllocError>
    ensures { IfOk result (λ names. map (λ n. n.now) names.items
        ≡ map (λ r. string_bytes r.name) rules.entry.now) }
{
    let mut names = Vec::with_capacity(alloc, rules.len())?;
    for rule in rules {
        names.push(rule.name.as_bytes())?;
    }
    Ok(names)
}

/// Returns the block of `program`, with the names and types of `rules`.
///
/// # Errors
/// - `NotCompiled::Memory` if an allocation fails, or if the block would have 2^32 bytes or more.
/// - Those of `code_bytes` and `name_code_bytes`.
fn block_of(
    alloc: Global,
    program: &Program,
    rules: &[OptimizedRule],
) -> Result<Vec<u8>, NotCompiled>
    requires sound { IsSoundProgram program.now }
    ensures code { IfOk result (λ block. HasCode block.items program.now) }
    ensures whole { IfOk result (λ block. IsWhole block.items) }
    ensures rules { IfOk result (λ block. HasRules block.items rules.now) }
{
    let code = code_bytes(alloc, program)?;
    let exact = name_code_bytes(alloc, program)?;
    let named = names_of(alloc, rules)?;
    let names = join_sections(alloc, &named)?;
    let types = types_of(alloc, rules)?;
    let sections = join_sections(
        alloc,
        &[
            code.as_slice(),
            exact.as_slice(),
            names.as_slice(),
            types.as_slice(),
        ],
    )?;
    let block = with_head(alloc, &sections)?;
    Ok(block)
}

/// Compiles `rules` to a block: the bytes of a compiled grammar. `properties` has the character
/// sets of Unicode properties.
///
/// # Errors
/// - `Unfit::UnknownName` if a rule calls an unknown name. A known name is that of a rule, of a
///   builtin, or of a property that `properties` has.
/// - `Unfit::Bound` if a bound of a range is not one character.
/// - `Unfit::Memory` if an allocation fails, if the check of the code fails, or if the block would have 2^32
///   bytes or more.
pub fn compile_block<P: Properties>(
    alloc: Global,
    rules: &[OptimizedRule],
    properties: &P,
) -> Result<Vec<u8>, Unfit>
    ensures compiled { IfOk result (λ block.
        IsBlockOf (optimized_rules_of rules.now) P.classes block.items) }
    ensures whole { IfOk result (λ block. IsWhole block.items) }
    ensures rules { IfOk result (λ block. HasRules block.items rules.now) }
    ensures refused { IfErr result (IsReason P.knows (optimized_rules_of rules.now)) }
{
    let program = program_of(alloc, rules, properties)?;
    match block_of(alloc, &program, rules) {
        Ok(block) => Ok(block),
        Err(_) => Err(Unfit::Memory),
    }
}
