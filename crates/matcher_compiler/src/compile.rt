//! The compiler.
ghost use Rattle.std.specs.Prelude.{◌≡◌, ◌<◌, ◌^◌, IfOk, IfSome, None, OnOk, Some, [], false, get_or, if◌then◌else◌, length, map, true};
ghost use Rattle.base_ast.specs.Ast.{rule_type_of};
ghost use Rattle.base_language.specs.Language.Expression.{Silent};
ghost use Rattle.matcher_code.specs.Lists.{lists_of};
ghost use Rattle.matcher_code.specs.Sets.{IsAligned};
ghost use Rattle.matcher_program.specs.declared.form.Program.{Program};
ghost use Rattle.matcher_compiler.specs.Compiled.{AreMet, HasEnds, HasEntries, IsCodeOf, IsEmpty};
ghost use Rattle.matcher_compiler.specs.Exact.{is_exact};
ghost use Rattle.matcher_compiler.specs.Extents.{IsFitting};
ghost use Rattle.matcher_compiler.specs.declared.plan.Skips.TheVariants as skips;
ghost use Rattle.matcher_compiler.specs.Plans.{AreBlanks, IsLater, IsReady, Meets, laid_point};
ghost use Rattle.matcher_sets.specs.Forms.{IsSoundProgram};

use crate::calls::BODIES;
use crate::check::{has_ends, is_exact, meets_all};
use crate::extent::is_fitting;
use crate::names::last_program_rules;
use crate::plan::{Plan, Skips};
use crate::points::{Demand, NO_CALL, NotCompiled, Part, Point, TOP_RANK, TaskLabels};
use crate::sets::KEYS;
use crate::table_writer::{Made, write_tables};
use crate::tables::TABLE_SIZE;
use base_ast::ast::RuleType;
use matcher_code::code::{Code, Op};
use matcher_code::ranges::Ranges;
use matcher_code::sets::add_set;
use matcher_program::form::{Form, Program, ProgramRule};
use matcher_sets::difference::first_ranges;
use matcher_sets::learning::rule_first_sets;
use matcher_sets::modes::Atomicity;
use matcher_sets::sizes::body_sizes;
use std::alloc::Global;

/// The number from which on there are too many rules.
const TOO_MANY_RULES: usize = 1 << 28;

/// For how many points of each rule there is room at first.
const EXPECTED_POINTS: usize = 24;

/// Returns a program of nothing.
fn empty_code(alloc: Global) -> Code
    ensures aligned { IsAligned result }
    ensures none { result.ranges.items ≡ [] }
{
    Code {
        ops: Vec::new(alloc),
        byte_sets: Vec::new(alloc),
        ranges: Vec::new(alloc),
        tables: Vec::new(alloc),
        texts: Vec::new(alloc),
        lists: Vec::new(alloc),
    }
}

/// Returns a plan without points and demands, for some rules.
fn fresh_plan<'p>(
    alloc: Global,
    program: &Program,
    sets: Code,
    skips: Skips,
) -> Result<Plan<'p>, NotCompiled>
    requires aligned { IsAligned sets }
    ensures empty { IfOk result IsEmpty }
    ensures sets { IfOk result (λ plan. plan.sets ≡ sets) }
    ensures skips { IfOk result (λ plan. plan.skips ≡ skips) }
{
    let sizes = body_sizes(alloc, program)?;
    let mut bodies = Vec::new(alloc);
    bodies.resize(
        program.rules.len().saturating_mul(BODIES).saturating_add(1),
        None,
    )?;
    let mut places = Vec::with_capacity(alloc, KEYS)?;
    places.resize(KEYS, u32::MAX)?;
    let expected = program.rules.len().saturating_mul(EXPECTED_POINTS);
    Ok(Plan {
        points: Vec::with_capacity(alloc, expected)?,
        demands: Vec::with_capacity(alloc, expected)?,
        sets,
        known: Vec::new(alloc),
        places,
        texts: Vec::new(alloc),
        lists: Vec::new(alloc),
        skips,
        tables: 0,
        bodies,
        sizes,
    })
}

/// Returns the ranges of the characters that blanks are made of, if the body of the silent rule `WHITESPACE`
/// is a choice of single characters and newlines.
fn body_ranges(
    alloc: Global,
    program: &Program,
    number: usize,
    program_rule: &ProgramRule,
    body: &Form,
) -> Result<Option<Ranges>, NotCompiled>
    requires sound { IsSoundProgram program.now }
    requires white { program.now.whitespace ≡ Some number }
    requires within { number < length program.now.rules.items }
    requires is { program_rule.now ≡ get_or program.now.rules.items number program_rule.now }
    requires kind { rule_type_of program_rule.now.kind ≡ Silent }
    requires body { body.now ≡ program_rule.now.body }
    ensures { IfOk result (λ made. IfSome made (λ ranges. AreBlanks program.now ranges.items)) }
{
    let made = first_ranges(alloc, program, body)?;
    match made {
        Some(ranges) => Ok(Some(ranges)),
        None => Ok(None),
    }
}

/// Returns the ranges of the characters that blanks are made of, if the rule `WHITESPACE` is silent, and
/// matches single characters and newlines.
fn silent_ranges(
    alloc: Global,
    program: &Program,
    number: usize,
    program_rule: &ProgramRule,
) -> Result<Option<Ranges>, NotCompiled>
    requires sound { IsSoundProgram program.now }
    requires white { program.now.whitespace ≡ Some number }
    requires within { number < length program.now.rules.items }
    requires is { program_rule.now ≡ get_or program.now.rules.items number program_rule.now }
    ensures { IfOk result (λ made. IfSome made (λ ranges. AreBlanks program.now ranges.items)) }
{
    match program_rule.kind {
        RuleType::Silent => body_ranges(alloc, program, number, program_rule, &program_rule.body),
        _ => Ok(None),
    }
}

/// Returns the ranges of blanks, which are none without a rule `WHITESPACE`, or `None` if that rule is not a
/// silent one of single characters and newlines.
fn blank_ranges(alloc: Global, program: &Program) -> Result<Option<Ranges>, NotCompiled>
    requires sound { IsSoundProgram program.now }
    ensures { IfOk result (λ made. IfSome made (λ ranges. AreBlanks program.now ranges.items)) }
{
    match program.whitespace {
        Some(number) => match program.rules.get(number) {
            Some(program_rule) => silent_ranges(alloc, program, number, program_rule),
            None => Ok(None),
        },
        None => Ok(Some(Vec::new(alloc))),
    }
}

/// Returns what is skipped: the characters of a set, and comments, if there are such.
fn skips_with(comments: bool, set: u32) -> Skips
    ensures { result ≡ (if comments then skips.Comments set else skips.Blanks set) }
{
    if comments {
        Skips::Comments(set)
    } else {
        Skips::Blanks(set)
    }
}

/// Returns a plan without points, if the rules of blanks and comments are called.
fn call_plan<'p>(alloc: Global, program: &Program) -> Result<Plan<'p>, NotCompiled>
    ensures empty { IfOk result IsEmpty }
    ensures ready { IfOk result (IsReady program.now) }
{
    let mut sets = empty_code(alloc);
    let set = add_set(&mut sets, Vec::new(alloc))?;
    if set as usize >= sets.ranges.len() {
        return Err(NotCompiled::Unsupported);
    }
    let plan = fresh_plan(alloc, program, sets, Skips::Calls(set))?;
    Ok(plan)
}

/// Returns a plan without points, if blanks are skipped, and comments when there are such.
fn blank_plan<'p>(alloc: Global, program: &Program, comments: bool) -> Result<Plan<'p>, NotCompiled>
    requires sound { IsSoundProgram program.now }
    requires note { comments ≡ false → program.now.comment ≡ None }
    ensures empty { IfOk result IsEmpty }
    ensures ready { IfOk result (IsReady program.now) }
{
    let made = blank_ranges(alloc, program)?;
    match made {
        Some(ranges) => set_plan(alloc, program, comments, ranges),
        None => call_plan(alloc, program),
    }
}

/// Returns a plan without points, if blanks are the characters of some ranges.
fn set_plan<'p>(
    alloc: Global,
    program: &Program,
    comments: bool,
    ranges: Ranges,
) -> Result<Plan<'p>, NotCompiled>
    requires sound { IsSoundProgram program.now }
    requires note { comments ≡ false → program.now.comment ≡ None }
    requires blanks { AreBlanks program.now ranges.items }
    ensures empty { IfOk result IsEmpty }
    ensures ready { IfOk result (IsReady program.now) }
{
    let mut sets = empty_code(alloc);
    let set = add_set(&mut sets, ranges)?;
    if set as usize >= sets.ranges.len() {
        return Err(NotCompiled::Unsupported);
    }
    let skips = skips_with(comments, set);
    let plan = fresh_plan(alloc, program, sets, skips)?;
    Ok(plan)
}

/// Returns a plan without points, if nothing is skipped.
fn plain_plan<'p>(alloc: Global, program: &Program) -> Result<Plan<'p>, NotCompiled>
    requires sound { IsSoundProgram program.now }
    requires white { program.now.whitespace ≡ None }
    requires note { program.now.comment ≡ None }
    ensures empty { IfOk result IsEmpty }
    ensures ready { IfOk result (IsReady program.now) }
{
    let plan = fresh_plan(alloc, program, empty_code(alloc), Skips::Nothing)?;
    Ok(plan)
}

/// Returns a plan without points, by what is skipped implicitly.
fn first_plan<'p>(alloc: Global, program: &Program) -> Result<Plan<'p>, NotCompiled>
    requires sound { IsSoundProgram program.now }
    ensures empty { IfOk result IsEmpty }
    ensures ready { IfOk result (IsReady program.now) }
{
    match program.comment {
        Some(_) => blank_plan(alloc, program, true),
        None => match program.whitespace {
            Some(_) => blank_plan(alloc, program, false),
            None => plain_plan(alloc, program),
        },
    }
}

/// Plans the operations that fail and that end a run.
fn plan_ends(plan: &mut Plan<'_>) -> Result<(), NotCompiled>
    ensures { OnOk result ((p : Program) → IsLater p plan.old plan.new) }
{
    plan.operation(0, Op::Fail)?;
    plan.operation(1, Op::Halt)?;
    plan.operation(2, Op::Lose)?;
    Ok(())
}

/// Plans a call of each rule from outside.
fn plan_entries(program: &Program, plan: &mut Plan<'_>) -> Result<(), NotCompiled>
    requires few { length program.now.rules.items < 2 ^ 28 }
    ensures later { OnOk result (IsLater program.now plan.old plan.new) }
    ensures has { OnOk result (HasEntries program.now plan.new (length program.now.rules.items)) }
{
    for rule in 0..program.rules.len() {
        let at = TaskLabels {
            mode: Atomicity::NonAtomic,
            label: rule as u32 + 3,
            next: 1,
            on_fail: 2,
            rank: TOP_RANK,
            around: NO_CALL,
        };
        plan.point(Part::Rule(rule), at)?;
    }
    Ok(())
}

/// Writes an operation at a label. Labels that have no operation fail.
fn put(ops: &mut Vec<Op>, label: usize, op: Op) -> Result<(), NotCompiled> {
    if label >= ops.len() {
        ops.resize(label.saturating_add(1), Op::Fail)?;
    }
    if let Some(place) = ops.get_mut(label) {
        *place = op;
    }
    Ok(())
}

/// Writes the operations that are demanded.
fn write(alloc: Global, demands: &[Demand]) -> Result<Vec<Op>, NotCompiled> {
    let mut ops = Vec::with_capacity(alloc, demands.len())?;
    for demand in demands {
        if let Demand::Operation { label, op } = demand {
            put(&mut ops, *label as usize, *op)?;
        }
    }
    Ok(ops)
}

/// Returns a program if it has what is demanded.
fn compare(code: Code, points: &[Point<'_>], demands: &[Demand]) -> Result<Code, NotCompiled>
    ensures same { IfOk result (λ made. made ≡ code) }
    ensures ends { IfOk result (λ made. HasEnds (lists_of made)) }
    ensures met { IfOk result (λ made. AreMet (lists_of made) points.now demands.now) }
{
    if !has_ends(&code) {
        return Err(NotCompiled::Unsupported);
    }
    if meets_all(&code, points, demands) {
        Ok(code)
    } else {
        Err(NotCompiled::Unsupported)
    }
}

/// Makes the program of a plan, and compares it with what is demanded.
fn finish(alloc: Global, plan: Plan<'_>) -> Result<Code, NotCompiled>
    ensures ends { IfOk result (λ made. HasEnds (lists_of made)) }
    ensures meets { IfOk result (λ code. (p : Program)
        → Meets p plan.entry (lists_of code) (map (laid_point p) plan.entry.points.items)) }
{
    let Plan {
        points,
        demands,
        sets,
        known: _,
        places: _,
        texts,
        lists,
        skips: _,
        tables: size,
        bodies: _,
        sizes: _,
    } = plan;
    let ops = write(alloc, &demands)?;
    let Code {
        ops: _,
        byte_sets,
        ranges,
        tables: _,
        texts: _,
        lists: _,
    } = sets;
    let Made { ops, tables } = write_tables(
        alloc,
        ops,
        size / TABLE_SIZE,
        &byte_sets,
        &texts,
        &demands,
    )?;
    let code = Code {
        ops,
        byte_sets,
        ranges,
        tables,
        texts,
        lists,
    };
    let made = points.as_slice();
    let wanted = demands.as_slice();
    let code = compare(code, made, wanted)?;
    Ok(code)
}

/// Makes a program for rules, which uses the stack only if they do, and whose size is linear in theirs.
/// Errors: rules that need more labels than `u32` has numbers; and an allocation failure.
pub fn compile(alloc: Global, program: &Program) -> Result<Code, NotCompiled>
    requires sound { IsSoundProgram program.now }
    ensures is { IfOk result (λ code. IsCodeOf false program.now (lists_of code)) }
    ensures fits { IfOk result (λ code. IsFitting program.now (lists_of code)) }
{
    let code = compile_with(alloc, program, false)?;
    Ok(code)
}

/// Makes a program as `compile`, which calls each rule whose failure is recorded, so that its runs find the
/// names that are expected, and the attempts of pest's errors.
pub fn compile_for_names(alloc: Global, program: &Program) -> Result<Code, NotCompiled>
    requires sound { IsSoundProgram program.now }
    ensures is { IfOk result (λ code. IsCodeOf true program.now (lists_of code)) }
    ensures fits { IfOk result (λ code. IsFitting program.now (lists_of code)) }
{
    let code = compile_with(alloc, program, true)?;
    if is_exact(&code) {
        Ok(code)
    } else {
        Err(NotCompiled::Unsupported)
    }
}

/// Makes a program, with calls of all rules whose failures are recorded, or without those that a test spares.
fn compile_with(alloc: Global, program: &Program, calls_all: bool) -> Result<Code, NotCompiled>
    requires sound { IsSoundProgram program.now }
    ensures is { IfOk result (λ code. IsCodeOf (is_exact (lists_of code)) program.now (lists_of code)) }
    ensures fits { IfOk result (λ code. IsFitting program.now (lists_of code)) }
{
    if program.rules.len() >= TOO_MANY_RULES {
        return Err(NotCompiled::Unsupported);
    }
    let lasts = last_program_rules(alloc, program)?;
    let mut plan = first_plan(alloc, program)?;
    plan_ends(&mut plan)?;
    plan_entries(program, &mut plan)?;
    let first_sets = rule_first_sets(alloc, program, calls_all)?;
    plan.plan(alloc, program, &first_sets, &lasts)?;
    let code = finish(alloc, plan)?;
    if is_fitting(alloc, program, &code)? {
        Ok(code)
    } else {
        Err(NotCompiled::Unsupported)
    }
}
