//! The height of a rule: the least number of calls that are inside one another in a match of the
//! rule.

use base_ast::optimized::{OptimizedExpr, OptimizedRule};
use std::alloc::{AllocError, Global};
use std::collections::HashMap;

/// The height of a rule or an expression of which no finite height was found.
pub const ENDLESS: u32 = u32::MAX;
/// The greatest number of nodes of an expression that are visited.
const MOST_NODES: u32 = 100_000;
/// The greatest height that is looked for.
const MOST_ROUNDS: u32 = 200;

/// Heights by the names of rules. The height of a rule is the least number of calls that are inside
/// one another in a match of the rule.
pub type Heights<'a> = HashMap<&'a str, u32>;

/// What is left of the computation of a height.
#[derive(Drop)]
enum HeightTask<'a> {
    Visit(&'a OptimizedExpr),
    /// Takes the greater one of two heights: both parts are needed.
    Both,
    /// Takes the lesser one of two heights: one part is enough.
    Either,
}

/// Returns the height of `expr`, by the heights `heights` of rules: the height of the calls without
/// which `expr` cannot match. The result is `ENDLESS` if the height is not known. The only error is
/// an allocation failure.
pub fn height_of(
    alloc: Global,
    expr: &OptimizedExpr,
    heights: &Heights<'_>,
) -> Result<u32, AllocError> {
    let mut tasks = Vec::new(alloc);
    let mut values = Vec::new(alloc);
    tasks.push(HeightTask::Visit(expr))?;
    for _ in 0..MOST_NODES {
        let Some(task) = tasks.pop() else {
            return Ok(values.pop().unwrap_or(ENDLESS));
        };
        take_step(task, heights, &mut tasks, &mut values)?;
    }
    Ok(ENDLESS)
}

/// Does one task.
fn take_step<'a>(
    task: HeightTask<'a>,
    heights: &Heights<'_>,
    tasks: &mut Vec<HeightTask<'a>>,
    values: &mut Vec<u32>,
) -> Result<(), AllocError> {
    match task {
        HeightTask::Visit(expr) => visit(expr, heights, tasks, values),
        HeightTask::Both => {
            let value = pop_height(values).max(pop_height(values));
            values.push(value)?;
            Ok(())
        }
        HeightTask::Either => {
            let value = pop_height(values).min(pop_height(values));
            values.push(value)?;
            Ok(())
        }
    }
}

/// Takes the last height.
fn pop_height(values: &mut Vec<u32>) -> u32 {
    values.pop().unwrap_or(ENDLESS)
}

/// Visits an expression: its height is known, or its parts come first.
fn visit<'a>(
    expr: &'a OptimizedExpr,
    heights: &Heights<'_>,
    tasks: &mut Vec<HeightTask<'a>>,
    values: &mut Vec<u32>,
) -> Result<(), AllocError> {
    use OptimizedExpr as E;
    match expr {
        E::Seq(left, right) => {
            tasks.push(HeightTask::Both)?;
            tasks.push(HeightTask::Visit(left))?;
            tasks.push(HeightTask::Visit(right))?;
        }
        E::Choice(left, right) => {
            tasks.push(HeightTask::Either)?;
            tasks.push(HeightTask::Visit(left))?;
            tasks.push(HeightTask::Visit(right))?;
        }
        E::RepOnce(inner) | E::Push(inner) | E::NodeTag(inner, _) | E::RestoreOnErr(inner) => {
            tasks.push(HeightTask::Visit(inner))?;
        }
        E::Ident(name) => values.push(height_of_name(name.as_str(), heights))?,
        _ => values.push(0)?,
    }
    Ok(())
}

/// Returns the height of a call: that of the rule, 0 of a builtin, or `ENDLESS` if it is not known.
fn height_of_name(name: &str, heights: &Heights<'_>) -> u32 {
    match heights.get(&name) {
        Some(height) => *height,
        None if front_names::is_builtin(name) => 0,
        None => ENDLESS,
    }
}

/// Returns the heights of `rules` by their names. If no height is found for a rule, its name is
/// left out. The only error is an allocation failure.
pub fn heights_of<'a>(
    alloc: Global,
    rules: &'a [OptimizedRule],
) -> Result<Heights<'a>, AllocError> {
    let mut heights = HashMap::new(alloc);
    for round in 1..MOST_ROUNDS {
        let found = rules_of_height(alloc, rules, &heights)?;
        if found.is_empty() {
            return Ok(heights);
        }
        add_heights(&found, round, &mut heights)?;
    }
    Ok(heights)
}

/// Returns the names of the rules without a height whose bodies have one.
fn rules_of_height<'a>(
    alloc: Global,
    rules: &'a [OptimizedRule],
    heights: &Heights<'a>,
) -> Result<Vec<&'a str>, AllocError> {
    let mut found = Vec::new(alloc);
    for rule in rules {
        let name = rule.name.as_str();
        if !heights.contains_key(&name) && height_of(alloc, &rule.expr, heights)? < ENDLESS {
            found.push(name)?;
        }
    }
    Ok(found)
}

/// Sets the height of each of these names.
fn add_heights<'a>(
    names: &[&'a str],
    height: u32,
    heights: &mut Heights<'a>,
) -> Result<(), AllocError> {
    for name in names {
        heights.insert(*name, height)?;
    }
    Ok(())
}
