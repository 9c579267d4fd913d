//! The sets of characters of property names.
ghost use Rattle.std.specs.Prelude.{◌≡◌, ◌<◌, ◌+◌, ◌++◌, ℕ, Bool, true, false, IfNone, IfOk, IfSome, OnOk, chars, is_some, map};
ghost use Rattle.base_ast.specs.Optimized.{optimized_expression_of, optimized_rules_of};
ghost use Rattle.base_ast.specs.Weight.{weight};
ghost use Rattle.base_language.specs.Language.Expression.{Ident};
ghost use Rattle.base_language.specs.Language.Text.{Text};
ghost use Rattle.base_language.specs.Language.WellFormed.{InSomeRule};
ghost use Rattle.matcher_program.specs.Forming.{calls_of, calls_waiting, heft, own_call};
ghost use Rattle.matcher_program.specs.Programs.{Fits, IsNumberOf, is_in_ranges};
ghost use Rattle.matcher_program.specs.Refusals.{has_property};

use crate::form::Property;
use crate::texts::same;
use base_ast::optimized::{OptimizedExpr, OptimizedRule};
use std::alloc::{AllocError, Global};

/// The sets of Unicode property names.
pub trait Properties {
    /// Whether the set of a name is known.
    ghost knows: { Text → Bool };

    /// The set of a name.
    ghost classes: { Text → ℕ → Bool };

    /// Returns the set of a name as ranges of code points, both ends included, or `None` if it is not
    /// known. The only error is an allocation failure.
    fn ranges(&self, alloc: Global, name: &str) -> Result<Option<Vec<(u32, u32)>>, AllocError>
        ensures known { IfOk result (λ found. is_some found ≡ knows (chars name.now)) }
        ensures ranges { IfOk result (λ found. IfSome found (λ ranges. (c : ℕ) → c < 1114112
            → is_in_ranges ranges.items c ≡ classes (chars name.now) c)) };
}

/// The environment without known properties, in which rules that name one are refused.
#[derive(Clone, Copy, Debug)]
pub struct NoProperties;

impl Properties for NoProperties {
    ghost knows = { λ n. false };

    ghost classes = { λ n c. false };

    fn ranges(&self, _alloc: Global, _name: &str) -> Result<Option<Vec<(u32, u32)>>, AllocError> {
        Ok(None)
    }
}

/// Pushes two operands on a list, the left one on top.
#[tactic(auto, using(crate::proofs::Forming::heavier))]
fn put_both<'a>(
    waiting: &mut Vec<&'a OptimizedExpr>,
    left: &'a OptimizedExpr,
    right: &'a OptimizedExpr,
) -> Result<(), AllocError>
    ensures heft { OnOk result (heft waiting.new.items ≡ heft waiting.old.items
        + (weight (optimized_expression_of left.entry.now)
        + weight (optimized_expression_of right.entry.now))) }
    ensures calls { OnOk result (calls_waiting waiting.new.items
        ≡ (calls_of (optimized_expression_of left.entry.now)
        ++ calls_of (optimized_expression_of right.entry.now)) ++ calls_waiting waiting.old.items) }
{
    waiting.push(right)?;
    waiting.push(left)?;
    Ok(())
}

/// Pushes the operands of an expression on a list.
#[tactic(auto, using(crate::proofs::Forming::heavier, crate::proofs::Forming::calls_more))]
fn put_operands<'a>(
    waiting: &mut Vec<&'a OptimizedExpr>,
    expr: &'a OptimizedExpr,
) -> Result<(), AllocError>
    ensures heft { OnOk result (heft waiting.new.items
        < heft waiting.old.items + weight (optimized_expression_of expr.entry.now)) }
    ensures calls { OnOk result (own_call (optimized_expression_of expr.entry.now)
        ++ calls_waiting waiting.new.items
        ≡ calls_of (optimized_expression_of expr.entry.now) ++ calls_waiting waiting.old.items) }
{
    match expr {
        OptimizedExpr::Str(_)
        | OptimizedExpr::Insens(_)
        | OptimizedExpr::Range(_, _)
        | OptimizedExpr::Ident(_)
        | OptimizedExpr::PeekSlice(_, _)
        | OptimizedExpr::Skip(_)
        | OptimizedExpr::PushLiteral(_) => {}
        OptimizedExpr::Seq(left, right) | OptimizedExpr::Choice(left, right) => {
            put_both(waiting, left, right)?;
        }
        OptimizedExpr::NodeTag(inner, _) => waiting.push(inner)?,
        OptimizedExpr::PosPred(inner)
        | OptimizedExpr::NegPred(inner)
        | OptimizedExpr::Opt(inner)
        | OptimizedExpr::Rep(inner)
        | OptimizedExpr::RepOnce(inner)
        | OptimizedExpr::Push(inner)
        | OptimizedExpr::RestoreOnErr(inner) => waiting.push(inner)?,
    }
    Ok(())
}

/// Adds the names that an expression calls, iteratively.
#[tactic(auto, using(crate::proofs::Forming::heavier))]
fn add_names<'a>(
    alloc: Global,
    names: &mut Vec<&'a str>,
    expr: &'a OptimizedExpr,
) -> Result<(), AllocError>
    ensures { OnOk result (map (λ name. chars name.now) names.new.items
        ≡ map (λ name. chars name.now) names.old.items ++ calls_of (optimized_expression_of expr.entry.now)) }
{
    let mut waiting = Vec::new(alloc);
    waiting.push(expr)?;
    'parts: while let Some(part) = waiting.pop() {
        if let OptimizedExpr::Ident(name) = part {
            names.push(name.as_str())?;
        }
        put_operands(&mut waiting, part)?;
    }
    Ok(())
}

/// Returns the index of a property of a name.
pub(crate) fn find_property(properties: &[Property], name: &str) -> Option<usize>
    ensures none { IfNone result (has_property properties.now (chars name.now) ≡ false) }
    ensures some { IfSome result (λ i. IsNumberOf properties.now (chars name.now) i) }
{
    for (number, property) in properties.iter().enumerate() {
        if same(property.name.as_str(), name) {
            return Some(number);
        }
    }
    None
}

/// Adds the property of a name, if it is known and not in the list.
fn add_property<P: Properties>(
    alloc: Global,
    found: &mut Vec<Property>,
    properties: &P,
    name: &str,
) -> Result<(), AllocError>
    requires fits { Fits found.old.items P.classes }
    ensures fits { Fits found.new.items P.classes }
    ensures known { OnOk result (P.knows (chars name.now) ≡ true
        → has_property found.new.items (chars name.now) ≡ true) }
    ensures others { (n : Text) → has_property found.old.items n ≡ true
        → has_property found.new.items n ≡ true }
{
    if find_property(found, name).is_some() {
        return Ok(());
    }
    match properties.ranges(alloc, name)? {
        Some(ranges) => {
            let name = String::from_str(alloc, name)?;
            Ok(found.push(Property { name, ranges })?)
        }
        None => Ok(()),
    }
}

/// Returns the known properties that rules name, without duplicates.
pub(crate) fn properties_in<P: Properties>(
    alloc: Global,
    rules: &[OptimizedRule],
    properties: &P,
) -> Result<Vec<Property>, AllocError>
    ensures fits { IfOk result (λ found. Fits found.items P.classes) }
    ensures complete { IfOk result (λ found. (n : Text) → InSomeRule (optimized_rules_of rules.now) (Ident n)
        → P.knows n ≡ true → has_property found.items n ≡ true) }
{
    let mut names = Vec::new(alloc);
    for rule in rules {
        add_names(alloc, &mut names, &rule.expr)?;
    }
    let mut found = Vec::new(alloc);
    for name in &names {
        add_property(alloc, &mut found, properties, name)?;
    }
    Ok(found)
}
