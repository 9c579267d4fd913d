//! The strings that an expression denotes, if it is a literal, a name or a choice of such: a
//! depth-first search over names.
ghost use Rattle.std.specs.Prelude.{◌≡◌, IfOk, OnOk, MatchOption, map, string_bytes};
ghost use Rattle.base_language.specs.Language.Expression.{Grammar};
ghost use Rattle.base_language.specs.Rewritings.Rewriting.{Strings};
ghost use Rattle.base_ast.specs.Ast.{expression_of, text_of};
ghost use Rattle.front_optimizer.specs.Bodies.{HoldsBodies, HasStrings, FindsNext, Splits, HaveMet, AreRight, AreRightForAll, Serve, StringsOrNone};

use base_ast::ast::Expr;
use std::alloc::{AllocError, Global};
use std::collections::HashMap;

/// The names of some bodies that denote strings.
#[derive(Drop)]
pub(crate) struct StringNames<'a> {
    /// True at a name that denotes strings; false at one that denotes none, or is being searched.
    met: HashMap<&'a str, bool>,
    /// The names that denote strings.
    known: Vec<&'a str>,
}

/// The next find in an expression: no strings, or strings by known names alone, or a name that is not
/// known, with the expression after it.
#[derive(Drop)]
pub(crate) enum NameSearch<'a> {
    Nothing,
    Strings,
    Name(&'a str, Option<&'a Expr>),
}

/// A name that is being searched, and the expression after its call.
#[derive(Drop)]
pub(crate) struct Caller<'a> {
    name: &'a str,
    behind: Option<&'a Expr>,
}

/// An expression whose strings are still to be collected, and how many names may be nested in each other.
#[derive(Drop)]
pub(crate) struct Part<'a> {
    expr: &'a Expr,
    names: usize,
}

/// Finds the names that denote strings, and searches every name once. The only fault is an allocation
/// failure.
pub(crate) fn names_with_strings<'a>(
    alloc: Global,
    bodies: &'a HashMap<String, Expr>,
) -> Result<StringNames<'a>, AllocError>
    ensures { IfOk result (AreRightForAll bodies.now) }
{
    let mut names = StringNames {
        met: HashMap::new(alloc),
        known: Vec::new(alloc),
    };
    for name in bodies.keys() {
        look_through(alloc, bodies, &mut names, name)?;
    }
    Ok(names)
}

/// Collects the strings of an expression. Names are looked up in `bodies`. Answers none if there
/// is a name of no rule, a cycle of names or anything else. The only fault is an allocation failure.
pub(crate) fn strings_of(
    alloc: Global,
    bodies: &HashMap<String, Expr>,
    names: &StringNames<'_>,
    expr: &Expr,
) -> Result<Option<Vec<String>>, AllocError>
    ensures { IfOk result (λ found. (g : Grammar) → Serve bodies.now names.now g
        → StringsOrNone g (expression_of expr.now) found) }
{
    match next_name(&names.met, expr) {
        NameSearch::Strings => texts_within(alloc, bodies, expr, names.known.len()),
        _ => Ok(None),
    }
}

// Splits an expression into its first leaf and the expression after it.
fn split(expr: &Expr) -> (&Expr, Option<&Expr>)
    ensures { Splits (expression_of expr.now) (expression_of result.0.now) result.1 }
{
    match expr {
        Expr::Choice(first, others) => (&**first, Some(&**others)),
        single => (single, None),
    }
}

// Walks along an expression to the first name that is not visited yet.
fn next_name<'a>(met: &HashMap<&'a str, bool>, expr: &'a Expr) -> NameSearch<'a>
    ensures { FindsNext met.now (expression_of expr.now) result }
{
    let mut rest = expr;
    'along: loop {
        let (first, behind) = split(rest);
        match first {
            Expr::Str(_) => {}
            Expr::Ident(name) => match met.get(name.as_str()) {
                Some(true) => {}
                Some(false) => return NameSearch::Nothing,
                None => return NameSearch::Name(name.as_str(), behind),
            },
            _ => return NameSearch::Nothing,
        }
        match behind {
            Some(others) => rest = others,
            None => return NameSearch::Strings,
        }
    }
}

// Searches a name and those that it reaches, but for visited ones.
fn look_through<'a>(
    alloc: Global,
    bodies: &'a HashMap<String, Expr>,
    names: &mut StringNames<'a>,
    name: &'a String,
) -> Result<(), AllocError>
    ensures right { OnOk result ((g : Grammar) → HoldsBodies bodies.now g
        → AreRight names.old g → AreRight names.new g) }
    ensures met { OnOk result (HaveMet bodies.now names.old names.new (string_bytes name.now)) }
{
    let name = name.as_str();
    if names.met.contains_key(name) {
        return Ok(());
    }
    let Some(body) = bodies.get(name) else {
        return Ok(());
    };
    let mut callers: Vec<Caller<'a>> = Vec::new(alloc);
    names.met.insert(name, false)?;
    callers.push(Caller { name, behind: None })?;
    let mut rest = Some(body);
    'names: loop {
        match rest {
            Some(expr) => match next_name(&names.met, expr) {
                NameSearch::Nothing => return Ok(()),
                NameSearch::Strings => rest = None,
                NameSearch::Name(name, behind) => {
                    let Some(body) = bodies.get(name) else {
                        return Ok(());
                    };
                    names.met.insert(name, false)?;
                    callers.push(Caller { name, behind })?;
                    rest = Some(body);
                }
            },
            None => match callers.pop() {
                Some(Caller { name, behind }) => {
                    names.met.insert(name, true)?;
                    names.known.push(name)?;
                    rest = behind;
                }
                None => return Ok(()),
            },
        }
    }
}

// Collects the strings, if fewer than `names` names are nested in each other.
fn texts_within(
    alloc: Global,
    bodies: &HashMap<String, Expr>,
    expr: &Expr,
    names: usize,
) -> Result<Option<Vec<String>>, AllocError>
    ensures { IfOk result (λ found. (g : Grammar) → HoldsBodies bodies.now g
        → HasStrings g names (expression_of expr.now) → MatchOption found ⊥
        (λ ts. Strings g (expression_of expr.now) (map text_of ts.items))) }
{
    let mut texts = Vec::new(alloc);
    let mut parts = Vec::new(alloc);
    parts.push(Part { expr, names })?;
    'parts: while let Some(Part { expr, names }) = parts.pop() {
        match expr {
            Expr::Str(text) => texts.push(text.clone()?)?,
            Expr::Choice(first, others) => {
                parts.push(Part {
                    expr: others,
                    names,
                })?;
                parts.push(Part { expr: first, names })?;
            }
            Expr::Ident(name) => match bodies.get(name.as_str()) {
                Some(body) if names > 0 => parts.push(Part {
                    expr: body,
                    names: names - 1,
                })?,
                _ => return Ok(None),
            },
            _ => return Ok(None),
        }
    }
    Ok(Some(texts))
}
