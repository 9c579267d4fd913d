//! The iterative join of literals in sequence, however they nest: every text is copied once.
ghost use Rattle.std.specs.Prelude.{◌≡◌, ◌++◌, ◌*◌, ⊤, IfOk};
ghost use Rattle.base_language.specs.Language.Expression.{Expression, Insens, Seq, Str};
ghost use Rattle.base_ast.specs.Ast.{expression_of, text_of};
ghost use Rattle.base_ast.specs.Weight.{weight};
ghost use Rattle.front_optimizer.specs.Here.{joined_here};
ghost use Rattle.front_optimizer.specs.Joined.{concatenated, in_order, joined_with, said_by, waits_of};

use base_ast::ast::Expr;
use base_ast::deep::{Deep, Release};
use base_ast::rebuilt::{Rebuild, Step, rebuild_tree};
use std::alloc::{AllocError, Global};
use std::collections::VecDeque;

/// Returns the expression with two literals in sequence as one, at each node from the leaves up. The only
/// fault is an allocation failure.
pub(crate) fn with_literals_joined(alloc: Global, expr: Expr) -> Result<Expr, AllocError>
    ensures { IfOk result (λ e. expression_of e ≡ concatenated (expression_of expr)) }
{
    let joined = rebuild_tree::<JoinFrame>(alloc, expr, &mut Vec::new(alloc))?;
    into_expr(alloc, joined)
}

// A rebuilt expression. A literal of several is kept in parts, so that others can be put before it and
// after it.
#[derive(Drop)]
enum JoinedExpr {
    Texts(VecDeque<String>),
    Insensitive(VecDeque<String>),
    Other(Expr),
}

impl Release for JoinedExpr {
    fn release(self) {
        match self {
            JoinedExpr::Texts(_) | JoinedExpr::Insensitive(_) => {}
            JoinedExpr::Other(expr) => expr.release(),
        }
    }
}

// A continuation frame of the join.
#[derive(Drop)]
enum JoinFrame {
    PosPred,
    NegPred,
    Opt,
    Rep,
    RepOnce,
    RepExact(u32),
    RepMin(u32),
    RepMax(u32),
    RepMinMax(u32, u32),
    Push,
    NodeTag(String),
    // The left side of a `~` or a `|` is being rebuilt, and the right one waits; or the left one is
    // rebuilt.
    FirstOfSeq(Deep<Box<Expr>>),
    FirstOfChoice(Deep<Box<Expr>>),
    SecondOfSeq(Deep<JoinedExpr>),
    SecondOfChoice(Deep<Box<Expr>>),
}

impl Rebuild for JoinFrame {
    type Source = Expr;

    type Target = JoinedExpr;

    ghost Meaning = { Expression };

    ghost says = { λ expr. concatenated (expression_of expr) };

    ghost made = { λ joined. said_by joined };

    ghost fills = { λ around operand. joined_with around operand };

    ghost is_right = { λ _. ⊤ };

    ghost is_ready = { λ _. ⊤ };

    ghost size = { λ expr. 4 * weight (expression_of expr) };

    ghost waits = { λ around. waits_of around };

    fn open(expr: Expr) -> Result<Step<Expr, JoinFrame, JoinedExpr>, AllocError> {
        let (around, operand) = match expr {
            Expr::PosPred(inner) => (JoinFrame::PosPred, inner),
            Expr::NegPred(inner) => (JoinFrame::NegPred, inner),
            Expr::Opt(inner) => (JoinFrame::Opt, inner),
            Expr::Rep(inner) => (JoinFrame::Rep, inner),
            Expr::RepOnce(inner) => (JoinFrame::RepOnce, inner),
            Expr::RepExact(inner, count) => (JoinFrame::RepExact(count), inner),
            Expr::RepMin(inner, min) => (JoinFrame::RepMin(min), inner),
            Expr::RepMax(inner, max) => (JoinFrame::RepMax(max), inner),
            Expr::RepMinMax(inner, min, max) => (JoinFrame::RepMinMax(min, max), inner),
            Expr::Push(inner) => (JoinFrame::Push, inner),
            Expr::NodeTag(inner, tag) => (JoinFrame::NodeTag(tag), inner),
            Expr::Seq(left, right) => (JoinFrame::FirstOfSeq(Deep { value: right }), left),
            Expr::Choice(left, right) => (JoinFrame::FirstOfChoice(Deep { value: right }), left),
            leaf => return Ok(Step::Made(JoinedExpr::Other(leaf))),
        };
        Ok(Step::Inside(around, Box::into_inner(operand)))
    }

    fn close(
        self,
        alloc: Global,
        operand: JoinedExpr,
    ) -> Result<Step<Expr, JoinFrame, JoinedExpr>, AllocError> {
        let around = match self {
            JoinFrame::FirstOfSeq(right) => {
                let left = Deep { value: operand };
                let right = Box::into_inner(right.into_inner());
                return Ok(Step::Inside(JoinFrame::SecondOfSeq(left), right));
            }
            JoinFrame::SecondOfSeq(left) => {
                return Ok(Step::Made(join_pair(alloc, left.into_inner(), operand)?));
            }
            around => around,
        };
        let operand = into_box(alloc, operand)?;
        let whole = match around {
            JoinFrame::FirstOfChoice(right) => {
                let right = Box::into_inner(right.into_inner());
                return Ok(Step::Inside(JoinFrame::SecondOfChoice(Deep { value: operand }), right));
            }
            JoinFrame::SecondOfChoice(left) => Expr::Choice(left.into_inner(), operand),
            JoinFrame::PosPred => Expr::PosPred(operand),
            JoinFrame::NegPred => Expr::NegPred(operand),
            JoinFrame::Opt => Expr::Opt(operand),
            JoinFrame::Rep => Expr::Rep(operand),
            JoinFrame::RepOnce => Expr::RepOnce(operand),
            JoinFrame::RepExact(count) => Expr::RepExact(operand, count),
            JoinFrame::RepMin(min) => Expr::RepMin(operand, min),
            JoinFrame::RepMax(max) => Expr::RepMax(operand, max),
            JoinFrame::RepMinMax(min, max) => Expr::RepMinMax(operand, min, max),
            JoinFrame::Push => Expr::Push(operand),
            JoinFrame::NodeTag(tag) => Expr::NodeTag(operand, tag),
            JoinFrame::FirstOfSeq(_) | JoinFrame::SecondOfSeq(_) => unreachable!("a side of a `~`"),
        };
        Ok(Step::Made(JoinedExpr::Other(whole)))
    }
}

// Makes an expression of a rebuilt one.
fn into_expr(alloc: Global, joined: JoinedExpr) -> Result<Expr, AllocError>
    ensures { IfOk result (λ e. expression_of e ≡ said_by joined) }
{
    match joined {
        JoinedExpr::Texts(parts) => Ok(Expr::Str(concatenate_texts(alloc, parts)?)),
        JoinedExpr::Insensitive(parts) => Ok(Expr::Insens(concatenate_texts(alloc, parts)?)),
        JoinedExpr::Other(expr) => Ok(expr),
    }
}

fn into_box(alloc: Global, joined: JoinedExpr) -> Result<Box<Expr>, AllocError>
    ensures { IfOk result (λ e. expression_of e.value ≡ said_by joined) }
{
    let expr = Deep {
        value: into_expr(alloc, joined)?,
    };
    Ok(expr.into_box(alloc)?.into_inner())
}

// Concatenates texts.
fn concatenate_texts(alloc: Global, texts: VecDeque<String>) -> Result<String, AllocError>
    ensures { IfOk result (λ text. text_of text ≡ in_order texts.items) }
{
    let mut parts = texts;
    let mut text = String::new(alloc);
    'parts: while let Some(part) = parts.pop_front() {
        text.push_str(&part)?;
    }
    Ok(text)
}

// Makes `left ~ right`, or one literal.
fn join_pair(alloc: Global, left: JoinedExpr, right: JoinedExpr) -> Result<JoinedExpr, AllocError>
    ensures { IfOk result
        (λ j. said_by j ≡ joined_here (Seq (said_by left) (said_by right))) }
{
    match left {
        JoinedExpr::Texts(first) => append_to_texts(alloc, first, right),
        JoinedExpr::Insensitive(first) => append_to_insensitive(alloc, first, right),
        JoinedExpr::Other(left) => append_to_other(alloc, left, right),
    }
}

// Makes `left ~ right`, or one literal, if the left side is a literal of several.
fn append_to_texts(
    alloc: Global,
    first: VecDeque<String>,
    right: JoinedExpr,
) -> Result<JoinedExpr, AllocError>
    ensures { IfOk result
        (λ j. said_by j ≡ joined_here (Seq (Str (in_order first.items)) (said_by right))) }
{
    match right {
        JoinedExpr::Texts(last) => Ok(JoinedExpr::Texts(append_parts(first, last)?)),
        JoinedExpr::Other(Expr::Str(last)) => Ok(JoinedExpr::Texts(append_part(first, last)?)),
        right => keep_apart(alloc, Expr::Str(concatenate_texts(alloc, first)?), right),
    }
}

// Makes `left ~ right`, or one literal, if the left side is a case-insensitive literal of several.
fn append_to_insensitive(
    alloc: Global,
    first: VecDeque<String>,
    right: JoinedExpr,
) -> Result<JoinedExpr, AllocError>
    ensures { IfOk result
        (λ j. said_by j ≡ joined_here (Seq (Insens (in_order first.items)) (said_by right))) }
{
    match right {
        JoinedExpr::Insensitive(last) => Ok(JoinedExpr::Insensitive(append_parts(first, last)?)),
        JoinedExpr::Other(Expr::Insens(last)) => Ok(JoinedExpr::Insensitive(append_part(
            first, last,
        )?)),
        right => keep_apart(alloc, Expr::Insens(concatenate_texts(alloc, first)?), right),
    }
}

// Makes `left ~ right`, or one literal, if the left side is no literal of several.
fn append_to_other(alloc: Global, left: Expr, right: JoinedExpr) -> Result<JoinedExpr, AllocError>
    ensures { IfOk result
        (λ j. said_by j ≡ joined_here (Seq (expression_of left) (said_by right))) }
{
    match (left, right) {
        (Expr::Str(first), JoinedExpr::Texts(parts)) => Ok(JoinedExpr::Texts(prepend_part(
            first, parts,
        )?)),
        (Expr::Str(first), JoinedExpr::Other(Expr::Str(last))) => {
            Ok(JoinedExpr::Texts(pair_of_parts(alloc, first, last)?))
        }
        (Expr::Insens(first), JoinedExpr::Insensitive(parts)) => {
            Ok(JoinedExpr::Insensitive(prepend_part(first, parts)?))
        }
        (Expr::Insens(first), JoinedExpr::Other(Expr::Insens(last))) => {
            Ok(JoinedExpr::Insensitive(pair_of_parts(alloc, first, last)?))
        }
        (left, right) => keep_apart(alloc, left, right),
    }
}

// Makes `left ~ right` itself.
fn keep_apart(alloc: Global, left: Expr, right: JoinedExpr) -> Result<JoinedExpr, AllocError>
    ensures { IfOk result (λ j. said_by j ≡ Seq (expression_of left) (said_by right)) }
{
    let right = Deep { value: right };
    let left = Deep { value: left }.into_box(alloc)?;
    let right = into_box(alloc, right.into_inner())?;
    Ok(JoinedExpr::Other(Expr::Seq(left.into_inner(), right)))
}

// Makes the parts of a text of two.
fn pair_of_parts(alloc: Global, first: String, last: String) -> Result<VecDeque<String>, AllocError>
    ensures { IfOk result (λ all. in_order all.items ≡ text_of first ++ text_of last) }
{
    let mut all = VecDeque::new(alloc);
    all.push_back(first)?;
    all.push_back(last)?;
    Ok(all)
}

// Puts a part before the parts of a text.
fn prepend_part(first: String, parts: VecDeque<String>) -> Result<VecDeque<String>, AllocError>
    ensures { IfOk result (λ all. in_order all.items ≡ text_of first ++ in_order parts.items) }
{
    let mut all = parts;
    all.push_front(first)?;
    Ok(all)
}

// Puts a part after the parts of a text.
fn append_part(parts: VecDeque<String>, last: String) -> Result<VecDeque<String>, AllocError>
    ensures { IfOk result (λ all. in_order all.items ≡ in_order parts.items ++ text_of last) }
{
    let mut all = parts;
    all.push_back(last)?;
    Ok(all)
}

// Appends the parts of a text to those of another. The shorter list is moved, so that no part is moved
// often.
fn append_parts(
    first: VecDeque<String>,
    last: VecDeque<String>,
) -> Result<VecDeque<String>, AllocError>
    ensures { IfOk result (λ all. in_order all.items ≡ in_order first.items ++ in_order last.items) }
{
    if first.len() < last.len() {
        return prepend_all(first, last);
    }
    let mut all = first;
    let mut others = last;
    all.append(&mut others)?;
    Ok(all)
}

// Appends the parts of a text to those of another by moving the first ones.
fn prepend_all(
    first: VecDeque<String>,
    last: VecDeque<String>,
) -> Result<VecDeque<String>, AllocError>
    ensures { IfOk result (λ all. in_order all.items ≡ in_order first.items ++ in_order last.items) }
{
    let mut others = first;
    let mut all = last;
    'parts: while let Some(part) = others.pop_back() {
        all.push_front(part)?;
    }
    Ok(all)
}
