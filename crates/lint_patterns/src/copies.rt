//! Counted repetitions whose copies multiply.
ghost use Rattle.std.specs.Prelude.{◌≡◌, ◌+◌, ◌*◌, ◌<◌, ◌++◌, IfOk, OnOk, map};
ghost use Rattle.std.specs.Option.{SomeIff};
ghost use Rattle.lint_patterns.specs.Copies as spec;
ghost use Rattle.lint_patterns.specs.CopyLists.{HasBranches, left_over, nodes_left};
ghost use Rattle.front_spanned.specs.Nodes.{piece_of, rule_views, view};
ghost use Rattle.front_spanned.specs.Spanned.{span_of};

use base_language::runtime::Span;
use front_spanned::{ParserExpr, ParserNode, ParserRule};
use std::alloc::{AllocError, Global};

/// Copies that are many.
const MANY: u64 = 10_000;

/// The spans of repetitions of whose operands the optimizer makes 10,000 copies or more, as the inner one of
/// `("a"{100} ~ "b"){100}`, in the order of the text. Nothing is looked at inside such a repetition. The only
/// error is an allocation failure. The time is linear in the rules.
pub fn many_copies<'i>(alloc: Global, rules: &[ParserRule<'i>]) -> Result<Vec<Span<'i>>, AllocError>
    ensures { IfOk result (λ found.
        map piece_of found.items ≡ spec.many_copies (rule_views rules.now)) }
{
    let mut found = Vec::new(alloc);
    for rule in rules {
        add_of_body(alloc, &rule.node, &mut found)?;
    }
    Ok(found)
}

/// A node, and how many copies of it are made.
#[derive(Clone, Copy)]
pub(crate) struct Copied<'n, 'i> {
    pub node: &'n ParserNode<'i>,
    pub copies: u64,
}

/// Adds the spans of a body.
fn add_of_body<'i>(
    alloc: Global,
    body: &ParserNode<'i>,
    found: &mut Vec<Span<'i>>,
) -> Result<(), AllocError>
    ensures { OnOk result (map piece_of found.new.items
        ≡ map piece_of found.old.items ++ spec.many_in (view body.now)) }
{
    let mut stack = Vec::new(alloc);
    stack.push(Copied {
        node: body,
        copies: 1,
    })?;
    while let Some(next) = stack.pop() {
        look_at(next, &mut stack, found)?;
    }
    Ok(())
}

/// Adds the span of a node that makes many copies, or else pushes its operands on a stack, the left one on
/// top.
fn look_at<'n, 'i>(
    next: Copied<'n, 'i>,
    stack: &mut Vec<Copied<'n, 'i>>,
    found: &mut Vec<Span<'i>>,
) -> Result<(), AllocError>
    ensures looks { OnOk result (map piece_of found.new.items ++ left_over stack.new.items
        ≡ map piece_of found.old.items
        ++ (map span_of (spec.crowded next.entry.copies (view next.entry.node.now))
        ++ left_over stack.old.items)) }
    ensures less { OnOk result (nodes_left stack.new.items
        < nodes_left stack.old.items + spec.size (view next.entry.node.now)) }
{
    match branches_of(next.node) {
        Branches::None => {}
        Branches::One(node, count) => match few_copies(next.copies, count) {
            Some(copies) => stack.push(Copied { node, copies })?,
            None => found.push(next.node.span)?,
        },
        Branches::Two(left, right) => {
            let copies = next.copies;
            stack.push(Copied {
                node: right,
                copies,
            })?;
            stack.push(Copied { node: left, copies })?;
        }
    }
    Ok(())
}

/// The product of two numbers of copies, if it is not many.
fn few_copies(around: u64, count: u64) -> Option<u64>
    ensures { SomeIff result (around * count < 10000) (around * count) }
{
    match around.checked_mul(count) {
        Some(copies) if copies < MANY => Some(copies),
        _ => None,
    }
}

/// The operands of a node, and of one how many copies are made.
#[derive(Clone, Copy)]
pub(crate) enum Branches<'n, 'i> {
    None,
    One(&'n ParserNode<'i>, u64),
    Two(&'n ParserNode<'i>, &'n ParserNode<'i>),
}

/// The operands of a node.
pub(crate) fn branches_of<'n, 'i>(node: &'n ParserNode<'i>) -> Branches<'n, 'i>
    ensures { HasBranches (view node.entry.now) result }
{
    use ParserExpr as E;
    match &node.expr {
        E::Str(_) | E::Insens(_) | E::Ident(_) => Branches::None,
        E::Range(_, _) | E::PeekSlice(_, _) => Branches::None,
        E::PushLiteral(_) => Branches::None,
        E::NodeTag(inner, _) => Branches::One(inner, 1),
        E::PosPred(inner) | E::NegPred(inner) | E::Opt(inner) => Branches::One(inner, 1),
        E::Rep(inner) | E::RepOnce(inner) | E::Push(inner) => Branches::One(inner, 1),
        E::RepMin(inner, least) => Branches::One(inner, u64::from(*least) + 1),
        E::RepExact(inner, most) | E::RepMax(inner, most) => Branches::One(inner, u64::from(*most)),
        E::RepMinMax(inner, _, most) => Branches::One(inner, u64::from(*most)),
        E::Seq(left, right) | E::Choice(left, right) => Branches::Two(left, right),
    }
}
