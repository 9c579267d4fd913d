//! Rules without the spans of their nodes.
ghost use Rattle.std.specs.Prelude.{◌≡◌, ◌*◌, [], IfOk, OnOk, ⊤};
ghost use Rattle.base_language.specs.Language.Expression.{Expression};
ghost use Rattle.base_ast.specs.Ast.{expression_of, rule_of_code, rules_of};
ghost use Rattle.base_ast.specs.Weight.{weight};
ghost use Rattle.front_spanned.specs.Erasing.{with_operand, waits_of};
ghost use Rattle.front_spanned.specs.Erasure.{rule_without_spans, rules_without_spans, without_spans};
ghost use Rattle.front_spanned.specs.Nodes.{rule_view, rule_views, unplaced, view, view_at};
ghost use Rattle.front_spanned.specs.Shapes.{IsLeaf};
ghost use Rattle.front_spanned.specs.Spanned.{Span as Place};

use crate::node::{ParserExpr, ParserNode, ParserRule};
use crate::shaped::open_expr;
use base_ast::ast::{Expr, Rule, Sign};
use base_ast::deep::Deep;
use base_ast::rebuilt::{Rebuild, Step, rebuild_tree};
use base_ast::shape::{Joint, Shape, Shaped};
use std::alloc::{AllocError, Global};

/// Returns the rules in order, without the spans of their names and nodes. The only error is allocation
/// failure.
///
/// Texts are moved and not copied. Neither width nor depth takes stack space.
pub fn erase_spans(alloc: Global, rules: Vec<ParserRule<'_>>) -> Result<Vec<Rule>, AllocError>
    ensures { IfOk result
        (λ erased. rules_of erased.items ≡ rules_without_spans (rule_views rules.entry.items)) }
{
    // A list gives from its end, so the first rule is put there.
    let mut rest = Deep { value: rules };
    rest.value.reverse();
    let mut erased = Deep {
        value: Vec::new(alloc),
    };
    let mut outside = Vec::new(alloc);
    while let Some(rule) = rest.value.pop() {
        let rule = erased_rule(alloc, rule, &mut outside)?;
        erased.push(Deep { value: rule })?;
    }
    Ok(erased.into_inner())
}

/// Returns a rule without its spans. `outside` is lent for contexts.
fn erased_rule<'i>(
    alloc: Global,
    rule: ParserRule<'i>,
    outside: &mut Vec<ErasureContext<'i>>,
) -> Result<Rule, AllocError>
    requires { outside.old.items ≡ [] }
    ensures empty { OnOk result (outside.new.items ≡ []) }
    ensures erased { IfOk result (λ erased. rule_of_code erased ≡ rule_without_spans (rule_view rule.entry)) }
{
    let ParserRule { name, ty, node, .. } = rule;
    let expr = rebuild_tree(alloc, node, outside)?;
    Ok(Rule { name, ty, expr })
}

/// The context of an operand while its spans are erased.
#[derive(Drop)]
enum ErasureContext<'i> {
    Sign(Sign),
    /// The operand is the left one, and this the right one.
    First(Joint, Deep<ParserNode<'i>>),
    /// The operand is the right one, and this the left one without spans.
    Second(Joint, Deep<Box<Expr>>),
}

impl<'i> Rebuild for ErasureContext<'i> {
    type Source = ParserNode<'i>;

    type Target = Expr;

    ghost Meaning = { Expression };

    ghost says = { λ node. without_spans (view node) };

    ghost made = { λ expr. expression_of expr };

    ghost fills = { λ around operand. with_operand around operand };

    ghost is_right = { λ _. ⊤ };

    ghost is_ready = { λ _. ⊤ };

    ghost size = { λ node. 4 * weight (without_spans (view node)) };

    ghost waits = { λ around. waits_of around };

    fn open(
        node: ParserNode<'i>,
    ) -> Result<Step<ParserNode<'i>, ErasureContext<'i>, Expr>, AllocError> {
        match open_expr(node.expr) {
            Shape::Leaf(leaf) => Ok(Step::Made(erased_leaf(leaf))),
            Shape::One(sign, operand) => {
                let operand = Box::into_inner(operand);
                Ok(Step::Inside(ErasureContext::Sign(sign), operand))
            }
            Shape::Two(joint, left, right) => {
                let value = Box::into_inner(right);
                let around = ErasureContext::First(joint, Deep { value });
                Ok(Step::Inside(around, Box::into_inner(left)))
            }
        }
    }

    fn close(
        self,
        alloc: Global,
        operand: Expr,
    ) -> Result<Step<ParserNode<'i>, ErasureContext<'i>, Expr>, AllocError> {
        let operand = Deep { value: operand }.into_box(alloc)?;
        match self {
            ErasureContext::Sign(sign) => Ok(Step::Made(Expr::enclose(sign, operand.into_inner()))),
            ErasureContext::First(joint, right) => {
                let around = ErasureContext::Second(joint, operand);
                Ok(Step::Inside(around, right.into_inner()))
            }
            ErasureContext::Second(joint, left) => {
                let whole = Expr::join(joint, left.into_inner(), operand.into_inner());
                Ok(Step::Made(whole))
            }
        }
    }
}

/// Converts an expression without operands.
fn erased_leaf(leaf: ParserExpr<'_>) -> Expr
    requires { IsLeaf (unplaced leaf) }
    ensures { (place : Place) → expression_of result ≡ without_spans (view_at place leaf.entry) }
{
    match leaf {
        ParserExpr::Str(text) => Expr::Str(text),
        ParserExpr::Insens(text) => Expr::Insens(text),
        ParserExpr::Range(first, last) => Expr::Range(first, last),
        ParserExpr::Ident(name) => Expr::Ident(name),
        ParserExpr::PushLiteral(text) => Expr::PushLiteral(text),
        ParserExpr::PeekSlice(start, end) => Expr::PeekSlice(start, end),
        _ => unreachable!(),
    }
}
