//! Copies of rules without spans.
ghost use Rattle.std.specs.Prelude.{◌≡◌, ◌*◌, IfOk, ⊤};
ghost use Rattle.base_language.specs.Language.Expression.{Expression};
ghost use Rattle.base_ast.specs.Ast.{expression_of, rule_of_code, rules_of};
ghost use Rattle.base_ast.specs.Weight.{weight};
ghost use Rattle.front_spanned.specs.Copies.{waits_of, with_operand};
ghost use Rattle.front_spanned.specs.Erasure.{rule_without_spans, rules_without_spans, without_spans};
ghost use Rattle.front_spanned.specs.Nodes.{rule_view, rule_views, view};

use crate::node::{ParserExpr, ParserNode, ParserRule};
use base_ast::ast::{Expr, Rule, Sign};
use base_ast::deep::Deep;
use base_ast::rebuilt::{Rebuild, Step, rebuild_tree};
use base_ast::shape::{Joint, Shaped};
use std::alloc::{AllocError, Global};

/// Returns copies of the rules in order, without the spans of their names and nodes. The only error is an
/// allocation failure.
pub fn copy_rules(alloc: Global, rules: &[ParserRule<'_>]) -> Result<Deep<Vec<Rule>>, AllocError>
    ensures { IfOk result
        (λ copies. rules_of copies.value.items ≡ rules_without_spans (rule_views rules.now)) }
{
    let mut copies = Deep {
        value: Vec::new(alloc),
    };
    for rule in rules {
        copies.push(copy_rule(alloc, rule)?)?;
    }
    Ok(copies)
}

/// Returns a copy of a rule without the spans of its name and its nodes. The only error is an allocation
/// failure.
pub fn copy_rule(alloc: Global, rule: &ParserRule<'_>) -> Result<Deep<Rule>, AllocError>
    ensures { IfOk result (λ copy. rule_of_code copy.value ≡ rule_without_spans (rule_view rule.now)) }
{
    let name = rule.name.clone()?;
    let ty = rule.ty;
    let mut outside: Vec<CopyContext<'_, '_>> = Vec::new(alloc);
    let expr = rebuild_tree(alloc, &rule.node, &mut outside)?;
    let value = Rule { name, ty, expr };
    Ok(Deep { value })
}

/// The context of an operand while it is copied without spans.
#[derive(Drop)]
enum CopyContext<'n, 'i> {
    Sign(Sign),
    /// The operand is the left one, and this the right one.
    First(Joint, &'n ParserNode<'i>),
    /// The operand is the right one, and this the copy of the left one.
    Second(Joint, Deep<Box<Expr>>),
}

impl<'n, 'i> Rebuild for CopyContext<'n, 'i> {
    type Source = &'n ParserNode<'i>;

    type Target = Expr;

    ghost Meaning = { Expression };

    ghost says = { λ node. without_spans (view node.now) };

    ghost made = { λ expr. expression_of expr };

    ghost fills = { λ around operand. with_operand around operand };

    ghost is_right = { λ _. ⊤ };

    ghost is_ready = { λ _. ⊤ };

    ghost size = { λ node. 4 * weight (without_spans (view node.now)) };

    ghost waits = { λ around. waits_of around };

    fn open(
        node: &'n ParserNode<'i>,
    ) -> Result<Step<&'n ParserNode<'i>, CopyContext<'n, 'i>, Expr>, AllocError> {
        use ParserExpr as E;
        let (sign, operand) = match &node.expr {
            E::Str(text) => return Ok(Step::Made(Expr::Str(text.clone()?))),
            E::Insens(text) => return Ok(Step::Made(Expr::Insens(text.clone()?))),
            E::Range(first, last) => {
                return Ok(Step::Made(Expr::Range(first.clone()?, last.clone()?)));
            }
            E::Ident(name) => return Ok(Step::Made(Expr::Ident(name.clone()?))),
            E::PushLiteral(text) => return Ok(Step::Made(Expr::PushLiteral(text.clone()?))),
            E::PeekSlice(start, end) => return Ok(Step::Made(Expr::PeekSlice(*start, *end))),
            E::PosPred(inner) => (Sign::PosPred, inner),
            E::NegPred(inner) => (Sign::NegPred, inner),
            E::Opt(inner) => (Sign::Opt, inner),
            E::Rep(inner) => (Sign::Rep, inner),
            E::RepOnce(inner) => (Sign::RepOnce, inner),
            E::RepExact(inner, count) => (Sign::RepExact(*count), inner),
            E::RepMin(inner, least) => (Sign::RepMin(*least), inner),
            E::RepMax(inner, greatest) => (Sign::RepMax(*greatest), inner),
            E::RepMinMax(inner, least, greatest) => (Sign::RepMinMax(*least, *greatest), inner),
            E::Push(inner) => (Sign::Push, inner),
            E::NodeTag(inner, tag) => (Sign::NodeTag(tag.clone()?), inner),
            E::Seq(left, right) => {
                return Ok(Step::Inside(CopyContext::First(Joint::Sequence, &**right), &**left));
            }
            E::Choice(left, right) => {
                return Ok(Step::Inside(CopyContext::First(Joint::Choice, &**right), &**left));
            }
        };
        Ok(Step::Inside(CopyContext::Sign(sign), &**operand))
    }

    fn close(
        self,
        alloc: Global,
        operand: Expr,
    ) -> Result<Step<&'n ParserNode<'i>, CopyContext<'n, 'i>, Expr>, AllocError> {
        let operand = Deep { value: operand }.into_box(alloc)?;
        match self {
            CopyContext::Sign(sign) => Ok(Step::Made(Expr::enclose(sign, operand.into_inner()))),
            CopyContext::First(joint, right) => {
                Ok(Step::Inside(CopyContext::Second(joint, operand), right))
            }
            CopyContext::Second(joint, left) => {
                let whole = Expr::join(joint, left.into_inner(), operand.into_inner());
                Ok(Step::Made(whole))
            }
        }
    }
}
