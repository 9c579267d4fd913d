//! The conversion of rules to optimized rules.
ghost use Rattle.std.specs.Prelude.{◌≡◌, ◌*◌, [], IfOk};
ghost use Rattle.base_language.specs.Language.Expression.{Expression};
ghost use Rattle.base_ast.specs.Ast.{expression_of, rule_of_code};
ghost use Rattle.base_ast.specs.ExprWalks.{unary_of};
ghost use Rattle.base_ast.specs.Frames.{around as under};
ghost use Rattle.base_ast.specs.Operands.{operands};
ghost use Rattle.base_ast.specs.Optimized.{optimized_expression_of, optimized_rule_of};
ghost use Rattle.base_ast.specs.OptimizedSigns.{under_sign};
ghost use Rattle.base_ast.specs.Weight.{weight};
ghost use Rattle.front_optimizer.specs.Converting.{IsUncounted, WaitsUnrolled, waits_of, with_operand};
ghost use Rattle.front_optimizer.specs.Unrolled.{IsUnrolled};

use crate::{OptimizedExpr, OptimizedRule};
use base_ast::ast::{Expr, Rule, Sign};
use base_ast::deep::Deep;
use base_ast::optimized::{PlainSign, Sign as OptimizedSign};
use base_ast::rebuilt::{Rebuild, Step, rebuild_tree};
use base_ast::shape::{Joint, Shape, Shaped};
use std::alloc::{AllocError, Global};

/// Converts a rule to an optimized one. The only fault is an allocation failure.
pub(crate) fn rule_to_optimized_rule(alloc: Global, rule: Rule) -> Result<OptimizedRule, AllocError>
    requires { IsUnrolled (expression_of rule.expr) }
    ensures { IfOk result (λ r. optimized_rule_of r ≡ rule_of_code rule) }
{
    let Rule { name, ty, expr } = rule;
    let expr = rebuild_tree::<ConversionFrame>(alloc, expr, &mut Vec::new(alloc))?;
    Ok(OptimizedRule { name, ty, expr })
}

/// A continuation frame of the conversion.
#[derive(Drop)]
enum ConversionFrame {
    Sign(OptimizedSign),
    /// The operand is the left one, and this the right one.
    First(Joint, Deep<Box<Expr>>),
    /// The operand is the right one, and this the converted left one.
    Second(Joint, Deep<Box<OptimizedExpr>>),
}

impl Rebuild for ConversionFrame {
    type Source = Expr;

    type Target = OptimizedExpr;

    ghost Meaning = { Expression };

    ghost says = { λ expr. expression_of expr };

    ghost made = { λ expr. optimized_expression_of expr };

    ghost fills = { λ around operand. with_operand around operand };

    ghost is_right = { λ expr. IsUnrolled (expression_of expr) };

    ghost is_ready = { λ around. WaitsUnrolled around };

    ghost size = { λ expr. 4 * weight (expression_of expr) };

    ghost waits = { λ around. waits_of around };

    #[tactic(auto, using(crate::proofs::Converting::uncounted))]
    fn open(expr: Expr) -> Result<Step<Expr, ConversionFrame, OptimizedExpr>, AllocError> {
        match expr.open() {
            Shape::Leaf(leaf) => Ok(Step::Made(convert_leaf(leaf))),
            Shape::One(sign, operand) => {
                let around = ConversionFrame::Sign(convert_operator(sign));
                Ok(Step::Inside(around, Box::into_inner(operand)))
            }
            Shape::Two(joint, left, right) => {
                let around = ConversionFrame::First(joint, Deep { value: right });
                Ok(Step::Inside(around, Box::into_inner(left)))
            }
        }
    }

    fn close(
        self,
        alloc: Global,
        operand: OptimizedExpr,
    ) -> Result<Step<Expr, ConversionFrame, OptimizedExpr>, AllocError> {
        let operand = Deep { value: operand }.into_box(alloc)?;
        match self {
            ConversionFrame::Sign(sign) => {
                let whole = OptimizedExpr::enclose(sign, operand.into_inner());
                Ok(Step::Made(whole))
            }
            ConversionFrame::First(joint, right) => {
                let around = ConversionFrame::Second(joint, operand);
                Ok(Step::Inside(around, Box::into_inner(right.into_inner())))
            }
            ConversionFrame::Second(joint, left) => {
                let whole = OptimizedExpr::join(joint, left.into_inner(), operand.into_inner());
                Ok(Step::Made(whole))
            }
        }
    }
}

/// Converts the operator round an operand.
fn convert_operator(sign: Sign) -> OptimizedSign
    requires { IsUncounted sign }
    ensures { (operand : Expression) → under_sign result operand ≡ under (unary_of sign) operand }
{
    let sign = match sign {
        Sign::PosPred => PlainSign::PosPred,
        Sign::NegPred => PlainSign::NegPred,
        Sign::Opt => PlainSign::Opt,
        Sign::Rep => PlainSign::Rep,
        Sign::RepOnce => PlainSign::RepOnce,
        Sign::Push => PlainSign::Push,
        Sign::NodeTag(tag) => PlainSign::NodeTag(tag),
        Sign::RepExact(_) | Sign::RepMin(_) | Sign::RepMax(_) | Sign::RepMinMax(_, _) =>
            unreachable!("a repetition that is not unrolled"),
    };
    OptimizedSign::Plain(sign)
}

/// Converts an expression without operands.
fn convert_leaf(leaf: Expr) -> OptimizedExpr
    requires { operands (expression_of leaf) ≡ [] }
    ensures { optimized_expression_of result ≡ expression_of leaf }
{
    use OptimizedExpr as E;
    match leaf {
        Expr::Str(text) => E::Str(text),
        Expr::Insens(text) => E::Insens(text),
        Expr::Range(first, last) => E::Range(first, last),
        Expr::Ident(name) => E::Ident(name),
        Expr::PeekSlice(start, end) => E::PeekSlice(start, end),
        Expr::Skip(texts) => E::Skip(texts),
        Expr::PushLiteral(text) => E::PushLiteral(text),
        _ => unreachable!("an expression with operands"),
    }
}
