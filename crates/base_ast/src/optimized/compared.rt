//! Equality of optimized rules and expressions: by structure, and exactly that.
ghost use Rattle.std.specs.Prelude.{◌≡◌, ◌↔◌, IsTrue};
ghost use Rattle.std.specs.Cmp.{on_equiv, partial_equiv_from_equiv};
ghost use Rattle.base_language.specs.Rewritings.Equality.{expression_eq, rule_eq, expression_eq_equiv, rule_eq_equiv};
ghost use Rattle.base_ast.specs.Optimized.{optimized_expression_of, optimized_rule_of};

use super::{OptimizedExpr, OptimizedRule};
use crate::sameness::{Both, Comparison, TreeEq, equal};
use crate::texts::{same_text, same_texts};

impl PartialEq for OptimizedRule {
    ghost eq = { λ a b. rule_eq (optimized_rule_of a) (optimized_rule_of b) };

    ghost laws = { partial_equiv_from_equiv (on_equiv optimized_rule_of rule_eq_equiv) };

    fn eq(&self, other: &OptimizedRule) -> bool
        ensures computed { result ≡ rule_eq (optimized_rule_of self.now) (optimized_rule_of other.now) }
        ensures exact { IsTrue result ↔ (optimized_rule_of self.now ≡ optimized_rule_of other.now) }
    {
        same_text(&self.name, &other.name) && self.ty == other.ty && self.expr == other.expr
    }
}

impl Eq for OptimizedRule {
    ghost laws = { on_equiv optimized_rule_of rule_eq_equiv };
}

impl PartialEq for OptimizedExpr {
    ghost eq = { λ a b. expression_eq (optimized_expression_of a) (optimized_expression_of b) };

    ghost laws = { partial_equiv_from_equiv (on_equiv optimized_expression_of expression_eq_equiv) };

    fn eq(&self, other: &OptimizedExpr) -> bool
        ensures computed { result
            ≡ expression_eq (optimized_expression_of self.now) (optimized_expression_of other.now) }
        ensures exact { IsTrue result
            ↔ (optimized_expression_of self.now ≡ optimized_expression_of other.now) }
    {
        equal(self, other)
    }
}

impl Eq for OptimizedExpr {
    ghost laws = { on_equiv optimized_expression_of expression_eq_equiv };
}

impl TreeEq for OptimizedExpr {
    ghost is_equal = { λ a b. expression_eq (optimized_expression_of a) (optimized_expression_of b) };

    #[tactic(auto, using(crate::proofs::Weights::some_weight))]
    fn compare_roots<'a>(&'a self, other: &'a OptimizedExpr) -> Comparison<'a, OptimizedExpr> {
        use OptimizedExpr as E;
        match (self, other) {
            (E::Str(s), E::Str(t))
            | (E::Insens(s), E::Insens(t))
            | (E::Ident(s), E::Ident(t))
            | (E::PushLiteral(s), E::PushLiteral(t)) => Comparison::Nothing(same_text(s, t)),
            (E::Range(s, u), E::Range(t, v)) => Comparison::Nothing(
                same_text(s, t) && same_text(u, v),
            ),
            (E::PeekSlice(i, j), E::PeekSlice(k, l)) => Comparison::Nothing(i == k && j == l),
            (E::PosPred(first), E::PosPred(second))
            | (E::NegPred(first), E::NegPred(second))
            | (E::Opt(first), E::Opt(second))
            | (E::Rep(first), E::Rep(second))
            | (E::RepOnce(first), E::RepOnce(second))
            | (E::RestoreOnErr(first), E::RestoreOnErr(second))
            | (E::Push(first), E::Push(second)) => Comparison::One(Both { first, second }, true),
            (E::NodeTag(first, s), E::NodeTag(second, t)) => {
                Comparison::One(Both { first, second }, same_text(s, t))
            }
            (E::Seq(first, x), E::Seq(second, y)) | (E::Choice(first, x), E::Choice(second, y)) => {
                let right = Both {
                    first: x,
                    second: y,
                };
                Comparison::Two(Both { first, second }, right)
            }
            (E::Skip(ss), E::Skip(ts)) => Comparison::Nothing(same_texts(ss, ts)),
            _ => Comparison::Nothing(false),
        }
    }
}
