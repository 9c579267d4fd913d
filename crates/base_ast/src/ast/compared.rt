//! Equality of rules and expressions: by structure, and exactly that.
ghost use Rattle.std.specs.Prelude.{◌≡◌, ◌↔◌, IsTrue};
ghost use Rattle.std.specs.Cmp.{on_equiv, partial_equiv_from_equiv};
ghost use Rattle.base_ast.specs.Ast.{expression_of, rule_of_code};
ghost use Rattle.base_language.specs.Rewritings.Equality.{expression_eq, rule_eq, expression_eq_equiv, rule_eq_equiv};

use super::{Expr, Rule};
use crate::sameness::{Both, Comparison, TreeEq, equal};
use crate::texts::{same_text, same_texts};

impl PartialEq for Rule {
    ghost eq = { λ a b. rule_eq (rule_of_code a) (rule_of_code b) };

    ghost laws = { partial_equiv_from_equiv (on_equiv rule_of_code rule_eq_equiv) };

    fn eq(&self, other: &Rule) -> bool
        ensures computed { result ≡ rule_eq (rule_of_code self.now) (rule_of_code other.now) }
        ensures exact { IsTrue result ↔ (rule_of_code self.now ≡ rule_of_code other.now) }
    {
        same_text(&self.name, &other.name) && self.ty == other.ty && self.expr == other.expr
    }
}

impl Eq for Rule {
    ghost laws = { on_equiv rule_of_code rule_eq_equiv };
}

impl PartialEq for Expr {
    ghost eq = { λ a b. expression_eq (expression_of a) (expression_of b) };

    ghost laws = { partial_equiv_from_equiv (on_equiv expression_of expression_eq_equiv) };

    fn eq(&self, other: &Expr) -> bool
        ensures computed { result ≡ expression_eq (expression_of self.now) (expression_of other.now) }
        ensures exact { IsTrue result ↔ (expression_of self.now ≡ expression_of other.now) }
    {
        equal(self, other)
    }
}

impl Eq for Expr {
    ghost laws = { on_equiv expression_of expression_eq_equiv };
}

impl TreeEq for Expr {
    ghost is_equal = { λ a b. expression_eq (expression_of a) (expression_of b) };

    #[tactic(auto, using(crate::proofs::Weights::some_weight))]
    fn compare_roots<'a>(&'a self, other: &'a Expr) -> Comparison<'a, Expr> {
        use Expr as E;
        match (self, other) {
            (E::Str(s), E::Str(t))
            | (E::Insens(s), E::Insens(t))
            | (E::Ident(s), E::Ident(t))
            | (E::PushLiteral(s), E::PushLiteral(t)) => Comparison::Nothing(same_text(s, t)),
            (E::Range(s, u), E::Range(t, v)) => Comparison::Nothing(
                same_text(s, t) && same_text(u, v),
            ),
            (E::PeekSlice(i, j), E::PeekSlice(k, l)) => Comparison::Nothing(i == k && j == l),
            (E::PosPred(first), E::PosPred(second))
            | (E::NegPred(first), E::NegPred(second))
            | (E::Opt(first), E::Opt(second))
            | (E::Rep(first), E::Rep(second))
            | (E::RepOnce(first), E::RepOnce(second))
            | (E::Push(first), E::Push(second)) => Comparison::One(Both { first, second }, true),
            (E::NodeTag(first, s), E::NodeTag(second, t)) => {
                Comparison::One(Both { first, second }, same_text(s, t))
            }
            (E::Seq(first, x), E::Seq(second, y)) | (E::Choice(first, x), E::Choice(second, y)) => {
                let right = Both {
                    first: x,
                    second: y,
                };
                Comparison::Two(Both { first, second }, right)
            }
            (E::RepExact(first, m), E::RepExact(second, n))
            | (E::RepMin(first, m), E::RepMin(second, n))
            | (E::RepMax(first, m), E::RepMax(second, n)) => Comparison::One(
                Both { first, second },
                m == n,
            ),
            (E::RepMinMax(first, k, m), E::RepMinMax(second, l, n)) => {
                Comparison::One(Both { first, second }, k == l && m == n)
            }
            (E::Skip(ss), E::Skip(ts)) => Comparison::Nothing(same_texts(ss, ts)),
            _ => Comparison::Nothing(false),
        }
    }
}
