//! Equality of nodes, expressions and rules: by structure and span, and exactly that.
ghost use Rattle.std.specs.Prelude.{◌≡◌, ◌↔◌, ◌<◌, IsTrue};
ghost use Rattle.std.specs.Cmp.{on_equiv, partial_equiv_from_equiv};
ghost use Rattle.base_ast.specs.Sameness.{heaviness_left, is_same};
ghost use Rattle.base_ast.specs.Weight.{weight};
ghost use Rattle.front_spanned.specs.Erasure.{without_spans};
ghost use Rattle.front_spanned.specs.NodeEquality.{rule_eq, rule_eq_equiv, span_eq, spanned_eq, spanned_eq_equiv};
ghost use Rattle.front_spanned.specs.Nodes.{piece_of, rule_view, unplaced, view, IsSameExpression};

use crate::node::{ParserExpr, ParserNode, ParserRule};
use base_ast::sameness::{Both, Comparison, TreeEq, are_same, equal};
use base_ast::texts::same_text;
use base_language::runtime::Span;

impl<'i> PartialEq for ParserRule<'i> {
    ghost eq = { λ a b. rule_eq (rule_view a) (rule_view b) };

    ghost laws = { partial_equiv_from_equiv (on_equiv rule_view rule_eq_equiv) };

    fn eq(&self, other: &ParserRule<'i>) -> bool
        ensures computed { result ≡ rule_eq (rule_view self.now) (rule_view other.now) }
        ensures exact { IsTrue result ↔ (rule_view self.now ≡ rule_view other.now) }
    {
        same_text(&self.name, &other.name)
            && same_span(&self.span, &other.span)
            && self.ty == other.ty
            && self.node == other.node
    }
}

impl<'i> Eq for ParserRule<'i> {
    ghost laws = { on_equiv rule_view rule_eq_equiv };
}

impl<'i> PartialEq for ParserNode<'i> {
    ghost eq = { λ a b. spanned_eq (view a) (view b) };

    ghost laws = { partial_equiv_from_equiv (on_equiv view spanned_eq_equiv) };

    fn eq(&self, other: &ParserNode<'i>) -> bool
        ensures computed { result ≡ spanned_eq (view self.now) (view other.now) }
        ensures exact { IsTrue result ↔ (view self.now ≡ view other.now) }
    {
        equal(self, other)
    }
}

impl<'i> Eq for ParserNode<'i> {
    ghost laws = { on_equiv view spanned_eq_equiv };
}

impl<'i> PartialEq for ParserExpr<'i> {
    ghost eq = { λ a b. spanned_eq (unplaced a) (unplaced b) };

    ghost laws = { partial_equiv_from_equiv (on_equiv unplaced spanned_eq_equiv) };

    fn eq(&self, other: &ParserExpr<'i>) -> bool
        ensures computed { result ≡ spanned_eq (unplaced self.now) (unplaced other.now) }
        ensures exact { IsTrue result ↔ IsSameExpression self.now other.now }
    {
        are_same(&compare_exprs(self, other))
    }
}

impl<'i> Eq for ParserExpr<'i> {
    ghost laws = { on_equiv unplaced spanned_eq_equiv };
}

/// Whether two spans are of the same text, with the same start and end.
fn same_span(a: &Span<'_>, b: &Span<'_>) -> bool
    ensures { result ≡ span_eq (piece_of a.now) (piece_of b.now) }
{
    a == b
}

impl<'i> TreeEq for ParserNode<'i> {
    ghost is_equal = { λ a b. spanned_eq (view a) (view b) };

    fn compare_roots<'a>(&'a self, other: &'a ParserNode<'i>) -> Comparison<'a, ParserNode<'i>> {
        if !same_span(&self.span, &other.span) {
            return Comparison::Nothing(false);
        }
        compare_exprs(&self.expr, &other.expr)
    }
}

/// Compares two expressions except their operands, and returns the comparisons that remain.
fn compare_exprs<'n, 'i>(
    a: &'n ParserExpr<'i>,
    b: &'n ParserExpr<'i>,
) -> Comparison<'n, ParserNode<'i>>
    ensures same { is_same (λ x y. spanned_eq (view x) (view y)) result
        ≡ spanned_eq (unplaced a.entry.now) (unplaced b.entry.now) }
    ensures work { heaviness_left (λ node. weight (without_spans (view node))) result
        < weight (without_spans (unplaced a.entry.now)) }
{
    use ParserExpr as E;
    match (a, b) {
        (E::Str(s), E::Str(t))
        | (E::Insens(s), E::Insens(t))
        | (E::Ident(s), E::Ident(t))
        | (E::PushLiteral(s), E::PushLiteral(t)) => Comparison::Nothing(same_text(s, t)),
        (E::Range(s, u), E::Range(t, v)) => Comparison::Nothing(same_text(s, t) && same_text(u, v)),
        (E::PeekSlice(i, j), E::PeekSlice(k, l)) => Comparison::Nothing(i == k && j == l),
        (E::PosPred(first), E::PosPred(second))
        | (E::NegPred(first), E::NegPred(second))
        | (E::Opt(first), E::Opt(second))
        | (E::Rep(first), E::Rep(second))
        | (E::RepOnce(first), E::RepOnce(second))
        | (E::Push(first), E::Push(second)) => Comparison::One(Both { first, second }, true),
        (E::NodeTag(first, s), E::NodeTag(second, t)) => {
            Comparison::One(Both { first, second }, same_text(s, t))
        }
        (E::Seq(first, x), E::Seq(second, y)) | (E::Choice(first, x), E::Choice(second, y)) => {
            let right = Both {
                first: x,
                second: y,
            };
            Comparison::Two(Both { first, second }, right)
        }
        (E::RepExact(first, m), E::RepExact(second, n))
        | (E::RepMin(first, m), E::RepMin(second, n))
        | (E::RepMax(first, m), E::RepMax(second, n)) => Comparison::One(
            Both { first, second },
            m == n,
        ),
        (E::RepMinMax(first, k, m), E::RepMinMax(second, l, n)) => {
            Comparison::One(Both { first, second }, k == l && m == n)
        }
        _ => Comparison::Nothing(false),
    }
}
