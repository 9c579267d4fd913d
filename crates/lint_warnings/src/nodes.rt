//! The operands of a node.
ghost use Rattle.std.specs.Prelude.{◌≡◌, ◌++◌, ◌∷◌, [], OnOk};
ghost use Rattle.front_spanned.specs.Nodes.{view};
ghost use Rattle.lint_warnings.specs.Lists.{AreOperands};

use front_spanned::{ParserExpr, ParserNode};
use std::alloc::{AllocError, Global};

/// The operands of a node, by the operator between two of them.
#[derive(Clone, Copy)]
pub(crate) enum Operands<'n, 'i> {
    None,
    One(&'n ParserNode<'i>),
    Sequence(&'n ParserNode<'i>, &'n ParserNode<'i>),
    Choice(&'n ParserNode<'i>, &'n ParserNode<'i>),
}

/// The operands of a node.
pub(crate) fn operands_of<'n, 'i>(node: &'n ParserNode<'i>) -> Operands<'n, 'i>
    ensures { AreOperands (view node.entry.now) result }
{
    use ParserExpr as E;
    match &node.expr {
        E::Str(_) | E::Insens(_) | E::Ident(_) => Operands::None,
        E::Range(_, _) | E::PeekSlice(_, _) => Operands::None,
        E::PushLiteral(_) => Operands::None,
        E::NodeTag(inner, _) => Operands::One(inner),
        E::PosPred(inner) | E::NegPred(inner) | E::Opt(inner) => Operands::One(inner),
        E::Rep(inner) | E::RepOnce(inner) | E::Push(inner) => Operands::One(inner),
        E::RepExact(inner, _) | E::RepMin(inner, _) => Operands::One(inner),
        E::RepMax(inner, _) | E::RepMinMax(inner, _, _) => Operands::One(inner),
        E::Seq(left, right) => Operands::Sequence(left, right),
        E::Choice(left, right) => Operands::Choice(left, right),
    }
}

/// Pushes two nodes on a stack, the left one on top.
pub(crate) fn push_both<'n, 'i>(
    left: &'n ParserNode<'i>,
    right: &'n ParserNode<'i>,
    stack: &mut Vec<&'n ParserNode<'i>>,
) -> Result<(), AllocError>
    ensures { OnOk result (stack.new.items ≡ stack.old.items ++ right.entry ∷ [] ++ left.entry ∷ []) }
{
    stack.push(right)?;
    stack.push(left)?;
    Ok(())
}
