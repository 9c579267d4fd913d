//! Iterative recursive descent: reads spanned expressions from token trees, with a list of levels as its
//! stack.
ghost use Rattle.std.specs.Prelude.{◌≡◌, ◌≢◌, ◌<◌, ◌+◌, ℕ, List, [], IfOk, OnOk, IfSome, MatchOption, MatchResult};
ghost use Rattle.base_language.specs.Language.State.{Trees, None'};
ghost use Rattle.front_nodes.specs.Nodes.{named_trees_of};
ghost use Rattle.base_language.specs.Pieces.Span.{span_start, span_end};
ghost use Rattle.front_reader.specs.Flaws.{first_flaw};
ghost use Rattle.front_reader.specs.Pieces.{IsPiece, AreInText};
ghost use Rattle.front_reader.specs.Reading.{ATerm, AnExpression, both};
ghost use Rattle.front_reader.specs.Levels.{GoesOn, HoldsNoExpression, IsAlternative, IsAlternativeRead, IsOperandRead, IsInsideRead, IsLevelRead, IsTermBeside, IsTermRead, Opens, node_view, together, waits_of, work_of};
ghost use Rattle.front_reader.specs.Signs.{IsOperand};
ghost use Rattle.front_grammar.specs.Shape.{IsExpression, IsMore};
ghost use Rattle.front_spanned.specs.Spanned.{Span, Two};
ghost use Rattle.front_reader.specs.Views.{IsFirst, TakesTerm, IsAfterBar, IsRest, ReadsAs, all_from, binary_of, count_of};
ghost use Rattle.front_spanned.specs.Nodes.{view, view_at};

use crate::rules::flaws::ReadError;
use crate::rules::levels::{Enclosure, Level, Next, TermContext};
use crate::rules::operators::apply_postfixes;
use crate::rules::pieces::span_at;
use crate::rules::signs::{Sign, take_signs, with_signs};
use crate::rules::terminals::terminal;
use base_ast::deep::Deep;
use base_language::grammar::Rule;
use front_nodes::nodes::{FirstTree, TokenNode};
use front_spanned::{ParserExpr, ParserNode};
use front_syntax::trees::{first_tree, leading_tree};
use std::alloc::{AllocError, Global};

/// The operators between two nodes.
#[derive(Clone, Copy)]
pub enum Infix {
    /// `~`
    Sequence,
    /// `|`
    Choice,
}

/// Makes an expression of two nodes and the operator between them.
fn operation<'i>(
    operator: Infix,
    left: Box<ParserNode<'i>>,
    right: Box<ParserNode<'i>>,
) -> ParserExpr<'i>
    ensures { (place : Span) → view_at place result
        ≡ Two place (binary_of operator) (view left.entry.value) (view right.entry.value) }
{
    match operator {
        Infix::Sequence => ParserExpr::Seq(left, right),
        Infix::Choice => ParserExpr::Choice(left, right),
    }
}

/// Combines two nodes by an operator, from the start of the left to the end of the right.
fn combine<'i>(
    alloc: Global,
    text: &'i str,
    operator: Infix,
    left: Deep<ParserNode<'i>>,
    right: Deep<ParserNode<'i>>,
) -> Result<Deep<ParserNode<'i>>, AllocError>
    requires { IsPiece text.now (span_start left.value.span) (span_end right.value.span) }
    ensures { IfOk result (λ n. view n.value
        ≡ both text.entry.now (binary_of operator) (view left.entry.value) (view right.entry.value)) }
{
    let span = span_at(text, left.value.span.start(), right.value.span.end());
    let left = left.into_box(alloc)?;
    let right = right.into_box(alloc)?;
    let expr = operation(operator, left.into_inner(), right.into_inner());
    let value = ParserNode { expr, span };
    Ok(Deep { value })
}

/// Skips a bar before the first alternative of an expression.
fn skip_bar(trees: &[TokenNode]) -> &[TokenNode]
    ensures { (text : List ℕ) → IsExpression text (named_trees_of trees.entry.now)
        → IsAfterBar text (named_trees_of trees.entry.now) (named_trees_of result.now) }
{
    let Some(tree) = first_tree(trees) else {
        return trees;
    };
    match tree.rule {
        Rule::choice_operator => tree.others,
        _ => trees,
    }
}

/// Returns the trees in the next term of a sequence and the trees after it, if a tilde comes before
/// it.
fn next_term(trees: &[TokenNode]) -> Option<(&[TokenNode], &[TokenNode])>
    ensures { (text : List ℕ) → IsMore text (named_trees_of trees.entry.now)
        → MatchOption result (IsRest text (named_trees_of trees.entry.now))
        (λ x. TakesTerm text (named_trees_of trees.entry.now)
        (named_trees_of x.0.now) (named_trees_of x.1.now)) }
{
    let Some(tilde) = first_tree(trees) else {
        return None;
    };
    let Rule::sequence_operator = tilde.rule else {
        return None;
    };
    let Some(term) = first_tree(tilde.others) else {
        return None;
    };
    Some((term.inner, term.others))
}

/// Combines a node with the one before it by an operator; answers the node itself if none is before
/// it.
fn together<'i>(
    alloc: Global,
    text: &'i str,
    operator: Infix,
    before: Option<Deep<ParserNode<'i>>>,
    node: Deep<ParserNode<'i>>,
) -> Result<Deep<ParserNode<'i>>, AllocError>
    requires { IfSome before
        (λ left. IsPiece text.now (span_start left.value.span) (span_end node.value.span)) }
    ensures { IfOk result (λ n. view n.value
        ≡ together text.entry.now (binary_of operator) (node_view before.entry) (view node.entry.value)) }
{
    match before {
        Some(left) => combine(alloc, text, operator, left, node),
        None => Ok(node),
    }
}

/// Begins an alternative with its first term. `choice` is the node of the alternatives before it.
fn first_term<'i, 't>(choice: Option<Deep<ParserNode<'i>>>, trees: &'t [TokenNode]) -> Next<'i, 't>
    requires { named_trees_of trees.now ≢ None' }
    ensures goes_on { (text : List ℕ) → (us : Trees)
        → IsAlternative text us (node_view choice.entry) (named_trees_of trees.entry.now)
        → GoesOn text us result }
    ensures work { work_of result < count_of (named_trees_of trees.entry.now) }
{
    let term = leading_tree(trees);
    let beside = TermContext {
        choice,
        sequence: None,
        rest: term.others,
    };
    Next::Term(beside, term.inner)
}

/// Goes on after an alternative, with the trees `rest` after it.
fn finish_alternative<'i, 't>(
    alloc: Global,
    text: &'i str,
    choice: Option<Deep<ParserNode<'i>>>,
    sequence: Deep<ParserNode<'i>>,
    rest: &'t [TokenNode],
) -> Result<Next<'i, 't>, AllocError>
    requires { (us : Trees) × IsAlternativeRead text.now us choice sequence (named_trees_of rest.now) }
    ensures goes_on { (us : Trees)
        → IsAlternativeRead text.entry.now us choice.entry sequence.entry (named_trees_of rest.entry.now)
        → IfOk result (GoesOn text.entry.now us) }
    ensures work { IfOk result (λ next. work_of next < count_of (named_trees_of rest.entry.now)) }
{
    let choice = together(alloc, text, Infix::Choice, choice, sequence)?;
    match first_tree(rest) {
        Some(bar) => Ok(first_term(Some(choice), bar.others)),
        None => Ok(Next::Done(choice.into_inner())),
    }
}

/// Goes on after a term.
fn finish_term<'i, 't>(
    alloc: Global,
    text: &'i str,
    beside: TermContext<'i, 't>,
    node: ParserNode<'i>,
) -> Result<Next<'i, 't>, AllocError>
    requires { (us : Trees) × IsTermRead text.now us beside node }
    ensures goes_on { (us : Trees) → IsTermRead text.entry.now us beside.entry node.entry
        → IfOk result (GoesOn text.entry.now us) }
    ensures work { IfOk result (λ next. work_of next < waits_of beside.entry) }
{
    let TermContext {
        choice,
        sequence,
        rest,
    } = beside;
    let sequence = together(alloc, text, Infix::Sequence, sequence, Deep { value: node })?;
    match next_term(rest) {
        Some((inner, after)) => {
            let beside = TermContext {
                choice,
                sequence: Some(sequence),
                rest: after,
            };
            Ok(Next::Term(beside, inner))
        }
        None => finish_alternative(alloc, text, choice, sequence, rest),
    }
}

/// Goes on after a term's operand.
fn finish_operand<'i, 't>(
    alloc: Global,
    text: &'i str,
    beside: TermContext<'i, 't>,
    signs: Vec<Sign<'i>>,
    operand: ParserNode<'i>,
) -> Result<Next<'i, 't>, AllocError>
    requires { (us : Trees) × IsOperandRead text.now us beside signs.items operand }
    ensures goes_on { (us : Trees)
        → IsOperandRead text.entry.now us beside.entry signs.entry.items operand.entry
        → IfOk result (GoesOn text.entry.now us) }
    ensures work { IfOk result (λ next. work_of next < waits_of beside.entry) }
{
    let node = with_signs(alloc, operand, signs)?;
    finish_term(alloc, text, beside, node)
}

/// Destructures an operand that begins with a tree into its wrapper round an expression, the trees in the
/// expression and the postfix operators after the operand; answers none if it holds no expression.
fn inner_of<'t>(tree: FirstTree<'t>) -> Option<(Enclosure, &'t [TokenNode], &'t [TokenNode])>
    requires { (text : List ℕ) × IsOperand text (all_from tree) }
    ensures { (text : List ℕ) → IsOperand text (all_from tree.entry)
        → MatchOption result (HoldsNoExpression text tree.entry)
        (λ x. Opens text (all_from tree.entry) x.0 (named_trees_of x.1.now) (named_trees_of x.2.now)) }
{
    match tree.rule {
        Rule::opening_paren => {
            let body = leading_tree(tree.others);
            let close = leading_tree(body.others);
            let within = Enclosure::Parentheses {
                start: tree.start,
                end: close.end,
            };
            Some((within, body.inner, close.others))
        }
        Rule::_push => {
            let paren = leading_tree(tree.inner);
            let body = leading_tree(paren.others);
            let within = Enclosure::Push { start: tree.start };
            Some((within, body.inner, tree.others))
        }
        _ => None,
    }
}

/// Reads an operand that holds no expression from its trees, and reports its first flaw.
fn operand<'i>(
    alloc: Global,
    text: &'i str,
    tree: FirstTree<'_>,
) -> Result<ParserNode<'i>, ReadError<'i>>
    requires shape { HoldsNoExpression text.now tree }
    requires nested { AreInText text.now (all_from tree) }
    ensures { ReadsAs text.entry.now ATerm (all_from tree.entry) result }
{
    let node = terminal(alloc, text, tree)?;
    apply_postfixes(alloc, text, node, tree.others)
}

/// Reads the signs of a term from the trees in it, and its operand if that holds no expression.
/// Reports the operand's first flaw.
fn term<'i, 't>(
    alloc: Global,
    text: &'i str,
    beside: TermContext<'i, 't>,
    trees: &'t [TokenNode],
) -> Result<Next<'i, 't>, ReadError<'i>>
    requires { (us : Trees) × IsTermBeside text.now us beside (named_trees_of trees.now) }
    ensures goes_on { (us : Trees)
        → IsTermBeside text.entry.now us beside.entry (named_trees_of trees.entry.now)
        → MatchResult result (GoesOn text.entry.now us) (IsFirst (first_flaw text.entry.now us)) }
    ensures work { IfOk result (λ next. work_of next
        < waits_of beside.entry + count_of (named_trees_of trees.entry.now)) }
{
    let (signs, rest) = take_signs(alloc, text, trees)?;
    let tree = leading_tree(rest);
    match inner_of(tree) {
        Some((within, inner, postfixes)) => {
            let level = Level {
                beside,
                signs,
                within,
                postfixes,
            };
            Ok(Next::Inner(level, inner))
        }
        None => {
            let node = operand(alloc, text, tree)?;
            Ok(finish_operand(alloc, text, beside, signs, node)?)
        }
    }
}

/// Closes an expression in parentheses, applies the postfix operators after it, and reports their first
/// flaw. The outermost node begins with the first parenthesis, and the expression ends with the second.
fn close_parentheses<'i>(
    alloc: Global,
    text: &'i str,
    start: usize,
    end: usize,
    inside: ParserNode<'i>,
    postfixes: &[TokenNode],
) -> Result<ParserNode<'i>, ReadError<'i>>
    requires { (us : Trees)
        × IsInsideRead text.now us (Enclosure.Parentheses start end) inside (named_trees_of postfixes.now) }
    ensures { (us : Trees)
        → IsInsideRead text.entry.now us (Enclosure.Parentheses start end) inside.entry
        (named_trees_of postfixes.now)
        → ReadsAs text.entry.now ATerm us result }
{
    let mut inside = inside;
    inside.span = span_at(text, inside.span.start(), end);
    let mut node = apply_postfixes(alloc, text, inside, postfixes)?;
    node.span = span_at(text, start, node.span.end());
    Ok(node)
}

/// Makes the `PUSH` of an expression, applies the postfix operators after it, and reports their first
/// flaw. `PUSH` ends where the expression does.
fn close_push<'i>(
    alloc: Global,
    text: &'i str,
    start: usize,
    inside: ParserNode<'i>,
    postfixes: &[TokenNode],
) -> Result<ParserNode<'i>, ReadError<'i>>
    requires { (us : Trees)
        × IsInsideRead text.now us (Enclosure.Push start) inside (named_trees_of postfixes.now) }
    ensures { (us : Trees)
        → IsInsideRead text.entry.now us (Enclosure.Push start) inside.entry (named_trees_of postfixes.now)
        → ReadsAs text.entry.now ATerm us result }
{
    let span = span_at(text, start, inside.span.end());
    let inside = Deep { value: inside }.into_box(alloc)?;
    let node = ParserNode {
        expr: ParserExpr::Push(inside.into_inner()),
        span,
    };
    apply_postfixes(alloc, text, node, postfixes)
}

/// Closes an operand whose inner expression is read, and reports the first flaw of its postfix operators.
fn close_operand<'i>(
    alloc: Global,
    text: &'i str,
    within: Enclosure,
    inside: ParserNode<'i>,
    postfixes: &[TokenNode],
) -> Result<ParserNode<'i>, ReadError<'i>>
    requires { (us : Trees) × IsInsideRead text.now us within inside (named_trees_of postfixes.now) }
    ensures { (us : Trees)
        → IsInsideRead text.entry.now us within inside.entry (named_trees_of postfixes.now)
        → ReadsAs text.entry.now ATerm us result }
{
    match within {
        Enclosure::Parentheses { start, end } => {
            close_parentheses(alloc, text, start, end, inside, postfixes)
        }
        Enclosure::Push { start } => close_push(alloc, text, start, inside, postfixes),
    }
}

/// Goes on after the expression in a term, and reports the first flaw of the postfix operators.
fn finish_level<'i, 't>(
    alloc: Global,
    text: &'i str,
    level: Level<'i, 't>,
    inside: ParserNode<'i>,
) -> Result<Next<'i, 't>, ReadError<'i>>
    requires { (us : Trees) × IsLevelRead text.now us level inside }
    ensures goes_on { (us : Trees) → IsLevelRead text.entry.now us level.entry inside.entry
        → MatchResult result (GoesOn text.entry.now us) (IsFirst (first_flaw text.entry.now us)) }
    ensures work { IfOk result (λ next. work_of next < waits_of level.entry.beside) }
{
    let Level {
        beside,
        signs,
        within,
        postfixes,
    } = level;
    let node = close_operand(alloc, text, within, inside, postfixes)?;
    Ok(finish_operand(alloc, text, beside, signs, node)?)
}

/// Reads an expression from the trees in it, and reports its first flaw. Nesting takes memory in the list
/// `levels`, which is lent and serves many expressions, and no stack space.
pub fn expression<'i, 't>(
    alloc: Global,
    text: &'i str,
    trees: &'t [TokenNode],
    levels: &mut Vec<Level<'i, 't>>,
) -> Result<ParserNode<'i>, ReadError<'i>>
    requires shape { IsExpression text.now (named_trees_of trees.now) }
    requires nested { AreInText text.now (named_trees_of trees.now) }
    requires empty { levels.old.items ≡ [] }
    ensures reads { ReadsAs text.entry.now AnExpression (named_trees_of trees.entry.now) result }
    ensures empty { OnOk result (levels.new.items ≡ []) }
{
    let mut next = first_term(None, skip_bar(trees));
    'terms: loop {
        match next {
            Next::Term(beside, trees) => next = term(alloc, text, beside, trees)?,
            Next::Inner(level, trees) => {
                levels.push(level)?;
                next = first_term(None, skip_bar(trees));
            }
            Next::Done(node) => match levels.pop() {
                Some(level) => next = finish_level(alloc, text, level, node)?,
                None => return Ok(node),
            },
        }
    }
}
