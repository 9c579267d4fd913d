//! First sets: the terminals that may begin a rule, through the rules that it calls.
ghost use Rattle.std.specs.Prelude.{◌≡◌, ◌+◌, ◌≤◌, IfOk, OnOk, false, length, slice_index_or};
ghost use Rattle.doc_pages.specs.Nullability.{DecidesNullable};

use base_ast::ast::{Expr, RuleType};
use doc_diagram::leaf_label;
use front_analysis::{Analysis, Joint, Shape, UnaryOperator};
use front_names::{comment_name, whitespace_name};
use front_spanned::ParserExpr;
use lint_warnings::is_blank_name;
use std::alloc::{AllocError, Global};

/// The number of terminals that are shown.
const SHOWN: usize = 12;
/// The number of nodes that are visited for a rule.
const VISITED: usize = 400;

/// The terminals that may begin a rule.
#[derive(Drop)]
pub struct FirstSet {
    /// Terminals and builtins as they are printed, each once.
    pub labels: Vec<String>,
    /// Whether there may be more.
    pub has_more: bool,
}

/// A node or a rule, and whether it is in atomic mode, without implicit whitespace.
#[derive(Clone, Copy, PartialEq, Eq)]
struct Visit {
    number: usize,
    is_atomic: bool,
}

/// A search for the terminals that may begin a rule.
#[derive(Drop)]
struct FirstSearch<'s, 'n, 'i> {
    alloc: Global,
    analysis: &'s Analysis<'n, 'i>,
    /// The rules whose bodies were added to `waiting`.
    called: Vec<Visit>,
    /// The nodes that are still to be visited, the next one last.
    waiting: Vec<Visit>,
    labels: Vec<String>,
}

/// Finds the terminals and builtins that may begin a rule in non-atomic mode, at most twelve, within 400
/// nodes. Implicit whitespace may follow an item that matches nothing, and comes last. The only error is an
/// allocation failure.
pub fn find_first_set(
    alloc: Global,
    analysis: &Analysis<'_, '_>,
    rule: usize,
) -> Result<FirstSet, AllocError>
    ensures { IfOk result (λ first_set. length first_set.labels.items ≤ SHOWN) }
{
    let mut search = FirstSearch {
        alloc,
        analysis,
        called: Vec::new(alloc),
        waiting: Vec::new(alloc),
        labels: Vec::new(alloc),
    };
    search.enter_rule(Visit {
        number: rule,
        is_atomic: false,
    })?;
    let has_more = search.run()?;
    let FirstSearch { labels, .. } = search;
    Ok(FirstSet { labels, has_more })
}

/// Whether a rule may match the empty text.
pub fn is_nullable(analysis: &Analysis<'_, '_>, rule: usize) -> bool
    ensures { DecidesNullable analysis.now rule result }
{
    match analysis.grammar.table.roots.get(rule) {
        Some(root) => is_node_nullable(analysis, *root),
        None => false,
    }
}

/// Whether a node may match the empty text.
fn is_node_nullable(analysis: &Analysis<'_, '_>, node: usize) -> bool
    ensures { result ≡ slice_index_or analysis.now.facts.nullable.items node false }
{
    analysis.facts.nullable.get(node).copied().unwrap_or(false)
}

/// Whether an operator may match its operand twice in a row.
fn may_repeat(operator: UnaryOperator) -> bool {
    match operator {
        UnaryOperator::Rep
        | UnaryOperator::RepOnce
        | UnaryOperator::RepExact(_)
        | UnaryOperator::RepMin(_)
        | UnaryOperator::RepMax(_)
        | UnaryOperator::RepMinMax(_, _) => true,
        UnaryOperator::PosPred
        | UnaryOperator::NegPred
        | UnaryOperator::Opt
        | UnaryOperator::Push
        | UnaryOperator::NodeTag => false,
    }
}

impl FirstSearch<'_, '_, '_> {
    /// Visits the nodes that wait, until there are enough labels or visits. Returns whether more may come.
    fn run(&mut self) -> Result<bool, AllocError>
        ensures { OnOk result (length self.old.labels.items ≤ SHOWN → length self.new.labels.items ≤ SHOWN) }
    {
        for _visit in 0..VISITED {
            let Some(node) = self.waiting.pop() else {
                return Ok(false);
            };
            if self.labels.len() >= SHOWN {
                return Ok(true);
            }
            self.visit(node)?;
        }
        Ok(true)
    }

    /// Adds the body of a rule to the nodes that are still to be visited, unless it was added before.
    fn enter_rule(&mut self, call: Visit) -> Result<(), AllocError>
        ensures { OnOk result (self.new.labels ≡ self.old.labels) }
    {
        let call = Visit {
            is_atomic: self.is_body_atomic(call),
            ..call
        };
        if self.called.contains(&call) {
            return Ok(());
        }
        self.called.push(call)?;
        match self.analysis.grammar.table.roots.get(call.number) {
            Some(root) => self.add_node(*root, call),
            None => Ok(()),
        }
    }

    /// Whether the body of a rule that is called is in atomic mode.
    fn is_body_atomic(&self, call: Visit) -> bool {
        let analysis = self.analysis;
        let Some(rule) = analysis.grammar.rules.get(call.number) else {
            return call.is_atomic;
        };
        match rule.ty {
            RuleType::Atomic | RuleType::CompoundAtomic => true,
            _ if is_blank_name(rule.name.as_str()) => true,
            RuleType::NonAtomic => false,
            RuleType::Normal | RuleType::Silent => call.is_atomic,
        }
    }

    /// Adds the body of the rule named `name`, if there is one.
    fn enter_name(&mut self, name: &str, is_atomic: bool) -> Result<(), AllocError>
        ensures { OnOk result (self.new.labels ≡ self.old.labels) }
    {
        match self.analysis.grammar.names.place_of(name) {
            Some(number) => self.enter_rule(Visit { number, is_atomic }),
            None => Ok(()),
        }
    }

    /// Visits a node: adds its label, or the nodes inside it that may begin it.
    fn visit(&mut self, visit: Visit) -> Result<(), AllocError>
        ensures { OnOk result (length self.new.labels.items ≤ length self.old.labels.items + 1) }
    {
        let Some(node) = self.analysis.grammar.table.nodes.get(visit.number) else {
            return Ok(());
        };
        match node.shape {
            Shape::Leaf => self.visit_leaf(node.expr, visit.is_atomic),
            Shape::One(UnaryOperator::NegPred, _) => Ok(()),
            Shape::One(operator, inner) => {
                self.add_next_turn(operator, inner, visit)?;
                self.add_node(inner, visit)
            }
            Shape::Two(Joint::Sequence, first, second) => {
                self.add_second(first, second, visit)?;
                self.add_node(first, visit)
            }
            Shape::Two(Joint::Choice, first, second) => {
                self.add_node(second, visit)?;
                self.add_node(first, visit)
            }
        }
    }

    /// Adds what may be skipped before the next turn of a repetition, if a turn may match nothing.
    fn add_next_turn(
        &mut self,
        operator: UnaryOperator,
        inner: usize,
        outer: Visit,
    ) -> Result<(), AllocError>
        ensures { OnOk result (self.new.labels ≡ self.old.labels) }
    {
        if may_repeat(operator) && is_node_nullable(self.analysis, inner) {
            self.add_implicit(outer.is_atomic)
        } else {
            Ok(())
        }
    }

    /// Adds the second operand of a sequence, and what may be skipped before it, if the first may match
    /// nothing.
    fn add_second(&mut self, first: usize, second: usize, outer: Visit) -> Result<(), AllocError>
        ensures { OnOk result (self.new.labels ≡ self.old.labels) }
    {
        if !is_node_nullable(self.analysis, first) {
            return Ok(());
        }
        self.add_implicit(outer.is_atomic)?;
        self.add_node(second, outer)
    }

    /// Adds a node inside of one that is visited.
    fn add_node(&mut self, number: usize, outer: Visit) -> Result<(), AllocError>
        ensures { OnOk result (self.new.labels ≡ self.old.labels) }
    {
        self.waiting.push(Visit { number, ..outer })?;
        Ok(())
    }

    /// Adds the rules that are called implicitly, in non-atomic mode.
    fn add_implicit(&mut self, is_atomic: bool) -> Result<(), AllocError>
        ensures { OnOk result (self.new.labels ≡ self.old.labels) }
    {
        if is_atomic {
            return Ok(());
        }
        self.enter_name(comment_name(), false)?;
        self.enter_name(whitespace_name(), false)
    }

    /// Visits a node without operands.
    fn visit_leaf(&mut self, expr: &ParserExpr<'_>, is_atomic: bool) -> Result<(), AllocError>
        ensures { OnOk result (length self.new.labels.items ≤ length self.old.labels.items + 1) }
    {
        if let ParserExpr::Ident(name) = expr {
            let names = &self.analysis.grammar.names;
            if names.place_of(name.as_str()).is_some() {
                return self.enter_name(name.as_str(), is_atomic);
            }
        }
        match to_leaf(expr)? {
            Some(leaf) => {
                let label = leaf_label(self.alloc, &leaf)?;
                self.add_label(label)
            }
            None => Ok(()),
        }
    }

    /// Adds a label that is not in the list.
    fn add_label(&mut self, label: String) -> Result<(), AllocError>
        ensures { OnOk result (length self.new.labels.items ≤ length self.old.labels.items + 1) }
    {
        for known in &self.labels {
            if known.as_str() == label.as_str() {
                return Ok(());
            }
        }
        self.labels.push(label)?;
        Ok(())
    }
}

/// A copy of an expression without operands, without spans.
fn to_leaf(expr: &ParserExpr<'_>) -> Result<Option<Expr>, AllocError> {
    match expr {
        ParserExpr::Str(text) => Ok(Some(Expr::Str(text.clone()?))),
        ParserExpr::Insens(text) => Ok(Some(Expr::Insens(text.clone()?))),
        ParserExpr::Range(first, last) => Ok(Some(Expr::Range(first.clone()?, last.clone()?))),
        ParserExpr::Ident(name) => Ok(Some(Expr::Ident(name.clone()?))),
        ParserExpr::PeekSlice(start, end) => Ok(Some(Expr::PeekSlice(*start, *end))),
        ParserExpr::PushLiteral(text) => Ok(Some(Expr::PushLiteral(text.clone()?))),
        _ => Ok(None),
    }
}
