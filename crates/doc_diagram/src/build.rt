//! From an expression to the boxes of its diagram, iteratively: a depth-first walk with a stack of steps.
ghost use Rattle.std.specs.Prelude.{◌≡◌, ◌++◌, ◌∷◌, ◌+◌, ◌*◌, ◌≤◌, ℕ, [], IfOk, List, OnOk, Option, string_bytes, vec_len};
ghost use Rattle.std.specs.HashMap.{get_by_text};
ghost use Rattle.base_ast.specs.Ast.{expression_of};
ghost use Rattle.doc_diagram.specs.Labels.{leaf_label};
ghost use Rattle.std.specs.List.{flat_map};
ghost use Rattle.doc_diagram.specs.Marks.{at_least, between, box_marks, content_marks, diagram_marks, link_marks, text_marks};
ghost use Rattle.doc_diagram.specs.Steps.{IsRun, in_turn, load, size, step_load, step_marks};

use crate::boxes::{BoxContent, Layout, LayoutBox, Point};
use crate::labels::{Caption, leaf_label};
use crate::layout::lay_out;
use base_ast::ast::Expr;
use std::alloc::{AllocError, Global};
use std::collections::HashMap;

/// The greatest number of alternatives below one another. If there are more, they are in columns.
const COLUMN_HEIGHT: usize = 16;
/// The number of columns side by side.
const COLUMN_COUNT: usize = 4;

/// A step of the walk.
#[derive(Clone, Copy)]
enum BuildStep<'e> {
    /// Builds the box of an expression.
    Visit(&'e Expr),
    /// Builds a box around the last boxes that have no parent yet. The number says how many.
    Enclose(BoxContent, Caption<'e>, usize),
    /// Builds a rail alone.
    Bypass,
}

/// An operator that joins the operands of a list.
#[derive(Clone, Copy)]
enum Operator {
    Tilde,
    Bar,
}

/// The boxes so far.
#[derive(Drop)]
struct BoxBuilder<'e> {
    alloc: Global,
    layout: Layout,
    /// The indices of boxes without a parent.
    roots: Vec<usize>,
    /// The steps that are still to be done, the next one last.
    steps: Vec<BuildStep<'e>>,
}

/// Builds the boxes of an expression. `rules` has the indexes of the rules by their names. The last box is
/// that of the whole expression. The only error is an allocation failure.
pub fn build_boxes(
    alloc: Global,
    expr: &Expr,
    rules: &HashMap<String, usize>,
) -> Result<Layout, AllocError>
    ensures { IfOk result (λ layout. flat_map box_marks layout.boxes.items
        ≡ diagram_marks (get_by_text rules.now) expr.now) }
{
    let mut builder = BoxBuilder {
        alloc,
        layout: Layout {
            boxes: Vec::new(alloc),
            offsets: Vec::new(alloc),
        },
        roots: Vec::new(alloc),
        steps: Vec::new(alloc),
    };
    builder.later(BuildStep::Visit(expr))?;
    while let Some(step) = builder.steps.pop() {
        builder.run(step, rules)?;
    }
    let BoxBuilder { layout, .. } = builder;
    Ok(layout)
}

impl<'e> BoxBuilder<'e> {
    /// Runs a step.
    fn run(&mut self, step: BuildStep<'e>, rules: &HashMap<String, usize>) -> Result<(), AllocError>
        ensures { OnOk result (IsRun (get_by_text rules.now) self.old self.new
            (step_marks (get_by_text rules.now) step.entry) (step_load step.entry)) }
    {
        match step {
            BuildStep::Visit(expr) => self.visit(expr, rules),
            BuildStep::Enclose(content, caption, count) => {
                let label = caption.text(self.alloc)?;
                self.enclose_roots(content, label, count)
            }
            BuildStep::Bypass => {
                let label = String::new(self.alloc);
                self.push_box(BoxContent::Rail, label, Vec::new(self.alloc))
            }
        }
    }

    /// Builds the box of a leaf, or adds the steps that build the boxes of an expression with operands.
    fn visit(&mut self, expr: &'e Expr, rules: &HashMap<String, usize>) -> Result<(), AllocError>
        ensures { OnOk result (IsRun (get_by_text rules.now) self.old self.new
            (diagram_marks (get_by_text rules.now) expr.entry.now) (4 * size expr.entry.now)) }
    {
        match expr {
            Expr::Seq(left, right) => {
                let visits = list_visits(self.alloc, left, right, Operator::Tilde)?;
                self.enclose_all(BoxContent::Sequence, visits)
            }
            Expr::Choice(left, right) => {
                let visits = list_visits(self.alloc, left, right, Operator::Bar)?;
                self.enclose_all(BoxContent::Choice, visits)
            }
            Expr::PosPred(inner) => self.group("followed by", inner),
            Expr::NegPred(inner) => self.group("not followed by", inner),
            Expr::Push(inner) => self.group("PUSH", inner),
            Expr::NodeTag(inner, tag) => {
                self.enclose(BoxContent::Group, Caption::Tag(tag.as_str()), inner)
            }
            Expr::Opt(inner) => self.optional(inner),
            Expr::Rep(inner) => self.optional_loop(Caption::Empty, inner),
            Expr::RepOnce(inner) => self.enclose(BoxContent::Loop, Caption::Empty, inner),
            Expr::RepExact(inner, count) => {
                self.enclose(BoxContent::Loop, Caption::Exactly(*count), inner)
            }
            Expr::RepMin(inner, least) => self.loop_from(*least, inner, rules),
            Expr::RepMax(inner, most) => self.optional_loop(Caption::AtMost(*most), inner),
            Expr::RepMinMax(inner, least, most) => self.loop_between(*least, *most, inner, rules),
            Expr::Str(_) => self.push_leaf(BoxContent::Terminal, expr),
            Expr::Insens(_) => self.push_leaf(BoxContent::Terminal, expr),
            Expr::Range(_, _) => self.push_leaf(BoxContent::Terminal, expr),
            Expr::Skip(_) => self.push_leaf(BoxContent::Terminal, expr),
            Expr::PeekSlice(_, _) => self.push_leaf(BoxContent::Builtin, expr),
            Expr::PushLiteral(_) => self.push_leaf(BoxContent::Builtin, expr),
            Expr::Ident(name) => self.push_leaf(call_content(name.as_str(), rules), expr),
        }
    }

    /// Adds the box of an expression without operands.
    fn push_leaf(&mut self, content: BoxContent, leaf: &Expr) -> Result<(), AllocError>
        ensures boxes { OnOk result (flat_map box_marks self.new.layout.boxes.items
            ≡ flat_map box_marks self.old.layout.boxes.items
            ++ content_marks content (leaf_label (expression_of leaf.now))) }
        ensures steps { OnOk result (self.new.steps.items ≡ self.old.steps.items) }
    {
        let label = leaf_label(self.alloc, leaf)?;
        self.push_box(content, label, Vec::new(self.alloc))
    }

    /// Adds a step, which is run next.
    fn later(&mut self, step: BuildStep<'e>) -> Result<(), AllocError>
        ensures layout { OnOk result (self.new.layout ≡ self.old.layout) }
        ensures steps { OnOk result (self.new.steps.items ≡ self.old.steps.items ++ step.entry ∷ []) }
    {
        self.steps.push(step)?;
        Ok(())
    }

    /// Adds the steps of a frame with a label around an operand.
    fn group(&mut self, label: &'static str, operand: &'e Expr) -> Result<(), AllocError>
        ensures layout { OnOk result (self.new.layout ≡ self.old.layout) }
        ensures steps { OnOk result (self.new.steps.items ≡ self.old.steps.items
            ++ BuildStep.Enclose BoxContent.Group (Caption.Fixed label.entry) 1
            ∷ BuildStep.Visit operand.entry ∷ []) }
    {
        self.enclose(BoxContent::Group, Caption::Fixed(label), operand)
    }

    /// Adds the steps of a box around an operand.
    fn enclose(
        &mut self,
        content: BoxContent,
        caption: Caption<'e>,
        operand: &'e Expr,
    ) -> Result<(), AllocError>
        ensures layout { OnOk result (self.new.layout ≡ self.old.layout) }
        ensures steps { OnOk result (self.new.steps.items ≡ self.old.steps.items
            ++ BuildStep.Enclose content caption.entry 1 ∷ BuildStep.Visit operand.entry ∷ []) }
    {
        self.later(BuildStep::Enclose(content, caption, 1))?;
        self.later(BuildStep::Visit(operand))
    }

    /// Adds the steps of an operand with a rail that bypasses it.
    fn optional(&mut self, operand: &'e Expr) -> Result<(), AllocError>
        ensures layout { OnOk result (self.new.layout ≡ self.old.layout) }
        ensures steps { OnOk result (self.new.steps.items ≡ self.old.steps.items
            ++ BuildStep.Enclose BoxContent.Choice Caption.Empty 2
            ∷ BuildStep.Visit operand.entry ∷ BuildStep.Bypass ∷ []) }
    {
        self.later(BuildStep::Enclose(BoxContent::Choice, Caption::Empty, 2))?;
        self.later(BuildStep::Visit(operand))?;
        self.later(BuildStep::Bypass)
    }

    /// Adds the steps of a loop with a rail that bypasses it.
    fn optional_loop(&mut self, caption: Caption<'e>, operand: &'e Expr) -> Result<(), AllocError>
        ensures layout { OnOk result (self.new.layout ≡ self.old.layout) }
        ensures steps { OnOk result (self.new.steps.items ≡ self.old.steps.items
            ++ BuildStep.Enclose BoxContent.Choice Caption.Empty 2
            ∷ BuildStep.Enclose BoxContent.Loop caption.entry 1
            ∷ BuildStep.Visit operand.entry ∷ BuildStep.Bypass ∷ []) }
    {
        self.later(BuildStep::Enclose(BoxContent::Choice, Caption::Empty, 2))?;
        self.enclose(BoxContent::Loop, caption, operand)?;
        self.later(BuildStep::Bypass)
    }

    /// Adds the steps of a loop that is run at least so often.
    fn loop_from(
        &mut self,
        least: u32,
        operand: &'e Expr,
        rules: &HashMap<String, usize>,
    ) -> Result<(), AllocError>
        ensures { OnOk result (IsRun (get_by_text rules.now) self.old self.new
            (diagram_marks (get_by_text rules.now) operand.entry.now ++ text_marks (at_least least))
            (4 * size operand.entry.now + 4)) }
    {
        if least == 0 {
            self.optional_loop(Caption::Empty, operand)
        } else {
            self.enclose(BoxContent::Loop, Caption::AtLeast(least), operand)
        }
    }

    /// Adds the steps of a loop that is run so often at least and at most.
    fn loop_between(
        &mut self,
        least: u32,
        most: u32,
        operand: &'e Expr,
        rules: &HashMap<String, usize>,
    ) -> Result<(), AllocError>
        ensures { OnOk result (IsRun (get_by_text rules.now) self.old self.new
            (diagram_marks (get_by_text rules.now) operand.entry.now ++ text_marks (between least most))
            (4 * size operand.entry.now + 4)) }
    {
        if least == 0 {
            self.optional_loop(Caption::AtMost(most), operand)
        } else {
            self.enclose(BoxContent::Loop, Caption::Between(least, most), operand)
        }
    }

    /// Adds the steps of a box around operands.
    fn enclose_all(
        &mut self,
        content: BoxContent,
        visits: Vec<BuildStep<'e>>,
    ) -> Result<(), AllocError>
        ensures layout { OnOk result (self.new.layout ≡ self.old.layout) }
        ensures steps { OnOk result (self.new.steps.items ≡ self.old.steps.items
            ++ BuildStep.Enclose content Caption.Empty (vec_len visits.entry) ∷ visits.entry.items) }
    {
        let mut visits = visits;
        self.later(BuildStep::Enclose(content, Caption::Empty, visits.len()))?;
        self.steps.append(&mut visits)?;
        Ok(())
    }

    /// Encloses the last `count` boxes that have no parent yet; alternatives in columns if there are many.
    fn enclose_roots(
        &mut self,
        content: BoxContent,
        label: String,
        count: usize,
    ) -> Result<(), AllocError>
        ensures boxes { OnOk result (flat_map box_marks self.new.layout.boxes.items
            ≡ flat_map box_marks self.old.layout.boxes.items
            ++ content_marks content (string_bytes label)) }
        ensures steps { OnOk result (self.new.steps.items ≡ self.old.steps.items) }
    {
        let children = self.take_roots(count)?;
        match content {
            BoxContent::Choice if count > COLUMN_HEIGHT => self.push_columns(&children),
            _ => self.push_box(content, label, children),
        }
    }

    /// Adds the box of a choice in columns.
    fn push_columns(&mut self, alternatives: &[usize]) -> Result<(), AllocError>
        ensures boxes { OnOk result (flat_map box_marks self.new.layout.boxes.items
            ≡ flat_map box_marks self.old.layout.boxes.items) }
        ensures steps { OnOk result (self.new.steps.items ≡ self.old.steps.items) }
    {
        let height = COLUMN_HEIGHT.max(alternatives.len().div_ceil(COLUMN_COUNT));
        for column in alternatives.chunks(height) {
            let children = Vec::from_slice(self.alloc, column)?;
            self.push_box(BoxContent::Choice, String::new(self.alloc), children)?;
        }
        let columns = self.take_roots(alternatives.len().div_ceil(height))?;
        self.push_box(BoxContent::Columns, String::new(self.alloc), columns)
    }

    /// Takes the last boxes without a parent, in order.
    fn take_roots(&mut self, count: usize) -> Result<Vec<usize>, AllocError>
        ensures layout { self.new.layout ≡ self.old.layout }
        ensures steps { self.new.steps ≡ self.old.steps }
    {
        let kept = self.roots.len().saturating_sub(count);
        let taken = Vec::from_slice(self.alloc, &self.roots[kept..])?;
        self.roots.truncate(kept);
        Ok(taken)
    }

    /// Adds a box without a parent, and lays out its children.
    fn push_box(
        &mut self,
        content: BoxContent,
        label: String,
        children: Vec<usize>,
    ) -> Result<(), AllocError>
        ensures boxes { OnOk result (flat_map box_marks self.new.layout.boxes.items
            ≡ flat_map box_marks self.old.layout.boxes.items
            ++ content_marks content (string_bytes label)) }
        ensures steps { OnOk result (self.new.steps.items ≡ self.old.steps.items) }
    {
        let extent = lay_out(
            &self.layout.boxes,
            &mut self.layout.offsets,
            content,
            label.as_str(),
            &children,
        );
        self.roots.push(self.layout.boxes.len())?;
        self.layout.offsets.push(Point { x: 0, y: 0 })?;
        self.layout.boxes.push(LayoutBox {
            content,
            label,
            children,
            extent,
        })?;
        Ok(())
    }
}

/// The content of the box of a name: a call of a rule, if there is one of that name, or a builtin.
fn call_content(name: &str, rules: &HashMap<String, usize>) -> BoxContent
    ensures { (text : List ℕ) → content_marks result text
        ≡ link_marks (get_by_text rules.now name.now) ++ text_marks text }
{
    match rules.get(name) {
        Some(rule) => BoxContent::RuleCall(*rule),
        None => BoxContent::Builtin,
    }
}

/// The steps that visit the operands of an expression, in order, however one operator joins them: those of
/// its first two operands. The first one is last.
fn list_visits<'e>(
    alloc: Global,
    left: &'e Expr,
    right: &'e Expr,
    operator: Operator,
) -> Result<Vec<BuildStep<'e>>, AllocError>
    ensures marks { (n : List ℕ → Option ℕ) → IfOk result (λ visits. in_turn n visits.items
        ≡ diagram_marks n left.entry.now ++ diagram_marks n right.entry.now) }
    ensures work { IfOk result (λ visits. load visits.items
        ≤ 4 * size left.entry.now + 4 * size right.entry.now) }
{
    let mut visits = Vec::new(alloc);
    let mut waiting = Vec::new(alloc);
    waiting.push(left)?;
    waiting.push(right)?;
    while let Some(next) = waiting.pop() {
        match (operator, next) {
            (Operator::Tilde, Expr::Seq(first, second)) => push_both(first, second, &mut waiting)?,
            (Operator::Bar, Expr::Choice(first, second)) => push_both(first, second, &mut waiting)?,
            _ => visits.push(BuildStep::Visit(next))?,
        }
    }
    Ok(visits)
}

/// Pushes two expressions.
fn push_both<'e>(
    first: &'e Expr,
    second: &'e Expr,
    waiting: &mut Vec<&'e Expr>,
) -> Result<(), AllocError>
    ensures { OnOk result (waiting.new.items ≡ waiting.old.items ++ first.entry ∷ second.entry ∷ []) }
{
    waiting.push(first)?;
    waiting.push(second)?;
    Ok(())
}
