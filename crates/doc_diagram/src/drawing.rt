//! Diagrams as SVG.
ghost use Rattle.std.specs.Prelude.{◌≡◌, ◌++◌, ◌∷◌, [], IfOk, OnOk, string_bytes};
ghost use Rattle.std.specs.HashMap.{get_by_text};
ghost use Rattle.std.specs.List.{flat_map};
ghost use Rattle.doc_diagram.specs.Marks.{LinksTo, Shows, box_marks, diagram_marks, marks_of, style_marks, text_marks};

use crate::boxes::{BoxContent, Extent, Layout, LayoutBox, Point, children_at};
use crate::build::build_boxes;
use crate::layout::{GAP, HALF_BOX, LINE, PADDING, TURN, back_rail, text_width};
use crate::rails::{draw_back, draw_down, draw_level, draw_return, draw_up};
use base_ast::ast::Expr;
use doc_markup::{Attribute, Class, Markup, MarkupBuilder, PathCommand, Tag};
use std::alloc::{AllocError, Global};
use std::collections::HashMap;

/// The space around a diagram.
const MARGIN: u64 = 12;

/// The place of the style of a diagram: in it, or in the page.
#[derive(Clone, Copy)]
pub enum DiagramStyle {
    /// In the page around it.
    OfPage,
    /// In the diagram itself.
    Own,
}

/// Returns the diagram of an expression, an element `svg`. `rules` has the indexes of the rules by their
/// names. Calls of rules link to them. The only error is an allocation failure.
pub fn draw_diagram<'t>(
    alloc: Global,
    expr: &Expr,
    rules: &HashMap<String, usize>,
    style: DiagramStyle,
) -> Result<MarkupBuilder<'t>, AllocError>
    ensures { IfOk result (λ markup. marks_of markup.tokens.items
        ≡ style_marks style ++ diagram_marks (get_by_text rules.now) expr.now) }
{
    let layout = build_boxes(alloc, expr, rules)?;
    let mut markup = MarkupBuilder::new(alloc);
    draw(alloc, &layout, style, &mut markup)?;
    Ok(markup)
}

/// Draws boxes, the last of which is the whole.
fn draw(
    alloc: Global,
    layout: &Layout,
    style: DiagramStyle,
    markup: &mut MarkupBuilder<'_>,
) -> Result<(), AllocError>
    ensures { OnOk result (marks_of markup.new.tokens.items
        ≡ (marks_of markup.old.tokens.items ++ style_marks style)
        ++ flat_map box_marks layout.now.boxes.items) }
{
    let whole = match layout.boxes.last() {
        Some(whole) => whole.extent,
        None => Extent::EMPTY,
    };
    let start = Point {
        x: 2 * MARGIN,
        y: MARGIN.saturating_add(whole.ascent),
    };
    open_drawing(markup, whole, style)?;
    draw_ends(markup, start, whole.exit(start))?;
    draw_boxes(alloc, layout, start, markup)?;
    markup.close(Tag::Svg)
}

/// Draws boxes. The rail of the whole enters at `start`.
fn draw_boxes(
    alloc: Global,
    layout: &Layout,
    start: Point,
    markup: &mut MarkupBuilder<'_>,
) -> Result<(), AllocError>
    ensures { OnOk result (marks_of markup.new.tokens.items
        ≡ marks_of markup.old.tokens.items ++ flat_map box_marks layout.now.boxes.items) }
{
    let entries = find_entries(alloc, layout, start)?;
    for (index, drawn) in layout.boxes.iter().enumerate() {
        let entry = entries.get(index).copied().unwrap_or(start);
        let children = children_at(alloc, &layout.boxes, &entries, drawn)?;
        draw_box(drawn, &children, entry, markup)?;
    }
    Ok(())
}

/// Finds the point at which the rail of each box enters, if that of the last box enters at `start`.
fn find_entries(alloc: Global, layout: &Layout, start: Point) -> Result<Vec<Point>, AllocError> {
    let mut entries = vec![in alloc; start; layout.boxes.len()]?;
    for (index, parent) in layout.boxes.iter().enumerate().rev() {
        if let Some(entry) = entries.get(index).copied() {
            set_entries(&layout.offsets, &parent.children, entry, &mut entries);
        }
    }
    Ok(entries)
}

/// Sets the points at which the rails of children enter, if that of their parent enters at `parent`.
fn set_entries(offsets: &[Point], children: &[usize], parent: Point, entries: &mut Vec<Point>) {
    for index in children {
        if let (Some(offset), Some(entry)) = (offsets.get(*index), entries.get_mut(*index)) {
            *entry = parent.plus(*offset);
        }
    }
}

/// Opens a drawing that has room for a box.
fn open_drawing(
    markup: &mut MarkupBuilder<'_>,
    whole: Extent,
    style: DiagramStyle,
) -> Result<(), AllocError>
    ensures { OnOk result (marks_of markup.new.tokens.items
        ≡ marks_of markup.old.tokens.items ++ style_marks style) }
{
    let height = whole.ascent.saturating_add(whole.descent.max(whole.exit_y));
    open_sized(
        markup,
        whole.width.saturating_add(4 * MARGIN),
        height.saturating_add(2 * MARGIN),
    )?;
    match style {
        DiagramStyle::Own => markup.put(Markup::Style),
        DiagramStyle::OfPage => Ok(()),
    }
}

/// Opens a drawing of a size.
fn open_sized(markup: &mut MarkupBuilder<'_>, width: u64, height: u64) -> Result<(), AllocError>
    ensures { OnOk result (marks_of markup.new.tokens.items ≡ marks_of markup.old.tokens.items) }
{
    markup.put(Markup::Open(Tag::Svg))?;
    markup.put(Markup::Namespace)?;
    markup.put(Markup::Class(Class::Diagram))?;
    markup.attribute(Attribute::Width, width)?;
    markup.attribute(Attribute::Height, height)?;
    push_view_box(markup, width, height)?;
    markup.put(Markup::TagEnd)
}

/// Adds the attribute of the part of a drawing that is shown: all of it.
fn push_view_box(markup: &mut MarkupBuilder<'_>, width: u64, height: u64) -> Result<(), AllocError>
    ensures { OnOk result (marks_of markup.new.tokens.items ≡ marks_of markup.old.tokens.items) }
{
    markup.put(Markup::Attribute(Attribute::ViewBox))?;
    markup.put(Markup::Number(0))?;
    markup.command_to(PathCommand::Separator, 0, width)?;
    markup.command(PathCommand::Separator, height)?;
    markup.put(Markup::Quote)
}

/// Draws the beginning and the end of a diagram.
fn draw_ends(markup: &mut MarkupBuilder<'_>, start: Point, end: Point) -> Result<(), AllocError>
    ensures { OnOk result (marks_of markup.new.tokens.items ≡ marks_of markup.old.tokens.items) }
{
    let left = start.x.saturating_sub(MARGIN);
    let right = end.x.saturating_add(MARGIN);
    draw_dot(markup, left, start.y)?;
    draw_level(markup, left, start.x, start.y)?;
    draw_level(markup, end.x, right, end.y)?;
    draw_dot(markup, right, end.y)
}

/// Draws a dot.
fn draw_dot(markup: &mut MarkupBuilder<'_>, x: u64, y: u64) -> Result<(), AllocError>
    ensures { OnOk result (marks_of markup.new.tokens.items ≡ marks_of markup.old.tokens.items) }
{
    markup.put(Markup::Open(Tag::Circle))?;
    markup.put(Markup::Class(Class::End))?;
    markup.attribute(Attribute::Radius, 4)?;
    markup.attribute(Attribute::CenterX, x)?;
    markup.attribute(Attribute::CenterY, y)?;
    markup.put(Markup::EmptyTagEnd)
}

/// Draws a box whose rail enters at a point, without its children.
fn draw_box(
    drawn: &LayoutBox,
    children: &[(&LayoutBox, Point)],
    entry: Point,
    markup: &mut MarkupBuilder<'_>,
) -> Result<(), AllocError>
    ensures { OnOk result (marks_of markup.new.tokens.items
        ≡ marks_of markup.old.tokens.items ++ box_marks drawn.now) }
{
    let end = drawn.extent.exit(entry);
    match drawn.content {
        BoxContent::Rail => draw_level(markup, entry.x, end.x, entry.y),
        BoxContent::Terminal => draw_text_box(markup, drawn, entry, Class::Terminal),
        BoxContent::Builtin => draw_text_box(markup, drawn, entry, Class::Builtin),
        BoxContent::RuleCall(rule) => draw_call(markup, drawn, entry, rule),
        BoxContent::Sequence => draw_sequence(markup, children, entry, end),
        BoxContent::Choice => draw_choice(markup, children, entry, end),
        BoxContent::Columns => {
            let bottom = entry.y.saturating_add(drawn.extent.descent);
            draw_columns(markup, children, entry, end, bottom)
        }
        BoxContent::Loop => draw_loop(markup, drawn, children, entry),
        BoxContent::Group => draw_group(markup, drawn, children, entry),
    }
}

/// Draws the rails of a sequence: between two items, and from the end of a row to the start of the next.
fn draw_sequence(
    markup: &mut MarkupBuilder<'_>,
    children: &[(&LayoutBox, Point)],
    entry: Point,
    end: Point,
) -> Result<(), AllocError>
    ensures { OnOk result (marks_of markup.new.tokens.items ≡ marks_of markup.old.tokens.items) }
{
    let mut last = entry;
    let mut lowest = entry.y;
    for (child, start) in children {
        if start.x >= last.x {
            draw_level(markup, last.x, start.x, last.y)?;
        } else {
            draw_return(markup, last, *start, lowest.saturating_add(GAP))?;
        }
        lowest = lowest.max(start.y.saturating_add(child.extent.descent));
        last = child.extent.exit(*start);
    }
    draw_level(markup, last.x, end.x, last.y)
}

/// Draws the rails to and from the alternatives of a choice.
fn draw_choice(
    markup: &mut MarkupBuilder<'_>,
    children: &[(&LayoutBox, Point)],
    entry: Point,
    end: Point,
) -> Result<(), AllocError>
    ensures { OnOk result (marks_of markup.new.tokens.items ≡ marks_of markup.old.tokens.items) }
{
    for (child, start) in children {
        draw_down(markup, entry, *start)?;
        draw_up(markup, child.extent.exit(*start), end)?;
    }
    Ok(())
}

/// Draws the rails to and from choices side by side, which end on a rail at the height `bottom`.
fn draw_columns(
    markup: &mut MarkupBuilder<'_>,
    children: &[(&LayoutBox, Point)],
    entry: Point,
    end: Point,
    bottom: u64,
) -> Result<(), AllocError>
    ensures { OnOk result (marks_of markup.new.tokens.items ≡ marks_of markup.old.tokens.items) }
{
    for (child, start) in children {
        let exit = child.extent.exit(*start);
        let left = start.x.saturating_sub(2 * TURN);
        let right = exit.x.saturating_add(2 * TURN);
        let above = Point { x: left, ..entry };
        let below = Point {
            x: right,
            y: bottom,
        };
        draw_level(markup, entry.x, left, entry.y)?;
        draw_down(markup, above, *start)?;
        draw_down(markup, exit, below)?;
        draw_up(markup, below, end)?;
    }
    Ok(())
}

/// Draws a loop around its child: the rails to and from it, the rail back, and the label below that.
fn draw_loop(
    markup: &mut MarkupBuilder<'_>,
    drawn: &LayoutBox,
    children: &[(&LayoutBox, Point)],
    entry: Point,
) -> Result<(), AllocError>
    ensures { OnOk result (marks_of markup.new.tokens.items
        ≡ marks_of markup.old.tokens.items ++ text_marks (string_bytes drawn.now.label)) }
{
    let mut label = entry;
    if let Some((child, start)) = children.first() {
        let exit = child.extent.exit(*start);
        let back = entry.y.saturating_add(back_rail(child.extent));
        let end = drawn.extent.exit(entry);
        let right = Point {
            x: end.x.saturating_sub(2 * TURN),
            y: exit.y,
        };
        draw_back(markup, right, *start, back)?;
        draw_through(markup, entry, end, *start, exit)?;
        label = Point {
            x: start.x,
            y: back.saturating_add(LINE).saturating_sub(3),
        };
    }
    push_label(markup, drawn, label)
}

/// Draws the frame of a group, its label, and the rails to and from what is in it.
fn draw_group(
    markup: &mut MarkupBuilder<'_>,
    drawn: &LayoutBox,
    children: &[(&LayoutBox, Point)],
    entry: Point,
) -> Result<(), AllocError>
    ensures { OnOk result (marks_of markup.new.tokens.items
        ≡ marks_of markup.old.tokens.items ++ text_marks (string_bytes drawn.now.label)) }
{
    let top = entry.y.saturating_sub(drawn.extent.ascent);
    draw_rectangle(markup, drawn, Point { y: top, ..entry }, Class::Group, 4)?;
    if let Some((child, start)) = children.first() {
        let exit = child.extent.exit(*start);
        draw_through(markup, entry, drawn.extent.exit(entry), *start, exit)?;
    }
    let label = Point {
        x: entry.x.saturating_add(PADDING / 2),
        y: top.saturating_add(LINE).saturating_sub(4),
    };
    push_label(markup, drawn, label)
}

/// Draws the rails from the beginning of a box to its child, and from the end of the child to the end of the
/// box.
fn draw_through(
    markup: &mut MarkupBuilder<'_>,
    entry: Point,
    end: Point,
    start: Point,
    exit: Point,
) -> Result<(), AllocError>
    ensures { OnOk result (marks_of markup.new.tokens.items ≡ marks_of markup.old.tokens.items) }
{
    draw_level(markup, entry.x, start.x, entry.y)?;
    draw_level(markup, exit.x, end.x, exit.y)
}

/// Adds the label of a box, if it has one, at a point.
fn push_label(
    markup: &mut MarkupBuilder<'_>,
    drawn: &LayoutBox,
    at: Point,
) -> Result<(), AllocError>
    ensures { OnOk result (marks_of markup.new.tokens.items
        ≡ marks_of markup.old.tokens.items ++ text_marks (string_bytes drawn.now.label)) }
{
    if drawn.label.is_empty() {
        return Ok(());
    }
    markup.put(Markup::Open(Tag::Text))?;
    markup.put(Markup::Class(Class::Label))?;
    push_text(markup, drawn, at)
}

/// Adds the attributes of an element `text` at a point, the label of a box, and the element's end.
fn push_text(markup: &mut MarkupBuilder<'_>, drawn: &LayoutBox, at: Point) -> Result<(), AllocError>
    ensures { OnOk result (marks_of markup.new.tokens.items
        ≡ marks_of markup.old.tokens.items ++ Shows (string_bytes drawn.now.label) ∷ []) }
{
    markup.attribute(Attribute::X, at.x)?;
    markup.attribute(Attribute::Y, at.y)?;
    markup.put(Markup::TagEnd)?;
    markup.put(Markup::Label(drawn.label.clone()?))?;
    markup.close(Tag::Text)
}

/// Draws a box that links to a rule.
fn draw_call(
    markup: &mut MarkupBuilder<'_>,
    drawn: &LayoutBox,
    entry: Point,
    rule: usize,
) -> Result<(), AllocError>
    ensures { OnOk result (marks_of markup.new.tokens.items
        ≡ marks_of markup.old.tokens.items ++ LinksTo rule ∷ text_marks (string_bytes drawn.now.label)) }
{
    markup.put(Markup::Open(Tag::A))?;
    markup.put(Markup::Link(rule))?;
    markup.put(Markup::TagEnd)?;
    draw_text_box(markup, drawn, entry, Class::Call)?;
    markup.close(Tag::A)
}

/// Draws a box with its text: a round one for a text that is matched.
fn draw_text_box(
    markup: &mut MarkupBuilder<'_>,
    drawn: &LayoutBox,
    entry: Point,
    class: Class,
) -> Result<(), AllocError>
    ensures { OnOk result (marks_of markup.new.tokens.items
        ≡ marks_of markup.old.tokens.items ++ text_marks (string_bytes drawn.now.label)) }
{
    let radius = if let Class::Terminal = class {
        HALF_BOX
    } else {
        2
    };
    let top = entry.y.saturating_sub(HALF_BOX);
    draw_rectangle(markup, drawn, Point { y: top, ..entry }, class, radius)?;
    if drawn.label.is_empty() {
        return Ok(());
    }
    markup.put(Markup::Open(Tag::Text))?;
    markup.attribute(Attribute::TextLength, text_width(drawn.label.as_str()))?;
    let label = Point {
        x: entry.x.saturating_add(PADDING),
        y: entry.y.saturating_add(4),
    };
    push_text(markup, drawn, label)
}

/// Draws a rectangle around a box, with its upper left corner at a point.
fn draw_rectangle(
    markup: &mut MarkupBuilder<'_>,
    drawn: &LayoutBox,
    corner: Point,
    class: Class,
    radius: u64,
) -> Result<(), AllocError>
    ensures { OnOk result (marks_of markup.new.tokens.items ≡ marks_of markup.old.tokens.items) }
{
    let extent = drawn.extent;
    markup.put(Markup::Open(Tag::Rect))?;
    markup.put(Markup::Class(class))?;
    markup.attribute(Attribute::CornerRadius, radius)?;
    markup.attribute(Attribute::X, corner.x)?;
    markup.attribute(Attribute::Y, corner.y)?;
    markup.attribute(Attribute::Width, extent.width)?;
    markup.attribute(
        Attribute::Height,
        extent.ascent.saturating_add(extent.descent),
    )?;
    markup.put(Markup::EmptyTagEnd)
}
