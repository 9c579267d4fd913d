//! The rails of a diagram, as paths.
ghost use Rattle.std.specs.Prelude.{◌≡◌, ◌+◌, ◌-◌, ◌<◌, ◌≤◌, ◌++◌, OnOk};
ghost use Rattle.doc_diagram.specs.Marks.{marks_of};
ghost use Rattle.doc_diagram.specs.Rails.{Curve, GainsRail, point, rail_end, rail_start, stroke_tokens};
ghost use Rattle.doc_diagram.specs.Spaces.{capped};

use crate::boxes::Point;
use crate::layout::TURN;
use doc_markup::{Attribute, Markup, MarkupBuilder, PathCommand, Tag};
use std::alloc::AllocError;

/// Adds the start of a path.
fn begin(markup: &mut MarkupBuilder<'_>, from: Point) -> Result<(), AllocError>
    ensures marks { OnOk result (marks_of markup.new.tokens.items ≡ marks_of markup.old.tokens.items) }
    ensures tokens { OnOk result (markup.new.tokens.items ≡ markup.old.tokens.items ++ rail_start from) }
{
    markup.put(Markup::Open(Tag::Path))?;
    markup.put(Markup::Attribute(Attribute::Commands))?;
    markup.command_to(PathCommand::MoveTo, from.x, from.y)
}

/// Adds the end of a path.
fn end(markup: &mut MarkupBuilder<'_>) -> Result<(), AllocError>
    ensures marks { OnOk result (marks_of markup.new.tokens.items ≡ marks_of markup.old.tokens.items) }
    ensures tokens { OnOk result (markup.new.tokens.items ≡ markup.old.tokens.items ++ rail_end) }
{
    markup.put(Markup::Quote)?;
    markup.put(Markup::EmptyTagEnd)
}

/// Adds a curve around a corner to a point.
fn turn(markup: &mut MarkupBuilder<'_>, corner: Point, to: Point) -> Result<(), AllocError>
    ensures marks { OnOk result (marks_of markup.new.tokens.items ≡ marks_of markup.old.tokens.items) }
    ensures tokens { OnOk result (markup.new.tokens.items ≡ markup.old.tokens.items ++
        stroke_tokens (Curve corner to)) }
{
    markup.command_to(PathCommand::CurveTo, corner.x, corner.y)?;
    markup.command_to(PathCommand::Separator, to.x, to.y)
}

/// Adds a turn at a corner from a horizontal line downwards.
fn turn_down(markup: &mut MarkupBuilder<'_>, x: u64, y: u64) -> Result<(), AllocError>
    ensures marks { OnOk result (marks_of markup.new.tokens.items ≡ marks_of markup.old.tokens.items) }
    ensures tokens { OnOk result (markup.new.tokens.items ≡ markup.old.tokens.items ++
        stroke_tokens (Curve (point x y) (point x (capped (y + TURN))))) }
{
    let below = y.saturating_add(TURN);
    turn(markup, Point { x, y }, Point { x, y: below })
}

/// Adds a turn at a corner from a horizontal line upwards.
fn turn_up(markup: &mut MarkupBuilder<'_>, x: u64, y: u64) -> Result<(), AllocError>
    ensures marks { OnOk result (marks_of markup.new.tokens.items ≡ marks_of markup.old.tokens.items) }
    ensures tokens { OnOk result (markup.new.tokens.items ≡ markup.old.tokens.items ++
        stroke_tokens (Curve (point x y) (point x (y - TURN)))) }
{
    let above = y.saturating_sub(TURN);
    turn(markup, Point { x, y }, Point { x, y: above })
}

/// Adds a turn at a corner from a vertical line to the right.
fn turn_right(markup: &mut MarkupBuilder<'_>, x: u64, y: u64) -> Result<(), AllocError>
    ensures marks { OnOk result (marks_of markup.new.tokens.items ≡ marks_of markup.old.tokens.items) }
    ensures tokens { OnOk result (markup.new.tokens.items ≡ markup.old.tokens.items ++
        stroke_tokens (Curve (point x y) (point (capped (x + TURN)) y))) }
{
    let right = x.saturating_add(TURN);
    turn(markup, Point { x, y }, Point { x: right, y })
}

/// Adds a turn at a corner from a vertical line to the left.
fn turn_left(markup: &mut MarkupBuilder<'_>, x: u64, y: u64) -> Result<(), AllocError>
    ensures marks { OnOk result (marks_of markup.new.tokens.items ≡ marks_of markup.old.tokens.items) }
    ensures tokens { OnOk result (markup.new.tokens.items ≡ markup.old.tokens.items ++
        stroke_tokens (Curve (point x y) (point (x - TURN) y))) }
{
    let left = x.saturating_sub(TURN);
    turn(markup, Point { x, y }, Point { x: left, y })
}

/// Draws a rail from the left to the right, if its length is not 0.
pub fn draw_level(
    markup: &mut MarkupBuilder<'_>,
    left: u64,
    right: u64,
    y: u64,
) -> Result<(), AllocError>
    ensures marks { OnOk result (marks_of markup.new.tokens.items ≡ marks_of markup.old.tokens.items) }
    ensures rail { OnOk result (left < right
        → GainsRail (point left y) (point right y) markup.old.tokens.items markup.new.tokens.items) }
    ensures none { OnOk result (right ≤ left → markup.new ≡ markup.old) }
{
    if left >= right {
        return Ok(());
    }
    begin(markup, Point { x: left, y })?;
    markup.command(PathCommand::HorizontalTo, right)?;
    end(markup)
}

/// Draws a rail to a box: to the right, down at once, and to the right again.
pub fn draw_down(markup: &mut MarkupBuilder<'_>, from: Point, to: Point) -> Result<(), AllocError>
    ensures marks { OnOk result (marks_of markup.new.tokens.items ≡ marks_of markup.old.tokens.items) }
    ensures down { OnOk result (from.y < to.y
        → GainsRail from to markup.old.tokens.items markup.new.tokens.items) }
    ensures level { OnOk result (to.y ≤ from.y → from.x < to.x
        → GainsRail from (point to.x from.y) markup.old.tokens.items markup.new.tokens.items) }
{
    if from.y >= to.y {
        return draw_level(markup, from.x, to.x, from.y);
    }
    let middle = from.x.saturating_add(TURN);
    begin(markup, from)?;
    turn_down(markup, middle, from.y)?;
    markup.command(PathCommand::VerticalTo, to.y.saturating_sub(TURN))?;
    turn_right(markup, middle, to.y)?;
    markup.command(PathCommand::HorizontalTo, to.x)?;
    end(markup)
}

/// Draws a rail from a box: to the right, up at the end, and to the right again.
pub fn draw_up(markup: &mut MarkupBuilder<'_>, from: Point, to: Point) -> Result<(), AllocError>
    ensures marks { OnOk result (marks_of markup.new.tokens.items ≡ marks_of markup.old.tokens.items) }
    ensures up { OnOk result (to.y < from.y → TURN ≤ to.x
        → GainsRail from to markup.old.tokens.items markup.new.tokens.items) }
    ensures level { OnOk result (from.y ≤ to.y → from.x < to.x
        → GainsRail from (point to.x from.y) markup.old.tokens.items markup.new.tokens.items) }
{
    if from.y <= to.y {
        return draw_level(markup, from.x, to.x, from.y);
    }
    let middle = to.x.saturating_sub(TURN);
    begin(markup, from)?;
    markup.command(PathCommand::HorizontalTo, middle.saturating_sub(TURN))?;
    turn_up(markup, middle, from.y)?;
    markup.command(PathCommand::VerticalTo, to.y.saturating_add(TURN))?;
    turn_right(markup, middle, to.y)?;
    end(markup)
}

/// Draws a rail from the end of a row to the start of the row below, between both at the height `middle`.
pub fn draw_return(
    markup: &mut MarkupBuilder<'_>,
    from: Point,
    to: Point,
    middle: u64,
) -> Result<(), AllocError>
    ensures marks { OnOk result (marks_of markup.new.tokens.items ≡ marks_of markup.old.tokens.items) }
    ensures rail { OnOk result (TURN ≤ to.x
        → GainsRail from to markup.old.tokens.items markup.new.tokens.items) }
{
    let right = from.x.saturating_add(TURN);
    let left = to.x.saturating_sub(TURN);
    begin(markup, from)?;
    turn_down(markup, right, from.y)?;
    markup.command(PathCommand::VerticalTo, middle.saturating_sub(TURN))?;
    turn_left(markup, right, middle)?;
    markup.command(PathCommand::HorizontalTo, left.saturating_add(TURN))?;
    turn_down(markup, left, middle)?;
    markup.command(PathCommand::VerticalTo, to.y.saturating_sub(TURN))?;
    turn_right(markup, left, to.y)?;
    end(markup)
}

/// Draws a rail from the end of a box back to its start, below it at the height `back`.
pub fn draw_back(
    markup: &mut MarkupBuilder<'_>,
    from: Point,
    to: Point,
    back: u64,
) -> Result<(), AllocError>
    ensures marks { OnOk result (marks_of markup.new.tokens.items ≡ marks_of markup.old.tokens.items) }
    ensures rail { OnOk result (TURN ≤ to.x
        → GainsRail from to markup.old.tokens.items markup.new.tokens.items) }
{
    let right = from.x.saturating_add(TURN);
    let left = to.x.saturating_sub(TURN);
    begin(markup, from)?;
    turn_down(markup, right, from.y)?;
    markup.command(PathCommand::VerticalTo, back.saturating_sub(TURN))?;
    turn_left(markup, right, back)?;
    markup.command(PathCommand::HorizontalTo, to.x)?;
    turn_up(markup, left, back)?;
    markup.command(PathCommand::VerticalTo, to.y.saturating_add(TURN))?;
    turn_right(markup, left, to.y)?;
    end(markup)
}
