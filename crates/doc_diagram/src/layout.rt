//! The extent of each box and the offsets of its children, from the extents of the children.
ghost use Rattle.std.specs.Prelude.{◌≡◌, ◌+◌, ◌*◌, ◌<◌, ◌≤◌, length, max, take, true};
ghost use Rattle.doc_diagram.specs.Spaces.{HasRoomFor, box_width, capped, drawn_children, is_text_box, level, text_width};

use crate::boxes::{BoxContent, Extent, LayoutBox, Point};
use unicode_width::UnicodeWidthStr;

/// The width of a column of text.
const COLUMN: u64 = 8;
/// How far a box reaches above and below its rail.
pub const HALF_BOX: u64 = 13;
/// The space between a box and its text, and between a frame and what is in it.
pub const PADDING: u64 = 10;
/// The length of the rail between two items of a sequence.
const RAIL: u64 = 14;
/// The radius of a turn.
pub const TURN: u64 = 9;
/// The space between boxes below one another.
pub const GAP: u64 = 10;
/// The height of a line of small text.
pub const LINE: u64 = 16;
/// The width from which on a sequence continues in a row below.
const WIDEST: u64 = 760;

/// Returns the space of a box with this content, label and children, and sets the offsets of its children.
pub fn lay_out(
    boxes: &[LayoutBox],
    offsets: &mut Vec<Point>,
    content: BoxContent,
    label: &str,
    children: &[usize],
) -> Extent
    ensures rail { content ≡ BoxContent.Rail → result ≡ level RAIL 0 }
    ensures text { is_text_box content ≡ true
        → result ≡ level (capped (text_width label.now + 2 * PADDING)) HALF_BOX }
    ensures no_children { is_text_box content ≡ true → offsets.new ≡ offsets.old }
    ensures choice { content ≡ BoxContent.Choice → result.exit_y ≡ 0 }
    ensures columns { content ≡ BoxContent.Columns → result.exit_y ≡ 0 }
    ensures room { HasRoomFor boxes.now (drawn_children content children.now) result.width }
{
    let text = text_width(label);
    match content {
        BoxContent::Rail => Extent::level(RAIL, 0),
        BoxContent::Terminal | BoxContent::RuleCall(_) | BoxContent::Builtin => {
            Extent::level(text.saturating_add(2 * PADDING), HALF_BOX)
        }
        BoxContent::Sequence => lay_out_sequence(boxes, offsets, children),
        BoxContent::Choice => lay_out_choice(boxes, offsets, children),
        BoxContent::Columns => lay_out_columns(boxes, offsets, children),
        BoxContent::Loop => lay_out_loop(boxes, offsets, children, text),
        BoxContent::Group => lay_out_group(boxes, offsets, children, text),
    }
}

/// The width of a text.
pub fn text_width(text: &str) -> u64
    ensures { result ≡ text_width text.now }
{
    COLUMN.saturating_mul(text.width() as u64)
}

/// The extent of a box, or none if there is no such box.
fn extent_of(boxes: &[LayoutBox], index: usize) -> Extent
    ensures { result.width ≡ box_width boxes.now index }
{
    match boxes.get(index) {
        Some(found) => found.extent,
        None => Extent::EMPTY,
    }
}

/// Sets the offset of a box.
fn set_offset(offsets: &mut Vec<Point>, index: usize, x: u64, y: u64) {
    if let Some(offset) = offsets.get_mut(index) {
        *offset = Point { x, y };
    }
}

/// Lays out the items of a sequence side by side, in one or more rows.
fn lay_out_sequence(boxes: &[LayoutBox], offsets: &mut Vec<Point>, children: &[usize]) -> Extent
    ensures { HasRoomFor boxes.now children.now result.width }
{
    let mut whole = Extent::EMPTY;
    let mut rest = children;
    for row in 0..children.len() {
        if rest.is_empty() {
            return whole;
        }
        let (items, others) = rest.split_at(row_length(boxes, rest).min(rest.len()));
        whole = if row == 0 {
            lay_out_first_row(boxes, offsets, items, !others.is_empty())
        } else {
            lay_out_row(boxes, offsets, items, whole)
        };
        rest = others;
    }
    whole
}

/// Lays out the first row of a sequence, with room for the rail to the next one, if there is one.
fn lay_out_first_row(
    boxes: &[LayoutBox],
    offsets: &mut Vec<Point>,
    items: &[usize],
    has_next: bool,
) -> Extent
    ensures { HasRoomFor boxes.now items.now result.width }
{
    place_row(boxes, offsets, items, Point { x: 0, y: 0 });
    let row = row_extent(boxes, items);
    let room = if has_next { 2 * TURN } else { 0 };
    Extent {
        width: row.width.saturating_add(room),
        ..row
    }
}

/// The number of these boxes that fit into a row, at least one if there is one.
fn row_length(boxes: &[LayoutBox], children: &[usize]) -> usize
    ensures { 0 < length children.now → 0 < result }
{
    let mut width: u64 = 0;
    for (place, index) in children.iter().enumerate() {
        let own = extent_of(boxes, *index).width;
        if place > 0 && width.saturating_add(own) > WIDEST {
            return place;
        }
        width = width.saturating_add(own).saturating_add(RAIL);
    }
    children.len()
}

/// Lays out a row of a sequence below the rows above it, and returns the space of all of them.
fn lay_out_row(
    boxes: &[LayoutBox],
    offsets: &mut Vec<Point>,
    items: &[usize],
    above: Extent,
) -> Extent
    ensures room { HasRoomFor boxes.now items.now result.width }
    ensures above { above.width ≤ result.width }
{
    let row = row_extent(boxes, items);
    let x = 2 * TURN;
    let ascent = row.ascent.max(TURN);
    let y = above.descent.saturating_add(2 * GAP).saturating_add(ascent);
    place_row(boxes, offsets, items, Point { x, y });
    Extent {
        width: above.width.max(row.width.saturating_add(4 * TURN)),
        ascent: above.ascent,
        descent: y.saturating_add(row.descent),
        exit_y: y.saturating_add(row.exit_y),
    }
}

/// Sets the offsets of boxes side by side, the first at a point.
fn place_row(boxes: &[LayoutBox], offsets: &mut Vec<Point>, items: &[usize], start: Point) {
    let mut x = start.x;
    let mut y = start.y;
    for index in items {
        let extent = extent_of(boxes, *index);
        set_offset(offsets, *index, x, y);
        x = x.saturating_add(extent.width).saturating_add(RAIL);
        y = y.saturating_add(extent.exit_y);
    }
}

/// The space of boxes side by side.
fn row_extent(boxes: &[LayoutBox], items: &[usize]) -> Extent
    ensures { HasRoomFor boxes.now items.now result.width }
{
    let mut whole = Extent::EMPTY;
    for (place, index) in items.iter().enumerate() {
        let own = extent_of(boxes, *index);
        let rail = if place > 0 { RAIL } else { 0 };
        whole = Extent {
            width: whole.width.saturating_add(rail).saturating_add(own.width),
            ascent: whole.ascent.max(own.ascent.saturating_sub(whole.exit_y)),
            descent: whole.descent.max(own.descent.saturating_add(whole.exit_y)),
            exit_y: whole.exit_y.saturating_add(own.exit_y),
        };
    }
    whole
}

/// Lays out alternatives below one another, the first at the height of the rail.
fn lay_out_choice(boxes: &[LayoutBox], offsets: &mut Vec<Point>, children: &[usize]) -> Extent
    ensures level { result.exit_y ≡ 0 }
    ensures room { HasRoomFor boxes.now children.now result.width }
{
    let mut whole = Extent::EMPTY;
    for (place, index) in children.iter().enumerate() {
        let own = extent_of(boxes, *index);
        let below = whole.descent.saturating_add(GAP).saturating_add(own.ascent);
        let y = if place == 0 { 0 } else { below.max(2 * TURN) };
        set_offset(offsets, *index, 2 * TURN, y);
        whole = Extent {
            width: whole.width.max(own.width.saturating_add(4 * TURN)),
            ascent: if place == 0 { own.ascent } else { whole.ascent },
            descent: y.saturating_add(own.descent.max(own.exit_y)),
            exit_y: 0,
        };
    }
    whole
}

/// Lays out choices side by side, below a rail that leads to each and above one that leads away.
fn lay_out_columns(boxes: &[LayoutBox], offsets: &mut Vec<Point>, children: &[usize]) -> Extent
    ensures level { result.exit_y ≡ 0 }
    ensures room { HasRoomFor boxes.now children.now result.width }
{
    let row = row_extent(boxes, children);
    let y = row.ascent.saturating_add(GAP).saturating_add(2 * TURN);
    let mut x = 2 * TURN;
    for index in children {
        let width = extent_of(boxes, *index).width;
        set_offset(offsets, *index, x, y);
        x = x.saturating_add(width).saturating_add(4 * TURN);
    }
    let descent = y.saturating_add(row.descent).saturating_add(GAP);
    Extent {
        width: x,
        ascent: 0,
        descent: descent.saturating_add(2 * TURN),
        exit_y: 0,
    }
}

/// Lays out a box above a rail that leads back.
fn lay_out_loop(
    boxes: &[LayoutBox],
    offsets: &mut Vec<Point>,
    children: &[usize],
    text: u64,
) -> Extent
    ensures { HasRoomFor boxes.now (take 1 children.now) result.width }
{
    let Some(index) = children.first() else {
        return Extent::EMPTY;
    };
    let own = extent_of(boxes, *index);
    set_offset(offsets, *index, 2 * TURN, 0);
    let label = if text > 0 { LINE } else { 0 };
    Extent {
        width: own.width.max(text).saturating_add(4 * TURN),
        ascent: own.ascent,
        descent: back_rail(own).saturating_add(label),
        exit_y: own.exit_y,
    }
}

/// Returns how far below the rail of a loop its rail back is, if the child has this extent.
pub fn back_rail(child: Extent) -> u64
    ensures { result ≡ capped (max child.descent (child.exit_y + TURN) + GAP) }
{
    let below = child.exit_y.saturating_add(TURN);
    child.descent.max(below).saturating_add(GAP)
}

/// Lays out a box in a frame with its label above.
fn lay_out_group(
    boxes: &[LayoutBox],
    offsets: &mut Vec<Point>,
    children: &[usize],
    text: u64,
) -> Extent
    ensures { HasRoomFor boxes.now (take 1 children.now) result.width }
{
    let Some(index) = children.first() else {
        return Extent::EMPTY;
    };
    let own = extent_of(boxes, *index);
    set_offset(offsets, *index, PADDING, 0);
    Extent {
        width: own.width.max(text).saturating_add(2 * PADDING),
        ascent: own.ascent.saturating_add(LINE).saturating_add(GAP / 2),
        descent: own.descent.max(own.exit_y).saturating_add(GAP / 2),
        exit_y: own.exit_y,
    }
}
