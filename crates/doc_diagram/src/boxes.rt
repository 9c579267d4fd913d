//! Layout boxes: the parts of a diagram, each with the space that it takes.
//!
//! All lengths are pixels. A box's rail enters at its left side, and leaves at its right side. The boxes of
//! a diagram are a list, in which each comes after its children.
ghost use Rattle.std.specs.Prelude.{◌≡◌, ◌+◌, ◌++◌, IfOk, OnOk, flat_map, map};
ghost use Rattle.doc_diagram.specs.Spaces.{capped, level, placed_box, with_entry};

use std::alloc::{AllocError, Global};

/// The content of a box.
#[derive(Clone, Copy)]
pub enum BoxContent {
    /// A rail alone.
    Rail,
    /// A text that is matched, in a round box.
    Terminal,
    /// A call of the rule of this number, in a square box that links to it.
    RuleCall(usize),
    /// A builtin, in a square box.
    Builtin,
    /// Children one after another.
    Sequence,
    /// Children below one another, each an alternative.
    Choice,
    /// Choices side by side, all of one list of alternatives.
    Columns,
    /// A child with a rail back to its start.
    Loop,
    /// A child in a frame with a label.
    Group,
}

/// A point of a diagram: its distance from the left and from the upper side.
#[derive(Clone, Copy)]
pub struct Point {
    pub x: u64,
    pub y: u64,
}

/// The space that a box takes.
#[derive(Clone, Copy)]
pub struct Extent {
    pub width: u64,
    /// The height above the entering rail.
    pub ascent: u64,
    /// The height below the entering rail.
    pub descent: u64,
    /// The distance from the height of the entering rail down to that of the leaving rail.
    pub exit_y: u64,
}

/// A box of a diagram.
#[derive(Drop)]
pub struct LayoutBox {
    pub content: BoxContent,
    /// The text in the box, in its frame or at its rail back; empty if there is none.
    pub label: String,
    /// The indices of its children.
    pub children: Vec<usize>,
    pub extent: Extent,
}

/// The boxes of a diagram.
#[derive(Drop)]
pub struct Layout {
    /// The boxes, each after its children.
    pub boxes: Vec<LayoutBox>,
    /// For each box the point at which its rail enters, relative to that of its parent.
    pub offsets: Vec<Point>,
}

impl Point {
    /// The point so far to the right and below.
    pub fn plus(self, offset: Point) -> Point
        ensures x { result.x ≡ capped (self.x + offset.x) }
        ensures y { result.y ≡ capped (self.y + offset.y) }
    {
        Point {
            x: self.x.saturating_add(offset.x),
            y: self.y.saturating_add(offset.y),
        }
    }
}

impl Extent {
    /// No space.
    pub const EMPTY: Extent = Extent {
        width: 0,
        ascent: 0,
        descent: 0,
        exit_y: 0,
    };

    /// Returns the point at which the rail leaves a box of this extent, if it enters at `entry`.
    pub fn exit(&self, entry: Point) -> Point
        ensures x { result.x ≡ capped (entry.x + self.now.width) }
        ensures y { result.y ≡ capped (entry.y + self.now.exit_y) }
    {
        entry.plus(Point {
            x: self.width,
            y: self.exit_y,
        })
    }

    /// The space of a box that reaches as far above its rail as below.
    pub fn level(width: u64, half_height: u64) -> Extent
        ensures { result ≡ level width half_height }
    {
        Extent {
            width,
            ascent: half_height,
            descent: half_height,
            exit_y: 0,
        }
    }
}

/// Returns the children of a box, each with the point at which its rail enters. `entries` has these points.
pub fn children_at<'b>(
    alloc: Global,
    boxes: &'b [LayoutBox],
    entries: &[Point],
    parent: &LayoutBox,
) -> Result<Vec<(&'b LayoutBox, Point)>, AllocError>
    ensures { IfOk result (λ children. map (λ child. (child.0.now, child.1)) children.items
        ≡ flat_map (placed_box boxes.entry.now entries.now) parent.now.children.items) }
{
    let mut children = Vec::new(alloc);
    for index in &parent.children {
        push_child(boxes, entries, *index, &mut children)?;
    }
    Ok(children)
}

/// Adds the box with this index, and the point at which its rail enters, if there are both.
fn push_child<'b>(
    boxes: &'b [LayoutBox],
    entries: &[Point],
    index: usize,
    children: &mut Vec<(&'b LayoutBox, Point)>,
) -> Result<(), AllocError>
    ensures { OnOk result (map (λ child. (child.0.now, child.1)) children.new.items
        ≡ map (λ child. (child.0.now, child.1)) children.old.items
        ++ placed_box boxes.entry.now entries.now index) }
{
    match boxes.get(index) {
        Some(child) => push_with_entry(child, entries.get(index).copied(), children),
        None => Ok(()),
    }
}

/// Adds a box and the point at which its rail enters, if that is known.
fn push_with_entry<'b>(
    child: &'b LayoutBox,
    entry: Option<Point>,
    children: &mut Vec<(&'b LayoutBox, Point)>,
) -> Result<(), AllocError>
    ensures { OnOk result (map (λ child. (child.0.now, child.1)) children.new.items
        ≡ map (λ child. (child.0.now, child.1)) children.old.items
        ++ with_entry (Some child.entry.now) entry) }
{
    match entry {
        Some(entry) => {
            children.push((child, entry))?;
            Ok(())
        }
        None => Ok(()),
    }
}
