//! Printing: which groups fit on their lines, and the text of the pieces.
use crate::pieces::{Fill, Item, Piece, PrintedItem};
use crate::spacing::space_items;
use std::alloc::{AllocError, Global};

/// The measures of all pieces.
#[derive(Drop)]
struct Measures {
    /// The number of columns of all pieces before a piece, in one line.
    columns: Vec<usize>,
    /// The number of line ends before a piece that cannot be left out.
    line_ends: Vec<usize>,
    /// The number of the end of a group, for its start.
    closing: Vec<usize>,
    /// The number of columns before the next possible line end from a piece on, or before the next comment.
    next_line: Vec<usize>,
    /// The number of the piece that ends the operand after a possible line end or the start of a group: the
    /// next possible line end of this group, or the comments that end the line.
    operand_end: Vec<usize>,
}

/// A group that is not yet complete.
#[derive(Clone, Copy)]
struct OpenGroup {
    is_broken: bool,
    /// Whether the operand that is printed is short.
    is_short: bool,
    /// The number of line ends before that operand.
    line: usize,
}

/// The greatest number of columns of a short operand.
const SHORT: usize = 5;

/// Returns the number of columns of the word of a piece.
fn columns_of_word(text: &str, piece: Piece) -> usize {
    match piece {
        Piece::Text { start, end } | Piece::Comment { start, end } => {
            text.get(start..end).map_or(0, |part| part.chars().count())
        }
        Piece::Word(word) => word.len(),
        _ => 0,
    }
}

/// Returns whether a piece is a blank in one line. Several of them between two words are printed as one.
fn is_blank(piece: Piece) -> bool {
    matches!(piece, Piece::Blank | Piece::Line { is_blank: true, .. })
}

/// Measures all pieces.
fn measure(alloc: Global, text: &str, pieces: &[Piece]) -> Result<Measures, AllocError> {
    let mut columns = Vec::new(alloc);
    let mut line_ends = Vec::new(alloc);
    let mut closing = vec![in alloc; 0usize; pieces.len()]?;
    let mut open: Vec<usize> = Vec::new(alloc);
    let mut all = 0usize;
    let mut has_blank = false;
    let mut ends = 0usize;
    for i in 0..pieces.len() {
        columns.push(all)?;
        line_ends.push(ends)?;
        let piece = pieces[i];
        let word = columns_of_word(text, piece);
        let blank = usize::from(is_blank(piece) && !has_blank);
        all = all.saturating_add(word).saturating_add(blank);
        has_blank = word == 0 && (has_blank || is_blank(piece));
        match piece {
            Piece::LineEnd { .. } | Piece::CommentLineEnd => ends = ends.saturating_add(1),
            Piece::Open => open.push(i)?,
            Piece::Close => close(&mut open, &mut closing, i),
            _ => {}
        }
    }
    columns.push(all)?;
    line_ends.push(ends)?;
    let next_line = find_next_lines(alloc, pieces, &columns)?;
    let operand_end = find_operand_ends(alloc, pieces)?;
    Ok(Measures {
        columns,
        line_ends,
        closing,
        next_line,
        operand_end,
    })
}

/// Records that the innermost group ends with the piece of a number.
fn close(open: &mut Vec<usize>, closing: &mut [usize], last: usize) {
    if let Some(first) = open.pop() {
        if let Some(end) = closing.get_mut(first) {
            *end = last;
        }
    }
}

/// Computes the number of columns up to the next possible line end, or the next comment and its blank, for
/// each piece.
fn find_next_lines(
    alloc: Global,
    pieces: &[Piece],
    columns: &[usize],
) -> Result<Vec<usize>, AllocError> {
    let mut next_line = vec![in alloc; 0usize; pieces.len()]?;
    let mut next = columns.last().copied().unwrap_or(0);
    for i in (0..pieces.len()).rev() {
        match pieces[i] {
            Piece::Line { .. }
            | Piece::LineEnd { .. }
            | Piece::CommentLineEnd
            | Piece::Comment { .. } => next = at(columns, i),
            Piece::Blank if is_comment(pieces, i.saturating_add(1)) => next = at(columns, i),
            _ => {}
        }
        if let Some(slot) = next_line.get_mut(i) {
            *slot = next;
        }
    }
    Ok(next_line)
}

/// Computes the number of the piece that ends the operand after each possible line end and each start of a
/// group.
fn find_operand_ends(alloc: Global, pieces: &[Piece]) -> Result<Vec<usize>, AllocError> {
    let mut ends = vec![in alloc; pieces.len(); pieces.len()]?;
    let mut around: Vec<usize> = Vec::new(alloc);
    let mut next = pieces.len();
    for i in (0..pieces.len()).rev() {
        if let Some(end) = ends.get_mut(i) {
            *end = next;
        }
        match pieces[i] {
            Piece::Close => around.push(next)?,
            Piece::Open => next = around.pop().unwrap_or(next),
            Piece::Line { .. } | Piece::LineEnd { .. } => next = i,
            Piece::Comment { .. } | Piece::CommentLineEnd | Piece::Blank
                if next == i.saturating_add(1) => {
                next = i;
            }
            _ => {}
        }
    }
    Ok(ends)
}

/// Returns whether a comment is the piece of a number.
fn is_comment(pieces: &[Piece], i: usize) -> bool {
    matches!(pieces.get(i), Some(Piece::Comment { .. }))
}

/// Returns the number at an index of a list, or 0.
fn at(list: &[usize], i: usize) -> usize {
    list.get(i).copied().unwrap_or(0)
}

impl Measures {
    /// Returns whether the pieces `first..end` have a line end that cannot be left out.
    fn has_line_end(&self, first: usize, end: usize) -> bool {
        at(&self.line_ends, first) < at(&self.line_ends, end)
    }

    /// Returns the number of columns of a piece.
    fn columns_of(&self, i: usize) -> usize {
        at(&self.columns, i.saturating_add(1)).saturating_sub(at(&self.columns, i))
    }

    /// Returns the number of columns of the group that starts with a piece, with the pieces after it up to
    /// the next possible line end.
    fn columns_of_group(&self, first: usize) -> usize {
        at(&self.next_line, at(&self.closing, first)).saturating_sub(at(&self.columns, first))
    }

    /// Returns the number of columns of the operand after a piece, a possible line end or the start of a
    /// group, with the operator before it and the blanks around that.
    fn columns_of_operand(&self, i: usize) -> usize {
        at(&self.columns, at(&self.operand_end, i)).saturating_sub(at(&self.columns, i))
    }

    /// Returns whether the operand after a piece is in one line.
    fn is_in_one_line(&self, i: usize) -> bool {
        !self.has_line_end(i, at(&self.operand_end, i))
    }
}

/// The style of printed pieces.
#[derive(Clone, Copy)]
pub struct Style {
    /// The greatest number of columns of a line, if it can be broken.
    pub width: usize,
    /// The number of columns of a step of indentation.
    pub indent: usize,
    pub line_end: &'static str,
}

/// The text printed so far.
#[derive(Drop)]
struct Printer<'t> {
    text: &'t str,
    out: String,
    style: Style,
    /// The number of steps of indentation.
    depth: usize,
    column: usize,
    /// The number of line ends that were written in this item.
    lines: usize,
    /// The number of line ends to write before the next word.
    line_ends: usize,
    /// The number of columns before the next word, after line ends.
    start_column: usize,
    has_blank: bool,
    groups: Vec<OpenGroup>,
}

impl<'t> Printer<'t> {
    /// Prints `word`, which has `columns` columns.
    fn word(&mut self, word: &str, columns: usize) -> Result<(), AllocError> {
        if word.is_empty() {
            return Ok(());
        }
        if self.line_ends > 0 {
            self.line_feeds()?;
            for _ in 0..self.start_column {
                self.out.push(' ')?;
            }
            self.column = self.start_column;
        } else if self.has_blank {
            self.out.push(' ')?;
            self.column = self.column.saturating_add(1);
        }
        self.line_ends = 0;
        self.has_blank = false;
        self.out.push_str(word)?;
        self.column = self.column.saturating_add(columns);
        Ok(())
    }

    /// Prints the line feeds before a word.
    fn line_feeds(&mut self) -> Result<(), AllocError> {
        for _ in 0..self.line_ends {
            self.out.push_str(self.style.line_end)?;
        }
        self.lines = self.lines.saturating_add(self.line_ends);
        Ok(())
    }

    /// Requests a line end before the next word, or one and an empty line.
    fn end_line(&mut self, count: usize, column: usize) {
        self.line_ends = self.line_ends.max(count);
        self.start_column = column;
        self.has_blank = false;
    }

    /// Returns the number of columns of indentation: at most half of the width, so that lines of deep
    /// parentheses take no more than that each.
    fn indentation(&self) -> usize {
        let columns = self.depth.saturating_mul(self.style.indent);
        columns.min(self.style.width / 2)
    }

    /// Returns the column at which the next word starts.
    fn next_column(&self) -> usize {
        if self.line_ends > 0 {
            self.start_column
        } else if self.has_blank {
            self.column.saturating_add(1)
        } else {
            self.column
        }
    }

    /// Starts the group that begins with the piece of a number.
    fn open(&mut self, measures: &Measures, i: usize) -> Result<(), AllocError> {
        let is_inner = match self.groups.last() {
            Some(around) => around.is_broken,
            None => true,
        };
        let end = at(&measures.closing, i);
        let columns = self
            .next_column()
            .saturating_add(measures.columns_of_group(i));
        let is_broken = is_inner && (measures.has_line_end(i, end) || columns > self.style.width);
        self.groups.push(OpenGroup {
            is_broken,
            is_short: measures.columns_of_operand(i) <= SHORT,
            line: self.lines.saturating_add(self.line_ends),
        })?;
        Ok(())
    }

    /// Prints a possible line end, by the group around it.
    fn line(
        &mut self,
        measures: &Measures,
        i: usize,
        is_blank: bool,
        is_operator: bool,
        fill: Fill,
    ) {
        let operator = if is_operator { 2usize } else { 0 };
        let lead = operator.saturating_add(usize::from(is_blank));
        let is_short = measures.columns_of_operand(i).saturating_sub(lead) <= SHORT;
        if self.is_line_end(measures, i, is_short, fill) {
            let back = if is_operator {
                self.style.indent / 2
            } else {
                0
            };
            self.end_line(1, self.indentation().saturating_sub(back));
        } else if is_blank {
            self.has_blank = true;
        }
        let line = self.lines.saturating_add(self.line_ends);
        if let Some(group) = self.groups.last_mut() {
            group.is_short = is_short;
            group.line = line;
        }
    }

    /// Returns whether a line ends at a possible line end. The group has to be broken. In it a line end is
    /// left out between two operands of one line each, if the second, which may be short, fits on the line.
    fn is_line_end(&self, measures: &Measures, i: usize, is_short: bool, fill: Fill) -> bool {
        let Some(group) = self.groups.last() else {
            return false;
        };
        let is_left_out = match fill {
            Fill::Never => false,
            Fill::BesideShort => is_short || group.is_short,
            Fill::WhereItFits => true,
        };
        let has_room = self.line_ends == 0
            && self.lines == group.line
            && measures.is_in_one_line(i)
            && self
                .next_column()
                .saturating_add(measures.columns_of_operand(i))
                <= self.style.width;
        group.is_broken && !(is_left_out && has_room)
    }

    /// Prints a piece.
    fn piece(&mut self, measures: &Measures, i: usize, piece: Piece) -> Result<(), AllocError> {
        match piece {
            Piece::Text { start, end } | Piece::Comment { start, end } => {
                let text = self.text;
                self.word(text.get(start..end).unwrap_or(""), measures.columns_of(i))?;
            }
            Piece::Word(word) => self.word(word, word.len())?,
            Piece::Blank => self.has_blank = self.line_ends == 0,
            Piece::Line {
                is_blank,
                is_operator,
                fill,
            } => self.line(measures, i, is_blank, is_operator, fill),
            Piece::LineEnd { has_empty_line } => {
                self.end_line(if has_empty_line { 2 } else { 1 }, self.indentation());
            }
            Piece::CommentLineEnd => {
                self.out.push_str(self.style.line_end)?;
                self.column = 0;
            }
            Piece::Open => self.open(measures, i)?,
            Piece::Close => {
                self.groups.pop();
            }
            Piece::Indent => self.depth = self.depth.saturating_add(1),
            Piece::Dedent => self.depth = self.depth.saturating_sub(1),
        }
        Ok(())
    }

    /// Prints the pieces `first..end`.
    fn pieces(
        &mut self,
        measures: &Measures,
        pieces: &[Piece],
        first: usize,
        end: usize,
    ) -> Result<(), AllocError> {
        for i in first..end {
            if let Some(piece) = pieces.get(i) {
                self.piece(measures, i, *piece)?;
            }
        }
        Ok(())
    }

    /// Prints an item from the first column on, and the comments before the piece `next`, which follow on its
    /// last line.
    fn item(
        &mut self,
        measures: &Measures,
        pieces: &[Piece],
        item: Item,
        next: usize,
    ) -> Result<PrintedItem, AllocError> {
        self.column = 0;
        self.lines = 0;
        self.line_ends = 0;
        self.has_blank = false;
        let start = self.out.len();
        self.pieces(measures, pieces, item.first, item.end)?;
        let has_lines = has_line_feed(self.out.as_str(), start);
        self.pieces(measures, pieces, item.end, next)?;
        Ok(PrintedItem {
            end: self.out.len(),
            has_lines,
        })
    }
}

/// Returns whether a line feed is in a text from a byte on.
fn has_line_feed(text: &str, from: usize) -> bool {
    text.get(from..).is_some_and(|rest| rest.contains('\n'))
}

/// Prints items and their pieces.
pub fn print(
    alloc: Global,
    text: &str,
    pieces: &[Piece],
    items: &mut [Item],
    style: Style,
) -> Result<String, AllocError> {
    let measures = measure(alloc, text, pieces)?;
    let mut printer = Printer {
        text,
        out: String::new(alloc),
        style,
        depth: 0,
        column: 0,
        lines: 0,
        line_ends: 0,
        start_column: 0,
        has_blank: false,
        groups: Vec::new(alloc),
    };
    let mut printed = Vec::new(alloc);
    for k in 0..items.len() {
        let next = match items.get(k + 1) {
            Some(next) => next.first,
            None => pieces.len(),
        };
        printed.push(printer.item(&measures, pieces, items[k], next)?)?;
    }
    space_items(items, &printed);
    let Printer { out, .. } = printer;
    join_items(alloc, out.as_str(), items, &printed, style.line_end)
}

/// Joins printed items by line ends and empty lines.
fn join_items(
    alloc: Global,
    text: &str,
    items: &[Item],
    printed: &[PrintedItem],
    line_end: &str,
) -> Result<String, AllocError> {
    let mut out = String::new(alloc);
    let mut start = 0usize;
    for (item, printed) in items.iter().zip(printed) {
        if !out.is_empty() && item.after_empty_line {
            out.push_str(line_end)?;
        }
        out.push_str(text.get(start..printed.end).unwrap_or(""))?;
        out.push_str(line_end)?;
        start = printed.end;
    }
    Ok(out)
}
