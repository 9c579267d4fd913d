//! Files of cases.

use crate::expected::{Event, ReadError, read_trees};
use std::alloc::{AllocError, Global};

/// A part of a file, in bytes.
#[derive(Clone, Copy)]
pub struct FilePart {
    pub start: usize,
    pub end: usize,
}

/// The expected outcome of a case.
#[derive(Drop)]
pub enum Expected<'f> {
    /// The text does not match.
    Failure,
    /// The text matches, with these trees.
    Trees(Vec<Event<'f>>),
}

/// A case.
#[derive(Drop)]
pub struct Case<'f> {
    pub name: &'f str,
    /// The number of its first line in the file, from 1.
    pub line: usize,
    /// The rule that matches the text, if the case names one.
    pub rule: Option<&'f str>,
    /// The text that the rule is run on.
    pub text: &'f str,
    /// The number of the first line of the text in the file, from 1.
    pub text_line: usize,
    pub expected: Expected<'f>,
    /// The part of the file that has the expected trees.
    pub trees: FilePart,
    /// Whether the rule may match a prefix of the text.
    pub is_prefix: bool,
    /// Whether the case is not run.
    pub is_skipped: bool,
    /// Whether the case has the mark `:only`. If a case of a file has it, the cases without it are
    /// not run.
    pub is_only: bool,
}

/// The head of a file of cases: the lines before its first case.
#[derive(Clone, Copy)]
pub struct Head<'f> {
    pub grammar: Option<&'f str>,
    pub rule: Option<&'f str>,
}

/// A file of cases.
#[derive(Drop)]
pub struct CaseFile<'f> {
    pub head: Head<'f>,
    pub cases: Vec<Case<'f>>,
}

/// Why a file is no file of cases.
#[derive(Drop)]
pub enum FileError {
    /// An allocation failed.
    Memory,
    /// What is wrong, and the number of the line, from 1.
    Wrong { line: usize, why: &'static str },
}

impl From<AllocError> for FileError {
    fn from(_error: AllocError) -> Self {
        FileError::Memory
    }
}

/// A line of a file: its bytes with its end, and its text without it.
#[derive(Clone, Copy)]
struct Line<'f> {
    start: usize,
    end: usize,
    text: &'f str,
}

/// The numbers, from 0, of the two bars of a header.
#[derive(Clone, Copy)]
struct Header {
    first: usize,
    last: usize,
}

/// The lines of a file, and the suffix of its bars.
#[derive(Clone, Copy)]
struct Lines<'l, 'f> {
    file: &'f str,
    lines: &'l [Line<'f>],
    suffix: &'f str,
}

/// Reads a file of cases.
pub fn read_cases<'f>(alloc: Global, file: &'f str) -> Result<CaseFile<'f>, FileError> {
    let all = split_lines(alloc, file)?;
    let lines = Lines {
        file,
        lines: &all,
        suffix: find_suffix(&all),
    };
    let headers = lines.find_headers(alloc)?;
    let Some(first) = headers.first() else {
        return Err(FileError::Wrong {
            line: 1,
            why: "there is no case: a case begins with a line of `===`, its name, and a line of `===`",
        });
    };
    let head = read_head(lines.lines_between(0, first.first))?;
    let mut cases = Vec::new(alloc);
    for (i, header) in headers.iter().enumerate() {
        let end = match headers.get(i.saturating_add(1)) {
            Some(next) => next.first,
            None => lines.lines.len(),
        };
        let case = lines.read_case(alloc, *header, end)?;
        add_case(&mut cases, case)?;
    }
    skip_others(&mut cases);
    Ok(CaseFile { head, cases })
}

/// Adds a case.
fn add_case<'f>(cases: &mut Vec<Case<'f>>, case: Case<'f>) -> Result<(), AllocError> {
    cases.push(case)?;
    Ok(())
}

/// Returns whether `file` begins as a file of cases does: with a line of `=`, or with a line of a
/// head.
pub fn begins_as_cases(file: &str) -> bool {
    let file = file.trim_start();
    file.starts_with("===")
        || file.starts_with("grammar:")
        || file.starts_with("rule:")
        || file.starts_with(';')
}

/// Splits a file into lines.
fn split_lines<'f>(alloc: Global, file: &'f str) -> Result<Vec<Line<'f>>, AllocError> {
    let mut lines = Vec::new(alloc);
    let mut start = 0usize;
    for part in file.split_inclusive('\n') {
        let end = start.saturating_add(part.len());
        let text = without_end(part);
        lines.push(Line { start, end, text })?;
        start = end;
    }
    Ok(lines)
}

/// Returns the suffix of the first bar of a file.
fn find_suffix<'f>(lines: &[Line<'f>]) -> &'f str {
    for line in lines {
        if let Some(suffix) = suffix_after(line.text, '=') {
            return suffix;
        }
    }
    ""
}

/// Returns a line without its end.
fn without_end(line: &str) -> &str {
    let line = line.strip_suffix('\n').unwrap_or(line);
    line.strip_suffix('\r').unwrap_or(line)
}

/// Returns the part of `line` after three or more `sign` at its start, without the blanks at its
/// end. Returns `None` if there are fewer than three `sign`, or if the part has a blank inside.
fn suffix_after(line: &str, sign: char) -> Option<&str> {
    let rest = line.trim_start_matches(sign);
    if line.len().saturating_sub(rest.len()) < 3 {
        return None;
    }
    let rest = rest.trim_end();
    if rest.contains(' ') { None } else { Some(rest) }
}

impl<'l, 'f> Lines<'l, 'f> {
    /// Returns a line, or an empty one at the end of the file.
    fn line(&self, number: usize) -> Line<'f> {
        match self.lines.get(number) {
            Some(line) => *line,
            None => Line {
                start: self.file.len(),
                end: self.file.len(),
                text: "",
            },
        }
    }

    /// Returns the lines `from..to`.
    fn lines_between(&self, from: usize, to: usize) -> &'l [Line<'f>] {
        let to = to.min(self.lines.len());
        let from = from.min(to);
        &self.lines[from..to]
    }

    /// Returns whether a line is three or more signs, and the suffix of the file's bars.
    fn is_bar(&self, line: &str, sign: char) -> bool {
        match suffix_after(line, sign) {
            Some(suffix) => suffix == self.suffix,
            None => false,
        }
    }

    /// Finds the headers: a bar, lines that are neither empty nor begin with `=`, and a bar.
    fn find_headers(&self, alloc: Global) -> Result<Vec<Header>, AllocError> {
        let mut headers = Vec::new(alloc);
        let mut open = None;
        for (i, line) in self.lines.iter().enumerate() {
            if self.is_bar(line.text, '=') {
                open = match open {
                    Some(first) if first < i.saturating_sub(1) => {
                        headers.push(Header { first, last: i })?;
                        None
                    }
                    _ => Some(i),
                };
            } else if line.text.is_empty() || line.text.starts_with('=') {
                open = None;
            }
        }
        Ok(headers)
    }

    /// Finds the last line of dashes in the lines `from..to`.
    fn find_divider(&self, from: usize, to: usize) -> Option<usize> {
        for i in (from..to).rev() {
            if self.is_bar(self.line(i).text, '-') {
                return Some(i);
            }
        }
        None
    }

    /// Returns the part of the file between two lines that are given by their numbers. An empty
    /// line at the start, an empty line at the end, and the last line end are left out.
    fn text_part(&self, before: usize, divider: usize) -> FilePart {
        let mut from = before.saturating_add(1);
        let mut to = divider;
        if from < to && self.line(from).text.is_empty() {
            from = from.saturating_add(1);
        }
        if from < to && self.line(to.saturating_sub(1)).text.is_empty() {
            to = to.saturating_sub(1);
        }
        let start = self.line(from).start;
        if from >= to {
            return FilePart { start, end: start };
        }
        let last = self.line(to.saturating_sub(1));
        FilePart {
            start,
            end: last.start.saturating_add(last.text.len()),
        }
    }

    /// Returns the number, from 1, of the line at which the text between two lines begins.
    fn text_line(&self, before: usize, divider: usize) -> usize {
        let first = before.saturating_add(1);
        if first < divider && self.line(first).text.is_empty() {
            first.saturating_add(2)
        } else {
            first.saturating_add(1)
        }
    }

    /// Reads the case of a header, which ends before the line of the number `end`.
    fn read_case(&self, alloc: Global, header: Header, end: usize) -> Result<Case<'f>, FileError> {
        let line = header.first.saturating_add(1);
        let Some(divider) = self.find_divider(header.last, end) else {
            return Err(FileError::Wrong {
                line,
                why: "a line of `---` is missing after the text of this case",
            });
        };
        let attributes = read_attributes(
            self.lines_between(header.first.saturating_add(1), header.last),
            line.saturating_add(1),
        )?;
        let text = self.text_part(header.last, divider);
        let trees = FilePart {
            start: self.line(divider).end,
            end: self.line(end).start,
        };
        let expected = self.read_expected(alloc, trees, attributes.is_error)?;
        Ok(Case {
            name: attributes.name,
            line,
            rule: attributes.rule,
            text: self.file.get(text.start..text.end).unwrap_or(""),
            text_line: self.text_line(header.last, divider),
            expected,
            trees,
            is_prefix: attributes.is_prefix,
            is_skipped: attributes.is_skipped,
            is_only: attributes.is_only,
        })
    }

    /// Reads the third part of a case.
    fn read_expected(
        &self,
        alloc: Global,
        part: FilePart,
        is_error: bool,
    ) -> Result<Expected<'f>, FileError> {
        let text = self.file.get(part.start..part.end).unwrap_or("");
        match read_trees(alloc, text) {
            Ok(events) => {
                if !is_error {
                    return Ok(Expected::Trees(events));
                }
                if events.is_empty() {
                    return Ok(Expected::Failure);
                }
                Err(self.wrong_at(part.start, "a case with `:error` has no tree"))
            }
            Err(ReadError::Memory) => Err(FileError::Memory),
            Err(ReadError::Wrong { place, why }) => {
                Err(self.wrong_at(part.start.saturating_add(place), why))
            }
        }
    }

    /// Returns the error at a byte of the file.
    fn wrong_at(&self, place: usize, why: &'static str) -> FileError {
        let before = self.file.as_bytes().get(..place).unwrap_or(&[]);
        let feeds = before.iter().filter(|byte| **byte == b'\n').count();
        FileError::Wrong {
            line: feeds.saturating_add(1),
            why,
        }
    }
}

/// Reads the lines before the first case.
fn read_head<'f>(lines: &[Line<'f>]) -> Result<Head<'f>, FileError> {
    let mut head = Head {
        grammar: None,
        rule: None,
    };
    for (i, line) in lines.iter().enumerate() {
        let text = line.text.trim();
        if let Some(path) = text.strip_prefix("grammar:") {
            head.grammar = Some(path.trim());
        } else if let Some(name) = text.strip_prefix("rule:") {
            head.rule = Some(name.trim());
        } else if !text.is_empty() && !text.starts_with(';') {
            return Err(FileError::Wrong {
                line: i.saturating_add(1),
                why: "before the first case a file has lines `grammar: PATH`, `rule: NAME` and `; ..`",
            });
        }
    }
    Ok(head)
}

/// What the header of a case says.
#[derive(Clone, Copy)]
struct Attributes<'f> {
    name: &'f str,
    rule: Option<&'f str>,
    is_error: bool,
    is_prefix: bool,
    is_skipped: bool,
    is_only: bool,
}

/// Reads the lines between the bars of a header, of which the first has the number `first`.
fn read_attributes<'f>(lines: &[Line<'f>], first: usize) -> Result<Attributes<'f>, FileError> {
    let mut attributes = Attributes {
        name: "",
        rule: None,
        is_error: false,
        is_prefix: false,
        is_skipped: false,
        is_only: false,
    };
    for (i, line) in lines.iter().enumerate() {
        if line.text.starts_with(':') {
            attributes = match add_attribute(attributes, line.text.trim_end()) {
                Ok(attributes) => attributes,
                Err(why) => {
                    let line = first.saturating_add(i);
                    return Err(FileError::Wrong { line, why });
                }
            };
        } else if attributes.name.is_empty() {
            attributes.name = line.text.trim();
        }
    }
    Ok(attributes)
}

/// Returns attributes with one more.
fn add_attribute<'f>(
    attributes: Attributes<'f>,
    word: &'f str,
) -> Result<Attributes<'f>, &'static str> {
    let mut attributes = attributes;
    match word {
        ":error" => attributes.is_error = true,
        ":prefix" => attributes.is_prefix = true,
        ":skip" => attributes.is_skipped = true,
        ":only" => attributes.is_only = true,
        _ => match rule_in(word) {
            Some(rule) => attributes.rule = Some(rule),
            None => {
                return Err(
                    "an attribute is `:rule(NAME)`, `:error`, `:prefix`, `:skip` or `:only`",
                );
            }
        },
    }
    Ok(attributes)
}

/// Returns the name in `:rule(NAME)`.
fn rule_in(word: &str) -> Option<&str> {
    let rest = word.strip_prefix(":rule(")?;
    let name = rest.strip_suffix(')')?;
    Some(name.trim())
}

/// Skips the cases without the mark `:only`, if one has it.
fn skip_others(cases: &mut [Case<'_>]) {
    if cases.iter().any(|case| case.is_only) {
        skip_unmarked(cases);
    }
}

/// Skips the cases without the mark `:only`.
fn skip_unmarked(cases: &mut [Case<'_>]) {
    for case in cases.iter_mut() {
        case.is_skipped = case.is_skipped || !case.is_only;
    }
}
