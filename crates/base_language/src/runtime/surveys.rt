//! Texts with landmarks, by which the positions and the lines of many errors are found without a walk from
//! the text's start.
ghost use Rattle.std.specs.Prelude.{◌≡◌, ◌+◌, ◌<◌, ◌≤◌, ◌^◌, IfOk, length, string_bytes};
ghost use Rattle.std.specs.Arc.{arc_value};
ghost use Rattle.std.specs.Option.{ForSome};
ghost use Rattle.std.specs.Str.{IsCharBoundary};
ghost use Rattle.base_language.specs.Pieces.Landmarks.{AreLandmarks, IsKnownLine, IsLandmark, column_behind, start};
ghost use Rattle.base_language.specs.Pieces.PrintedError.{printed_line};
ghost use Rattle.base_language.specs.Pieces.Span.{position_text, position_offset};

use super::errors::without_breaks;
use super::lines::{first_line, last_line};
use super::places::Position;
use std::alloc::{AllocError, Global};
use std::sync::Arc;

/// The distance of landmarks in bytes, up to parts of a character.
const STRIDE: usize = 256;

/// Where every text begins.
const START: Landmark = Landmark {
    place: 0,
    line: 1,
    column: 1,
};

/// A position of a text in bytes, with its line and its column, both counted from 1.
#[derive(Clone, Copy)]
pub(crate) struct Landmark {
    pub place: usize,
    pub line: usize,
    pub column: usize,
}

/// A line of a text as it is printed, and a landmark in it.
#[derive(Drop)]
struct KnownLine {
    landmark: Landmark,
    line: Arc<String>,
}

/// A text that was read once, for the positions and the lines of many errors.
#[derive(Drop)]
pub struct Survey<'i> {
    text: &'i str,
    landmarks: Vec<Landmark>,
    known: Option<KnownLine>,
    pub ghost begins: { IsLandmark text.now start },
    pub ghost marked: { AreLandmarks text.now landmarks.items },
    pub ghost known_right: { ForSome known (IsKnownLine text.now) },
}

impl<'i> Survey<'i> {
    ghost use Rattle.base_language.specs.Pieces.Survey.{survey_text};

    /// Surveys `text`. The only error is allocation failure.
    pub fn new(alloc: Global, text: &'i str) -> Result<Survey<'i>, AllocError>
        ensures { IfOk result (λ survey. survey_text survey ≡ text.now) }
    {
        let landmarks = landmarks(alloc, text)?;
        Ok(Survey {
            text,
            landmarks,
            known: None,
        })
    }

    /// Returns the text that was surveyed.
    pub fn get_input(&self) -> &'i str
        ensures { result.now ≡ survey_text self.now }
    {
        self.text
    }

    /// Returns the landmark at a position of the text.
    pub(crate) fn landmark_at(&self, pos: Position<'_>) -> Landmark
        requires same_text { position_text pos ≡ survey_text self.now }
        ensures landmark { IsLandmark (survey_text self.now) result }
        ensures place { result.place ≡ position_offset pos.entry }
    {
        let place = pos.pos();
        self.landmark_before(place).move_to(self.text, place)
    }

    /// Returns a landmark at a position or shortly before it.
    fn landmark_before(&self, place: usize) -> Landmark
        ensures landmark { IsLandmark (survey_text self.now) result }
        ensures before { result.place ≤ place }
    {
        match self.landmarks.get(place / STRIDE) {
            Some(landmark) if landmark.place <= place => *landmark,
            _ => START,
        }
    }

    /// Returns the line of a landmark, without any `\r` and `\n`. The last such line is kept, and shared by
    /// a call for the same line.
    pub(crate) fn line_at(
        &mut self,
        alloc: Global,
        landmark: Landmark,
    ) -> Result<Arc<String>, AllocError>
        requires landmark { IsLandmark (survey_text self.old) landmark }
        ensures text { survey_text self.new ≡ survey_text self.old }
        ensures line { IfOk result (λ line. string_bytes (arc_value line)
            ≡ printed_line (survey_text self.old) landmark.place) }
    {
        if let Some(known) = &self.known {
            if known.landmark.line == landmark.line {
                return known.line.clone();
            }
        }
        let line = line_of(alloc, self.text, landmark.place)?;
        let shared = line.clone()?;
        self.known = Some(KnownLine { landmark, line });
        Ok(shared)
    }
}

impl Landmark {
    /// Moves the landmark to a position that is not before it.
    fn move_to(self, text: &str, place: usize) -> Landmark
        requires landmark { IsLandmark text.now self }
        requires between { IsCharBoundary text.now place }
        requires behind { self.place ≤ place }
        ensures landmark { IsLandmark text.now result }
        ensures place { result.place ≡ place }
    {
        let passed = &text[self.place..place];
        let line = self.line + passed.bytes().filter(|byte| *byte == b'\n').count();
        Landmark {
            place,
            line,
            column: column_behind(self.column, passed),
        }
    }
}

/// Returns the column after a piece of a text that begins at `column`.
fn column_behind(column: usize, passed: &str) -> usize
    requires from_one { 1 ≤ column }
    requires fits { column + length passed.now < 2 ^ 64 }
    ensures column { result ≡ column_behind column passed.now }
    ensures from_one { 1 ≤ result }
    ensures fits { result ≤ column + length passed.now }
{
    let last = last_line(passed);
    let length = last.chars().count();
    if last.len() == passed.len() {
        column + length
    } else {
        1 + length
    }
}

/// Landmarks of a text, the first where it begins.
fn landmarks(alloc: Global, text: &str) -> Result<Vec<Landmark>, AllocError>
    ensures { IfOk result (λ landmarks. AreLandmarks text.now landmarks.items) }
{
    let mut landmark = START;
    let mut landmarks = vec![in alloc; landmark]?;
    for count in 0..text.len() / STRIDE {
        let place = text.floor_char_boundary((count + 1) * STRIDE);
        landmark = landmark.move_to(text, place);
        landmarks.push(landmark)?;
    }
    Ok(landmarks)
}

/// Returns the line of a position, without any `\r` and `\n`.
fn line_of(alloc: Global, text: &str, place: usize) -> Result<Arc<String>, AllocError>
    requires between { IsCharBoundary text.now place }
    ensures { IfOk result (λ line. string_bytes (arc_value line) ≡ printed_line text.now place) }
{
    let line = without_breaks(alloc, last_line(&text[..place]), first_line(&text[place..]))?;
    let shared = Arc::new(alloc, line)?;
    Ok(shared)
}
