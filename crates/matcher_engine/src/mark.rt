//! Marks: what a tracer has recorded when a call or a `!` begins.

/// The record of a run when a call or a `!` begins: how many calls were open, how many paths and attempts
/// there were, whether the run stood below a `!`, and the greatest position of an attempt.
#[derive(Clone, Copy, Debug)]
pub struct Mark {
    pub calls: usize,
    pub paths: usize,
    pub below: bool,
    pub furthest: usize,
    pub positives: usize,
    pub negatives: usize,
}
