//! Texts of pieces, breadth first.
use crate::samples::{RuleBodies, pieces_of};
use base_ast::optimized::OptimizedRule;
use std::alloc::{AllocError, Global};

/// The most texts for a rule.
const MOST_TEXTS: usize = 200;

/// Returns texts for a rule: the empty one, and texts that are made of the rule's pieces. Texts of fewer
/// pieces come first. Their number is bounded.
pub(crate) fn candidate_texts(
    alloc: Global,
    rules: &[OptimizedRule],
    rule: &str,
) -> Result<Vec<String>, AllocError> {
    let bodies = RuleBodies::new(alloc, rules)?;
    let pieces = pieces_of(alloc, &bodies, rule)?;
    texts_of(alloc, &pieces)
}

/// Returns the texts that are made of some pieces.
fn texts_of(alloc: Global, pieces: &[String]) -> Result<Vec<String>, AllocError> {
    let mut texts = Vec::new(alloc);
    texts.push(String::new(alloc))?;
    for number in 0..MOST_TEXTS {
        add_longer_texts(alloc, number, pieces, &mut texts)?;
    }
    Ok(texts)
}

/// Adds the text of that number, with each piece after it.
fn add_longer_texts(
    alloc: Global,
    number: usize,
    pieces: &[String],
    texts: &mut Vec<String>,
) -> Result<(), AllocError> {
    for piece in pieces {
        if texts.len() < MOST_TEXTS {
            let longer = longer_text(alloc, &*texts, number, piece.as_str())?;
            texts.push(longer)?;
        }
    }
    Ok(())
}

/// Returns the text of that number, with a piece after it.
fn longer_text(
    alloc: Global,
    texts: &[String],
    number: usize,
    piece: &str,
) -> Result<String, AllocError> {
    let start = texts.get(number).map_or("", |text| text.as_str());
    let mut longer = String::from_str(alloc, start)?;
    longer.push_str(piece)?;
    Ok(longer)
}
