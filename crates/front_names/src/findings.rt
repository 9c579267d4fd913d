//! Findings about names.
ghost use Rattle.std.specs.Prelude.{◌≡◌, ◌++◌, IfOk, OnOk, alloc_error, map, string_bytes};
ghost use Rattle.base_language.specs.Pieces.Saying.{piece_of};
ghost use Rattle.front_names.specs.NameFindings.{complaint_of, told_by};
ghost use Rattle.front_names.specs.Names.{complaints};
ghost use Rattle.front_names.specs.declared.findings.NameError.TheVariants.{Memory};

use crate::NameProblem;
use base_language::runtime::Span;
use std::alloc::{AllocError, AllocFailed, Global};

/// A finding about a name, and the span of that name.
#[derive(Clone, Copy)]
pub struct NameFinding<'i> {
    pub problem: NameProblem,
    pub span: Span<'i>,
}

impl NameFinding<'_> {
    /// Returns the message. The only error is an allocation failure.
    pub fn message(&self, alloc: Global) -> Result<String, AllocError>
        ensures { IfOk result (λ message. string_bytes message ≡ (complaint_of self.now).message) }
    {
        self.problem.message(alloc, self.span.as_str())
    }
}

/// The reason why the names of a grammar are refused: memory was refused, or there are findings.
#[derive(Drop)]
pub enum NameError<'i> {
    Memory(AllocError),
    Found(Vec<NameFinding<'i>>),
}

impl From<AllocError> for NameError<'_> {
    ghost from_gives = { λ _ e. e ≡ Memory alloc_error };

    fn from(error: AllocError) -> Self {
        NameError::Memory(error)
    }
}

impl<T: Drop> From<AllocFailed<T>> for NameError<'_> {
    ghost from_gives = { λ _ e. e ≡ Memory alloc_error };

    fn from(error: AllocFailed<T>) -> Self {
        NameError::Memory(AllocError::from(error))
    }
}

/// Adds a finding of this problem at each of these spans, in their order.
pub(crate) fn add_findings<'i>(
    problem: NameProblem,
    places: &[Span<'i>],
    found: &mut Vec<NameFinding<'i>>,
) -> Result<(), AllocError>
    ensures { OnOk result (told_by found.new.items
        ≡ told_by found.old.items ++ complaints problem (map piece_of places.now)) }
{
    for place in places {
        found.push(NameFinding {
            problem,
            span: *place,
        })?;
    }
    Ok(())
}
