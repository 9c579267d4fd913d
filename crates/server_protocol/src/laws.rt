//! Laws of the definitions of positions.
ghost use Rattle.server_protocol.specs.Laws.{Exact, OneOffset};

/// A position names one offset.
pub fn one_offset()
    ensures { OneOffset }
{}

/// The position of an offset names that offset, if any position does.
pub fn exact()
    ensures { Exact }
{}
