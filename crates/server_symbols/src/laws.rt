//! Laws of the definitions of occurrences.
ghost use Rattle.server_symbols.specs.Laws.{DefinitionsAreNamed, OccurrencesAreNamed};

/// The text of each occurrence of a name is that name.
pub fn occurrences_are_named()
    ensures { OccurrencesAreNamed }
{}

/// The text of each definition's name that is found by a name is that name.
pub fn definitions_are_named()
    ensures { DefinitionsAreNamed }
{}
