//! Laws over the definitions alone.
ghost use Rattle.front_reader.specs.Laws.{ReadsOneExpression, ReadsOneGrammar, ReadsReadableCounts};

/// Trees are read as one expression at most.
pub fn reads_one_expression()
    ensures { ReadsOneExpression }
{}

/// The trees of a grammar's text are read as one list of rules at most.
pub fn reads_one_grammar()
    ensures { ReadsOneGrammar }
{}

/// Rules read from trees without a flaw have readable counts, so nothing is repeated 0 times at most.
pub fn reads_readable_counts()
    ensures { ReadsReadableCounts }
{}
