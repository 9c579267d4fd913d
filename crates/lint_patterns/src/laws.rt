//! The warnings are true: laws over the definitions alone.
ghost use Rattle.lint_patterns.specs.CopyLaws.{ManyAreMade};
ghost use Rattle.lint_patterns.specs.DuplicateLaws.{RepeatedIsNeverTaken, SameBodiesRunAlike};
ghost use Rattle.lint_patterns.specs.ListLaws.{ListsAreChanged, PassesAreAll, RewrittenMatchesMore};

/// A body that counts is changed by the listing.
pub fn lists_are_changed()
    ensures { ListsAreChanged }
{}

/// Of a body that is looked at, the listing of what these passes leave is what all passes leave.
pub fn passes_are_all()
    ensures { PassesAreAll }
{}

/// If `x ~ y` matches and no `x` follows, `(x ~ y)* ~ x` fails and its listing succeeds, over every grammar.
pub fn rewritten_lists_match_more()
    ensures { RewrittenMatchesMore }
{}

/// An alternative that is the same as one before it fails wherever all those before it fail, over every
/// grammar.
pub fn repeated_alternatives_are_never_taken()
    ensures { RepeatedIsNeverTaken }
{}

/// Rules whose bodies count as the same have one type, and from every start their bodies have the same
/// outcomes, over every grammar.
pub fn repeated_bodies_run_alike()
    ensures { SameBodiesRunAlike }
{}

/// If all counts in a body are written out, the operand of a reported repetition is there at least 10,000
/// times.
pub fn many_copies_are_made()
    ensures { ManyAreMade }
{}
