//! The warnings are true: laws over the definitions alone.
ghost use Rattle.lint_warnings.specs.Laws.{BegunChangesNothing, BegunIsNeverTaken, CalledIsCalled, ReversedFails};
ghost use Rattle.lint_warnings.specs.SkippingLaws.{AtomicRulesSkipNothing, SkippingRuleIsNonAtomic, TurnsSkipBlanks};
ghost use Rattle.lint_warnings.specs.SuspectLaws.{IdleOptionChangesNothing, IdleTestNeverFails};
ghost use Rattle.lint_warnings.specs.SuspectLaws.{ReversedCountIsExact, UnmatchableNeverSucceeds};

/// An earlier literal or call matches a prefix of all that an alternative matches. Such an alternative fails
/// from every start from which all alternatives before it fail, over every grammar. A choice has the same
/// outcomes without such an alternative at its end.
pub fn begun_alternatives_are_never_taken()
    ensures never { BegunIsNeverTaken }
    ensures nothing { BegunChangesNothing }
{}

/// A range whose first bound is above its last fails from every start, over every grammar.
pub fn reversed_ranges_match_nothing()
    ensures { ReversedFails }
{}

/// A name counts as called if and only if it is called in the body of a rule with another name.
pub fn called_rules_are_called()
    ensures { CalledIsCalled }
{}

/// A count whose first number is above its last does what the last alone does, over every grammar.
pub fn reversed_counts_are_exact()
    ensures { ReversedCountIsExact }
{}

/// A test of what cannot fail fails nowhere, and an option of it does what it does, over every grammar.
pub fn idle_tests_do_nothing()
    ensures tests { IdleTestNeverFails }
    ensures options { IdleOptionChangesNothing }
{}

/// An unmatchable node succeeds from no state in a text, in every mode of a rule's body, over every grammar
/// without a rule `ANY`.
pub fn unmatchable_nodes_match_nothing()
    ensures { UnmatchableNeverSucceeds }
{}

/// A rule that skips blanks runs in the mode that skips them. There each iteration of a repetition begins at
/// the end of the blanks after the iteration before it. In an atomic rule it begins at the end of that
/// iteration. This is true over every grammar.
pub fn skipping_rules_skip_blanks()
    ensures modes { SkippingRuleIsNonAtomic }
    ensures turns { TurnsSkipBlanks }
    ensures atomic { AtomicRulesSkipNothing }
{}
