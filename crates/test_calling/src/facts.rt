//! Facts on small grammars: their outcomes by the definitions.
ghost use Rattle.base_language.specs.Language.State.{Classes};
ghost use Rattle.test_calling.specs.SmallGrammars.{ListingDiffers, BlankIsTaken, HasNone, ReadsEmptyStack, OrdersOfTheStack, NegativeSlices, TokensOfAtomicRules, PredicateRestores, PushPushes, Skips, Newlines, RangesThatFail, BlankGivesToken, NonAtomicInside, LastRuleIsMeant, OtherReadings, ReadsTheTop, EmptiesTheStack, NegativePredicates, Alternatives, CommentsAreSkipped, UndefinedNames, LoudBlanks, SlicesPastTheLength, TokensOfTheEnd, CompoundInsideAtomic, CompoundComments};
ghost use Rattle.test_calling.specs.SingleParts.{OnlyAtTheStart, HexDigits, AsksTheSet, TwoCopies, Options, LaterTurnsFail};
ghost use Rattle.test_calling.specs.FurthestPlaces.{CountsUnderPredicate, CountsByMode, CountsWhenGivenUp};
ghost use Rattle.test_calling.specs.ExpectedPlaces.{NoneBelowNot, NoneInAtomic, ExpectsAll, ExpectsTheOuter};
ghost use Rattle.test_calling.specs.NullableExpressions.{NullableOrNot, CannotFailOrMay, LeftCalledOrNot};
ghost use Rattle.test_calling.specs.SmallRewritings.{ListingIsComputed, StringsOfNames};
ghost use Rattle.test_calling.specs.LooseRuns.{FailuresLose, GoesOnFromWhatIsLeft, RepeatsInBoth};
ghost use Rattle.test_calling.specs.TagsAndPushes.{LiteralPushes, TagsMeanNothing};

/// `r = ${ ("a" ~ "b")* ~ "a" }` and its listed form differ on `ab`: the first fails, the second ends at 1.
pub fn listing_differs()
    ensures { ListingDiffers }
{}

/// With `WHITESPACE = _{ " " }`, the rule `a = { "x"+ }` on `x` and a blank ends after the blank, at 2.
pub fn blank_is_taken()
    ensures { BlankIsTaken }
{}

/// With `WHITESPACE = _{ b }`, the rule `b = !{ "x"? ~ "y" }` has no outcome on `y`.
pub fn has_none()
    ensures { HasNone }
{}

/// On an empty stack `PEEK` and `POP` have no outcome, `DROP` fails, and `PEEK_ALL` and `POP_ALL` match
/// nothing; in the mode of the implicit skipping itself `PEEK` and `POP` fail.
pub fn reads_empty_stack()
    ensures { (classes : Classes) → ReadsEmptyStack classes }
{}

/// On two entries `PEEK_ALL` matches from the top down, and a slice of both from the bottom up.
pub fn orders_of_the_stack()
    ensures { (classes : Classes) → OrdersOfTheStack classes }
{}

/// A negative number of a slice counts from the stack's length; one below the stack fails; an
/// end before the start matches nothing.
pub fn negative_slices()
    ensures { (classes : Classes) → NegativeSlices classes }
{}

/// An atomic rule gives its token to a compound-atomic caller, and none to an atomic one.
pub fn tokens_of_atomic_rules()
    ensures { (classes : Classes) → TokensOfAtomicRules classes }
{}

/// A predicate that pushes leaves the stack as it was.
pub fn predicate_restores()
    ensures { (classes : Classes) → PredicateRestores classes }
{}

/// `PUSH` pushes the text that its operand matched.
pub fn push_pushes()
    ensures { (classes : Classes) → PushPushes classes }
{}

/// `Skip` stays if the empty text is among its strings, and goes to the end if none of them occurs.
pub fn skips()
    ensures { (classes : Classes) → Skips classes }
{}

/// `NEWLINE` takes a carriage return with the line feed after it, and a carriage return alone.
pub fn newlines()
    ensures { (classes : Classes) → Newlines classes }
{}

/// A range with an empty bound takes no character, nor does one whose bounds are the wrong way round.
pub fn ranges_that_fail()
    ensures { (classes : Classes) → RangesThatFail classes }
{}

/// A Normal `WHITESPACE` gives a token for each blank that is skipped.
pub fn blank_gives_token()
    ensures { (classes : Classes) → BlankGivesToken classes }
{}

/// A `!` rule inside an atomic one skips, and gives its token.
pub fn non_atomic_inside()
    ensures { (classes : Classes) → NonAtomicInside classes }
{}

/// If a name is defined twice, it means the last rule.
pub fn last_rule_is_meant()
    ensures { (classes : Classes) → LastRuleIsMeant classes }
{}

/// `"x"{3,2}` is two required copies, and a case-insensitive literal matches up to ASCII case.
pub fn other_readings()
    ensures { (classes : Classes) → OtherReadings classes }
{}

/// On a stack with entries `PEEK` matches the top, `POP` also removes it, and `DROP` removes it
/// and takes nothing.
pub fn reads_the_top()
    ensures { (classes : Classes) → ReadsTheTop classes }
{}

/// `POP_ALL` matches all entries from the top down, and then the stack is empty.
pub fn empties_the_stack()
    ensures { (classes : Classes) → EmptiesTheStack classes }
{}

/// If `e` fails, `!e` succeeds and takes nothing. If `e` succeeds, `!e` fails.
pub fn negative_predicates()
    ensures { (classes : Classes) → NegativePredicates classes }
{}

/// A second alternative is tried after the first has failed, from the same position, and only then.
pub fn alternatives()
    ensures { (classes : Classes) → Alternatives classes }
{}

/// With `WHITESPACE` and `COMMENT`, comments are skipped with blanks before, between and after them.
pub fn comments_are_skipped()
    ensures { (classes : Classes) → CommentsAreSkipped classes }
{}

/// A name that is neither a rule's nor a builtin's has no outcome when rules run.
pub fn undefined_names()
    ensures { (classes : Classes) → UndefinedNames classes }
{}

/// A `WHITESPACE` declared `!` runs Atomic all the same, and gives its token to an atomic caller too.
pub fn loud_blanks()
    ensures { (classes : Classes) → LoudBlanks classes }
{}

/// A slice one of whose numbers is past the length of the stack fails.
pub fn slices_past_the_length()
    ensures { (classes : Classes) → SlicesPastTheLength classes }
{}

/// `EOI` gives a token in NonAtomic and CompoundAtomic, and none in Atomic.
pub fn tokens_of_the_end()
    ensures { (classes : Classes) → TokensOfTheEnd classes }
{}

/// Empty literals, predicates and repetitions from 0 are nullable, and of the builtins `SOI` and `EOI`;
/// `"x"{2,1}` is not, nor is a builtin that reads the stack.
pub fn nullable_or_not()
    ensures { NullableOrNot }
{}

/// Empty literals, `&` of one and repetitions from 0 cannot fail; a `!`, a builtin and `"x"{2,1}` may.
pub fn cannot_fail_or_may()
    ensures { CannotFailOrMay }
{}

/// A name is left-called below a predicate and after a nullable left side, and not after a literal or
/// `PEEK`.
pub fn left_called_or_not()
    ensures { LeftCalledOrNot }
{}

/// The listing of `("a" ~ "b")* ~ "a"` is `"a" ~ ("b" ~ "a")*`, and that of its grammar the
/// listed one of `listing_differs`.
pub fn listing_is_computed()
    ensures { ListingIsComputed }
{}

/// A choice of two names has the strings of both, in order.
pub fn strings_of_names()
    ensures { StringsOfNames }
{}

/// If a failure leaves a stack, a failed `POP` has removed its entry, and a failed `POP_ALL` those down
/// to and with the one that did not match.
pub fn failures_lose()
    ensures { (classes : Classes) → FailuresLose classes }
{}

/// On `a`, with "b" above "a", `POP | PEEK` then matches, but it fails in the strict meaning. With a wrapper
/// round `POP` it fails in both.
pub fn goes_on_from_what_is_left()
    ensures { (classes : Classes) → GoesOnFromWhatIsLeft classes }
{}

/// `a = { "x"+ }` on `x` ends at 1 in both meanings.
pub fn repeats_in_both()
    ensures { (classes : Classes) → RepeatsInBoth classes }
{}

/// `SOI` takes nothing at the start of a text, and fails after a character.
pub fn start_of_the_text()
    ensures { (classes : Classes) → OnlyAtTheStart classes }
{}

/// `ASCII_HEX_DIGIT` takes one of `0` to `9`, `a` to `f` and `A` to `F`.
pub fn hex_digits()
    ensures { (classes : Classes) → HexDigits classes }
{}

/// `LETTER`, a property name, takes one character if it is in the set of that name.
pub fn asks_the_set()
    ensures { (classes : Classes) → AsksTheSet classes }
{}

/// `"x"{2}` and `"x"{2,}` fail after one copy; of three the first takes two, and the second all.
pub fn two_copies()
    ensures { (classes : Classes) → TwoCopies classes }
{}

/// `"x"?` takes what its operand takes, once, and nothing if that fails.
pub fn options()
    ensures { (classes : Classes) → Options classes }
{}

/// A later turn that fails gives back the input that it took, and that was skipped before it.
pub fn later_turns_fail()
    ensures { (classes : Classes) → LaterTurnsFail classes }
{}

/// A `$` rule that is called in Atomic gives its token.
pub fn compound_inside_atomic()
    ensures { (classes : Classes) → CompoundInsideAtomic classes }
{}

/// Calls in a `COMMENT` declared `$` give tokens, and calls in a plain one give none.
pub fn compound_comments()
    ensures { (classes : Classes) → CompoundComments classes }
{}

/// A failure under a predicate counts for the furthest one, also if the match succeeds.
pub fn counts_under_predicate()
    ensures { (classes : Classes) → CountsUnderPredicate classes }
{}

/// A failure of a call in Atomic doesn't count, and one in CompoundAtomic does.
pub fn counts_by_mode()
    ensures { (classes : Classes) → CountsByMode classes }
{}

/// A failure in an alternative that was given up counts.
pub fn counts_when_given_up()
    ensures { (classes : Classes) → CountsWhenGivenUp classes }
{}

/// Of two calls that failed at one position, one within the other, the outer is expected; for a silent
/// rule, the inner.
pub fn expects_the_outer()
    ensures { (classes : Classes) → ExpectsTheOuter classes }
{}

/// All calls that failed at the furthest position are expected, in their order, `EOI` among them.
pub fn expects_all()
    ensures { (classes : Classes) → ExpectsAll classes }
{}

/// A failure below a `!` is not expected, so that nothing may be; a failure below a `&` is.
pub fn none_below_not()
    ensures { (classes : Classes) → NoneBelowNot classes }
{}

/// A call in Atomic is not expected.
pub fn none_in_atomic()
    ensures { (classes : Classes) → NoneInAtomic classes }
{}

/// `PUSH_LITERAL("x")` pushes `x` and takes nothing, at any position, and has no other outcome and no tree.
pub fn literal_pushes()
    ensures { (classes : Classes) → LiteralPushes classes }
{}

/// `#t = e` has the outcomes of `e` and no others, with the same trees and the same expected names.
pub fn tags_mean_nothing()
    ensures { (classes : Classes) → TagsMeanNothing classes }
{}
