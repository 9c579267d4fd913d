//! Laws over the definitions alone.
ghost use Rattle.std.specs.Prelude.{◌≡◌, ◌↔◌};
ghost use Rattle.base_language.specs.Language.Expression.{Grammar, Expression, Rule};
ghost use Rattle.base_language.specs.Language.State.{Classes, Mode, IsRuleMode, State, Outcome};
ghost use Rattle.base_language.specs.Language.Meaning.{Matches, Does, Task, body_mode};
ghost use Rattle.base_language.specs.Rewritings.Listing.{EachListed, ListingKeeps};
ghost use Rattle.base_language.specs.Rewritings.Wrapping.{EachRestored};
ghost use Rattle.base_language.specs.Rewritings.Rewriting.{KeepsAny, Chain, SameOutcomes, EachRewritten, EachBody, Many, Rotates};
ghost use Rattle.base_language.specs.Language.Expected.{expected};
ghost use Rattle.base_language.specs.Language.FurthestFailure.{furthest};
ghost use Rattle.base_language.specs.Language.LooseMeaning.{Restored, IsSafe, SameEndings};
ghost use Rattle.base_language.specs.Language.WellFormed.{IsNullable, CannotFail, HasReadableCounts, NamesHaveReadableCounts};
ghost use Rattle.base_language.specs.Language.WellFormed.{InRules, InSomeRule, IsWellFormed, IsPlain, Start, EndsFrom};
ghost use Rattle.base_language.specs.Language.Grammar.{HasDistinctNames, IsGrammar};
ghost use Rattle.base_language.specs.Language.Places.{FitsIn, IsStateIn};
ghost use Rattle.base_language.specs.Language.Text.{IsPosition, Text};

/// An expression has at most one outcome from one start.
pub fn one_outcome()
    ensures { (g : Grammar) (classes : Classes) (e : Expression) (m : Mode) (s : State) (o p : Outcome)
        → Matches g classes e m s o → Matches g classes e m s p → o ≡ p }
{}

/// A step keeps the outcomes of every expression, by way of all rules.
pub fn keeps_outcomes()
    ensures { (g h : Grammar) → KeepsAny g → Chain g h → SameOutcomes g h }
{}

/// In a well-formed plain grammar with readable counts each rule has exactly one outcome from every start.
pub fn terminates()
    ensures { (g : Grammar) (classes : Classes) (start : Start g)
        → NamesHaveReadableCounts g → IsWellFormed g → IsPlain g → EndsFrom g classes start }
{}

/// If names are distinct, an expression occurs in some rule of the list exactly if it occurs in the rule that
/// a name means. Readable counts are then the same by the rules of the list and by the rules that names
/// mean.
pub fn distinct_names_hide_no_rule()
    ensures parts { (g : Grammar) (p : Expression) → HasDistinctNames g → InSomeRule g p ↔ InRules g p }
    ensures counts { (g : Grammar) → HasDistinctNames g → HasReadableCounts g ↔ NamesHaveReadableCounts g }
{}

/// Steps keep a grammar well-formed, plain or not, if no count is 0 where it should not be: `{1,0}` is the
/// empty literal once it is unrolled.
pub fn steps_keep_well_formed()
    ensures { (g h : Grammar) → Chain g h → NamesHaveReadableCounts g → IsWellFormed g → IsWellFormed h }
{}

/// Steps keep a grammar plain.
pub fn steps_keep_plain()
    ensures { (g h : Grammar) → Chain g h → IsPlain g → IsPlain h }
{}

/// Steps turn a grammar into a grammar, and counts stay readable in every list of rules.
pub fn steps_keep_grammars()
    ensures grammar { (g h : Grammar) → Chain g h → IsGrammar g → IsGrammar h }
    ensures counts { (g h : Grammar) → Chain g h → HasReadableCounts g → HasReadableCounts h }
    ensures counts_by_name { (g h : Grammar)
        → Chain g h → NamesHaveReadableCounts g → NamesHaveReadableCounts h }
{}

/// The listing of every body keeps a grammar well-formed, keeps it plain, and keeps it a grammar.
pub fn listing_keeps_grammars()
    ensures well_formed { (g h : Grammar) → EachListed g h → IsWellFormed g → IsWellFormed h }
    ensures plain { (g h : Grammar) → EachListed g h → IsPlain g → IsPlain h }
    ensures grammar { (g h : Grammar) → EachListed g h → IsGrammar g → IsGrammar h }
    ensures counts { (g h : Grammar) → EachListed g h → HasReadableCounts g → HasReadableCounts h }
    ensures counts_by_name { (g h : Grammar)
        → EachListed g h → NamesHaveReadableCounts g → NamesHaveReadableCounts h }
{}

/// So do the wrappers, put where the restorer puts them.
pub fn wrappers_keep_grammars()
    ensures well_formed { (g h : Grammar) → EachRestored g h → IsWellFormed g → IsWellFormed h }
    ensures plain { (g h : Grammar) → EachRestored g h → IsPlain g → IsPlain h }
    ensures grammar { (g h : Grammar) → EachRestored g h → IsGrammar g → IsGrammar h }
    ensures counts { (g h : Grammar) → EachRestored g h → HasReadableCounts g → HasReadableCounts h }
    ensures counts_by_name { (g h : Grammar)
        → EachRestored g h → NamesHaveReadableCounts g → NamesHaveReadableCounts h }
{}

/// A well-formed grammar stays well-formed: by every chain of steps, if no count is 0 where it should not be,
/// by the listing of every body, and by the wrappers, put where the restorer puts them. And a plain grammar
/// stays plain, by each of them.
pub fn stays_well_formed()
    ensures steps { (g h : Grammar)
        → Chain g h → NamesHaveReadableCounts g → IsWellFormed g → IsWellFormed h }
    ensures listing { (g h : Grammar) → EachListed g h → IsWellFormed g → IsWellFormed h }
    ensures wrappers { (g h : Grammar) → EachRestored g h → IsWellFormed g → IsWellFormed h }
    ensures steps_plain { (g h : Grammar) → Chain g h → IsPlain g → IsPlain h }
    ensures listing_plain { (g h : Grammar) → EachListed g h → IsPlain g → IsPlain h }
    ensures wrappers_plain { (g h : Grammar) → EachRestored g h → IsPlain g → IsPlain h }
{}

/// An expression that cannot fail is nullable.
pub fn what_cannot_fail_is_nullable()
    ensures { (g : Grammar) (e : Expression) → CannotFail g e → IsNullable g e }
{}

/// The body of a rule runs in NonAtomic, Atomic or CompoundAtomic, whatever mode the rule is called in.
pub fn bodies_run_in_rule_modes()
    ensures { (r : Rule) (m : Mode) → IsRuleMode (body_mode r m) }
{}

/// A failure has one position.
pub fn one_place_of_failure()
    ensures { (g : Grammar) (classes : Classes) (e : Expression) (m : Mode) (s : State) (o : Outcome)
        → (d f : Matches g classes e m s o) → furthest d ≡ furthest f }
{}

/// From one start there is one list of the names that are expected at the furthest position.
pub fn one_list_of_what_is_expected()
    ensures { (g : Grammar) (classes : Classes) (e : Expression) (m : Mode) (s : State) (o p : Outcome)
        → (d : Matches g classes e m s o) → (f : Matches g classes e m s p) → expected d ≡ expected f }
{}

/// If nothing is skipped, a listed rule matches the same texts as before.
pub fn listing_keeps_matches()
    ensures { ListingKeeps }
{}

/// With wrappers where the restorer puts them, a meaning in which a failed POP keeps its removal has the
/// same outcomes.
pub fn restored_agrees()
    ensures { (g : Grammar) (classes : Classes) (e : Expression) (m : Mode) (s : State)
        → Restored g → IsSafe g e → SameEndings g classes e m s }
{}

/// A pass, which rewrites in each rule and looks names up in the rules as they were at an earlier link of the
/// chain, is a chain.
pub fn pass_is_a_chain()
    ensures { (g h i : Grammar) → Chain g h → EachRewritten g h i → Chain h i }
{}

/// Rotations at any positions of any rules keep the outcomes, whatever the rules are called.
pub fn rotations_keep_outcomes()
    ensures { (g h : Grammar) → EachBody (λ _. Many Rotates) g h → SameOutcomes g h }
{}

/// The trees of a match from a position of a text are in that text: in order and disjoint, around the trees
/// inside them, and on character boundaries.
pub fn trees_are_nested()
    ensures { (text : Text) (g : Grammar) (classes : Classes) (k : Task) (s : State) (o : Outcome)
        → Does g classes k s o → IsStateIn text s → FitsIn text s o }
{}

/// The position of a failure is on a character boundary of the text.
pub fn failures_are_on_characters()
    ensures { (text : Text) (g : Grammar) (classes : Classes) (k : Task) (s : State) (o : Outcome)
        → (d : Does g classes k s o) → IsStateIn text s → IsPosition text (furthest d) }
{}
