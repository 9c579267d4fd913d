//! Laws over the definitions alone.
ghost use Rattle.std.specs.Prelude.{◌≡◌, ℕ, ◌<◌, ◌≤◌, Bool, List, [], Some, length};
ghost use Rattle.base_language.specs.Language.Text.{Text};
ghost use Rattle.base_language.specs.Language.Expression.{Grammar, Expression};
ghost use Rattle.base_language.specs.Language.State.{Classes, Mode, State, Outcome};
ghost use Rattle.base_language.specs.Language.Meaning.{Matches};
ghost use Rattle.front_spanned.specs.Spanned.{Spanned, Span};
ghost use Rattle.front_stack_domain.specs.Stack.{AbstractStack, In};
ghost use Rattle.front_stack_domain.specs.Reading.{Reading, Walk, turns, reading, name_reading};
ghost use Rattle.front_stack_domain.specs.Reported.{KnowsNullable, ReportedToDepth, ReportedFrom, IsCertainAt, turn_starts};
ghost use Rattle.front_stack_domain.specs.Recursion.{LeavesOutRecursion};
ghost use Rattle.front_stack_domain.specs.Refuted.{peeked, peeked_twice, top, top_of_none, alone};
ghost use Rattle.front_stack_domain.specs.Reports.{Route, IsPartAt, ReachesRoute, IsReport, IsCertain, NeverEnds, SkippingAltersStack, reading_in, reading_to_depth};
ghost use Rattle.front_stack_domain.specs.Turns.{HasFewMarks, most_stacks, AreDistinct, KeepsFewMarks, TurnsEnd};

/// Proves that every report is definite. Its repetition has no greatest number, and no outcome if a
/// start of the rule reaches it on the reported route. That holds however many turns are followed, and
/// whichever rules are taken for recursive.
pub fn certain()
    ensures { (limit turns : ℕ) (recursive : Text → Bool) (g : Grammar) (e p : Expression) (r : Route)
        → (a : AbstractStack) → IsReport limit turns recursive g e p r a → IsCertain g e p r a }
{}

/// Proves that if the part at a route has no outcome, nothing that reaches it has one. There is at most one
/// outcome from each start. So no start of a rule that reaches a definite repetition on its route
/// has an outcome, and no call of the rule.
pub fn certain_never_ends()
    ensures parts { (g : Grammar) (classes : Classes) (m : Mode) (e p : Expression) (r : Route) (s t : State)
        → IsPartAt e r p → ReachesRoute g classes m e r s t
        → ((o : Outcome) → Matches g classes p m t o → ⊥)
        → (o : Outcome) → Matches g classes e m s o → ⊥ }
    ensures rules { (g : Grammar) (e p : Expression) (r : Route) (a : AbstractStack)
        → IsCertain g e p r a → NeverEnds g e r }
{}

/// Proves what the direct reading of a rule's body reports, if the implicit whitespace leaves the stack
/// alone. Every span is that of a repetition in the body that is reported on some route. The repetition
/// certainly has no outcome when it is reached on that route, nor has a start that reaches it there.
pub fn reported_is_certain()
    ensures { (limit turns : ℕ) (recursive : Text → Bool) (g : Grammar) (nullable : Spanned → Bool)
        → KnowsNullable g nullable → (SkippingAltersStack g → ⊥)
        → (x : Spanned) (ts : List Span) → ReportedFrom limit turns recursive g nullable x ts
        → (t : Span) → In t ts → IsCertainAt limit turns recursive g x t }
{}

/// Proves that the domain is finite: at most `most_stacks` stacks have eight marks at most. So with any
/// greater limit the turns of a body go on until a start comes again or there is no ok, and the limit is
/// never met. Turns end in one way.
pub fn turns_end()
    ensures few { (stacks : List AbstractStack) → ((a : AbstractStack) → In a stacks → HasFewMarks a)
        → AreDistinct stacks → length stacks ≤ most_stacks }
    ensures unlimited { (limit : ℕ) (step : AbstractStack → Reading) (a : AbstractStack) (w : Walk)
        → most_stacks < limit → KeepsFewMarks step → HasFewMarks a
        → TurnsEnd step [] (Some a) w
        (turn_starts step limit [] (Some a))
        (turns limit step limit [] (Some a) w) }
    ensures unique { (step : AbstractStack → Reading) (a : AbstractStack) (w v u : Walk)
        → (ss ts : List AbstractStack)
        → TurnsEnd step [] (Some a) w ss v → TurnsEnd step [] (Some a) w ts u → (ss ≡ ts) × (v ≡ u) }
{}

/// Proves that a reading leads from stacks with eight marks at most to such stacks. So its limit is never
/// met, and with any two limits above the number of stacks expressions have the same readings and bodies
/// the same reports.
pub fn limits_agree()
    ensures few { (limit depth : ℕ) (skips : Bool) (recursive : Text → Bool) (g : Grammar) (e : Expression)
        → KeepsFewMarks (reading limit skips (name_reading limit skips recursive g depth) e) }
    ensures readings { (limit other : ℕ) (recursive : Text → Bool) (g : Grammar) (e : Expression)
        → (a : AbstractStack) → most_stacks < limit → most_stacks < other → HasFewMarks a
        → reading_in limit recursive g e a ≡ reading_in other recursive g e a }
    ensures reports { (limit other turns : ℕ) (recursive : Text → Bool) (g : Grammar)
        → (nullable : Spanned → Bool) (x : Spanned) (ts : List Span)
        → most_stacks < limit → most_stacks < other
        → ReportedFrom limit turns recursive g nullable x ts
        → ReportedFrom other turns recursive g nullable x ts }
{}

/// Proves that the depth of calls is never met if no rule that reaches itself is followed: expressions have
/// the same readings, and bodies the same reports, with any depth from the number of rules on.
pub fn depths_agree()
    ensures readings { (limit depth : ℕ) (recursive : Text → Bool) (g : Grammar) (e : Expression)
        → (a : AbstractStack) → LeavesOutRecursion recursive g → length g ≤ depth
        → reading_to_depth depth limit recursive g e a ≡ reading_in limit recursive g e a }
    ensures reports { (limit depth other turns : ℕ) (recursive : Text → Bool) (g : Grammar)
        → (nullable : Spanned → Bool) (x : Spanned) (ts : List Span)
        → LeavesOutRecursion recursive g → length g ≤ depth → length g ≤ other
        → ReportedToDepth depth limit turns recursive g nullable x ts
        → ReportedToDepth other limit turns recursive g nullable x ts }
{}

/// Refutes, for every route and stack, that a repetition which may end is definite: in `a = {
/// (PEEK_ALL*){2} }` the inner repetition has no third turn, and some start that reaches it has an outcome.
/// Nor is an expression that is no repetition: in `a = { POP_ALL ~ PEEK }` the `PEEK`, although it has no
/// outcome there.
pub fn others_are_not_certain()
    ensures ends { (r : Route) (a : AbstractStack)
        → IsCertain (alone peeked_twice) peeked_twice peeked r a → ⊥ }
    ensures reached { (r : Route)
        → IsPartAt peeked_twice r peeked → NeverEnds (alone peeked_twice) peeked_twice r → ⊥ }
    ensures once { (r : Route) (a : AbstractStack)
        → IsCertain (alone top_of_none) top_of_none top r a → ⊥ }
{}
