//! Laws over the definitions alone.

ghost use Rattle.std.specs.Prelude.{◌≡◌, List};
ghost use Rattle.base_language.specs.Language.Text.{Text};
ghost use Rattle.base_language.specs.Language.Expression.{Grammar};
ghost use Rattle.base_language.specs.Language.WellFormed.{Leads, IsWellFormed};
ghost use Rattle.base_language.specs.declared.grammar.Rule.{Rule};
ghost use Rattle.base_language.specs.declared.runtime.errors.Error.{Error};
ghost use Rattle.front_spanned.specs.Spanned.{Span, SpannedRule};
ghost use Rattle.front_validator.specs.Alike.{AreAlike};
ghost use Rattle.front_validator.specs.Findings.{Finding, Reports, OfRecursion, places};
ghost use Rattle.front_validator.specs.Walk.{WalkLeads};
ghost use Rattle.front_validator.specs.Reported.{AreReported};
ghost use Rattle.front_validator.specs.Reports.{Reported};

/// Left calls have no cycle if no walk comes back to its rule.
pub fn no_walk_no_cycle()
    ensures { (g : Grammar) → ((n : Text) → WalkLeads g n n → ⊥) → (n : Text) → Leads g n n → ⊥ }
{}

/// No walk comes back to its rule if left calls have no cycle.
pub fn no_cycle_no_walk()
    ensures { (g : Grammar) → ((n : Text) → Leads g n n → ⊥) → (n : Text) → WalkLeads g n n → ⊥ }
{}

/// A grammar is well-formed if nothing is reported.
pub fn accepted_is_well_formed()
    ensures { (g : Grammar) → (Reported g → ⊥) → IsWellFormed g }
{}

/// Nothing is reported in a well-formed grammar.
pub fn well_formed_is_accepted()
    ensures { (g : Grammar) → IsWellFormed g → Reported g → ⊥ }
{}

/// Rules have one list of findings of left recursion.
pub fn one_list_of_recursions()
    ensures { (rules : List SpannedRule) (found other : List Finding)
        → Reports (OfRecursion rules) (places rules) found
        → Reports (OfRecursion rules) (places rules) other → found ≡ other }
{}

/// Given rules, in which given repetitions are known to be endless, have one list of errors, in whatever
/// order findings are searched.
pub fn one_list_of_findings()
    ensures { (rules : List SpannedRule) (endless : List Span) (errors others : List (Error Rule))
        → AreReported rules endless errors → AreReported rules endless others → AreAlike errors others }
{}
