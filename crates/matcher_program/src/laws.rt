//! Laws over the definitions alone.
ghost use Rattle.std.specs.Prelude.{Bool, ◌≡◌};
ghost use Rattle.base_language.specs.Language.CharacterBounds.{HasCharacterBounds};
ghost use Rattle.base_language.specs.Language.Expression.{Grammar, Ident};
ghost use Rattle.base_language.specs.Language.KnownNames.{HasKnownNames};
ghost use Rattle.base_language.specs.Language.Text.{Text};
ghost use Rattle.base_language.specs.Language.WellFormed.{InSomeRule};
ghost use Rattle.matcher_program.specs.Refusals.{IsReason, IsUnknown, KnowsProperties};
ghost use Rattle.matcher_program.specs.declared.compile.Unfit.{Unfit};
ghost use Rattle.matcher_program.specs.declared.compile.Unfit.TheVariants.{Memory};

/// Proves that no name is unknown if rules call rules and builtins alone, as those of each accepted text
/// do, and each property is known; so no such rules are refused for a name.
pub fn known_names_are_taken()
    ensures { (knows : Text → Bool) (g : Grammar) → HasKnownNames g → KnowsProperties knows
        → (n : Text) → InSomeRule g (Ident n) → IsUnknown knows g n → ⊥ }
{}

/// Proves that rules are refused for memory alone if they call rules and builtins alone, both bounds of each
/// range are one character, as in each answer of `pest_meta`, and each property is known.
pub fn answers_are_accepted()
    ensures { (knows : Text → Bool) (g : Grammar) → HasKnownNames g → HasCharacterBounds g
        → KnowsProperties knows → (unfit : Unfit) → IsReason knows g unfit → unfit ≡ Memory }
{}
