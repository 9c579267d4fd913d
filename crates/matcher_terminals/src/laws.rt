//! Laws over the definitions alone.
ghost use Rattle.std.specs.Prelude.{◌≡◌, false, map};
ghost use Rattle.base_language.specs.Language.Expression.{Grammar, Ident};
ghost use Rattle.base_language.specs.Language.Meaning.{Does, Run};
ghost use Rattle.base_language.specs.Language.State.{Classes, NonAtomicMode, Outcome, State};
ghost use Rattle.base_language.specs.Language.Text.{Text};
ghost use Rattle.front_names.specs.Names.{is_builtin};
ghost use Rattle.matcher_support.specs.Spliced.{CanWrap};
ghost use Rattle.matcher_terminals.specs.Exposed.{exposed, labelled_rule};
ghost use Rattle.matcher_terminals.specs.Tried.{IsToldOf};

/// A rule has the same outcomes by exposed rules, except for its trees. At each position, the names
/// that the exposed rules expect are the terminals that fail there in the derivation by the rules
/// themselves. The furthest failure of both is at the same position.
pub fn exposed_rules_expect_what_is_tried()
    ensures { (g : Grammar) (classes : Classes) → CanWrap (map labelled_rule g)
        → (n : Text) → is_builtin n ≡ false → (s : State) (o p : Outcome)
        → (d : Does g classes (Run NonAtomicMode (Ident n)) s o)
        → (e : Does (exposed g) classes (Run NonAtomicMode (Ident n)) s p) → IsToldOf d e }
{}
