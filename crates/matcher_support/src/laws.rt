//! Laws over the definitions alone.
ghost use Rattle.std.specs.Prelude.{◌≡◌};
ghost use Rattle.base_language.specs.Language.Expression.{Grammar, Ident};
ghost use Rattle.base_language.specs.Language.State.{Classes, Failure, NonAtomicMode, Outcome, State};
ghost use Rattle.base_language.specs.Language.Text.{Text};
ghost use Rattle.base_language.specs.Language.Meaning.{Does, Run, Task};
ghost use Rattle.base_language.specs.Pieces.TokenTrees.{NoTokens};
ghost use Rattle.matcher_support.specs.Spliced.{CanWrap, Shows};
ghost use Rattle.matcher_support.specs.Tags.{tagged, trees_in, untagged};
ghost use Rattle.matcher_support.specs.Wrapped.{wrapped_grammar};

/// A rule has the same outcomes by wrapped rules, with trees that show the tags of its match.
pub fn wrapped_rules_show_tags()
    ensures { (g : Grammar) (classes : Classes) → CanWrap g → (n : Text) (s : State) (o : Outcome)
        → (d : Does g classes (Run NonAtomicMode (Ident n)) s o)
        → Shows (wrapped_grammar g) classes (Run NonAtomicMode (Ident n)) s o (tagged d) }
{}

/// If a rule fails by wrapped rules, its only possible outcome by the rules themselves is a
/// failure.
pub fn wrapped_rules_fail_alike()
    ensures { (g : Grammar) (classes : Classes) → CanWrap g → (n : Text) (s : State) (o : Outcome)
        → Does g classes (Run NonAtomicMode (Ident n)) s o
        → Does (wrapped_grammar g) classes (Run NonAtomicMode (Ident n)) s Failure → o ≡ Failure }
{}

/// Tags change no tree: without them, the tagged trees of a match are its trees.
pub fn tags_change_no_tree()
    ensures { (g : Grammar) (classes : Classes) (k : Task) (s : State) (o : Outcome)
        → (d : Does g classes k s o) → untagged (tagged d NoTokens) ≡ trees_in o }
{}
