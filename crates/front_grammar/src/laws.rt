//! Laws of the meta-grammar.
ghost use Rattle.std.specs.Prelude.{◌≡◌, ℕ, List};
ghost use Rattle.std.specs.Str.{IsUtf8};
ghost use Rattle.base_language.specs.Language.State.{Classes, Mode, Outcome, State, Trees};
ghost use Rattle.base_language.specs.Language.Expression.{Ident};
ghost use Rattle.base_language.specs.Language.Meaning.{Matches};
ghost use Rattle.base_language.specs.Pieces.MetaRules.{name_of};
ghost use Rattle.base_language.specs.Language.WellFormed.{HasReadableCounts, IsPlain, IsWellFormed};
ghost use Rattle.base_language.specs.declared.grammar.Rule.{Rule};
ghost use Rattle.base_language.specs.declared.grammar.Rule.TheVariants.{grammar_rules};
ghost use Rattle.front_grammar.specs.MetaGrammar.{meta_grammar};
ghost use Rattle.front_grammar.specs.Outcomes.{Spells};
ghost use Rattle.front_grammar.specs.Shape.{AreGrammarTrees};

use base_language::laws::{one_outcome, terminates};

/// The meta-grammar is well-formed: no body of a repetition succeeds without taking anything, nor do white
/// space and comments, and no rule left-calls itself. The meta-grammar is plain: its calls are of its own
/// rules and builtins, none reads the stack, and its white space and comments reach no `!` rule. No count
/// is 0 where a count must not be.
pub fn meta_grammar_is_well_formed()
    ensures well_formed { IsWellFormed meta_grammar }
    ensures plain { IsPlain meta_grammar }
    ensures counts { HasReadableCounts meta_grammar }
{}

/// A rule of the meta-grammar, or `EOI`, has exactly one outcome from every start: a success or a failure.
pub fn each_rule_has_one_outcome()
    ensures has_one { (classes : Classes) (r : Rule) (m : Mode) (s : State)
        → (o : Outcome) × Matches meta_grammar classes (Ident (name_of r)) m s o }
    ensures only_one { (classes : Classes) (r : Rule) (m : Mode) (s : State) (o p : Outcome)
        → Matches meta_grammar classes (Ident (name_of r)) m s o
        → Matches meta_grammar classes (Ident (name_of r)) m s p → o ≡ p }
{
    meta_grammar_is_well_formed();
    terminates();
    one_outcome();
}

/// The trees of a text that is a grammar have their shape: where trees occur, in sequence and nested, and
/// that numbers are written in digits.
pub fn trees_of_a_grammar_have_their_shape()
    ensures { (text : List ℕ) (us : Trees) → IsUtf8 text → Spells grammar_rules text us
        → AreGrammarTrees text us }
{}
