//! Laws of the tokens of grammars.
ghost use Rattle.std.specs.Prelude.{ℕ, List};
ghost use Rattle.std.specs.Str.{IsUtf8};
ghost use Rattle.front_syntax.specs.declared.events.TokenEvent.{TokenEvent};
ghost use Rattle.format_grammar.specs.Formatting.{AreTokens, SameTokens};
ghost use Rattle.format_grammar.specs.Reading.{SameRules};

use front_grammar::laws::trees_of_a_grammar_have_their_shape;

/// Proves that grammars of equal tokens are read as the same rules, their spans left out.
pub fn same_tokens_have_the_same_rules()
    ensures { (text other : List ℕ) (events others : List TokenEvent) → IsUtf8 text → IsUtf8 other
        → AreTokens text events → AreTokens other others → SameTokens text events other others
        → SameRules text other }
{
    trees_of_a_grammar_have_their_shape();
}
