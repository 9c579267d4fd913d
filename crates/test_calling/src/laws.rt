//! Laws of the grammars that callers have: their tags can be wrapped.
ghost use Rattle.std.specs.Prelude.{ℕ, All, IsUtf8, List};
ghost use Rattle.base_language.specs.Language.Expression.{Grammar};
ghost use Rattle.matcher_support.specs.Spliced.{HasNoMark};
ghost use Rattle.pest_meta.specs.Laws.{OfAnswers};
ghost use Rattle.pest_meta.specs.Spelling.{SpellsGrammar};
ghost use Rattle.pest_meta.specs.Written.{IsWritten};

/// No name of a rule has a `#`, if a text spells the rules; nor has one in the answer for a text, and in its
/// rules as they are written. So `CanWrap` of matcher_support holds of what `wrap_rules` was given.
pub fn names_have_no_mark()
    ensures spelled { (text : List ℕ) (rules : Grammar) → IsUtf8 text → SpellsGrammar text rules
        → All HasNoMark rules }
    ensures written { (text : List ℕ) (rules : Grammar) → IsUtf8 text → IsWritten text rules
        → All HasNoMark rules }
    ensures answered { OfAnswers (All HasNoMark) }
{}
