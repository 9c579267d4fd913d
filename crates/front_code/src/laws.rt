//! Laws over the definitions alone.
ghost use Rattle.std.specs.Prelude.{ℕ, Bool, List, false, true};
ghost use Rattle.base_language.specs.Language.Expression.{Grammar};
ghost use Rattle.base_language.specs.Language.Meaning.{Task};
ghost use Rattle.base_language.specs.Language.State.{Classes};
ghost use Rattle.base_language.specs.Language.Text.{Text};
ghost use Rattle.matcher_code.specs.Lists.{CodeLists};
ghost use Rattle.matcher_code.specs.Laid.{AreLaid, IsPoint, Point};
ghost use Rattle.front_code.specs.Codes.{IsCodeOfMetaGrammar, IsExactCode, IsFastCode};
ghost use Rattle.front_code.specs.Layouts.{AreLaidAll};

/// The code at each point of a list has that of its parts, and calls bodies that begin at such points. Then
/// a longer list has these points, and each of its points is laid by points of that list.
pub fn whole_code_is_laid()
    ensures { (exact : Bool) (g : Grammar) (classes : Classes) (code : CodeLists) (number : Text → ℕ)
        (called : List Point) → AreLaidAll exact g classes code number called called
        → (points : List Point) × AreLaid exact g classes code number points
        × ((k : Task) (l n w : ℕ) → IsPoint called k l n w → IsPoint points k l n w) }
{}

/// A program with the operations, the texts and the sets of the exact code is code of the meta-grammar, which
/// records each name that is expected.
pub fn exact_code_is_laid()
    ensures { (classes : Classes) (code : CodeLists) → IsExactCode code
        → IsCodeOfMetaGrammar true classes code }
{}

/// A program with the operations, the texts and the sets of the fast code is code of the meta-grammar.
pub fn fast_code_is_laid()
    ensures { (classes : Classes) (code : CodeLists) → IsFastCode code
        → IsCodeOfMetaGrammar false classes code }
{}
