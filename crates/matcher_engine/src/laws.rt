//! Laws of blocks, and of rules that have an outcome.
ghost use Rattle.std.specs.Prelude.{◌≡◌, ◌<◌, ◌++◌, ◌∷◌, [], All, List, Some, ℕ, codes};
ghost use Rattle.base_language.specs.Language.Expression.{Grammar, Rule, rule_of};
ghost use Rattle.base_language.specs.Language.State.{Classes, State};
ghost use Rattle.base_language.specs.Language.Text.{Text};
ghost use Rattle.base_language.specs.Language.WellFormed.{IsPlain, IsWellFormed, NamesHaveReadableCounts};
ghost use Rattle.matcher_engine.specs.Blocks.{checksum_of};
ghost use Rattle.matcher_engine.specs.Limits.{HasOutcomeFrom};
ghost use Rattle.matcher_program.specs.Programs.{Fits};
ghost use Rattle.matcher_program.specs.declared.form.Property.{Property};

/// `checksum_of`, the checksum of a block, gives three published values of FNV-1a of 64 bits.
pub fn checksums_are_fnv_1a()
    ensures empty { checksum_of [] ≡ 14695981039346656037 }
    ensures one_byte { checksum_of (codes "a") ≡ 12638187200555641996 }
    ensures six_bytes { checksum_of (codes "foobar") ≡ 9625390261332436968 }
{}

/// If two lists of bytes differ in exactly one byte, their checksums differ. So `check_block`
/// refuses a block in which exactly one byte was changed.
pub fn other_bytes_have_other_sums()
    ensures { (front rest : List ℕ) (a b : ℕ) → All (λ x. x < 256) rest → a < 256 → b < 256
        → checksum_of (front ++ a ∷ rest) ≡ checksum_of (front ++ b ∷ rest) → a ≡ b }
{}

/// If a grammar is well-formed and plain, and its counts are readable, each of its rules has an outcome from
/// every state, for all classes.
pub fn plain_rules_have_outcomes()
    ensures { (g : Grammar) (ps : List Property) (classes : Classes) → Fits ps classes
        → NamesHaveReadableCounts g → IsWellFormed g → IsPlain g
        → (n : Text) (r : Rule) → rule_of g n ≡ Some r → (s : State) → HasOutcomeFrom g ps n s }
{}
