//! Names of rules.
ghost use Rattle.std.specs.Prelude.{◌≡◌, ℕ, IfOk, chars};
ghost use Rattle.base_language.specs.Language.Expected.{expected_at};
ghost use Rattle.base_language.specs.Language.Expression.{Grammar, last_place};
ghost use Rattle.base_language.specs.Language.Meaning.{Does, Task};
ghost use Rattle.base_language.specs.Language.State.{Classes, Outcome, State};
ghost use Rattle.base_language.specs.Language.Text.{Text};
ghost use Rattle.matcher_program.specs.Programs.{grammar_of};
ghost use Rattle.matcher_compiler.specs.Names.{AreLast, HasNumber, HaveNumbers, number_in};

use matcher_program::form::{Program, ProgramRule};
use matcher_program::texts::same;
use std::alloc::{AllocError, Global};
use std::collections::HashMap;

/// Returns the index of the last program rule of a name.
pub fn last_index(program_rules: &[ProgramRule], name: &str) -> Option<usize>
    ensures { result ≡ last_place (grammar_of program_rules.now) (chars name.now) }
{
    let mut below = program_rules.len();
    while below > 0 {
        below -= 1;
        if same(program_rules[below].name.as_str(), name) {
            return Some(below);
        }
    }
    None
}

/// Returns for each program rule the index of the last program rule of its name. The only error is an
/// allocation failure.
pub(crate) fn last_program_rules(alloc: Global, program: &Program) -> Result<Vec<usize>, AllocError>
    ensures { IfOk result (λ lasts. AreLast program.now.rules.items lasts.items) }
{
    let program_rules = program.rules.as_slice();
    let mut lasts = Vec::new(alloc);
    lasts.resize(program_rules.len(), 0)?;
    let mut later: HashMap<String, usize> = HashMap::new(alloc);
    let mut below = program_rules.len();
    while below > 0 {
        below -= 1;
        let name = program_rules[below].name.as_str();
        match later.get(name) {
            Some(last) => lasts[below] = *last,
            None => {
                let key = String::from_str(alloc, name)?;
                later.insert(key, below)?;
                lasts[below] = below;
            }
        }
    }
    Ok(lasts)
}

/// A name that failures record is that of a rule, or `EOI`, and such names have numbers of their own.
pub fn expected_names_have_own_numbers()
    ensures numbers { (g : Grammar) (classes : Classes) (k : Task) (s : State) (o : Outcome) (place : ℕ)
        → (d : Does g classes k s o) → HaveNumbers g (expected_at place d) }
    ensures fresh { (g : Grammar) (n m : Text) → HasNumber g n → HasNumber g m
        → number_in g n ≡ number_in g m → n ≡ m }
{}
