//! Rules with an index by name.
ghost use Rattle.std.specs.Prelude.{◌≡◌, IfOk, chars};
ghost use Rattle.base_ast.specs.Optimized.{optimized_rules_of};
ghost use Rattle.matcher_program.specs.Indexed.{KnowsLast};
ghost use Rattle.matcher_program.specs.Programs.{IsSkippedRule};

use base_ast::optimized::OptimizedRule;
use std::alloc::{AllocError, Global};
use std::collections::HashMap;

/// Rules, and the index of the last rule of each name.
#[derive(Drop)]
pub struct Indexed<'r> {
    pub rules: &'r [OptimizedRule],
    pub numbers: HashMap<String, usize>,
}

/// Builds the index. The only error is an allocation failure.
pub(crate) fn index_rules<'r>(
    alloc: Global,
    rules: &'r [OptimizedRule],
) -> Result<Indexed<'r>, AllocError>
    ensures rules { IfOk result (λ indexed. indexed.rules.now ≡ rules.entry.now) }
    ensures knows { IfOk result (λ indexed. KnowsLast (optimized_rules_of rules.entry.now) indexed.numbers) }
{
    let mut numbers = HashMap::new(alloc);
    for number in 0..rules.len() {
        let name = String::from_str(alloc, rules[number].name.as_str())?;
        numbers.insert(name, number)?;
    }
    Ok(Indexed { rules, numbers })
}

impl<'r> Indexed<'r> {
    /// Returns the index of the last rule of a name.
    pub(crate) fn number_of(&self, name: &str) -> Option<usize>
        requires { KnowsLast (optimized_rules_of self.now.rules.now) self.now.numbers }
        ensures { IsSkippedRule (optimized_rules_of self.now.rules.now) (chars name.now) result }
    {
        self.numbers.get(name).copied()
    }
}
