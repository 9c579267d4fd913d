//! Compiled grammars, run by the names of their rules.
ghost use Rattle.std.specs.Prelude.{◌≡◌, ◌≢◌, Err, List, ℕ, IfErr, IfOk, IsSomeAnd, Some, chars, length, map};
ghost use Rattle.base_ast.specs.Optimized.{optimized_rules_of};
ghost use Rattle.base_ast.specs.declared.optimized.OptimizedRule.{OptimizedRule};
ghost use Rattle.base_language.specs.Language.Expression.{Grammar, last_place};
ghost use Rattle.base_language.specs.Language.State.{Classes, Outcome, State};
ghost use Rattle.base_language.specs.Language.Text.{Text};
ghost use Rattle.matcher_compiler.specs.Names.{HaveNumbers, number_in};
ghost use Rattle.matcher_engine.specs.Limits.{IsAmple, steps_of, turns_of};
ghost use Rattle.matcher_engine.specs.ParseTrees.{HasParseTree};
ghost use Rattle.matcher_engine.specs.Walks.{AreNamesOf, visits, visits_left};
ghost use Rattle.matcher_program.specs.Answers.{Has, start_of};
ghost use Rattle.matcher_program.specs.ExpectedNames.{name_texts};
ghost use Rattle.matcher_support.specs.Compiled.{AreAttemptsIn, AreExpectedIn, ArePathsIn, IsCompiled, IsCompiledOf, IsRefusedBy, IsUnanswered, operations_of};
ghost use Rattle.matcher_support.specs.Sets.{is_in_property};

use crate::attempts::{NamedAttempts, name_attempts};
use base_language::runtime::Span;
use matcher_code::state::OpenCall;
use matcher_engine::block::{
    BlockStop, attempts_block, expected_block, paths_block, rule_count, rule_name, run_block,
};
use matcher_engine::matcher::ParseTree;
use matcher_engine::walk::{TreeWalk, text_name, walk_names};
use matcher_program::answers::Stop;
use matcher_program::texts::same;
use std::alloc::{AllocError, Global};

/// A compiled grammar whose rules are run by their names: its block, and the names of its rules in
/// order.
#[derive(Drop)]
pub struct CompiledGrammar<'b> {
    block: &'b [u8],
    names: Vec<&'b str>,
}

impl<'b> CompiledGrammar<'b> {
    /// Returns the compiled grammar of the block `block`, or `None` if the name of a rule is not
    /// UTF-8. The version and the checksum of `block` are not verified here: see `check_block`.
    ///
    /// # Errors
    /// `AllocError` if an allocation fails, or if there are 2^32 rules or more.
    pub fn read(alloc: Global, block: &'b [u8]) -> Result<Option<CompiledGrammar<'b>>, AllocError>
        ensures { IfOk result (λ made. (rules : List OptimizedRule) → IsCompiled rules block.entry.now
            → IsSomeAnd made (IsCompiledOf (optimized_rules_of rules))) }
    {
        match read_names(alloc, block)? {
            Some(names) => Ok(Some(CompiledGrammar { block, names })),
            None => Ok(None),
        }
    }

    /// Returns the names of the rules in order.
    pub fn rule_names(&self) -> &[&'b str]
        ensures { (g : Grammar) → IsCompiledOf g self.entry.now → AreNamesOf g result.now }
    {
        &self.names
    }

    /// Returns the index of the last rule named `rule`.
    ///
    /// # Errors
    /// - `BlockStop::NoRule` if no rule has the name.
    /// - `Stop::Memory` if no `u32` holds the index.
    fn find_rule(&self, rule: &str) -> Result<u32, BlockStop>
        ensures found { (g : Grammar) → IsCompiledOf g self.now
            → IfOk result (λ number. last_place g (chars rule.now) ≡ Some number) }
        ensures refused { (g : Grammar) → IsCompiledOf g self.now → (text : List ℕ) (steps : ℕ)
            → IfErr result (IsUnanswered g rule.now text steps) }
        ensures unrun { IfErr result (λ why. why ≢ BlockStop.Stopped Stop.OutOfSteps) }
    {
        let Some(number) = last_number(&self.names, rule) else {
            return Err(BlockStop::NoRule);
        };
        match u32::try_from(number) {
            Ok(number) => Ok(number),
            Err(_) => Err(BlockStop::Stopped(Stop::Memory)),
        }
    }

    /// Matches the rule named `rule` from the start of `text`. Returns the match: its trees, its
    /// end, and the position of its furthest failure. Positions are in bytes. If several rules have
    /// the name, the last one is run.
    ///
    /// A run takes at most `limit` steps, and `None` means no limit, as in `run_block`.
    /// `Stop::OutOfSteps` is not returned if three things are true. No rule uses the stack. The
    /// rule has an outcome. The turns of the limit are more than `most_turns` of the code and the
    /// text.
    ///
    /// # Errors
    /// - `BlockStop::NoRule` if no rule has the name.
    /// - `BlockStop::NoMatch` if the rule fails.
    /// - `BlockStop::Stopped` if the run is stopped, as in `run_block`.
    /// - `BlockStop::Flaw` if the bytes of the block are no block of this version.
    pub fn match_text(
        &self,
        alloc: Global,
        rule: &str,
        text: &str,
        limit: Option<u64>,
    ) -> Result<ParseTree, BlockStop>
        ensures matched { (g : Grammar) → IsCompiledOf g self.now
            → IfOk result (HasParseTree g (chars rule.now) (start_of text.now) is_in_property) }
        ensures refused { (g : Grammar) → IsCompiledOf g self.now
            → IfErr result (IsRefusedBy g rule.now text.now (steps_of limit)) }
        ensures answered { (g : Grammar) → IsCompiledOf g self.now
            → IsAmple g (operations_of self.now) (length text.now) (turns_of limit)
            → (o : Outcome) → Has g (chars rule.now) text.now is_in_property o
            → result ≢ Err (BlockStop.Stopped Stop.OutOfSteps) }
    {
        let number = match self.find_rule(rule) {
            Ok(number) => number,
            Err(stop) => return Err(stop),
        };
        let start = Span::of(text, 0, 0).start_pos();
        run_block(alloc, self.block, number, start, limit)
    }

    /// Returns the names of the rules that are expected at the byte `place` when `rule` is run on
    /// `text`, as by `match_text`. A name is in the list once, in the order in which the rules are
    /// first called at `place`. The run takes at most `steps` steps.
    ///
    /// # Errors
    /// Those of `match_text`, except for `BlockStop::NoMatch`: a rule that fails has expected
    /// names, too. `Stop::Memory` also if there are more than 65,535 names.
    pub fn expected_at(
        &self,
        alloc: Global,
        rule: &str,
        text: &str,
        place: usize,
        steps: u64,
    ) -> Result<Vec<&str>, BlockStop>
        ensures expected { (g : Grammar) → IsCompiledOf g self.entry.now
            → IfOk result (λ names. AreExpectedIn g rule.entry.now text.entry.now place names.items) }
        ensures refused { (g : Grammar) → IsCompiledOf g self.entry.now
            → IfErr result (IsUnanswered g rule.entry.now text.entry.now steps) }
    {
        let number = match self.find_rule(rule) {
            Ok(number) => number,
            Err(stop) => return Err(stop),
        };
        let start = Span::of(text, 0, 0).start_pos();
        match expected_block(alloc, self.block, number, start, place, steps) {
            Ok(rules) => match names_of(alloc, &self.names, &rules) {
                Ok(names) => Ok(names),
                Err(_) => Err(BlockStop::Stopped(Stop::Memory)),
            },
            Err(stop) => Err(stop),
        }
    }

    /// Returns the rules that an error of pest names if the rule named `rule` fails on `text`. The
    /// result also has the position of that error, in bytes. The byte `place` is the first position
    /// to try: give the position in `BlockStop::NoMatch`. There are at most three runs, as in
    /// `attempts_block`, and a run takes at most `steps` steps.
    ///
    /// # Errors
    /// Those of `expected_at`. `Stop::Memory` also if more than 65,535 rules are expected, or are
    /// not expected.
    pub fn attempts(
        &self,
        alloc: Global,
        rule: &str,
        text: &str,
        place: usize,
        steps: u64,
    ) -> Result<NamedAttempts<'_>, BlockStop>
        ensures attempts { (g : Grammar) → IsCompiledOf g self.entry.now
            → IfOk result (AreAttemptsIn g rule.entry.now text.entry.now) }
        ensures refused { (g : Grammar) → IsCompiledOf g self.entry.now
            → IfErr result (IsUnanswered g rule.entry.now text.entry.now steps) }
    {
        let number = match self.find_rule(rule) {
            Ok(number) => number,
            Err(stop) => return Err(stop),
        };
        let start = Span::of(text, 0, 0).start_pos();
        match attempts_block(alloc, self.block, number, start, place, steps) {
            Ok(attempts) => match name_attempts(alloc, self.rule_names(), &attempts) {
                Ok(named) => Ok(named),
                Err(_) => Err(BlockStop::Stopped(Stop::Memory)),
            },
            Err(stop) => Err(stop),
        }
    }

    /// Returns the calls that are open at the byte `place` when a rule of `expected_at` is expected
    /// there, as `paths_block` does. A list is a path: the outermost call first, and the expected
    /// one last. No path is returned twice. A call has the index of its rule, and its start in
    /// bytes. The run takes at most `steps` steps.
    ///
    /// # Errors
    /// Those of `expected_at`. `Stop::Memory` also if there are more than 1,024 lists.
    pub fn failure_paths(
        &self,
        alloc: Global,
        rule: &str,
        text: &str,
        place: usize,
        steps: u64,
    ) -> Result<Vec<Vec<OpenCall>>, BlockStop>
        ensures paths { (g : Grammar) → IsCompiledOf g self.now
            → IfOk result (λ paths. ArePathsIn g rule.now text.now place paths.items) }
        ensures refused { (g : Grammar) → IsCompiledOf g self.now
            → IfErr result (IsUnanswered g rule.now text.now steps) }
    {
        let number = match self.find_rule(rule) {
            Ok(number) => number,
            Err(stop) => return Err(stop),
        };
        let start = Span::of(text, 0, 0).start_pos();
        match paths_block(alloc, self.block, number, start, place, steps) {
            Ok(paths) => Ok(paths),
            Err(stop) => Err(stop),
        }
    }

    /// Begins a walk over the trees of the match `found`, which `match_text` of this grammar
    /// returned.
    pub fn walk<'m, 't>(&'m self, alloc: Global, found: &'t ParseTree) -> TreeWalk<'m, 't>
        ensures { (g : Grammar) → IsCompiledOf g self.entry.now → (n : Text) (s : State) (classes : Classes)
            → (x : HasParseTree g n s classes found.entry.now)
            → visits_left result ≡ visits (number_in g) 0 0 x.trees }
    {
        walk_names(alloc, &self.names, found)
    }
}

/// Returns the names of the rules of `block` in order, or `None` if a name is not UTF-8.
///
/// # Errors
/// `AllocError` if an allocation fails, or if there are 2^32 rules or more.
fn read_names<'b>(alloc: Global, block: &'b [u8]) -> Result<Option<Vec<&'b str>>, AllocError>
    ensures { IfOk result (λ made. (rules : List OptimizedRule) → IsCompiled rules block.entry.now
        → IsSomeAnd made (λ names. AreNamesOf (optimized_rules_of rules) names.items)) }
{
    let Ok(count) = u32::try_from(rule_count(block)) else {
        return Err(AllocError);
    };
    let mut names = Vec::new(alloc);
    for number in 0..count {
        let Ok(name) = str::from_utf8(rule_name(block, number)) else {
            return Ok(None);
        };
        names.push(name)?;
    }
    Ok(Some(names))
}

/// Returns the index of the last rule named `name`. `names` has the names of all rules in order.
fn last_number(names: &[&str], name: &str) -> Option<usize>
    ensures { (g : Grammar) → AreNamesOf g names.now → result ≡ last_place g (chars name.now) }
{
    let mut below = names.len();
    while below > 0 {
        below -= 1;
        if same(names[below], name) {
            return Some(below);
        }
    }
    None
}

/// Returns the names with the indices `rules` in `names`. The only error is an allocation failure.
pub(crate) fn names_of<'m>(
    alloc: Global,
    names: &'m [&'m str],
    rules: &[u32],
) -> Result<Vec<&'m str>, AllocError>
    ensures { IfOk result (λ found. (g : Grammar) → AreNamesOf g names.entry.now → (ns : List Text)
        → rules.entry.now ≡ map (number_in g) ns → HaveNumbers g ns → name_texts found.items ≡ ns) }
{
    let mut found = Vec::with_capacity(alloc, rules.len())?;
    for rule in rules {
        found.push(text_name(names, *rule))?;
    }
    Ok(found)
}
