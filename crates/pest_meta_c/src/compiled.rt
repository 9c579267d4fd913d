//! Compiled grammars: blocks that are made once, borrowed by each run, and freed by the caller.
ghost use Rattle.std.specs.Prelude.{◌≡◌, ◌≢◌, ◌⊎◌, Err, IfNone, IfSome, List, Some, length, ℕ};
ghost use Rattle.std.specs.Borrow.{Bor};
ghost use Rattle.std.specs.Str.{IsUtf8};
ghost use Rattle.base_ast.specs.Optimized.{optimized_rules_of};
ghost use Rattle.base_ast.specs.declared.optimized.OptimizedRule.{OptimizedRule};
ghost use Rattle.format_binary.specs.Format.{optimized_rules_bytes};
ghost use Rattle.format_binary.specs.Fronts.{AreOfNoRules};
ghost use Rattle.base_language.specs.Pieces.Span.{position_offset, position_text};
ghost use Rattle.matcher_code.specs.declared.state.TreeNode.{TreeNode};
ghost use Rattle.matcher_engine.specs.Blocks.{HasFlaw, IsBlockOf, IsWhole, operations_in};
ghost use Rattle.matcher_engine.specs.Limits.{IsAmple, steps_of, turns_of};
ghost use Rattle.base_language.specs.Language.Expression.{Grammar, last_place};
ghost use Rattle.base_language.specs.Language.State.{Classes, Outcome};
ghost use Rattle.base_language.specs.Language.Text.{Text};
ghost use Rattle.matcher_program.specs.Answers.{HasAt, state_at};
ghost use Rattle.matcher_support.specs.Sets.{is_in_property};
ghost use Rattle.matcher_terminals.specs.Exposed.{exposed};
ghost use Rattle.pest_meta_c.specs.Compiled.{AreAttemptsTold, ArePathsTold, AreTold, AreUnfit, HasStart, IsBlockStatus, IsCompiled, IsRefusalTold, IsTold, Tells, limit_in, state_from, status_of};
ghost use Rattle.pest_meta.specs.Spelling.{HasRefusal, IsAnswer};

use crate::paths::{PathCall, list_calls};
use base_ast::deep::Deep;
use base_ast::optimized::OptimizedRule;
use base_language::runtime::{Fault, Position};
use format_binary::{BinaryRefusal, read_optimized_rules};
use matcher_code::state::TreeNode;
use matcher_engine::block::{
    BlockFlaw, BlockStop, attempts_block, check_block, compile_block, expected_block, paths_block,
    run_block,
};
use matcher_engine::matcher::ParseTree;
use matcher_program::answers::Stop;
use matcher_program::compile::Unfit;
use matcher_support::unicode_properties::UnicodeProperties;
use matcher_terminals::exposed::expose_terminals;
use std::alloc::Global;

/// The call is answered.
const ANSWERED: u8 = 0;
/// The rule fails, or the grammar has errors.
const REFUSED: u8 = 1;
/// An allocation failed.
const MEMORY: u8 = 2;
/// An input is not UTF-8, or a place is not before a character.
const NO_TEXT: u8 = 3;
/// The bytes are no rules, or no block.
const NO_RULES: u8 = 5;
/// The rules cannot be run.
const UNFIT: u8 = 6;
/// No rule has the number.
const NO_RULE: u8 = 7;
/// The run takes more steps than it may.
const OUT_OF_STEPS: u8 = 8;
/// The stack was empty for `PEEK` or `POP`.
const EMPTY_STACK: u8 = 9;
/// The text has 4 GiB or more.
const LONG_TEXT: u8 = 10;
/// The bytes are a block of another version.
const OTHER_VERSION: u8 = 11;
/// The bytes are a block that was changed.
const CHANGED: u8 = 12;

/// Hands out items, which the caller frees if there are any.
pub(crate) fn hand_out<'a, T: Drop>(items: Vec<T>) -> &'a [T]
    ensures { result.now ≡ items.items }
{
    if items.is_empty() {
        return &[];
    }
    items.leak()
}

/// Returns a place of a text, if the bytes are a text and the place is before a character or at the end.
fn start_in(text: &[u8], from: usize) -> Option<Position<'_>>
    ensures state { IfSome result (λ start. state_at start ≡ state_from text.entry.now from) }
    ensures text { IfSome result (λ start. position_text start ≡ text.entry.now) }
    ensures place { IfSome result (λ start. position_offset start ≡ from) }
    ensures some { IfSome result (λ start. HasStart text.entry.now from) }
    ensures none { IfNone result (HasStart text.entry.now from → ⊥) }
{
    match str::from_utf8(text) {
        Ok(text) => Position::new(text, from),
        Err(_) => None,
    }
}

/// Reports a block that gives no match: the place of a failure, and the status.
fn tell_stop(stop: BlockStop, end: &mut usize) -> u8
    ensures told { (nodes : List TreeNode) → Tells (Err stop) nodes end.new result }
    ensures refused { result ≢ 0 }
    ensures status { result ≡ status_of stop }
    ensures unchanged { result ≢ 1 → end.new ≡ end.old }
{
    match stop {
        BlockStop::NoMatch(place) => {
            *end = place;
            REFUSED
        }
        BlockStop::Stopped(Stop::Memory) => MEMORY,
        BlockStop::Flaw(BlockFlaw::NoBlock) => NO_RULES,
        BlockStop::NoRule => NO_RULE,
        BlockStop::Stopped(Stop::OutOfSteps) => OUT_OF_STEPS,
        BlockStop::Stopped(Stop::EmptyStack) => EMPTY_STACK,
        BlockStop::Stopped(Stop::TextTooLong) => LONG_TEXT,
        BlockStop::Flaw(BlockFlaw::OtherVersion) => OTHER_VERSION,
        BlockStop::Flaw(BlockFlaw::Changed) => CHANGED,
    }
}

/// Returns the status of a block that gives no answer.
fn stop_status(stop: BlockStop) -> u8
    ensures refused { result ≢ 0 }
    ensures status { result ≡ status_of stop }
{
    let mut end = 0;
    tell_stop(stop, &mut end)
}

/// Hands out the nodes of a match, and its end, or reports why there is none.
fn tell_match<'a>(
    outcome: Result<ParseTree, BlockStop>,
    nodes: &mut &'a [TreeNode],
    end: &mut usize,
) -> u8
    ensures told { Tells outcome nodes.new.now end.new result }
    ensures text { result ≢ 3 }
    ensures unchanged { result ≢ 0 → nodes.new ≡ nodes.old }
    ensures end { result ≢ 0 → result ≢ 1 → end.new ≡ end.old }
{
    match outcome {
        Ok(found) => {
            let ParseTree {
                trees,
                end: place,
                ..
            } = found;
            *nodes = hand_out(trees);
            *end = place;
            ANSWERED
        }
        Err(stop) => tell_stop(stop, end),
    }
}

/// Hands out the block of optimized rules, and returns the status.
fn put_block<'a>(alloc: Global, rules: &[OptimizedRule], block: &mut &'a [u8]) -> u8
    ensures compiled { result ≡ 0 → IsCompiled rules.now is_in_property block.new.now }
    ensures unfit { result ≡ 6 → AreUnfit (optimized_rules_of rules.now) }
    ensures known { IsBlockStatus result }
    ensures unchanged { result ≢ 0 → block.new ≡ block.old }
{
    match compile_block(alloc, rules, &UnicodeProperties) {
        Ok(bytes) => {
            *block = hand_out(bytes);
            ANSWERED
        }
        Err(Unfit::Memory) => MEMORY,
        Err(Unfit::UnknownName(_) | Unfit::Bound(_)) => UNFIT,
    }
}

/// Hands out the block of the grammar that a text spells.
#[unsafe(no_mangle)]
pub extern "C" fn pest_meta_compile<'a>(alloc: Global, grammar: &[u8], block: &mut &'a [u8]) -> u8
    ensures compiled { result ≡ 0 → (builtins : List (Bor (List ℕ))) × (rules : List OptimizedRule)
        × IsAnswer grammar.now builtins rules × IsCompiled rules is_in_property block.new.now }
    ensures refused { result ≡ 1 → HasRefusal grammar.now }
    ensures no_text { result ≡ 3 → IsUtf8 grammar.now → ⊥ }
    ensures unfit { result ≡ 6 → (builtins : List (Bor (List ℕ))) × (rules : List OptimizedRule)
        × IsAnswer grammar.now builtins rules × AreUnfit (optimized_rules_of rules) }
    ensures known { IsBlockStatus result ⊎ ((result ≡ 1) ⊎ (result ≡ 3)) }
    ensures unchanged { result ≢ 0 → block.new ≡ block.old }
{
    let Ok(text) = str::from_utf8(grammar) else {
        return NO_TEXT;
    };
    match pest_meta::parse_and_optimize(alloc, text) {
        Ok((_, rules)) => {
            let rules = Deep { value: rules };
            put_block(alloc, &rules.value, block)
        }
        Err(Fault::Memory(_)) => MEMORY,
        Err(Fault::Grammar(_)) => REFUSED,
    }
}

/// Hands out the block of the exposed rules of the grammar that a text spells: each terminal in their bodies
/// is a rule of its own, whose name is a number, `#`, and the terminal as a grammar has it. The names that
/// `pest_meta_expected` and `pest_meta_attempts` find by this block are those of terminals that a text was
/// missing.
#[unsafe(no_mangle)]
pub extern "C" fn pest_meta_compile_exposed<'a>(
    alloc: Global,
    grammar: &[u8],
    block: &mut &'a [u8],
) -> u8
    ensures compiled { result ≡ 0 → (builtins : List (Bor (List ℕ))) × (rules : List OptimizedRule)
        × IsAnswer grammar.now builtins rules × (made : List OptimizedRule)
        × (optimized_rules_of made ≡ exposed (optimized_rules_of rules))
        × IsCompiled made is_in_property block.new.now }
    ensures refused { result ≡ 1 → HasRefusal grammar.now }
    ensures no_text { result ≡ 3 → IsUtf8 grammar.now → ⊥ }
    ensures unfit { result ≡ 6 → (builtins : List (Bor (List ℕ))) × (rules : List OptimizedRule)
        × IsAnswer grammar.now builtins rules × AreUnfit (exposed (optimized_rules_of rules)) }
    ensures known { IsBlockStatus result ⊎ ((result ≡ 1) ⊎ (result ≡ 3)) }
    ensures unchanged { result ≢ 0 → block.new ≡ block.old }
{
    let Ok(text) = str::from_utf8(grammar) else {
        return NO_TEXT;
    };
    match pest_meta::parse_and_optimize(alloc, text) {
        Ok((_, rules)) => put_exposed(alloc, Deep { value: rules }, block),
        Err(Fault::Memory(_)) => MEMORY,
        Err(Fault::Grammar(_)) => REFUSED,
    }
}

/// Hands out the block of the exposed rules of optimized rules, and returns the status.
fn put_exposed<'a>(alloc: Global, rules: Deep<Vec<OptimizedRule>>, block: &mut &'a [u8]) -> u8
    ensures compiled { result ≡ 0 → (made : List OptimizedRule)
        × (optimized_rules_of made ≡ exposed (optimized_rules_of rules.value.items))
        × IsCompiled made is_in_property block.new.now }
    ensures unfit { result ≡ 6 → AreUnfit (exposed (optimized_rules_of rules.value.items)) }
    ensures known { IsBlockStatus result }
    ensures unchanged { result ≢ 0 → block.new ≡ block.old }
{
    match expose_terminals(alloc, &rules.value) {
        Ok(exposed) => put_block(alloc, &exposed.value, block),
        Err(_) => MEMORY,
    }
}

/// Hands out the block of optimized rules in binary form.
#[unsafe(no_mangle)]
pub extern "C" fn pest_meta_compile_prepared<'a>(
    alloc: Global,
    rules: &[u8],
    block: &mut &'a [u8],
) -> u8
    ensures compiled { result ≡ 0 → (read : List OptimizedRule) × (rules.now ≡ optimized_rules_bytes read)
        × IsCompiled read is_in_property block.new.now }
    ensures no_rules { result ≡ 5 → AreOfNoRules rules.now }
    ensures unfit { result ≡ 6 → (read : List OptimizedRule) × (rules.now ≡ optimized_rules_bytes read)
        × AreUnfit (optimized_rules_of read) }
    ensures known { IsBlockStatus result ⊎ (result ≡ 5) }
    ensures unchanged { result ≢ 0 → block.new ≡ block.old }
{
    match read_optimized_rules(alloc, rules) {
        Ok(rules) => {
            let rules = Deep { value: rules };
            put_block(alloc, &rules.value, block)
        }
        Err(BinaryRefusal::Memory) => MEMORY,
        Err(BinaryRefusal::Form) => NO_RULES,
    }
}

/// Checks that bytes are a block of this version, as it was made.
#[unsafe(no_mangle)]
pub extern "C" fn pest_meta_check(block: &[u8]) -> u8
    ensures whole { result ≡ 0 → IsWhole block.now }
    ensures no_block { result ≡ 5 → HasFlaw block.now BlockFlaw.NoBlock }
    ensures other_version { result ≡ 11 → HasFlaw block.now BlockFlaw.OtherVersion }
    ensures changed { result ≡ 12 → HasFlaw block.now BlockFlaw.Changed }
    ensures known { ((result ≡ 0) ⊎ (result ≡ 5)) ⊎ ((result ≡ 11) ⊎ (result ≡ 12)) }
{
    match check_block(block) {
        Ok(()) => ANSWERED,
        Err(BlockFlaw::NoBlock) => NO_RULES,
        Err(BlockFlaw::OtherVersion) => OTHER_VERSION,
        Err(BlockFlaw::Changed) => CHANGED,
    }
}

/// Returns the limit that a number of steps stands for: none, if it is the greatest number.
fn limit_in(steps: u64) -> Option<u64>
    ensures { result ≡ limit_in steps }
{
    if steps == u64::MAX { None } else { Some(steps) }
}

/// Runs the rule with the number `rule` from the byte `from` of `text` on. If it matches, the caller gets the
/// nodes, and `end` is the end of the match; if it fails, `end` is the furthest position of a failure. Each
/// run takes at most `steps` steps; `u64::MAX` means no limit. If no rule uses the stack, the rule has an
/// outcome, and the turns of the limit are more than `most_turns`, the status is not 8.
#[unsafe(no_mangle)]
pub extern "C" fn pest_meta_run<'a>(
    alloc: Global,
    block: &[u8],
    rule: u32,
    text: &[u8],
    from: usize,
    steps: u64,
    nodes: &mut &'a [TreeNode],
    end: &mut usize,
) -> u8
    ensures told { result ≢ 3 → IsTold block.now rule text.now from (steps_of (limit_in steps)) nodes.new.now
        end.new result }
    ensures answered { (g : Grammar) (classes : Classes) → IsBlockOf g classes block.now
        → (n : Text) → last_place g n ≡ Some rule
        → IsAmple g (operations_in block.now) (length text.now) (turns_of (limit_in steps))
        → (o : Outcome) → HasAt g n (state_from text.now from) classes o → result ≢ 8 }
    ensures start { result ≢ 3 → HasStart text.now from }
    ensures no_start { result ≡ 3 → HasStart text.now from → ⊥ }
    ensures unchanged { result ≢ 0 → nodes.new ≡ nodes.old }
    ensures end { result ≢ 0 → result ≢ 1 → end.new ≡ end.old }
{
    let Some(start) = start_in(text, from) else {
        return NO_TEXT;
    };
    let outcome = run_block(alloc, block, rule, start, limit_in(steps));
    tell_match(outcome, nodes, end)
}

/// Hands out the numbers of the rules that are expected at a place, in a run as by `pest_meta_run`.
#[unsafe(no_mangle)]
pub extern "C" fn pest_meta_expected<'a>(
    alloc: Global,
    block: &[u8],
    rule: u32,
    text: &[u8],
    from: usize,
    place: usize,
    steps: u64,
    rules: &mut &'a [u32],
) -> u8
    ensures expected { result ≡ 0 → AreTold block.now rule text.now from place steps rules.new.now }
    ensures refused { result ≢ 0 → result ≢ 3 → IsRefusalTold block.now rule text.now from steps result }
    ensures start { result ≢ 3 → HasStart text.now from }
    ensures no_start { result ≡ 3 → HasStart text.now from → ⊥ }
    ensures unchanged { result ≢ 0 → rules.new ≡ rules.old }
{
    let Some(start) = start_in(text, from) else {
        return NO_TEXT;
    };
    match expected_block(alloc, block, rule, start, place, steps) {
        Ok(numbers) => {
            *rules = hand_out(numbers);
            ANSWERED
        }
        Err(stop) => stop_status(stop),
    }
}

/// Returns the calls that are open at the rules of `pest_meta_expected`, path by path. The caller owns the
/// list.
#[unsafe(no_mangle)]
pub extern "C" fn pest_meta_paths<'a>(
    alloc: Global,
    block: &[u8],
    rule: u32,
    text: &[u8],
    from: usize,
    place: usize,
    steps: u64,
    calls: &mut &'a [PathCall],
) -> u8
    ensures paths { result ≡ 0 → ArePathsTold block.now rule text.now from place steps calls.new.now }
    ensures refused { result ≢ 0 → result ≢ 3 → IsRefusalTold block.now rule text.now from steps result }
    ensures start { result ≢ 3 → HasStart text.now from }
    ensures no_start { result ≡ 3 → HasStart text.now from → ⊥ }
    ensures unchanged { result ≢ 0 → calls.new ≡ calls.old }
{
    let Some(start) = start_in(text, from) else {
        return NO_TEXT;
    };
    match paths_block(alloc, block, rule, start, place, steps) {
        Ok(paths) => match list_calls(alloc, paths.as_slice()) {
            Ok(list) => {
                *calls = hand_out(list);
                ANSWERED
            }
            Err(_) => MEMORY,
        },
        Err(stop) => stop_status(stop),
    }
}

/// Returns the indexes of the rules that pest's error names if `pest_meta_run` fails: those that are
/// expected, and those that are not. The caller owns both lists. `place` is the first position to try, and
/// becomes the position of that error.
#[unsafe(no_mangle)]
pub extern "C" fn pest_meta_attempts<'a>(
    alloc: Global,
    block: &[u8],
    rule: u32,
    text: &[u8],
    from: usize,
    steps: u64,
    place: &mut usize,
    positives: &mut &'a [u32],
    negatives: &mut &'a [u32],
) -> u8
    ensures attempts { result ≡ 0
        → AreAttemptsTold block.now rule text.now from place.new positives.new.now negatives.new.now }
    ensures refused { result ≢ 0 → result ≢ 3 → IsRefusalTold block.now rule text.now from steps result }
    ensures start { result ≢ 3 → HasStart text.now from }
    ensures no_start { result ≡ 3 → HasStart text.now from → ⊥ }
    ensures place { result ≢ 0 → place.new ≡ place.old }
    ensures positives { result ≢ 0 → positives.new ≡ positives.old }
    ensures negatives { result ≢ 0 → negatives.new ≡ negatives.old }
{
    let Some(start) = start_in(text, from) else {
        return NO_TEXT;
    };
    match attempts_block(alloc, block, rule, start, *place, steps) {
        Ok(attempts) => {
            *place = attempts.place;
            *positives = hand_out(attempts.positives);
            *negatives = hand_out(attempts.negatives);
            ANSWERED
        }
        Err(stop) => stop_status(stop),
    }
}
