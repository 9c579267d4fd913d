//! The rules of the meta-grammar, and the trees that a text spells for one of them.
ghost use Rattle.std.specs.Prelude.{◌≡◌, alloc_error, IfErr, IfOk, MatchResult};
ghost use Rattle.std.specs.Str.{IsCharBoundary};
ghost use Rattle.base_language.specs.Pieces.Pairs.{pairs_text};
ghost use Rattle.front_syntax.specs.TokenEvents.{IsWhole, named_events};
ghost use Rattle.front_syntax.specs.ExpectedRules.{AreExpected, ExpectsNothing};
ghost use Rattle.front_syntax.specs.Nodes.{AreSpelledNodes};
ghost use Rattle.front_nodes.specs.Forests.{forest_text};
ghost use Rattle.front_syntax.specs.Parses.{AreSpelled, AreTokensOf, IsSpelled, IsSyntaxError, IsSyntaxErrorOrMemory, ParseRefuses};

pub use crate::events::TokenEvent;
use crate::events::write_events;
use crate::expecting::rules_in_order;
use crate::trees::{build_trees, with_rules};
pub use base_language::grammar::Rule;
use base_language::runtime::{Error, ErrorVariant, Fault, Pairs, Position};
use front_code::runs::{RuleRun, parse_rule, run_rule};
use front_nodes::forest::Forest;
use matcher_code::state::TreeNode;
use std::alloc::{AllocError, Global};

/// The parser of the meta-grammar.
#[derive(Clone, Copy, Debug, PartialEq, Eq)]
pub struct PestParser;

impl PestParser {
    /// Parses `text` by the rule `rule` of the meta-grammar, from position 0. Returns the pairs.
    ///
    /// The rule is matched by docs/SPEC.md, in NonAtomic and with the empty stack. If the rule does not ask
    /// for `EOI`, the match may end before the end of the text. `Rule::EOI` gives one pair from 0 to 0 on
    /// the empty text, and fails at 0 on any other text.
    ///
    /// # Errors
    /// - `Fault::Grammar` with one `ParsingError` if the rule fails. Its position, in bytes, is the
    ///   furthest at which a counted call failed, in any branch. Calls of `EOI` and of rules that give a
    ///   token count, in any mode except Atomic. If there is none, the position is 0.
    /// - `Fault::Memory` if an allocation fails, or if `text` has 2^32 bytes or more.
    pub fn parse(alloc: Global, rule: Rule, text: &str) -> Result<Pairs<'_, Rule>, Fault>
        ensures text { IfOk result (λ pairs. pairs_text pairs ≡ text.entry.now) }
        ensures spelled { MatchResult result (AreSpelled rule) (ParseRefuses rule text.entry.now) }
    {
        let nodes = match_nodes(alloc, rule, text)?;
        let trees = build_trees(alloc, &nodes)?;
        Ok(Pairs::new(text, trees))
    }

    /// Returns the trees that the text spells for a rule. The errors are those of `parse`.
    pub fn forest(alloc: Global, rule: Rule, text: &str) -> Result<Forest<'_>, Fault>
        ensures text { IfOk result (λ forest. forest_text forest ≡ text.entry.now) }
        ensures spelled { MatchResult result (IsSpelled rule) (ParseRefuses rule text.entry.now) }
    {
        let nodes = match_nodes(alloc, rule, text)?;
        let trees = with_rules(alloc, &nodes)?;
        Ok(Forest::new(text, trees))
    }

    /// Parses `text` by the rule `rule`, as `parse`. Returns the trees as one flat list, in text order: an
    /// event for the start of each tree and one for its end, each with the index of the other. Positions
    /// are in bytes.
    ///
    /// # Errors
    /// Those of `parse`.
    pub fn tokens(alloc: Global, rule: Rule, text: &str) -> Result<Vec<TokenEvent>, Fault>
        ensures trees { MatchResult result
            (λ v. AreTokensOf rule text.now v.items) (ParseRefuses rule text.now) }
        ensures whole { IfOk result (λ v. IsWhole 0 (named_events v.items)) }
    {
        let nodes = match_nodes(alloc, rule, text)?;
        Ok(write_events(alloc, &nodes)?)
    }

    /// Returns the rules that were expected at the position of the error of `parse`, each once, in the
    /// order of the meta-grammar, with `EOI` first.
    ///
    /// A rule is expected there if a call of it began there and failed. The call gives a token, its mode is
    /// not Atomic, and it is neither below a `!` nor inside another such call. The list is empty if `parse`
    /// succeeds, or if every failure at that position is below a `!`.
    ///
    /// A text that fails is read twice, any other text once. So call this only if `parse` has refused the
    /// text.
    ///
    /// # Errors
    /// `AllocError` if an allocation fails, or if `text` has 2^32 bytes or more.
    pub fn expected_set(alloc: Global, rule: Rule, text: &str) -> Result<Vec<Rule>, AllocError>
        ensures nothing { IfOk result (λ rules. ExpectsNothing rule text.now rules.items) }
        ensures expected { IfOk result (λ rules. AreExpected rule text.now rules.items) }
    {
        let run = parse_rule(alloc, rule, text)?;
        match run.end {
            Some(_) => Ok(Vec::new(alloc)),
            None => {
                let failed = run_rule(alloc, rule, text, run.furthest)?;
                rules_in_order(alloc, &failed.names)
            }
        }
    }
}

/// Returns the nodes of the trees that the text spells for a rule, or the errors of `parse`.
fn match_nodes(alloc: Global, rule: Rule, text: &str) -> Result<Vec<TreeNode>, Fault>
    ensures { MatchResult result
        (λ nodes. AreSpelledNodes rule text.now nodes.items) (ParseRefuses rule text.now) }
{
    let RuleRun {
        end,
        trees,
        furthest,
        names: _,
    } = parse_rule(alloc, rule, text)?;
    match end {
        Some(_) => Ok(trees),
        None => Err(syntax_error(alloc, text, furthest)),
    }
}

/// Returns the fault of a text with one syntax error, at a byte position on a character boundary; or the
/// allocation failure of it.
fn syntax_error(alloc: Global, text: &str, place: usize) -> Fault
    requires { IsCharBoundary text.now place }
    ensures { IsSyntaxErrorOrMemory text.now place result }
{
    match syntax_errors(alloc, text, place) {
        Ok(errors) => Fault::Grammar(errors),
        Err(fault) => fault,
    }
}

/// Returns a list of one syntax error at a byte position.
fn syntax_errors(alloc: Global, text: &str, place: usize) -> Result<Vec<Error<Rule>>, Fault>
    requires { IsCharBoundary text.now place }
    ensures one { IfOk result (λ errors. IsSyntaxError text.now place errors.items) }
    ensures memory { IfErr result (λ fault. fault ≡ Fault.Memory alloc_error) }
{
    let position = Position::new(text, place).unwrap();
    let error = Error::new_from_pos(alloc, ErrorVariant::ParsingError, position)?;
    Ok(vec![in alloc; error]?)
}
