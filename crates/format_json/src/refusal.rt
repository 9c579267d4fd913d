//! The refusal of a text that is not read as rules, or as the name of one.
ghost use Rattle.std.specs.Prelude.{◌≡◌, IfOk, string_bytes};
ghost use Rattle.serde_json.specs.View.{view};
ghost use Rattle.serde_json.specs.Written.{compact_text};
ghost use Rattle.format_json.specs.declared.refusal.Refusal.TheVariants.{Memory};
ghost use Rattle.format_json.specs.declared.refusal.Unread.TheVariants as unread_is;
ghost use Rattle.format_json.specs.Refusals.{at_node, in_rule, message_data, message_of, refusal_data};

use crate::members::{put_size, put_text};
use serde_json::{Map, Value};
use std::alloc::{AllocError, AllocFailed, Global};

/// The reason of a refusal.
#[derive(Clone, Copy, Debug, PartialEq, Eq)]
pub enum RefusalReason {
    /// The text is no JSON.
    Json,
    /// The value is no list.
    NoList,
    /// A rule's `name` is missing, or no text.
    Name,
    /// A rule's `type` is missing, or none of the five.
    Type,
    /// A rule's `expr` is missing, or no list.
    Body,
    /// A node is no list that begins with a text.
    Node,
    /// A node's form is unknown, does not occur in rules of this kind, or has other arguments.
    Form,
    /// A node has too few operands after it.
    Operands,
    /// There are more nodes after an expression than belong to it.
    Left,
    /// No rule of the meta-grammar has this name.
    UnknownRule,
}

impl RefusalReason {
    /// Returns the message of a reason.
    pub fn message(self) -> &'static str
        ensures { result.now ≡ message_of self }
    {
        match self {
            RefusalReason::Json => "this is no JSON",
            RefusalReason::NoList => "a list of rules is wanted",
            RefusalReason::Name => "a rule's `name` has to be a text",
            RefusalReason::Type => "a rule's `type` has to be one of the five types",
            RefusalReason::Body => "a rule's `expr` has to be a list of nodes",
            RefusalReason::Node => "a node is a list that begins with the name of its form",
            RefusalReason::Form => "no node here has this form with these arguments",
            RefusalReason::Operands => "an operand of this node is missing",
            RefusalReason::Left => "there are more nodes than the expression has",
            RefusalReason::UnknownRule => "no rule of the meta-grammar has this name",
        }
    }
}

/// The location of a reason.
#[derive(Clone, Copy, Debug, PartialEq, Eq)]
pub enum RefusalLocation {
    /// A line and a column of the text.
    Text(usize, usize),
    /// The whole text.
    Whole,
    /// The rule of that number, counted from 0.
    Rule(usize),
    /// The node of the second number in the rule of the first, both counted from 0.
    Node(usize, usize),
}

/// The refusal of a text that is not read as rules.
#[derive(Debug, Drop)]
pub enum Refusal {
    /// An allocation failed.
    Memory,
    /// The text is at fault.
    Text(RefusalLocation, RefusalReason),
}

impl From<AllocError> for Refusal {
    ghost from_gives = { λ _ refusal. refusal ≡ Memory };

    fn from(_refused: AllocError) -> Refusal {
        Refusal::Memory
    }
}

/// The refusal of a part of a value.
#[derive(Drop)]
pub(crate) enum Unread {
    Memory,
    Reason(RefusalReason),
    /// A reason at the node of that number.
    At(usize, RefusalReason),
}

impl From<AllocError> for Unread {
    ghost from_gives = { λ _ unread. unread ≡ unread_is.Memory };

    fn from(_refused: AllocError) -> Unread {
        Unread::Memory
    }
}

impl<T: Drop> From<AllocFailed<T>> for Unread {
    ghost from_gives = { λ _ unread. unread ≡ unread_is.Memory };

    fn from(_refused: AllocFailed<T>) -> Unread {
        Unread::Memory
    }
}

impl Unread {
    /// Adds the number of the node to a reason without one.
    pub(crate) fn at_node(self, node: usize) -> Unread
        ensures { result ≡ at_node self node }
    {
        match self {
            Unread::Reason(why) => Unread::At(node, why),
            other => other,
        }
    }

    /// Returns the refusal of a text, with the number of the rule.
    pub(crate) fn in_rule(self, rule: usize) -> Refusal
        ensures { result ≡ in_rule self rule }
    {
        match self {
            Unread::Memory => Refusal::Memory,
            Unread::Reason(why) => Refusal::Text(RefusalLocation::Rule(rule), why),
            Unread::At(node, why) => Refusal::Text(RefusalLocation::Node(rule, node), why),
        }
    }
}

/// Returns a refusal's location and message as JSON. The only error is an allocation failure.
#[tactic(auto, using(crate::proofs::Floats::refusal_without_floats))]
pub fn refusal_text(
    alloc: Global,
    place: RefusalLocation,
    why: RefusalReason,
) -> Result<String, AllocError>
    ensures { IfOk result (λ text. string_bytes text ≡ compact_text (refusal_data place why)) }
{
    refusal_value(alloc, place, why.message())?.to_string(alloc)
}

/// Returns a refusal's location and message as a value.
fn refusal_value(alloc: Global, place: RefusalLocation, message: &str) -> Result<Value, AllocError>
    ensures { IfOk result (λ value. view value ≡ message_data place message.now) }
{
    let mut members = Map::new(alloc);
    put_text(alloc, &mut members, "message", message)?;
    match place {
        RefusalLocation::Text(line, column) => {
            put_size(alloc, &mut members, "column", column)?;
            put_size(alloc, &mut members, "line", line)?;
            Ok(Value::Object(members))
        }
        RefusalLocation::Whole => Ok(Value::Object(members)),
        RefusalLocation::Rule(rule) => {
            put_size(alloc, &mut members, "rule", rule)?;
            Ok(Value::Object(members))
        }
        RefusalLocation::Node(rule, node) => {
            put_size(alloc, &mut members, "node", node)?;
            put_size(alloc, &mut members, "rule", rule)?;
            Ok(Value::Object(members))
        }
    }
}
