//! Laws of the derived clone and `==` of `RuleType`, on the ghost members of the derived impls, which the
//! derived methods are proved to answer. The other types of this crate have impls written by hand, with a
//! contract.
ghost use Rattle.std.specs.Prelude.{◌≡◌, ◌↔◌, IsTrue};

use crate::ast::RuleType;

/// A clone of a type of rules is that type, and is never refused.
pub fn clones_of_rule_types()
    ensures copies { (a b : RuleType) → ⟦<RuleType as Clone>⟧.is_clone a b → b ≡ a }
    ensures infallible { (ty : RuleType) → ⟦<RuleType as Clone>⟧.is_infallible ty }
{}

/// Two types of rules are equal if they are one variant.
pub fn equality_of_rule_types()
    ensures { (a b : RuleType) → IsTrue (⟦<RuleType as PartialEq>⟧.eq a b) ↔ (a ≡ b) }
{}
