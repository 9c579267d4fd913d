//! The passes over rules, which make them simpler to run with the same outcomes.
#![tactic(auto)]

mod bodies;
mod concatenator;
mod converted;
mod counts;
mod factorizer;
mod joined;
mod lister;
mod pairs;
mod passes;
mod rotator;
mod skipper;
mod strings;
mod traversal;
mod unroller;
mod written;

pub use base_ast::optimized::{
    OptimizedExpr, OptimizedExprTopDownIterator, OptimizedRule, release,
};
pub use base_language::runtime::Fault;
pub use concatenator::concatenate;
pub use counts::counts_are_readable;
pub use factorizer::factor;
pub use front_restorer::{child_modifies_state, restore_on_err};
pub use lister::list;
pub use passes::optimize;
pub use rotator::rotate;
pub use skipper::skip;
pub use unroller::unroll;
pub use written::unroll_rules;
