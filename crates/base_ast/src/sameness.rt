//! Equality of trees, iteratively with a worklist, and recursively if there is no memory for it.
ghost use Rattle.std.specs.Prelude.{◌≡◌, ◌+◌, ◌<◌, ◌≤◌, ◌&&◌, Bool, IfOk};
ghost use Rattle.base_ast.specs.Sameness.{are_equal, heaviness_left, heaviness_of_all, is_same};

use crate::shape::Shaped;
use std::alloc::{AllocError, Global};

/// Two trees that are to be compared.
#[derive(Drop)]
pub struct Both<'a, T> {
    pub first: &'a Box<T>,
    pub second: &'a Box<T>,
}

/// The comparisons that remain between two trees.
#[derive(Drop)]
pub enum Comparison<'a, T> {
    /// Nothing: this is the answer.
    Nothing(bool),
    /// Their operands, and the answer on all else.
    One(Both<'a, T>, bool),
    /// Their operands, if all else is equal.
    Two(Both<'a, T>, Both<'a, T>),
}

/// Trees that are compared.
pub trait TreeEq: Shaped {
    ghost is_equal: { Self → Self → Bool };

    /// Compares two trees except their operands, and returns the comparisons that remain.
    fn compare_roots<'a>(&'a self, other: &'a Self) -> Comparison<'a, Self>
        ensures same { is_same is_equal result ≡ is_equal self.entry.now other.entry.now }
        ensures work { heaviness_left Self.heaviness result < Self.heaviness self.entry.now };
}

/// Whether two trees are equal.
pub fn equal<T: TreeEq>(a: &T, b: &T) -> bool
    ensures { result ≡ T.is_equal a.now b.now }
{
    are_same(&a.compare_roots(b))
}

/// Whether the remaining comparisons hold, iteratively; recursively if memory is refused.
pub fn are_same<T: TreeEq>(left: &Comparison<'_, T>) -> bool
    ensures { result ≡ is_same T.is_equal left.now }
{
    let alloc = match left {
        Comparison::Nothing(answer) => return *answer,
        Comparison::One(both, _) | Comparison::Two(both, _) => *Box::allocator(both.first),
    };
    match same_iteratively(alloc, left) {
        Ok(answer) => answer,
        Err(_) => same_recursively(left),
    }
}

/// Whether the remaining comparisons hold, iteratively. The only error is allocation failure.
#[tactic(auto, using(crate::proofs::Pairs::lighter))]
fn same_iteratively<T: TreeEq>(alloc: Global, left: &Comparison<'_, T>) -> Result<bool, AllocError>
    ensures { IfOk result (λ answer. answer ≡ is_same T.is_equal left.now) }
{
    let mut others = Vec::new(alloc);
    let mut is_equal = put(left, &mut others)?;
    'both: while is_equal {
        let Some(both) = others.pop() else {
            return Ok(true);
        };
        let inside = T::compare_roots(both.first, both.second);
        is_equal = put(&inside, &mut others)?;
    }
    Ok(false)
}

/// Pushes the remaining comparisons, and answers all else. The only error is allocation failure.
fn put<'a, T: TreeEq>(
    left: &Comparison<'a, T>,
    others: &mut Vec<Both<'a, T>>,
) -> Result<bool, AllocError>
    ensures same { IfOk result (λ answer. (answer && are_equal T.is_equal others.new.items)
        ≡ (is_same T.is_equal left.now && are_equal T.is_equal others.old.items)) }
    ensures work { IfOk result (λ _. heaviness_of_all T.heaviness others.new.items
        ≤ heaviness_left T.heaviness left.now + heaviness_of_all T.heaviness others.old.items) }
{
    match left {
        Comparison::Nothing(answer) => Ok(*answer),
        Comparison::One(both, answer) => {
            others.push(Both {
                first: both.first,
                second: both.second,
            })?;
            Ok(*answer)
        }
        Comparison::Two(left, right) => {
            others.push(Both {
                first: right.first,
                second: right.second,
            })?;
            others.push(Both {
                first: left.first,
                second: left.second,
            })?;
            Ok(true)
        }
    }
}

/// Whether the remaining comparisons hold, recursively.
fn same_recursively<T: TreeEq>(left: &Comparison<'_, T>) -> bool
    ensures { result ≡ is_same T.is_equal left.now }
{
    match left {
        Comparison::Nothing(answer) => *answer,
        Comparison::One(both, answer) => {
            *answer && same_recursively(&T::compare_roots(both.first, both.second))
        }
        Comparison::Two(left, right) => {
            same_recursively(&T::compare_roots(left.first, left.second))
                && same_recursively(&T::compare_roots(right.first, right.second))
        }
    }
}
