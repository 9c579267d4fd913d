//! The operator and operands of a tree, defined once for each type of tree. Generic algorithms use them.
mod copying;

ghost use Rattle.std.specs.Prelude.{◌≡◌, ◌+◌, ◌*◌, ◌≤◌, ◌<◌, ℕ, IfOk};
ghost use Rattle.base_ast.specs.Shapes.{heaviness_of, meaning_of, LeafIs};

pub use copying::{copy_box, copy_tree};
use std::alloc::AllocError;

/// The operator between two operands.
#[derive(Drop)]
pub enum Joint {
    /// One after another.
    Sequence,
    /// The first, or the second if that fails.
    Choice,
}

/// A destructured tree.
#[derive(Drop)]
pub enum Shape<L, S, J, O> {
    /// A tree without operands.
    Leaf(L),
    /// The operator over one operand, and the operand.
    One(S, O),
    /// The operator between two operands, the left one and the right one.
    Two(J, O, O),
}

/// Trees that can be destructured and rebuilt.
pub trait Shaped: Drop {
    /// Operators over one operand.
    type Sign: Drop;
    /// Operators between two operands.
    type Joint: Drop;

    // the meaning of trees, and of operands in them
    ghost Meaning: { Type 0 };

    ghost says: { Self → Meaning };

    ghost around: { Self.Sign → Meaning → Meaning };

    ghost between: { Self.Joint → Meaning → Meaning → Meaning };

    // that a tree has no operands
    ghost is_bare: { Self → Type 0 };

    // how large a tree is; left sides count double
    ghost heaviness: { Self → ℕ };

    /// Destructures the tree without allocating. A tree without operands is kept whole.
    fn open(self) -> Shape<Self, Self::Sign, Self::Joint, Box<Self>>
        ensures meaning { meaning_of says (λ operand. says operand.value) around between result ≡ says self }
        ensures lighter { heaviness_of (λ operand. heaviness operand.value) result < heaviness self }
        ensures bare { LeafIs is_bare result };

    /// Returns the shape of the tree, with its operands borrowed and copies of all else. The only error is
    /// allocation failure.
    fn shape<'a>(
        &'a self,
    ) -> Result<Shape<Self, Self::Sign, Self::Joint, &'a Box<Self>>, AllocError>
        ensures meaning { IfOk result (λ shape.
            meaning_of says (λ operand. says operand.now.value) around between shape ≡ says self.entry.now) }
        ensures lighter { IfOk result (λ shape.
            heaviness_of (λ operand. heaviness operand.now.value) shape < heaviness self.entry.now) };

    /// Rebuilds a tree from an operator and its operand.
    fn enclose(sign: Self::Sign, operand: Box<Self>) -> Self
        ensures { says result ≡ around sign (says operand.value) };

    /// Rebuilds a tree from an operator and its two operands.
    fn join(joint: Self::Joint, left: Box<Self>, right: Box<Self>) -> Self
        ensures { says result ≡ between joint (says left.value) (says right.value) };

    /// Takes a tree out of its box, and leaves one without operands there.
    fn take(place: &mut Box<Self>) -> Self
        ensures { result ≡ place.old.value };

    /// Chains two trees as the operands of one.
    fn chain(first: Box<Self>, second: Box<Self>) -> Self
        ensures { heaviness result ≤ 2 * heaviness first.value + heaviness second.value + 1 };
}

/// Drops a tree iteratively, without allocating.
pub fn release_tree<T: Shaped>(tree: T) {
    let mut rest = tree;
    'parts: loop {
        match rest.open() {
            Shape::Leaf(leaf) => {
                drop(leaf);
                return;
            }
            Shape::One(sign, operand) => {
                drop(sign);
                rest = Box::into_inner(operand);
            }
            Shape::Two(joint, left, right) => {
                drop(joint);
                rest = drop_left_operator(left, right);
            }
        }
    }
}

/// Drops the operator on the left of two sides, or all of the left side, and chains the rest.
fn drop_left_operator<T: Shaped>(mut left: Box<T>, right: Box<T>) -> T
    ensures { T.heaviness result < 2 * T.heaviness left.value + T.heaviness right.value + 1 }
{
    match T::take(&mut left).open() {
        Shape::Leaf(leaf) => {
            drop(leaf);
            Box::into_inner(right)
        }
        Shape::One(sign, operand) => {
            drop(sign);
            T::chain(operand, right)
        }
        Shape::Two(joint, first, second) => {
            drop(joint);
            let _ = Box::replace(&mut left, T::chain(second, right));
            T::chain(first, left)
        }
    }
}
