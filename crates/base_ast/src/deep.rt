//! Values that may be very deep or wide, dropped iteratively wherever they go out of scope.
//!
//! A value of nested boxes that goes out of scope is dropped recursively, and can overflow the stack. So a
//! function keeps such a value in a [`Deep`] while an allocation can fail.
ghost use Rattle.std.specs.Prelude.{◌≡◌, ◌∷◌, ◌++◌, [], IfOk, OnErr, OnOk};

use std::alloc::{AllocError, Global};
use std::collections::HashMap;
use std::hash::Hash;

/// Values that can be dropped iteratively.
pub trait Release: Drop {
    /// Drops the value iteratively, without allocating.
    fn release(self);
}

impl<T> Release for &T {
    fn release(self) {}
}

impl<T: Release> Release for Box<T> {
    fn release(self) {
        Box::into_inner(self).release();
    }
}

impl<T: Release> Release for Vec<T> {
    fn release(self) {
        for item in self {
            item.release();
        }
    }
}

impl<K: Drop + Eq + Hash, V: Release> Release for HashMap<K, V> {
    fn release(self) {
        for (_, value) in self {
            value.release();
        }
    }
}

/// A value that is dropped iteratively wherever it goes out of scope.
pub struct Deep<T: Release> {
    /// The value itself.
    pub value: T,
}

impl<T: Release> Drop for Deep<T> {
    fn drop(self) {
        let Deep { value } = self;
        value.release();
    }
}

impl<T: Release> Deep<T> {
    /// Unwraps the value.
    pub fn into_inner(self) -> T
        ensures { result ≡ self.value }
    {
        let Deep { value } = self;
        value
    }

    /// Moves the value into a box. If the allocation fails, the value is dropped.
    pub fn into_box(self, alloc: Global) -> Result<Deep<Box<T>>, AllocError>
        ensures { IfOk result (λ boxed. boxed.value.value ≡ self.value) }
    {
        match Box::new(alloc, self.into_inner()) {
            Ok(value) => Ok(Deep { value }),
            Err(refused) => {
                refused.value.release();
                Err(AllocError)
            }
        }
    }
}

impl<T: Release> Deep<Vec<T>> {
    /// Pushes `item`. If the allocation fails, `item` is dropped and the list is unchanged.
    pub fn push(&mut self, item: Deep<T>) -> Result<(), AllocError>
        ensures pushed { OnOk result (self.new.value.items ≡ self.old.value.items ++ (item.value ∷ [])) }
        ensures unchanged { OnErr result (self.new.value.items ≡ self.old.value.items) }
    {
        match self.value.push(item.into_inner()) {
            Ok(()) => Ok(()),
            Err(refused) => {
                refused.value.release();
                Err(AllocError)
            }
        }
    }
}
