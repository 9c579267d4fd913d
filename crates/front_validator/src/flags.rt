//! A sparse set of flags: unsetting all of them takes time by how many were set.
ghost use Rattle.std.specs.Prelude.{◌≡◌, ◌<◌, IfOk, OnOk, length, slice_set, true};
ghost use Rattle.base_graphs.specs.Least.{is_set_at};
ghost use Rattle.front_validator.specs.Flags.{AreOnlySet, NoneSet};

use base_graphs::is_set;
use std::alloc::{AllocError, Global};

/// Flags by number, and the numbers of those that were set.
#[derive(Drop)]
pub struct Flags {
    pub all: Vec<bool>,
    members: Vec<usize>,
    pub ghost known: { AreOnlySet members.items all.items },
}

/// Unsets these flags, outside which none is set.
fn unset(all: &mut [bool], noted: &[usize])
    requires known { AreOnlySet noted.now all.old }
    ensures none { NoneSet all.new }
    ensures long { length all.new ≡ length all.old }
{
    for place in noted {
        if *place < all.len() {
            all[*place] = false;
        }
    }
}

impl Flags {
    /// Makes `count` flags, none of which is set.
    pub(crate) fn new(alloc: Global, count: usize) -> Result<Flags, AllocError>
        ensures long { IfOk result (λ flags. length flags.all.items ≡ count) }
        ensures none { IfOk result (λ flags. NoneSet flags.all.items) }
    {
        let all = vec![in alloc; false; count]?;
        Ok(Flags {
            all,
            members: Vec::new(alloc),
        })
    }

    /// Reports whether a flag is set.
    pub(crate) fn is_set(&self, place: usize) -> bool
        ensures { result ≡ is_set_at self.now.all.items place }
    {
        is_set(self.all.as_slice(), place)
    }

    /// Sets a flag.
    pub(crate) fn set(&mut self, place: usize) -> Result<(), AllocError>
        requires { place < self.old.all.len }
        ensures { OnOk result (self.new.all.items ≡ slice_set self.old.all.items place true) }
    {
        self.members.push(place)?;
        self.all[place] = true;
        Ok(())
    }

    /// Unsets all flags.
    pub(crate) fn unset_all(&mut self)
        ensures none { NoneSet self.new.all.items }
        ensures long { length self.new.all.items ≡ length self.old.all.items }
    {
        unset(&mut self.all, &self.members);
        self.members.clear();
    }
}
