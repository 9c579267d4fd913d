//! Sets of a plan.
ghost use Rattle.std.specs.Prelude.{◌≡◌, IfSome, true};
ghost use Rattle.matcher_code.specs.declared.code.Code.{Code};
ghost use Rattle.matcher_compiler.specs.Sets.{AreKnownIn, IsKnownIn};

use matcher_code::ranges::Ranges;

/// The number of keys of sets that are told apart.
pub(crate) const KEYS: usize = 256;

/// A set of the characters in some ranges, and its number.
#[derive(Drop)]
pub struct KnownSet {
    pub(crate) ranges: Ranges,
    pub(crate) number: u32,
}

/// Returns a number that is the same for the same ranges. Most other ranges have another one.
pub(crate) fn key_of(ranges: &Ranges) -> u32 {
    match ranges.as_slice() {
        [(low, high), .., (last, _)] => low.wrapping_mul(31).wrapping_add(*high)
            ^ last.rotate_left(16),
        [(low, high)] => low.wrapping_mul(31).wrapping_add(*high),
        [] => 0,
    }
}

/// Returns whether two lists have the same ranges.
fn is_same(one: &Ranges, other: &Ranges) -> bool
    ensures { result ≡ true → one.now.items ≡ other.now.items }
{
    *one == *other
}

/// Returns the index of the place of a key, below `KEYS`.
fn place_of(key: u32) -> usize {
    (key.wrapping_mul(0x9e37_79b1) >> 24) as usize
}

/// Sets the index of the last known set with a key.
pub(crate) fn set_place(places: &mut Vec<u32>, key: u32, index: usize) {
    if let Some(place) = places.get_mut(place_of(key)) {
        *place = (index & 0xffff_ffff) as u32;
    }
}

/// Returns the number of the set of the characters in some ranges, if it is known. `places` has for each key
/// the index of the last known set with that key, or of no set.
pub(crate) fn known_set(known: &[KnownSet], places: &[u32], ranges: &Ranges) -> Option<u32>
    ensures { IfSome result (λ number. (sets : Code) → AreKnownIn sets known.now
        → IsKnownIn sets number ranges.now.items) }
{
    let place = match places.get(place_of(key_of(ranges))) {
        Some(place) => *place,
        None => return None,
    };
    let set = match known.get(place as usize) {
        Some(set) => set,
        None => return None,
    };
    if is_same(&set.ranges, ranges) {
        Some(set.number)
    } else {
        None
    }
}
