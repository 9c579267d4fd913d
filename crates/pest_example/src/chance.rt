//! Pseudorandom numbers.
ghost use Rattle.std.specs.Prelude.{◌≢◌, ◌<◌};

/// A generator of pseudorandom numbers by xorshift. The same seed gives the same numbers.
#[derive(Clone, Copy)]
pub struct Chance {
    state: u64,
}

impl Chance {
    /// Returns the generator with the seed `seed`.
    pub fn new(seed: u64) -> Chance {
        Chance {
            state: seed.wrapping_mul(0x9e37_79b9_7f4a_7c15) | 1,
        }
    }

    /// Returns the next pseudorandom number, which is less than `bound`. If `bound` is 0, it is 0.
    pub fn below(&mut self, bound: u32) -> u32
        ensures { bound ≢ 0 → result < bound }
    {
        let mut state = self.state;
        state ^= state << 13;
        state ^= state >> 7;
        state ^= state << 17;
        self.state = state;
        if bound == 0 {
            return 0;
        }
        u32::try_from(state >> 33).unwrap_or(0) % bound
    }

    /// Returns another generator, which gives other numbers than this one.
    pub fn split(&mut self) -> Chance {
        Chance::new(self.below(u32::MAX) as u64)
    }
}
