//! Lists of ranges of characters.
ghost use Rattle.std.specs.Prelude.{◌≡◌, true};
ghost use Rattle.matcher_code.specs.Ranges.{AreSorted};

/// Ranges of numbers of characters, both ends of each among them.
pub type Ranges = Vec<(u32, u32)>;

/// Ranges that a program looks characters up in.
#[derive(Drop)]
pub struct RangeList {
    pub ranges: Ranges,
    /// Whether from one range to the next no end falls.
    pub is_sorted: bool,
    ghost sorted: { is_sorted ≡ true → AreSorted ranges.items },
}

/// Returns whether from one range to the next no end falls.
fn are_sorted(ranges: &[(u32, u32)]) -> bool
    ensures { result ≡ true → AreSorted ranges.now }
{
    for index in 1..ranges.len() {
        let (low, high) = ranges[index - 1];
        let (next_low, next_high) = ranges[index];
        if next_low < low || next_high < high {
            return false;
        }
    }
    true
}

impl RangeList {
    /// Returns the list of some ranges.
    pub(crate) fn new(ranges: Ranges) -> RangeList
        ensures { result.ranges ≡ ranges }
    {
        let is_sorted = are_sorted(&ranges);
        RangeList { ranges, is_sorted }
    }
}
