// Document 01, "Numbers we allow": I, the sampler's interval, once it is known that it is at least 1 and that 3I fits in a
// word. (A type of its own beside `Width`: one over const bounds would name both bounds at each use, and have no place for
// `Width`'s methods.)
ghost use Rattle.std.specs.Prelude.{◌≡◌, ◌≤◌, true, false, MatchOption};
ghost use Rattle.laws.specs.Refusals.{outside};

use super::limits;

#[derive(Clone, Copy, Debug, PartialEq, Eq)]
pub struct Interval {
    pub value: u32,
    pub ghost least: { 1 ≤ value },
    pub ghost most: { value ≤ 1431655765 },
}

impl Interval {
    // 4: none, where I is outside its range.
    pub fn new(interval: u32) -> Option<Interval>
        ensures { MatchOption result (outside 1 1431655765 interval ≡ true)
            (λ i. (i.value ≡ interval) × (outside 1 1431655765 interval ≡ false)) }
    {
        if limits::out_of(1, limits::INTERVAL_MOST, interval as usize) {
            return None;
        }
        Some(Interval { value: interval })
    }
}
