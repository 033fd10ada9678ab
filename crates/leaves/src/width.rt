// Document 01, "Numbers we allow": b, the width of an element, once it is known to be 4 to 14 bits. Modulus and indicator of any b
// are `rounding`'s.
ghost use Rattle.std.specs.Prelude.{◌≡◌, ◌≤◌, ◌-◌, ◌^◌, true, false, MatchOption};
ghost use Rattle.laws.specs.Refusals.{width_bad};

use super::{limits, rounding};

#[derive(Clone, Copy, Debug, PartialEq, Eq)]
pub struct Width {
    pub bits: u32,
    pub ghost least: { 4 ≤ bits },
    pub ghost most: { bits ≤ 14 },
}

impl Width {
    // 1: none, where b is outside 4..=14.
    pub fn new(b: u32) -> Option<Width>
        ensures { MatchOption result (width_bad b ≡ true) (λ w. (w.bits ≡ b) × (width_bad b ≡ false)) }
    {
        if limits::width_bad(b) {
            return None;
        }
        Some(Width { bits: b })
    }

    // 2^b.
    #[tactic(auto, unfolding(crate::specs::Rounding::modulus_of))]
    pub fn modulus(self) -> u32
        ensures { result ≡ 2 ^ self.bits }
    {
        rounding::modulus(self.bits)
    }

    // 2^b - 1, the greatest element.
    pub fn greatest(self) -> u32
        ensures { result ≡ 2 ^ self.bits - 1 }
    {
        self.modulus() - 1
    }

    // Δ.
    #[tactic(auto, unfolding(crate::specs::Rounding::indicator_of))]
    pub fn delta(self) -> u32
        ensures { result ≡ 2 ^ (32 - self.bits) }
    {
        rounding::calculate_query_indicator(self.bits)
    }
}
