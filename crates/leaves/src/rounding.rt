// Document 01: the indicator Δ = 2^(32-b), the modulus 2^b, and a word in multiples of Δ, rounded, the lower one on a tie.
ghost use Rattle.std.specs.Prelude.{◌≡◌};
ghost use Rattle.leaves.specs.Rounding.{indicator_of, modulus_of, rounded};

use super::limits;

// Δ = 2^(32-b). No u32 is that for b 0 or above 32: 0 then, and no Option: the clause with `indicator_of` has it, and C's.
pub fn calculate_query_indicator(b: u32) -> u32
    ensures { result ≡ indicator_of b }
{
    if limits::out_of(1, 32, b as usize) {
        return 0;
    }
    1 << (32 - b)
}

// 2^b. No u32 is that from b 32 on: 0 then, and no Option: the clause with `modulus_of` has it. It is of any b, which
// `Width`'s is not.
pub fn modulus(b: u32) -> u32
    ensures { result ≡ modulus_of b }
{
    1u32.checked_shl(b).unwrap_or(0)
}

// The quotient by Δ, one more exactly when the remainder exceeds Δ/2, modulo 2^b. Where b is 0 there is one residue alone;
// from 32 on Δ is 1, and a word is its own multiple.
pub fn rounded(b: u32, u: u32) -> u32
    ensures { result ≡ rounded b u }
{
    if b == 0 {
        return 0;
    }
    if 32 <= b {
        return u;
    }
    let delta = calculate_query_indicator(b);
    let quotient = u / delta;
    if delta / 2 < u % delta {
        return (quotient + 1) % modulus(b);
    }
    quotient % modulus(b)
}
