// Document 01, Δ and the rounding of a reply, as C links it.
ghost use Rattle.std.specs.Prelude.{◌≡◌};
ghost use Rattle.leaves.specs.Rounding.{indicator_of, rounded};

use abi_plain::rounding;

#[unsafe(no_mangle)]
pub extern "C" fn ladletwig_calculate_query_indicator(b: u32) -> u32
    ensures { result ≡ indicator_of b }
{
    rounding::ladletwig_calculate_query_indicator(b)
}

#[unsafe(no_mangle)]
pub extern "C" fn ladletwig_rounded(b: u32, u: u32) -> u32
    ensures { result ≡ rounded b u }
{
    rounding::ladletwig_rounded(b, u)
}
