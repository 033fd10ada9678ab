// Words and bytes: lent ones wiped or copied, and the product of two words. The crates above go through these, so that each has
// its contract, and its wrong programs, in one place.
ghost use Rattle.std.specs.Prelude.{◌≡◌};
ghost use Rattle.leaves.specs.Words.{zeroed, copied, times_word};

// Zeros, whatever the words held.
pub fn zero(words: &mut [u32])
    ensures { words.new ≡ zeroed words.old }
{
    words.fill(0);
}

// Writes `from` into the start of `out`. Where it is longer than that, `out` stays as it is. (By places: with the library's
// `copy_from_slice` the archive would need memmove, and include/ladletwig.h says that it calls nothing but memcpy and memset.)
pub fn copy<T: Copy>(from: &[T], out: &mut [T])
    ensures { out.new ≡ copied from.now out.old }
{
    if from.len() <= out.len() {
        for (i, x) in from.iter().enumerate() {
            out[i] = *x;
        }
    }
}

// The low 32 bits of a product.
pub fn wrapping_mul(x: u32, y: u32) -> u32
    ensures { result ≡ times_word x y }
{
    x.wrapping_mul(y)
}
