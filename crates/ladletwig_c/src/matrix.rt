// Document 01, the plain product and the transpose, as C links it.
ghost use Rattle.std.specs.Prelude.{◌≡◌, length};
ghost use Rattle.plain.specs.Matrix.{times_number, times_after, transpose_number, transpose_after};

use abi_plain::matrix;

#[unsafe(no_mangle)]
pub extern "C" fn ladletwig_plain_product(
    r: usize,
    m: usize,
    c: usize,
    left: &[u32],
    right: &[u32],
    out: &mut [u32],
) -> u32
    ensures value { result ≡ times_number r m c (length left.now) (length right.now) (length out.old) }
    ensures out_after { out.new ≡ times_after r m c left.now right.now out.old }
{
    matrix::ladletwig_plain_product(r, m, c, left, right, out)
}

#[unsafe(no_mangle)]
pub extern "C" fn ladletwig_transpose(r: usize, c: usize, words: &[u32], out: &mut [u32]) -> u32
    ensures value { result ≡ transpose_number r c (length words.now) (length out.old) }
    ensures out_after { out.new ≡ transpose_after r c words.now out.old }
{
    matrix::ladletwig_transpose(r, c, words, out)
}
