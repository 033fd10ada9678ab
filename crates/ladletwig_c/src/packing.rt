// Document 01, "Packing", as C links it.
ghost use Rattle.std.specs.Prelude.{◌≡◌, length};
ghost use Rattle.arith.specs.Packing.{compress_number, compress_after, decompress_number, decompress_after};

use abi_arith::packing;

#[unsafe(no_mangle)]
pub extern "C" fn ladletwig_row_wise_compress(
    b: u32,
    rows: usize,
    k: usize,
    words: &[u32],
    out: &mut [u32],
) -> u32
    ensures value { result ≡ compress_number b rows k (length words.now) (length out.old) }
    ensures out_after { out.new ≡ compress_after b rows k words.now out.old }
{
    packing::ladletwig_row_wise_compress(b, rows, k, words, out)
}

#[unsafe(no_mangle)]
pub extern "C" fn ladletwig_row_wise_decompress(
    b: u32,
    rows: usize,
    k: usize,
    words: &[u32],
    out: &mut [u32],
) -> u32
    ensures value { result ≡ decompress_number b rows k (length words.now) (length out.old) }
    ensures out_after { out.new ≡ decompress_after b rows k words.now out.old }
{
    packing::ladletwig_row_wise_decompress(b, rows, k, words, out)
}
