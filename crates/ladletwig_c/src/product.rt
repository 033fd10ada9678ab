// Document 01, "Packed product", as C links it.
ghost use Rattle.std.specs.Prelude.{◌≡◌};
ghost use Rattle.arith.specs.Product.{factors, product_number, product_after};

use abi_arith::product;

#[unsafe(no_mangle)]
pub extern "C" fn ladletwig_row_vector_x_compressed_transposed_matrix(
    b: u32,
    vector: &[u32],
    rows: usize,
    k: usize,
    words: &[u32],
    out: &mut [u32],
) -> u32
    ensures value { result ≡ product_number (factors b rows k vector.now words.now out.old) }
    ensures out_after { out.new ≡ product_after (factors b rows k vector.now words.now out.old) }
{
    product::ladletwig_row_vector_x_compressed_transposed_matrix(b, vector, rows, k, words, out)
}
