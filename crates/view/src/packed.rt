// Document 01: "The packed matrix goes about as one view: its words, rows, columns and b." Columns are the unpacked ones.
// The work and every refusal are `arith`'s, on plain parameters.
ghost use Rattle.std.specs.Prelude.{◌≡◌, length};
ghost use Rattle.arith.specs.Packing.{decompress_number, decompress_after};
ghost use Rattle.answers.specs.Packing.{packing_number};
ghost use Rattle.arith.specs.Product.{factors, product_number, product_after};
ghost use Rattle.view.specs.Packed.{viewed, factors_with};

use arith::packing::PackingRefusal;
use arith::{packing, product};

#[derive(Clone, Copy)]
pub struct PackedMatrix<'a> {
    pub words: &'a [u32],
    pub rows: usize,
    pub columns: usize,
    pub b: u32,
}

// The view of lent words. Nothing is tested here: each function over a view tests all of it.
pub fn view<'a>(b: u32, rows: usize, columns: usize, words: &'a [u32]) -> PackedMatrix<'a>
    ensures { result ≡ viewed b rows columns words.entry }
{
    PackedMatrix {
        words,
        rows,
        columns,
        b,
    }
}

// The product: the view taken apart.
pub fn multiply<'a>(
    vector: &[u32],
    matrix: PackedMatrix<'a>,
    out: &mut [u32],
) -> Result<(), PackingRefusal>
    ensures number { packing_number result ≡ product_number (factors_with vector.now matrix.entry out.old) }
    ensures out_after { out.new ≡ product_after (factors_with vector.now matrix.entry out.old) }
{
    product::row_vector_x_compressed_transposed_matrix(
        matrix.b,
        vector,
        matrix.rows,
        matrix.columns,
        matrix.words,
        out,
    )
}

// The same for callers that hold no view: public, with this signature (DECISIONS 10).
pub fn times(
    b: u32,
    vector: &[u32],
    rows: usize,
    columns: usize,
    words: &[u32],
    out: &mut [u32],
) -> Result<(), PackingRefusal>
    ensures number { packing_number result ≡ product_number (factors b rows columns vector.now words.now out.old) }
    ensures out_after { out.new ≡ product_after (factors b rows columns vector.now words.now out.old) }
{
    let matrix = view(b, rows, columns, words);
    multiply(vector, matrix, out)
}

// The unpacked elements, row after row.
pub fn unpack<'a>(matrix: PackedMatrix<'a>, out: &mut [u32]) -> Result<(), PackingRefusal>
    ensures number { packing_number result ≡ decompress_number matrix.entry.b matrix.entry.rows matrix.entry.columns (length matrix.entry.words.now) (length out.old) }
    ensures out_after { out.new ≡ decompress_after matrix.entry.b matrix.entry.rows matrix.entry.columns matrix.entry.words.now out.old }
{
    packing::row_wise_decompress(matrix.b, matrix.rows, matrix.columns, matrix.words, out)
}
