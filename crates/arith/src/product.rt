// Document 01, "Packed product": a vector times the transpose of a packed matrix, unpacked on the way.
ghost use Rattle.std.specs.Prelude.{◌≡◌, ◌*◌, ◌≤◌, length};
ghost use Rattle.laws.specs.Lists.{laid};
ghost use Rattle.arith.specs.Packing.{factor_of, slot_bits, words_of};
ghost use Rattle.answers.specs.Packing.{packing_number};
ghost use Rattle.arith.specs.Product.{slot_sum, entry_of, product, operands_bad, factors, product_number, product_after};

use super::packing;
use super::packing::PackingRefusal;
use leaves::width::Width;
use leaves::words;

// The elements of `part` times the slots of one word (the walk of `pack_word`). A slot that `part` does not reach doesn't
// count.
fn word_sum(width: Width, word: u32, part: &[u32]) -> u32
    requires { length part.now ≤ factor_of width.bits }
    ensures { result ≡ slot_sum width.bits (slot_bits width.bits) word part.now }
{
    let low = width.greatest();
    let slot = packing::slot_bits(width.bits);
    let mut acc: u32 = 0;
    let mut shift = 0;
    for x in part {
        acc = acc.wrapping_add(words::wrapping_mul(*x, (word >> shift) & low));
        shift += slot;
    }
    acc
}

// The vector times one packed row: each part of it beside its word.
fn row_sum(width: Width, vector: &[u32], words: &[u32]) -> u32
    requires { length words.now ≡ words_of width.bits (length vector.now) }
    ensures { result ≡ entry_of width.bits vector.now words.now }
{
    let mut acc: u32 = 0;
    for (part, word) in vector.chunks(packing::factor(width.bits)).zip(words) {
        acc = acc.wrapping_add(word_sum(width, *word, part));
    }
    acc
}

// Row after row: the row's part of the packed words, from row times width on, goes to the inner sum, as 01 has it.
fn row_sums(width: Width, vector: &[u32], rows: usize, words: &[u32], out: &mut [u32])
    requires words_len { length words.now ≡ rows * words_of width.bits (length vector.now) }
    requires rows_in_bounds { rows ≤ length out.old }
    ensures { out.new ≡ laid (product width.bits rows vector.now words.now) out.old }
{
    let n = packing::words_of(width.bits, vector.len());
    for j in 0..rows {
        let start = j * n;
        out[j] = row_sum(width, vector, &words[start..start + n]);
    }
}

// 2, by the lengths alone, before anything is known to fit: a vector whose length is not k, or rows of `width` packed words
// that don't fit, one sum from each.
#[tactic(auto, unfolding(crate::specs::Product::operands_bad))]
fn operands_bad(
    rows: usize,
    k: usize,
    width: usize,
    vector: usize,
    lent: usize,
    room: usize,
) -> bool
    requires { width ≤ k }
    ensures { result ≡ operands_bad rows k width vector lent room }
{
    vector != k || packing::shape_bad(rows, k, width, 1, lent, room)
}

// The sum of products of the vector with each row of a packed matrix, row after row, into the start of `out`. The parameters
// are the C interface's.
pub fn row_vector_x_compressed_transposed_matrix(
    b: u32,
    vector: &[u32],
    rows: usize,
    k: usize,
    words: &[u32],
    out: &mut [u32],
) -> Result<(), PackingRefusal>
    ensures number { packing_number result ≡ product_number (factors b rows k vector.now words.now out.old) }
    ensures out_after { out.new ≡ product_after (factors b rows k vector.now words.now out.old) }
{
    let packed = packing::words_of(b, k);
    let shape = operands_bad(rows, k, packed, vector.len(), words.len(), out.len());
    let width = packing::check(b, shape)?;
    row_sums(width, vector, rows, words, out);
    Ok(())
}
