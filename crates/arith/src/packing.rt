// Document 01, "Packing": elements of b bits, two, three or four to a word.
ghost use Rattle.std.specs.Prelude.{◌≡◌, ℕ, List, ◌+◌, ◌*◌, ◌<◌, ◌≤◌, [], ◌∷◌, length, IfOk};
ghost use Rattle.laws.specs.Refusals.{first, ◌⇒◌, width_bad};
ghost use Rattle.laws.specs.Lists.{laid, join, row};
ghost use Rattle.arith.specs.Packing.{factor_of, slot_bits, words_of, word_of, pack_row, unpack_row, slots};
ghost use Rattle.arith.specs.Packing.{packing_shape_bad, compress_number, compress_after, decompress_number, decompress_after};
ghost use Rattle.answers.specs.Refusal.{number_of};
ghost use Rattle.answers.specs.Packing.{packing_number, packing_refusal};

pub use answers::packing::PackingRefusal;
use leaves::limits;
use leaves::width::Width;

// 1, then 2: the order that document 01 gives to packing, unpacking and the packed product.
pub(crate) fn check(b: u32, shape_bad: bool) -> Result<Width, PackingRefusal>
    ensures number { number_of packing_refusal result ≡ first (width_bad b ⇒ 1 ∷ shape_bad ⇒ 2 ∷ []) }
    ensures width { IfOk result (λ w. w.bits ≡ b) }
{
    let width = Width::new(b).ok_or(PackingRefusal::Width)?;
    if shape_bad {
        return Err(PackingRefusal::Shape);
    }
    Ok(width)
}

// 2, by the lengths alone, before anything is known to fit: rows of k elements, lent as rows of `from` words and written as
// rows of `to`. (`from` and `to` are at most k, or 1 for the product's sums, so that neither multiplication overflows.)
#[tactic(auto, unfolding(crate::specs::Packing::packing_shape_bad))]
pub(crate) fn shape_bad(
    rows: usize,
    k: usize,
    from: usize,
    to: usize,
    lent: usize,
    room: usize,
) -> bool
    requires { (from ≤ k + 1) × (to ≤ k + 1) }
    ensures { result ≡ packing_shape_bad rows k from to lent room }
{
    limits::out_of(1, limits::COLUMNS_MOST, rows)
        || limits::out_of(1, limits::ROWS_MOST, k)
        || lent != rows * from
        || room < rows * to
}

// Slots in a word. (This and the bits of one are two definitions of 01, each with its name.)
#[tactic(auto, unfolding(crate::specs::Packing::factor_of))]
pub(crate) fn factor(b: u32) -> usize
    ensures value { result ≡ factor_of b }
    ensures some { 0 < result }
{
    match b {
        0..=8 => 4,
        9..=10 => 3,
        _ => 2,
    }
}

// Bits in a slot. For b 9 that is 10, not 9.
#[tactic(auto, unfolding(crate::specs::Packing::slot_bits))]
pub(crate) fn slot_bits(b: u32) -> u32
    ensures { result ≡ slot_bits b }
{
    match b {
        0..=8 => 8,
        9..=10 => 10,
        _ => 16,
    }
}

// The words that k elements take, of any b: the shape is tested beside the width. (That a row has so many stands in four
// contracts and in no struct: it is said of two lent slices together, of which packing fills one and unpacking the other.)
pub(crate) fn words_of(b: u32, k: usize) -> usize
    ensures { result ≡ words_of b k }
{
    k.div_ceil(factor(b))
}

// The elements of `part` in one word: the low b bits of each, in a slot of its own. (The walk over the slots stands three
// times, here, in `unpack_word` and in product's `word_sum`: one function for all, over a closure and its clause, would be
// longer. So would a struct that knows that its part fits: two of the three read the part, and one fills it. The shift is
// counted beside: as place times slot, which was tried, packing took a fifth longer and the product up to a third.)
fn pack_word(width: Width, part: &[u32]) -> u32
    requires { length part.now ≤ factor_of width.bits }
    ensures { result ≡ word_of width.bits (slot_bits width.bits) part.now }
{
    let low = width.greatest();
    let slot = slot_bits(width.bits);
    let mut word = 0;
    let mut shift = 0;
    for x in part {
        word |= (*x & low) << shift;
        shift += slot;
    }
    word
}

// A row, word by word. The last word takes what is left of the row. (By places: what a loop writes through `zip` over
// `iter_mut` is lost to the prover.)
fn pack_row(width: Width, elements: &[u32], out: &mut [u32])
    requires { length out.old ≡ words_of width.bits (length elements.now) }
    ensures { out.new ≡ pack_row width.bits elements.now }
{
    for (q, part) in elements.chunks(factor(width.bits)).enumerate() {
        out[q] = pack_word(width, part);
    }
}

// Row after row, each from its place in the lent words to its place in the output, as 01 has it: `work` makes a row of `to`
// words from one of `from`. Where it makes `made` of a row, whatever stood there, the output starts with the rows so made.
// (`shape_bad` has the like as lengths, before any is known to fit; with the lists they go together here alone.)
fn each_row<F: Fn(&[u32], &mut [u32])>(
    rows: usize,
    from: usize,
    to: usize,
    words: &[u32],
    out: &mut [u32],
    work: F,
)
    requires words_len { rows * from ≤ length words.now }
    requires out_len { rows * to ≤ length out.old }
    requires callable { (x y : _) → length x.now ≡ from → length y.now ≡ to → F.pre work x y }
    ensures { (made : List ℕ → List ℕ)
        → ((xs : List ℕ) → length xs ≡ from → length (made xs) ≡ to)
        → ((x y r z : _) → length x.now ≡ from → length y.now ≡ to → F.post work x y r z → z.now ≡ made x.now)
        → out.new ≡ laid (join rows (λ j. made (row from words.now j))) out.old }
{
    for j in 0..rows {
        let start = j * from;
        let at = j * to;
        work(&words[start..start + from], &mut out[at..at + to]);
    }
}

// Packs `rows` rows of k elements into the start of `out`, each row from a word of its own on. (Its parameters, and those of
// each entry below, are document 01's and the C interface's.)
pub fn row_wise_compress(
    b: u32,
    rows: usize,
    k: usize,
    words: &[u32],
    out: &mut [u32],
) -> Result<(), PackingRefusal>
    ensures number { packing_number result ≡ compress_number b rows k (length words.now) (length out.old) }
    ensures out_after { out.new ≡ compress_after b rows k words.now out.old }
{
    let n = words_of(b, k);
    let shape = shape_bad(rows, k, k, n, words.len(), out.len());
    let width = check(b, shape)?;
    each_row(
        rows,
        k,
        n,
        words,
        out,
        |elements, packed| pack_row(width, elements, packed),
    );
    Ok(())
}

// The low b bits of the slots of one word, as many as `part` has room for (the walk of `pack_word`).
fn unpack_word(width: Width, word: u32, part: &mut [u32])
    requires { length part.old ≤ factor_of width.bits }
    ensures { part.new ≡ slots width.bits (slot_bits width.bits) word (length part.old) }
{
    let low = width.greatest();
    let slot = slot_bits(width.bits);
    let mut shift = 0;
    for x in part.iter_mut() {
        *x = (word >> shift) & low;
        shift += slot;
    }
}

// The elements of a packed row, as many as the output has room for, word by word. By index: what is written through
// `chunks_mut` is lost to the proof.
#[tactic(auto, using(crate::proofs::packing::Sizes::starts))]
fn unpack_row(width: Width, words: &[u32], out: &mut [u32])
    requires { length words.now ≡ words_of width.bits (length out.old) }
    ensures { out.new ≡ unpack_row width.bits (length out.old) words.now }
{
    let f = factor(width.bits);
    for (q, word) in words.iter().enumerate() {
        let start = q * f;
        let n = f.min(out.len() - start);
        unpack_word(width, *word, &mut out[start..start + n]);
    }
}

// Unpacks `rows` rows of k elements into the start of `out`.
pub fn row_wise_decompress(
    b: u32,
    rows: usize,
    k: usize,
    words: &[u32],
    out: &mut [u32],
) -> Result<(), PackingRefusal>
    ensures number { packing_number result ≡ decompress_number b rows k (length words.now) (length out.old) }
    ensures out_after { out.new ≡ decompress_after b rows k words.now out.old }
{
    let n = words_of(b, k);
    let shape = shape_bad(rows, k, n, k, words.len(), out.len());
    let width = check(b, shape)?;
    each_row(
        rows,
        n,
        k,
        words,
        out,
        |packed, elements| unpack_row(width, packed, elements),
    );
    Ok(())
}
