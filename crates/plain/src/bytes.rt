// Document 01, "Matrix bytes": rows, columns and elements, each a u32 with its lowest byte first.
ghost use Rattle.std.specs.Prelude.{◌≡◌, ◌+◌, ◌*◌, ◌≤◌, not, ◌||◌, [], ◌∷◌, length, ◌==◌, IfOk};
ghost use Rattle.laws.specs.Lists.{build, laid};
ghost use Rattle.answers.specs.Matrix.{fitting_number};
ghost use Rattle.plain.specs.Bytes.{low_bytes, word_at, all_bytes, matrix_bytes, to_bytes_number, to_bytes_after};
ghost use Rattle.plain.specs.Bytes.{rows_of, columns_of, from_bytes_number, from_bytes_rows, from_bytes_columns, from_bytes_after};
ghost use Rattle.answers.specs.Bytes.{parsing_number, parsing_rows, parsing_columns};

use super::matrix;
use super::matrix::{FittingRefusal, Matrix};
pub use answers::bytes::ParsingRefusal;

// The bytes of a word, lowest first, as many as `part` has room for: of any length, as `low_bytes` is, and `to_le_bytes` not.
pub fn put_word(x: u32, part: &mut [u8])
    ensures { part.new ≡ low_bytes (length part.old) x }
{
    let mut rest = x;
    for byte in part.iter_mut() {
        *byte = (rest % 256) as u8;
        rest /= 256;
    }
}

// Word after word, by places: the proof did not close over `chunks_exact_mut`, whose loop has no name for what it has written.
// (frames has the like for digits; one function for all would have a `requires`, as `matrix::column` says.)
fn put_words(words: &[u32], out: &mut [u8])
    requires { length out.old ≡ length words.now * 4 }
    ensures { out.new ≡ all_bytes words.now }
{
    for (q, x) in words.iter().enumerate() {
        let to = q * 4;
        put_word(*x, &mut out[to..to + 4]);
    }
}

// The two dimensions, and then the words.
fn put_matrix(matrix: &Matrix, out: &mut [u8])
    requires { 8 + 4 * (matrix.now.rows * matrix.now.columns) ≤ length out.old }
    ensures { out.new ≡ laid (matrix_bytes matrix.now.rows matrix.now.columns matrix.now.words.now) out.old }
{
    let body: usize = 8;
    let end = body + 4 * matrix.words.len();
    put_words(
        &[matrix.rows as u32, matrix.columns as u32],
        &mut out[..body],
    );
    put_words(matrix.words, &mut out[body..end]);
}

// Writes a matrix as bytes into the start of `out`.
#[tactic(auto, unfolding(crate::specs::Bytes::to_bytes_number))]
pub fn to_bytes(
    rows: usize,
    columns: usize,
    words: &[u32],
    out: &mut [u8],
) -> Result<(), FittingRefusal>
    ensures number { fitting_number result ≡ to_bytes_number rows columns (length words.now) (length out.old) }
    ensures out_after { out.new ≡ to_bytes_after rows columns words.now out.old }
{
    let matrix = Matrix::new(rows, columns, words)?;
    if out.len() < 8 + 4 * (rows * columns) {
        return Err(FittingRefusal::Shape);
    }
    put_matrix(&matrix, out);
    Ok(())
}

// Four bytes as a word, lowest first.
#[tactic(auto, unfolding(crate::specs::Bytes::word_at, laws::specs::Sums::sum))]
pub fn word_of(x0: u8, x1: u8, x2: u8, x3: u8) -> u32
    ensures { result ≡ word_at (x0 ∷ x1 ∷ x2 ∷ x3 ∷ []) 0 }
{
    u32::from_le_bytes([x0, x1, x2, x3])
}

// Word q of the bytes. (`word_of` is public and takes its four bytes.)
#[tactic(auto, unfolding(crate::specs::Bytes::word_at, laws::specs::Sums::sum))]
fn word_at(bytes: &[u8], q: usize) -> u32
    requires { q * 4 + 4 ≤ length bytes.now }
    ensures { result ≡ word_at bytes.now q }
{
    let at = q * 4;
    word_of(bytes[at], bytes[at + 1], bytes[at + 2], bytes[at + 3])
}

// 11: is the length of what follows the dimensions not four times their product? It is counted in fours: four times the
// product of any two u32 might not fit.
fn body_bad(rows: usize, columns: usize, body: usize) -> bool
    requires { (rows ≤ 4294967295) × (columns ≤ 4294967295) }
    ensures { result ≡ not (body == 4 * (rows * columns)) }
{
    body % 4 != 0 || body / 4 != rows * columns
}

// The dimensions that the bytes name. Bytes too short for dimensions are malformed, whatever these would be.
#[tactic(auto, unfolding(crate::specs::Bytes::from_bytes_number, crate::specs::Bytes::length_bad, crate::specs::Bytes::parsed_bad))]
fn dimensions(bytes: &[u8], room: usize) -> Result<(usize, usize), ParsingRefusal>
    ensures number { parsing_number result ≡ from_bytes_number bytes.now room }
    ensures rows { parsing_rows result ≡ from_bytes_rows bytes.now room }
    ensures columns { parsing_columns result ≡ from_bytes_columns bytes.now room }
    ensures fits { IfOk result (λ d. (d.0 ≡ rows_of bytes.now) × (d.1 ≡ columns_of bytes.now) × (8 + 4 * (d.0 * d.1) ≡ length bytes.now) × (d.0 * d.1 ≤ room)) }
{
    if bytes.len() < 8 {
        return Err(ParsingRefusal::Malformed);
    }
    let rows = word_at(bytes, 0) as usize;
    let columns = word_at(bytes, 1) as usize;
    if body_bad(rows, columns, bytes.len() - 8) {
        return Err(ParsingRefusal::Malformed);
    }
    if matrix::sides_bad(rows, columns) || room < rows * columns {
        return Err(ParsingRefusal::Shape);
    }
    Ok((rows, columns))
}

// Words from the third on, as many as `out` has room for. (Two lines, as in `matrix::column`.)
fn read_words(bytes: &[u8], out: &mut [u32])
    requires { 8 + 4 * length out.old ≤ length bytes.now }
    ensures { out.new ≡ build (length out.old) (λ q. word_at bytes.now (2 + q)) }
{
    for (q, x) in out.iter_mut().enumerate() {
        *x = word_at(bytes, 2 + q);
    }
}

// Reads a matrix from its bytes, its words into the start of `out`.
#[tactic(auto, unfolding(crate::specs::Bytes::elements_of, laws::specs::Lists::laid))]
pub fn from_bytes(bytes: &[u8], out: &mut [u32]) -> Result<(usize, usize), ParsingRefusal>
    ensures number { parsing_number result ≡ from_bytes_number bytes.now (length out.old) }
    ensures rows { parsing_rows result ≡ from_bytes_rows bytes.now (length out.old) }
    ensures columns { parsing_columns result ≡ from_bytes_columns bytes.now (length out.old) }
    ensures out_after { out.new ≡ from_bytes_after bytes.now out.old }
{
    let (rows, columns) = dimensions(bytes, out.len())?;
    read_words(bytes, &mut out[..rows * columns]);
    Ok((rows, columns))
}
