// Document 01, "Packed product": the plain product and the transpose, which are the ordinary ones, modulo 2^32.
ghost use Rattle.std.specs.Prelude.{◌≡◌, ◌*◌, ◌%◌, ◌^◌, ◌<◌, ◌≤◌, ◌||◌, true, false, length, slice_index, MatchResult};
ghost use Rattle.laws.specs.Refusals.{outside};
ghost use Rattle.laws.specs.Lists.{build, row, laid};
ghost use Rattle.laws.specs.Sums.{sum};
ghost use Rattle.plain.specs.Matrix.{cell, matrix_bad, times, transposed, times_number, times_after, transpose_number, transpose_after};
ghost use Rattle.answers.specs.Matrix.{fitting_number, fitting_refusal};

pub use answers::matrix::FittingRefusal;
use leaves::{limits, words};

// Is a dimension outside 1 to 4,096?
pub(crate) fn sides_bad(rows: usize, columns: usize) -> bool
    ensures { result ≡ (outside 1 4096 rows || outside 1 4096 columns) }
{
    limits::out_of(1, limits::ROWS_MOST, rows) || limits::out_of(1, limits::ROWS_MOST, columns)
}

// A matrix with each dimension 1 to 4,096: its words, row after row.
#[derive(Clone, Copy)]
pub(crate) struct Matrix<'a> {
    pub(crate) rows: usize,
    pub(crate) columns: usize,
    pub(crate) words: &'a [u32],
    ghost rows_most: { rows ≤ 4096 },
    ghost columns_most: { columns ≤ 4096 },
    ghost whole: { length words.now ≡ rows * columns },
}

impl<'a> Matrix<'a> {
    // 2, where a dimension is outside its limit or the words are not as many as the dimensions give.
    #[tactic(auto, unfolding(crate::specs::Matrix::matrix_bad))]
    pub(crate) fn new(
        rows: usize,
        columns: usize,
        words: &'a [u32],
    ) -> Result<Matrix<'a>, FittingRefusal>
        ensures { MatchResult result
            (λ x. (x.rows ≡ rows) × (x.columns ≡ columns) × (x.words.now ≡ words.now) × (matrix_bad rows columns (length words.now) ≡ false))
            (λ reason. (fitting_refusal reason ≡ 2) × (matrix_bad rows columns (length words.now) ≡ true)) }
    {
        if sides_bad(rows, columns) || words.len() != rows * columns {
            return Err(FittingRefusal::Shape);
        }
        Ok(Matrix {
            rows,
            columns,
            words,
        })
    }

    // The word in row i and column j.
    fn at(&self, i: usize, j: usize) -> u32
        requires { (i < self.now.rows) × (j < self.now.columns) }
        ensures { result ≡ cell self.now.columns self.now.words.now i j }
    {
        self.words[i * self.columns + j]
    }

    // Row i.
    fn row(&self, i: usize) -> &'a [u32]
        requires { i < self.now.rows }
        ensures { result.now ≡ row self.now.columns self.now.words.now i }
    {
        let from = i * self.columns;
        &self.words[from..from + self.columns]
    }
}

// A row of the left matrix times column j of the right one. (By place: a column lies nowhere as a slice. That the row is as
// long as the right has rows is said here and in two more, of a row and of the matrices: no one struct is for the three.)
fn cell_sum(row: &[u32], right: &Matrix, j: usize) -> u32
    requires { (length row.now ≡ right.now.rows) × (j < right.now.columns) }
    ensures { result ≡ sum right.now.rows (λ t. slice_index row.now t * cell right.now.columns right.now.words.now t j) % 2 ^ 32 }
{
    let mut acc: u32 = 0;
    for (t, x) in row.iter().enumerate() {
        acc = acc.wrapping_add(words::wrapping_mul(*x, right.at(t, j)));
    }
    acc
}

// One row of the product. (Two lines, as in `column`.)
fn row_times(row: &[u32], right: &Matrix, out: &mut [u32])
    requires { (length row.now ≡ right.now.rows) × (length out.old ≡ right.now.columns) }
    ensures { out.new ≡ build right.now.columns (λ j. sum right.now.rows (λ t. slice_index row.now t * cell right.now.columns right.now.words.now t j) % 2 ^ 32) }
{
    for (j, x) in out.iter_mut().enumerate() {
        *x = cell_sum(row, right, j);
    }
}

// Row after row, each to its place in the output (by places, as in `bytes::put_words`).
fn rows_times(left: &Matrix, right: &Matrix, out: &mut [u32])
    requires { (left.now.columns ≡ right.now.rows) × (left.now.rows * right.now.columns ≤ length out.old) }
    ensures { out.new ≡ laid (times left.now.rows left.now.columns right.now.columns left.now.words.now right.now.words.now) out.old }
{
    for i in 0..left.rows {
        let to = i * right.columns;
        row_times(left.row(i), right, &mut out[to..to + right.columns]);
    }
}

// The product of a matrix of r times m words and one of m times c, into the start of `out`. Words and dimensions come apart,
// as the C interface lends them.
#[tactic(auto, unfolding(crate::specs::Matrix::times_number))]
pub fn plain_product(
    r: usize,
    m: usize,
    c: usize,
    left: &[u32],
    right: &[u32],
    out: &mut [u32],
) -> Result<(), FittingRefusal>
    ensures number { fitting_number result ≡ times_number r m c (length left.now) (length right.now) (length out.old) }
    ensures out_after { out.new ≡ times_after r m c left.now right.now out.old }
{
    let left = Matrix::new(r, m, left)?;
    let right = Matrix::new(m, c, right)?;
    if out.len() < r * c {
        return Err(FittingRefusal::Shape);
    }
    rows_times(&left, &right, out);
    Ok(())
}

// Column j of a matrix. (Two lines, which fill an output from its places. Such stand in six functions more, of four crates,
// each with its own work. One function for all would be public and over a closure, and so have a `requires`, that it may be
// called; no public function has one. One for the few of a crate would be longer than the lines that they share.)
fn column(matrix: &Matrix, j: usize, out: &mut [u32])
    requires { (j < matrix.now.columns) × (length out.old ≡ matrix.now.rows) }
    ensures { out.new ≡ build matrix.now.rows (λ i. cell matrix.now.columns matrix.now.words.now i j) }
{
    for (i, x) in out.iter_mut().enumerate() {
        *x = matrix.at(i, j);
    }
}

// Column after column, each to its place as a row (by places, as in `bytes::put_words`).
fn columns_as_rows(matrix: &Matrix, out: &mut [u32])
    requires { matrix.now.rows * matrix.now.columns ≤ length out.old }
    ensures { out.new ≡ laid (transposed matrix.now.rows matrix.now.columns matrix.now.words.now) out.old }
{
    for j in 0..matrix.columns {
        let to = j * matrix.rows;
        column(matrix, j, &mut out[to..to + matrix.rows]);
    }
}

// A matrix of r times c words, its rows made columns, into the start of `out`.
#[tactic(auto, unfolding(crate::specs::Matrix::transpose_number))]
pub fn transpose(r: usize, c: usize, words: &[u32], out: &mut [u32]) -> Result<(), FittingRefusal>
    ensures number { fitting_number result ≡ transpose_number r c (length words.now) (length out.old) }
    ensures out_after { out.new ≡ transpose_after r c words.now out.old }
{
    let matrix = Matrix::new(r, c, words)?;
    if out.len() < r * c {
        return Err(FittingRefusal::Shape);
    }
    columns_as_rows(&matrix, out);
    Ok(())
}
