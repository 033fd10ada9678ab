// Document 01, the plain product, the transpose and the matrix-bytes writer: the answers.
ghost use Rattle.answers.specs.Matrix.{fitting_refusal, fitting_refuses};

use super::refusal::Refusal;

// Why the plain product, the transpose and the matrix-bytes writer refuse.
#[derive(Clone, Copy, Debug, PartialEq, Eq)]
pub enum FittingRefusal {
    // 2: a dimension is outside 1..=4096, a lent length is wrong, or the output is too short.
    Shape,
}

impl Refusal for FittingRefusal {
    ghost number = { fitting_refusal };

    ghost refuses = { fitting_refuses };

    fn number(self) -> u32 {
        match self {
            FittingRefusal::Shape => 2,
        }
    }
}
