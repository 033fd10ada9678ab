// Document 01, "Matrix bytes": the answers.
ghost use Rattle.std.specs.Prelude.{◌≡◌};
ghost use Rattle.answers.specs.Bytes.{parsing_refusal, parsing_refuses, told_parsing};

use super::refusal::{Refusal, told};

// Why the matrix-bytes reader refuses.
#[derive(Clone, Copy, Debug, PartialEq, Eq)]
pub enum ParsingRefusal {
    // 11: the length is not what the dimensions give.
    Malformed,
    // 2: a dimension is outside 1..=4096, or the output is too short.
    Shape,
}

impl Refusal for ParsingRefusal {
    ghost number = { parsing_refusal };

    ghost refuses = { parsing_refuses };

    fn number(self) -> u32 {
        match self {
            ParsingRefusal::Malformed => 11,
            ParsingRefusal::Shape => 2,
        }
    }
}

// What it tells: rows and columns are 0 on a refusal, as C reads it (the C interface).
#[repr(C)]
#[derive(Clone, Copy)]
pub struct Parsed {
    pub number: u32,
    pub rows: usize,
    pub columns: usize,
}

impl From<Result<(usize, usize), ParsingRefusal>> for Parsed {
    ghost from_gives = { λ answer t. t ≡ told_parsing answer };

    fn from(answer: Result<(usize, usize), ParsingRefusal>) -> Parsed {
        let (rows, columns) = answer.unwrap_or((0, 0));
        Parsed {
            number: told(answer),
            rows,
            columns,
        }
    }
}
