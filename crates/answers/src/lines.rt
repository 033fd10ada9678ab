// Document 01, "Lines": the answers.
ghost use Rattle.std.specs.Prelude.{◌≡◌};
ghost use Rattle.answers.specs.Lines.{writing_refusal, writing_refuses, told_writing, reading_refusal, reading_refuses, told_reading};

use super::refusal::{Refusal, told};

// Why the line writer refuses.
#[derive(Clone, Copy, Debug, PartialEq, Eq)]
pub enum WritingRefusal {
    // 11: the ticket is 0.
    NoTicket,
    // 2: not 1 to 4,096 words, or the output too short.
    Shape,
}

impl Refusal for WritingRefusal {
    ghost number = { writing_refusal };

    ghost refuses = { writing_refuses };

    fn number(self) -> u32 {
        match self {
            WritingRefusal::NoTicket => 11,
            WritingRefusal::Shape => 2,
        }
    }
}

// What it tells: the line's length, LF included, is 0 on a refusal, as C reads it (the C interface; as `Decoded`).
#[repr(C)]
#[derive(Clone, Copy)]
pub struct LineWritten {
    pub number: u32,
    pub length: usize,
}

impl From<Result<usize, WritingRefusal>> for LineWritten {
    ghost from_gives = { λ answer t. t ≡ told_writing answer };

    fn from(answer: Result<usize, WritingRefusal>) -> LineWritten {
        LineWritten {
            number: told(answer),
            length: answer.unwrap_or(0),
        }
    }
}

// Why the line reader refuses.
#[derive(Clone, Copy, Debug, PartialEq, Eq)]
pub enum ReadingRefusal {
    // 11: not a whole line of this kind.
    Malformed,
    // 2: the output is too short.
    Shape,
}

impl Refusal for ReadingRefusal {
    ghost number = { reading_refusal };

    ghost refuses = { reading_refuses };

    fn number(self) -> u32 {
        match self {
            ReadingRefusal::Malformed => 11,
            ReadingRefusal::Shape => 2,
        }
    }
}

// What it tells: the ticket and the count of words are 0 on a refusal, as C reads it (the C interface).
#[repr(C)]
#[derive(Clone, Copy)]
pub struct LineRead {
    pub number: u32,
    pub ticket: u32,
    pub columns: usize,
}

impl From<Result<(u32, usize), ReadingRefusal>> for LineRead {
    ghost from_gives = { λ answer t. t ≡ told_reading answer };

    fn from(answer: Result<(u32, usize), ReadingRefusal>) -> LineRead {
        let (ticket, columns) = answer.unwrap_or((0, 0));
        LineRead {
            number: told(answer),
            ticket,
            columns,
        }
    }
}
