// Document 01, "Row codec": the answers.
ghost use Rattle.std.specs.Prelude.{◌≡◌};
ghost use Rattle.answers.specs.Codec.{encoding_refusal, encoding_refuses, decoding_refusal, decoding_refuses, told_decoding};

use super::refusal::{Refusal, told};

// Why the row writer refuses.
#[derive(Clone, Copy, Debug, PartialEq, Eq)]
pub enum EncodingRefusal {
    // 1: b is outside 4..=14.
    Width,
    // 2: C outside 1..=512, C·b below 264, or the output too short.
    Shape,
    // 16: the value is longer than floor(C·b/8) - 33 bytes.
    TooLong,
}

impl Refusal for EncodingRefusal {
    ghost number = { encoding_refusal };

    ghost refuses = { encoding_refuses };

    fn number(self) -> u32 {
        match self {
            EncodingRefusal::Width => 1,
            EncodingRefusal::Shape => 2,
            EncodingRefusal::TooLong => 16,
        }
    }
}

// Why the row reader refuses.
#[derive(Clone, Copy, Debug, PartialEq, Eq)]
pub enum DecodingRefusal {
    // 1: b is outside 4..=14.
    Width,
    // 2: C or C·b outside its limits, a row of another length, or an output too short.
    Shape,
    // 17: an element is 2^b or more.
    Element,
    // 13: no marker where one must be.
    Marker,
}

impl Refusal for DecodingRefusal {
    ghost number = { decoding_refusal };

    ghost refuses = { decoding_refuses };

    fn number(self) -> u32 {
        match self {
            DecodingRefusal::Width => 1,
            DecodingRefusal::Shape => 2,
            DecodingRefusal::Element => 17,
            DecodingRefusal::Marker => 13,
        }
    }
}

// What it tells: the value's length is 0 on a refusal, as C reads it (the C interface, which has the sampler's struct, this and
// the line writer's apart).
#[repr(C)]
#[derive(Clone, Copy)]
pub struct Decoded {
    pub number: u32,
    pub length: usize,
}

impl From<Result<usize, DecodingRefusal>> for Decoded {
    ghost from_gives = { λ answer t. t ≡ told_decoding answer };

    fn from(answer: Result<usize, DecodingRefusal>) -> Decoded {
        Decoded {
            number: told(answer),
            length: answer.unwrap_or(0),
        }
    }
}
