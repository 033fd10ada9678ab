// Document 01, "Ternary sampler": the answers.
ghost use Rattle.std.specs.Prelude.{◌≡◌};
ghost use Rattle.answers.specs.Sampler.{sampling_refusal, sampling_refuses, told_sampling};

use super::refusal::{Refusal, told};

// Why the sampler refuses.
#[derive(Clone, Copy, Debug, PartialEq, Eq)]
pub enum SamplingRefusal {
    // 2: more than 4,096 are wanted.
    Shape,
    // 4: the interval is outside 1..=1431655765.
    Interval,
    // 3: too few of the words are accepted.
    Short,
}

impl Refusal for SamplingRefusal {
    ghost number = { sampling_refusal };

    ghost refuses = { sampling_refuses };

    fn number(self) -> u32 {
        match self {
            SamplingRefusal::Shape => 2,
            SamplingRefusal::Interval => 4,
            SamplingRefusal::Short => 3,
        }
    }
}

// What it tells: the count of words read, skipped ones included, is 0 on a refusal, as C reads it (the C interface; as
// `Decoded`).
#[repr(C)]
#[derive(Clone, Copy)]
pub struct Sampled {
    pub number: u32,
    pub read: usize,
}

impl From<Result<usize, SamplingRefusal>> for Sampled {
    ghost from_gives = { λ answer t. t ≡ told_sampling answer };

    fn from(answer: Result<usize, SamplingRefusal>) -> Sampled {
        Sampled {
            number: told(answer),
            read: answer.unwrap_or(0),
        }
    }
}
