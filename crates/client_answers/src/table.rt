// Document 01, "Pending table": the answers.
ghost use Rattle.client_answers.specs.Table.{making_refusal, making_refuses};

use answers::refusal::Refusal;

// Why a new table is refused. (The cases of packing's, in an enum of its own, as `answers::refusal` says.)
#[derive(Clone, Copy, Debug, PartialEq, Eq)]
pub enum MakingRefusal {
    // 1: b is outside 4..=14.
    Width,
    // 2: C is outside 1..=512, or C·b below 264.
    Shape,
}

impl Refusal for MakingRefusal {
    ghost number = { making_refusal };

    ghost refuses = { making_refuses };

    fn number(self) -> u32 {
        match self {
            MakingRefusal::Width => 1,
            MakingRefusal::Shape => 2,
        }
    }
}
