// Document 01, "Packing" and "Packed product": the answers.
ghost use Rattle.answers.specs.Packing.{packing_refusal, packing_refuses};

use super::refusal::Refusal;

// Why packing, unpacking and the packed product refuse.
#[derive(Clone, Copy, Debug, PartialEq, Eq)]
pub enum PackingRefusal {
    // 1: b is outside 4..=14.
    Width,
    // 2: a dimension is outside its limit, a lent length is wrong, or the output is too short.
    Shape,
}

impl Refusal for PackingRefusal {
    ghost number = { packing_refusal };

    ghost refuses = { packing_refuses };

    fn number(self) -> u32 {
        match self {
            PackingRefusal::Width => 1,
            PackingRefusal::Shape => 2,
        }
    }
}
