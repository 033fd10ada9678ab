// Document 01, "Reply": the answers.
ghost use Rattle.client_answers.specs.Discard.{discarding_refusal, discarding_refuses};

use answers::refusal::Refusal;

// Why a discard is refused.
#[derive(Clone, Copy, Debug, PartialEq, Eq)]
pub enum DiscardingRefusal {
    // 18: the table is malformed.
    Table,
    // 2: the slab's length is not 64·C.
    Shape,
    // 10: the ticket is not pending.
    NotPending,
}

impl Refusal for DiscardingRefusal {
    ghost number = { discarding_refusal };

    ghost refuses = { discarding_refuses };

    fn number(self) -> u32 {
        match self {
            DiscardingRefusal::Table => 18,
            DiscardingRefusal::Shape => 2,
            DiscardingRefusal::NotPending => 10,
        }
    }
}
