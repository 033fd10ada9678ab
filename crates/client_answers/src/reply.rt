// Document 01, "Reply": the answers.
ghost use Rattle.std.specs.Prelude.{◌≡◌};
ghost use Rattle.client_answers.specs.Reply.{replying_refusal, replying_refuses, told_replying};

use answers::refusal::{Refusal, told};

// Why a reply is refused.
#[derive(Clone, Copy, Debug, PartialEq, Eq)]
pub enum ReplyingRefusal {
    // 18: the table is malformed.
    Table,
    // 2: the slab or the masks of a wrong length, or the value buffer too short.
    Shape,
    // 10: the ticket is not pending.
    NotPending,
    // 12: the response's length is not C.
    Length,
    // 17: an element of the row is 2^b or more.
    Element,
    // 13: the row has no marker where one must be; the ticket is closed.
    Marker,
    // 14: the digest differs in any byte; the ticket is closed.
    Digest,
}

impl Refusal for ReplyingRefusal {
    ghost number = { replying_refusal };

    ghost refuses = { replying_refuses };

    fn number(self) -> u32 {
        match self {
            ReplyingRefusal::Table => 18,
            ReplyingRefusal::Shape => 2,
            ReplyingRefusal::NotPending => 10,
            ReplyingRefusal::Length => 12,
            ReplyingRefusal::Element => 17,
            ReplyingRefusal::Marker => 13,
            ReplyingRefusal::Digest => 14,
        }
    }
}

// What it tells: the value's length is 0 on a refusal. A struct of its own, since `told_replying` is of it; C gets its fields
// beside the table.
#[repr(C)]
#[derive(Clone, Copy)]
pub struct ReplyTold {
    pub number: u32,
    pub length: usize,
}

impl From<Result<usize, ReplyingRefusal>> for ReplyTold {
    ghost from_gives = { λ answer t. t ≡ told_replying answer };

    fn from(answer: Result<usize, ReplyingRefusal>) -> ReplyTold {
        ReplyTold {
            number: told(answer),
            length: answer.unwrap_or(0),
        }
    }
}
