// Document 01, "Open": the answers.
ghost use Rattle.std.specs.Prelude.{◌≡◌};
ghost use Rattle.client_answers.specs.Open.{opening_refusal, opening_refuses, told_opening};

use answers::refusal::{Refusal, told};

// Why an open is refused.
#[derive(Clone, Copy, Debug, PartialEq, Eq)]
pub enum OpeningRefusal {
    // 18: the table is malformed.
    Table,
    // 2: n, R or a lent length outside its limit, or the query too short.
    Shape,
    // 4: the interval is outside 1..=1431655765.
    Interval,
    // 5: a position is no row of the database, or stands twice.
    Positions,
    // 7: a ticket of this digest waits for its reply.
    Pending,
    // 8: all 64 slots are used.
    Full,
    // 9: no number is left for a ticket: next is at its end.
    Numbers,
    // 3: too few of the words are accepted.
    Short,
    // 6: an entry would wrap; the count of words read, which must not be used again.
    Wraps(usize),
}

impl Refusal for OpeningRefusal {
    ghost number = { opening_refusal };

    ghost refuses = { opening_refuses };

    fn number(self) -> u32 {
        match self {
            OpeningRefusal::Table => 18,
            OpeningRefusal::Shape => 2,
            OpeningRefusal::Interval => 4,
            OpeningRefusal::Positions => 5,
            OpeningRefusal::Pending => 7,
            OpeningRefusal::Full => 8,
            OpeningRefusal::Numbers => 9,
            OpeningRefusal::Short => 3,
            OpeningRefusal::Wraps(_) => 6,
        }
    }
}

// What it tells: the ticket is 0 on a refusal, and so is the count of words read over both samples, but for 6. A struct of
// its own, since `told_opening` is of it; C gets its fields beside the table.
#[repr(C)]
#[derive(Clone, Copy)]
pub struct OpenTold {
    pub number: u32,
    pub ticket: u32,
    pub read: usize,
}

impl From<Result<(u32, usize), OpeningRefusal>> for OpenTold {
    ghost from_gives = { λ answer t. t ≡ told_opening answer };

    fn from(answer: Result<(u32, usize), OpeningRefusal>) -> OpenTold {
        let (ticket, read) = match answer {
            Ok(opened) => opened,
            Err(OpeningRefusal::Wraps(read)) => (0, read),
            Err(_) => (0, 0),
        };
        OpenTold {
            number: told(answer),
            ticket,
            read,
        }
    }
}
