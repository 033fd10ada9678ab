// What may go wrong.
use answers::refusal::Refusal;
use std::fmt::Display;
use std::{fmt, io};

// Document 01's number of a refusal, shown with what it says to the person at the till: one text for the enums of all entries.
#[derive(Clone, Copy, Debug)]
pub(crate) struct Refused(pub(crate) u32);

// Why a call of the library refuses, by its number.
impl<R: Refusal> From<R> for Refused {
    fn from(reason: R) -> Refused {
        Refused(reason.number())
    }
}

impl Display for Refused {
    fn fmt<W: fmt::Write>(&self, f: &mut fmt::Formatter<W>) -> fmt::Result {
        let meaning = match self.0 {
            2 => "a length is wrong",
            3 => "the random words end too soon",
            4 => "the interval is outside its range",
            5 => "the positions are bad",
            6 => "an entry would wrap",
            7 => "the digest is already pending",
            8 => "no slot is free",
            9 => "the ticket numbers are used up",
            10 => "the ticket is not pending",
            11 => "the line is malformed",
            12 => "the response's length is wrong",
            13 => "the row has no marker",
            14 => "the digest is not the one asked for",
            17 => "an element is too large",
            18 => "the table is malformed",
            _ => "a number that no call of a terminal gives",
        };
        write!(f, "{}, {meaning}", self.0)
    }
}

// Why this run ends. (`cases` has an enum of its own.)
#[derive(Debug, Drop)]
pub(crate) enum Fault {
    // A call that this run counts on.
    Refused(Refused),
    Io(io::Error),
}

impl From<Refused> for Fault {
    fn from(reason: Refused) -> Fault {
        Fault::Refused(reason)
    }
}

impl From<io::Error> for Fault {
    fn from(e: io::Error) -> Fault {
        Fault::Io(e)
    }
}
