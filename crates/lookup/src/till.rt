// The terminal: opens tickets, sends query lines, and reads what comes back.
use super::fault::{Fault, Refused};
use super::store;
use super::store::{Member, PUBLIC_MATRIX};
use client::table::Table;
use client::{discard, lines, open, reply, table};
use std::io;
use std::io::Write;

pub(crate) type Query = [u8; 83];

// The opens of this run.
#[derive(Clone, Copy)]
pub(crate) enum Open {
    Ben,
    Ada,
    AdaAgain,
    Wrong,
}

impl Open {
    // The words that the random device gives, n and R to each. They are fixed, so that the run can be held to a file; none is
    // used twice.
    fn drawn(self) -> [u32; 10] {
        match self {
            Open::Ben => [
                1292086694, 108847172, 2043092559, 3016578368, 3291036661, 3084469240, 2839367942,
                3558172197, 2598498183, 693522991,
            ],
            Open::Ada => [
                1510188667, 761833220, 2995420493, 3012133119, 3347549942, 3435174143, 1942551667,
                2700605003, 826167318, 3945674283,
            ],
            Open::AdaAgain => [
                4074616460, 3182842956, 4261455315, 407826148, 3773860815, 198777561, 1029982029,
                2217380763, 2928800126, 802084081,
            ],
            Open::Wrong => [
                644469806, 338508828, 2335461076, 3938572105, 2125720250, 682668388, 3739789667,
                2205908087, 3543969181, 3344824191,
            ],
        }
    }

    // Under whose digest.
    fn who(self) -> Member {
        match self {
            Open::Ben | Open::Wrong => Member::Ben,
            Open::Ada | Open::AdaAgain => Member::Ada,
        }
    }

    // At whose places: the same member's, as a rule.
    fn at(self) -> Member {
        match self {
            Open::Wrong => Member::Cy,
            _ => self.who(),
        }
    }
}

#[derive(Drop)]
pub(crate) struct Till {
    table: Table,
    slab: [u32; 2112],
}

impl Till {
    pub(crate) fn new() -> Result<Till, Refused> {
        Ok(Till {
            table: table::fresh(10, 33)?,
            slab: [0; 2112],
        })
    }

    // The ticket, and the query's words.
    fn open(&mut self, open: Open) -> Result<(u32, [u32; 7]), Refused> {
        let mut query = [0; 7];
        let opened = open::query_for_4_wise_xor_filter(
            self.table,
            &mut self.slab,
            3,
            7,
            &PUBLIC_MATRIX,
            &store::hint()?,
            1431655765,
            open.at().places(),
            open.who().digest(),
            &open.drawn(),
            &mut [0; 3],
            &mut [0; 7],
            &mut query,
        );
        self.table = opened.table;
        let (ticket, _) = opened.answer?;
        Ok((ticket, query))
    }

    // Opens a ticket, and sends the query line.
    pub(crate) fn ask(&mut self, rt: &impl Print, open: Open) -> Result<Query, Fault> {
        let (ticket, query) = self.open(open)?;
        let mut line = [0; 83];
        lines::write_query_line(ticket, &query, &mut line).map_err(Refused::from)?;
        print!(rt; "  ticket    {ticket}\n  terminal  ")?;
        io::writer(rt).write_all(&line)?;
        Ok(line)
    }

    pub(crate) fn discard(&mut self, rt: &impl Print, ticket: u32) -> Result<(), Fault> {
        let discarded = discard::discard_query(self.table, &mut self.slab, ticket);
        self.table = discarded.table;
        discarded.answer.map_err(Refused::from)?;
        println!(rt; "  discarded {ticket}")?;
        Ok(())
    }

    // The value that a response line brings, at the start of `room`.
    fn value<'r>(&mut self, line: &[u8], room: &'r mut [u8]) -> Result<&'r [u8], Refused> {
        let mut words = [0; 33];
        let (ticket, _) = lines::read_response_line(line, &mut words)?;
        let replied = reply::process_response(
            self.table,
            &mut self.slab,
            ticket,
            &words,
            &[600; 33],
            room,
        );
        self.table = replied.table;
        let length = replied.answer?;
        Ok(room.get(..length).unwrap_or(room))
    }

    // A line comes: the value, or why there is none.
    pub(crate) fn come(&mut self, rt: &impl Print, line: &[u8]) -> io::Result<()> {
        match self.value(line, &mut [0; 8]) {
            Ok(value) => {
                print!(rt; "  value     ")?;
                io::writer(rt).write_all(value)?;
                println!(rt; "")
            }
            Err(reason) => println!(rt; "  refused   {reason}"),
        }
    }
}
