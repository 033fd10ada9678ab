// What the client's entries of document 01 answer, and what each answer tells: 01's number, and the ticket, count or length
// that goes with it. It is said here once, for the client, the C face and the programs.
#![tactic(auto)]

pub mod discard;
pub mod open;
pub mod reply;
pub mod table;
