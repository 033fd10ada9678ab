// What the arithmetic, the builder and the lines of document 01 answer, and what each answer tells: 01's number, and the
// ticket, count or length that goes with it. It is said here once, for the library, the C face and the programs.
#![tactic(auto)]

pub mod bytes;
pub mod codec;
pub mod database;
pub mod lines;
pub mod matrix;
pub mod packing;
pub mod refusal;
pub mod sampler;
