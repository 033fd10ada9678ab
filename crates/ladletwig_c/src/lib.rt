// The C face as C links it: each entry of the crates abi_*, exported under its own name and contract. Only a static library
// exports, and no crate can stand on one. So the entries stand in those crates, and what is here only calls them.
#![tactic(auto)]

pub mod bytes;
pub mod codec;
pub mod database;
pub mod discard;
pub mod lines;
pub mod matrix;
pub mod open;
pub mod packing;
pub mod product;
pub mod reply;
pub mod rounding;
pub mod sampler;
pub mod table;
