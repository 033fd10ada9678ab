// The leaves of document 01: small functions that the crates above share. None has a `requires`, and each says its whole
// answer, or what it leaves in the lent words, as an equation with a definition of specs/, or with 01's formula; what may be
// none is said case by case.
#![tactic(auto)]

pub mod digests;
pub mod interval;
pub mod limits;
pub mod positions;
pub mod rounding;
pub mod width;
pub mod words;
