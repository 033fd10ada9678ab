// Document 01's view of a packed matrix: a struct that holds the lent words, and thin functions over it.
#![tactic(auto)]

pub mod packed;
