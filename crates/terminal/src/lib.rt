// A terminal's lines: the kinds of those that it writes and reads are fixed. The public functions have no `requires`, and say
// their answer and each lent buffer at exit as an equation with a definition of `frames`.
#![tactic(auto)]

pub mod lines;
