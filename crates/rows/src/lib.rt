// The row codec of document 01: a digest and a value as a row of elements, and back. Each public entry refuses bad input by a
// number of 01, has no `requires`, and says its answer and each lent buffer at exit as an equation with a definition of specs/.
#![tactic(auto)]

pub mod codec;
