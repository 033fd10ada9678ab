// The ternary sampler of document 01. Each public entry refuses bad input by a number of 01, has no `requires`, and says its
// answer and each lent buffer at exit as an equation with a definition of specs/.
#![tactic(auto)]

pub mod sampler;
