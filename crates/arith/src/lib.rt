// The arithmetic of document 01, below the client. Each public entry refuses bad input by a number of 01, has no
// `requires`, and says its answer and each lent buffer at exit as an equation with a definition of specs/, or of
// `samples` and `rows`.
#![tactic(auto)]

pub mod codec;
pub mod packing;
pub mod product;
pub mod sampler;
