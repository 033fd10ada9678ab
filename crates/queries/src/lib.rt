// Document 01's open. The public entry refuses bad input by a number of 01, has no `requires`, and says its answer, its table
// and each lent buffer at exit as an equation with a definition of specs/.
#![tactic(auto)]

pub mod open;
