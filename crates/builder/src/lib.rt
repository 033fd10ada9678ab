// The builder of document 01. Its one public entry refuses bad input by a number of 01, has no `requires`, and says its
// answer and the database at exit as an equation with a definition of specs/.
#![tactic(auto)]

pub mod database;
mod keys;
mod placement;
