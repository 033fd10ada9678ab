// What changes a pending table: a slot is taken, a slot is closed. The public functions have no `requires`, and say their
// answer and each lent buffer at exit as an equation with a definition of `pending`.
#![tactic(auto)]

pub mod slots;
