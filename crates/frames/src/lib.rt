// Lines of either kind. The public functions have no `requires`, and say their answer and each lent buffer at exit as an
// equation with a definition of specs/.
#![tactic(auto)]

pub mod lines;
