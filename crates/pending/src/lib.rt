// The pending table of document 01, for whoever opens and closes tickets. The public functions have no `requires`, and say
// their answer as an equation with a definition of specs/; what may be none they say case by case.
#![tactic(auto)]

pub mod table;
