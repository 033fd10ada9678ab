// No code: the definitions (specs/) and laws (proofs/) that every crate above cites.

#![tactic(auto)]
