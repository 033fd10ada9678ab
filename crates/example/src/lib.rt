// No code: a run that meets everything demand 3 supposes, computed by the checker. The program cases makes the same calls.

#![tactic(auto)]
