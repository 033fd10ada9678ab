// No code: demand 3 of document 00, stated in specs/ and proved in proofs/, over the definitions that the contracts cite.

#![tactic(auto)]
