// No code: what a sequence of the client's calls comes to, over the definitions that the contracts cite.

#![tactic(auto)]
