// No code: document 01's twelve worked numbers, one table and one statement, proved by computing.

#![tactic(auto)]
