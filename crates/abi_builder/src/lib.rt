// The C face of `builder`: its entry as `extern "C"`, under the entry's own contract. It does no work: a slice crosses as
// pointer and length, an answer as 01's number. The mark `no_mangle` exports nothing in a library: `ladletwig_c` exports it.
#![tactic(auto)]

pub mod database;
