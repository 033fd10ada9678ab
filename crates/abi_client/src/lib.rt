// The C face of the client's table, open, reply and discard: each entry as `extern "C"`, under the entry's own contract. It
// does no work, but to give a table of zeros where `fresh` is refused: the table crosses by value, and comes back beside 01's
// number. The mark `no_mangle` exports nothing in a library: `ladletwig_c` exports these.
#![tactic(auto)]

pub mod discard;
pub mod open;
pub mod reply;
pub mod table;
