// The C face of plain matrices, their bytes and the rounding: each entry as `extern "C"`, under the entry's own contract. It
// does no work: a slice crosses as pointer and length, an answer as 01's number. The mark `no_mangle` exports nothing in a
// library: `ladletwig_c` exports these.
#![tactic(auto)]

pub mod bytes;
pub mod matrix;
pub mod rounding;
