// The C face of `arith`, `samples` and `rows`: each entry as `extern "C"`, under the entry's own contract. It does no work but
// to tell where the sister's tail starts, since a slice can't cross back. The mark `no_mangle` exports nothing in a library:
// `ladletwig_c` exports these.
#![tactic(auto)]

pub mod codec;
pub mod packing;
pub mod product;
pub mod sampler;
