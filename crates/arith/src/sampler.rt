// Document 01, "Ternary sampler": what stands in `samples`, under the arithmetic's name.
pub use samples::sampler::{
    SamplingRefusal, sample_and_return_unread, sample_from_uniform_ternary_dist, words_to_read,
};
