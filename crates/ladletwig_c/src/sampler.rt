// Document 01, "Ternary sampler", as C links it.
ghost use Rattle.std.specs.Prelude.{◌≡◌, length};
ghost use Rattle.samples.specs.Sampler.{sample_number, sample_read, sample_after};

use abi_arith::sampler;
use abi_arith::sampler::Sampled;

#[unsafe(no_mangle)]
pub extern "C" fn ladletwig_sample_from_uniform_ternary_dist(
    interval: u32,
    words: &[u32],
    out: &mut [u32],
) -> Sampled
    ensures number_value { result.number ≡ sample_number interval (length out.old) words.now }
    ensures read_value { result.read ≡ sample_read interval (length out.old) words.now }
    ensures out_after { out.new ≡ sample_after interval words.now out.old }
{
    sampler::ladletwig_sample_from_uniform_ternary_dist(interval, words, out)
}

#[unsafe(no_mangle)]
pub extern "C" fn ladletwig_sample_and_return_unread(
    interval: u32,
    words: &[u32],
    out: &mut [u32],
) -> usize
    ensures value { result ≡ sample_read interval (length out.old) words.now }
    ensures out_after { out.new ≡ sample_after interval words.now out.old }
{
    sampler::ladletwig_sample_and_return_unread(interval, words, out)
}
