// Document 01, "Ternary sampler": random words to 0, 1 and -1, of which 0 has one word more than the others.
ghost use Rattle.std.specs.Prelude.{◌≡◌, [], ◌∷◌, length};
ghost use Rattle.laws.specs.Refusals.{first, ◌⇒◌, after};
ghost use Rattle.samples.specs.Sampler.{ternary, given, too_few, shortest};
ghost use Rattle.samples.specs.Sampler.{sample_number, sample_read, sample_after, sample_tail};
ghost use Rattle.answers.specs.Sampler.{sampling_number, sampling_read};

pub use answers::sampler::SamplingRefusal;
use leaves::interval::Interval;
use leaves::limits;

// The value of an accepted word.
#[tactic(auto, unfolding(crate::specs::Sampler::ternary))]
fn value_of(interval: Interval, x: u32) -> u32
    ensures { result ≡ ternary interval.value x }
{
    if x <= interval.value {
        0
    } else if x <= 2 * interval.value {
        1
    } else {
        u32::MAX // -1
    }
}

// The shortest start of the words that holds enough, or 3: it ends at the accepted word that is the last wanted. Nothing is
// written before this is known. (Counted, so that no word is a branch: a chain of `filter` and `nth` took up to twice as long.)
fn count_read(interval: Interval, wanted: usize, words: &[u32]) -> Result<usize, SamplingRefusal>
    ensures number { sampling_number result ≡ first (too_few interval.value wanted words.now ⇒ 3 ∷ []) }
    ensures read { sampling_read result ≡ after (sampling_number result) (shortest interval.value wanted words.now) 0 }
{
    let greatest = 3 * interval.value;
    let mut left = wanted;
    for (seen, x) in words.iter().enumerate() {
        if left == 0 {
            return Ok(seen);
        }
        left -= (*x <= greatest) as usize;
    }
    if left == 0 {
        return Ok(words.len());
    }
    Err(SamplingRefusal::Short)
}

// The whole answer, known before anything is written: 2, 4, 3 in this order, or the count of words to read.
// It is public because the client counts the words of both its samples before it writes anything.
#[tactic(auto, unfolding(crate::specs::Sampler::sample_number))]
pub fn words_to_read(interval: u32, wanted: usize, words: &[u32]) -> Result<usize, SamplingRefusal>
    ensures number { sampling_number result ≡ sample_number interval wanted words.now }
    ensures read { sampling_read result ≡ sample_read interval wanted words.now }
{
    if wanted > limits::ROWS_MOST {
        return Err(SamplingRefusal::Shape);
    }
    let interval = Interval::new(interval).ok_or(SamplingRefusal::Interval)?;
    count_read(interval, wanted, words)
}

// Writes the value of each accepted word. (By places: what a loop writes through `zip` over `iter_mut` is lost to the prover.)
fn fill(interval: Interval, words: &[u32], out: &mut [u32])
    requires { length (given interval.value words.now) ≡ length out.old }
    ensures { out.new ≡ given interval.value words.now }
{
    let greatest = 3 * interval.value;
    for (put, x) in words.iter().filter(|x| **x <= greatest).enumerate() {
        out[put] = value_of(interval, *x);
    }
}

// Fills `out` from the words. (What is lent, here and below, is the C interface's.)
pub fn sample_from_uniform_ternary_dist(
    interval: u32,
    words: &[u32],
    out: &mut [u32],
) -> Result<usize, SamplingRefusal>
    ensures number { sampling_number result ≡ sample_number interval (length out.old) words.now }
    ensures read { sampling_read result ≡ sample_read interval (length out.old) words.now }
    ensures out_after { out.new ≡ sample_after interval words.now out.old }
{
    let read = words_to_read(interval, out.len(), words)?;
    // No test is made again: words were counted for this interval.
    fill(Interval { value: interval }, &words[..read], out);
    Ok(read)
}

// The same work; the unread tail, a part of the words alone, comes back: all of them on a refusal, by the clause with
// `sample_tail`.
pub fn sample_and_return_unread<'w>(interval: u32, words: &'w [u32], out: &mut [u32]) -> &'w [u32]
    ensures result_value { result.now ≡ sample_tail interval (length out.old) words.now }
    ensures out_after { out.new ≡ sample_after interval words.now out.old }
{
    let read = sample_from_uniform_ternary_dist(interval, words, out).unwrap_or(0);
    &words[read..]
}
