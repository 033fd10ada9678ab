// Calls whose only mutable buffer has words.
use super::args::Args;
use super::fault::Fault;
use super::print::List;
use abi_arith::{codec, packing, product, sampler};
use abi_builder::database;
use abi_lines::lines;
use abi_plain::{bytes, matrix};

// Packs or unpacks, as the call does that is given.
fn packed<F: Fn(u32, usize, usize, &[u32], &mut [u32]) -> u32>(
    rt: &impl Print,
    mut args: Args<'_>,
    call: F,
) -> Result<(), Fault>
    requires { F.IsAlwaysCallable call }
{
    let (b, rows, k) = (args.word()?, args.size()?, args.size()?);
    let (words, mut out) = (args.words()?, args.words()?);
    args.end()?;
    let number = call(b, rows, k, &words, &mut out);
    print!(rt; "{number}{}", List(&out))?;
    Ok(())
}

pub(crate) fn compress(rt: &impl Print, args: Args<'_>) -> Result<(), Fault> {
    packed(
        rt,
        args,
        |b, rows, k, words, out| packing::ladletwig_row_wise_compress(b, rows, k, words, out),
    )
}

pub(crate) fn decompress(rt: &impl Print, args: Args<'_>) -> Result<(), Fault> {
    packed(
        rt,
        args,
        |b, rows, k, words, out| packing::ladletwig_row_wise_decompress(b, rows, k, words, out),
    )
}

pub(crate) fn product(rt: &impl Print, mut args: Args<'_>) -> Result<(), Fault> {
    let (b, rows, k) = (args.word()?, args.size()?, args.size()?);
    let (vector, words, mut out) = (args.words()?, args.words()?, args.words()?);
    args.end()?;
    let number = product::ladletwig_row_vector_x_compressed_transposed_matrix(
        b, &vector, rows, k, &words, &mut out,
    );
    print!(rt; "{number}{}", List(&out))?;
    Ok(())
}

pub(crate) fn plain_product(rt: &impl Print, mut args: Args<'_>) -> Result<(), Fault> {
    let (r, m, c) = (args.size()?, args.size()?, args.size()?);
    let (left, right, mut out) = (args.words()?, args.words()?, args.words()?);
    args.end()?;
    let number = matrix::ladletwig_plain_product(r, m, c, &left, &right, &mut out);
    print!(rt; "{number}{}", List(&out))?;
    Ok(())
}

pub(crate) fn transpose(rt: &impl Print, mut args: Args<'_>) -> Result<(), Fault> {
    let (r, c) = (args.size()?, args.size()?);
    let (words, mut out) = (args.words()?, args.words()?);
    args.end()?;
    let number = matrix::ladletwig_transpose(r, c, &words, &mut out);
    print!(rt; "{number}{}", List(&out))?;
    Ok(())
}

pub(crate) fn sample(rt: &impl Print, mut args: Args<'_>) -> Result<(), Fault> {
    let interval = args.word()?;
    let (words, mut out) = (args.words()?, args.words()?);
    args.end()?;
    let s = sampler::ladletwig_sample_from_uniform_ternary_dist(interval, &words, &mut out);
    print!(rt; "{} {}{}", s.number, s.read, List(&out))?;
    Ok(())
}

// The sister gives no number: its answer begins with where the unread tail starts.
pub(crate) fn unread(rt: &impl Print, mut args: Args<'_>) -> Result<(), Fault> {
    let interval = args.word()?;
    let (words, mut out) = (args.words()?, args.words()?);
    args.end()?;
    let read = sampler::ladletwig_sample_and_return_unread(interval, &words, &mut out);
    print!(rt; "{read}{}", List(&out))?;
    Ok(())
}

pub(crate) fn from_bytes(rt: &impl Print, mut args: Args<'_>) -> Result<(), Fault> {
    let (bytes, mut out) = (args.bytes()?, args.words()?);
    args.end()?;
    let p = bytes::ladletwig_from_bytes(&bytes, &mut out);
    print!(rt; "{} {} {}{}", p.number, p.rows, p.columns, List(&out))?;
    Ok(())
}

pub(crate) fn encode(rt: &impl Print, mut args: Args<'_>) -> Result<(), Fault> {
    let (b, columns) = (args.word()?, args.size()?);
    let (digest, value, mut out) = (args.digest()?, args.bytes()?, args.words()?);
    args.end()?;
    let number = codec::ladletwig_encode_kv_as_row(b, columns, &digest, &value, &mut out);
    print!(rt; "{number}{}", List(&out))?;
    Ok(())
}

pub(crate) fn build(rt: &impl Print, mut args: Args<'_>) -> Result<(), Fault> {
    let (b, r) = (args.word()?, args.size()?);
    let (columns, count) = (args.size()?, args.size()?);
    let (rows, masks) = (args.words()?, args.words()?);
    let (positions, targets) = (args.words()?, args.words()?);
    let mut out = args.words()?;
    args.end()?;
    let number = database::ladletwig_build_database(
        b, r, columns, count, &rows, &masks, &positions, &targets, &mut out,
    );
    print!(rt; "{number}{}", List(&out))?;
    Ok(())
}

pub(crate) fn read_line(rt: &impl Print, mut args: Args<'_>) -> Result<(), Fault> {
    let (line, mut out) = (args.bytes()?, args.words()?);
    args.end()?;
    let l = lines::ladletwig_read_response_line(&line, &mut out);
    print!(rt; "{} {} {}{}", l.number, l.ticket, l.columns, List(&out))?;
    Ok(())
}
