// A line's numbers: decimal, with anything between them, so that words can say what each is. `7*3` is three times 7. A
// text in double quotes is a buffer: its length and its characters, of which \n is LF.
ghost use Rattle.std.specs.Prelude.{◌<◌, ◌≤◌, length, IfOk};

use super::fault::Fault;
use std::alloc::Global;

// A line has fewer numbers than this. The longest has 20,498.
const ROOM: usize = 20500;

// Lays a number so often.
fn put(numbers: &mut Vec<usize>, x: usize, times: usize) -> Result<(), Fault> {
    let count = numbers.len().checked_add(times);
    let count = count.filter(|n| *n < ROOM).ok_or(Fault::BadLine)?;
    numbers.resize(count, x)?;
    Ok(())
}

// The number that a text begins with, and what stands behind it.
fn number(text: &[u8]) -> Result<(usize, &[u8]), Fault>
    ensures { IfOk result (λ r. length r.1.now < length text.now) }
{
    let end = text.iter().position(|c| !c.is_ascii_digit());
    let (digits, rest) = text.split_at(end.unwrap_or(text.len()));
    if digits.is_empty() {
        return Err(Fault::BadLine);
    }
    let x = str::from_utf8(digits).ok().and_then(|s| s.parse().ok());
    Ok((x.ok_or(Fault::BadLine)?, rest))
}

// The number that a text begins with, as often as a star behind it says. What stands behind these is left.
fn run<'a>(numbers: &mut Vec<usize>, text: &'a [u8]) -> Result<&'a [u8], Fault>
    ensures { IfOk result (λ r. length r.now < length text.now) }
{
    let (x, rest) = number(text)?;
    let Some(count) = rest.strip_prefix(b"*") else {
        put(numbers, x, 1)?;
        return Ok(rest);
    };
    let (times, rest) = number(count)?;
    put(numbers, x, times)?;
    Ok(rest)
}

// A text's characters. Behind each backslash stands n.
fn letters(alloc: Global, text: &[u8]) -> Result<Vec<u8>, Fault> {
    let mut pieces = text.split(|c| *c == b'\\');
    let mut letters = pieces.next().unwrap_or(b"").to_vec(alloc)?;
    for piece in pieces {
        let rest = piece.strip_prefix(b"n").ok_or(Fault::BadLine)?;
        letters.extend_from_slice(b"\n")?;
        letters.extend_from_slice(rest)?;
    }
    Ok(letters)
}

// The text whose quote stands right before: its length and its characters. What stands behind its other quote is left.
fn quoted<'a>(numbers: &mut Vec<usize>, text: &'a [u8]) -> Result<&'a [u8], Fault>
    ensures { IfOk result (λ r. length r.now ≤ length text.now) }
{
    let end = text.iter().position(|c| *c == b'"');
    let (inside, rest) = text.split_at(end.ok_or(Fault::BadLine)?);
    let letters = letters(*numbers.allocator(), inside)?;
    put(numbers, letters.len(), 1)?;
    for c in letters.iter() {
        put(numbers, usize::from(*c), 1)?;
    }
    Ok(&rest[1..])
}

// All of a line's numbers. (Each turn takes a part of the line of any length, so there is no iterator to go over.)
pub(crate) fn numbers(alloc: Global, line: &[u8]) -> Result<Vec<usize>, Fault> {
    let mut numbers = Vec::new(alloc);
    let mut text = line;
    while let Some((c, rest)) = text.split_first() {
        text = match *c {
            b'0'..=b'9' => run(&mut numbers, text)?,
            b'"' => quoted(&mut numbers, rest)?,
            b'*' => return Err(Fault::BadLine),
            _ => rest,
        };
    }
    Ok(numbers)
}
