// Document 01, "Row codec": a digest and a value as one row of elements of b bits, bit by bit.
ghost use Rattle.std.specs.Prelude.{◌≡◌, ℕ, true, false, MatchOption, ◌+◌, ◌*◌, ◌-◌, ◌/◌, ◌%◌, ◌^◌, ◌≤◌, ◌<◌, [], ◌∷◌, ◌++◌, length, get_or};
ghost use Rattle.laws.specs.Lists.{part};
ghost use Rattle.laws.specs.Bits.{bit_of, gathered};
ghost use Rattle.rows.specs.Codec.{bytes_in, columns_bad, room_of, row_of, encode_number, encode_after};
ghost use Rattle.answers.specs.Codec.{encoding_number};
ghost use Rattle.rows.specs.Codec.{bytes_of, marker_at, marker_bad, reader_bad};
ghost use Rattle.answers.specs.Codec.{decoding_number, decoding_length};
ghost use Rattle.rows.specs.Codec.{decode_number, decode_length, decode_digest_after, decode_value_after};

pub use answers::codec::{DecodingRefusal, EncodingRefusal};
use leaves::limits;
use leaves::width::Width;

// The bytes of a digest.
const DIGEST: usize = 32;

// The byte after the value: a row's last that is not zero.
const MARKER: u8 = 0x81;

// The bytes of digest and marker, which stand in a row beside its value; and the fewest bits of a row.
pub const BESIDE_VALUE: usize = DIGEST + 1;

const BITS_LEAST: usize = 8 * BESIDE_VALUE;

// Bit i of x.
fn bit(x: u32, i: usize) -> u32
    requires { i < 32 }
    ensures { result ≡ x / 2 ^ i % 2 }
{
    (x >> i) & 1
}

// The number of w bits whose bits, lowest first, are what `bit_at` gives from `at` on, each weighed by its place. (The clause:
// whatever f agrees with `bit_at` there, the number is the one gathered from f.)
fn gather<F: Fn(usize) -> u32>(w: usize, at: usize, bit_at: F) -> u32
    requires few { (w ≤ 14) × (at ≤ 7168) }
    requires callable { (k : ℕ) → at ≤ k → k < at + w → F.pre bit_at k }
    ensures { (f : ℕ → ℕ) → ((k : ℕ) → f k < 2) → ((k r : ℕ) → at ≤ k → k < at + w → F.post bit_at k r → r ≡ f k) → result ≡ gathered w f at }
{
    let mut word: u32 = 0;
    for i in 0..w {
        word |= bit_at(at + i) << i;
    }
    word
}

// 2: C outside 1..=512, or C·b below 264. C is tested before the product is taken, which then fits for any b. (b and columns
// are the C interface's parameters, and go through all of this file's entries.)
#[tactic(auto, unfolding(crate::specs::Codec::columns_bad))]
pub fn columns_bad(b: u32, columns: usize) -> bool
    ensures { result ≡ columns_bad b columns }
{
    limits::out_of(1, limits::COLUMNS_MOST, columns) || columns * (b as usize) < BITS_LEAST
}

// The longest value that a row has room for, beside digest and marker; 0 where the columns are refused, and no Option: the
// clause with `room_of` has it.
#[tactic(auto, using(crate::proofs::codec::Sizes::sized), unfolding(crate::specs::Codec::room_of))]
pub fn value_room(b: u32, columns: usize) -> usize
    ensures { result ≡ room_of b columns }
{
    if columns_bad(b, columns) {
        return 0;
    }
    columns * (b as usize) / 8 - BESIDE_VALUE
}

// What a row holds: digest and value, with the marker and zeros behind them. (It goes about lent: by value the writer is
// slower.)
#[derive(Drop)]
struct Record<'a> {
    digest: [u8; 32],
    value: &'a [u8],
}

impl Record<'_> {
    // Byte m: the digest, the value, the marker, and zeros without end, so that all further bits are written zero, up to the
    // last whole byte and past it.
    fn byte(&self, m: usize) -> u8
        ensures { result ≡ get_or (self.now.digest ++ (self.now.value.now ++ (129 ∷ []))) m 0 }
    {
        if m < DIGEST {
            return self.digest[m];
        }
        let i = m - DIGEST;
        if i < self.value.len() {
            return self.value[i];
        }
        if i == self.value.len() { MARKER } else { 0 }
    }

    // Element j of the row: the b bits from bit j·b on.
    fn element(&self, width: Width, j: usize) -> u32
        requires { j < 512 }
        ensures { result ≡ gathered width.bits (bit_of 8 (self.now.digest ++ (self.now.value.now ++ (129 ∷ [])))) (j * width.bits) }
    {
        let w = width.bits as usize;
        gather(w, j * w, |k| bit(u32::from(self.byte(k / 8)), k % 8))
    }

    // The row, element after element. (Two lines, as in plain's `column`.)
    fn write(&self, width: Width, out: &mut [u32])
        requires { length out.old ≤ 512 }
        ensures { out.new ≡ row_of width.bits (length out.old) self.now.digest self.now.value.now }
    {
        for (j, element) in out.iter_mut().enumerate() {
            *element = self.element(width, j);
        }
    }
}

// Writes a digest and a value as C elements of b bits into the start of `out`. (Its parameters and the reader's are the C
// interface's.)
#[tactic(auto, unfolding(crate::specs::Codec::encode_number, crate::specs::Codec::room_of))]
pub fn encode_kv_as_row(
    b: u32,
    columns: usize,
    digest: [u8; 32],
    value: &[u8],
    out: &mut [u32],
) -> Result<(), EncodingRefusal>
    ensures number { encoding_number result ≡ encode_number b columns (length value.now) (length out.old) }
    ensures out_after { out.new ≡ encode_after b columns digest value.now out.old }
{
    let width = Width::new(b).ok_or(EncodingRefusal::Width)?;
    if columns_bad(b, columns) || out.len() < columns {
        return Err(EncodingRefusal::Shape);
    }
    if value_room(b, columns) < value.len() {
        return Err(EncodingRefusal::TooLong);
    }
    Record { digest, value }.write(width, &mut out[..columns]);
    Ok(())
}

// A row that was lent: its elements, of b bits each.
#[derive(Drop)]
struct Row<'a> {
    width: Width,
    elements: &'a [u32],
    ghost few: { length elements.now ≤ 512 },
}

impl Row<'_> {
    // Its whole bytes. (`value_room` has the same line: a function of b and C for both would ask of its callers that C is
    // small.)
    fn bytes(&self) -> usize
        ensures { result ≡ bytes_in self.now.width.bits (length self.now.elements.now) }
    {
        self.elements.len() * (self.width.bits as usize) / 8
    }

    // Byte m: the 8 bits from bit 8·m on.
    fn byte(&self, m: usize) -> u8
        requires { m < bytes_in self.now.width.bits (length self.now.elements.now) }
        ensures { result ≡ get_or (bytes_of self.now.width.bits (length self.now.elements.now) self.now.elements.now) m 0 }
    {
        let w = self.width.bits as usize;
        gather(8, m * 8, |k| bit(self.elements[k / w], k % w)) as u8
    }

    // Fills `out` with the bytes from byte `from` on. (Two lines, as in plain's `column`.)
    fn read(&self, from: usize, out: &mut [u8])
        requires { from + length out.old ≤ bytes_in self.now.width.bits (length self.now.elements.now) }
        ensures { out.new ≡ part from (length out.old) (bytes_of self.now.width.bits (length self.now.elements.now) self.now.elements.now) }
    {
        for (i, byte) in out.iter_mut().enumerate() {
            *byte = self.byte(from + i);
        }
    }

    // The marker's index: that of the last nonzero byte, sought from the end. None where it is not 0x81, or in the digest.
    fn marker_at(&self) -> Option<usize>
        ensures { MatchOption result (marker_bad self.now.width.bits (length self.now.elements.now) self.now.elements.now ≡ true)
            (λ at. (32 ≤ at) × (at < bytes_in self.now.width.bits (length self.now.elements.now))
            × (at ≡ marker_at self.now.width.bits (length self.now.elements.now) self.now.elements.now)
            × (marker_bad self.now.width.bits (length self.now.elements.now) self.now.elements.now ≡ false)) }
    {
        let at = (DIGEST..self.bytes()).rev().find(|at| self.byte(*at) != 0)?;
        (self.byte(at) == MARKER).then_some(at)
    }
}

// 2: C or C·b outside its limits, a row of another length, an output too short.
#[tactic(auto, unfolding(crate::specs::Codec::reader_bad, crate::specs::Codec::room_of))]
fn reader_bad(b: u32, columns: usize, row: usize, digest: usize, value: usize) -> bool
    ensures { result ≡ reader_bad b columns row digest value }
{
    columns_bad(b, columns) || row != columns || digest < DIGEST || value < value_room(b, columns)
}

// Reads a row: its digest into the start of `digest`, its value into the start of `value`. The answer is the value's length, as
// C takes it and the clause `length` has it.
#[tactic(auto, using(crate::proofs::codec::Sizes::sized), unfolding(crate::specs::Codec::decode_number, crate::specs::Codec::reader_bad))]
pub fn decode_kv_from_row(
    b: u32,
    columns: usize,
    row: &[u32],
    digest: &mut [u8],
    value: &mut [u8],
) -> Result<usize, DecodingRefusal>
    ensures number { decoding_number result ≡ decode_number b columns row.now (length digest.old) (length value.old) }
    ensures length { decoding_length result ≡ decode_length b columns row.now (length digest.old) (length value.old) }
    ensures digest_after { digest.new ≡ decode_digest_after b columns row.now digest.old value.old }
    ensures value_after { value.new ≡ decode_value_after b columns row.now digest.old value.old }
{
    let width = Width::new(b).ok_or(DecodingRefusal::Width)?;
    if reader_bad(b, columns, row.len(), digest.len(), value.len()) {
        return Err(DecodingRefusal::Shape);
    }
    if limits::any_above(width.greatest(), row) {
        return Err(DecodingRefusal::Element);
    }
    let row = Row {
        width,
        elements: row,
    };
    let n = row.marker_at().ok_or(DecodingRefusal::Marker)? - DIGEST;
    row.read(0, &mut digest[..DIGEST]);
    row.read(DIGEST, &mut value[..n]);
    Ok(n)
}
