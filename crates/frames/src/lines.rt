// Document 01, "Lines": a frame as one line of lowercase hexadecimal. A terminal writes queries and reads responses, its host
// the other way round, so the kind is a parameter here; `terminal` fixes it.
ghost use Rattle.std.specs.Prelude.{◌≡◌, true, false, [], ◌∷◌, ◌+◌, ◌*◌, ◌/◌, ◌%◌, ◌<◌, ◌≤◌, length, get_or, eqb, is_none, IfSome, MatchResult};
ghost use Rattle.laws.specs.Lists.{laid};
ghost use Rattle.plain.specs.Bytes.{word_bytes, all_bytes, word_at};
ghost use Rattle.frames.specs.Lines.{digit, hex, frame, line_length, write_line_number, write_line_length, write_line_after};
ghost use Rattle.answers.specs.Lines.{writing_number, writing_length};
ghost use Rattle.frames.specs.Lines.{digit_value, unhex, body_of, line_columns, line_words, digits_bad, line_bad};
ghost use Rattle.frames.specs.Lines.{read_line_number, read_line_ticket, read_line_columns, read_line_after};
ghost use Rattle.answers.specs.Lines.{reading_number, reading_ticket, reading_columns, reading_refusal};

pub use answers::lines::{ReadingRefusal, WritingRefusal};
use leaves::limits;
use plain::bytes;

// The kinds, which a frame's first byte says: bytes and no enum, since the clauses with `write_line_after` and
// `read_line_after` speak of every kind.
pub const QUERY: u8 = 1;

pub const RESPONSE: u8 = 2;
// The digits of a word.
const WORD_DIGITS: usize = 8;
// The digits of a frame before its words: kind, ticket, rows, columns.
const HEAD_DIGITS: usize = 26;
// The characters of a line without words, LF included.
const LINE_LEAST: usize = 27;

// The character of a digit: `char::from_digit` gives an Option of a char.
#[tactic(auto, unfolding(crate::specs::Lines::digit))]
fn digit_of(d: u8) -> u8
    requires { d < 16 }
    ensures { result ≡ digit d }
{
    if d < 10 { b'0' + d } else { b'a' + (d - 10) }
}

// A byte as its two digits, the high one first.
fn put_byte_digits(x: u8, part: &mut [u8])
    requires { length part.old ≡ 2 }
    ensures { part.new ≡ digit (x / 16) ∷ digit (x % 16) ∷ [] }
{
    part[0] = digit_of(x / 16);
    part[1] = digit_of(x % 16);
}

// Byte after byte, by places: a loop over `chunks_exact_mut` has no name for what it has written (as in plain's `put_words`).
fn put_bytes_digits(bytes: &[u8], part: &mut [u8])
    requires { length part.old ≡ length bytes.now * 2 }
    ensures { part.new ≡ hex bytes.now }
{
    for (i, x) in bytes.iter().enumerate() {
        let to = i * 2;
        put_byte_digits(*x, &mut part[to..to + 2]);
    }
}

// A word as its eight digits.
fn put_word_digits(x: u32, part: &mut [u8])
    requires { length part.old ≡ 8 }
    ensures { part.new ≡ hex (word_bytes x) }
{
    let mut four = [0; 4];
    bytes::put_word(x, &mut four);
    put_bytes_digits(&four, part);
}

// Word after word, by places for the same reason. (One function for this, the bytes and plain's `put_words` would have a
// `requires`, as plain's `column` says; one for this and the bytes would be longer.)
fn put_words_digits(words: &[u32], part: &mut [u8])
    requires { length part.old ≡ length words.now * 8 }
    ensures { part.new ≡ hex (all_bytes words.now) }
{
    for (q, x) in words.iter().enumerate() {
        let to = q * WORD_DIGITS;
        put_word_digits(*x, &mut part[to..to + WORD_DIGITS]);
    }
}

// The whole line: kind, ticket, dimensions, words, LF.
fn put_frame(kind: u8, ticket: u32, words: &[u32], out: &mut [u8])
    requires { (length words.now ≤ 4096) × (line_length (length words.now) ≤ length out.old) }
    ensures { out.new ≡ laid (frame kind ticket words.now) out.old }
{
    let head: usize = 2;
    let body = HEAD_DIGITS;
    let end = body + WORD_DIGITS * words.len();
    put_byte_digits(kind, &mut out[..head]);
    put_words_digits(&[ticket, 1, words.len() as u32], &mut out[head..body]);
    put_words_digits(words, &mut out[body..end]);
    out[end] = b'\n';
}

// Writes a line of this kind into the start of `out`. (Its length comes back, here and below, and no part of the buffer: C
// takes lengths, and the clauses say them.)
#[tactic(auto, unfolding(crate::specs::Lines::write_line_number))]
pub fn write_line(
    kind: u8,
    ticket: u32,
    words: &[u32],
    out: &mut [u8],
) -> Result<usize, WritingRefusal>
    ensures number { writing_number result ≡ write_line_number ticket (length words.now) (length out.old) }
    ensures length { writing_length result ≡ write_line_length ticket (length words.now) (length out.old) }
    ensures out_after { out.new ≡ write_line_after kind ticket words.now out.old }
{
    if ticket == 0 {
        return Err(WritingRefusal::NoTicket);
    }
    if limits::out_of(1, limits::ROWS_MOST, words.len()) {
        return Err(WritingRefusal::Shape);
    }
    let length = LINE_LEAST + WORD_DIGITS * words.len();
    if out.len() < length {
        return Err(WritingRefusal::Shape);
    }
    put_frame(kind, ticket, words, out);
    Ok(length)
}

// The digit that a character is, if it is one. (`to_digit(16)` takes capitals too.)
#[tactic(auto, unfolding(crate::specs::Lines::digit_value))]
fn digit_value(c: u8) -> Option<u8>
    ensures none { is_none result ≡ eqb (digit_value c) 16 }
    ensures some { IfSome result (λ d. (d ≡ digit_value c) × (d < 16)) }
{
    match c {
        b'0'..=b'9' => Some(c - b'0'),
        b'a'..=b'f' => Some(c - b'a' + 10),
        _ => None,
    }
}

// Is a character before the last no digit?
fn digits_bad(line: &[u8]) -> bool
    requires { 1 ≤ length line.now }
    ensures { result ≡ digits_bad line.now }
{
    let before = &line[..line.len() - 1];
    before.iter().any(|c| digit_value(*c).is_none())
}

// A line whose characters before the last are digits.
#[derive(Clone, Copy)]
struct Text<'a> {
    line: &'a [u8],
    ghost fine: { digits_bad line.now ≡ false },
}

impl<'a> Text<'a> {
    // Byte i.
    fn byte(&self, i: usize) -> u8
        requires { i * 2 + 2 < length self.now.line.now }
        ensures { result ≡ get_or (unhex self.now.line.now) i 0 }
    {
        let high = digit_value(self.line[i * 2]).unwrap();
        let low = digit_value(self.line[i * 2 + 1]).unwrap();
        high * 16 + low
    }

    // Word q after the kind. (`word_of` is public and takes its four bytes.)
    fn word(&self, q: usize) -> u32
        requires { q * 8 + 10 < length self.now.line.now }
        ensures { result ≡ word_at (body_of self.now.line.now) q }
    {
        let at = 1 + q * 4;
        bytes::word_of(
            self.byte(at),
            self.byte(at + 1),
            self.byte(at + 2),
            self.byte(at + 3),
        )
    }
}

// 11, for a line that is no whole one of this kind. What it says of itself is read only once it has room for that.
#[tactic(auto, unfolding(crate::specs::Lines::line_bad))]
fn whole<'a>(kind: u8, line: &'a [u8]) -> Result<Text<'a>, ReadingRefusal>
    ensures { MatchResult result
        (λ t. (t.line.now ≡ line.now) × (line_bad kind line.now ≡ false) × (length line.now ≡ line_length (line_columns line.now)))
        (λ reason. (reading_refusal reason ≡ 11) × (line_bad kind line.now ≡ true)) }
{
    if line.len() < LINE_LEAST || line[line.len() - 1] != b'\n' || digits_bad(line) {
        return Err(ReadingRefusal::Malformed);
    }
    let text = Text { line };
    if text.byte(0) != kind || text.word(0) == 0 || text.word(1) != 1 {
        return Err(ReadingRefusal::Malformed);
    }
    let columns = text.word(2) as usize;
    if limits::out_of(1, limits::ROWS_MOST, columns)
        || line.len() != LINE_LEAST + WORD_DIGITS * columns
    {
        return Err(ReadingRefusal::Malformed);
    }
    Ok(text)
}

// The line's words: `out` has exactly that many. (Two lines, as in plain's `column`.)
fn read_words(text: &Text, out: &mut [u32])
    requires { (length out.old * 8 + 26 < length text.now.line.now) × (length out.old ≡ line_columns text.now.line.now) }
    ensures { out.new ≡ line_words text.now.line.now }
{
    for (q, x) in out.iter_mut().enumerate() {
        *x = text.word(3 + q);
    }
}

// Reads a line of this kind, its words into the start of `out`.
#[tactic(auto, unfolding(crate::specs::Lines::read_line_number, laws::specs::Lists::laid))]
pub fn read_line(kind: u8, line: &[u8], out: &mut [u32]) -> Result<(u32, usize), ReadingRefusal>
    ensures number { reading_number result ≡ read_line_number kind line.now (length out.old) }
    ensures ticket { reading_ticket result ≡ read_line_ticket kind line.now (length out.old) }
    ensures columns { reading_columns result ≡ read_line_columns kind line.now (length out.old) }
    ensures out_after { out.new ≡ read_line_after kind line.now out.old }
{
    let text = whole(kind, line)?;
    let columns = text.word(2) as usize;
    if out.len() < columns {
        return Err(ReadingRefusal::Shape);
    }
    read_words(&text, &mut out[..columns]);
    Ok((text.word(0), columns))
}
