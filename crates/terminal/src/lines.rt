// Document 01, "Lines": a terminal writes query lines and reads response lines, so here the kind is fixed.
ghost use Rattle.std.specs.Prelude.{◌≡◌, length};
ghost use Rattle.frames.specs.Lines.{write_line_number, write_line_length, write_line_after};
ghost use Rattle.frames.specs.Lines.{read_line_number, read_line_ticket, read_line_columns, read_line_after};
ghost use Rattle.answers.specs.Lines.{writing_number, writing_length, reading_number, reading_ticket, reading_columns};

pub use answers::lines::{ReadingRefusal, WritingRefusal};
use frames::lines;

// Writes a query line into the start of `out`.
pub fn write_query_line(ticket: u32, words: &[u32], out: &mut [u8]) -> Result<usize, WritingRefusal>
    ensures number { writing_number result ≡ write_line_number ticket (length words.now) (length out.old) }
    ensures length { writing_length result ≡ write_line_length ticket (length words.now) (length out.old) }
    ensures out_after { out.new ≡ write_line_after 1 ticket words.now out.old }
{
    lines::write_line(lines::QUERY, ticket, words, out)
}

// Reads a response line, its words into the start of `out`.
pub fn read_response_line(line: &[u8], out: &mut [u32]) -> Result<(u32, usize), ReadingRefusal>
    ensures number { reading_number result ≡ read_line_number 2 line.now (length out.old) }
    ensures ticket { reading_ticket result ≡ read_line_ticket 2 line.now (length out.old) }
    ensures columns { reading_columns result ≡ read_line_columns 2 line.now (length out.old) }
    ensures out_after { out.new ≡ read_line_after 2 line.now out.old }
{
    lines::read_line(lines::RESPONSE, line, out)
}
