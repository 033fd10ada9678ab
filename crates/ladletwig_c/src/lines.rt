// Document 01, "Lines", as C links it.
ghost use Rattle.std.specs.Prelude.{◌≡◌, length};
ghost use Rattle.frames.specs.Lines.{write_line_number, write_line_length, write_line_after, read_line_number, read_line_ticket, read_line_columns, read_line_after};

use abi_lines::lines;
use abi_lines::lines::{LineRead, LineWritten};

#[unsafe(no_mangle)]
pub extern "C" fn ladletwig_write_query_line(
    ticket: u32,
    words: &[u32],
    out: &mut [u8],
) -> LineWritten
    ensures number_value { result.number ≡ write_line_number ticket (length words.now) (length out.old) }
    ensures length_value { result.length ≡ write_line_length ticket (length words.now) (length out.old) }
    ensures out_after { out.new ≡ write_line_after 1 ticket words.now out.old }
{
    lines::ladletwig_write_query_line(ticket, words, out)
}

#[unsafe(no_mangle)]
pub extern "C" fn ladletwig_read_response_line(line: &[u8], out: &mut [u32]) -> LineRead
    ensures number_value { result.number ≡ read_line_number 2 line.now (length out.old) }
    ensures ticket_value { result.ticket ≡ read_line_ticket 2 line.now (length out.old) }
    ensures columns_value { result.columns ≡ read_line_columns 2 line.now (length out.old) }
    ensures out_after { out.new ≡ read_line_after 2 line.now out.old }
{
    lines::ladletwig_read_response_line(line, out)
}
