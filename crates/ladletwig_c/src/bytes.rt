// Document 01, "Matrix bytes", as C links it.
ghost use Rattle.std.specs.Prelude.{◌≡◌, length};
ghost use Rattle.plain.specs.Bytes.{to_bytes_number, to_bytes_after, from_bytes_number, from_bytes_rows, from_bytes_columns, from_bytes_after};

use abi_plain::bytes;
use abi_plain::bytes::Parsed;

#[unsafe(no_mangle)]
pub extern "C" fn ladletwig_to_bytes(
    rows: usize,
    columns: usize,
    words: &[u32],
    out: &mut [u8],
) -> u32
    ensures value { result ≡ to_bytes_number rows columns (length words.now) (length out.old) }
    ensures out_after { out.new ≡ to_bytes_after rows columns words.now out.old }
{
    bytes::ladletwig_to_bytes(rows, columns, words, out)
}

#[unsafe(no_mangle)]
pub extern "C" fn ladletwig_from_bytes(bytes: &[u8], out: &mut [u32]) -> Parsed
    ensures number_value { result.number ≡ from_bytes_number bytes.now (length out.old) }
    ensures rows_value { result.rows ≡ from_bytes_rows bytes.now (length out.old) }
    ensures columns_value { result.columns ≡ from_bytes_columns bytes.now (length out.old) }
    ensures out_after { out.new ≡ from_bytes_after bytes.now out.old }
{
    bytes::ladletwig_from_bytes(bytes, out)
}
