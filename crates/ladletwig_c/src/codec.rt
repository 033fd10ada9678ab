// Document 01, "Row codec", as C links it.
ghost use Rattle.std.specs.Prelude.{◌≡◌, length};
ghost use Rattle.rows.specs.Codec.{encode_number, encode_after, decode_number, decode_length, decode_digest_after, decode_value_after};

use abi_arith::codec;
use abi_arith::codec::Decoded;

#[unsafe(no_mangle)]
pub extern "C" fn ladletwig_encode_kv_as_row(
    b: u32,
    columns: usize,
    digest: &[u8; 32],
    value: &[u8],
    out: &mut [u32],
) -> u32
    ensures value { result ≡ encode_number b columns (length value.now) (length out.old) }
    ensures out_after { out.new ≡ encode_after b columns digest.now value.now out.old }
{
    codec::ladletwig_encode_kv_as_row(b, columns, digest, value, out)
}

#[unsafe(no_mangle)]
pub extern "C" fn ladletwig_decode_kv_from_row(
    b: u32,
    columns: usize,
    row: &[u32],
    digest: &mut [u8],
    value: &mut [u8],
) -> Decoded
    ensures number_value { result.number ≡ decode_number b columns row.now (length digest.old) (length value.old) }
    ensures length_value { result.length ≡ decode_length b columns row.now (length digest.old) (length value.old) }
    ensures digest_after { digest.new ≡ decode_digest_after b columns row.now digest.old value.old }
    ensures value_after { value.new ≡ decode_value_after b columns row.now digest.old value.old }
{
    codec::ladletwig_decode_kv_from_row(b, columns, row, digest, value)
}
