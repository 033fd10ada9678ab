// Document 01, "Row codec": what stands in `rows`, under the arithmetic's name.
pub use rows::codec::{
    BESIDE_VALUE, DecodingRefusal, EncodingRefusal, columns_bad, decode_kv_from_row,
    encode_kv_as_row, value_room,
};
