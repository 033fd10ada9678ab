// Document 01, "Open": what stands in `queries`, under the client's name.
pub use queries::open::{Opened, OpeningRefusal, query_for_4_wise_xor_filter};
