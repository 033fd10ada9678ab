// Document 01, "Lines": what stands in `terminal`, under the client's name.
pub use terminal::lines::{ReadingRefusal, WritingRefusal, read_response_line, write_query_line};
