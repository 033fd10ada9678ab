// Document 01, "Reply": what stands in `replies`, under the client's name.
pub use replies::reply::{Replied, ReplyingRefusal, process_response};
