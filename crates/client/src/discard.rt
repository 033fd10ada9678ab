// Document 01, "Reply": what stands in `replies` for a ticket that is given up, under the client's name.
pub use replies::discard::{Discarded, DiscardingRefusal, discard_query};
