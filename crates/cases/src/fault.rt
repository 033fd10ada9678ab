// Why a line has no answer of the library's. (`lookup` has an enum of its own, which has `Io` too: a crate for that one case of
// two programs would be longer.)
use std::alloc::AllocError;
use std::io;

#[derive(Debug, Drop)]
pub(crate) enum Fault {
    // It is no call.
    BadLine,
    // No memory, or an answer that can't be written.
    Io(io::Error),
}

impl From<io::Error> for Fault {
    fn from(e: io::Error) -> Fault {
        Fault::Io(e)
    }
}

impl From<AllocError> for Fault {
    fn from(e: AllocError) -> Fault {
        Fault::Io(io::Error::from(e))
    }
}
