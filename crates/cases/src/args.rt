// What a call takes, one after the other from a line's numbers.
use super::fault::Fault;
use abi_client::open::Positions;
use std::alloc::Global;

#[derive(Drop)]
pub(crate) struct Args<'a> {
    alloc: Global,
    rest: &'a [usize],
}

// A number that has to be a word.
fn word_of(x: usize) -> Result<u32, Fault> {
    u32::try_from(x).map_err(|_| Fault::BadLine)
}

impl<'a> Args<'a> {
    pub(crate) fn new(alloc: Global, numbers: &'a [usize]) -> Args<'a> {
        Args {
            alloc,
            rest: numbers,
        }
    }

    // A size may be more than a word holds.
    pub(crate) fn size(&mut self) -> Result<usize, Fault> {
        self.rest.split_off_first().copied().ok_or(Fault::BadLine)
    }

    pub(crate) fn word(&mut self) -> Result<u32, Fault> {
        word_of(self.size()?)
    }

    // A buffer: its length and its elements. (A place is made for each before it is read: what collects them one by one takes
    // most of the time of a line of long runs.)
    pub(crate) fn words(&mut self) -> Result<Vec<u32>, Fault> {
        let n = self.size()?;
        let elements = self.rest.split_off(..n).ok_or(Fault::BadLine)?;
        let mut words = Vec::new(self.alloc);
        words.resize(n, 0)?;
        for (word, x) in words.iter_mut().zip(elements) {
            *word = word_of(*x)?;
        }
        Ok(words)
    }

    // Of a buffer of bytes the low byte of each element counts.
    pub(crate) fn bytes(&mut self) -> Result<Vec<u8>, Fault> {
        let words = self.words()?;
        let mut bytes = Vec::new(self.alloc);
        bytes.resize(words.len(), 0)?;
        for (byte, x) in bytes.iter_mut().zip(words.iter()) {
            *byte = x.to_le_bytes()[0];
        }
        Ok(bytes)
    }

    // Of a digest the first 32, with zeros behind them where they are fewer.
    pub(crate) fn digest(&mut self) -> Result<[u8; 32], Fault> {
        let mut digest = [0; 32];
        let bytes = self.bytes()?;
        let n = bytes.len().min(32);
        digest[..n].copy_from_slice(&bytes[..n]);
        Ok(digest)
    }

    // Four positions.
    pub(crate) fn positions(&mut self) -> Result<Positions, Fault> {
        Ok(Positions {
            p0: self.word()?,
            p1: self.word()?,
            p2: self.word()?,
            p3: self.word()?,
        })
    }

    // Nothing is left.
    pub(crate) fn end(self) -> Result<(), Fault> {
        if self.rest.is_empty() {
            Ok(())
        } else {
            Err(Fault::BadLine)
        }
    }
}
