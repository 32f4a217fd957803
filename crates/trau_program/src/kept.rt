//! A reader that keeps what it gave.

ghost use Rattle.std.specs.Prelude.{◌≡◌};

use std::alloc::Global;
use std::io;
use std::io::Read;

/// A reader that keeps the octets that it gave, so that one can say later what was wrong with them. If memory runs out,
/// it keeps none from then on.
#[derive(Drop)]
pub(crate) struct Kept<R: Read + Drop> {
    input: R,
    octets: Vec<u8>,
    is_whole: bool,
}

impl<R: Read + Drop> Kept<R> {
    /// A reader that has given nothing yet.
    pub(crate) fn new(alloc: Global, input: R) -> Kept<R> {
        Kept {
            input,
            octets: Vec::new(alloc),
            is_whole: true,
        }
    }

    /// All octets that it gave; `None` if it couldn't keep them.
    pub(crate) fn octets(&self) -> Option<&[u8]> {
        self.is_whole.then_some(self.octets.as_slice())
    }

    // What is still to be read stays.
    fn keep(&mut self, octets: &[u8])
        ensures { self.new.input ≡ self.old.input }
    {
        if self.is_whole && self.octets.extend_from_slice(octets).is_err() {
            self.is_whole = false;
        }
    }
}

impl<R: Read + Drop> Read for Kept<R> {
    ghost remaining = { λ kept. R.remaining kept.input };

    fn read(&mut self, buf: &mut [u8]) -> io::Result<usize> {
        let count = self.input.read(buf)?;
        self.keep(&buf[..count]);
        Ok(count)
    }
}
