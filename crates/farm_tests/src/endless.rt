//! Lines that never end.

ghost use Rattle.std.specs.Prelude.{None};
ghost use Rattle.trau_io.specs.Lines.{LineState};

use trau_io::{Failed, Line, Trunk};

// Each read fills the buffer, and each write takes all octets. Contracts don't know the contents of these lines.
#[derive(Drop)]
pub(crate) struct Endless {
    pub(crate) written: u64,
}

impl Trunk for Endless {
    ghost lines = { λ _ _ _. record { to_come = None; written = None; faults = 0 } };

    fn read(&mut self, _line: Line, buf: &mut [u8]) -> Result<usize, Failed> {
        for octet in buf.iter_mut() {
            *octet = 0xD5;
        }
        Ok(buf.len())
    }

    fn write(&mut self, _line: Line, bytes: &[u8]) -> Result<usize, Failed> {
        self.written = self.written.saturating_add(bytes.len() as u64);
        Ok(bytes.len())
    }
}
