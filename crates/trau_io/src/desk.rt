//! A source of orders and a sink for texts.

ghost use Rattle.std.specs.Prelude.{◌<◌, length};
ghost use Rattle.trau_io.specs.Desks.{DeskState, DeskReads, DeskWrites};

use crate::Failed;

/// Reads orders and writes texts. Each direction has its own count of faults.
pub trait Desk {
    /// What is known of the desk.
    ghost desk: { Self → DeskState };

    /// Reads the next octets of the orders into the start of `buf` and returns how many. `Ok(0)` is the orders'
    /// end. `Failed` means that nothing was read.
    fn read(&mut self, buf: &mut [u8]) -> Result<usize, Failed>
        requires { 0 < length buf.old }
        ensures { DeskReads (desk self.old) (desk self.new) result buf.new };

    /// Appends a prefix of `bytes` to the texts and returns its length, at least one octet. `Failed` means that
    /// nothing was appended.
    fn write(&mut self, bytes: &[u8]) -> Result<usize, Failed>
        requires { 0 < length bytes.now }
        ensures { DeskWrites (desk self.old) (desk self.new) result bytes.now };
}
