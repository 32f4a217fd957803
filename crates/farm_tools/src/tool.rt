//! The tools that write a line.

/// A tool: it reads the blocks of one line of a call, and writes another.
#[derive(Clone, Copy, PartialEq, Eq)]
pub enum Tool {
    /// Good speech frames of the uplink, bits unchanged, to the downlink.
    Relay,
    /// Good speech frames of the uplink, decoded, to the Out line.
    Decode,
    /// Periods of the Pcm line, encoded, to the downlink.
    Encode,
}
