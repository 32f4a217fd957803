//! The twelve octets that begin each packet.

ghost use Rattle.std.specs.Prelude.{◌≡◌, ◌<◌, ◌≤◌, ◌+◌, ◌++◌, ℕ, List, length, slice_index, Ok};
ghost use Rattle.rtp_packet.specs.Packet.{header_of, number_of_two, number_of_four, packet_of, plain_octet};

/// What the twelve octets say of a packet and its stream.
#[derive(Clone, Copy)]
pub struct Header {
    /// The marker: the first speech after a gap (RFC 3551, section 4.1).
    pub marker: bool,
    /// The payload type, below 128.
    pub payload_type: u8,
    /// The sequence number.
    pub sequence_number: u16,
    /// The time stamp, in samples.
    pub timestamp: u32,
    /// The source of the stream (SSRC).
    pub source: u32,
}

// The number of two octets, the most significant first.
fn two(octets: &[u8], at: usize) -> u16
    requires { at + 2 ≤ length octets.now }
    ensures { result ≡ number_of_two octets.now at }
{
    u16::from(octets[at]) * 256 + u16::from(octets[at + 1])
}

// The number of four octets.
fn four(octets: &[u8], at: usize) -> u32
    requires { at + 4 ≤ length octets.now }
    ensures { result ≡ number_of_four octets.now at }
{
    u32::from(two(octets, at)) * 65536 + u32::from(two(octets, at + 2))
}

impl Header {
    /// What the first twelve octets say.
    pub fn of(octets: &[u8]) -> Header
        requires { 12 ≤ length octets.now }
        ensures value { result ≡ header_of octets.now }
        ensures payload_type { result.payload_type < 128 }
    {
        Header {
            marker: octets[1] >= 128,
            payload_type: octets[1] % 128,
            sequence_number: two(octets, 2),
            timestamp: four(octets, 4),
            source: four(octets, 8),
        }
    }

    /// The twelve octets of a packet without contributing sources, extension and padding.
    pub fn octets(&self) -> [u8; 12]
        requires { self.now.payload_type < 128 }
        ensures first { slice_index result 0 ≡ plain_octet }
        ensures value { header_of result ≡ self.now }
    {
        let second = if self.marker {
            128 + self.payload_type
        } else {
            self.payload_type
        };
        let (number, timestamp, source) = (self.sequence_number, self.timestamp, self.source);
        [
            128,
            second,
            (number / 256) as u8,
            (number % 256) as u8,
            (timestamp / 16777216) as u8,
            (timestamp / 65536 % 256) as u8,
            (timestamp / 256 % 256) as u8,
            (timestamp % 256) as u8,
            (source / 16777216) as u8,
            (source / 65536 % 256) as u8,
            (source / 256 % 256) as u8,
            (source % 256) as u8,
        ]
    }
}
