//! Laws of packets, each the contract of a function: which octets are packets, and that what is written is read again.

ghost use Rattle.std.specs.Prelude.{◌≡◌, ◌<◌, ◌+◌, ◌++◌, ℕ, List, length, take, slice_index, Ok, IsOk, false};
ghost use Rattle.rtp_packet.specs.declared.packet.Packet.{Packet};
ghost use Rattle.rtp_packet.specs.Packet.{packet_of, header_of, is_control, plain_octet};
ghost use Rattle.rtp_packet.specs.Layout.{IsPacket};

use crate::header::Header;

/// A datagram is read as a packet exactly if it has the parts of this packet.
pub fn one_packet()
    ensures taken { (octets : List ℕ) (p : Packet) → packet_of octets ≡ Ok p → IsPacket octets p }
    ensures only { (octets : List ℕ) (p : Packet) → IsPacket octets p → packet_of octets ≡ Ok p }
{}

/// Writes the twelve octets. With any payload behind them they are read as a packet of this header and this payload.
pub fn written_is_read(header: &Header) -> [u8; 12]
    requires payload_type { header.now.payload_type < 128 }
    requires media { is_control header.now.payload_type ≡ false }
    ensures { (payload : List ℕ) →
        packet_of (result ++ payload) ≡ Ok (record { header = header.now; from = 12; until = 12 + length payload }) }
{
    header.octets()
}
