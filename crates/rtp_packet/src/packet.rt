//! A datagram as a packet.

ghost use Rattle.std.specs.Prelude.{◌≡◌, ◌<◌, ◌≤◌, length, Ok, IfOk};
ghost use Rattle.rtp_packet.specs.declared.packet.Packet.{Packet};
ghost use Rattle.rtp_packet.specs.Layout.{IsPacket};
ghost use Rattle.rtp_packet.specs.Packet.{packet_of, payload_from, padding_of};

use crate::header::Header;

/// A packet of a datagram: its payload lies between contributing sources, extension and padding.
#[derive(Clone, Copy)]
pub struct Packet {
    /// What its first twelve octets say.
    pub header: Header,
    /// The payload's first octet.
    pub from: usize,
    /// The octet after its last one.
    pub until: usize,
}

/// Why a datagram isn't a packet.
#[derive(Clone, Copy)]
pub enum Refusal {
    /// It has less than twelve octets.
    Short,
    /// It is of another version than 2.
    Version,
    /// Its payload type is one of 64 to 95, as that of RTCP on the same port seems to be (RFC 5761).
    Control,
    /// It ends within its contributing sources, or in the extension's first four octets.
    Cut,
    /// It says that it has padding, and its last octet, the padding's size, is 0.
    Padding,
    /// Extension and padding have more octets than it.
    Overlap,
}

// The octet at which the payload begins, where the datagram has so many octets; and the octets that it needs for this.
fn payload_from(octets: &[u8]) -> Option<usize>
    requires { 12 ≤ length octets.now }
    ensures { result ≡ payload_from octets.now }
{
    let sources = 12 + 4 * usize::from(octets[0] % 16);
    if octets[0] / 16 % 2 == 0 {
        if octets.len() < sources {
            None
        } else {
            Some(sources)
        }
    } else if octets.len() < sources + 4 {
        None
    } else {
        let words = usize::from(octets[sources + 2]) * 256 + usize::from(octets[sources + 3]);
        Some(sources + 4 + 4 * words)
    }
}

// The octets of the padding, which its last octet says; None if that is 0.
fn padding(octets: &[u8]) -> Option<usize>
    requires { 12 ≤ length octets.now }
    ensures { result ≡ padding_of octets.now }
{
    if octets[0] / 32 % 2 == 0 {
        return Some(0);
    }
    let count = usize::from(octets[octets.len() - 1]);
    if count == 0 { None } else { Some(count) }
}

// The packet in a datagram, as defined.
#[tactic(auto, unfolding(crate::specs::Packet::packet_of))]
fn parsed(octets: &[u8]) -> Result<Packet, Refusal>
    ensures value { result ≡ packet_of octets.now }
    ensures payload_type { IfOk result (λ p. p.header.payload_type < 128) }
    ensures order { IfOk result (λ p. p.from ≤ p.until) }
    ensures within { IfOk result (λ p. p.until ≤ length octets.now) }
{
    if octets.len() < 12 {
        return Err(Refusal::Short);
    }
    if octets[0] / 64 != 2 {
        return Err(Refusal::Version);
    }
    let header = Header::of(octets);
    if header.payload_type >= 64 && header.payload_type <= 95 {
        return Err(Refusal::Control);
    }
    let Some(from) = payload_from(octets) else {
        return Err(Refusal::Cut);
    };
    let Some(padding) = padding(octets) else {
        return Err(Refusal::Padding);
    };
    if octets.len() < from + padding {
        return Err(Refusal::Overlap);
    }
    Ok(Packet {
        header,
        from,
        until: octets.len() - padding,
    })
}

/// The packet in a datagram, whatever octets it has.
pub fn parse(octets: &[u8]) -> Result<Packet, Refusal>
    ensures value { result ≡ packet_of octets.now }

    // It is a packet exactly if it has the parts of one, in their order.
    ensures taken { IfOk result (λ p. IsPacket octets.now p) }
    ensures only { (p : Packet) → IsPacket octets.now p → result ≡ Ok p }
    ensures payload_type { IfOk result (λ p. p.header.payload_type < 128) }
    ensures order { IfOk result (λ p. p.from ≤ p.until) }
    ensures within { IfOk result (λ p. p.until ≤ length octets.now) }
{
    parsed(octets)
}
