//! The stream that goes out of a session.

ghost use Rattle.std.specs.Prelude.{◌≡◌, ◌<◌, ◌≤◌, ◌+◌, ◌*◌, ◌%◌, ◌^◌, true, false, length};
ghost use Rattle.rtp_packet.specs.Packet.{number_of_two, number_of_four};
ghost use Rattle.rtp_stream.specs.Places.{period_samples};
ghost use Rattle.rtp_session.specs.Outgoing.{outgoing_home, header_at, sent, left_out, gone_on, IsMedia, Carries};

use rtp_packet::{Header, written_is_read};

// The samples of a period of 20 ms, at 8,000 a second.
const PERIOD_SAMPLES: u32 = 160;

// The payload types that RTCP on the same port seems to have.
const FIRST_CONTROL: u8 = 64;

const LAST_CONTROL: u8 = 95;

/// An outgoing stream: numbered by packets, stamped by periods, also where nothing is sent.
#[derive(Clone, Copy)]
pub struct Outgoing {
    /// The payload type.
    pub payload_type: u8,
    /// Whether the next speech is the first after a gap.
    pub after_gap: bool,
    /// The next sequence number.
    pub number: u16,
    /// The time stamp of tick 0, moved on by time that was given up.
    pub timestamp: u32,
    /// The source (SSRC).
    pub source: u32,
    /// The packets that were sent, modulo 2 to the 32nd.
    pub packets: u32,
    /// The octets of their payloads, modulo 2 to the 32nd.
    pub octets: u32,
}

// The number of two octets from one on, the most significant first.
fn two(octets: &[u8], at: usize) -> u16
    requires { at + 1 < length octets.now }
    ensures { result ≡ number_of_two octets.now at }
{
    u16::from(octets[at]) * 256 + u16::from(octets[at + 1])
}

// The number of four.
fn four(octets: &[u8], at: usize) -> u32
    requires { at + 3 < length octets.now }
    ensures { result ≡ number_of_four octets.now at }
{
    u32::from(two(octets, at)) * 65536 + u32::from(two(octets, at + 2))
}

/// Whether a payload type is one of media: it has seven bits, and isn't one that RTCP on the same port seems to have.
pub fn is_media(payload_type: u8) -> bool
    ensures yes { result ≡ true → IsMedia payload_type }
    ensures no { result ≡ false → IsMedia payload_type → ⊥ }
{
    payload_type < FIRST_CONTROL || (payload_type > LAST_CONTROL && payload_type < 128)
}

impl Outgoing {
    /// Before the first packet: number, time stamp and source are of ten random octets (RFC 3550, section 5.1).
    pub fn home(payload_type: u8, random: &[u8]) -> Outgoing
        requires { length random.now ≡ 10 }
        ensures { result ≡ outgoing_home payload_type random.now }
    {
        Outgoing {
            payload_type,
            after_gap: true,
            number: two(random, 0),
            timestamp: four(random, 2),
            source: four(random, 6),
            packets: 0,
            octets: 0,
        }
    }

    // The header of the packet for a period.
    fn header(&self, tick: u32, is_speech: bool) -> Header
        ensures { result ≡ header_at self.now tick is_speech }
    {
        Header {
            marker: self.after_gap && is_speech,
            payload_type: self.payload_type,
            sequence_number: self.number,
            timestamp: self
                .timestamp
                .wrapping_add(tick.wrapping_mul(PERIOD_SAMPLES)),
            source: self.source,
        }
    }

    /// Writes the datagram for the period at a tick.
    pub fn packet(&mut self, tick: u32, payload: &[u8], is_speech: bool, datagram: &mut [u8])
        requires media { IsMedia self.old.payload_type }
        requires period { length payload.now ≤ period_samples }
        requires size { length datagram.old ≡ 12 + length payload.now }
        ensures carries { Carries datagram.new (header_at self.old tick is_speech) payload.now }
        ensures value { self.new ≡ sent self.old (length payload.now) is_speech }
    {
        let header = written_is_read(&self.header(tick, is_speech));
        datagram[..12].copy_from_slice(&header);
        datagram[12..].copy_from_slice(payload);
        self.number = self.number.wrapping_add(1);
        self.packets = self.packets.wrapping_add(1);
        self.octets = self.octets.wrapping_add(payload.len() as u32);
        self.after_gap = !is_speech;
    }

    /// The clock has given up time: stamps go on as if these periods had passed.
    pub fn give_up(&mut self, periods: u32)
        ensures { self.new ≡ gone_on periods self.old }
    {
        self.timestamp = self
            .timestamp
            .wrapping_add(periods.wrapping_mul(PERIOD_SAMPLES));
        self.after_gap = true;
    }

    /// Nothing was sent in a period.
    pub fn leave_out(&mut self)
        ensures { self.new ≡ left_out self.old }
    {
        self.after_gap = true;
    }
}
