//! A-law and mu-law of a PCM line (G.711, tables 1a, 1b, 2a and 2b).
//!
//! Layer: Numbers, bits and lines.
//!
//! Converts between the Pcm and Out lines of a call and the codec: an octet of a line stands for a sample of 16 bits,
//! and a sample is sent as the octet whose interval contains it. Both directions are computed without a table.
//!
//! Definitions: `specs/Companding.antt` (a companding law, given by the interval of each octet), `specs/Alaw.antt` and
//! `specs/Mulaw.antt` (the intervals of A-law and of mu-law), `specs/Laws.antt` (the two laws by name),
//! `specs/Period.antt` (the samples and the octets of a period).
#![tactic(auto)]

mod laws;
mod mulaw;
mod period;

ghost use Rattle.std.specs.Prelude.{◌≡◌, ◌+◌, ◌/◌, ◌%◌, ◌<◌, ◌≤◌};
ghost use Rattle.trau_alaw.specs.Companding.{magnitude, middle, octet_of, IsOnlyOctet};
ghost use Rattle.trau_alaw.specs.Alaw.{alaw, alaw_least, alaw_width};
ghost use Rattle.trau_alaw.specs.Laws.{companding, idle_of};

pub use laws::{intervals_part_the_words, recompress_law};
pub use period::{compress_all, expand_all};

/// The law of a PCM line.
#[derive(Clone, Copy, PartialEq, Eq)]
pub enum Law {
    /// A-law.
    A,
    /// Mu-law.
    Mu,
}

/// The sample of 16 bits that an octet of a line with this law stands for.
pub fn expand_law(law: Law, octet: u8) -> i16
    ensures { result ≡ middle (companding law octet) }
{
    match law {
        Law::A => expand(octet),
        Law::Mu => mulaw::expand(octet),
    }
}

/// The octet that a sample of 16 bits is sent as on a line with this law.
pub fn compress_law(law: Law, x: i16) -> u8
    ensures value { result ≡ octet_of (companding law) x }
    ensures only { IsOnlyOctet (companding law) x result }
{
    match law {
        Law::A => compress(x),
        Law::Mu => mulaw::compress(x),
    }
}

/// The idle octet of a line with this law, which stands for silence.
pub fn idle_octet(law: Law) -> u8
    ensures { result ≡ idle_of law }
{
    match law {
        Law::A => 0xD5,
        Law::Mu => 0xFF,
    }
}

/// The sample of 16 bits that an A-law octet stands for: the middle of its interval.
pub fn expand(octet: u8) -> i16
    ensures { result ≡ middle (alaw octet) }
{
    let code = octet ^ 0x55;
    let magnitude = middle_of(code / 16 % 8, code % 16).cast_signed();
    if code < 128 { -magnitude } else { magnitude }
}

/// The A-law octet that a sample of 16 bits is sent as.
pub fn compress(x: i16) -> u8
    ensures value { result ≡ octet_of alaw x }
    ensures only { IsOnlyOctet alaw x result }
{
    let sign = if x < 0 { 0 } else { 128 };
    (sign + segment_and_step(magnitude_of(x))) ^ 0x55
}

// The middle of the interval of one step of a segment.
fn middle_of(segment: u8, step: u8) -> u16
    requires segment { segment < 8 }
    requires step { step < 16 }
    ensures value { result ≡ alaw_least segment step + alaw_width segment / 2 }
    ensures below { result < 32768 }
{
    let odd = 2 * u16::from(step) + 1;
    if segment == 0 {
        odd << 3
    } else {
        (odd + 32) << (segment + 2)
    }
}

// The magnitude by which intervals are defined.
fn magnitude_of(x: i16) -> u16
    ensures value { result ≡ magnitude x }
    ensures below { result < 32768 }
{
    if x < 0 {
        (-1 - x).cast_unsigned()
    } else {
        x.cast_unsigned()
    }
}

// Segment (three bits) and step (four bits) of the interval that contains the magnitude.
//
// The magnitudes of a segment from 1 on share their highest bit, and the step is the next four bits. Segment 0
// continues segment 1 downwards in the same steps. So the seven bits are the least of seven linear functions, each half
// as steep as the one before. There is no branch, so the compiler can process several samples at once.
fn segment_and_step(magnitude: u16) -> u8
    requires { magnitude < 32768 }
    ensures below { result < 128 }
    ensures at_least { alaw_least (result / 16) (result % 16) ≤ magnitude }
    ensures within { magnitude < alaw_least (result / 16) (result % 16) + alaw_width (result / 16) }
{
    let low = (magnitude >> 4).min((magnitude >> 5) + 16);
    let middle = ((magnitude >> 6) + 32).min((magnitude >> 7) + 48);
    let high = ((magnitude >> 8) + 64).min((magnitude >> 9) + 80);
    low.min(middle).min(high).min((magnitude >> 10) + 96) as u8
}
