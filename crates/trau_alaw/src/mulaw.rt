//! Mu-law: an octet's sample, and a sample's octet.

ghost use Rattle.std.specs.Prelude.{◌≡◌, ◌+◌, ◌/◌, ◌%◌, ◌<◌, ◌≤◌};
ghost use Rattle.trau_alaw.specs.Companding.{middle, octet_of, IsOnlyOctet};
ghost use Rattle.trau_alaw.specs.Mulaw.{mulaw, mulaw_least, mulaw_end, mulaw_centre};

use crate::magnitude_of;

// What is added to a magnitude, so that the magnitudes of a segment share their highest bit.
const BIAS: u16 = 132;

// Greater magnitudes are taken as this one: all belong to the last interval.
const CLIP: u16 = 32635;

/// The sample of 16 bits that an octet of mu-law stands for.
pub(crate) fn expand(octet: u8) -> i16
    ensures { result ≡ middle (mulaw octet) }
{
    let code = octet ^ 0xFF;
    let magnitude = centre_of(code / 16 % 8, code % 16).cast_signed();
    if code < 128 { magnitude } else { -magnitude }
}

/// The octet of mu-law that a sample of 16 bits is sent as.
pub(crate) fn compress(x: i16) -> u8
    ensures value { result ≡ octet_of mulaw x }
    ensures only { IsOnlyOctet mulaw x result }
{
    let sign = if x < 0 { 128 } else { 0 };
    (sign + segment_and_step(magnitude_of(x))) ^ 0xFF
}

// The magnitude that stands for one step of a segment.
fn centre_of(segment: u8, step: u8) -> u16
    requires segment { segment < 8 }
    requires step { step < 16 }
    ensures value { result ≡ mulaw_centre segment step }
    ensures below { result < 32768 }
{
    ((2 * u16::from(step) + 33) << (segment + 2)) - BIAS
}

// Segment (three bits) and step (four bits) of the interval that contains the magnitude.
//
// After BIAS is added, the magnitudes of a segment share their highest bit, and the step is the next four bits.
fn segment_and_step(magnitude: u16) -> u8
    requires { magnitude < 32768 }
    ensures below { result < 128 }
    ensures at_least { mulaw_least (result / 16) (result % 16) ≤ magnitude }
    ensures within { magnitude < mulaw_end (result / 16) (result % 16) }
{
    let raised = magnitude.min(CLIP) + BIAS;
    let segment = raised.ilog2() - 7;
    (16 * segment + u32::from(raised >> (segment + 3)) - 16) as u8
}
