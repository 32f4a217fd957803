//! The code word of a silence descriptor (GSM 06.12), for frames that come without C13 and C14.

ghost use Rattle.std.specs.Prelude.{◌≡◌, ◌≤◌, length, map, sum};
ghost use Rattle.trau_params.specs.Fields.{fields_of};
ghost use Rattle.fr_sides.specs.CodeWord.{high_bit, high_bits, wrong_bits, KindIn};

use crate::kinds::{LOST, SID, SPEECH};
use gsm_frame::unpack;
use trau_params::Params;

// With so many wrong bits, or more, a frame is speech.
const SPEECH_FROM: u64 = 16;

// With so many it is an invalid descriptor.
const INVALID_FROM: u64 = 2;

// The highest bits of pulses.
fn high(pulses: &[u8]) -> u32
    requires { length pulses.now ≤ 13 }
    ensures { result ≡ sum (map high_bit pulses.now) }
{
    pulses.iter().map(|p| u32::from(*p / 4)).sum()
}

// Their two highest bits.
fn both(pulses: &[u8]) -> u32
    requires { length pulses.now ≤ 13 }
    ensures { result ≡ sum (map high_bits pulses.now) }
{
    pulses
        .iter()
        .map(|p| u32::from(*p / 4) + u32::from(*p / 2 % 2))
        .sum()
}

// How many bits of the code word are wrong.
#[tactic(auto, unfolding(crate::specs::CodeWord::wrong_bits))]
fn wrong_bits(p: &Params) -> u64
    ensures { result ≡ wrong_bits (fields_of p.now) }
{
    let [first, second, third, last] = &p.xmc;
    u64::from(both(first))
        + u64::from(both(second))
        + u64::from(both(third))
        + u64::from(both(&last[..4]))
        + u64::from(high(&last[4..]))
}

/// The kind of a frame by its code word (GSM 06.31, section 6.1): SPEECH, SID, or LOST if it can't be used, as also for
/// octets that don't begin with the four bits 1101.
pub fn kind_of_octets(frame: &[u8; 33]) -> u32
    ensures { KindIn frame.now result }
{
    match unpack(frame) {
        None => LOST,
        Some(p) => {
            let wrong = wrong_bits(&p);
            if wrong >= SPEECH_FROM {
                SPEECH
            } else if wrong >= INVALID_FROM {
                LOST
            } else {
                SID
            }
        }
    }
}
