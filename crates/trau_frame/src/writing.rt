//! The bits of frames of both directions.

ghost use Rattle.std.specs.Prelude.{◌≡◌, ◌<◌, ◌≤◌};
ghost use Rattle.std.specs.Int.{bit_at};
ghost use Rattle.trau_bits.specs.Bits.{AreBits};
ghost use Rattle.trau_frame.specs.DownFrame.{HasBits, down_bits, down_control, down_data};
ghost use Rattle.trau_frame.specs.UpBits.{up_pattern, bfi_of, sid_code_of, up_control_bit, up_control, up_bits};
ghost use Rattle.trau_frame.specs.UpFrame.{up_words_of};

use crate::frames::{Class, DownFrame, IDLE_SPEECH_UP, Kind, SPEECH_UP, UpFrame};
use crate::rows::write_frame;

// C1 to C21 of an idle frame. The first five are those of IDLE_SPEECH_DOWN.
const IDLE_CONTROL: [u8; 21] = [
    0, 1, 1, 1, 0, 0, 0, 0, 0, 0, 0, 1, 1, 1, 1, 1, 1, 1, 1, 1, 1,
];
// C1 to C21 of a speech frame with SP 1. The first five are those of SPEECH_DOWN.
const SPEECH_CONTROL: [u8; 21] = [
    1, 1, 1, 0, 0, 0, 0, 0, 0, 0, 0, 1, 1, 1, 1, 1, 1, 1, 1, 1, 1,
];

// C1 to C21 of a downlink frame.
#[tactic(auto, unfolding(crate::specs::DownFrame::down_control))]
fn down_control(f: &DownFrame) -> [u8; 21]
    ensures value { result ≡ down_control f.now }
    ensures are_bits { AreBits result }
{
    match f {
        DownFrame::Idle => IDLE_CONTROL,
        DownFrame::Speech { sp, .. } => {
            let mut control = SPEECH_CONTROL;
            control[15] = u8::from(*sp);
            control
        }
    }
}

/// Writes a downlink frame over all 320 bits: a speech frame with its data bits and SP (C16), or an idle frame with
/// ones in their places. The alignment field is 0; spare and time bits are 1.
#[tactic(auto, unfolding(crate::specs::DownFrame::down_bits))]
pub fn write_down(f: &DownFrame, bits: &mut [u8; 320])
    requires { HasBits f.now }
    ensures bits { bits.new ≡ down_bits f.now }
    ensures are_bits { AreBits bits.new }
{
    let control = down_control(f);
    match f {
        DownFrame::Idle => write_frame(&control, &[1; 260], bits),
        DownFrame::Speech { d, .. } => write_frame(&control, d, bits),
    }
}

// The number in C1 to C5 of an uplink frame.
fn up_pattern(kind: Kind) -> u8
    ensures { result ≡ up_pattern kind }
{
    match kind {
        Kind::Speech => SPEECH_UP,
        Kind::Idle => IDLE_SPEECH_UP,
        Kind::Other => 0b11111,
    }
}

// The bad frame indicator of a class.
fn bfi(class: Class) -> u8
    ensures value { result ≡ bfi_of class }
    ensures bit { result < 2 }
{
    match class {
        Class::Good | Class::Sid | Class::InvalidSid => 0,
        Class::Unusable => 1,
    }
}

// The number in the silence descriptor bits of a class.
fn sid(class: Class) -> u8
    ensures { result ≡ sid_code_of class }
{
    match class {
        Class::Good | Class::Unusable => 0,
        Class::InvalidSid => 1,
        Class::Sid => 2,
    }
}

// Bit `k` of a number, counted from the lowest.
fn bit(number: u8, k: usize) -> u8
    requires { k < 8 }
    ensures value { result ≡ bit_at number k }
    ensures bit { result < 2 }
{
    number >> k & 1
}

// Control bit C`c` of an uplink frame.
fn up_control_bit(f: &UpFrame, c: usize) -> u8
    requires low { 1 ≤ c }
    requires high { c ≤ 21 }
    ensures value { result ≡ up_control_bit (up_words_of f.now) c }
    ensures bit { result < 2 }
{
    match c {
        1..=5 => bit(up_pattern(f.kind), 5 - c),
        6..=11 => bit(f.align, 11 - c),
        12 => bfi(f.class),
        13..=14 => bit(sid(f.class), 14 - c),
        15 => u8::from(f.taf),
        17 => u8::from(f.dtxd),
        _ => 1,
    }
}

// C1 to C21 of an uplink frame.
fn up_control(f: &UpFrame) -> [u8; 21]
    ensures value { result ≡ up_control (up_words_of f.now) }
    ensures are_bits { AreBits result }
{
    let mut control = [0; 21];
    for c in 0..21 {
        control[c] = up_control_bit(f, c + 1);
    }
    control
}

/// Writes an uplink frame over all 320 bits: its kind, alignment field, class, TAF, DTXd and data bits. Spare and
/// time bits are 1.
#[tactic(auto, unfolding(crate::specs::UpBits::bits_saying))]
pub fn write_up(f: &UpFrame, bits: &mut [u8; 320])
    ensures bits { bits.new ≡ up_bits f.now }
    ensures are_bits { AreBits bits.new }
{
    write_frame(&up_control(f), &f.d, bits);
}
