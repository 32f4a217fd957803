//! Reading of uplink frames.

ghost use Rattle.std.specs.Prelude.{◌≡◌, ◌+◌, ◌<◌, ◌≤◌, ◌^◌, ◌==◌};
ghost use Rattle.trau_bits.specs.Bits.{AreBits};
ghost use Rattle.trau_frame.specs.Role.{Control, bit_with};
ghost use Rattle.trau_frame.specs.Frame.{Synced, number_in, data_of};
ghost use Rattle.trau_frame.specs.UpFrame.{kind_by, class_at, kind_of, class_of, Says};

use crate::frames::{Class, IDLE_SPEECH_UP, Kind, SPEECH_UP, UpFrame};
use crate::rows::{control, data};

// Whether control bit C`c` is 1.
fn flag(bits: &[u8; 320], c: usize) -> bool
    requires bits { AreBits bits.now }
    requires low { 1 ≤ c }
    requires high { c ≤ 21 }
    ensures { result ≡ (bit_with bits.now (Control c) == 1) }
{
    control(bits, c) == 1
}

// The number in `n` control bits from C`first` on, most significant first.
#[tactic(auto, unfolding(crate::specs::Frame::number_in))]
fn number(bits: &[u8; 320], first: usize, n: usize) -> u8
    requires bits { AreBits bits.now }
    requires low { 1 ≤ first }
    requires high { first + n ≤ 22 }
    requires small { n ≤ 8 }
    ensures value { result ≡ number_in bits.now first n }
    ensures bound { result < 2 ^ n }
{
    let mut value = 0;
    for k in 0..n {
        value = 2 * value + control(bits, first + k);
    }
    value
}

/// The number in C1 to C5 of a frame of either direction, which says what the frame carries.
pub fn pattern(bits: &[u8; 320]) -> u8
    requires { AreBits bits.now }
    ensures { result ≡ number_in bits.now 1 5 }
{
    number(bits, 1, 5)
}

fn kind(pattern: u8) -> Kind
    ensures { result ≡ kind_by pattern }
{
    match pattern {
        SPEECH_UP => Kind::Speech,
        IDLE_SPEECH_UP => Kind::Idle,
        _ => Kind::Other,
    }
}

fn class(kind: Kind, bfi: u8, sid: u8) -> Class
    ensures { result ≡ class_at kind bfi sid }
{
    match (kind, bfi, sid) {
        (Kind::Speech, 0, 0) => Class::Good,
        (Kind::Speech, 0, 2) => Class::Sid,
        (Kind::Speech, _, 0) => Class::Unusable,
        (Kind::Speech, _, _) => Class::InvalidSid,
        _ => Class::Unusable,
    }
}

/// Reads an uplink frame from 320 bits that carry the sync pattern. If it isn't a speech frame, its class is Unusable,
/// and its alignment field, TAF, DTXd and data bits are read all the same. Spare and time bits are ignored.
#[tactic(auto, unfolding(crate::specs::UpFrame::words_in))]
pub fn read_up(bits: &[u8; 320]) -> UpFrame
    requires bits { AreBits bits.now }
    requires synced { Synced bits.now }
    ensures says { Says bits.now result }

    // The same for the parts that most callers need.
    ensures kind { result.kind ≡ kind_of bits.now }
    ensures class { result.class ≡ class_of bits.now }
    ensures data_bits { result.d ≡ data_of bits.now }
{
    let kind = kind(pattern(bits));
    UpFrame {
        kind,
        class: class(kind, control(bits, 12), number(bits, 13, 2)),
        taf: flag(bits, 15),
        dtxd: flag(bits, 17),
        align: number(bits, 6, 6),
        d: data(bits),
    }
}
