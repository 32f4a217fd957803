//! Uplinks that no base station sends.

ghost use Rattle.std.specs.Prelude.{◌≡◌, ◌*◌, ◌≤◌, IfOk};
ghost use Rattle.trau_bits.specs.Bits.{AreBits};
ghost use Rattle.trau_params.specs.Bits260.{bits260};
ghost use Rattle.farm_drill.specs.Hostile.{zero_fields, good_bits, zero_bits, cut_bits, hostile_kind, hostile_octets, hostile_line};

use crate::frames::{bits, octets};
use std::alloc::{AllocError, Global};
use trau_frame::{Class, Kind, UpFrame};
use trau_params::Params;

/// What a hostile line consists of.
#[derive(Clone, Copy)]
pub enum HostileKind {
    /// Zeros alone.
    Zeros,
    /// Ones alone.
    Ones,
    /// Frames of zero samples that ask for the greatest delay.
    GreatestDelay,
    /// Frames of zero samples that ask for an advance.
    Advance,
    /// Frames of zero samples without their last 15 bits.
    Cut,
    /// Good frames whose data bits are all 1.
    DataOnes,
}

// How many bits of each frame of zero samples a line of cut frames has.
const CUT: usize = 305;

// What the line with a number consists of.
#[tactic(auto, unfolding(crate::specs::Hostile::hostile_kind))]
fn kind_of(number: u8) -> HostileKind
    requires { number ≤ 5 }
    ensures { result ≡ hostile_kind number }
{
    match number {
        0 => HostileKind::Zeros,
        1 => HostileKind::Ones,
        2 => HostileKind::GreatestDelay,
        3 => HostileKind::Advance,
        4 => HostileKind::Cut,
        _ => HostileKind::DataOnes,
    }
}

// The data bits of a frame of zero samples.
fn zero_data() -> [u8; 260]
    ensures value { result ≡ bits260 zero_fields }
    ensures bits { AreBits result }
{
    let larc = [32, 32, 20, 11, 8, 5, 3, 2];
    let zero = Params::new(larc, [40; 4], [0; 4], [0; 4], [0; 4], [[4; 13]; 4]);
    let mut data = [0; 260];
    zero.to_bits(&mut data);
    data
}

// The bits of a good frame with this alignment field and these data bits.
#[tactic(auto, unfolding(crate::specs::Hostile::good_bits))]
fn good(align: u8, d: [u8; 260]) -> [u8; 320]
    requires align { align ≤ 63 }
    requires bits { AreBits d }
    ensures value { result ≡ good_bits align d }
    ensures bits { AreBits result }
{
    bits(&UpFrame {
        kind: Kind::Speech,
        class: Class::Good,
        taf: false,
        dtxd: false,
        align,
        d,
    })
}

// The bits of a frame of zero samples with this alignment field.
#[tactic(auto, unfolding(crate::specs::Hostile::zero_bits))]
fn zero(align: u8) -> [u8; 320]
    requires { align ≤ 63 }
    ensures value { result ≡ zero_bits align }
    ensures bits { AreBits result }
{
    good(align, zero_data())
}

// The bits of a period of a line of cut frames.
fn cut(period: u32) -> [u8; 320]
    requires { period ≤ 1000 }
    ensures value { result ≡ cut_bits period }
    ensures bits { AreBits result }
{
    let frame = zero(0);
    let mut bits = [0; 320];
    for i in 0..320 {
        bits[i] = frame[(320 * period as usize + i) % CUT];
    }
    bits
}

// The octets of a period of a hostile line.
#[tactic(auto, unfolding(crate::specs::Hostile::hostile_octets))]
fn period_octets(kind: HostileKind, period: u32) -> [u8; 40]
    requires { period ≤ 1000 }
    ensures { result ≡ hostile_octets kind period }
{
    match kind {
        HostileKind::Zeros => [0x00; 40],
        HostileKind::Ones => [0xFF; 40],
        HostileKind::GreatestDelay => octets(&zero(39)),
        HostileKind::Advance => octets(&zero(63)),
        HostileKind::Cut => octets(&cut(period)),
        HostileKind::DataOnes => octets(&good(0, [1; 260])),
    }
}

/// An Up line that no base station sends, of `periods` periods of 40 octets, at most 1,000. By its kind, 0 to 5: 0 is
/// all zeros and 1 all ones; in 2 each frame asks for the greatest delay and in 3 for an advance; in 4 each frame is
/// cut after its 305th bit, the least distance at which two places can match; in 5 all data bits are 1. An error says
/// that memory ran out.
pub fn hostile(alloc: Global, kind: u8, periods: u32) -> Result<Vec<u8>, AllocError>
    requires kind { kind ≤ 5 }
    requires periods { periods ≤ 1000 }
    ensures { IfOk result (λ line. line.items ≡ hostile_line kind periods) }
{
    let consists_of = kind_of(kind);
    let mut line = Vec::with_capacity(alloc, 40 * periods as usize)?;
    for period in 0..periods {
        line.extend_from_slice(&period_octets(consists_of, period))?;
    }
    Ok(line)
}
