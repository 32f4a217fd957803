//! Laws of frames of 33 octets and their TRAU frames: what is heard is one, and what was written is read again.

ghost use Rattle.std.specs.Prelude.{◌≡◌, ◌≢◌, ◌<◌, ◌≤◌, ◌/◌, ℕ, Bool, List, length, All, IfSome, IsSome, slice_index};
ghost use Rattle.gsm_frame.specs.Packed.{magic};
ghost use Rattle.rx_handler.specs.Heard.{Heard};
ghost use Rattle.fr_sides.specs.Octets.{HeardIn};

use crate::downlink::{DownlinkFrame, read_downlink, write_downlink};
use crate::uplink::{UplinkFrame, read_uplink, write_uplink};
use gsm_frame::unpack;

/// Of a kind, TAF and 33 octets one thing is heard. So a call hears in the uplink frame that is written of a period
/// what the receive side heard in this period.
pub fn one_is_heard()
    ensures { (kind : ℕ) (taf : Bool) (octets : List ℕ) (y z : Heard) → length octets ≡ 33 → All (λ x. x < 256) octets →
        HeardIn kind taf octets y → HeardIn kind taf octets z → y ≡ z }
{}

// The entries of the array are octets, for proofs. This is known only after the array is passed to a function.
fn are_octets(octets: &[u8; 33])
    ensures { (k : ℕ) → slice_index octets.now k < 256 }
{
    let _frame = unpack(octets);
}

/// Writes an uplink frame and reads it: kind and TAF are the same, and so is the frame, unless an idle one was written.
pub fn written_uplink_is_read(frame: &[u8; 33], kind: u32, taf: bool) -> Option<UplinkFrame>
    ensures variant { IsSome result }
    ensures kind { slice_index frame.now 0 / 16 ≡ magic → kind ≤ 3 → IfSome result (λ f. f.kind ≡ kind) }
    ensures taf { IfSome result (λ f. f.taf ≡ taf) }
    ensures frame { slice_index frame.now 0 / 16 ≡ magic → kind ≢ 3 → IfSome result (λ f. f.frame ≡ frame.now) }
{
    let read = read_uplink(&write_uplink(frame, kind, taf))?;
    let again = read.frame;
    crate::laws::are_octets(&again);
    crate::laws::are_octets(frame);
    Some(read)
}

/// Writes a downlink frame and reads it: the kind is the same unless it was 2, and so is a frame of speech or silence.
pub fn written_downlink_is_read(frame: &[u8; 33], kind: u32) -> Option<DownlinkFrame>
    ensures variant { IsSome result }
    ensures kind { slice_index frame.now 0 / 16 ≡ magic → kind ≤ 3 → kind ≢ 2 → IfSome result (λ f. f.kind ≡ kind) }
    ensures frame { slice_index frame.now 0 / 16 ≡ magic → kind ≤ 1 → IfSome result (λ f. f.frame ≡ frame.now) }
{
    let read = read_downlink(&write_downlink(frame, kind))?;
    let again = read.frame;
    crate::laws::are_octets(&again);
    crate::laws::are_octets(frame);
    Some(read)
}
