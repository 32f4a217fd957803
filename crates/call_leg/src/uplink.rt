//! What a period of the uplink brings.

ghost use Rattle.std.specs.Prelude.{◌≡◌, ◌<◌, ◌≤◌, ◌+◌, IfSome, unwrap_or};
ghost use Rattle.frame_sync.specs.Periods.{CarriesFrame};
ghost use Rattle.call_leg.specs.Uplink.{sighting_in, sighting_of, field_of, dtx_told};
ghost use Rattle.call_leg.specs.Counted.{counted, counted_frame, sighted_in};

use crate::found::Found;
use frame_sync::Yield;
use trau_frame::{Class, Kind, read_up};
use trau_io::Counts;

/// Reads the frame that a yield carries.
pub(crate) fn read(found: &Option<Yield>) -> Found
    requires { IfSome found.now CarriesFrame }
    ensures { sighting_of result ≡ sighting_in found.now }
{
    match found {
        None => Found::Nothing,
        Some(Yield::Miss { .. }) => Found::Missed,
        Some(Yield::Frame { bits, .. }) => Found::Frame(read_up(bits)),
    }
}

/// The alignment field of a frame of speech or idle; 0 if there is none.
pub(crate) fn asked(found: &Found) -> u8
    ensures value { result ≡ unwrap_or (field_of (sighting_of found.now)) 0 }
    ensures within { result ≤ 63 }
{
    match found {
        Found::Frame(f) => match f.kind {
            Kind::Speech | Kind::Idle => f.align,
            Kind::Other => 0,
        },
        Found::Nothing | Found::Missed => 0,
    }
}

/// DTXd of a speech frame, if one came.
pub(crate) fn dtx_told(found: &Found) -> Option<bool>
    ensures { result ≡ dtx_told (sighting_of found.now) }
{
    match found {
        Found::Frame(f) => match f.kind {
            Kind::Speech => Some(f.dtxd),
            Kind::Idle | Kind::Other => None,
        },
        Found::Nothing | Found::Missed => None,
    }
}

// Counts a frame: a speech frame by its class, any other by its kind.
fn count_frame(counts: &mut Counts, kind: Kind, class: Class)
    requires { sighted_in counts.old < 4294967295 }
    ensures value { counts.new ≡ counted_frame kind class counts.old }
    ensures once { sighted_in counts.new ≡ sighted_in counts.old + 1 }
{
    match kind {
        Kind::Speech => match class {
            Class::Good => counts.good += 1,
            Class::Sid => counts.sid += 1,
            Class::InvalidSid => counts.invalid += 1,
            Class::Unusable => counts.bad += 1,
        },
        Kind::Idle => counts.idle += 1,
        Kind::Other => counts.other += 1,
    }
}

/// Counts a period.
pub(crate) fn count(counts: &mut Counts, found: &Found)
    requires { sighted_in counts.old < 4294967295 }
    ensures value { counts.new ≡ counted (sighting_of found.now) counts.old }
    ensures once { sighted_in counts.new ≡ sighted_in counts.old + 1 }
{
    match found {
        Found::Nothing => counts.none += 1,
        Found::Missed => counts.miss += 1,
        Found::Frame(f) => count_frame(counts, f.kind, f.class),
    }
}
