//! What a period brings to the receive side (the classes of GSM 06.31), and the frame of an uplink that brings it.

ghost use Rattle.std.specs.Prelude.{◌≡◌};
ghost use Rattle.std.specs.Option.{option_copied};
ghost use Rattle.rx_handler.specs.Heard.{heard_of, heard_frame};
ghost use Rattle.rx_handler.specs.State.{heard_fields};

use trau_frame::{Class, Kind, UpFrame};
use trau_params::Params;

/// What a period brings to the receive side (the classes of GSM 06.31).
#[derive(Clone, Copy)]
pub enum Reception {
    /// Good speech.
    Good(Params),
    /// A valid silence descriptor.
    Sid(Params),
    /// An idle frame, which makes the call quiet.
    Idle,
    /// All else, which counts as lost: true if it was unusable speech where a silence descriptor was due (TAF 1).
    Lost(bool),
}

/// What a period of an uplink brings. None stands for a miss and for a period without a yield.
pub(crate) fn brought(y: Option<&UpFrame>) -> Reception
    ensures { heard_fields result ≡ heard_of (option_copied y.entry) }
{
    match y {
        Some(f) => in_frame(f),
        None => Reception::Lost(false),
    }
}

fn in_frame(f: &UpFrame) -> Reception
    ensures { heard_fields result ≡ heard_frame f.now.kind f.now.class f.now.taf f.now.d }
{
    match (f.kind, f.class) {
        (Kind::Speech, Class::Good) => Reception::Good(Params::from_bits(&f.d)),
        (Kind::Speech, Class::Sid) => Reception::Sid(Params::from_bits(&f.d)),
        (Kind::Speech, Class::InvalidSid) => Reception::Lost(false),
        // TAF 1: a silence descriptor was due in this period.
        (Kind::Speech, Class::Unusable) => Reception::Lost(f.taf),
        (Kind::Idle, _) => Reception::Idle,
        (Kind::Other, _) => Reception::Lost(false),
    }
}
