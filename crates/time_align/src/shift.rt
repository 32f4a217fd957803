//! The table of alignment fields.

ghost use Rattle.std.specs.Prelude.{◌≡◌, ◌≤◌, IfSome};
ghost use Rattle.time_align.specs.Shift.{shift_of, IsShift};

// Fields from 1 up to this one ask for as many steps (GSM 08.60).
const MOST_STEPS: u8 = 39;

// The octets of the Pcm line in a step, which is 500 microseconds.
const STEP_OCTETS: i16 = 4;

// The field that asks for half a step, and its shift.
const SMALL_DELAY_FIELD: u8 = 62;

const SMALL_DELAY: i16 = 2;

// The field that asks for half a step less, and its shift.
const ADVANCE_FIELD: u8 = 63;

const ADVANCE: i16 = -2;

/// The shift that an alignment field asks for, in octets of the Pcm line. If it is positive, octets are lost and the
/// downlink comes later; if it is negative, octets are taken a second time. The other fields ask for none.
#[tactic(auto, unfolding(crate::specs::Shift::shift_of))]
pub fn shift_of(field: u8) -> Option<i16>
    requires { field ≤ 63 }
    ensures value { result ≡ shift_of field }
    ensures within { IfSome result (λ shift. IsShift shift) }
{
    match field {
        1..=MOST_STEPS => Some(STEP_OCTETS * i16::from(field)),
        SMALL_DELAY_FIELD => Some(SMALL_DELAY),
        ADVANCE_FIELD => Some(ADVANCE),
        _ => None,
    }
}
