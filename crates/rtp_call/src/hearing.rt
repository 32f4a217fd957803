//! What a period brought from the base station (RFC 3551, section 4.5.8.1; the numbers are this project's profile).

ghost use Rattle.std.specs.Prelude.{◌≡◌, ◌==◌, ◌&&◌, not, false, is_some};
ghost use Rattle.rtp_call.specs.Hearing.{hearing_home, counted_if, descriptor_kind, is_invalid, IsKind, frame_in, IsMadeGood, IsFrameOf, since_after, is_due, Hears};

use call_coders::Brought;
use fr_sides::{LOST, SID, SPEECH, kind_of_octets};
use gsm_frame::pack;
use trau_params::silence;

// The four bits with which a frame begins.
const MAGIC: u8 = 13;

// While comfort noise goes on, a silence descriptor is due in each 24th period after the last one (GSM 06.31).
const DESCRIPTOR_PERIODS: u32 = 24;

/// What is kept of the frames that came.
#[derive(Clone, Copy)]
pub struct Hearing {
    /// Whether the first period is still to come, and becomes a frame of silence if it brings no good one.
    pub is_to_prime: bool,
    /// While comfort noise goes on: the periods since the last silence descriptor; after 24 it is 1 again.
    pub since_descriptor: Option<u32>,
    /// Periods that brought speech.
    pub speech: u32,
    /// Those that brought a silence descriptor.
    pub descriptors: u32,
    /// Those that brought a frame that can't be used.
    pub invalid: u32,
    /// Those that brought no frame.
    pub none: u32,
    /// Those of them whose octets were no frame.
    pub no_frames: u32,
}

// The kind of a frame; a period without one is lost.
fn kind_of(frame: Option<[u8; 33]>) -> u32
    ensures { IsKind frame result }
{
    match frame {
        None => LOST,
        Some(octets) => kind_of_octets(&octets),
    }
}

impl Hearing {
    /// Before the first period. `prime`: a first period without a good frame brings one of silence.
    pub fn home(prime: bool) -> Hearing
        ensures { result ≡ hearing_home prime }
    {
        Hearing {
            is_to_prime: prime,
            since_descriptor: None,
            speech: 0,
            descriptors: 0,
            invalid: 0,
            none: 0,
            no_frames: 0,
        }
    }

    // What came, unless its octets don't begin as a frame does.
    fn frame_in(&mut self, came: Option<[u8; 33]>) -> Option<[u8; 33]>
        ensures value { result ≡ frame_in came }
        ensures no_frames { self.new.no_frames ≡ counted_if (not (is_some result) && is_some came) self.old.no_frames }
        ensures others { self.new ≡ record self.old { no_frames = self.new.no_frames } }
    {
        match came {
            Some(octets) if octets[0] / 16 != MAGIC => {
                self.no_frames = self.no_frames.wrapping_add(1);
                None
            }
            _ => came,
        }
    }

    // What came in the first period, or silence, if that can't be used.
    fn make_good(&mut self, came: Option<[u8; 33]>) -> Option<[u8; 33]>
        ensures frame { IsMadeGood came result }
        ensures no_frames { self.new.no_frames ≡ counted_if (not (is_some result) && is_some came) self.old.no_frames }
        ensures others { self.new ≡ record self.old { no_frames = self.new.no_frames } }
    {
        if kind_of(came) == LOST {
            return Some(pack(&silence()));
        }
        self.frame_in(came)
    }

    // The frame of a period.
    fn frame_of(&mut self, came: Option<[u8; 33]>) -> Option<[u8; 33]>
        ensures frame { IsFrameOf self.old.is_to_prime came result }
        ensures no_frames { self.new.no_frames ≡ counted_if (not (is_some result) && is_some came) self.old.no_frames }
        ensures others { self.new ≡ record self.old { is_to_prime = false; no_frames = self.new.no_frames } }
    {
        if self.is_to_prime {
            self.is_to_prime = false;
            return self.make_good(came);
        }
        self.frame_in(came)
    }

    // Counts a period by what it brought.
    fn count(&mut self, has_frame: bool, kind: u32)
        ensures speech { self.new.speech ≡ counted_if (has_frame && (kind == 0)) self.old.speech }
        ensures descriptors { self.new.descriptors ≡ counted_if (has_frame && (kind == descriptor_kind)) self.old.descriptors }
        ensures invalid { self.new.invalid ≡ counted_if (has_frame && is_invalid kind) self.old.invalid }
        ensures none { self.new.none ≡ counted_if (not has_frame) self.old.none }
        ensures others { self.new ≡ record self.old { speech = self.new.speech; descriptors = self.new.descriptors; invalid = self.new.invalid; none = self.new.none } }
    {
        if !has_frame {
            self.none = self.none.wrapping_add(1);
        } else if kind == SPEECH {
            self.speech = self.speech.wrapping_add(1);
        } else if kind == SID {
            self.descriptors = self.descriptors.wrapping_add(1);
        } else {
            self.invalid = self.invalid.wrapping_add(1);
        }
    }

    // The periods since the last silence descriptor, after a period of this kind.
    fn note(&mut self, kind: u32)
        ensures { self.new ≡ record self.old { since_descriptor = since_after kind self.old.since_descriptor } }
    {
        self.since_descriptor = match (kind, self.since_descriptor) {
            (SPEECH, _) => None,
            (SID, _) => Some(0),
            (_, None) => None,
            (_, Some(periods)) => Some(periods % DESCRIPTOR_PERIODS + 1),
        };
    }

    // Whether a silence descriptor is due.
    fn is_due(&self) -> bool
        ensures { result ≡ is_due self.now.since_descriptor }
    {
        match self.since_descriptor {
            None => false,
            Some(periods) => periods == DESCRIPTOR_PERIODS,
        }
    }

    /// What a period brought, by the octets that came for it. RTP doesn't say when a descriptor was due (TAF).
    pub fn hear(&mut self, came: Option<[u8; 33]>) -> Brought
        ensures { Hears self.old self.new came result }
    {
        let frame = self.frame_of(came);
        let kind = kind_of(frame);
        self.note(kind);
        self.count(frame.is_some(), kind);
        let taf = frame.is_none() && self.is_due();
        Brought {
            frame: frame.unwrap_or([0; 33]),
            kind,
            taf,
        }
    }
}
