//! Frames of both directions, and the numbers in their bits C1 to C5 (this project's profile, modelled on GSM 08.60).

ghost use Rattle.std.specs.Prelude.{◌≤◌};
ghost use Rattle.trau_bits.specs.Bits.{AreBits};

/// C1 to C5 of a speech frame of an uplink.
pub const SPEECH_UP: u8 = 0b00010;

/// C1 to C5 of an idle speech frame of an uplink.
pub const IDLE_SPEECH_UP: u8 = 0b10000;

/// C1 to C5 of a speech frame of a downlink.
pub const SPEECH_DOWN: u8 = 0b11100;

/// C1 to C5 of an idle speech frame of a downlink.
pub const IDLE_SPEECH_DOWN: u8 = 0b01110;

/// What a frame carries, by its bits C1 to C5.
#[derive(Clone, Copy, PartialEq, Eq)]
pub enum Kind {
    /// A speech frame, good or bad, or one with a silence descriptor.
    Speech,
    /// An idle frame, which carries no speech.
    Idle,
    /// Any other pattern.
    Other,
}

/// The class of an uplink speech frame, by its bad frame indicator and its silence descriptor, modelled on GSM 06.31.
#[derive(Clone, Copy, PartialEq, Eq)]
pub enum Class {
    /// Speech.
    Good,
    /// A valid silence descriptor.
    Sid,
    /// A silence descriptor that can't be used: SID 1 or 3, or SID 2 in a bad frame.
    InvalidSid,
    /// A bad speech frame with SID 0, and every frame that isn't speech.
    Unusable,
}

/// A frame from a base station.
#[derive(Clone, Copy)]
pub struct UpFrame {
    /// What it carries, by C1 to C5.
    pub kind: Kind,
    /// Its class, by C12 to C14; Unusable if it isn't speech.
    pub class: Class,
    /// Time alignment flag: a silence descriptor is due in this period (GSM 06.31).
    pub taf: bool,
    /// Whether discontinuous transmission applies downlink.
    pub dtxd: bool,
    /// The time alignment field, 0 to 63.
    pub align: u8,
    /// Bits D1 to D260, the codec's parameters.
    pub d: [u8; 260],
    pub ghost six_bits: { align ≤ 63 },
    pub ghost are_bits: { AreBits d },
}

/// A frame to a base station.
#[derive(Clone, Copy)]
pub enum DownFrame {
    /// No speech: its data bits are ones.
    Idle,
    /// Speech, or a silence descriptor.
    Speech {
        /// Bits D1 to D260, the codec's parameters.
        d: [u8; 260],
        /// SP: the frame carries speech, and not a silence descriptor (GSM 06.31).
        sp: bool,
    },
}
