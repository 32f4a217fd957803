//! The name of a line, and the error of an operation that failed.

ghost use Rattle.call_number.specs.CallNumber.{IsCallNumber};

/// Which of a call's four lines.
#[derive(Clone, Copy, PartialEq, Eq)]
pub enum Side {
    /// From the base station: 40 octets (one frame of 320 bits) a period of 20 ms.
    Up,
    /// From the telephone exchange: 160 octets of A-law or mu-law (G.711) a period.
    Pcm,
    /// To the base station: 40 octets a period.
    Down,
    /// To the telephone exchange: 160 octets of A-law or mu-law (G.711) a period.
    Out,
}

impl Side {
    ghost use Rattle.std.specs.Prelude.{◌≡◌, ◌≤◌, length};
    ghost use Rattle.trau_io.specs.Texts.{side_word};

    /// The side's word in texts and file names.
    pub fn word(self) -> &'static str
        ensures word { result.now ≡ side_word self }
        ensures short { length result.now ≤ 4 }
    {
        match self {
            Side::Up => "up",
            Side::Pcm => "pcm",
            Side::Down => "down",
            Side::Out => "out",
        }
    }
}

/// A line: a call's number, 1 to 4,096, and a side.
#[derive(Clone, Copy, PartialEq, Eq)]
pub struct Line {
    pub call: u32,
    pub side: Side,
    pub ghost number: { IsCallNumber call },
}

/// The operation failed and was counted as a fault.
#[derive(Clone, Copy, PartialEq, Eq)]
pub struct Failed;
