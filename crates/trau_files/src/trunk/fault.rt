//! Why a line failed.
ghost use Rattle.std.specs.Prelude.{◌≡◌};
ghost use Rattle.trau_files.specs.declared.trunk.fault.Fault.TheVariants.{System};

use super::name::name_of;
use std::fmt::{Display, Formatter};
use std::{fmt, io};
use trau_io::{Line, Side};

// For this many lines the reason is printed.
const TOLD: u32 = 20;

/// Why a line's file can't be opened, read or written.
#[derive(Drop)]
pub enum Fault {
    /// The system's error.
    System(io::Error),
    /// The line with this index has the same file, and one of the two is written.
    Shared(usize),
}

impl From<io::Error> for Fault {
    ghost from_gives = { λ e fault. fault ≡ System e };

    fn from(fault: io::Error) -> Fault {
        Fault::System(fault)
    }
}

impl Display for Fault {
    fn fmt<W: fmt::Write>(&self, f: &mut Formatter<W>) -> fmt::Result {
        match self {
            Fault::System(fault) => Display::fmt(fault, f),
            Fault::Shared(place) => {
                let call = *place / 4;
                let side = side_at(*place).word();
                write!(f, "this is the file of {call}.{side}")
            }
        }
    }
}

// The side of the line with an index.
fn side_at(place: usize) -> Side {
    match place % 4 {
        0 => Side::Up,
        1 => Side::Pcm,
        2 => Side::Down,
        _ => Side::Out,
    }
}

/// Prints on standard error why lines failed, for the first twenty. No clause speaks of standard error, and the report
/// of a run doesn't depend on it.
#[derive(Drop)]
pub struct Reasons {
    lines: u32,
}

impl Reasons {
    /// No line has failed yet.
    pub fn new() -> Reasons {
        Reasons { lines: 0 }
    }

    /// Prints why a line failed.
    pub fn tell<R: Eprint>(&mut self, rt: &R, line: Line, fault: &Fault) {
        self.lines = self.lines.saturating_add(1);
        if self.lines <= TOLD {
            let name = name_of(line);
            let name = name.as_str();
            let _ = eprintln!(rt; "trau: {name}: {fault}");
        }
    }

    /// Prints how many lines failed beside the first twenty.
    pub fn tell_rest<R: Eprint>(&self, rt: &R) {
        let others = self.lines.saturating_sub(TOLD);
        if others > 0 {
            let _ = eprintln!(rt; "trau: lines failed beside these: {others}");
        }
    }
}
