//! Why words ask for nothing.

use std::alloc::AllocError;
use std::fmt::{self, Display, Formatter};

/// What a command takes at a place of its words.
#[derive(Clone, Copy, Debug, PartialEq, Eq)]
pub enum Expected<'a> {
    /// The number of a call, from 1 to this one.
    Call(u32),
    /// The wanted place of `follow`.
    Want,
    /// The value of an option.
    Value {
        option: &'a str,
        low: u32,
        high: u32,
    },
    /// No further word.
    End,
}

/// Why words ask for nothing, as one line of text.
#[derive(Debug, Drop)]
pub enum Reason<'a> {
    /// There is no word.
    NoCommand,
    /// The first word is no command.
    Unknown(&'a str),
    /// A word, or the end of the words if it is `None`, in place of what the command takes there.
    Word {
        word: Option<&'a str>,
        expected: Expected<'a>,
    },
    /// The words aren't options of the command, each at most once and with a value: what `clap` says of it.
    Options(String),
    /// `save` lacks the period of its mark.
    NoPeriods,
}

/// Why there is no answer to what words ask for.
#[derive(Debug, Drop)]
pub enum Refused<'a> {
    /// They ask for nothing.
    Words(Reason<'a>),
    /// Out of memory.
    Memory,
}

impl<'a> From<Reason<'a>> for Refused<'a> {
    ghost use Rattle.std.specs.Prelude.{◌≡◌};
    ghost use Rattle.command_words.specs.declared.reason.Refused.TheVariants.{Words};

    ghost from_gives = { λ reason refused. refused ≡ Words reason };

    fn from(reason: Reason<'a>) -> Refused<'a> {
        Refused::Words(reason)
    }
}

impl<'a> From<AllocError> for Refused<'a> {
    ghost use Rattle.std.specs.Prelude.{◌≡◌};
    ghost use Rattle.command_words.specs.declared.reason.Refused.TheVariants.{Memory};

    ghost from_gives = { λ _ refused. refused ≡ Memory };

    fn from(_: AllocError) -> Refused<'a> {
        Refused::Memory
    }
}

impl Display for Expected<'_> {
    fn fmt<W: fmt::Write>(&self, f: &mut Formatter<W>) -> fmt::Result {
        match self {
            Expected::Call(high) => write!(f, "C (1 to {high})"),
            Expected::Want => f.write_str("W (0 to 316, a multiple of 4)"),
            Expected::Value { option, low, high } => {
                write!(f, "the value of --{option} ({low} to {high})")
            }
            Expected::End => f.write_str("no further word"),
        }
    }
}

// What most often makes a number a wrong one.
fn hint(word: &str) -> &'static str {
    match word.as_bytes() {
        [b'0', b'0'..=b'9', ..] => "; numbers have no leading zeros",
        _ => "",
    }
}

impl Display for Reason<'_> {
    fn fmt<W: fmt::Write>(&self, f: &mut Formatter<W>) -> fmt::Result {
        match self {
            Reason::NoCommand => f.write_str("no command is given; trau help lists them"),
            Reason::Unknown(word) => write!(f, "{word:?} is no command; trau help lists them"),
            Reason::Word {
                word: Some(word),
                expected,
            } => {
                let hint = hint(word);
                write!(f, "{word:?} where {expected} is expected{hint}")
            }
            Reason::Word {
                word: None,
                expected,
            } => write!(f, "the words end where {expected} is expected"),
            Reason::Options(said) => f.write_str(said.as_str()),
            Reason::NoPeriods => f.write_str("save needs --periods, the period of the mark"),
        }
    }
}
