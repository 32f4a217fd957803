//! What the grammar has at a place of an order's line.

ghost use Rattle.std.specs.Prelude.{◌≡◌, option_map, true, false, Some, IfSome, IsNone};
ghost use Rattle.trau_orders.specs.Reasons.{verb_word, argument_of, Admits};
ghost use Rattle.trau_orders.specs.declared.expected.Verb.{Verb as OneVerb};

use crate::line::{LAST_STAMP, call_of, is_word, law_of, level_of, mode_of};
use decimal_number::number_of_octets;
use std::fmt::{self, Display, Formatter};

/// The word that says what is ordered.
#[derive(Clone, Copy, PartialEq, Eq)]
pub enum Verb {
    Open,
    Close,
    Bridge,
    Unbridge,
    Level,
    Dtx,
}

/// What a line may have at a place: a word of a kind, or its end.
#[derive(Clone, Copy, Debug, PartialEq, Eq)]
pub enum Expected {
    /// The period of the order, from this one on: that of the order before, or 0.
    Stamp(u32),
    /// What is ordered.
    Verb,
    /// The number of a call.
    Call,
    /// The law of a call that is opened. A-law has no word.
    Law,
    /// The peak from which a frame counts as speech.
    Level,
    /// When pauses go out as silence descriptors.
    Mode,
    /// No further word.
    End,
}

impl Verb {
    /// The verb that a word is.
    pub(crate) fn of(word: &[u8]) -> Option<Verb>
        ensures some { IfSome result (λ verb. word.now ≡ verb_word verb) }
        ensures none { IsNone result → (verb : OneVerb) → word.now ≡ verb_word verb → ⊥ }
    {
        if is_word(word, b"open") {
            Some(Verb::Open)
        } else if is_word(word, b"close") {
            Some(Verb::Close)
        } else if is_word(word, b"bridge") {
            Some(Verb::Bridge)
        } else if is_word(word, b"unbridge") {
            Some(Verb::Unbridge)
        } else if is_word(word, b"level") {
            Some(Verb::Level)
        } else if is_word(word, b"dtx") {
            Some(Verb::Dtx)
        } else {
            None
        }
    }

    /// What its line has after the call.
    pub(crate) fn argument(self) -> Expected
        ensures { result ≡ argument_of self }
    {
        match self {
            Verb::Open => Expected::Law,
            Verb::Close | Verb::Unbridge => Expected::End,
            Verb::Bridge => Expected::Call,
            Verb::Level => Expected::Level,
            Verb::Dtx => Expected::Mode,
        }
    }
}

impl Expected {
    /// Whether a line may have this at the place: a word, or its end if it is `None`.
    pub(crate) fn admits(self, place: Option<&[u8]>) -> bool
        ensures yes { result ≡ true → Admits self (option_map (λ w. w.now) place.entry) }
        ensures no { result ≡ false → Admits self (option_map (λ w. w.now) place.entry) → ⊥ }
    {
        match place {
            None => matches!(self, Expected::Law | Expected::End),
            Some(word) => self.admits_word(word),
        }
    }

    fn admits_word(self, word: &[u8]) -> bool
        ensures yes { result ≡ true → Admits self (Some word.now) }
        ensures no { result ≡ false → Admits self (Some word.now) → ⊥ }
    {
        match self {
            Expected::Stamp(least) => number_of_octets(word, least, LAST_STAMP).is_some(),
            Expected::Verb => Verb::of(word).is_some(),
            Expected::Call => call_of(word).is_some(),
            Expected::Law => law_of(word).is_some(),
            Expected::Level => level_of(word).is_some(),
            Expected::Mode => mode_of(word).is_some(),
            Expected::End => false,
        }
    }
}

impl Display for Expected {
    fn fmt<W: fmt::Write>(&self, f: &mut Formatter<W>) -> fmt::Result {
        match self {
            Expected::Stamp(0) => f.write_str("a period (0 to 4294967294)"),
            Expected::Stamp(least) => {
                write!(
                    f,
                    "a period ({least}, that of the order before, to 4294967294)"
                )
            }
            Expected::Verb => f.write_str("open, close, bridge, unbridge, level or dtx"),
            Expected::Call => f.write_str("a call (1 to 4096)"),
            Expected::Law => f.write_str("mulaw, or nothing for A-law,"),
            Expected::Level => f.write_str("a level (0 to 32767)"),
            Expected::Mode => f.write_str("on, off or uplink"),
            Expected::End => f.write_str("the line's end"),
        }
    }
}
