//! Why a text of orders isn't in the grammar: its first line that isn't, and the word there.

ghost use Rattle.std.specs.Prelude.{◌≡◌, ◌≤◌, ℕ, option_map, IfErr, IfOk, IfSome, IsNone};
ghost use Rattle.trau_orders.specs.Places.{IsLineFrom};
ghost use Rattle.trau_orders.specs.Reasons.{hint_of, IsFirstFault, IsFirstWrong};
ghost use Rattle.trau_orders.specs.Text.{text_lines, IsFirstBad};

use crate::Expected;
use crate::places::Places;
use crate::text::split_line;
use std::fmt::{self, Display, Formatter};

// So many octets of a word are printed.
const MOST_SHOWN: usize = 40;

/// The first word of a line that no order has there.
#[derive(Clone, Copy, Debug, PartialEq, Eq)]
pub struct WordFault<'a> {
    /// The word; `None` if the line ends there.
    pub word: Option<&'a [u8]>,
    /// What an order that begins as the line does has there.
    pub expected: Expected,
}

/// The first line of a text that isn't in the grammar, and why.
#[derive(Clone, Copy, Debug, PartialEq, Eq)]
pub struct LineFault<'a> {
    /// The line's number, from 1.
    pub line: usize,
    /// Its first word that no order has there.
    pub fault: WordFault<'a>,
}

// Goes through a line, which must be that of an order from `least` on, and returns the order's stamp.
fn stamp_of_line(line: &[u8], least: u32) -> Result<u32, WordFault<'_>>
    requires { least ≤ 4294967294 }
    ensures ok { IfOk result (λ stamp. IsLineFrom line.now least stamp) }
    ensures fault { IfErr result (λ fault. IsFirstWrong least line.now (option_map (λ w. w.now) fault.word) fault.expected) }
{
    let mut places = Places::of(line);
    let stamp = places.stamp(least)?;
    let verb = places.verb()?;
    places.expect(Expected::Call)?;
    places.expect(verb.argument())?;
    places.expect(Expected::End)?;
    Ok(stamp)
}

/// The first line that isn't in the grammar, as `Orders::parse` finds it, and why it isn't; `None` if each line is.
/// No memory is needed, and the limits of a text aren't tested.
pub fn first_fault(text: &[u8]) -> Option<LineFault<'_>>
    ensures some { IfSome result (λ fault. IsFirstFault text.now fault.line (option_map (λ w. w.now) fault.fault.word) fault.fault.expected) }
    ensures none { IsNone result → (n : ℕ) → IsFirstBad (text_lines text.now) n → ⊥ }
{
    let mut before = 0usize;
    let mut least = 0;
    let mut rest = text;
    while let Some((line, after)) = split_line(rest) {
        match stamp_of_line(line, least) {
            Ok(stamp) => least = stamp,
            Err(fault) => {
                return Some(LineFault {
                    line: before + 1,
                    fault,
                });
            }
        }
        before += 1;
        rest = after;
    }
    None
}

/// What most often makes a word a wrong one.
#[derive(Clone, Copy, Debug, PartialEq, Eq)]
pub enum Hint {
    /// The word is empty: two spaces follow one another, or a space begins or ends the line.
    OneSpace,
    /// It begins with `#`.
    NoComments,
    /// It ends with CR.
    LfAlone,
    /// It begins with 0, and another digit follows.
    NoLeadingZeros,
}

impl Hint {
    // The first of the hints, in their order, that fits a word.
    fn of(word: &[u8]) -> Option<Hint>
        ensures { result ≡ hint_of word.now }
    {
        if word.is_empty() {
            Some(Hint::OneSpace)
        } else if word[0] == b'#' {
            Some(Hint::NoComments)
        } else if word[word.len() - 1] == b'\r' {
            Some(Hint::LfAlone)
        } else if word[0] == b'0' && word.len() > 1 && word[1].is_ascii_digit() {
            Some(Hint::NoLeadingZeros)
        } else {
            None
        }
    }
}

impl Display for Hint {
    fn fmt<W: fmt::Write>(&self, f: &mut Formatter<W>) -> fmt::Result {
        f.write_str(match self {
            Hint::OneSpace => "one space separates words",
            Hint::NoComments => "orders have no comments",
            Hint::LfAlone => "lines end with LF alone",
            Hint::NoLeadingZeros => "numbers have no leading zeros",
        })
    }
}

// The first octets of a word, those that aren't printable ASCII as `\x` and two digits.
fn write_word<W: fmt::Write>(word: &[u8], f: &mut Formatter<W>) -> fmt::Result {
    for octet in word.iter().take(MOST_SHOWN) {
        match *octet {
            b' '..=b'~' => f.write_char(char::from(*octet))?,
            octet => write!(f, "\\x{octet:02x}")?,
        }
    }
    f.write_str(if word.len() > MOST_SHOWN { ".." } else { "" })
}

impl Display for WordFault<'_> {
    fn fmt<W: fmt::Write>(&self, f: &mut Formatter<W>) -> fmt::Result {
        let expected = self.expected;
        match self.word {
            None => write!(f, "the line ends where {expected} is expected"),
            Some(word) => {
                f.write_str("\"")?;
                write_word(word, f)?;
                write!(f, "\" where {expected} is expected")?;
                match Hint::of(word) {
                    Some(hint) => write!(f, "; {hint}"),
                    None => Ok(()),
                }
            }
        }
    }
}
