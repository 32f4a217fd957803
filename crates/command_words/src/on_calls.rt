//! Why the words of a command without options ask for nothing.

use crate::follow::wanted;
use crate::reason::{Expected, Reason};
use crate::slots::HIGHEST_SLOT;
use call_number::LAST_CALL;
use decimal_number::number_of_text;

// The words that are still to be looked at.
#[derive(Drop)]
struct Words<'a> {
    rest: &'a [String],
}

impl<'a> Words<'a> {
    fn next(&mut self) -> Option<&'a str> {
        match self.rest {
            [] => None,
            [word, rest @ ..] => {
                self.rest = rest;
                Some(word.as_str())
            }
        }
    }

    // The next word must be what is expected, a call or a wanted place.
    fn expect(&mut self, expected: Expected<'a>) -> Result<(), Reason<'a>> {
        let word = self.next();
        if admits(expected, word) {
            Ok(())
        } else {
            Err(Reason::Word { word, expected })
        }
    }
}

fn admits(expected: Expected<'_>, word: Option<&str>) -> bool {
    match (expected, word) {
        (Expected::Call(high), Some(word)) => number_of_text(word, 1, high).is_some(),
        (Expected::Want, Some(word)) => wanted(word).is_some(),
        (Expected::End, None) => true,
        _ => false,
    }
}

// The highest call of a command that takes no options.
fn last_call(name: &str) -> Option<u32> {
    match name {
        "relay" | "decode" | "encode" | "frames" | "follow" => Some(LAST_CALL),
        "split" | "merge" => Some(HIGHEST_SLOT),
        _ => None,
    }
}

// The words of a command up to their end.
fn expect_command<'a>(words: &mut Words<'a>) -> Result<(), Reason<'a>> {
    let name = words.next().ok_or(Reason::NoCommand)?;
    let last = last_call(name).ok_or(Reason::Unknown(name))?;
    words.expect(Expected::Call(last))?;
    if name == "follow" {
        words.expect(Expected::Want)?;
    }
    Ok(())
}

/// Why words that begin with no command with options ask for nothing.
pub(crate) fn why_not(words: &[String]) -> Reason<'_> {
    let mut words = Words { rest: words };
    match expect_command(&mut words) {
        Err(reason) => reason,
        Ok(()) => Reason::Word {
            word: words.next(),
            expected: Expected::End,
        },
    }
}
