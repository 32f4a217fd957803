//! The places of an order's line: its words, one after another, and then its end.

ghost use Rattle.std.specs.Prelude.{◌≡◌, ◌∷◌, ◌≤◌, Some, option_map, decimal, IfErr, IfOk};
ghost use Rattle.trau_orders.specs.declared.expected.Expected.TheVariants as expected;
ghost use Rattle.trau_orders.specs.Reasons.{line_places, verb_word};
ghost use Rattle.trau_orders.specs.Places.{Passes, IsAdmitted, IsRefused};

use crate::expected::Verb;
use crate::line::LAST_STAMP;
use crate::{Expected, WordFault};
use decimal_number::{number_of_octets, split_at_octet};
use std::marker::Model;

/// The places of a line that are still to be looked at. Contracts see them as a list.
#[derive(Drop)]
pub(crate) struct Places<'a> {
    // From the next word on; `None` at the line's end.
    rest: Option<&'a [u8]>,
}

impl<'a> Model for Places<'a> {
    ghost use Rattle.std.specs.Prelude.{ℕ, List, Option, option_map};
    ghost use Rattle.trau_orders.specs.Places.{places_left};

    ghost Value = { List (Option (List ℕ)) };

    ghost view = { λ p. places_left (option_map (λ w. w.now) p.rest) };
}

impl<'a> Places<'a> {
    /// All places of a line. An empty line has no words.
    pub(crate) fn of(line: &'a [u8]) -> Places<'a>
        ensures { result ≡ line_places line.now }
    {
        let rest = if line.is_empty() { None } else { Some(line) };
        Places { rest }
    }

    // The next word; `None` at the line's end, which stays the next place.
    fn next(&mut self) -> Option<&'a [u8]>
        ensures { Passes self.old (option_map (λ w. w.now) result) self.new }
    {
        let rest = self.rest?;
        match split_at_octet(rest, b' ') {
            None => {
                self.rest = None;
                Some(rest)
            }
            Some((word, after)) => {
                self.rest = Some(after);
                Some(word)
            }
        }
    }

    /// The stamp of an order, from `least` on.
    pub(crate) fn stamp(&mut self, least: u32) -> Result<u32, WordFault<'a>>
        ensures ok { IfOk result (λ n. (least ≤ n) × (n ≤ 4294967294) × (self.old ≡ Some (decimal n) ∷ self.new)) }
        ensures fault { IfErr result (λ fault. (fault.expected ≡ expected.Stamp least) × IsRefused (expected.Stamp least) self.old (option_map (λ w. w.now) fault.word)) }
    {
        let word = self.next();
        match word.and_then(|word| number_of_octets(word, least, LAST_STAMP)) {
            Some(stamp) => Ok(stamp),
            None => Err(WordFault {
                word,
                expected: Expected::Stamp(least),
            }),
        }
    }

    /// What is ordered.
    pub(crate) fn verb(&mut self) -> Result<Verb, WordFault<'a>>
        ensures ok { IfOk result (λ v. self.old ≡ Some (verb_word v) ∷ self.new) }
        ensures fault { IfErr result (λ fault. (fault.expected ≡ expected.Verb) × IsRefused expected.Verb self.old (option_map (λ w. w.now) fault.word)) }
    {
        let word = self.next();
        match word.and_then(Verb::of) {
            Some(verb) => Ok(verb),
            None => Err(WordFault {
                word,
                expected: Expected::Verb,
            }),
        }
    }

    /// Passes the next place, which must be one that is expected.
    pub(crate) fn expect(&mut self, what: Expected) -> Result<(), WordFault<'a>>
        ensures ok { IfOk result (λ u. IsAdmitted what self.old self.new) }
        ensures fault { IfErr result (λ fault. (fault.expected ≡ what) × IsRefused what self.old (option_map (λ w. w.now) fault.word)) }
    {
        let word = self.next();
        if what.admits(word) {
            Ok(())
        } else {
            Err(WordFault {
                word,
                expected: what,
            })
        }
    }
}
