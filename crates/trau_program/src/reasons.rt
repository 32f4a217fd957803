//! Why words or orders aren't taken, on standard error. No clause speaks of it.

use command_words::{Refused, parse_words};
use farm_orders::{TextFault, fault_of_marked, fault_of_orders};
use farm_top::{ORDERS_REFUSED, USAGE};
use std::fmt::{self, Display, Formatter};

// A text whose control characters are shown as U+FFFD: a terminal obeys none that stood in a word.
#[derive(Drop)]
struct Shown<'a>(&'a str);

impl Display for Shown<'_> {
    fn fmt<W: fmt::Write>(&self, f: &mut Formatter<W>) -> fmt::Result {
        for c in self.0.chars() {
            f.write_char(if c.is_control() {
                char::REPLACEMENT_CHARACTER
            } else {
                c
            })?;
        }
        Ok(())
    }
}

/// Prints why the words, or the orders that were read, aren't taken, if the status says that they aren't.
pub(crate) fn tell_reason<R: Eprint + AllocGlobal>(
    rt: &R,
    status: u8,
    words: &[String],
    orders: Option<&[u8]>,
) {
    match (status, orders) {
        (USAGE, _) => tell_words(rt, words),
        (ORDERS_REFUSED, Some(orders)) => tell_orders(rt, words, orders),
        _ => {}
    }
}

fn tell_words<R: Eprint + AllocGlobal>(rt: &R, words: &[String]) {
    let Err(Refused::Words(reason)) = parse_words(rt.alloc(), words) else {
        return;
    };
    if let Ok(said) = format!(in rt.alloc(); "{reason}") {
        let shown = Shown(said.as_str());
        let _ = eprintln!(rt; "trau: {shown}");
    }
}

fn tell_orders<R: Eprint + AllocGlobal>(rt: &R, words: &[String], orders: &[u8]) {
    if let Some(fault) = fault_in(rt, words, orders) {
        let _ = eprintln!(rt; "trau: {fault}");
    }
}

// The fault of a command's orders. Those of `resume` follow a mark, and are read again, which takes memory.
fn fault_in<'a, R: AllocGlobal>(
    rt: &R,
    words: &[String],
    orders: &'a [u8],
) -> Option<TextFault<'a>> {
    match words {
        [command, ..] if command.as_str() == "resume" => {
            fault_of_marked(rt.alloc(), orders).ok()?
        }
        _ => fault_of_orders(orders),
    }
}
