//! Why words, orders and marks aren't taken, as it is printed.

use crate::command_words_tests::split;
use crate::rows::assert_rows;
use command_words::{Refused, parse_words};
use farm_orders::{TextFault, fault_of_marked, fault_of_orders};
use std::alloc::Global;
use std::process::Abort;
use trau_orders::{Expected, LineFault, WordFault, first_fault};

// The words of a line, and why they ask for nothing. What `clap` finds is in its words.
static WORDS: [(&str, &str); 27] = [
    ("", "\"\" is no command; trau help lists them"),
    ("relya 7", "\"relya\" is no command; trau help lists them"),
    ("Run", "\"Run\" is no command; trau help lists them"),
    ("-x", "\"-x\" is no command; trau help lists them"),
    ("relay", "the words end where C (1 to 4096) is expected"),
    ("relay 4097", "\"4097\" where C (1 to 4096) is expected"),
    (
        "decode 07",
        "\"07\" where C (1 to 4096) is expected; numbers have no leading zeros",
    ),
    ("encode 0", "\"0\" where C (1 to 4096) is expected"),
    ("frames 7 8", "\"8\" where no further word is expected"),
    ("split 4094", "\"4094\" where C (1 to 4093) is expected"),
    ("merge x 5", "\"x\" where C (1 to 4093) is expected"),
    (
        "follow 7",
        "the words end where W (0 to 316, a multiple of 4) is expected",
    ),
    (
        "follow 7 6",
        "\"6\" where W (0 to 316, a multiple of 4) is expected",
    ),
    (
        "follow 7 320",
        "\"320\" where W (0 to 316, a multiple of 4) is expected",
    ),
    ("follow 7 4 8", "\"8\" where no further word is expected"),
    (
        "run --workers 65",
        "\"65\" where the value of --workers (1 to 64) is expected",
    ),
    (
        "resume --batch=02",
        "\"02\" where the value of --batch (1 to 250) is expected; numbers have no leading zeros",
    ),
    (
        "run --slice=",
        "\"\" where the value of --slice (1 to 250) is expected",
    ),
    (
        "save --periods 4294967296",
        "\"4294967296\" where the value of --periods (1 to 4294967295) is expected",
    ),
    ("save", "save needs --periods, the period of the mark"),
    (
        "drill --periods 1001",
        "\"1001\" where the value of --periods (1 to 1000) is expected",
    ),
    ("drill --seed -1", "unexpected argument '-1' found"),
    (
        "live --inbox 1025",
        "\"1025\" where the value of --inbox (1 to 1024) is expected",
    ),
    ("run orders.txt", "unexpected argument 'orders.txt' found"),
    ("resume --seed 2", "unexpected argument '--seed' found"),
    (
        "run --batch 2 --batch=3",
        "the argument '--batch <batch>' cannot be used multiple times",
    ),
    (
        "live --calls",
        "a value is required for '--calls <calls>' but none was supplied",
    ),
];

// Why the words of a line ask for nothing; an empty text if they ask for something.
fn reason(rt: &impl Abort, alloc: Global, line: &str) -> String {
    let words = split(rt, alloc, line);
    match parse_words(alloc, &words) {
        Err(Refused::Words(reason)) => format!(in alloc; "{reason}").expect(rt, "memory"),
        _ => String::new(alloc),
    }
}

// How many rows of words hold before the first that doesn't.
fn told_words(rt: &impl Abort, alloc: Global) -> usize {
    let mut told = 0usize;
    for (line, wanted) in &WORDS {
        if reason(rt, alloc, line).as_str() != *wanted {
            return told;
        }
        told = told.saturating_add(1);
    }
    told
}

#[test]
fn words_are_refused_for_a_reason(rt: HostRuntime) {
    assert_rows(&rt, told_words(&rt, rt.alloc()), 27);
}

// Texts of orders, and the line, the word and what is expected there of their first fault.
type Found = (usize, Option<&'static [u8]>, Expected);

static ORDERS: [(&[u8], Found); 20] = [
    (b"x", (1, Some(b"x"), Expected::Stamp(0))),
    (b"\n", (1, None, Expected::Stamp(0))),
    (
        b"4294967295 open 1",
        (1, Some(b"4294967295"), Expected::Stamp(0)),
    ),
    (b"5 open 1\n4 open 2", (2, Some(b"4"), Expected::Stamp(5))),
    (b"5 open 1\n5 open 2\n\n", (3, None, Expected::Stamp(5))),
    (b"0", (1, None, Expected::Verb)),
    (b"0 Open 1", (1, Some(b"Open"), Expected::Verb)),
    (b"0 opne x", (1, Some(b"opne"), Expected::Verb)),
    (b"0 open", (1, None, Expected::Call)),
    (b"0 open  1", (1, Some(b""), Expected::Call)),
    (b"0 open 4097 alaw", (1, Some(b"4097"), Expected::Call)),
    (b"0 open 1\r\n", (1, Some(b"1\r"), Expected::Call)),
    (b"0 bridge 1", (1, None, Expected::Call)),
    (b"0 bridge 1 02", (1, Some(b"02"), Expected::Call)),
    (b"0 open 1 alaw", (1, Some(b"alaw"), Expected::Law)),
    (b"0 level 1 32768", (1, Some(b"32768"), Expected::Level)),
    (b"0 dtx 1 ON", (1, Some(b"ON"), Expected::Mode)),
    (b"0 close 1 2", (1, Some(b"2"), Expected::End)),
    (b"0 unbridge 1 ", (1, Some(b""), Expected::End)),
    (b"0 open 1 mulaw 3 4", (1, Some(b"3"), Expected::End)),
];

// How many rows of orders hold before the first that doesn't.
fn found() -> usize {
    let mut found = 0usize;
    for (text, (line, word, expected)) in &ORDERS {
        let wanted = LineFault {
            line: *line,
            fault: WordFault {
                word: *word,
                expected: *expected,
            },
        };
        if first_fault(text) != Some(wanted) {
            return found;
        }
        found = found.saturating_add(1);
    }
    found
}

#[test]
fn orders_have_a_first_wrong_word(rt: HostRuntime) {
    assert_rows(&rt, found(), 20);
    assert_rows(
        &rt,
        usize::from(first_fault(b"0 open 1\n0 close 1").is_none()),
        1,
    );
}

// Texts of orders, or of a mark and orders if that is true, and what is printed.
static TEXTS: [(&[u8], bool, &str); 16] = [
    (b"0 open 1", false, ""),
    (
        b"0 open 1\n5 open  2",
        false,
        "line 2 of the orders: \"\" where a call (1 to 4096) is expected; one space separates words",
    ),
    (
        b"#",
        false,
        "line 1 of the orders: \"#\" where a period (0 to 4294967294) is expected; orders have no comments",
    ),
    (
        b"5 open 1\n4 open 2",
        false,
        "line 2 of the orders: \"4\" where a period (5, that of the order before, to 4294967294) is expected",
    ),
    (
        b"0 open \xb9\r",
        false,
        "line 1 of the orders: \"\\xb9\\x0d\" where a call (1 to 4096) is expected; lines end with LF alone",
    ),
    // The hint is the first that fits, in the order of `Hint`.
    (
        b"0 level 1 0\r\n",
        false,
        "line 1 of the orders: \"0\\x0d\" where a level (0 to 32767) is expected; lines end with LF alone",
    ),
    (
        b"0 bridge 1 02\r\n",
        false,
        "line 1 of the orders: \"02\\x0d\" where a call (1 to 4096) is expected; lines end with LF alone",
    ),
    (
        b"#0\r\n",
        false,
        "line 1 of the orders: \"#0\\x0d\" where a period (0 to 4294967294) is expected; orders have no comments",
    ),
    (
        b"\r\n",
        false,
        "line 1 of the orders: \"\\x0d\" where a period (0 to 4294967294) is expected; lines end with LF alone",
    ),
    (
        b"0\topen 1",
        false,
        "line 1 of the orders: \"0\\x09open\" where a period (0 to 4294967294) is expected",
    ),
    (
        b"0 aaaaaaaaaabbbbbbbbbbccccccccccddddddddddeeeee",
        false,
        "line 1 of the orders: \"aaaaaaaaaabbbbbbbbbbccccccccccdddddddddd..\" where open, close, bridge, unbridge, level or dtx is expected",
    ),
    (b"save 5\norders\n0 open 1", true, ""),
    (
        b"0 open 1",
        true,
        "line 1 of the mark: \"save P\" is expected, as trau save prints it",
    ),
    (
        b"save 5\n0 open 1",
        true,
        "line 2 of the mark: \"call C from S out X down Y\", C above that of the line before, or \"orders\" is expected",
    ),
    (
        b"save 5\norders\n0 open 1\n0 level 1",
        true,
        "line 2 of the orders: the line ends where a level (0 to 32767) is expected",
    ),
    (
        b"save 5\ncall 1 from 0 out 1 down 1\norders\n0 dtx 1 x",
        true,
        "line 1 of the orders: \"x\" where on, off or uplink is expected",
    ),
];

// What is printed of a text; an empty text if it is taken.
fn fault(rt: &impl Abort, alloc: Global, text: &[u8], is_marked: bool) -> String {
    let fault: Option<TextFault<'_>> = if is_marked {
        fault_of_marked(alloc, text).expect(rt, "memory")
    } else {
        fault_of_orders(text)
    };
    match fault {
        Some(fault) => format!(in alloc; "{fault}").expect(rt, "memory"),
        None => String::new(alloc),
    }
}

// How many rows of texts hold before the first that doesn't.
fn told_texts(rt: &impl Abort, alloc: Global) -> usize {
    let mut told = 0usize;
    for (text, is_marked, wanted) in &TEXTS {
        if fault(rt, alloc, text, *is_marked).as_str() != *wanted {
            return told;
        }
        told = told.saturating_add(1);
    }
    told
}

#[test]
fn orders_and_marks_are_refused_for_a_reason(rt: HostRuntime) {
    assert_rows(&rt, told_texts(&rt, rt.alloc()), 16);
}
