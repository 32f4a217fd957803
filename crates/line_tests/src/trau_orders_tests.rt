//! Texts of orders that are counted or refused, some at the limits.

use crate::rows::{assert_row, assert_rows};
use std::alloc::{AllocError, Global};
use trau_alaw::Law;
use trau_orders::{DtxMode, Order, OrderFault, Orders, What};

// How many orders a text has.
fn count(alloc: Global, text: &[u8]) -> Result<usize, OrderFault> {
    Ok(Orders::parse(alloc, text)?.list().len())
}

// Texts, and the answers to them: how many orders they have, or the first line that isn't in the grammar.
static TEXTS: [(&[u8], Result<usize, OrderFault>); 27] = [
    (b"", Ok(0)),
    (b"4000000000 open 1", Ok(1)),
    (b"4294967294 open 4096\n", Ok(1)),
    (b"0 open 4096 mulaw\n0 close 4096", Ok(2)),
    (b"0 open 01", Err(OrderFault::Line(1))),
    (b"4294967295 open 1", Err(OrderFault::Line(1))),
    (b"0 open 4097", Err(OrderFault::Line(1))),
    (b"0 open 4097 mulaw", Err(OrderFault::Line(1))),
    (b"0 open 1 alaw", Err(OrderFault::Line(1))),
    (b"0 open 1 mulaw ", Err(OrderFault::Line(1))),
    (b"0 close 1 mulaw", Err(OrderFault::Line(1))),
    (b"0 open 0", Err(OrderFault::Line(1))),
    (b"0 level 1 32768", Err(OrderFault::Line(1))),
    (b"\n", Err(OrderFault::Line(1))),
    (b"0  open 1", Err(OrderFault::Line(1))),
    (b"0 open 1 ", Err(OrderFault::Line(1))),
    (b"0\topen 1", Err(OrderFault::Line(1))),
    (b"0 open 1\r\n", Err(OrderFault::Line(1))),
    (b"+0 open 1", Err(OrderFault::Line(1))),
    (b"0 level 1 -1", Err(OrderFault::Line(1))),
    (b"0 Open 1", Err(OrderFault::Line(1))),
    (b"0 open 1\0", Err(OrderFault::Line(1))),
    (b"0 dtx 1 uplinks", Err(OrderFault::Line(1))),
    (b"0 open \xb9", Err(OrderFault::Line(1))),
    (b"5 open 1\n4 open 2", Err(OrderFault::Line(2))),
    (b"0 open 1\n\n", Err(OrderFault::Line(2))),
    (b"0 open 1\n0 bridge 1\n", Err(OrderFault::Line(2))),
];

// How many rows hold before the first that doesn't.
fn answered(alloc: Global) -> usize {
    let mut answered = 0usize;
    for (text, answer) in &TEXTS {
        if count(alloc, text) != *answer {
            return answered;
        }
        answered = answered.saturating_add(1);
    }
    answered
}

#[test]
fn orders_are_counted_or_refused(rt: HostRuntime) {
    assert_rows(&rt, answered(rt.alloc()), 27);
}

// Whether a text that repeats one octet has this answer.
fn is_limit(
    alloc: Global,
    octet: u8,
    length: usize,
    fault: OrderFault,
) -> Result<bool, AllocError> {
    let text = vec![in alloc; octet; length]?;
    Ok(count(alloc, &text) == Err(fault))
}

// An octet, the length of the text that repeats it, and the answer.
static LIMITS: [(u8, usize, OrderFault); 4] = [
    (b'0', 1_048_576, OrderFault::Line(1)),
    (b'0', 1_048_577, OrderFault::TooLong),
    (b'\n', 65_536, OrderFault::Line(1)),
    (b'\n', 65_537, OrderFault::TooMany),
];

#[test]
fn limits(rt: HostRuntime) {
    for (octet, length, fault) in &LIMITS {
        assert_row(
            &rt,
            *length,
            is_limit(rt.alloc(), *octet, *length, *fault) == Ok(true),
        );
    }
}

static LINES: &[u8] =
    b"0 open 1\n0 open 2\n0 open 3 mulaw\n0 open 1\n0 bridge 1 1\n0 bridge 1 2\n0 bridge 3 2\n0 unbridge 3\n1 unbridge 2\n1 bridge 3 1\n1 close 3\n1 open 3\n1 level 9 0\n1 level 4096 32767\n35 dtx 1 on\n108 dtx 3 off\n4294967294 dtx 1 uplink";

// Whether these are the orders.
fn are(orders: &[Order], wanted: &[(u32, What)]) -> bool {
    if orders.len() != wanted.len() {
        return false;
    }
    for k in 0..wanted.len() {
        let (stamp, what) = wanted[k];
        if orders[k].stamp != stamp || orders[k].what != what {
            return false;
        }
    }
    true
}

// Whether a text spells them.
fn spells(alloc: Global, text: &[u8], wanted: &[(u32, What)]) -> bool {
    match Orders::parse(alloc, text) {
        Ok(orders) => are(orders.list(), wanted),
        Err(_) => false,
    }
}

static ORDERS: [(u32, What); 17] = [
    (
        0,
        What::OpenCall {
            call: 1,
            law: Law::A,
        },
    ),
    (
        0,
        What::OpenCall {
            call: 2,
            law: Law::A,
        },
    ),
    (
        0,
        What::OpenCall {
            call: 3,
            law: Law::Mu,
        },
    ),
    (
        0,
        What::OpenCall {
            call: 1,
            law: Law::A,
        },
    ),
    (0, What::Bridge(1, 1)),
    (0, What::Bridge(1, 2)),
    (0, What::Bridge(3, 2)),
    (0, What::Unbridge(3)),
    (1, What::Unbridge(2)),
    (1, What::Bridge(3, 1)),
    (1, What::CloseCall(3)),
    (
        1,
        What::OpenCall {
            call: 3,
            law: Law::A,
        },
    ),
    (1, What::Level(9, 0)),
    (1, What::Level(4096, 32_767)),
    (35, What::Dtx(1, DtxMode::On)),
    (108, What::Dtx(3, DtxMode::Off)),
    (4_294_967_294, What::Dtx(1, DtxMode::Uplink)),
];

#[test]
fn lines_and_their_orders(rt: HostRuntime) {
    assert_row(&rt, 1, spells(rt.alloc(), LINES, &ORDERS));
}
