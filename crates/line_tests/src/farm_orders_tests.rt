//! Orders, also after a mark, read from a desk: texts, some at the limits, and reads that fail.

use crate::rows::assert_rows;
use farm_orders::{MarkedFault, OrdersFault, read_marked_orders, read_orders};
use std::alloc::Global;
use std::process::Abort;
use trau_io::MemDesk;

// The number of a read that never happens.
const NONE: u32 = 9;

// The beginning of a text; an octet and how often it follows; and the read that fails: read 0 gives the whole text, and
// read 1 finds its end.
type Text = (&'static [u8], u8, usize, u32);

// The octets of a text.
fn octets(rt: &impl Abort, alloc: Global, text: &Text) -> Vec<u8> {
    let (front, octet, count, _) = *text;
    let length = front.len().saturating_add(count);
    let mut octets = vec![in alloc; octet; length].expect(rt, "memory");
    octets[..front.len()].copy_from_slice(front);
    octets
}

// A desk with such a text.
fn desk(rt: &impl Abort, alloc: Global, text: &Text) -> MemDesk {
    let fails = [text.3].to_vec(alloc).expect(rt, "memory");
    let octets = octets(rt, alloc, text);
    MemDesk::new(alloc, octets, fails, Vec::new(alloc), 0).expect(rt, "memory")
}

// What is compared of a mark and its orders: its period, and the numbers of its calls and of the orders.
type Marked = (u32, usize, usize);

// The answer to a text.
#[derive(Drop)]
enum Answer {
    // How many orders it has, or why they aren't taken.
    Orders(Result<usize, OrdersFault>),
    // The same of a mark and orders.
    Marked(Result<Marked, MarkedFault>),
}

type Row = (Text, Answer);

static TEXTS: [Row; 11] = [
    ((b"", b'0', 0, NONE), Answer::Orders(Ok(0))),
    (
        (b"0 open 1\n0 open 2\n7 bridge 1 2", b'0', 0, NONE),
        Answer::Orders(Ok(3)),
    ),
    (
        (b"5 open 1\n4 open 2", b'0', 0, NONE),
        Answer::Orders(Err(OrdersFault::Line(2))),
    ),
    (
        (b"0 open 01", b'0', 0, NONE),
        Answer::Orders(Err(OrdersFault::Line(1))),
    ),
    (
        (b"0 open 1\n", b'0', 0, 0),
        Answer::Orders(Err(OrdersFault::Unread)),
    ),
    (
        (b"0 open 1\n", b'0', 0, 1),
        Answer::Orders(Err(OrdersFault::Unread)),
    ),
    (
        (b"", b'0', 1_048_576, NONE),
        Answer::Orders(Err(OrdersFault::Line(1))),
    ),
    (
        (b"", b'0', 1_048_576, 1),
        Answer::Orders(Err(OrdersFault::Unread)),
    ),
    (
        (b"", b'0', 1_048_577, 1),
        Answer::Orders(Err(OrdersFault::TooLong)),
    ),
    (
        (b"", b'\n', 65_536, NONE),
        Answer::Orders(Err(OrdersFault::Line(1))),
    ),
    (
        (b"", b'\n', 65_537, NONE),
        Answer::Orders(Err(OrdersFault::TooLong)),
    ),
];

static MARKED_TEXTS: [Row; 12] = [
    (
        (b"save 3\norders\n", b'0', 0, NONE),
        Answer::Marked(Ok((3, 0, 0))),
    ),
    (
        (
            b"save 3\ncall 1 from 0 out 102240 down 28958\norders\n0 open 1\n3 close 1",
            b'0',
            0,
            NONE,
        ),
        Answer::Marked(Ok((3, 1, 2))),
    ),
    (
        (b"", b'0', 0, NONE),
        Answer::Marked(Err(MarkedFault::Mark(1))),
    ),
    (
        (b"save 03\norders\n", b'0', 0, NONE),
        Answer::Marked(Err(MarkedFault::Mark(1))),
    ),
    (
        (b"save 3\norders", b'0', 0, NONE),
        Answer::Marked(Err(MarkedFault::Mark(2))),
    ),
    (
        (
            b"save 3\ncall 1 from 3 out 0 down 0\norders\n0 open 01\n",
            b'0',
            0,
            NONE,
        ),
        Answer::Marked(Err(MarkedFault::Mark(2))),
    ),
    (
        (b"save 3\norders\n0 open 1\n0 open 01\n", b'0', 0, NONE),
        Answer::Marked(Err(MarkedFault::Orders(OrdersFault::Line(2)))),
    ),
    (
        (b"save 3\norders\nsave 3\n", b'0', 0, NONE),
        Answer::Marked(Err(MarkedFault::Orders(OrdersFault::Line(1)))),
    ),
    (
        (b"save 3\norders\n", b'0', 1_048_576, NONE),
        Answer::Marked(Err(MarkedFault::Orders(OrdersFault::Line(1)))),
    ),
    (
        (b"save 3\norders\n", b'0', 1_048_577, NONE),
        Answer::Marked(Err(MarkedFault::Orders(OrdersFault::TooLong))),
    ),
    (
        (b"save 3\norders\n", b'0', 1_310_707, 1),
        Answer::Marked(Err(MarkedFault::Orders(OrdersFault::TooLong))),
    ),
    (
        (b"save 3\norders\n", b'0', 1_310_706, 1),
        Answer::Marked(Err(MarkedFault::Orders(OrdersFault::Unread))),
    ),
];

// How many orders a desk gives.
fn count(alloc: Global, desk: &mut MemDesk) -> Result<usize, OrdersFault> {
    Ok(read_orders(alloc, desk)?.list().len())
}

// What a desk gives of a mark and orders.
fn marked(alloc: Global, desk: &mut MemDesk) -> Result<Marked, MarkedFault> {
    let read = read_marked_orders(alloc, desk)?;
    Ok((
        read.mark.period,
        read.mark.calls.len(),
        read.orders.list().len(),
    ))
}

// Whether a desk gives this.
fn gives(alloc: Global, desk: &mut MemDesk, answer: &Answer) -> bool {
    match answer {
        Answer::Orders(wanted) => count(alloc, desk) == *wanted,
        Answer::Marked(wanted) => marked(alloc, desk) == *wanted,
    }
}

// Whether a text has its answer.
fn is_answered(rt: &impl Abort, alloc: Global, row: &Row) -> bool {
    let mut desk = desk(rt, alloc, &row.0);
    gives(alloc, &mut desk, &row.1)
}

// How many rows hold before the first that doesn't.
fn answered(rt: &impl Abort, alloc: Global, rows: &[Row]) -> usize {
    let mut answered = 0usize;
    for row in rows {
        if !is_answered(rt, alloc, row) {
            return answered;
        }
        answered = answered.saturating_add(1);
    }
    answered
}

#[test]
fn orders_of_a_desk(rt: HostRuntime) {
    assert_rows(&rt, answered(&rt, rt.alloc(), &TEXTS), 11);
}

#[test]
fn a_mark_before_the_orders(rt: HostRuntime) {
    assert_rows(&rt, answered(&rt, rt.alloc(), &MARKED_TEXTS), 12);
}
