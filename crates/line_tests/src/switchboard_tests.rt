//! Orders to the board that are accepted or refused, and ends of calls.

ghost use Rattle.std.specs.Prelude.{◌≡◌, ◌<◌, ◌≤◌, ℕ, IsTrue};
ghost use Rattle.switchboard.specs.State.{EndBefore, last_stamp};

use crate::rows::{assert_row, assert_rows};
use std::alloc::Global;
use std::process::Abort;
use switchboard::{Act, Board, Refusal, Reply, Span};
use trau_alaw::Law;
use trau_io::{CallEnd, Cause};
use trau_orders::{DtxMode, Orders};

fn board_of(rt: &impl Abort, alloc: Global, orders: &[u8]) -> Board
    ensures { (t : ℕ) → EndBefore t result }
{
    let orders = Orders::parse(alloc, orders).expect(rt, "orders");
    Board::new(alloc, orders).expect(rt, "memory")
}

// Executes the next order at its stamp; no call's lines end.
fn execute(board: &mut Board) -> Option<Reply>
    requires { (t : ℕ) → EndBefore t board.old }
    ensures { (t : ℕ) → EndBefore t board.new }
{
    let stamp = board.next_stamp()?;
    board.turn(stamp)
}

// The result of a reply.
fn result_of(reply: Option<Reply>) -> Option<Result<Act, Refusal>> {
    Some(reply?.result)
}

// How many orders have these replies, before the first that doesn't.
fn replied(board: &mut Board, results: &[Result<Act, Refusal>]) -> usize
    requires { (t : ℕ) → EndBefore t board.old }
{
    let mut replied = 0usize;
    for result in results {
        if result_of(execute(board)) != Some(*result) {
            return replied;
        }
        replied = replied.saturating_add(1);
    }
    replied
}

// Asserts that all these orders have these replies, and that no order is left.
fn assert_replied(rt: &impl Abort, alloc: Global, orders: &[u8], results: &[Result<Act, Refusal>]) {
    let mut board = board_of(rt, alloc, orders);
    assert_rows(rt, replied(&mut board, results), results.len());
    assert_row(rt, results.len(), board.next_stamp() == None);
}

static TWO_PERIODS: &[u8] =
    b"0 open 1\n0 open 2\n0 open 3 mulaw\n0 open 1 mulaw\n0 bridge 1 1\n0 bridge 1 2\n0 bridge 3 2\n0 unbridge 3\n\
        1 unbridge 2\n1 bridge 3 1\n1 close 3\n1 open 3\n1 level 9 0\n";

static TWO_RESULTS: [Result<Act, Refusal>; 13] = [
    Ok(Act::Opened {
        call: 1,
        law: Law::A,
    }),
    Ok(Act::Opened {
        call: 2,
        law: Law::A,
    }),
    Ok(Act::Opened {
        call: 3,
        law: Law::Mu,
    }),
    Err(Refusal::AlreadyOpen { call: 1 }),
    Err(Refusal::SameCall { call: 1 }),
    Ok(Act::Bridged { a: 1, b: 2 }),
    Err(Refusal::Bridged {
        call: 2,
        partner: 1,
    }),
    Err(Refusal::NotBridged { call: 3 }),
    Ok(Act::Unbridged { a: 1, b: 2 }),
    Err(Refusal::Draining {
        call: 1,
        partner: 2,
    }),
    Ok(Act::Closed {
        call: 3,
        partner: None,
    }),
    Err(Refusal::NumberUsed { call: 3 }),
    Err(Refusal::NotOpen { call: 9 }),
];

// Orders of two periods, with each refusal once.
#[test]
fn orders_are_accepted_or_refused(rt: HostRuntime) {
    assert_replied(&rt, rt.alloc(), TWO_PERIODS, &TWO_RESULTS);
}

static THREE_PERIODS: &[u8] =
    b"0 open 1\n0 open 2\n0 open 3\n0 open 4\n0 open 5\n0 bridge 1 2\n0 bridge 3 4\n\
        0 bridge 9 9\n0 bridge 8 9\n0 bridge 1 9\n0 bridge 1 3\n0 bridge 5 3\n\
        1 unbridge 2\n1 bridge 2 3\n1 unbridge 4\n1 bridge 3 1\n1 bridge 5 1\n1 unbridge 9\n1 unbridge 1\n1 dtx 9 on\n\
        2 bridge 3 1\n2 close 1\n2 open 1\n2 close 1\n2 bridge 3 5\n2 level 5 7\n2 dtx 5 on\n";

static THREE_RESULTS: [Result<Act, Refusal>; 27] = [
    Ok(Act::Opened {
        call: 1,
        law: Law::A,
    }),
    Ok(Act::Opened {
        call: 2,
        law: Law::A,
    }),
    Ok(Act::Opened {
        call: 3,
        law: Law::A,
    }),
    Ok(Act::Opened {
        call: 4,
        law: Law::A,
    }),
    Ok(Act::Opened {
        call: 5,
        law: Law::A,
    }),
    Ok(Act::Bridged { a: 1, b: 2 }),
    Ok(Act::Bridged { a: 3, b: 4 }),
    Err(Refusal::SameCall { call: 9 }),
    Err(Refusal::NotOpen { call: 8 }),
    Err(Refusal::NotOpen { call: 9 }),
    Err(Refusal::Bridged {
        call: 1,
        partner: 2,
    }),
    Err(Refusal::Bridged {
        call: 3,
        partner: 4,
    }),
    Ok(Act::Unbridged { a: 1, b: 2 }),
    Err(Refusal::Bridged {
        call: 3,
        partner: 4,
    }),
    Ok(Act::Unbridged { a: 3, b: 4 }),
    Err(Refusal::Draining {
        call: 3,
        partner: 4,
    }),
    Err(Refusal::Draining {
        call: 1,
        partner: 2,
    }),
    Err(Refusal::NotOpen { call: 9 }),
    Err(Refusal::NotBridged { call: 1 }),
    Err(Refusal::NotOpen { call: 9 }),
    Ok(Act::Bridged { a: 3, b: 1 }),
    Ok(Act::Closed {
        call: 1,
        partner: Some(3),
    }),
    Err(Refusal::NumberUsed { call: 1 }),
    Err(Refusal::NotOpen { call: 1 }),
    Err(Refusal::Draining {
        call: 3,
        partner: 1,
    }),
    Ok(Act::LevelSet { call: 5, level: 7 }),
    Ok(Act::DtxSet {
        call: 5,
        mode: DtxMode::On,
    }),
];

// If several refusals apply, the first of them is the reply.
#[test]
fn tests_of_an_order_go_in_their_order(rt: HostRuntime) {
    assert_replied(&rt, rt.alloc(), THREE_PERIODS, &THREE_RESULTS);
}

// Whether an order of period 0 is executed.
fn turns_at_0(board: &mut Board) -> bool
    requires { (t : ℕ) → EndBefore t board.old }
    ensures told { (t : ℕ) → EndBefore t board.new }
    ensures last { IsTrue result → last_stamp board.new.done ≡ 0 }
{
    board.turn(0).is_some()
}

// Whether the three orders of period 0 are executed.
fn begins(board: &mut Board) -> bool
    requires { (t : ℕ) → EndBefore t board.old }
    ensures told { (t : ℕ) → EndBefore t board.new }
    ensures last { IsTrue result → last_stamp board.new.done ≡ 0 }
{
    turns_at_0(board) && turns_at_0(board) && turns_at_0(board)
}

// The lines of a call end. Whether it was open, and the calls 7 and 9 were then bridged from period 0 to this one.
fn ends_span(board: &mut Board, call: u32, at: u32) -> bool
    requires { last_stamp board.old.done ≤ at }
    ensures told { (t : ℕ) → at < t → EndBefore t board.old → EndBefore t board.new }
    ensures done { board.new.done ≡ board.old.done }
{
    if !board.is_open(call) {
        return false;
    }
    let cause = Cause::Limit;
    board.ended(CallEnd { call, at, cause });
    let span = Span {
        a: 7,
        b: 9,
        from: 0,
        to: at,
    };
    board.spans() == [span].as_slice()
}

// Whether the two calls end so, the second one in an earlier period.
fn ends_lower(board: &mut Board) -> bool
    requires told { (t : ℕ) → EndBefore t board.old }
    requires last { last_stamp board.old.done ≡ 0 }
    ensures { (t : ℕ) → 35 < t → EndBefore t board.new }
{
    let first = ends_span(board, 7, 35);
    ends_span(board, 9, 30) && first
}

// The reply to the order of period 40, if it is the next.
fn reply_at_40(board: &mut Board) -> Option<Reply>
    requires { (t : ℕ) → 35 < t → EndBefore t board.old }
{
    if board.next_stamp() == Some(40) {
        board.turn(40)
    } else {
        None
    }
}

static REFUSED: Reply = Reply {
    order: 4,
    result: Err(Refusal::NotOpen { call: 9 }),
};

// Whether it is refused after both calls have ended so.
fn is_refused_after_both(board: &mut Board) -> bool
    requires { (t : ℕ) → EndBefore t board.old }
{
    begins(board) && ends_lower(board) && reply_at_40(board) == Some(REFUSED)
}

// The ends of a round are reported in call-number order, so an end that is reported later may be earlier.
#[test]
fn ends_lower_a_span(rt: HostRuntime) {
    let orders = b"0 open 7\n0 open 9\n0 bridge 7 9\n40 unbridge 9\n";
    let mut board = board_of(&rt, rt.alloc(), orders);
    assert_row(&rt, 4, is_refused_after_both(&mut board));
}
