//! The command `run` with a line that is short or fails, or a desk that fails. The values were calculated by hand from
//! the rules.

use crate::cases::Got::{Begins, Count, Front};
use crate::cases::{Case, come, comes_as};
use crate::commands::AtDesk::{Calm, ReadFails, Room};
use crate::lines::Laid::{Call, Line};
use crate::lines::Octets::{These, Usual, Zeros};
use crate::lines::{ALL, Laid, NONE};
use crate::rows::{assert_parts, assert_row};
use trau_io::Side::{Down, Out, Pcm, Up};

// Down of three periods: one of ones, followed by idle frames.
const DOWNS: [u8; 120] = [
    0xFF, 0xFF, 0xFF, 0xFF, 0xFF, 0xFF, 0xFF, 0xFF, 0xFF, 0xFF, 0xFF, 0xFF, 0xFF, 0xFF, 0xFF, 0xFF,
    0xFF, 0xFF, 0xFF, 0xFF, 0xFF, 0xFF, 0xFF, 0xFF, 0xFF, 0xFF, 0xFF, 0xFF, 0xFF, 0xFF, 0xFF, 0xFF,
    0xFF, 0xFF, 0xFF, 0xFF, 0xFF, 0xFF, 0xFF, 0xFF, 0x00, 0x00, 0xB8, 0x0F, 0xFF, 0xFF, 0xFF, 0xFF,
    0xFF, 0xFF, 0xFF, 0xFF, 0xFF, 0xFF, 0xFF, 0xFF, 0xFF, 0xFF, 0xFF, 0xFF, 0xFF, 0xFF, 0xFF, 0xFF,
    0xFF, 0xFF, 0xFF, 0xFF, 0xFF, 0xFF, 0xFF, 0xFF, 0xFF, 0xFF, 0xFF, 0xFF, 0xFF, 0xFF, 0xFF, 0xFF,
    0x00, 0x00, 0xB8, 0x0F, 0xFF, 0xFF, 0xFF, 0xFF, 0xFF, 0xFF, 0xFF, 0xFF, 0xFF, 0xFF, 0xFF, 0xFF,
    0xFF, 0xFF, 0xFF, 0xFF, 0xFF, 0xFF, 0xFF, 0xFF, 0xFF, 0xFF, 0xFF, 0xFF, 0xFF, 0xFF, 0xFF, 0xFF,
    0xFF, 0xFF, 0xFF, 0xFF, 0xFF, 0xFF, 0xFF, 0xFF,
];

// Out of three periods of silence.
const SILENCE: [u8; 480] = [0xD5; 480];

// Runs of call 1 over at most three periods of an uplink without a frame and of silence.
static ROWS: [Case; 5] = [
    // Up is one octet short of three periods.
    Case {
        words: &["run"],
        orders: "0 open 1\n",
        lines: &[Call(1, Zeros(119), Usual(480))],
        desk: Calm,
        status: 0,
        text: "order 1 ok
call 1 from 0 to 2 end up 39
counts 1 good 0 sid 0 invalid 0 bad 0 idle 0 other 0 miss 0 none 2 made 2
end period 2 calls 1 left 0
",
        got: &[(1, Down, Front(&DOWNS, 80)), (1, Out, Front(&SILENCE, 320))],
    },
    // Pcm is one octet short of three periods.
    Case {
        words: &["run"],
        orders: "0 open 1\n",
        lines: &[Call(1, Zeros(120), Usual(479))],
        desk: Calm,
        status: 0,
        text: "order 1 ok
call 1 from 0 to 2 end pcm 159
counts 1 good 0 sid 0 invalid 0 bad 0 idle 0 other 0 miss 0 none 2 made 2
end period 2 calls 1 left 0
",
        got: &[(1, Down, Front(&DOWNS, 80)), (1, Out, Front(&SILENCE, 320))],
    },
    // Out fails at its first write: Down is whole.
    Case {
        words: &["run"],
        orders: "0 open 1\n",
        lines: &[
            Call(1, Zeros(120), Usual(480)),
            Line(1, Out, Usual(0), ALL, 0),
        ],
        desk: Calm,
        status: 6,
        text: "order 1 ok
call 1 from 0 to 3 end up 0
counts 1 good 0 sid 0 invalid 0 bad 0 idle 0 other 0 miss 0 none 3 made 3
line 1 out failed
end period 3 calls 1 left 0
",
        got: &[(1, Down, Front(&DOWNS, 120)), (1, Out, Front(&SILENCE, 0))],
    },
    // The desk fails at its first read: no line is used.
    Case {
        words: &["run"],
        orders: "0 open 1\n",
        lines: &[Call(1, Zeros(120), Usual(480))],
        desk: ReadFails(0),
        status: 3,
        text: "orders unread\n",
        got: &[(1, Down, Front(&DOWNS, 0)), (1, Out, Front(&SILENCE, 0))],
    },
    // The desk has room for five octets: both lines are whole.
    Case {
        words: &["run"],
        orders: "0 open 1\n",
        lines: &[Call(1, Zeros(120), Usual(480))],
        desk: Room(5),
        status: 4,
        text: "order",
        got: &[
            (1, Down, Front(&DOWNS, 120)),
            (1, Out, Front(&SILENCE, 480)),
        ],
    },
];

#[test]
fn one_call_at_its_limits(rt: HostRuntime) {
    assert_parts(&rt, 1, come(&rt, rt.alloc(), &ROWS, ALL), 5);
}

// Three calls of 20 periods.
static OF_THREE: [Laid; 4] = [
    Call(7, Usual(20 * 40), Usual(20 * 160)),
    Line(7, Pcm, Usual(20 * 160), 400, NONE),
    Call(8, Usual(20 * 40), Usual(20 * 160)),
    Call(9, Usual(20 * 40), Usual(20 * 160)),
];

// The same lines. The second read of Pcm of call 7, after 400 octets, fails, and the first write of Down of call 9.
static TWO_FAIL: Case = Case {
    words: &["run"],
    orders: "0 open 7\n0 open 8\n0 open 9\n",
    lines: &[
        Call(7, Usual(20 * 40), Usual(20 * 160)),
        Line(7, Pcm, Usual(20 * 160), 400, 1),
        Call(8, Usual(20 * 40), Usual(20 * 160)),
        Call(9, Usual(20 * 40), Usual(20 * 160)),
        Line(9, Down, Usual(0), ALL, 0),
    ],
    desk: Calm,
    status: 6,
    text: "order 1 ok
order 2 ok
order 3 ok
call 7 from 0 to 2 fault pcm
counts 7 good 2 sid 0 invalid 0 bad 0 idle 0 other 0 miss 0 none 0 made 2
call 8 from 0 to 20 end up 0
counts 8 good 20 sid 0 invalid 0 bad 0 idle 0 other 0 miss 0 none 0 made 20
call 9 from 0 to 20 end up 0
counts 9 good 20 sid 0 invalid 0 bad 0 idle 0 other 0 miss 0 none 0 made 20
line 7 pcm failed
line 9 down failed
end period 20 calls 3 left 0
",
    got: &[
        (8, Down, Count(800)),
        (8, Out, Count(3200)),
        (9, Down, Count(0)),
        (9, Out, Count(3200)),
    ],
};

// Call 8, and Out of call 9, get what they get if nothing fails.
#[test]
fn two_lines_of_three_calls_fail(rt: HostRuntime) {
    let same = [(8, Down), (8, Out), (9, Out)];
    assert_row(
        &rt,
        1,
        comes_as(&rt, rt.alloc(), &TWO_FAIL, ALL, &OF_THREE, &same),
    );
}

// An uplink whose frames begin at bit 5: five bits 0, followed by good frames (`UPLINK_FRAME`) without a gap.
const SHIFTED: [u8; 160] = [
    0x00, 0x00, 0x04, 0x40, 0x04, 0x10, 0x4D, 0xD0, 0xD7, 0x21, 0x44, 0x00, 0x95, 0x24, 0x95, 0x24,
    0x95, 0x14, 0x04, 0x09, 0x26, 0x49, 0x26, 0x49, 0x25, 0x40, 0x04, 0x92, 0x4C, 0x92, 0x4C, 0x92,
    0x2C, 0x00, 0x15, 0x24, 0x95, 0x24, 0x95, 0x37, 0xF8, 0x00, 0x04, 0x40, 0x04, 0x10, 0x4D, 0xD0,
    0xD7, 0x21, 0x44, 0x00, 0x95, 0x24, 0x95, 0x24, 0x95, 0x14, 0x04, 0x09, 0x26, 0x49, 0x26, 0x49,
    0x25, 0x40, 0x04, 0x92, 0x4C, 0x92, 0x4C, 0x92, 0x2C, 0x00, 0x15, 0x24, 0x95, 0x24, 0x95, 0x37,
    0xF8, 0x00, 0x04, 0x40, 0x04, 0x10, 0x4D, 0xD0, 0xD7, 0x21, 0x44, 0x00, 0x95, 0x24, 0x95, 0x24,
    0x95, 0x14, 0x04, 0x09, 0x26, 0x49, 0x26, 0x49, 0x25, 0x40, 0x04, 0x92, 0x4C, 0x92, 0x4C, 0x92,
    0x2C, 0x00, 0x15, 0x24, 0x95, 0x24, 0x95, 0x37, 0xF8, 0x00, 0x04, 0x40, 0x04, 0x10, 0x4D, 0xD0,
    0xD7, 0x21, 0x44, 0x00, 0x95, 0x24, 0x95, 0x24, 0x95, 0x14, 0x04, 0x09, 0x26, 0x49, 0x26, 0x49,
    0x25, 0x40, 0x04, 0x92, 0x4C, 0x92, 0x4C, 0x92, 0x2C, 0x00, 0x15, 0x24, 0x95, 0x24, 0x95, 0x37,
];

// Four periods of this uplink. The first frame ends in period 1, so period 0 has none, and its Out is silent.
static OF_SHIFTED: Case = Case {
    words: &["run"],
    orders: "0 open 1\n",
    lines: &[Call(1, These(&SHIFTED), Usual(640))],
    desk: Calm,
    status: 0,
    text: "order 1 ok
call 1 from 0 to 4 end up 0
counts 1 good 3 sid 0 invalid 0 bad 0 idle 0 other 0 miss 0 none 1 made 4
end period 4 calls 1 left 0
",
    got: &[
        (1, Down, Count(160)),
        (1, Out, Count(640)),
        (1, Out, Begins(&[0xD5; 160])),
    ],
};

// Down and Out get the same in chunks as without any.
#[test]
fn shifted_frames_in_pieces(rt: HostRuntime) {
    let same = [(1, Down), (1, Out)];
    for cut in [1u32, 39, 41] {
        let comes = comes_as(&rt, rt.alloc(), &OF_SHIFTED, cut, OF_SHIFTED.lines, &same);
        assert_row(&rt, cut as usize, comes);
    }
}
