//! The command `drill`; and uplinks that no base station sends.

use crate::cases::Got::Sum;
use crate::cases::{Case, UNUSED, come};
use crate::commands::AtDesk::Calm;
use crate::commands::status_of;
use crate::desk::FailingDesk;
use crate::endless::Endless;
use crate::lines::Laid::{Call, Line};
use crate::lines::Octets::{Hostile, Usual};
use crate::lines::{ALL, FAILING, NONE};
use crate::rows::{assert_parts, assert_row};
use crate::two_calls::is_told_in_part;
use pool_run::OpenGate;
use std::alloc::Global;
use std::process::Abort;
use std::sync::Wait;
use std::thread::Threads;
use trau_io::Side::{Down, Out, Pcm, Up};

// Two drills without comfort noise, with the sums that another program gives.
const ONE_PERIOD: &str = "order 1 ok
call 1 from 0 to 1 limit
counts 1 good 0 sid 1 invalid 0 bad 0 idle 0 other 0 miss 0 none 0 made 1
end period 1 calls 1 left 0
sum 1 out 17406 down 10200
";

const FOUR_PERIODS: &str = "order 1 ok
order 2 ok
order 3 ok
order 4 ok
bridge 1 2 from 1 to 2 sent 1 1 lost 0 0
call 1 from 0 to 4 limit
counts 1 good 2 sid 2 invalid 0 bad 0 idle 0 other 0 miss 0 none 0 made 4
call 2 from 0 to 4 limit
counts 2 good 2 sid 1 invalid 1 bad 0 idle 0 other 0 miss 0 none 0 made 4
end period 4 calls 2 left 0
sum 1 out 86808 down 26333
sum 2 out 83289 down 26017
";

// Drills, some by several workers and in several slices.
static DRILLS: [Case; 6] = [
    Case {
        words: &["drill", "--calls", "1", "--periods", "1"],
        orders: "no orders",
        lines: &FAILING,
        desk: Calm,
        status: 0,
        text: ONE_PERIOD,
        got: &UNUSED,
    },
    Case {
        words: &["drill", "--calls", "2", "--periods", "4"],
        orders: "no orders",
        lines: &FAILING,
        desk: Calm,
        status: 0,
        text: FOUR_PERIODS,
        got: &UNUSED,
    },
    Case {
        words: &[
            "drill",
            "--calls=2",
            "--workers=1",
            "--periods=4",
            "--slice=1",
        ],
        orders: "no orders",
        lines: &FAILING,
        desk: Calm,
        status: 0,
        text: FOUR_PERIODS,
        got: &UNUSED,
    },
    Case {
        words: &[
            "drill",
            "--calls=2",
            "--workers=1",
            "--periods=4",
            "--slice=9",
        ],
        orders: "no orders",
        lines: &FAILING,
        desk: Calm,
        status: 0,
        text: FOUR_PERIODS,
        got: &UNUSED,
    },
    Case {
        words: &[
            "drill",
            "--calls=2",
            "--workers=5",
            "--periods=4",
            "--slice=1",
        ],
        orders: "no orders",
        lines: &FAILING,
        desk: Calm,
        status: 0,
        text: FOUR_PERIODS,
        got: &UNUSED,
    },
    Case {
        words: &[
            "drill",
            "--calls=2",
            "--workers=5",
            "--periods=4",
            "--slice=9",
        ],
        orders: "no orders",
        lines: &FAILING,
        desk: Calm,
        status: 0,
        text: FOUR_PERIODS,
        got: &UNUSED,
    },
];

#[test]
fn drills_are_those_of_another_program(rt: HostRuntime) {
    assert_parts(&rt, 1, come(&rt, rt.alloc(), &DRILLS, ALL), 6);
}

#[test]
fn the_desk_fails_while_a_drill_is_told(rt: HostRuntime) {
    let words = ["drill", "--calls=1", "--periods=1"];
    assert_row(&rt, 1, is_told_in_part(&rt, rt.alloc(), &words, ONE_PERIOD));
}

static LIMIT: &str = "order 1 ok
call 1 from 0 to 5 limit
counts 1 good 0 sid 0 invalid 0 bad 0 idle 0 other 0 miss 0 none 5 made 5
end period 5 calls 1 left 0
";

// Whether a run of five periods over lines that never end comes to its limit, and writes these periods.
fn comes_to_the_limit<R: Abort + Threads + Wait + Sync>(rt: &R, alloc: Global) -> bool {
    let mut desk = FailingDesk::calm(rt, alloc, "0 open 1\n");
    let mut trunk = Endless { written: 0 };
    let words = ["run", "--periods", "5"];
    let status = status_of(rt, alloc, &words, &mut trunk, &mut desk, &OpenGate);
    (status == 0) & (desk.text() == LIMIT.as_bytes()) & (trunk.written == 5 * 200)
}

#[test]
fn lines_that_never_end_come_to_the_limit(rt: HostRuntime) {
    assert_row(&rt, 1, comes_to_the_limit(&rt, rt.alloc()));
}

// Runs over hostile uplinks and an idle Pcm line; and the yields of the search on the uplink whose frames are cut after
// their 305th bit.
static HOSTILE: [Case; 7] = [
    Case {
        words: &["run"],
        orders: "0 open 1\n",
        lines: &[Call(1, Hostile(0, 10), Usual(160 * 10))],
        desk: Calm,
        status: 0,
        text: "order 1 ok
call 1 from 0 to 10 end up 0
counts 1 good 0 sid 0 invalid 0 bad 0 idle 0 other 0 miss 0 none 10 made 10
end period 10 calls 1 left 0
",
        got: &[(1, Down, Sum(2_845_155_476)), (1, Out, Sum(1_660_770_437))],
    },
    Case {
        words: &["run"],
        orders: "0 open 1\n",
        lines: &[Call(1, Hostile(1, 10), Usual(160 * 10))],
        desk: Calm,
        status: 0,
        text: "order 1 ok
call 1 from 0 to 10 end up 0
counts 1 good 0 sid 0 invalid 0 bad 0 idle 0 other 0 miss 0 none 10 made 10
end period 10 calls 1 left 0
",
        got: &[(1, Down, Sum(2_845_155_476)), (1, Out, Sum(1_660_770_437))],
    },
    Case {
        words: &["run"],
        orders: "0 open 1\n",
        lines: &[Call(1, Hostile(2, 10), Usual(160 * 10))],
        desk: Calm,
        status: 0,
        text: "order 1 ok
call 1 from 0 to 10 end up 0
counts 1 good 10 sid 0 invalid 0 bad 0 idle 0 other 0 miss 0 none 0 made 5
end period 10 calls 1 left 0
",
        got: &[(1, Down, Sum(2_386_474_034)), (1, Out, Sum(2_898_431_174))],
    },
    Case {
        words: &["run"],
        orders: "0 open 1\n",
        lines: &[Call(1, Hostile(3, 100), Usual(160 * 100))],
        desk: Calm,
        status: 0,
        text: "order 1 ok
call 1 from 0 to 100 end up 0
counts 1 good 100 sid 0 invalid 0 bad 0 idle 0 other 0 miss 0 none 0 made 101
end period 100 calls 1 left 0
",
        got: &[(1, Down, Sum(3_848_738_684)), (1, Out, Sum(3_483_516_614))],
    },
    Case {
        words: &["run"],
        orders: "0 open 1\n",
        lines: &[Call(1, Hostile(4, 10), Usual(160 * 10))],
        desk: Calm,
        status: 0,
        text: "order 1 ok
call 1 from 0 to 10 end up 0
counts 1 good 2 sid 0 invalid 0 bad 0 idle 0 other 0 miss 6 none 2 made 10
end period 10 calls 1 left 0
",
        got: &[(1, Down, Sum(2_051_402_306)), (1, Out, Sum(4_166_186_537))],
    },
    Case {
        words: &["run"],
        orders: "0 open 1\n",
        lines: &[Call(1, Hostile(5, 10), Usual(160 * 10))],
        desk: Calm,
        status: 0,
        text: "order 1 ok
call 1 from 0 to 10 end up 0
counts 1 good 10 sid 0 invalid 0 bad 0 idle 0 other 0 miss 0 none 0 made 10
end period 10 calls 1 left 0
",
        got: &[(1, Down, Sum(2_051_402_306)), (1, Out, Sum(2_439_802_367))],
    },
    Case {
        words: &["frames", "1"],
        orders: "",
        lines: &[Line(1, Up, Hostile(4, 10), ALL, NONE)],
        desk: Calm,
        status: 0,
        text: "0 good
320 miss
640 miss
960 miss
1525 good
1845 miss
2165 miss
2485 miss
frames 8 left 0
",
        got: &[],
    },
];

#[test]
fn hostile_uplinks_as_another_program(rt: HostRuntime) {
    assert_parts(&rt, 1, come(&rt, rt.alloc(), &HOSTILE, ALL), 7);
}
