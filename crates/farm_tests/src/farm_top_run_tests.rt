//! The command `run`, with the lines and the orders in memory: its status, its text and what it writes.

use crate::cases::Got::Count;
use crate::cases::{Case, come};
use crate::commands::AtDesk::Calm;
use crate::lines::Laid::{Call, Line};
use crate::lines::Octets::Usual;
use crate::lines::{ALL, Laid, NONE};
use crate::rows::assert_parts;
use trau_io::Side::{Down, Out, Pcm, Up};

const OPEN_7: &str = "0 open 7\n";

const OPEN_BOTH: &str = "0 open 7\n0 open 9\n";

const BRIDGE: &str = "0 open 7\n0 open 9\n0 bridge 7 9\n";

// 252 periods of call 7, and the report of them.
const OF_252: [Laid; 1] = [Call(7, Usual(252 * 40), Usual(252 * 160))];

const TEXT_OF_252: &str = "order 1 ok
call 7 from 0 to 252 end up 0
counts 7 good 252 sid 0 invalid 0 bad 0 idle 0 other 0 miss 0 none 0 made 252
end period 252 calls 1 left 0
";

static ROWS: [Case; 8] = [
    // Rounds of 250 periods and of two; rounds of one.
    Case {
        words: &["run", "--batch", "250"],
        orders: OPEN_7,
        lines: &OF_252,
        desk: Calm,
        status: 0,
        text: TEXT_OF_252,
        got: &[
            (7, Down, Count(252 * 40)),
            (7, Out, Count(252 * 160)),
            (9, Down, Count(0)),
            (9, Out, Count(0)),
        ],
    },
    Case {
        words: &["run", "--batch", "1"],
        orders: OPEN_7,
        lines: &OF_252,
        desk: Calm,
        status: 0,
        text: TEXT_OF_252,
        got: &[
            (7, Down, Count(252 * 40)),
            (7, Out, Count(252 * 160)),
            (9, Down, Count(0)),
            (9, Out, Count(0)),
        ],
    },
    // Both lines of a call end inside a period, and all lines are read and written in chunks.
    Case {
        words: &["run", "--batch", "3"],
        orders: OPEN_7,
        lines: &[
            Line(7, Up, Usual(100), 1, NONE),
            Line(7, Pcm, Usual(500), 159, NONE),
            Line(7, Down, Usual(0), 33, NONE),
            Line(7, Out, Usual(0), 39, NONE),
        ],
        desk: Calm,
        status: 0,
        text: "order 1 ok
call 7 from 0 to 2 end up 20
counts 7 good 2 sid 0 invalid 0 bad 0 idle 0 other 0 miss 0 none 0 made 2
end period 2 calls 1 left 0
",
        got: &[
            (7, Down, Count(80)),
            (7, Out, Count(320)),
            (9, Down, Count(0)),
            (9, Out, Count(0)),
        ],
    },
    // One of two bridged calls has 30 periods and 13 octets. The other goes on alone.
    Case {
        words: &["run", "--periods", "40"],
        orders: BRIDGE,
        lines: &[
            Call(7, Usual(30 * 40 + 13), Usual(100 * 160)),
            Call(9, Usual(100 * 40), Usual(100 * 160)),
        ],
        desk: Calm,
        status: 0,
        text: "order 1 ok
order 2 ok
order 3 ok
bridge 7 9 from 0 to 30 sent 30 30 lost 0 0
call 7 from 0 to 30 end up 13
counts 7 good 30 sid 0 invalid 0 bad 0 idle 0 other 0 miss 0 none 0 made 30
call 9 from 0 to 40 limit
counts 9 good 40 sid 0 invalid 0 bad 0 idle 0 other 0 miss 0 none 0 made 40
end period 40 calls 2 left 0
",
        got: &[
            (7, Down, Count(30 * 40)),
            (7, Out, Count(30 * 160)),
            (9, Down, Count(40 * 40)),
            (9, Out, Count(40 * 160)),
        ],
    },
    // Both calls of a bridge end in one round, one with both of its lines.
    Case {
        words: &["run", "--batch", "10"],
        orders: BRIDGE,
        lines: &[
            Call(7, Usual(3 * 40), Usual(3 * 160 + 1)),
            Call(9, Usual(5 * 40), Usual(2 * 160 + 8)),
        ],
        desk: Calm,
        status: 0,
        text: "order 1 ok
order 2 ok
order 3 ok
bridge 7 9 from 0 to 2 sent 2 2 lost 0 0
call 7 from 0 to 3 end up 0
counts 7 good 3 sid 0 invalid 0 bad 0 idle 0 other 0 miss 0 none 0 made 3
call 9 from 0 to 2 end pcm 8
counts 9 good 2 sid 0 invalid 0 bad 0 idle 0 other 0 miss 0 none 0 made 2
end period 3 calls 2 left 0
",
        got: &[
            (7, Down, Count(3 * 40)),
            (7, Out, Count(3 * 160)),
            (9, Down, Count(2 * 40)),
            (9, Out, Count(2 * 160)),
        ],
    },
    // A read that fails past the end of the other line is reported, and the call ends at that end.
    Case {
        words: &["run", "--batch", "10"],
        orders: OPEN_7,
        lines: &[
            Call(7, Usual(2 * 40), Usual(4 * 160)),
            Line(7, Pcm, Usual(4 * 160), 640, 1),
        ],
        desk: Calm,
        status: 6,
        text: "order 1 ok
call 7 from 0 to 2 end up 0
counts 7 good 2 sid 0 invalid 0 bad 0 idle 0 other 0 miss 0 none 0 made 2
line 7 pcm failed
end period 2 calls 1 left 0
",
        got: &[
            (7, Down, Count(80)),
            (7, Out, Count(320)),
            (9, Down, Count(0)),
            (9, Out, Count(0)),
        ],
    },
    // An incoming line that fails ends its call after the call's whole periods, and no other call.
    Case {
        words: &["run", "--batch", "10"],
        orders: OPEN_BOTH,
        lines: &[
            Call(7, Usual(20 * 40), Usual(20 * 160)),
            Line(7, Pcm, Usual(20 * 160), 400, 1),
            Call(9, Usual(20 * 40), Usual(20 * 160)),
        ],
        desk: Calm,
        status: 6,
        text: "order 1 ok
order 2 ok
call 7 from 0 to 2 fault pcm
counts 7 good 2 sid 0 invalid 0 bad 0 idle 0 other 0 miss 0 none 0 made 2
call 9 from 0 to 20 end up 0
counts 9 good 20 sid 0 invalid 0 bad 0 idle 0 other 0 miss 0 none 0 made 20
line 7 pcm failed
end period 20 calls 2 left 0
",
        got: &[
            (7, Down, Count(80)),
            (7, Out, Count(320)),
            (9, Down, Count(20 * 40)),
            (9, Out, Count(20 * 160)),
        ],
    },
    // An outgoing line that fails isn't written again; its call goes on.
    Case {
        words: &["run", "--batch", "10"],
        orders: OPEN_7,
        lines: &[
            Call(7, Usual(20 * 40), Usual(20 * 160)),
            Line(7, Down, Usual(0), ALL, 0),
        ],
        desk: Calm,
        status: 6,
        text: "order 1 ok
call 7 from 0 to 20 end up 0
counts 7 good 20 sid 0 invalid 0 bad 0 idle 0 other 0 miss 0 none 0 made 20
line 7 down failed
end period 20 calls 1 left 0
",
        got: &[
            (7, Down, Count(0)),
            (7, Out, Count(20 * 160)),
            (9, Down, Count(0)),
            (9, Out, Count(0)),
        ],
    },
];

#[test]
fn runs_and_what_comes_of_them(rt: HostRuntime) {
    assert_parts(&rt, 1, come(&rt, rt.alloc(), &ROWS, ALL), 8);
}
