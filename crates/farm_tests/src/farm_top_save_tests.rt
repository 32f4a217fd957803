//! The commands `save` and `resume`, with the lines, the mark and the orders in memory: their status, their text and
//! what they write.

use crate::cases::Got::Count;
use crate::cases::{Case, come};
use crate::commands::AtDesk::{Calm, WriteFails};
use crate::lines::Laid::{Call, Line};
use crate::lines::Octets::{Usual, Zeros};
use crate::lines::{ALL, Laid, NONE};
use crate::rows::assert_parts;
use trau_io::Side::{Down, Out, Pcm, Up};

// Three periods of call 1: an uplink without a frame, and an idle Pcm line.
const OF_3: [Laid; 1] = [Call(1, Zeros(3 * 40), Usual(3 * 160))];

const OF_4: [Laid; 1] = [Call(1, Zeros(4 * 40), Usual(4 * 160))];

const OF_9: [Laid; 1] = [Call(1, Zeros(9 * 40), Usual(9 * 160))];

// The first operation of a line fails.
const OUT_FAILS: [Laid; 2] = [
    Call(1, Zeros(3 * 40), Usual(3 * 160)),
    Line(1, Out, Usual(0), ALL, 0),
];

const UP_FAILS: [Laid; 2] = [
    Call(1, Zeros(4 * 40), Usual(4 * 160)),
    Line(1, Up, Zeros(4 * 40), ALL, 0),
];

const DOWN_FAILS: [Laid; 2] = [
    Call(1, Zeros(4 * 40), Usual(4 * 160)),
    Line(1, Down, Usual(0), ALL, 0),
];

const SAVE_3: &[&str] = &["save", "--periods", "3"];

const RESUME: &[&str] = &["resume"];

// The mark of three periods, and the order after it.
const MARKED: &str = "save 3
call 1 from 0 out 102240 down 28958
orders
0 open 1
";

// The whole run's report over four periods.
const REPORT_OF_4: &str = "order 1 ok
call 1 from 0 to 4 end up 0
counts 1 good 0 sid 0 invalid 0 bad 0 idle 0 other 0 miss 0 none 4 made 4
end period 4 calls 1 left 0
";

static SAVES: [Case; 6] = [
    Case {
        words: SAVE_3,
        orders: "0 open 1\n",
        lines: &OF_3,
        desk: Calm,
        status: 0,
        text: "save 3\ncall 1 from 0 out 102240 down 28958\norders\n",
        got: &[(1, Down, Count(120)), (1, Out, Count(480))],
    },
    // An order at the mark's period isn't executed, and one before it closes the call.
    Case {
        words: SAVE_3,
        orders: "0 open 1\n3 close 1\n",
        lines: &OF_9,
        desk: Calm,
        status: 0,
        text: "save 3\ncall 1 from 0 out 102240 down 28958\norders\n",
        got: &[(1, Down, Count(120)), (1, Out, Count(480))],
    },
    Case {
        words: SAVE_3,
        orders: "0 open 1\n2 close 1\n",
        lines: &OF_9,
        desk: Calm,
        status: 0,
        text: "save 3\norders\n",
        got: &[(1, Down, Count(80)), (1, Out, Count(320))],
    },
    // The mark's period is past all ends.
    Case {
        words: &["save", "--periods", "4294967295"],
        orders: "0 open 1\n",
        lines: &OF_3,
        desk: Calm,
        status: 0,
        text: "save 4294967295\norders\n",
        got: &[(1, Down, Count(120)), (1, Out, Count(480))],
    },
    // If a line fails, there is no mark. If the desk fails, the text is a prefix.
    Case {
        words: SAVE_3,
        orders: "0 open 1\n",
        lines: &OUT_FAILS,
        desk: Calm,
        status: 6,
        text: "line 1 out failed\n",
        got: &[(1, Down, Count(120)), (1, Out, Count(0))],
    },
    Case {
        words: SAVE_3,
        orders: "0 open 1\n",
        lines: &OF_3,
        desk: WriteFails(0),
        status: 4,
        text: "",
        got: &[(1, Down, Count(120)), (1, Out, Count(480))],
    },
];

static RESUMES: [Case; 15] = [
    // The octets of the fourth period alone, and the report of the whole run.
    Case {
        words: RESUME,
        orders: MARKED,
        lines: &OF_4,
        desk: Calm,
        status: 0,
        text: REPORT_OF_4,
        got: &[(1, Down, Count(40)), (1, Out, Count(160))],
    },
    // The run ends at the mark's period, though fewer periods are asked for: nothing remains to be written.
    Case {
        words: &["resume", "--periods", "1", "--batch", "2"],
        orders: MARKED,
        lines: &OF_4,
        desk: Calm,
        status: 0,
        text: "order 1 ok
call 1 from 0 to 3 limit
counts 1 good 0 sid 0 invalid 0 bad 0 idle 0 other 0 miss 0 none 3 made 3
end period 3 calls 1 left 0
",
        got: &[(1, Down, Count(0)), (1, Out, Count(0))],
    },
    // The same if all calls end before the mark's period.
    Case {
        words: RESUME,
        orders: "save 9\norders\n0 open 1\n",
        lines: &OF_4,
        desk: Calm,
        status: 0,
        text: REPORT_OF_4,
        got: &[(1, Down, Count(0)), (1, Out, Count(0))],
    },
    // Another sum, a call more, a call less; and a desk that fails while the text goes out.
    Case {
        words: RESUME,
        orders: "save 3\ncall 1 from 0 out 102240 down 28957\norders\n0 open 1\n",
        lines: &OF_4,
        desk: Calm,
        status: 9,
        text: "save differs 1\n",
        got: &[(1, Down, Count(0)), (1, Out, Count(0))],
    },
    Case {
        words: RESUME,
        orders: "save 3\ncall 1 from 0 out 102240 down 28958\ncall 2 from 0 out 0 down 0\norders\n0 open 1\n",
        lines: &OF_4,
        desk: Calm,
        status: 9,
        text: "save differs 2\n",
        got: &[(1, Down, Count(0)), (1, Out, Count(0))],
    },
    Case {
        words: RESUME,
        orders: "save 3\norders\n0 open 1\n",
        lines: &OF_4,
        desk: WriteFails(0),
        status: 9,
        text: "",
        got: &[(1, Down, Count(0)), (1, Out, Count(0))],
    },
    // A call whose lines end at the mark's period is in the mark, since the run's end goes before the lines' end.
    Case {
        words: RESUME,
        orders: MARKED,
        lines: &OF_3,
        desk: Calm,
        status: 0,
        text: "order 1 ok
call 1 from 0 to 3 end up 0
counts 1 good 0 sid 0 invalid 0 bad 0 idle 0 other 0 miss 0 none 3 made 3
end period 3 calls 1 left 0
",
        got: &[(1, Down, Count(0)), (1, Out, Count(0))],
    },
    // A line that fails before the mark's period ends its call, which the mark has.
    Case {
        words: RESUME,
        orders: MARKED,
        lines: &UP_FAILS,
        desk: Calm,
        status: 9,
        text: "save differs 1\n",
        got: &[(1, Down, Count(0)), (1, Out, Count(0))],
    },
    // If the mark hasn't the call, the line's fault before the mark's period is reported.
    Case {
        words: RESUME,
        orders: "save 3\norders\n0 open 1\n2 close 1\n",
        lines: &UP_FAILS,
        desk: Calm,
        status: 6,
        text: "order 1 ok
order 2 refused 2 call 1
call 1 from 0 to 0 fault up
counts 1 good 0 sid 0 invalid 0 bad 0 idle 0 other 0 miss 0 none 0 made 0
line 1 up failed
end period 0 calls 1 left 0
",
        got: &[(1, Down, Count(0)), (1, Out, Count(0))],
    },
    // An outgoing line that fails after the mark's period is reported.
    Case {
        words: RESUME,
        orders: MARKED,
        lines: &DOWN_FAILS,
        desk: Calm,
        status: 6,
        text: "order 1 ok
call 1 from 0 to 4 end up 0
counts 1 good 0 sid 0 invalid 0 bad 0 idle 0 other 0 miss 0 none 4 made 4
line 1 down failed
end period 4 calls 1 left 0
",
        got: &[(1, Down, Count(0)), (1, Out, Count(160))],
    },
    Case {
        words: RESUME,
        orders: MARKED,
        lines: &OF_4,
        desk: WriteFails(0),
        status: 4,
        text: "",
        got: &[(1, Down, Count(40)), (1, Out, Count(160))],
    },
    // Lines that aren't in the grammars.
    Case {
        words: RESUME,
        orders: "save 03\ncall 1 from 0 out 102240 down 28958\norders\n0 open 1\n",
        lines: &OF_4,
        desk: Calm,
        status: 2,
        text: "save line 1\n",
        got: &[(1, Down, Count(0)), (1, Out, Count(0))],
    },
    Case {
        words: RESUME,
        orders: "save 3\ncall 1 from 3 out 102240 down 28958\norders\n0 open 1\n",
        lines: &OF_4,
        desk: Calm,
        status: 2,
        text: "save line 2\n",
        got: &[(1, Down, Count(0)), (1, Out, Count(0))],
    },
    Case {
        words: RESUME,
        orders: "save 3\ncall 1 from 0 out 102240 down 28958\norders\n0 open 1\n0 open 01\n",
        lines: &OF_4,
        desk: Calm,
        status: 2,
        text: "orders line 2\n",
        got: &[(1, Down, Count(0)), (1, Out, Count(0))],
    },
    Case {
        words: RESUME,
        orders: "",
        lines: &OF_4,
        desk: Calm,
        status: 2,
        text: "save line 1\n",
        got: &[(1, Down, Count(0)), (1, Out, Count(0))],
    },
];

#[test]
fn marks(rt: HostRuntime) {
    assert_parts(&rt, 1, come(&rt, rt.alloc(), &SAVES, ALL), 6);
}

#[test]
fn runs_from_a_mark_on(rt: HostRuntime) {
    assert_parts(&rt, 1, come(&rt, rt.alloc(), &RESUMES, ALL), 15);
}
