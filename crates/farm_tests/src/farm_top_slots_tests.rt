//! The commands on time slots, with lines in memory: whole, in chunks, and with a line or the desk that fails.
use crate::cases::Got::Front;
use crate::cases::{Case, come};
use crate::commands::AtDesk::{Calm, WriteFails};
use crate::lines::Laid::Line;
use crate::lines::Octets::These;
use crate::lines::{ALL, NONE};
use crate::rows::assert_parts;
use trau_io::Side::{Down, Out, Pcm, Up};

// The octets 1B are 00, 01, 10 and 11 in binary digits.
static ROWS: [Case; 7] = [
    Case {
        words: &["split", "1"],
        orders: "",
        lines: &[
            Line(1, Pcm, These(&[0x1B, 0x1B, 0x1B, 0x1B]), ALL, NONE),
            Line(1, Down, These(&[]), ALL, NONE),
            Line(2, Down, These(&[]), ALL, NONE),
            Line(3, Down, These(&[]), ALL, NONE),
            Line(4, Down, These(&[]), ALL, NONE),
        ],
        desk: Calm,
        status: 0,
        text: "split octets 4 left 0\n",
        got: &[
            (1, Down, Front(&[0x00], 1)),
            (2, Down, Front(&[0x55], 1)),
            (3, Down, Front(&[0xAA], 1)),
            (4, Down, Front(&[0xFF], 1)),
        ],
    },
    // The slot's three octets don't make up an octet of each channel, so they are left.
    Case {
        words: &["split", "1"],
        orders: "",
        lines: &[Line(1, Pcm, These(&[0x1B, 0x1B, 0x1B]), ALL, NONE)],
        desk: Calm,
        status: 0,
        text: "split octets 0 left 3\n",
        got: &[(1, Down, Front(&[], 0))],
    },
    // A channel that fails stops the split.
    Case {
        words: &["split", "1"],
        orders: "",
        lines: &[
            Line(1, Pcm, These(&[0x1B, 0x1B, 0x1B, 0x1B]), ALL, NONE),
            Line(1, Down, These(&[]), ALL, NONE),
            Line(2, Down, These(&[]), ALL, NONE),
            Line(3, Down, These(&[]), ALL, 0),
            Line(4, Down, These(&[]), ALL, NONE),
        ],
        desk: Calm,
        status: 6,
        text: "line 3 down failed\n",
        got: &[(2, Down, Front(&[0x55], 1)), (4, Down, Front(&[], 0))],
    },
    Case {
        words: &["merge", "1"],
        orders: "",
        lines: &[
            Line(1, Up, These(&[0x00]), ALL, NONE),
            Line(2, Up, These(&[0x55]), ALL, NONE),
            Line(3, Up, These(&[0xAA]), ALL, NONE),
            Line(4, Up, These(&[0xFF, 0xFF]), ALL, NONE),
            Line(1, Out, These(&[]), ALL, NONE),
        ],
        desk: Calm,
        status: 0,
        text: "merge octets 4 left 0 0 0 1\n",
        got: &[(1, Out, Front(&[0x1B, 0x1B, 0x1B, 0x1B], 4))],
    },
    // A channel fails, or the slot.
    Case {
        words: &["merge", "1"],
        orders: "",
        lines: &[
            Line(1, Up, These(&[0x00]), ALL, NONE),
            Line(2, Up, These(&[0x55]), ALL, 0),
            Line(3, Up, These(&[0xAA]), ALL, NONE),
            Line(4, Up, These(&[0xFF]), ALL, NONE),
            Line(1, Out, These(&[]), ALL, NONE),
        ],
        desk: Calm,
        status: 6,
        text: "line 2 up failed\n",
        got: &[(1, Out, Front(&[], 0))],
    },
    Case {
        words: &["merge", "1"],
        orders: "",
        lines: &[
            Line(1, Up, These(&[0x00]), ALL, NONE),
            Line(2, Up, These(&[0x55]), ALL, NONE),
            Line(3, Up, These(&[0xAA]), ALL, NONE),
            Line(4, Up, These(&[0xFF]), ALL, NONE),
            Line(1, Out, These(&[]), ALL, 0),
        ],
        desk: Calm,
        status: 6,
        text: "line 1 out failed\n",
        got: &[(1, Out, Front(&[], 0))],
    },
    // A desk that fails goes first.
    Case {
        words: &["split", "1"],
        orders: "",
        lines: &[
            Line(1, Pcm, These(&[0x1B, 0x1B, 0x1B, 0x1B]), ALL, NONE),
            Line(1, Down, These(&[]), ALL, 0),
        ],
        desk: WriteFails(0),
        status: 4,
        text: "",
        got: &[(1, Down, Front(&[], 0))],
    },
];

// The number of an assertion is the chunk size.
#[test]
fn slots_are_split_and_merged(rt: HostRuntime) {
    for cut in [1u32, 3, 1000] {
        assert_parts(&rt, cut as usize, come(&rt, rt.alloc(), &ROWS, cut), 7);
    }
}
