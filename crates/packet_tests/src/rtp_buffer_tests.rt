//! Parts of periods, numbers past the greatest one, and paths as the gateway in Python plays them.

use crate::rows::assert_row;
use rtp_buffer::{Buffer, Octet, Outcome, Pace, Slot, Store, Wish};

const EMPTY: Slot<160> = Slot {
    period: 0,
    octets: [Octet::Missing; 160],
};

// Parts that came in any order are played once, and where two came the first one.
#[test]
fn parts_of_a_period(rt: HostRuntime) {
    let mut store = Store {
        slots: [EMPTY; 256],
    };
    store.clear();
    store.put(7, 80, &[1; 80]);
    store.put(7, 0, &[2; 120]);
    assert_row(&rt, 0, store.waits(7) && !store.waits(263));
    assert_row(&rt, 1, store.have_come(7, 0, 160));
    let heard = store.take(7, 213);
    assert_row(&rt, 2, heard[0] == 2 && heard[79] == 2);
    assert_row(&rt, 3, heard[80] == 1 && heard[159] == 1);
    assert_row(&rt, 4, !store.waits(7) && store.have_come(7, 0, 160));
    store.put(7, 0, &[3; 160]);
    assert_row(&rt, 5, store.take(7, 213)[0] == 213);
}

// The period after the greatest is 0.
#[test]
fn past_the_greatest_number(rt: HostRuntime) {
    let mut store = Store {
        slots: [EMPTY; 256],
    };
    store.put(u32::MAX, 0, &[5; 160]);
    store.put(0, 0, &[6; 33]);
    store.put(100, 0, &[7; 160]);
    store.leave_out_before(0);
    assert_row(&rt, 0, !store.waits(u32::MAX));
    assert_row(&rt, 1, store.waits(0) && store.waits(100));
    store.leave_out(100);
    assert_row(&rt, 2, !store.waits(100) && !store.have_come(100, 0, 1));
    let heard = store.take(0, 1);
    assert_row(&rt, 3, heard[32] == 6 && heard[33] == 1);
}

// Paths, by the periods that come at a tick.
#[derive(Clone, Copy)]
enum Path {
    // 8 ticks longer from tick 300 to tick 1400.
    Longer,
    // Each tenth period from tick 300 to tick 900 comes 6 ticks late.
    Reorders,
    // A sender's clock that is too fast by a hundredth.
    Fast,
    // One that is too slow by a hundredth.
    Slow,
}

impl Path {
    // The periods that come in order, from this one until that one.
    fn in_order(self, tick: u32) -> (u32, u32) {
        match self {
            Path::Longer => match tick {
                300..308 => (0, 0),
                308..1400 => (tick - 8, tick - 7),
                1400 => (1392, 1401),
                _ => (tick, tick.wrapping_add(1)),
            },
            Path::Reorders => match tick {
                300..900 if tick % 10 == 0 => (0, 0),
                _ => (tick, tick.wrapping_add(1)),
            },
            Path::Fast => {
                let period = tick.wrapping_add(tick / 100);
                let is_second = tick > 0 && tick % 100 == 0;
                let from = if is_second {
                    period.wrapping_sub(1)
                } else {
                    period
                };
                (from, period.wrapping_add(1))
            }
            Path::Slow => {
                let period = tick.wrapping_sub(tick / 100);
                let until = if tick % 100 == 99 {
                    period
                } else {
                    period.wrapping_add(1)
                };
                (period, until)
            }
        }
    }

    // The period that comes late, after those.
    fn late(self, tick: u32) -> Option<u32> {
        match self {
            Path::Reorders if tick >= 306 && tick < 906 && tick % 10 == 6 => Some(tick - 6),
            _ => None,
        }
    }
}

// A period whose octets are its number modulo 251, and 1, comes at a tick.
fn comes(buffer: &mut Buffer<33>, period: u32, tick: u32) -> Outcome {
    buffer.put(period, 0, &[(period % 251) as u8 + 1; 33], tick, true)
}

// One tick: the first octet of the period that is played, or 0.
fn turn(buffer: &mut Buffer<33>, path: Path, tick: u32) -> u8 {
    let (from, until) = path.in_order(tick);
    for period in from..until {
        if tick > 0 {
            let wait = buffer.pace.wait(period, tick);
            buffer.pace.follow(wait, tick);
        }
        comes(buffer, period, tick);
    }
    if let Some(period) = path.late(tick) {
        comes(buffer, period, tick);
    }
    if let Wish::Now = buffer.prepare(tick) {
        buffer.slip(tick);
    }
    buffer.take(tick, 0)[0]
}

// So many ticks of a path: the sum of what is played, the periods of which nothing is played, and the delay at the end.
fn played(path: Path, depth: u32, ticks: u32) -> (u32, u32, u32) {
    let slot = Slot {
        period: 0,
        octets: [Octet::Missing; 33],
    };
    let mut buffer = Buffer {
        pace: Pace::home(depth, 0),
        newest: 0,
        store: Store { slots: [slot; 256] },
    };
    buffer.begin(depth, 0);
    let mut sum = 0u32;
    let mut fillers = 0u32;
    for tick in 0..ticks {
        let octet = turn(&mut buffer, path, tick);
        sum = sum.wrapping_add(u32::from(octet));
        fillers = fillers.wrapping_add(u32::from(octet == 0));
    }
    (sum, fillers, 0u32.wrapping_sub(buffer.pace.shift))
}

// As gateway/jitter_buffer.py plays them, if no period is soft speech.
#[test]
fn paths(rt: HostRuntime) {
    assert_row(&rt, 0, played(Path::Longer, 1, 4000) == (501207, 10, 1));
    assert_row(&rt, 1, played(Path::Reorders, 3, 600) == (67350, 9, 6));
    assert_row(&rt, 2, played(Path::Reorders, 3, 3000) == (375318, 10, 3));
    assert_row(
        &rt,
        3,
        played(Path::Fast, 3, 5000) == (628391, 3, 4294967262),
    );
    assert_row(&rt, 4, played(Path::Slow, 3, 5000) == (615651, 63, 51));
}

// What is late, what came before, and when all is played out.
#[test]
fn outcomes(rt: HostRuntime) {
    let slot = Slot {
        period: 0,
        octets: [Octet::Missing; 33],
    };
    let mut buffer = Buffer {
        pace: Pace::home(2, 7),
        newest: 0,
        store: Store { slots: [slot; 256] },
    };
    buffer.begin(2, 7);
    assert_row(&rt, 0, buffer.is_played_out(7));
    assert_row(&rt, 1, matches!(comes(&mut buffer, 0, 7), Outcome::Taken));
    assert_row(&rt, 2, matches!(comes(&mut buffer, 0, 8), Outcome::Doubled));
    assert_row(
        &rt,
        3,
        !buffer.is_played_out(9) && buffer.take(9, 0)[32] == 1,
    );
    assert_row(
        &rt,
        4,
        matches!(comes(&mut buffer, 0, 30), Outcome::Doubled),
    );
    assert_row(&rt, 5, matches!(comes(&mut buffer, 1, 30), Outcome::Late));
    assert_row(&rt, 6, buffer.is_played_out(10));
}
