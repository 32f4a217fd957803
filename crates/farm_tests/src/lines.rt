//! Lines in memory, and their contents.

use farm_drill::hostile;
use std::alloc::Global;
use std::process::Abort;
use trau_io::{Line, MemTrunk, Side};

// The line of a call with this number, 1 to 4,096.
pub(crate) fn line(call: u32, side: Side) -> Line {
    let call = call.clamp(1, 4096);
    Line { call, side }
}

// The number of an operation that is never done.
pub(crate) const NONE: u32 = 1000;

// A large chunk size.
pub(crate) const ALL: u32 = 10_000;

// What is on a line before a command.
#[derive(Clone, Copy)]
pub(crate) enum Octets {
    // This number of octets: of good uplink frames on an Up line, of silence on any other.
    Usual(usize),
    // This number of octets that differ by period and by call.
    Numbered(usize),
    // This number of zeros: an uplink without a frame.
    Zeros(usize),
    These(&'static [u8]),
    // A hostile uplink by its kind, 0 to 5, and its periods, at most 1,000.
    Hostile(u8, u32),
}

// What is laid before a command, in place of what earlier rows laid on the same lines. All other lines are empty, and
// have no room.
#[derive(Clone, Copy)]
pub(crate) enum Laid {
    // The four lines of a call, with these octets on Up and on Pcm. No operation fails, and each moves all that it can.
    Call(u32, Octets, Octets),
    // A line by its call and side: what is on it, its chunk size, and the number of the operation that fails on it.
    Line(u32, Side, Octets, u32, u32),
}

// Lines of call 1 on which each operation fails.
pub(crate) const FAILING: [Laid; 4] = [
    Laid::Line(1, Side::Up, Octets::Usual(400), ALL, 0),
    Laid::Line(1, Side::Pcm, Octets::Usual(1600), ALL, 0),
    Laid::Line(1, Side::Down, Octets::Usual(0), ALL, 0),
    Laid::Line(1, Side::Out, Octets::Usual(0), ALL, 0),
];

// A good uplink frame whose 260 data bits are those of 160 samples 0 encoded from the initial state, as GSM 08.60
// places them. Calculated by hand from the tables.
pub(crate) static UPLINK_FRAME: [u8; 40] = [
    0x00, 0x00, 0x88, 0x00, 0x82, 0x09, 0xBA, 0x1A, 0xE4, 0x28, 0x80, 0x12, 0xA4, 0x92, 0xA4, 0x92,
    0xA2, 0x80, 0x81, 0x24, 0xC9, 0x24, 0xC9, 0x24, 0xA8, 0x00, 0x92, 0x49, 0x92, 0x49, 0x92, 0x45,
    0x80, 0x02, 0xA4, 0x92, 0xA4, 0x92, 0xA6, 0xFF,
];

// `count` times the same octet.
pub(crate) fn filled(rt: &impl Abort, alloc: Global, octet: u8, count: usize) -> Vec<u8> {
    vec![in alloc; octet; count].expect(rt, "memory")
}

// These octets.
pub(crate) fn copied(rt: &impl Abort, alloc: Global, octets: &[u8]) -> Vec<u8> {
    octets.to_vec(alloc).expect(rt, "memory")
}

// `count` times the same number.
pub(crate) fn numbers(rt: &impl Abort, alloc: Global, number: u32, count: usize) -> Vec<u32> {
    vec![in alloc; number; count].expect(rt, "memory")
}

// An octet of a line: of good uplink frames for an Up line, of silence for any other.
fn usual(side: Side, place: usize) -> u8 {
    match side {
        Side::Up => UPLINK_FRAME[place % 40],
        _ => 0xD5,
    }
}

// An octet that differs by period and by call: of good uplink frames with the number of the period in their data bits,
// or of a Pcm line that changes.
fn numbered(side: Side, call: u32, place: usize) -> u8 {
    match (side, place % 40) {
        (Side::Up, 5) => (place / 40 % 256) as u8 ^ (call % 256) as u8,
        (Side::Up, _) => usual(side, place),
        _ => (place % 251) as u8 ^ (call % 256) as u8,
    }
}

// An octet of a line by its place.
fn octet(octets: Octets, side: Side, call: u32, place: usize) -> u8 {
    match octets {
        Octets::Usual(_) => usual(side, place),
        Octets::Numbered(_) => numbered(side, call, place),
        _ => 0,
    }
}

// `count` octets of a line, each by its place.
fn by_place(
    rt: &impl Abort,
    alloc: Global,
    side: Side,
    call: u32,
    octets: Octets,
    count: usize,
) -> Vec<u8> {
    let mut laid = filled(rt, alloc, 0, count);
    for (place, each) in laid.iter_mut().enumerate() {
        *each = octet(octets, side, call, place);
    }
    laid
}

// What is on a line.
pub(crate) fn octets_of(
    rt: &impl Abort,
    alloc: Global,
    side: Side,
    call: u32,
    octets: Octets,
) -> Vec<u8> {
    match octets {
        Octets::Usual(count) | Octets::Numbered(count) | Octets::Zeros(count) => {
            by_place(rt, alloc, side, call, octets, count)
        }
        Octets::These(octets) => copied(rt, alloc, octets),
        Octets::Hostile(kind, periods) => {
            hostile(alloc, kind.min(5), periods.min(1000)).expect(rt, "memory")
        }
    }
}

// Sets a line with these octets on it, in chunks of at most `cut` octets.
fn put(
    rt: &impl Abort,
    alloc: Global,
    trunk: &mut MemTrunk,
    line: Line,
    octets: Octets,
    cut: u32,
    fails: u32,
) {
    let octets = octets_of(rt, alloc, line.side, line.call, octets);
    let cuts = numbers(rt, alloc, cut, 500);
    let fails = numbers(rt, alloc, fails, 1);
    let set = trunk.set(alloc, line, octets, cuts, fails, 50_000);
    set.expect(rt, "memory");
}

// Sets the four lines of a call, in chunks of at most `cut` octets.
fn put_call(
    rt: &impl Abort,
    alloc: Global,
    trunk: &mut MemTrunk,
    call: u32,
    incoming: (Octets, Octets),
    cut: u32,
) {
    let (up, pcm) = incoming;
    let nothing = Octets::Zeros(0);
    put(rt, alloc, trunk, line(call, Side::Up), up, cut, NONE);
    put(rt, alloc, trunk, line(call, Side::Pcm), pcm, cut, NONE);
    put(rt, alloc, trunk, line(call, Side::Down), nothing, cut, NONE);
    put(rt, alloc, trunk, line(call, Side::Out), nothing, cut, NONE);
}

// Lays what a row says, in chunks of at most `cut` octets.
pub(crate) fn lay(rt: &impl Abort, alloc: Global, trunk: &mut MemTrunk, row: &Laid, cut: u32) {
    match *row {
        Laid::Call(call, up, pcm) => put_call(rt, alloc, trunk, call, (up, pcm), cut),
        Laid::Line(call, side, octets, piece, fails) => {
            put(
                rt,
                alloc,
                trunk,
                line(call, side),
                octets,
                cut.min(piece),
                fails,
            )
        }
    }
}

// A trunk with these lines, in chunks of at most `cut` octets.
pub(crate) fn trunk_of(rt: &impl Abort, alloc: Global, lines: &[Laid], cut: u32) -> MemTrunk {
    let mut trunk = MemTrunk::new(alloc).expect(rt, "memory");
    for row in lines {
        lay(rt, alloc, &mut trunk, row, cut);
    }
    trunk
}
