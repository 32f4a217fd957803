//! What no proof sees: the system's files and streams.

use crate::rows::{assert_row, assert_rows};
use std::io::{ErrorKind, Read, Write};
use std::{fs, io};
use trau_files::{FileTrunk, Folder, StdDesk};
use trau_io::{Desk, Line, Side, Trunk};

// The lines of the tests are Up of call 4096, and Out and Pcm of call 9.
fn line(side: Side) -> Line {
    match side {
        Side::Up => Line { call: 4096, side },
        _ => Line { call: 9, side },
    }
}

// An operation on files and lines, and its result.
#[derive(Drop)]
enum Step {
    // Makes a file with these octets.
    Make(&'static str, &'static [u8]),
    Remove(&'static str),
    // A file holds these octets.
    Holds(&'static str, &'static [u8]),
    // A read of at most this many octets, one to four: how many octets it gives (None if it fails), and the buffer
    // afterwards.
    Reads(Side, usize, Option<usize>, [u8; 4]),
    // A write of these octets: how many the line takes (None if it fails).
    Writes(Side, &'static [u8], Option<usize>),
    // Each of 300 Out lines takes this octet, one after the other.
    EachWrites(u8),
    // Each of their files holds these octets.
    EachHolds(&'static [u8]),
}

// How many octets a read into the start of a buffer gives, at most `most` and one to four; None if it fails.
fn read<D: Folder + Eprint + Drop>(
    trunk: &mut FileTrunk<D>,
    line: Line,
    most: usize,
    octets: &mut [u8; 4],
) -> Option<usize> {
    trunk.read(line, &mut octets[..most.max(1).min(4)]).ok()
}

// Whether a read of at most `most` octets, one to four, has this result and leaves these octets in the buffer.
fn reads<D: Folder + Eprint + Drop>(
    trunk: &mut FileTrunk<D>,
    line: Line,
    most: usize,
    given: Option<usize>,
    octets: &[u8; 4],
) -> bool {
    let mut buffer = [0; 4];
    let count = read(trunk, line, most, &mut buffer);
    (count == given) & (buffer == *octets)
}

// Whether a write of these octets has this result.
fn writes<D: Folder + Eprint + Drop>(
    trunk: &mut FileTrunk<D>,
    line: Line,
    octets: &[u8],
    taken: Option<usize>,
) -> bool {
    !octets.is_empty() && trunk.write(line, octets).ok() == taken
}

// Whether a file holds these octets.
fn holds(rt: &HostRuntime, name: &str, octets: &[u8]) -> bool {
    match fs::read(rt, name) {
        Ok(found) => found.as_slice() == octets,
        Err(_) => false,
    }
}

// Whether the Out lines of 300 calls each take this octet, one after the other.
fn are_written<D: Folder + Eprint + Drop>(trunk: &mut FileTrunk<D>, octet: u8) -> bool {
    let side = Side::Out;
    for call in 1..=300u32 {
        if trunk.write(Line { call, side }, &[octet]).ok() != Some(1) {
            return false;
        }
    }
    true
}

// How many of the 300 files hold these octets, before the first that doesn't.
fn held(rt: &HostRuntime, octets: &[u8]) -> usize {
    let mut count = 0usize;
    for call in 1..=300u32 {
        match format!(in rt.alloc(); "{call}.out") {
            Ok(name) if holds(rt, name.as_str(), octets) => count = count.saturating_add(1),
            _ => return count,
        }
    }
    count
}

// Whether a step on files alone can be done, and has its result.
fn is_done_to_files(rt: &HostRuntime, step: &Step) -> bool {
    match step {
        Step::Make(name, octets) => fs::write(rt, *name, *octets).is_ok(),
        Step::Remove(name) => fs::remove_file(rt, *name).is_ok(),
        Step::Holds(name, octets) => holds(rt, name, octets),
        Step::EachHolds(octets) => held(rt, octets) == 300,
        _ => false,
    }
}

// Whether a step can be done, and has its result.
fn is_done<D: Folder + Eprint + Drop>(
    rt: &HostRuntime,
    trunk: &mut FileTrunk<D>,
    step: &Step,
) -> bool {
    match step {
        Step::Reads(side, most, given, octets) => reads(trunk, line(*side), *most, *given, octets),
        Step::Writes(side, octets, taken) => writes(trunk, line(*side), octets, *taken),
        Step::EachWrites(octet) => are_written(trunk, *octet),
        _ => is_done_to_files(rt, step),
    }
}

// How many steps hold with a trunk, before the first that doesn't.
fn done_with<D: Folder + Eprint + Drop>(
    rt: &HostRuntime,
    trunk: &mut FileTrunk<D>,
    steps: &[Step],
) -> usize {
    let mut done = 0usize;
    for step in steps {
        if !is_done(rt, trunk, step) {
            return done;
        }
        done = done.saturating_add(1);
    }
    done
}

// The same with a new trunk.
fn done(rt: &HostRuntime, steps: &[Step]) -> usize {
    match FileTrunk::new(rt.alloc(), rt) {
        Ok(mut trunk) => done_with(rt, &mut trunk, steps),
        Err(_) => 0,
    }
}

static FILES: [Step; 10] = [
    Step::Make("4096.up", &[1, 2, 3, 4, 5]),
    Step::Make("9.out", &[9; 9]),
    Step::Reads(Side::Up, 4, Some(4), [1, 2, 3, 4]),
    Step::Reads(Side::Up, 4, Some(1), [5, 0, 0, 0]),
    Step::Reads(Side::Up, 4, Some(0), [0; 4]),
    Step::Reads(Side::Out, 4, Some(4), [9; 4]),
    Step::Writes(Side::Out, &[6], Some(1)),
    Step::Writes(Side::Out, &[7, 8], Some(2)),
    Step::Holds("9.out", &[6, 7, 8]),
    Step::Reads(Side::Pcm, 1, None, [0; 4]),
];

// Each line goes on at its own octet, also if another was read or written in between.
static READS_IN_TURN: [Step; 7] = [
    Step::Make("4096.up", &[1, 2, 3]),
    Step::Make("9.out", &[4, 5, 6]),
    Step::Reads(Side::Up, 1, Some(1), [1, 0, 0, 0]),
    Step::Reads(Side::Out, 1, Some(1), [4, 0, 0, 0]),
    Step::Reads(Side::Up, 1, Some(1), [2, 0, 0, 0]),
    Step::Writes(Side::Out, &[7], Some(1)),
    Step::Reads(Side::Up, 1, Some(1), [3, 0, 0, 0]),
];

static WRITES_IN_TURN: [Step; 5] = [
    Step::Writes(Side::Out, &[7], Some(1)),
    Step::Writes(Side::Up, &[8], Some(1)),
    Step::Writes(Side::Out, &[9], Some(1)),
    Step::Holds("9.out", &[7, 9]),
    Step::Reads(Side::Up, 1, Some(1), [8, 0, 0, 0]),
];

// An open file outlives its name; a file that isn't open is looked for by its name.
static REMOVED_FILES: [Step; 11] = [
    Step::Make("4096.up", &[1, 2, 3]),
    Step::Reads(Side::Up, 1, Some(1), [1, 0, 0, 0]),
    Step::Writes(Side::Out, &[7], Some(1)),
    Step::Remove("4096.up"),
    Step::Remove("9.out"),
    Step::Reads(Side::Up, 1, Some(1), [2, 0, 0, 0]),
    Step::Writes(Side::Out, &[8], Some(1)),
    Step::Reads(Side::Out, 1, None, [0; 4]),
    Step::Make("4096.up", &[4, 5, 6]),
    Step::Reads(Side::Up, 1, Some(1), [3, 0, 0, 0]),
    Step::Writes(Side::Out, &[8], None),
];

// Each table has a new trunk.
#[test]
fn lines_are_files(rt: HostRuntime) {
    assert_rows(&rt, done(&rt, &FILES), 10);
    assert_rows(&rt, done(&rt, &READS_IN_TURN), 7);
    assert_rows(&rt, done(&rt, &WRITES_IN_TURN), 5);
    assert_rows(&rt, done(&rt, &REMOVED_FILES), 11);
}

// More lines than files that stay open.
static MANY_LINES: [Step; 4] = [
    Step::EachWrites(1),
    Step::EachWrites(2),
    Step::EachWrites(3),
    Step::EachHolds(&[1, 2, 3]),
];

#[test]
fn many_lines_are_written_in_turn(rt: HostRuntime) {
    assert_rows(&rt, done(&rt, &MANY_LINES), 4);
}

// A stream that fails so before each operation that moves octets.
#[derive(Drop)]
struct Faulty<T> {
    inner: T,
    kind: ErrorKind,
    is_due: bool,
}

impl<T> Faulty<T> {
    fn new(inner: T, kind: ErrorKind) -> Faulty<T> {
        Faulty {
            inner,
            kind,
            is_due: true,
        }
    }

    fn call(&mut self) -> io::Result<()> {
        self.is_due = !self.is_due;
        if self.is_due {
            Ok(())
        } else {
            Err(io::Error::from(self.kind))
        }
    }
}

impl<T: Read> Read for Faulty<T> {
    fn read(&mut self, buf: &mut [u8]) -> io::Result<usize> {
        self.call()?;
        self.inner.read(buf)
    }
}

impl<T: Write> Write for Faulty<T> {
    fn write(&mut self, bytes: &[u8]) -> io::Result<usize> {
        self.call()?;
        self.inner.write(bytes)
    }

    fn flush(&mut self) -> io::Result<()> {
        self.inner.flush()
    }
}

// Whether a read of at most two octets gives `count`.
fn hears(
    desk: &mut StdDesk<Faulty<&[u8]>, Faulty<&mut Vec<u8>>>,
    octets: &mut [u8; 2],
    count: usize,
) -> bool {
    desk.read(octets).ok() == Some(count)
}

// Whether three octets are read, the last one to the place of the first.
fn is_heard(desk: &mut StdDesk<Faulty<&[u8]>, Faulty<&mut Vec<u8>>>) -> bool {
    let mut octets = [0; 2];
    let all = hears(desk, &mut octets, 2) && hears(desk, &mut octets, 1);
    all && octets == [7, 6] && hears(desk, &mut octets, 0)
}

// Whether a desk takes these two octets at once.
fn is_told(desk: &mut StdDesk<Faulty<&[u8]>, Faulty<&mut Vec<u8>>>, octets: &[u8; 2]) -> bool {
    desk.write(octets).ok() == Some(2)
}

#[test]
fn a_desk_is_a_reader_and_a_writer(rt: HostRuntime) {
    let mut text = Vec::new(rt.alloc());
    let orders = Faulty::new([5, 6, 7].as_slice(), ErrorKind::Interrupted);
    let mut desk = StdDesk::new(orders, Faulty::new(&mut text, ErrorKind::Interrupted));
    assert_row(&rt, 1, is_heard(&mut desk));
    assert_row(&rt, 2, is_told(&mut desk, &[1, 2]));
    assert_row(&rt, 3, text.as_slice() == [1, 2].as_slice());
}

// Whether the first read fails and the second one gives three octets' first two, and writes do likewise.
fn fails_in_turn(desk: &mut StdDesk<Faulty<&[u8]>, Faulty<&mut Vec<u8>>>) -> bool {
    let mut octets = [0; 2];
    let heard = desk.read(&mut octets).is_err() && hears(desk, &mut octets, 2);
    heard && desk.write(&[1, 2]).is_err() && is_told(desk, &[3, 4])
}

// An operation that failed isn't made again, unless it was interrupted.
#[test]
fn a_fault_of_a_stream_is_the_desks(rt: HostRuntime) {
    let mut text = Vec::new(rt.alloc());
    let orders = Faulty::new([5, 6, 7].as_slice(), ErrorKind::BrokenPipe);
    let mut desk = StdDesk::new(orders, Faulty::new(&mut text, ErrorKind::BrokenPipe));
    assert_row(&rt, 1, fails_in_turn(&mut desk));
    assert_row(&rt, 2, text.as_slice() == [3, 4].as_slice());
}
