//! The command `run` over files in memory: its status, its text, and what the files have afterwards. The texts and the
//! sums of octets are the model's.

use crate::cases::sum;
use crate::commands::AtDesk::Calm;
use crate::commands::{desk_of, words_of};
use crate::lines::Octets::{Numbered, These};
use crate::lines::{ALL, Octets, filled, octets_of};
use crate::rows::{assert_parts, assert_row};
use memory_folder::{MemoryFolder, run_in_memory};
use pool_run::OpenGate;
use std::alloc::Global;
use std::fs::OpenOptions;
use std::process::Abort;
use std::sync::Wait;
use std::thread::Threads;
use trau_files::Folder;
use trau_io::Side::{Pcm, Up};
use trau_io::{MemDesk, Side};

// Ten periods of loud speech: the first ten frames of `checks/vectors/speech-loud-m7.up`.
const SPEECH: [u8; 400] = [
    0x00, 0x00, 0x88, 0x00, 0x8D, 0x31, 0xDD, 0xC5, 0xFA, 0x28, 0xB3, 0x37, 0xA4, 0xDB, 0xED, 0xE5,
    0x8D, 0x85, 0x90, 0x51, 0x92, 0xD8, 0xCD, 0xC7, 0x86, 0x1C, 0xA6, 0x7E, 0x91, 0xA5, 0xAD, 0x10,
    0xDE, 0x4D, 0xC6, 0x92, 0xC5, 0x37, 0xFA, 0xFF, 0x00, 0x00, 0x88, 0x00, 0x9C, 0xB2, 0xC3, 0xCE,
    0xFF, 0xB9, 0x96, 0x73, 0x80, 0xE2, 0xCB, 0x25, 0xD0, 0x74, 0x91, 0xDB, 0x94, 0xA7, 0xF5, 0xD8,
    0xE5, 0xF4, 0xB8, 0xB1, 0xD3, 0x9F, 0xF0, 0x20, 0xF4, 0x2D, 0xA4, 0xC4, 0xBD, 0x01, 0xDE, 0xFF,
    0x00, 0x00, 0x88, 0x00, 0xA2, 0xB2, 0xDD, 0x92, 0xDE, 0x87, 0xFD, 0x64, 0xD5, 0xFD, 0xCB, 0xDE,
    0x88, 0x79, 0xB1, 0x18, 0xB4, 0x38, 0xF6, 0xD4, 0x87, 0x3A, 0xDE, 0xDE, 0xD7, 0xD5, 0xAB, 0x00,
    0xFB, 0xA1, 0x98, 0xE3, 0xD9, 0x33, 0xFA, 0xFF, 0x00, 0x00, 0x88, 0x00, 0xEC, 0x71, 0xAD, 0xA6,
    0xFF, 0x07, 0xE0, 0xB3, 0xA9, 0x09, 0x94, 0xC5, 0xA0, 0x79, 0xCD, 0xB1, 0x8F, 0x27, 0xBE, 0xCB,
    0xF9, 0xD9, 0x81, 0xA9, 0xA2, 0x6A, 0xED, 0x7F, 0xBD, 0x9D, 0xD7, 0x99, 0xA4, 0x2F, 0xCA, 0xFF,
    0x00, 0x00, 0x88, 0x00, 0x94, 0x2C, 0xE9, 0xA9, 0xBB, 0xF9, 0xC2, 0xE6, 0xC9, 0xD1, 0xDD, 0xAE,
    0xEF, 0x90, 0xAD, 0x0B, 0x8A, 0x26, 0xF6, 0xDB, 0xF9, 0xB9, 0xED, 0xBC, 0xF3, 0x86, 0x85, 0x7F,
    0xAD, 0x18, 0xFB, 0x55, 0xA7, 0x5E, 0xCE, 0xFF, 0x00, 0x00, 0x88, 0x00, 0x94, 0x2A, 0xF1, 0xA9,
    0xBB, 0xFB, 0xC7, 0x77, 0x94, 0xED, 0xE8, 0x92, 0xDF, 0xBF, 0xD2, 0xE3, 0x9D, 0x99, 0xD8, 0xE7,
    0xF9, 0x66, 0xCE, 0xB1, 0x94, 0xF3, 0xAB, 0x7F, 0xB8, 0xEF, 0x94, 0xB5, 0xB3, 0x63, 0xC6, 0xFF,
    0x00, 0x00, 0x88, 0x00, 0x94, 0x2E, 0xE1, 0xA9, 0xBB, 0xFB, 0xC3, 0x64, 0xA5, 0x6C, 0xB8, 0x1E,
    0xA0, 0x5F, 0x88, 0xC6, 0xD1, 0x38, 0xF5, 0xD8, 0x87, 0x71, 0x93, 0x3A, 0xA9, 0x55, 0x92, 0xBF,
    0xBA, 0x13, 0xC7, 0x15, 0xA7, 0x6E, 0x96, 0xFF, 0x00, 0x00, 0x88, 0x00, 0x95, 0x4A, 0xE5, 0xC1,
    0xD7, 0xFB, 0x90, 0xFE, 0xDD, 0x64, 0xF0, 0x9D, 0xC0, 0x51, 0xF3, 0x84, 0xE8, 0x34, 0x8A, 0x7A,
    0xBA, 0xB6, 0xE7, 0x29, 0xAD, 0x68, 0xE6, 0x50, 0xDB, 0x15, 0xF8, 0xAC, 0xC7, 0x54, 0xA6, 0xFF,
    0x00, 0x00, 0x88, 0x00, 0xA5, 0x4C, 0xE3, 0x8E, 0xDF, 0x06, 0xEB, 0x13, 0xDA, 0x9B, 0x87, 0x92,
    0xC8, 0x64, 0xB7, 0x90, 0xD5, 0x5B, 0x8D, 0x86, 0x85, 0xEA, 0xE2, 0x76, 0xF7, 0x85, 0xCC, 0x4B,
    0xCE, 0xAD, 0xC5, 0x32, 0x94, 0x97, 0xC6, 0xFF, 0x00, 0x00, 0x88, 0x00, 0xE4, 0x09, 0xB7, 0x8A,
    0x9E, 0x87, 0xB1, 0x2C, 0x99, 0x92, 0xBB, 0x34, 0xA8, 0x58, 0x91, 0x0E, 0xF6, 0x86, 0xEA, 0x88,
    0xE6, 0x92, 0xE1, 0xAE, 0xBB, 0x8E, 0x93, 0x70, 0xD8, 0xA4, 0xBA, 0xB8, 0xFB, 0x69, 0xF2, 0xFF,
];

// Two calls of ten periods, bridged in the last four.
const ORDERS: &str = "0 open 7\n0 open 9\n6 bridge 7 9\n";

// A line's file before a run: its name, and what is on the line.
type Recorded = (&'static str, Side, u32, Octets);

const UP_7: Recorded = ("7.up", Up, 7, These(&SPEECH));

const PCM_7: Recorded = ("7.pcm", Pcm, 7, Numbered(1600));

const UP_9: Recorded = ("9.up", Up, 9, Numbered(400));

const PCM_9: Recorded = ("9.pcm", Pcm, 9, Numbered(1600));

// A file after a run: its name, how many octets it has, and their FNV-1a sum, 32 bits.
type Left = (&'static str, usize, u32);

// Makes a file with these octets.
fn make(rt: &impl Abort, folder: &mut MemoryFolder, name: &str, octets: &[u8]) {
    let mut how = OpenOptions::new();
    how.write(true).create(true);
    let mut file = folder.open(&how, name).expect(rt, "a new file");
    folder.write(&mut file, octets).expect(rt, "memory");
    folder.close(file);
}

// A folder with the files of these lines, an older and shorter Out line of call 7, and a file that is no line.
fn folder_of(rt: &impl Abort, alloc: Global, recorded: &[Recorded]) -> MemoryFolder {
    let mut folder = MemoryFolder::new(alloc);
    for (name, side, call, octets) in recorded {
        let octets = octets_of(rt, alloc, *side, *call, *octets);
        make(rt, &mut folder, name, &octets);
    }
    make(rt, &mut folder, "7.out", &[1, 2, 3]);
    make(rt, &mut folder, "notes", &[1, 2, 3]);
    folder
}

// What a file has: how many octets, and their sum. If the name leads to no file, nothing.
fn left_in(
    rt: &impl Abort,
    alloc: Global,
    folder: &mut MemoryFolder,
    name: &str,
) -> Option<(usize, u32)> {
    let mut how = OpenOptions::new();
    how.read(true);
    let mut file = folder.open(&how, name).ok()?;
    let mut octets = filled(rt, alloc, 0, ALL as usize);
    let count = folder.read(&mut file, &mut octets).ok()?;
    folder.close(file);
    Some((count, sum(octets.get(..count)?)))
}

// How many files have these octets, before the first that hasn't.
fn hold(rt: &impl Abort, alloc: Global, folder: &mut MemoryFolder, left: &[Left]) -> usize {
    let mut hold = 0usize;
    for (name, count, sum) in left {
        if left_in(rt, alloc, folder, name) != Some((*count, *sum)) {
            return hold;
        }
        hold = hold.saturating_add(1);
    }
    hold
}

// Runs both calls over these files. Returns the status, the desk and the folder. It has no contract, so no test carries
// on what is proved of the run.
fn run_over<R: Abort + Threads + Wait + Sync>(
    rt: &R,
    alloc: Global,
    recorded: &[Recorded],
) -> (u8, MemDesk, MemoryFolder) {
    let folder = folder_of(rt, alloc, recorded);
    let words = words_of(rt, alloc, &["run", "--batch", "3"]);
    let mut desk = desk_of(rt, alloc, ORDERS, Calm);
    let ran = run_in_memory(rt, alloc, &words, folder, &mut desk, &OpenGate);
    let (status, folder) = ran.ok().expect(rt, "memory");
    (status, desk, folder)
}

const REPORT: &str = "order 1 ok
order 2 ok
order 3 ok
bridge 7 9 from 6 to 10 sent 4 4 lost 0 0
call 7 from 0 to 10 end up 0
counts 7 good 10 sid 0 invalid 0 bad 0 idle 0 other 0 miss 0 none 0 made 10
call 9 from 0 to 10 end up 0
counts 9 good 10 sid 0 invalid 0 bad 0 idle 0 other 0 miss 0 none 0 made 10
end period 10 calls 2 left 0
";

// The recorded files, and the one that is no line, are as they were.
static LEFT: [Left; 9] = [
    ("7.down", 400, 3_709_883_479),
    ("7.out", 1600, 2_619_352_817),
    ("9.down", 400, 4_172_467_611),
    ("9.out", 1600, 1_036_117_062),
    ("7.up", 400, 2_379_868_267),
    ("7.pcm", 1600, 2_481_327_180),
    ("9.up", 400, 509_280_766),
    ("9.pcm", 1600, 3_301_684_764),
    ("notes", 3, 1_456_420_779),
];

#[test]
fn two_calls_over_files_in_memory(rt: HostRuntime) {
    let alloc = rt.alloc();
    let (status, desk, mut folder) = run_over(&rt, alloc, &[UP_7, PCM_7, UP_9, PCM_9]);
    assert_row(&rt, 1, status == 0);
    assert_row(&rt, 2, desk.text() == REPORT.as_bytes());
    assert_parts(&rt, 3, hold(&rt, alloc, &mut folder, &LEFT), 9);
}

const REPORT_WITHOUT_PCM: &str = "order 1 ok
order 2 ok
order 3 refused 2 call 9
call 7 from 0 to 10 end up 0
counts 7 good 10 sid 0 invalid 0 bad 0 idle 0 other 0 miss 0 none 0 made 10
call 9 from 0 to 0 fault pcm
counts 9 good 0 sid 0 invalid 0 bad 0 idle 0 other 0 miss 0 none 0 made 0
line 9 pcm failed
end period 10 calls 2 left 0
";

// Call 7 is as if it were alone.
static LEFT_WITHOUT_PCM: [Left; 6] = [
    ("7.down", 400, 3_120_386_073),
    ("7.out", 1600, 1_197_966_612),
    ("7.up", 400, 2_379_868_267),
    ("7.pcm", 1600, 2_481_327_180),
    ("9.up", 400, 509_280_766),
    ("notes", 3, 1_456_420_779),
];

// How many of these names lead to no file, before the first that does.
fn lacks(rt: &impl Abort, alloc: Global, folder: &mut MemoryFolder, names: &[&str]) -> usize {
    let mut lacks = 0usize;
    for name in names {
        if left_in(rt, alloc, folder, name).is_some() {
            return lacks;
        }
        lacks = lacks.saturating_add(1);
    }
    lacks
}

#[test]
fn an_incoming_file_is_missing(rt: HostRuntime) {
    let alloc = rt.alloc();
    let (status, desk, mut folder) = run_over(&rt, alloc, &[UP_7, PCM_7, UP_9]);
    assert_row(&rt, 1, status == 6);
    assert_row(&rt, 2, desk.text() == REPORT_WITHOUT_PCM.as_bytes());
    let held = hold(&rt, alloc, &mut folder, &LEFT_WITHOUT_PCM);
    assert_parts(&rt, 3, held, 6);
    let names = ["9.pcm", "9.down", "9.out"];
    assert_parts(&rt, 4, lacks(&rt, alloc, &mut folder, &names), 3);
}
