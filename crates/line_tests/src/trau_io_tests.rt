//! The trunk and the desk in memory: what they give and take, with which chunk sizes, and where they fail.

use crate::rows::assert_row;
use std::alloc::Global;
use std::process::Abort;
use trau_io::{
    Desk, Failed, Filled, Line, MemDesk, MemTrunk, Side, Trunk, read_block, tell, write_all,
};

const UP: Line = Line {
    call: 4096,
    side: Side::Up,
};

const PCM: Line = Line {
    call: 1,
    side: Side::Pcm,
};

const DOWN: Line = Line {
    call: 1,
    side: Side::Down,
};

const OUT: Line = Line {
    call: 1,
    side: Side::Out,
};

// Sets a line anew.
fn set(
    rt: &impl Abort,
    alloc: Global,
    trunk: &mut MemTrunk,
    line: Line,
    octets: &[u8],
    cuts: &[u32],
    fails: &[u32],
    room: u32,
) {
    let octets = octets.to_vec(alloc).expect(rt, "memory");
    let cuts = cuts.to_vec(alloc).expect(rt, "memory");
    let fails = fails.to_vec(alloc).expect(rt, "memory");
    let set = trunk.set(alloc, line, octets, cuts, fails, room);
    set.expect(rt, "memory");
}

// Up has nine octets, in chunks of 0 (which counts as 1), 2 and 100, and its fourth operation fails. Pcm has ten
// octets, and Down room for seven, both with chunk sizes.
fn three_lines(rt: &impl Abort, alloc: Global) -> MemTrunk {
    let mut trunk = MemTrunk::new(alloc).expect(rt, "memory");
    let octets = [1, 2, 3, 4, 5, 6, 7, 8, 9];
    set(rt, alloc, &mut trunk, UP, &octets, &[0, 2, 100], &[3], 0);
    set(rt, alloc, &mut trunk, PCM, &[7; 10], &[3, 1], &[], 0);
    set(rt, alloc, &mut trunk, DOWN, &[], &[2, 3], &[], 7);
    trunk
}

// The answers to reads of at most four octets.
static ANSWERS: [Result<usize, Failed>; 6] = [Ok(1), Ok(2), Ok(4), Err(Failed), Ok(2), Ok(0)];

// How many reads have these answers, before the first that doesn't.
fn reads_answered(trunk: &mut MemTrunk, octets: &mut [u8; 4]) -> usize {
    let mut answered = 0usize;
    for answer in &ANSWERS {
        if trunk.read(UP, octets) != *answer {
            return answered;
        }
        answered = answered.saturating_add(1);
    }
    answered
}

// Whether all have these answers, and leave what was read last; one has failed.
fn is_read_in_cuts(trunk: &mut MemTrunk) -> bool {
    let mut octets = [0; 4];
    let all = reads_answered(trunk, &mut octets) == 6;
    all && octets == [8, 9, 6, 7] && trunk.faults(UP) == 1
}

// Whether another line gives nothing and takes nothing.
fn is_closed(trunk: &mut MemTrunk) -> bool {
    trunk.read(OUT, &mut [0; 4]) == Ok(0) && trunk.write(OUT, &[8, 9, 6, 7]) == Err(Failed)
}

// After the last chunk size, chunks have no limit. All other lines are empty and without room.
#[test]
fn a_line_is_read_in_its_cuts(rt: HostRuntime) {
    let mut trunk = three_lines(&rt, rt.alloc());
    assert_row(&rt, 1, is_read_in_cuts(&mut trunk));
    assert_row(&rt, 2, is_closed(&mut trunk));
}

// Whether filling a block of six octets from Pcm has this result.
fn fills(trunk: &mut MemTrunk, block: &mut [u8; 6], filled: Filled) -> bool {
    read_block(trunk, PCM, block) == filled
}

// Whether Down takes all of a block.
fn takes(trunk: &mut MemTrunk, block: &[u8; 6]) -> bool {
    write_all(trunk, DOWN, block).is_ok()
}

// Whether one whole block is read and written, four octets of the next one are read, and Down has no room for that
// block.
fn transfers(trunk: &mut MemTrunk) -> bool {
    let mut block = [0; 6];
    let whole = fills(trunk, &mut block, Filled::Whole) && takes(trunk, &block);
    whole && fills(trunk, &mut block, Filled::Ended(4)) && !takes(trunk, &block)
}

// Whether these transfers have these results, and Down then has its seven octets and one fault.
fn fills_down(trunk: &mut MemTrunk) -> bool {
    transfers(trunk) && trunk.written(DOWN) == [7; 7].as_slice() && trunk.faults(DOWN) == 1
}

#[test]
fn a_whole_transfer_goes_on_over_cuts(rt: HostRuntime) {
    let mut trunk = three_lines(&rt, rt.alloc());
    assert_row(&rt, 1, fills_down(&mut trunk));
}

// A desk with eight octets and room for nine, whose first read and second write fail.
fn desk(rt: &impl Abort, alloc: Global) -> MemDesk {
    let orders = b"0 open 1".to_vec(alloc).expect(rt, "memory");
    let read_fails = [0].to_vec(alloc).expect(rt, "memory");
    let write_fails = [1].to_vec(alloc).expect(rt, "memory");
    MemDesk::new(alloc, orders, read_fails, write_fails, 9).expect(rt, "memory")
}

// Whether a read of at most six octets has this answer.
fn hears(desk: &mut MemDesk, answer: Result<usize, Failed>) -> bool {
    desk.read(&mut [0; 6]) == answer
}

// Whether these numbers of reads and writes have failed.
fn has_failed(desk: &MemDesk, reads: u64, writes: u64) -> bool {
    desk.read_faults() == reads && desk.write_faults() == writes
}

// Whether only the first read fails, and the next ones give all eight octets.
fn is_heard(desk: &mut MemDesk) -> bool {
    let first = hears(desk, Err(Failed)) && hears(desk, Ok(6));
    first && hears(desk, Ok(2)) && hears(desk, Ok(0)) && has_failed(desk, 1, 0)
}

// Whether the desk takes the whole text `usage`.
fn is_told(desk: &mut MemDesk) -> bool {
    tell(desk, b"usage\n").is_ok()
}

// Whether it takes the first such text, nothing of the second, and three octets of the third: two writes fail.
fn is_told_once(desk: &mut MemDesk) -> bool {
    let once = is_told(desk) && !is_told(desk) && !is_told(desk);
    once && desk.text() == b"usage\nusa".as_slice() && has_failed(desk, 1, 2)
}

#[test]
fn a_desk_gives_and_takes_as_it_was_told(rt: HostRuntime) {
    let mut desk = desk(&rt, rt.alloc());
    assert_row(&rt, 1, is_heard(&mut desk));
    assert_row(&rt, 2, is_told_once(&mut desk));
}
