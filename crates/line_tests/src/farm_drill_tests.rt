//! Sums of drilled lines, as other programs made them from the same rules.
use crate::rows::assert_row;
use farm_drill::{Generator, drill, hostile, pcm};
use std::alloc::{AllocError, Global};
use std::process::Abort;
use trau_io::{Filled, Line, MemTrunk, Side, Trunk, read_block};

// The FNV-1a sum of some octets, 32 bits.
fn sum(octets: &[u8]) -> u32 {
    let mut sum = 2_166_136_261u32;
    for octet in octets {
        sum = (sum ^ u32::from(*octet)).wrapping_mul(16_777_619);
    }
    sum
}

// The lines and orders of a drill, without what is proved of them.
fn drilled(
    alloc: Global,
    seed: u32,
    calls: u32,
    periods: u32,
) -> Result<(MemTrunk, Vec<u8>), AllocError> {
    drill(alloc, seed, calls.min(256), periods.min(1000))
}

// Whether an incoming line gives exactly so many octets.
fn is_whole(trunk: &mut MemTrunk, line: Line, octets: &mut [u8]) -> bool {
    read_block(trunk, line, octets) == Filled::Whole && trunk.read(line, &mut [0]) == Ok(0)
}

// The sum of what an incoming line gives; None if that isn't exactly `count` octets.
fn sum_of_line(
    rt: &impl Abort,
    alloc: Global,
    trunk: &mut MemTrunk,
    call: u32,
    side: Side,
    count: usize,
) -> Option<u32> {
    let line = Line {
        call: call.clamp(1, 4096),
        side,
    };
    let mut octets = vec![in alloc; 0; count].expect(rt, "memory");
    if is_whole(trunk, line, &mut octets) {
        Some(sum(&octets))
    } else {
        None
    }
}

// Seed, calls, periods; a call, and the sums of its Up and Pcm line. The Pcm line is quiet for the first 32 periods,
// then loud for 32, and so on.
type Row = (u32, u32, u32, u32, u32, u32);

static SUMS: [Row; 4] = [
    (7, 3, 30, 1, 1_314_134_350, 2_143_392_773),
    (7, 3, 30, 3, 787_943_159, 2_143_392_773),
    (4_294_967_295, 6, 140, 5, 164_405_353, 2_432_531_562),
    (4_294_967_295, 6, 140, 6, 4_124_660_262, 114_896_368),
];

// Whether the lines of a call have these sums.
fn has_sums(rt: &impl Abort, alloc: Global, trunk: &mut MemTrunk, row: &Row) -> bool {
    let (_, _, periods, call, up, pcm) = *row;
    let octets = 40 * periods.min(1000) as usize;
    let on_up = sum_of_line(rt, alloc, trunk, call, Side::Up, octets);
    let on_pcm = sum_of_line(rt, alloc, trunk, call, Side::Pcm, 4 * octets);
    on_up == Some(up) && on_pcm == Some(pcm)
}

// Whether a drill has a call with these sums.
fn is_drilled(rt: &impl Abort, alloc: Global, row: &Row) -> bool {
    let (mut trunk, _) = drilled(alloc, row.0, row.1, row.2).expect(rt, "memory");
    has_sums(rt, alloc, &mut trunk, row)
}

#[test]
fn drills_as_another_program(rt: HostRuntime) {
    for row in &SUMS {
        assert_row(&rt, row.3 as usize, is_drilled(&rt, rt.alloc(), row));
    }
}

#[test]
fn orders_as_another_program(rt: HostRuntime) {
    let (_trunk, text) = drilled(rt.alloc(), 7, 3, 30).expect(&rt, "memory");
    let orders = "0 open 1\n0 open 2\n0 open 3\n7 bridge 1 2\n15 unbridge 1\n";
    assert_row(&rt, 1, text.as_slice() == orders.as_bytes());
}

// By kind, the periods and the sum of the line.
static HOSTILE_SUMS: [(u8, u32, u32); 6] = [
    (0, 10, 3_963_512_581),
    (1, 10, 2_171_686_517),
    (2, 10, 508_848_001),
    (3, 100, 3_836_687_365),
    (4, 10, 2_150_481_225),
    (5, 10, 3_153_489_213),
];

// The sum of a hostile line.
fn hostile_sum(alloc: Global, kind: u8, periods: u32) -> Result<u32, AllocError> {
    let line = hostile(alloc, kind.min(5), periods.min(1000))?;
    Ok(sum(&line))
}

#[test]
fn is_hostile_as_another_program(rt: HostRuntime) {
    for (kind, periods, wanted) in &HOSTILE_SUMS {
        assert_row(
            &rt,
            usize::from(*kind),
            hostile_sum(rt.alloc(), *kind, *periods) == Ok(*wanted),
        );
    }
}

// The first draw for a call of the drill with seed 1, as an octet of a loud Pcm line.
fn first_draw(call: u32) -> u8 {
    pcm(&mut Generator::new(1, call.min(4095)), 32)[0]
}

#[test]
fn first_draws_of_two_calls(rt: HostRuntime) {
    assert_row(&rt, 1, first_draw(1) == 210);
    assert_row(&rt, 2, first_draw(2) == 211);
}
