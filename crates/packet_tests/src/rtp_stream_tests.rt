//! Where packets belong and whose are taken, as the gateway in Python has it.

ghost use Rattle.std.specs.Prelude.{◌≤◌, ◌<◌};
ghost use Rattle.rtp_packet.specs.Reception.{most_jitter};
ghost use Rattle.rtp_stream.specs.Places.{period_samples};

use crate::rows::{assert_row, assert_rows};
use rtp_buffer::{Buffer, Octet, Pace, Slot, Store};
use rtp_packet::{Header, Reception};
use rtp_stream::{Arrival, Sources, Stream, Track, lay};

// A packet: its number, its time stamp, its source, its samples, the tick at which it is read, and by how many periods
// that is late.
type Row = (u16, u32, u32, u32, u32, u32);

// A stream before its first packet, which waits three ticks.
fn stream<const N: usize>(offset: u32) -> Stream<N>
    requires { offset < period_samples }
    ensures smooth { result.reception.jitter ≤ most_jitter }
    ensures sample { result.track.newest.place.sample < period_samples }
    ensures offset { result.track.offset < period_samples }
{
    let slot = Slot {
        period: 0,
        octets: [Octet::Missing; N],
    };
    let mut stream = Stream {
        depth: 0,
        sources: Sources::home(),
        reception: Reception::home(0, 0),
        track: Track::home(offset, 0),
        heard_at: 0,
        buffer: Buffer {
            pace: Pace::home(0, 0),
            newest: 0,
            store: Store { slots: [slot; 256] },
        },
    };
    stream.reset(3, offset);
    stream
}

// A packet arrives.
fn arrives<const N: usize>(stream: &mut Stream<N>, row: Row) -> Arrival
    requires smooth { stream.old.reception.jitter ≤ most_jitter }
    requires sample { stream.old.track.newest.place.sample < period_samples }
    requires offset { stream.old.track.offset < period_samples }
    ensures smooth { stream.new.reception.jitter ≤ most_jitter }
    ensures sample { stream.new.track.newest.place.sample < period_samples }
    ensures offset { stream.new.track.offset < period_samples }
{
    let (sequence_number, timestamp, source, samples, tick, behind) = row;
    let header = Header {
        marker: false,
        payload_type: 3,
        sequence_number,
        timestamp,
        source,
    };
    stream.arrive(&header, samples, tick, behind)
}

// What is wanted of a packet.
#[derive(Clone, Copy)]
enum Wanted {
    At(u32, u32),
    NewSource,
    Jump,
    OnProbation,
    GivenUp,
    Far,
}

// Whether it is so.
fn is_wanted(arrival: Arrival, wanted: Wanted) -> bool {
    match (arrival, wanted) {
        (Arrival::At(place), Wanted::At(period, sample)) => {
            place.period == period && place.sample == sample
        }
        (Arrival::NewSource, Wanted::NewSource) => true,
        (Arrival::Jump, Wanted::Jump) => true,
        (Arrival::OnProbation, Wanted::OnProbation) => true,
        (Arrival::GivenUp, Wanted::GivenUp) => true,
        (Arrival::Far, Wanted::Far) => true,
        _ => false,
    }
}

// How many packets are as wanted before the first that isn't.
fn rows_held<const N: usize>(stream: &mut Stream<N>, rows: &[(Row, Wanted)]) -> usize
    requires smooth { stream.old.reception.jitter ≤ most_jitter }
    requires sample { stream.old.track.newest.place.sample < period_samples }
    requires offset { stream.old.track.offset < period_samples }
    ensures smooth { stream.new.reception.jitter ≤ most_jitter }
    ensures sample { stream.new.track.newest.place.sample < period_samples }
    ensures offset { stream.new.track.offset < period_samples }
{
    for n in 0..rows.len() {
        let (row, wanted) = rows[n];
        if !is_wanted(arrives(stream, row), wanted) {
            return n;
        }
    }
    rows.len()
}

// Frames on the grid and off it, doubled, a jump of the time stamps, and another source.
static FRAMES: [(Row, Wanted); 13] = [
    ((1, 1000, 5, 160, 0, 0), Wanted::NewSource),
    ((2, 1160, 5, 160, 1, 0), Wanted::At(1, 80)),
    ((3, 1400, 5, 160, 2, 0), Wanted::At(3, 0)),
    ((4, 1399, 5, 160, 2, 0), Wanted::At(2, 159)),
    ((2, 1160, 5, 160, 3, 0), Wanted::At(1, 80)),
    ((5, 9559, 5, 160, 3, 0), Wanted::Far),
    ((6, 9560, 5, 160, 3, 0), Wanted::Far),
    ((7, 9720, 5, 160, 3, 0), Wanted::Jump),
    ((8, 160, 5, 160, 4, 0), Wanted::Far),
    ((9, 1760, 6, 160, 4, 0), Wanted::OnProbation),
    ((10, 1920, 6, 160, 5, 0), Wanted::OnProbation),
    ((11, 2080, 6, 160, 400, 0), Wanted::NewSource),
    ((12, 2240, 6, 160, 401, 0), Wanted::At(1, 80)),
];

#[test]
fn frames(rt: HostRuntime) {
    let mut stream: Stream<33> = stream(80);
    assert_rows(&rt, rows_held(&mut stream, &FRAMES), FRAMES.len());
}

// Octets past the greatest time stamp, before the first one, and read late.
static OCTETS: [(Row, Wanted); 4] = [
    ((1, 4294967200, 5, 240, 0, 0), Wanted::NewSource),
    ((2, 144, 5, 240, 1, 0), Wanted::At(1, 80)),
    ((0, 4294966960, 5, 240, 2, 0), Wanted::At(4294967294, 80)),
    ((3, 384, 5, 80, 2, 3), Wanted::At(3, 0)),
];

#[test]
fn octets(rt: HostRuntime) {
    let mut stream: Stream<160> = stream(0);
    assert_rows(&rt, rows_held(&mut stream, &OCTETS), OCTETS.len());
}

// Of three sources that begin at once while the first one is still, one is heard.
static SOURCES: [(Row, Wanted); 7] = [
    ((1, 160, 5, 160, 0, 0), Wanted::NewSource),
    ((1, 160, 6, 160, 10, 0), Wanted::OnProbation),
    ((1, 160, 7, 160, 10, 0), Wanted::OnProbation),
    ((1, 160, 8, 160, 14, 0), Wanted::OnProbation),
    ((2, 320, 7, 160, 14, 0), Wanted::OnProbation),
    ((2, 320, 6, 160, 14, 0), Wanted::NewSource),
    ((3, 480, 7, 160, 14, 0), Wanted::OnProbation),
];

#[test]
fn sources(rt: HostRuntime) {
    let mut stream: Stream<33> = stream(80);
    assert_rows(&rt, rows_held(&mut stream, &SOURCES), SOURCES.len());
}

// Two packets before 20 periods are given up. After that their packets aren't late, but of time that was given up,
// until one comes that is neither late nor far away.
static BEFORE: [(Row, Wanted); 2] = [
    ((1, 0, 5, 160, 0, 0), Wanted::NewSource),
    ((2, 160, 5, 160, 1, 0), Wanted::At(1, 80)),
];

static AFTER: [(Row, Wanted); 4] = [
    ((900, 960000, 5, 160, 2, 0), Wanted::Far),
    ((3, 320, 5, 160, 2, 0), Wanted::GivenUp),
    ((23, 3520, 5, 160, 2, 0), Wanted::At(22, 80)),
    ((4, 480, 5, 160, 2, 0), Wanted::At(3, 80)),
];

#[test]
fn given_up(rt: HostRuntime) {
    let mut stream: Stream<33> = stream(80);
    assert_rows(&rt, rows_held(&mut stream, &BEFORE), BEFORE.len());
    stream.give_up(20, 2);
    assert_rows(&rt, rows_held(&mut stream, &AFTER), AFTER.len());
}

// A payload over three periods, the first one in part, is played whole; doubled, it changes nothing.
#[test]
fn a_payload(rt: HostRuntime) {
    let mut stream: Stream<160> = stream(0);
    let mut octets = [0; 400];
    for n in 0..400usize {
        octets[n] = (n % 251) as u8;
    }
    let laid = lay(&mut stream.buffer, 0, 80, &octets, 0, true);
    assert_row(&rt, 0, laid.late == 0 && laid.doubled == 0);
    let again = lay(&mut stream.buffer, 0, 80, &octets, 1, true);
    assert_row(&rt, 1, again.late == 0 && again.doubled == 3);
    let first = stream.buffer.take(3, 255);
    assert_row(&rt, 2, first[79] == 255 && first[80] == 0);
    let second = stream.buffer.take(4, 255);
    assert_row(&rt, 3, second[0] == 80 && second[159] == 239);
    let third = stream.buffer.take(5, 255);
    assert_row(&rt, 4, third[0] == 240 && third[159] == 148);
    let late = lay(&mut stream.buffer, 0, 0, &octets, 6, true);
    assert_row(&rt, 5, late.late == 1 && late.doubled == 2);
}
