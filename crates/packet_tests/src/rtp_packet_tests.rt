//! Packets of other programs, packets made by hand, what is no packet; what came of a source.

use crate::rows::assert_row;
use rtp_packet::{Header, Reception, Refusal, parse};

// The first twelve octets of a packet in each of `ffmpeg.pcap`, `gstreamer.pcap`, `osmo.pcap` and `pcmu.pcap`
// (tools/tests/data, whose senders tools/README.md names), and the header's fields, which were read from these octets.
static SENT: [([u8; 12], bool, u8, u16, u32, u32); 4] = [
    (
        [
            0x80, 0x08, 0x08, 0xEA, 0xB7, 0x3C, 0x76, 0xCF, 0x8B, 0xD6, 0x7D, 0x73,
        ],
        false,
        8,
        2282,
        3074193103,
        0x8BD6_7D73,
    ),
    (
        [
            0x80, 0x62, 0x72, 0xF5, 0x7E, 0x80, 0x7D, 0x5D, 0x6D, 0x8A, 0x4A, 0xE2,
        ],
        false,
        98,
        29429,
        2122349917,
        0x6D8A_4AE2,
    ),
    (
        [
            0x80, 0x83, 0x52, 0x2A, 0x0B, 0x81, 0xAF, 0xCF, 0x30, 0xB0, 0xF8, 0xFE,
        ],
        true,
        3,
        21034,
        193048527,
        0x30B0_F8FE,
    ),
    (
        [
            0x80, 0x00, 0x0B, 0xF6, 0xFC, 0xA7, 0x35, 0xE7, 0x2D, 0x4D, 0x76, 0xB1,
        ],
        false,
        0,
        3062,
        4238816743,
        0x2D4D_76B1,
    ),
];

// The same header.
fn is_same(one: &Header, other: &Header) -> bool {
    one.marker == other.marker
        && one.payload_type == other.payload_type
        && one.sequence_number == other.sequence_number
        && one.timestamp == other.timestamp
        && one.source == other.source
}

// Reads twelve octets without a payload, and writes them again.
fn goes_round(octets: &[u8; 12], wanted: &Header) -> bool {
    match parse(octets) {
        Err(_) => false,
        Ok(packet) => {
            is_same(&packet.header, wanted)
                && packet.from == 12
                && packet.until == 12
                && packet.header.octets() == *octets
        }
    }
}

#[test]
fn packets_of_other_programs(rt: HostRuntime) {
    for n in 0..SENT.len() {
        let (octets, marker, payload_type, sequence_number, timestamp, source) = SENT[n];
        let wanted = Header {
            marker,
            payload_type,
            sequence_number,
            timestamp,
            source,
        };
        assert_row(&rt, n, goes_round(&octets, &wanted));
    }
}

// Where the payload lies: from this octet, until that one.
fn lies(octets: &[u8], from: usize, until: usize) -> bool {
    match parse(octets) {
        Err(_) => false,
        Ok(packet) => packet.from == from && packet.until == until,
    }
}

// Two contributing sources; an extension of one word, and one of none; three octets of padding, and padding alone.
#[test]
fn what_is_before_and_after_the_payload(rt: HostRuntime) {
    let mut octets = [7u8; 40];
    octets[1] = 3;
    octets[0] = 0x82;
    assert_row(&rt, 0, lies(&octets, 20, 40));
    octets[0] = 0x90;
    octets[14] = 0;
    octets[15] = 1;
    assert_row(&rt, 1, lies(&octets, 20, 40));
    octets[15] = 0;
    assert_row(&rt, 2, lies(&octets, 16, 40));
    octets[0] = 0xA0;
    octets[39] = 3;
    assert_row(&rt, 3, lies(&octets, 12, 37));
    octets[39] = 28;
    assert_row(&rt, 4, lies(&octets, 12, 12));
    octets[0] = 0xB2;
    octets[22] = 0;
    octets[23] = 2;
    octets[39] = 8;
    assert_row(&rt, 5, lies(&octets, 32, 32));
}

// Why a datagram is no packet, by its first octet, its second one, the words of its extension and its last octet.
fn refused(first: u8, second: u8, words: u8, last: u8) -> Option<Refusal> {
    let mut octets = [0u8; 40];
    octets[0] = first;
    octets[1] = second;
    octets[15] = words;
    octets[39] = last;
    match parse(&octets) {
        Err(refusal) => Some(refusal),
        Ok(_) => None,
    }
}

#[test]
fn what_is_no_packet(rt: HostRuntime) {
    assert_row(&rt, 0, matches!(parse(&[0x80; 11]), Err(Refusal::Short)));
    assert_row(
        &rt,
        1,
        matches!(refused(0x40, 3, 0, 0), Some(Refusal::Version)),
    );
    assert_row(
        &rt,
        2,
        matches!(refused(0xC0, 3, 0, 0), Some(Refusal::Version)),
    );
    assert_row(
        &rt,
        3,
        matches!(refused(0x80, 200, 0, 0), Some(Refusal::Control)),
    );
    assert_row(
        &rt,
        4,
        matches!(refused(0x80, 0xDF, 0, 0), Some(Refusal::Control)),
    );
    assert_row(&rt, 5, matches!(refused(0x80, 0xE0, 0, 0), None));
    assert_row(&rt, 6, matches!(refused(0x8F, 3, 0, 0), Some(Refusal::Cut)));
    assert_row(
        &rt,
        7,
        matches!(refused(0x90, 3, 7, 0), Some(Refusal::Overlap)),
    );
    assert_row(&rt, 8, matches!(refused(0x90, 3, 6, 0), None));
    assert_row(
        &rt,
        9,
        matches!(refused(0xA0, 3, 0, 0), Some(Refusal::Padding)),
    );
    assert_row(
        &rt,
        10,
        matches!(refused(0xA0, 3, 0, 29), Some(Refusal::Overlap)),
    );
}

// Counts packets: each by its number, its time stamp and the tick at which it came. The result: how many were counted,
// how many are missing, and sixteen times the jitter.
fn counted(packets: &[(u16, u32, u32)]) -> (u32, u32, u32) {
    let first = match packets.first() {
        None => 0,
        Some(packet) => packet.0,
    };
    let mut reception = Reception::home(5, first);
    for n in 0..packets.len() {
        let (number, timestamp, tick) = packets[n];
        let arrival = tick.wrapping_mul(160);
        reception.count(number, Some(arrival.wrapping_sub(timestamp)));
    }
    (reception.received, reception.missing(), reception.jitter)
}

// What the gateway in Python counts: over the greatest number, one doubled and one swapped; a sender that begins anew,
// and a packet that doesn't belong; a stop of a second, which is no jitter; the greatest gaps ahead and behind, and one
// more.
#[test]
fn what_came_of_a_source(rt: HostRuntime) {
    let swapped = [
        (65534, 0, 0),
        (65535, 160, 1),
        (0, 320, 2),
        (1, 480, 4),
        (3, 800, 5),
        (2, 640, 6),
        (3, 800, 7),
        (5, 1120, 8),
    ];
    assert_row(&rt, 0, counted(&swapped) == (8, 0, 697));
    let anew = [
        (10, 0, 0),
        (11, 160, 1),
        (30000, 320, 2),
        (12, 320, 3),
        (40000, 99, 4),
        (40001, 259, 5),
        (40002, 419, 6),
    ];
    assert_row(&rt, 1, counted(&anew) == (5, 0, 498));
    let stop = [
        (7, 4294967136, 0),
        (8, 0, 1),
        (9, 160, 2),
        (10, 320, 60),
        (11, 480, 5),
    ];
    assert_row(&rt, 2, counted(&stop) == (5, 0, 0));
    let gaps = [
        ((3007, 480000, 3000), (2, 2999, 0)),
        ((3008, 480160, 3001), (1, 0, 0)),
        ((62543, 0, 3), (2, u32::MAX, 480)),
        ((62542, 0, 3), (1, 0, 0)),
    ];
    for n in 0..gaps.len() {
        let (second, wanted) = gaps[n];
        assert_row(&rt, 3 + n, counted(&[(7, 0, 0), second]) == wanted);
    }
}
