//! Frames made by hand from the tables: what is read from them, and what is written.

use crate::rows::{assert_row, assert_rows};
use trau_bits::{pack, unpack};
use trau_frame::{Class, DownFrame, Kind, UpFrame, read_up, sync_matches, write_down, write_up};

// Frames made by hand from the tables of GSM 08.60 and of this project's profile: an uplink frame of good
// speech whose parameters are those of silence (the codes 32, 32, 20, 11, 8, 5, 3, 2 and in each block the lag 40
// and thirteen pulses 4), the downlink frame with the same data bits, and the idle downlink frame.
static UP: [u8; 40] = [
    0x00, 0x00, 0x88, 0x00, 0x82, 0x09, 0xBA, 0x1A, 0xE4, 0x28, 0x80, 0x12, 0xA4, 0x92, 0xA4, 0x92,
    0xA2, 0x80, 0x81, 0x24, 0xC9, 0x24, 0xC9, 0x24, 0xA8, 0x00, 0x92, 0x49, 0x92, 0x49, 0x92, 0x45,
    0x80, 0x02, 0xA4, 0x92, 0xA4, 0x92, 0xA6, 0xFF,
];

static DOWN: [u8; 40] = [
    0x00, 0x00, 0xF0, 0x0F, 0x82, 0x09, 0xBA, 0x1A, 0xE4, 0x28, 0x80, 0x12, 0xA4, 0x92, 0xA4, 0x92,
    0xA2, 0x80, 0x81, 0x24, 0xC9, 0x24, 0xC9, 0x24, 0xA8, 0x00, 0x92, 0x49, 0x92, 0x49, 0x92, 0x45,
    0x80, 0x02, 0xA4, 0x92, 0xA4, 0x92, 0xA7, 0xFF,
];

// The frame in the octets, if they carry the sync pattern.
fn read(octets: &[u8; 40]) -> Option<UpFrame> {
    let mut bits = [0; 320];
    unpack(octets, &mut bits);
    if sync_matches(&bits) {
        Some(read_up(&bits))
    } else {
        None
    }
}

// The uplink frame with other octets at places 2, 3 and 38, which hold C1 to C17.
fn with_control(first: u8, second: u8, last: u8) -> Option<UpFrame> {
    let mut octets = UP;
    octets[2] = first;
    octets[3] = second;
    octets[38] = last;
    read(&octets)
}

// The octets of an uplink frame.
fn up_octets(frame: &UpFrame) -> [u8; 40] {
    let mut bits = [0; 320];
    let mut octets = [0; 40];
    write_up(frame, &mut bits);
    pack(&bits, &mut octets);
    octets
}

// The octets of the downlink frame with its data bits.
fn down_octets(frame: &UpFrame, sp: bool) -> [u8; 40] {
    let mut bits = [0; 320];
    let mut octets = [0; 40];
    write_down(&DownFrame::Speech { d: frame.d, sp }, &mut bits);
    pack(&bits, &mut octets);
    octets
}

// Whether a frame is one of good speech, without flags and without a time alignment.
fn is_good(frame: &UpFrame) -> bool {
    frame.kind == Kind::Speech
        && frame.class == Class::Good
        && !frame.taf
        && !frame.dtxd
        && frame.align == 0
}

#[test]
fn good_speech_is_read_and_relayed(rt: HostRuntime) {
    let frame = read(&UP).expect(&rt, "it is in sync");
    assert_row(&rt, 1, is_good(&frame));
    assert_row(&rt, 2, up_octets(&frame) == UP);
    assert_row(&rt, 3, down_octets(&frame, true) == DOWN);
    // SP is the second bit from the end of octet 38.
    assert_row(&rt, 4, down_octets(&frame, false)[38] == 0xA5);
}

#[test]
fn an_idle_frame_is_written(rt: HostRuntime) {
    let mut bits = [0; 320];
    let mut octets = [0; 40];
    write_down(&DownFrame::Idle, &mut bits);
    pack(&bits, &mut octets);
    let mut want = [0xFF; 40];
    want[0] = 0x00;
    want[1] = 0x00;
    want[2] = 0xB8;
    want[3] = 0x0F;
    assert_row(&rt, 1, octets == want);
}

// Whether a speech frame with this octet at place 3 is of this class.
fn is_of_class(octet: u8, class: Class) -> bool {
    match with_control(0x88, octet, 0xA6) {
        Some(frame) => frame.class == class,
        None => false,
    }
}

// The four lowest bits of octet 3 are the bad frame indicator, the two silence descriptor bits, and TAF.
static CLASSES: [(u8, Class); 8] = [
    (0x00, Class::Good),
    (0x04, Class::Sid),
    (0x02, Class::InvalidSid),
    (0x0A, Class::InvalidSid),
    (0x0C, Class::InvalidSid),
    (0x08, Class::Unusable),
    (0x06, Class::InvalidSid),
    (0x0E, Class::InvalidSid),
];

// How many rows hold before the first that doesn't.
fn classes_read() -> usize {
    let mut read = 0usize;
    for (octet, class) in &CLASSES {
        if !is_of_class(*octet, *class) {
            return read;
        }
        read = read.saturating_add(1);
    }
    read
}

#[test]
fn classes_are_read(rt: HostRuntime) {
    assert_rows(&rt, classes_read(), 8);
}

// Whether a frame with this octet at place 2 is unusable and of this kind.
fn is_of_kind(octet: u8, kind: Kind) -> bool {
    match with_control(octet, 0x00, 0xA6) {
        Some(frame) => frame.kind == kind && frame.class == Class::Unusable,
        None => false,
    }
}

// Whether the field 100101, which is 37, and both flags are read.
fn reads_alignment() -> bool {
    match with_control(0x8A, 0x51, 0xA7) {
        Some(frame) => frame.align == 37 && frame.taf && frame.dtxd,
        None => false,
    }
}

#[test]
fn control_bits_are_read(rt: HostRuntime) {
    assert_row(&rt, 1, reads_alignment());
    // The patterns 10000 and 11111.
    assert_row(&rt, 2, is_of_kind(0xC0, Kind::Idle));
    assert_row(&rt, 3, is_of_kind(0xFC, Kind::Other));
    // The last sync bit is missing.
    assert_row(&rt, 4, with_control(0x88, 0x00, 0x26).is_none());
}
