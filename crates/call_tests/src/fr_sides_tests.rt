//! Both sides of a call by frames of 33 octets, and these in TRAU frames.

use crate::rows::{assert_row, assert_rows};
use fr_sides::{
    IDLE, LOST, Receiver, SID, SPEECH, hand_octets, kind_of_octets, read_downlink, read_uplink,
    receive_octets, write_downlink, write_uplink,
};

// A frame of recorded speech: the 21st of `tools/tests/data/speech.gsm`.
static FRAME: [u8; 33] = [
    0xd6, 0x27, 0xab, 0x1a, 0xa7, 0x80, 0xc6, 0x37, 0x22, 0xb1, 0x7f, 0x13, 0xc3, 0xad, 0x39, 0x12,
    0x9a, 0x37, 0xd2, 0x5c, 0x09, 0x94, 0x0c, 0xa6, 0x48, 0xa4, 0x8b, 0x6d, 0x37, 0x94, 0xbd, 0x23,
    0x0d,
];

// Its uplink frame as good speech, as `lines.py uplink` writes it.
static UP: [u8; 40] = [
    0x00, 0x00, 0x88, 0x00, 0x8d, 0xcd, 0xa6, 0x65, 0x9e, 0x06, 0xa6, 0x6c, 0xa5, 0x52, 0xdf, 0x95,
    0xd0, 0xf9, 0xb6, 0x25, 0x91, 0x67, 0xb7, 0x49, 0xe8, 0x32, 0xc4, 0x21, 0xd8, 0x49, 0xa2, 0x68,
    0xdd, 0x6d, 0xcd, 0x1b, 0xe9, 0x43, 0x96, 0xff,
];

// The frame of silence, packed by hand.
static SILENCE: [u8; 33] = [
    0xda, 0xa7, 0xaa, 0xa5, 0x1a, 0x50, 0x20, 0x38, 0xe4, 0x6d, 0xb9, 0x1b, 0x50, 0x20, 0x38, 0xe4,
    0x6d, 0xb9, 0x1b, 0x50, 0x20, 0x38, 0xe4, 0x6d, 0xb9, 0x1b, 0x50, 0x20, 0x38, 0xe4, 0x6d, 0xb9,
    0x1b,
];

// Whether an uplink frame is read like this; its data bits are those of the frame.
fn reads(octets: &[u8; 40], kind: u32, taf: bool) -> bool {
    match read_uplink(octets) {
        Some(up) => up.kind == kind && up.taf == taf && up.frame == FRAME,
        None => false,
    }
}

#[test]
fn an_uplink_frame(rt: HostRuntime) {
    assert_row(&rt, 1, write_uplink(&FRAME, SPEECH, false) == UP);
    assert_row(&rt, 2, reads(&UP, SPEECH, false));
    // C12 to C14 are 0 10 in a descriptor, and 1 00 in an unusable frame; C15 is TAF.
    let mut sid = UP;
    sid[3] = 0x05;
    assert_row(&rt, 3, write_uplink(&FRAME, SID, true) == sid);
    assert_row(&rt, 4, reads(&sid, SID, true));
    let mut bad = UP;
    bad[3] = 0x09;
    assert_row(&rt, 5, write_uplink(&FRAME, LOST, true) == bad);
    assert_row(&rt, 6, reads(&bad, LOST, true));
    // An invalid descriptor, whose TAF doesn't count, and another pattern of C1 to C5.
    bad[3] = 0x0b;
    assert_row(&rt, 7, reads(&bad, LOST, false));
    bad[2] = 0xf8;
    assert_row(&rt, 8, reads(&bad, LOST, false));
    // No sync pattern.
    bad[0] = 0x01;
    assert_row(&rt, 9, read_uplink(&bad).is_none());
}

#[test]
fn a_downlink_frame(rt: HostRuntime) {
    // Speech: C1 to C5 are 11100, and the spare bits of the second row are ones.
    let mut down = UP;
    down[2] = 0xf0;
    down[3] = 0x0f;
    down[38] = 0x97;
    assert_row(&rt, 1, write_downlink(&FRAME, SPEECH) == down);
    // A descriptor: SP is 0.
    down[38] = 0x95;
    assert_row(&rt, 2, write_downlink(&FRAME, SID) == down);
    match read_downlink(&down) {
        Some(read) => assert_row(&rt, 3, read.kind == SID && read.frame == FRAME),
        None => assert_row(&rt, 4, false),
    }
    let idle = write_downlink(&FRAME, IDLE);
    assert_row(
        &rt,
        5,
        idle[2] == 0xb8 && idle[3] == 0x0f && idle[4] == 0xff,
    );
    match read_downlink(&idle) {
        Some(read) => assert_row(&rt, 6, read.kind == IDLE),
        None => assert_row(&rt, 7, false),
    }
}

#[test]
fn a_quiet_call(rt: HostRuntime) {
    let mut receiver = Receiver::home(7);
    let mut samples = [1; 160];
    let mut handed = [0; 33];
    let heard = receive_octets(&mut receiver, &FRAME, LOST, false, &mut samples);
    assert_row(&rt, 1, !heard && samples == [0; 160]);
    let heard = hand_octets(&mut receiver, &FRAME, LOST, false, &mut handed);
    assert_row(&rt, 2, !heard && handed == SILENCE);
    // Speech ends it, and an idle frame begins it.
    let heard = hand_octets(&mut receiver, &FRAME, SPEECH, false, &mut handed);
    assert_row(&rt, 3, heard && handed == FRAME);
    let heard = hand_octets(&mut receiver, &FRAME, IDLE, false, &mut handed);
    assert_row(&rt, 4, !heard && handed == SILENCE);
}

#[test]
fn kinds_by_the_code_word(rt: HostRuntime) {
    assert_row(&rt, 1, kind_of_octets(&FRAME) == SPEECH);
    // All pulses 0, and then two of them 4.
    let mut frame = [0; 33];
    frame[0] = 0xd0;
    assert_row(&rt, 2, kind_of_octets(&frame) == SID);
    frame[7] = 0x40;
    frame[8] = 0x80;
    assert_row(&rt, 3, kind_of_octets(&frame) == LOST);
    frame[0] = 0;
    assert_row(&rt, 4, kind_of_octets(&frame) == LOST);
}

// The code word's bits among the 264 bits of 33 octets, counted from 0: of the pulses that begin at bits 57, 113, 169
// and 225 those that class I of GSM 05.03 has, which are the two highest of each, but the highest alone of the last
// nine.
static CODE_WORD: [usize; 95] = [
    57, 58, 60, 61, 63, 64, 66, 67, 69, 70, 72, 73, 75, 76, 78, 79, 81, 82, 84, 85, 87, 88, 90, 91,
    93, 94, 113, 114, 116, 117, 119, 120, 122, 123, 125, 126, 128, 129, 131, 132, 134, 135, 137,
    138, 140, 141, 143, 144, 146, 147, 149, 150, 169, 170, 172, 173, 175, 176, 178, 179, 181, 182,
    184, 185, 187, 188, 190, 191, 193, 194, 196, 197, 199, 200, 202, 203, 205, 206, 225, 226, 228,
    229, 231, 232, 234, 235, 237, 240, 243, 246, 249, 252, 255, 258, 261,
];

// The octets with this bit changed.
fn changed(octets: &[u8; 33], place: usize) -> [u8; 33] {
    let mut changed = *octets;
    if let Some(octet) = changed.get_mut(place / 8) {
        *octet ^= 128 >> (place % 8);
    }
    changed
}

// The octets with these bits changed.
fn all_changed(octets: &[u8; 33], places: &[usize]) -> [u8; 33] {
    let mut all = *octets;
    for place in places {
        all = changed(&all, *place);
    }
    all
}

// How many of these bits, each changed alone, make a frame of this kind, before the first that doesn't.
fn are_of_kind(octets: &[u8; 33], places: &[usize], kind: u32) -> usize {
    let mut count = 0usize;
    for place in places {
        if kind_of_octets(&changed(octets, *place)) != kind {
            return count;
        }
        count = count.saturating_add(1);
    }
    count
}

// The other bits are all ones, or all zeros but for 1101.
#[test]
fn bits_of_the_code_word(rt: HostRuntime) {
    let mut ones = [0xff; 33];
    ones[0] = 0xdf;
    let others = all_changed(&ones, &CODE_WORD);
    let mut zeros = [0; 33];
    zeros[0] = 0xd0;
    assert_row(&rt, 96, kind_of_octets(&others) == SID);
    assert_rows(&rt, are_of_kind(&others, &CODE_WORD, SID), 95);
    assert_rows(&rt, are_of_kind(&zeros, &CODE_WORD, SID), 95);
}

#[test]
fn limits_of_wrong_bits(rt: HostRuntime) {
    let mut zeros = [0; 33];
    zeros[0] = 0xd0;
    let one = changed(&zeros, CODE_WORD[0]);
    assert_rows(&rt, are_of_kind(&one, &CODE_WORD[1..], LOST), 94);
    let fourteen = all_changed(&zeros, &CODE_WORD[..14]);
    assert_rows(&rt, are_of_kind(&fourteen, &CODE_WORD[14..], LOST), 81);
    let fifteen = all_changed(&zeros, &CODE_WORD[..15]);
    assert_rows(&rt, are_of_kind(&fifteen, &CODE_WORD[15..], SPEECH), 80);
}
