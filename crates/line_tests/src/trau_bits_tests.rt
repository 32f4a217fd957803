//! Bits of octets, by values that were computed by hand.

use crate::rows::assert_row;
use trau_bits::{get_bit, pack, put_bit, unpack};

// 0x88 is 1000 1000 and 0x06 is 0000 0110, the most significant bit first.
static BITS: [u8; 16] = [1, 0, 0, 0, 1, 0, 0, 0, 0, 0, 0, 0, 0, 1, 1, 0];

#[test]
fn most_significant_bit_first(rt: HostRuntime) {
    let mut bits = [0; 16];
    unpack(&[0x88, 0x06], &mut bits);
    assert_row(&rt, 1, bits == BITS);
    let mut bytes = [0xFF; 2];
    pack(&bits, &mut bytes);
    assert_row(&rt, 2, bytes == [0x88, 0x06]);
    assert_row(&rt, 3, get_bit(&bytes, 13) == 1);
}

#[test]
fn bits_are_put(rt: HostRuntime) {
    let mut bytes = [0x88, 0x06];
    put_bit(&mut bytes, 13, 0);
    put_bit(&mut bytes, 0, 0);
    put_bit(&mut bytes, 15, 1);
    assert_row(&rt, 1, bytes == [0x08, 0x03]);
}
