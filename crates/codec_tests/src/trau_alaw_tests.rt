//! A-law and mu-law: the ends of their ranges, and octets that are expanded and compressed again.

use crate::rows::assert_row;
use trau_alaw::{Law, compress, compress_law, expand, expand_law, idle_octet, recompress_law};

#[test]
fn alaw_at_its_ends(rt: HostRuntime) {
    let samples = [expand(0xD5), expand(0x55), expand(0xAA), expand(0x2A)];
    assert_row(&rt, 1, samples == [8, -8, 32256, -32256]);
    let octets = [
        compress(0),
        compress(-1),
        compress(16),
        compress(32767),
        compress(-32768),
    ];
    assert_row(&rt, 2, octets == [0xD5, 0x55, 0xD4, 0xAA, 0x2A]);
}

// The octet of a sample, by the greatest segment that begins at its magnitude or below (G.711, table 1a).
fn plain_octet(x: i16) -> u8 {
    let sign = if x < 0 { 0u8 } else { 128 };
    let magnitude = if x < 0 { !x } else { x }.cast_unsigned();
    let mut code = (magnitude / 16 % 16) as u8;
    for segment in 1..8u8 {
        if magnitude >> (segment + 7) > 0 {
            code = 16 * segment + ((magnitude >> (segment + 3)) % 16) as u8;
        }
    }
    (sign | code) ^ 0x55
}

// The first sample that `compress` and `plain_octet` compress to different octets.
fn first_apart() -> Option<i16> {
    for x in i16::MIN..=i16::MAX {
        if compress(x) != plain_octet(x) {
            return Some(x);
        }
    }
    None
}

#[test]
fn compresses_all_samples_plainly(rt: HostRuntime) {
    let apart = first_apart();
    let row = apart.unwrap_or(0).cast_unsigned();
    assert_row(&rt, usize::from(row), apart.is_none());
}

fn mulaw(octet: u8) -> i16 {
    expand_law(Law::Mu, octet)
}

fn to_mulaw(x: i16) -> u8 {
    compress_law(Law::Mu, x)
}

// 0x7F, the negative zero, is the only octet that doesn't come back.
#[test]
fn mulaw_at_its_ends(rt: HostRuntime) {
    let samples = [mulaw(0xFF), mulaw(0x7F), mulaw(0xFE), mulaw(0x80), mulaw(0)];
    assert_row(&rt, 1, samples == [0, 0, 8, 32124, -32124]);
    let octets = [
        to_mulaw(0),
        to_mulaw(3),
        to_mulaw(4),
        to_mulaw(-1),
        to_mulaw(-5),
        to_mulaw(32767),
        to_mulaw(-32768),
        recompress_law(Law::Mu, 0x7F),
    ];
    assert_row(
        &rt,
        2,
        octets == [0xFF, 0xFF, 0xFE, 0x7F, 0x7E, 0x80, 0x00, 0xFF],
    );
    let idle = [idle_octet(Law::A), idle_octet(Law::Mu)];
    assert_row(&rt, 3, idle == [0xD5, 0xFF]);
}
