//! A block of a slot, and its four channels.
ghost use Rattle.std.specs.Prelude.{◌≡◌, ◌+◌, ◌-◌, ◌*◌, ◌/◌, ◌%◌, ◌^◌, ◌<◌, ℕ, List, [], length, All, slice_index, slice_index_or};
ghost use Rattle.trau_bits.specs.Bits.{bits_of};
ghost use Rattle.trau_submux.specs.Channels.{channel, subchannel};
ghost use Rattle.trau_submux.specs.Pairs.{gathered};

use crate::lanes::{eight_groups, eight_of_each, put_eight, put_thirty_two};
use std::simd::prelude::*;

/// Cuts 160 octets of a slot into their four channels, 40 octets each. Undoes a merge: if the slot has the bits of some
/// octets for a channel, these octets are the channel.
pub fn split4(slot: &[u8; 160], subs: &mut [[u8; 40]; 4])
    ensures channels { (j : ℕ) → j < 4 → slice_index_or subs.new j [] ≡ channel j slot.now }
    ensures bits { (j : ℕ) → j < 4 → bits_of (slice_index_or subs.new j []) ≡ subchannel j slot.now }
    ensures merged { (j : ℕ) (octets : List ℕ) → j < 4 → All (λ x. x < 256) octets → subchannel j slot.now ≡ bits_of octets →
        slice_index_or subs.new j [] ≡ octets }
{
    let mut first = [0; 40];
    let mut second = [0; 40];
    let mut third = [0; 40];
    let mut fourth = [0; 40];
    for part in 0..5 {
        let at = 8 * part;
        let (first_third, second_fourth) = eight_of_each(slot, 4 * at);
        put_eight(&mut first, at, first_third.extract::<0, 8>());
        put_eight(&mut second, at, second_fourth.extract::<0, 8>());
        put_eight(&mut third, at, first_third.extract::<8, 8>());
        put_eight(&mut fourth, at, second_fourth.extract::<8, 8>());
    }
    *subs = [first, second, third, fourth];
}

// Puts four channels together.
fn merge_channels(
    first: &[u8; 40],
    second: &[u8; 40],
    third: &[u8; 40],
    fourth: &[u8; 40],
    slot: &mut [u8; 160],
)
    ensures octets { (i : ℕ) → i < 160 → slice_index slot.new i ≡
        gathered (i % 4) (slice_index first.now (i / 4)) (slice_index second.now (i / 4)) (slice_index third.now (i / 4)) (slice_index fourth.now (i / 4)) }
    ensures lengths { (length first.now ≡ 40) × (length second.now ≡ 40) × (length third.now ≡ 40) × (length fourth.now ≡ 40) }
{
    for part in 0..5 {
        let at = 8 * part;
        let octets = eight_groups(first, second, third, fourth, at);
        put_thirty_two(slot, 4 * at, octets);
    }
}

/// Puts four channels of 40 octets each together to 160 octets of a slot. Undoes a split: if they are the channels of a
/// slot, the result is that slot.
pub fn merge4(subs: &[[u8; 40]; 4], slot: &mut [u8; 160])
    ensures channels { (j : ℕ) → j < 4 → subchannel j slot.new ≡ bits_of (slice_index_or subs.now j []) }
    ensures octets { All (λ x. x < 256) slot.new }
    ensures split { (octets : List ℕ) → length octets ≡ 160 → All (λ x. x < 256) octets →
        ((j : ℕ) → j < 4 → slice_index_or subs.now j [] ≡ channel j octets) → slot.new ≡ octets }
{
    let [first, second, third, fourth] = subs;
    merge_channels(first, second, third, fourth, slot);
}
