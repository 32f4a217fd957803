//! The synthesis lattice (GSM 06.10, section 4.3.4), with the eight sections of a sample in the lanes of a vector.
//!
//! Lane 0 is the last section, which a sample passes first. The rounded products with the sections' values don't wait
//! for one another, but the word after each section needs the one before it. These words are guessed as sums that wrap,
//! which takes three steps, and then checked. The guess is right unless a difference is clamped, which is rare.

ghost use Rattle.std.specs.Prelude.{◌≡◌, ℤ, pos, reverse, length};
ghost use Rattle.trau_num.specs.Num.{add_of, mult_r_of};
ghost use Rattle.trau_lanes.specs.Lanes.{EightWords, EightFactors};
ghost use Rattle.fr_short.specs.Reflection.{coefficients_at};
ghost use Rattle.fr_short.specs.Synthesis.{synthesis_lattice, sections_after, filtered_samples};
ghost use Rattle.fr_short.specs.Deemphasis.{deemphasised, last_of};
ghost use Rattle.fr_short.specs.Stepped.{stepped_through};
ghost use Rattle.fr_short.specs.Lanes.{words_behind};

use crate::reflection::{part_start, parts};
use std::simd::prelude::*;
use trau_lanes::{minus_lanes, plus_lanes, scaled_lanes, shift_in};
use trau_num::{add, mult_r, sub};

// The words after each section, one after the other.
#[cold]
#[inline(never)]
fn in_turn(sample: i16, steps: i16x8) -> i16x8
    requires { EightWords steps }
    ensures { result ≡ words_behind sample steps }
{
    let steps = steps.to_array();
    let mut words = [0; 8];
    let mut s = sample;
    for i in 0..8 {
        s = sub(s, steps[i]);
        words[i] = s;
    }
    i16x8::from_array(words)
}

// The sample less the steps up to each lane. These are the words after each section if no difference is clamped.
fn guess(sample: i16, steps: i16x8) -> i16x8
    requires { length steps ≡ 8 }
    ensures { EightWords result }
{
    let zero = i16x8::splat(0);
    let one = i16x8::from_array([sample, 0, 0, 0, 0, 0, 0, 0]) - steps;
    let two = one + zero.shuffle(one, [0, 8, 9, 10, 11, 12, 13, 14]);
    let four = two + zero.shuffle(two, [0, 0, 8, 9, 10, 11, 12, 13]);
    four + zero.shuffle(four, [0, 0, 0, 0, 8, 9, 10, 11])
}

// The words after each section; `steps` has what each section subtracts.
fn behind(sample: i16, steps: i16x8) -> i16x8
    requires { EightWords steps }
    ensures value { result ≡ words_behind sample steps }
    ensures words { EightWords result }
{
    let guess = guess(sample, steps);
    if minus_lanes(shift_in(sample, guess), steps)
        .simd_ne(guess)
        .any()
    {
        in_turn(sample, steps)
    } else {
        guess
    }
}

// Passes one sample through the eight sections, the last one first.
fn pass(rs: i16x8, vs: &mut i16x8, sample: i16) -> i16
    requires factors { EightFactors rs }
    requires words { EightWords vs.old }
    ensures value { result ≡ (synthesis_lattice (reverse rs) (reverse vs.old) sample).0 }
    ensures sections { reverse vs.new ≡ sections_after (synthesis_lattice (reverse rs) (reverse vs.old) sample) }
    ensures words { EightWords vs.new }
{
    let words = behind(sample, scaled_lanes(rs, *vs));
    let stored = plus_lanes(*vs, scaled_lanes(rs, words));
    *vs = stored.shuffle(words, [1, 2, 3, 4, 5, 6, 7, 15]);
    words.to_array()[7]
}

// The words in reverse order: the last one in lane 0.
fn backwards(words: &[i16; 8]) -> i16x8
    ensures value { result ≡ reverse words.now }
    ensures words { EightWords result }
{
    i16x8::from_array([
        words[7], words[6], words[5], words[4], words[3], words[2], words[1], words[0],
    ])
}

// A further step for each filtered sample; `before` is its result for the sample before.
trait Step {
    ghost next: { ℤ → ℤ → ℤ };

    fn next(sample: i16, before: i16) -> i16
        ensures { result ≡ next sample before };
}

// No further step.
struct Plain;

impl Step for Plain {
    ghost next = { λ sample before. sample };

    fn next(sample: i16, _before: i16) -> i16 {
        sample
    }
}

// De-emphasis.
struct Deemphasis;

impl Step for Deemphasis {
    ghost next = { λ sample before. add_of sample (mult_r_of (pos 28180) before) };

    fn next(sample: i16, before: i16) -> i16 {
        add(sample, mult_r(28180, before))
    }
}

// Filters the residual `d` of a frame, with coefficients from the previous frame's ratios and this frame's, and with a
// further step for each sample. `before` is the step's last result in the previous frame. Returns its last result in
// this frame.
//
// Both are in one loop: each waits for its result for the sample before, so one is computed while the other waits.
fn filter_by<S: Step>(
    old: &[i16; 8],
    new: &[i16; 8],
    sections: &mut [i16; 8],
    d: &[i16; 160],
    before: i16,
    made: &mut [i16; 160],
) -> i16
    ensures samples { made.new ≡ stepped_through S.next before (filtered_samples (coefficients_at old.now new.now) 0 sections.old d.now).0 }
    ensures last { result ≡ last_of before (stepped_through S.next before (filtered_samples (coefficients_at old.now new.now) 0 sections.old d.now).0) }
    ensures sections { sections.new ≡ (filtered_samples (coefficients_at old.now new.now) 0 sections.old d.now).1 }
{
    let parts = parts(old, new);
    let mut vs = backwards(sections);
    let mut last = before;
    for part in 0..4 {
        let rs = backwards(&parts[part]);
        for k in part_start(part)..part_start(part + 1) {
            last = S::next(pass(rs, &mut vs, d[k]), last);
            made[k] = last;
        }
    }
    *sections = vs.reverse().to_array();
    last
}

/// Filters the residual `d` of a frame, with coefficients from the previous frame's ratios and this frame's.
pub(crate) fn filter(
    old: &[i16; 8],
    new: &[i16; 8],
    sections: &mut [i16; 8],
    d: &[i16; 160],
    s: &mut [i16; 160],
)
    ensures samples { s.new ≡ (filtered_samples (coefficients_at old.now new.now) 0 sections.old d.now).0 }
    ensures sections { sections.new ≡ (filtered_samples (coefficients_at old.now new.now) 0 sections.old d.now).1 }
{
    filter_by::<Plain>(old, new, sections, d, 0, s);
}

/// The same with de-emphasis, into `msr`. `before` is the last de-emphasised sample of the previous frame. Returns the
/// last one of this frame.
pub(crate) fn filter_deemphasised(
    old: &[i16; 8],
    new: &[i16; 8],
    sections: &mut [i16; 8],
    d: &[i16; 160],
    before: i16,
    msr: &mut [i16; 160],
) -> i16
    ensures samples { msr.new ≡ deemphasised before (filtered_samples (coefficients_at old.now new.now) 0 sections.old d.now).0 }
    ensures last { result ≡ last_of before (deemphasised before (filtered_samples (coefficients_at old.now new.now) 0 sections.old d.now).0) }
    ensures sections { sections.new ≡ (filtered_samples (coefficients_at old.now new.now) 0 sections.old d.now).1 }
{
    filter_by::<Deemphasis>(old, new, sections, d, before, msr)
}
