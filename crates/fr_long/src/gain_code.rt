//! The choice of the coded gain of a block (GSM 06.10, section 4.2.11).

ghost use Rattle.std.specs.Prelude.{◌≡◌, ℕ, ◌*◌, ◌^◌, ◌<◌, ◌≤◌, pos, ◌≤ℤ◌, unsigned_abs, IsTrue, ◌↔◌, ◌-◌};
ghost use Rattle.trau_num.specs.Num.{floor_shr};
ghost use Rattle.fr_long.specs.GainCode.{is_within, gain_code_of_words, high_word_of, gain_code_of};

use trau_num::{mult, norm};

// DLB of table 4.3a.
const DECISION_LEVELS: [i16; 3] = [6554, 16384, 26214];

/// The greatest correlation of a block that was shifted down by `scal`, brought to the scale of the residuals' energy.
pub(crate) fn unscaled(correlation: i32, scal: u8) -> i32
    requires { scal ≤ 6 }
    ensures { result ≡ floor_shr correlation (6 - scal) }
{
    correlation >> (6 - scal)
}

/// The coded gain, 2 bits, from the greatest correlation and the energy of the residuals at its lag.
#[tactic(auto, unfolding(crate::specs::GainCode::gain_code_of))]
pub(crate) fn gain_code(l_max: i32, l_power: i32) -> u8
    ensures value { result ≡ gain_code_of l_max l_power }
    ensures fits { result ≤ 3 }
{
    if l_max <= 0 {
        return 0;
    }
    if l_power <= l_max {
        return 3;
    }
    let shifts = norm(l_power);
    code_by_words(high_word(l_max, shifts), high_word(l_power, shifts))
}

#[tactic(auto, unfolding(crate::specs::GainCode::gain_code_of_words))]
fn code_by_words(r: i16, s: i16) -> u8
    ensures value { result ≡ gain_code_of_words r s }
    ensures fits { result ≤ 3 }
{
    if is_within_level(r, s, 0) {
        0
    } else if is_within_level(r, s, 1) {
        1
    } else if is_within_level(r, s, 2) {
        2
    } else {
        3
    }
}

// Whether R is within the decision level of a code, relative to S.
fn is_within_level(r: i16, s: i16, bc: u8) -> bool
    requires { bc < 3 }
    ensures { result ≡ is_within r s bc }
{
    r <= mult(s, DECISION_LEVELS[bc as usize])
}

// The upper 16 bits of a long word shifted up, which must stay below 2^31.
#[tactic(auto, unfolding(crate::specs::GainCode::high_word_of))]
fn high_word(v: i32, shifts: u8) -> i16
    requires not_negative { pos 0 ≤ℤ v }
    requires shifts { shifts ≤ 30 }
    requires room { unsigned_abs v * 2 ^ shifts < 2 ^ 31 }
    ensures { result ≡ high_word_of v shifts }
{
    let shifted = v.unsigned_abs() << shifts;
    (shifted >> 16) as i16
}
