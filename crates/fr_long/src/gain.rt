//! The gain that a code stands for, on both sides (GSM 06.10, sections 4.2.12 and 4.3.2).

ghost use Rattle.std.specs.Prelude.{◌≡◌, ℕ, ◌≤◌, pos, ◌≤ℤ◌};
ghost use Rattle.fr_long.specs.Gain.{gain_of};

// QLB of table 4.3b.
const QUANTISED_GAINS: [i16; 4] = [3277, 11469, 21299, 32767];

/// The gain that a code of 2 bits stands for, a fraction of 15 bits.
pub(crate) fn quantised_gain(bc: u8) -> i16
    requires { bc ≤ 3 }
    ensures value { result ≡ gain_of bc }
    ensures not_negative { pos 0 ≤ℤ result }
{
    QUANTISED_GAINS[bc as usize]
}
