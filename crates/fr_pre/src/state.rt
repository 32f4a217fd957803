//! The state of preprocessing between frames.

ghost use Rattle.std.specs.Prelude.{◌≤◌, ◌^◌, pos, ◌-ℤ◌, ◌*ℤ◌, unsigned_abs};

use crate::compensation::{offset_in, sum};
use crate::passes::{compensate, downscale, follow, preemphasise};

/// The state of preprocessing in one call: the last downscaled sample, the sum of the offset compensation, and the last
/// sample before preemphasis. After any samples from the home state both bounds hold, and under them no sum of two long
/// words is clamped.
#[derive(Clone, Copy, PartialEq, Eq)]
#[repr(C)]
pub struct PreState {
    /// z1, the last downscaled sample (so).
    pub z1: i16,
    /// L_z2, the sum of the offset compensation: 2^15 times z1, plus an offset.
    pub l_z2: i32,
    /// mp, the last sample before preemphasis (sof).
    pub mp: i16,
    pub ghost z1_bound: { unsigned_abs z1 ≤ 2 ^ 14 },
    pub ghost offset_bound: { unsigned_abs (l_z2 -ℤ z1 *ℤ pos 32768) ≤ 2 ^ 29 },
}

impl PreState {
    ghost use Rattle.std.specs.Prelude.{◌≡◌, ℤ, List, [], ◌∷◌};
    ghost use Rattle.fr_pre.specs.Memory.{PreMemory, home_memory, memory_of};
    ghost use Rattle.fr_pre.specs.Step.{preprocessed_frame};
    ghost use Rattle.fr_pre.specs.Stands.{Stands};
    ghost use Rattle.fr_pre.specs.History.{newest_preprocessed};

    /// The state before the first frame: every number is 0.
    #[tactic(auto, unfolding(crate::specs::Step::preprocessed_frame, crate::specs::History::samples_of_frames))]
    pub fn home() -> PreState
        ensures value { memory_of result ≡ home_memory }
        ensures history { Stands [] (memory_of result) }
    {
        PreState {
            z1: 0,
            l_z2: 0,
            mp: 0,
        }
    }

    /// Preprocesses the samples `x` of a frame, 13 bits left-justified in 16, into `s`, which is overwritten. The three
    /// lowest bits of each sample are ignored.
    pub fn preprocess(&mut self, x: &[i16; 160], s: &mut [i16; 160])
        ensures step { preprocessed_frame (memory_of self.old) x.now ≡ (s.new, memory_of self.new) }

        // After the frames of any past, this one is the newest.
        ensures history { (past : List (List ℤ)) → Stands past (memory_of self.old) →
            Stands (x.now ∷ past) (memory_of self.new) × (s.new ≡ newest_preprocessed x.now past) }
    {
        let so = downscale(self.z1, x);
        let offsets = follow(offset_in(self.l_z2, self.z1), &so);
        let sof = compensate(self.mp, &so, &offsets);
        preemphasise(&sof, s);
        *self = PreState {
            z1: so[160],
            l_z2: sum(so[160], offsets[159]),
            mp: sof[160],
        };
    }
}
