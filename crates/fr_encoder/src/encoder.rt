//! The encoder of one call.

ghost use Rattle.std.specs.Prelude.{◌≡◌, ℤ, List, [], ◌∷◌};
ghost use Rattle.fr_encoder.specs.Encoded.{encoded_of, encoding_of};
ghost use Rattle.fr_encoder.specs.Memory.{home_memory};
ghost use Rattle.fr_encoder.specs.Step.{encoded_frame};
ghost use Rattle.fr_encoder.specs.Stands.{Stands};

use crate::blocks::code_blocks;
use fr_long::LtpHistory;
use fr_lpc::{analyse, peak};
use fr_pre::PreState;
use fr_short::ShortState;
use std::marker::Model;
use trau_params::{Params, Trace};

/// The state of the encoder of one call.
#[derive(Drop)]
#[repr(C)]
pub struct Encoder {
    preprocessing: PreState,
    short_term: ShortState,
    long_term: LtpHistory,
}

impl Model for Encoder {
    ghost use Rattle.fr_pre.specs.Memory.{memory_of, state_of, same_state};
    ghost use Rattle.fr_encoder.specs.Memory.{EncoderMemory};

    ghost Value = { EncoderMemory };

    ghost view = { λ e. record { preprocessing = memory_of e.preprocessing; short_term = e.short_term; long_term = e.long_term } };

    ghost inverse = { λ m. record { preprocessing = state_of m.preprocessing; short_term = m.short_term; long_term = m.long_term } };

    ghost inverse_ok = { λ e h i. record { preprocessing = same_state e.preprocessing i; short_term = e.short_term; long_term = e.long_term } };
}

impl Encoder {
    /// The encoder before the first frame: every state is 0.
    #[tactic(auto, unfolding(crate::specs::Encoded::sample_frames, crate::specs::Encoded::reconstructed))]
    pub fn home() -> Encoder
        ensures value { result ≡ home_memory }
        ensures history { Stands [] result }
    {
        Encoder {
            preprocessing: PreState::home(),
            short_term: ShortState::home(),
            long_term: LtpHistory::home(),
        }
    }

    /// Encodes a frame of 160 samples `x`, 13 bits left-justified in 16. The three lowest bits of each sample are
    /// ignored. Returns the parameters, the log area ratios and the four block maxima before coding, and the peak: the
    /// greatest magnitude of the preprocessed samples.
    pub fn encode(&mut self, x: &[i16; 160]) -> (Params, Trace, i16)
        ensures step { encoded_frame self.old x.now ≡ (encoded_of result.0 result.1 result.2, self.new) }

        // After the frames of any past, this one's encoding is that of the encoded list.
        ensures history { (past : List (List ℤ)) → Stands past self.old →
            Stands (x.now ∷ past) self.new × (encoded_of result.0 result.1 result.2 ≡ encoding_of x.now past) }
    {
        let mut s = [0; 160];
        self.preprocessing.preprocess(x, &mut s);
        let peak = peak(&s);
        let lpc = analyse(&mut s);
        self.short_term.analyse_frame(&lpc.larc, &mut s);
        let (params, xmax) = code_blocks(&mut self.long_term, lpc.larc, &s);
        let lar = lpc.lar;
        (params, Trace { lar, xmax }, peak)
    }
}
