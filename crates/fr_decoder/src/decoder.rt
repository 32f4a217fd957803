//! The decoder of one call.

ghost use Rattle.std.specs.Prelude.{◌≡◌, List, [], ◌∷◌};
ghost use Rattle.trau_params.specs.Fields.{Fields, fields_of};
ghost use Rattle.fr_decoder.specs.Decoded.{samples_of};
ghost use Rattle.fr_decoder.specs.Memory.{DecoderMemory, home_memory};
ghost use Rattle.fr_decoder.specs.Step.{decoded_frame};
ghost use Rattle.fr_decoder.specs.Stands.{Stands};

use crate::residual::residual;
use crate::truncation::truncate;
use fr_long::LtpDecoder;
use fr_short::ShortState;
use std::marker::Model;
use trau_params::Params;

/// The state of the decoder of one call.
#[derive(Drop)]
#[repr(C)]
pub struct Decoder {
    long_term: LtpDecoder,
    short_term: ShortState,
    // The last de-emphasised sample.
    msr: i16,
}

impl Model for Decoder {
    ghost Value = { DecoderMemory };

    ghost view = { λ d. record { long_term = d.long_term; short_term = d.short_term; msr = d.msr } };

    ghost inverse = { λ m. record { long_term = m.long_term; short_term = m.short_term; msr = m.msr } };
}

impl Decoder {
    /// The decoder before the first frame: every state is 0, and the last lag is 40.
    #[tactic(auto, unfolding(crate::specs::Decoded::blocks_of, crate::specs::Decoded::residual_frames, crate::specs::Decoded::last_msr))]
    pub fn home() -> Decoder
        ensures value { result ≡ home_memory }
        ensures history { Stands [] result }
    {
        Decoder {
            long_term: LtpDecoder::home(),
            short_term: ShortState::home(),
            msr: 0,
        }
    }

    /// Decodes a frame into its 160 samples `x`, 13 bits left-justified in 16. `x` is overwritten.
    #[tactic(auto, unfolding(crate::specs::Step::decoded_frame, crate::specs::Decoded::blocks_of, crate::specs::Decoded::residual_frames, crate::specs::Decoded::last_msr, crate::specs::Decoded::samples_of))]
    pub fn decode(&mut self, p: &Params, x: &mut [i16; 160])
        ensures step { decoded_frame self.old (fields_of p.now) ≡ (x.new, self.new) }

        // After the frames of any past, this one's samples are those of the decoded list.
        ensures history { (past : List Fields) → Stands past self.old →
            Stands (fields_of p.now ∷ past) self.new × (x.new ≡ samples_of (fields_of p.now) past) }
    {
        let d = residual(&mut self.long_term, p);
        self.msr = self
            .short_term
            .synthesise_deemphasised(&p.larc, &d, self.msr, x);
        truncate(x);
    }
}
