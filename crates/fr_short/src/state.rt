//! The state of one direction of the short-term filters.

ghost use Rattle.std.specs.Prelude.{◌≡◌, List, [], ◌∷◌};
ghost use Rattle.trau_params.specs.Widths.{FitLarc};
ghost use Rattle.fr_short.specs.Memory.{ShortMemory, home_memory};
ghost use Rattle.fr_short.specs.Synthesis.{ResidualFrame, residual_frame, synthesis_of};
ghost use Rattle.fr_short.specs.Step.{synthesised_frame, analysed_frame};
ghost use Rattle.fr_short.specs.Stands.{SynthesisStands, AnalysisStands};
ghost use Rattle.fr_short.specs.Deemphasis.{deemphasised, last_of};
ghost use Rattle.fr_short.specs.Analysis.{SampleFrame, sample_frame, analysis_of};

use crate::analysis::analyse;
use crate::ratios::decode_larc;
use crate::synthesis::{filter, filter_deemphasised};
use std::marker::Model;

/// The state of the short-term filter in one direction of one call: the previous frame's decoded ratios and
/// the values of the eight sections.
#[derive(Drop)]
#[repr(C)]
pub struct ShortState {
    ratios: [i16; 8],
    sections: [i16; 8],
}

impl Model for ShortState {
    ghost Value = { ShortMemory };

    ghost view = { λ s. record { ratios = s.ratios; sections = s.sections } };

    ghost inverse = { λ m. record { ratios = m.ratios; sections = m.sections } };
}

impl ShortState {
    /// The state before the first frame.
    #[tactic(auto, unfolding(crate::specs::Synthesis::newest_ratios, crate::specs::Synthesis::synthesis_of, crate::specs::Analysis::newest_sample_ratios, crate::specs::Analysis::analysis_of))]
    pub fn home() -> ShortState
        ensures value { result ≡ home_memory }
        ensures stands { SynthesisStands [] result }
        ensures analysis_stands { AnalysisStands [] result }
    {
        ShortState {
            ratios: [0; 8],
            sections: [0; 8],
        }
    }

    /// Filters the residual `d` of a frame into its 160 samples `s`, which are overwritten. `larc` has the eight codes
    /// of its log area ratios, each within its width (GSM 06.10, section 4.3.4).
    #[tactic(auto, unfolding(crate::specs::Step::synthesised_frame, crate::specs::Synthesis::newest_ratios, crate::specs::Synthesis::synthesis_of))]
    pub fn synthesise_frame(&mut self, larc: &[u8; 8], d: &[i16; 160], s: &mut [i16; 160])
        requires { FitLarc larc.now }
        ensures samples { s.new ≡ (synthesised_frame self.old larc.now d.now).0 }
        ensures memory { self.new ≡ (synthesised_frame self.old larc.now d.now).1 }

        // After the frames of any past, this one is the newest.
        ensures history { (past : List ResidualFrame) → SynthesisStands past self.old
            → SynthesisStands (residual_frame larc.now d.now ∷ past) self.new
            × (s.new ≡ (synthesis_of (residual_frame larc.now d.now ∷ past)).0) }
    {
        let ratios = decode_larc(larc);
        filter(&self.ratios, &ratios, &mut self.sections, d, s);
        self.ratios = ratios;
    }

    /// The same with de-emphasis after it (GSM 06.10, section 4.3.5), into `msr`. `before` is the last de-emphasised
    /// sample of the previous frame. Returns the last one of this frame.
    #[tactic(auto, unfolding(crate::specs::Step::synthesised_frame, crate::specs::Synthesis::newest_ratios, crate::specs::Synthesis::synthesis_of))]
    pub fn synthesise_deemphasised(
        &mut self,
        larc: &[u8; 8],
        d: &[i16; 160],
        before: i16,
        msr: &mut [i16; 160],
    ) -> i16
        requires { FitLarc larc.now }
        ensures samples { msr.new ≡ deemphasised before (synthesised_frame self.old larc.now d.now).0 }
        ensures last { result ≡ last_of before (deemphasised before (synthesised_frame self.old larc.now d.now).0) }
        ensures memory { self.new ≡ (synthesised_frame self.old larc.now d.now).1 }

        // After the frames of any past, this one is the newest.
        ensures history { (past : List ResidualFrame) → SynthesisStands past self.old
            → SynthesisStands (residual_frame larc.now d.now ∷ past) self.new
            × (msr.new ≡ deemphasised before (synthesis_of (residual_frame larc.now d.now ∷ past)).0) }
    {
        let ratios = decode_larc(larc);
        let last = filter_deemphasised(&self.ratios, &ratios, &mut self.sections, d, before, msr);
        self.ratios = ratios;
        last
    }

    /// Replaces the 160 preprocessed samples `s` of a frame by their residual. `larc` has the eight codes of the
    /// frame's log area ratios, each within its width (GSM 06.10, section 4.2.10).
    #[tactic(auto, unfolding(crate::specs::Step::analysed_frame, crate::specs::Analysis::newest_sample_ratios, crate::specs::Analysis::analysis_of))]
    pub fn analyse_frame(&mut self, larc: &[u8; 8], s: &mut [i16; 160])
        requires { FitLarc larc.now }
        ensures residual { s.new ≡ (analysed_frame self.old larc.now s.old).0 }
        ensures memory { self.new ≡ (analysed_frame self.old larc.now s.old).1 }

        // After the frames of any past, this one is the newest.
        ensures history { (past : List SampleFrame) → AnalysisStands past self.old
            → AnalysisStands (sample_frame larc.now s.old ∷ past) self.new
            × (s.new ≡ (analysis_of (sample_frame larc.now s.old ∷ past)).0) }
    {
        let old = self.ratios;
        self.ratios = decode_larc(larc);
        analyse(&old, &self.ratios, &mut self.sections, s);
    }
}
