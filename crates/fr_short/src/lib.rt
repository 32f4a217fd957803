//! Short-term filters of the full rate codec (GSM 06.10, sections 4.2.8 to 4.2.10 and 4.3.3 to 4.3.5).
//!
//! Layer: The full rate codec.
//!
//! In the encoder, analysis takes a frame's preprocessed samples (160 of 16 bits, a period of 20 ms) and the eight
//! codes of its log area ratios, and gives the residual for long-term prediction. In the decoder, synthesis takes such
//! codes and the residual from long-term synthesis, and gives the samples, on request de-emphasised. In both, the
//! coefficients move from the previous frame's to this frame's in four parts of the frame.
//!
//! `ratios` decodes the codes, `reflection` computes the coefficients of each part, `analysis` and `synthesis` are the
//! lattices, `state` is the state of one direction.
//!
//! Definitions: `specs/Ratios.antt`, `specs/Reflection.antt`, `specs/Analysis.antt`, `specs/Synthesis.antt`,
//! `specs/Deemphasis.antt`; `specs/Memory.antt`, `specs/Step.antt` and `specs/Stands.antt` (the state of a direction,
//! one frame, and the past that a state stands for); `specs/AnalysisSection.antt` (one section of the analysis lattice
//! over a frame); `specs/Stepped.antt` and `specs/Lanes.antt` (the forms that the code computes); `specs/Words.antt`
//! (the range of the coefficients).
#![tactic(auto)]

mod analysis;
mod ratios;
mod reflection;
mod state;
mod synthesis;

pub use ratios::decode_larc;
pub use state::ShortState;
