//! Linear prediction of the full rate codec's encoder (GSM 06.10, sections 4.2.4 to 4.2.7).
//!
//! Layer: The full rate codec.
//!
//! The encoder's stage after preprocessing: it takes the 160 preprocessed samples of a frame (16 bits, a period of 20
//! ms), finds the eight log area ratios of the filter that predicts them, and codes these. The scaling around the
//! autocorrelation rounds away low bits of a loud frame's samples, and short-term analysis takes the rounded samples.
//!
//! `scaling` shifts the samples down and up, `autocorrelation` has the sums of their products at lags 0 to 8,
//! `reflection` the recursion that finds the reflection coefficients, `ratios` the log area ratios and their codes,
//! `analysis` all of a frame.
//!
//! Definitions: `specs/Scaling.antt`, `specs/Autocorrelation.antt`, `specs/Reflection.antt`, `specs/Ratios.antt`.
#![tactic(auto)]

mod analysis;
mod autocorrelation;
mod ratios;
mod reflection;
mod scaling;

pub use analysis::{Lpc, analyse};
pub use autocorrelation::autocorrelate;
pub use ratios::quantise;
pub use scaling::peak;
