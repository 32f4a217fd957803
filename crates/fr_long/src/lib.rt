//! Long-term prediction of the full rate codec (GSM 06.10, sections 4.2.11, 4.2.12, 4.2.18 and 4.3.2).
//!
//! Layer: The full rate codec.
//!
//! Long-term prediction works between short-term filtering and pulse coding: it predicts a block of 40 samples of the
//! residual as the reconstructed residual a lag of 40 to 120 samples earlier, times a gain of 2 bits.
//!
//! `LtpHistory` is the encoding side. It takes a block of the residual from short-term analysis, finds its lag and
//! gain, and gives `fr_rpe` the block less its prediction. The pulses of `fr_rpe` then go back into the history.
//! `scaling`, `lag` with `correlations`, `sums` and `gain_code` are its steps.
//!
//! `LtpDecoder` is the decoding side. It adds the prediction to a block of pulses from `fr_rpe`, and gives the
//! reconstructed residual to short-term synthesis. Both sides use the gains of `gain` and the `memory` of 120 samples.
//! `laws` says that a block has exactly one lag and one prediction.
//!
//! Definitions: `specs/Prediction.antt` (the encoder's prediction), which uses `specs/Scaling.antt`, `specs/Lag.antt`
//! and `specs/GainCode.antt`; `specs/Synthesis.antt` (the decoder over all blocks from the home state);
//! `specs/Memory.antt`, `specs/Step.antt` and `specs/Stands.antt` (the state of each side, one block, and the past that
//! a state stands for); `specs/Gain.antt` (the gains).
#![tactic(auto)]

mod correlations;
mod decoder;
mod encoder;
mod gain;
mod gain_code;
mod lag;
mod laws;
mod ltp;
mod memory;
mod scaling;
mod sums;

pub use correlations::correlate;
pub use decoder::LtpDecoder;
pub use encoder::LtpHistory;
pub use laws::{one_lag, one_prediction};
pub use ltp::Ltp;
