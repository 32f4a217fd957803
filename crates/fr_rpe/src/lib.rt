//! Regular pulse coding of the full rate codec (GSM 06.10, sections 4.2.13 to 4.2.17 and 4.3.1).
//!
//! Layer: The full rate codec.
//!
//! The remainder of a block of 40 samples after long-term prediction is coded as thirteen pulses, three samples apart,
//! at one of four grid positions: the block's maximum (6 bits), and each pulse's share of it (3 bits). `encode_block`
//! finds these parameters. `decode_block` reconstructs the block: in the encoder for its own long-term prediction, in
//! the decoder for long-term synthesis. The comfort noise of the downlink codes its mean maximum by `quantise_max`.
//!
//! `weighting` filters the block, `selection` chooses the grid, `maximum` codes the maximum, `scale` has the exponent
//! and mantissa of a coded maximum, `quantisation` codes the pulses, `decode` reconstructs a block, `rpe` has the
//! parameters, and `encode` does all of the encoding.
//!
//! Definitions: `specs/Encoding.antt` (the parameters of a block), which uses `specs/Weighting.antt`,
//! `specs/Selection.antt` and `specs/Quantisation.antt`; `specs/Scale.antt` (the scale of a coded maximum);
//! `specs/Pulses.antt` (the reconstructed block).
#![tactic(auto)]

mod decode;
mod encode;
mod maximum;
mod quantisation;
mod rpe;
mod scale;
mod selection;
mod weighting;

pub use decode::decode_block;
pub use encode::encode_block;
pub use maximum::quantise_max;
pub use rpe::Rpe;
