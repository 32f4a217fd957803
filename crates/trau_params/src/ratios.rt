//! What the coder and the decoder of log area ratios share (GSM 06.10, table 4.1).

/// B, the offset of each ratio.
pub const OFFSETS: [i16; 8] = [0, 0, 2048, -2560, 94, -1792, -341, -1144];

/// MIC, the least value of each quantised ratio, which has the code 0.
pub const LEAST: [i16; 8] = [-32, -32, -16, -16, -8, -8, -4, -4];
