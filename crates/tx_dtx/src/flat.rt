//! The state of the transmit side as plain numbers, so that a C program can hold it.

ghost use Rattle.std.specs.Prelude.{◌≤◌, ◌≤ℤ◌, pos, All};
ghost use Rattle.tx_dtx.specs.Sent.{described_from, hangover_after};

use crate::tx::Tx;
use trau_params::{Params, Trace};

/// The state of the transmit side as plain numbers.
#[derive(Clone, Copy)]
#[repr(C)]
pub struct FlatTx {
    /// The number of inactive frames in a row, counted up to DESCRIBED_FROM.
    pub run: u8,
    /// The number of frames since the last SID was made, counted up to HANGOVER_AFTER; this too if none was made.
    pub elapsed: u8,
    /// Whether the last pause has a hangover.
    pub hangs: bool,
    /// The last SID.
    pub sid: Params,
    /// The log area ratios of the last frame before coding.
    pub last_lar: [i16; 8],
    /// Its block maxima before coding.
    pub last_xmax: [i16; 4],
    /// The log area ratios of the frame before it.
    pub second_last_lar: [i16; 8],
    /// That frame's block maxima.
    pub second_last_xmax: [i16; 4],
    /// The log area ratios of the third last frame.
    pub third_last_lar: [i16; 8],
    /// That frame's block maxima.
    pub third_last_xmax: [i16; 4],
    pub ghost run_stops: { run ≤ described_from },
    pub ghost elapsed_stops: { elapsed ≤ hangover_after },
    pub ghost last_not_negative: { All (λ x. pos 0 ≤ℤ x) last_xmax },
    pub ghost second_not_negative: { All (λ x. pos 0 ≤ℤ x) second_last_xmax },
    pub ghost third_not_negative: { All (λ x. pos 0 ≤ℤ x) third_last_xmax },
}

impl Tx {
    ghost use Rattle.std.specs.Prelude.{◌≡◌};
    ghost use Rattle.tx_dtx.specs.Flat.{flat_memory};

    /// The transmit side that plain numbers stand for.
    pub fn of_flat(flat: &FlatTx) -> Tx
        ensures { result ≡ flat_memory flat.now }
    {
        Tx {
            run: flat.run,
            elapsed: flat.elapsed,
            hangs: flat.hangs,
            sid: flat.sid,
            last: Trace {
                lar: flat.last_lar,
                xmax: flat.last_xmax,
            },
            second_last: Trace {
                lar: flat.second_last_lar,
                xmax: flat.second_last_xmax,
            },
            third_last: Trace {
                lar: flat.third_last_lar,
                xmax: flat.third_last_xmax,
            },
        }
    }

    /// The plain numbers of the transmit side.
    pub fn flat(&self) -> FlatTx
        ensures { flat_memory result ≡ self.now }
    {
        FlatTx {
            run: self.run,
            elapsed: self.elapsed,
            hangs: self.hangs,
            sid: self.sid,
            last_lar: self.last.lar,
            last_xmax: self.last.xmax,
            second_last_lar: self.second_last.lar,
            second_last_xmax: self.second_last.xmax,
            third_last_lar: self.third_last.lar,
            third_last_xmax: self.third_last.xmax,
        }
    }
}
