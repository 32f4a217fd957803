//! A frame as exports write it.

ghost use Rattle.std.specs.Prelude.{◌≡◌};
ghost use Rattle.trau_params.specs.Fields.{fields_of};
ghost use Rattle.trau_c.specs.Frame.{fields_of_frame, Fits};

use trau_params::Params;

/// The parameters of a frame, in the fields of `Params`. The type asks for no widths, so C need not initialise a frame
/// that an export only writes.
#[derive(Clone, Copy)]
#[repr(C)]
pub struct Frame {
    /// LARc 1 to 8.
    pub larc: [u8; 8],
    /// Nc, the lag of each block.
    pub nc: [u8; 4],
    /// bc, the code of its gain.
    pub bc: [u8; 4],
    /// Mc, its grid position.
    pub mc: [u8; 4],
    /// xmaxc, its coded maximum.
    pub xmaxc: [u8; 4],
    /// xMc, the codes of its thirteen pulses.
    pub xmc: [[u8; 13]; 4],
}

impl Frame {
    /// The frame with these parameters.
    pub fn of(params: &Params) -> Frame
        ensures fields { fields_of_frame result ≡ fields_of params.now }
        ensures fit { Fits result }
    {
        Frame {
            larc: params.larc,
            nc: params.nc,
            bc: params.bc,
            mc: params.mc,
            xmaxc: params.xmaxc,
            xmc: params.xmc,
        }
    }
}
