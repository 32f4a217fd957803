//! The effective frame of a period.

use trau_params::{Params, silence};

/// The frame that is decoded for a period or, in a bridge, handed to the partner.
#[derive(Clone, Copy, PartialEq, Eq)]
pub enum Effective {
    /// Neither good speech nor a silence descriptor came yet, or none since the last idle frame.
    Quiet,
    /// The good speech frame that came in this period, unchanged.
    Speech(Params),
    /// A frame that replaces lost speech, or comfort noise.
    Made(Params),
}

impl Effective {
    ghost use Rattle.std.specs.Prelude.{◌≡◌};
    ghost use Rattle.trau_params.specs.Fields.{fields_of};
    ghost use Rattle.rx_handler.specs.Origin.{is_quiet, handed_fields};
    ghost use Rattle.rx_handler.specs.State.{effective_fields};

    /// Whether the call is quiet.
    pub fn is_quiet(&self) -> bool
        ensures { result ≡ is_quiet (effective_fields self.now) }
    {
        match self {
            Effective::Quiet => true,
            Effective::Speech(_) | Effective::Made(_) => false,
        }
    }

    /// The frame that is handed to the partner of a bridge: the frame of silence if the call is quiet.
    pub fn handed(&self) -> Params
        ensures { fields_of result ≡ handed_fields (effective_fields self.now) }
    {
        match self {
            Effective::Quiet => silence(),
            Effective::Speech(p) | Effective::Made(p) => *p,
        }
    }
}
