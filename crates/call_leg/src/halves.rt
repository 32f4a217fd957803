//! The two halves of a leg, and the note that goes from one to the other.

use crate::down_side::DownSide;
use fr_decoder::Decoder;
use frame_sync::FrameSync;
use rx_handler::{Effective, Rx};
use std::marker::Model;
use trau_alaw::Law;
use trau_io::Counts;

/// What the downlink needs to know about a period of the uplink.
#[derive(Drop)]
pub struct UpNote {
    /// The effective frame of the period.
    pub eff: Effective,
    /// The 6-bit alignment field of a speech or idle frame; 0, which asks for nothing, if none came.
    pub ask: u8,
    /// DTXd of a speech frame, if one came.
    pub dtx: Option<bool>,
}

impl Model for UpNote {
    ghost use Rattle.std.specs.Prelude.{◌≤◌};
    ghost use Rattle.rx_handler.specs.State.{effective_fields};
    ghost use Rattle.call_leg.specs.Halves.{Note};

    ghost Value = { Note };

    ghost view = { λ n. record { eff = effective_fields n.eff; ask = n.ask; dtx = n.dtx } };

    ghost invariant = { λ n. n.ask ≤ 63 };
}

/// The uplink half of a leg.
#[derive(Drop)]
pub struct UpLeg {
    pub(crate) law: Law,
    pub(crate) search: FrameSync,
    pub(crate) rx: Rx,
    pub(crate) decoder: Decoder,
    pub(crate) counts: Counts,
    pub(crate) bridged: bool,
}

impl Model for UpLeg {
    ghost use Rattle.std.specs.Prelude.{◌≡◌, ◌≤◌};
    ghost use Rattle.call_leg.specs.Counted.{sighted_in};
    ghost use Rattle.call_leg.specs.Halves.{UpMemory};

    ghost Value = { UpMemory };

    ghost view = { λ u. record { law = u.law; search = u.search; rx = u.rx; decoder = u.decoder; counts = u.counts; bridged = u.bridged } };

    ghost invariant = { λ u. (u.search.periods ≤ 4294967295) × (sighted_in u.counts ≡ u.search.periods) };
}

/// The downlink half of a leg.
#[derive(Drop)]
pub struct DownLeg {
    pub(crate) side: DownSide,
}

impl Model for DownLeg {
    ghost use Rattle.down_framer.specs.Memory.{IsBetweenPeriods};
    ghost use Rattle.call_leg.specs.Memory.{DownMemory, down_memory};

    ghost Value = { DownMemory };

    ghost view = { λ l. down_memory l.side };

    ghost invariant = { λ l. IsBetweenPeriods l.side.framer };
}
