//! What the receive side keeps from period to period, besides the random source.

ghost use Rattle.std.specs.Prelude.{◌≤◌};
ghost use Rattle.rx_subst.specs.Lost.{silent_from_lost};
ghost use Rattle.rx_noise.specs.Mix.{approach_steps};
ghost use Rattle.rx_noise.specs.Noise.{silent_from_fall};
ghost use Rattle.rx_handler.specs.Profile.{fall_from_missed};

use trau_params::Params;

/// The number of missed descriptors with which the level of noise begins to fall.
pub(crate) const FALL_FROM_MISSED: u8 = 2;

/// The last good frame and how many periods ago it came: 0 in its own, counted up to SILENT_FROM_LOST of `rx_subst`.
#[derive(Clone, Copy)]
pub(crate) struct SinceGood {
    pub(crate) last: Params,
    pub(crate) periods: u8,
    ghost stops: { periods ≤ silent_from_lost },
}

/// How far the level of noise has fallen. The fall begins in the period of the second missed descriptor.
#[derive(Clone, Copy)]
pub(crate) struct Fall {
    /// Descriptors missed since the latest one, counted up to FALL_FROM_MISSED.
    pub(crate) missed_sids: u8,
    /// For how many periods the level has fallen, counted up to SILENT_FROM_FALL of `rx_noise`.
    pub(crate) periods: u8,
    ghost missed_stops: { missed_sids ≤ fall_from_missed },
    ghost periods_stop: { periods ≤ silent_from_fall },
}

/// A pause in speech: its noise approaches the latest silence descriptor.
#[derive(Clone, Copy)]
pub(crate) struct Pause {
    /// Where the approach began.
    pub(crate) from: Params,
    /// The latest descriptor.
    pub(crate) sid: Params,
    /// How many steps are done, 1 to APPROACH_STEPS of `rx_noise`.
    pub(crate) step: u8,
    /// How far the level has fallen.
    pub(crate) fall: Fall,
    ghost begun: { 1 ≤ step },
    ghost step_stops: { step ≤ approach_steps },
}

/// The state by the latest anchor (good speech, a silence descriptor or an idle frame).
#[derive(Clone, Copy)]
pub(crate) enum State {
    /// No anchor yet, or an idle frame.
    Quiet,
    /// Good speech.
    Speech(SinceGood),
    /// A silence descriptor.
    Noise(Pause),
}
