//! The state of the receive side as plain numbers, so that a C program can hold it.

ghost use Rattle.std.specs.Prelude.{◌≤◌};
ghost use Rattle.rx_noise.specs.Mix.{approach_steps};
ghost use Rattle.rx_handler.specs.Profile.{fall_from_missed, most_periods};

use crate::rx::Rx;
use crate::state::{Fall, Pause, SinceGood, State};
use trau_num::Draw;
use trau_params::{Params, silence};

/// The state of the receive side as plain numbers.
#[derive(Clone, Copy)]
#[repr(C)]
pub struct FlatRx {
    /// 0: the call is quiet. 1: speech. Any other number: noise.
    pub tag: u8,
    /// In speech, how many periods ago the last good frame came, counted up to SILENT_FROM_LOST of `rx_subst`. In
    /// noise, for how many periods its level has fallen, counted up to SILENT_FROM_FALL of `rx_noise`.
    pub periods: u8,
    /// In noise, how many steps of the approach are done, 1 to APPROACH_STEPS of `rx_noise`.
    pub step: u8,
    /// In noise, how many descriptors were missed since the latest one, counted up to FALL_FROM_MISSED.
    pub missed: u8,
    /// The random source.
    pub source: u16,
    /// In speech, the last good frame. In noise, where the approach began.
    pub first: Params,
    /// In noise, the latest descriptor.
    pub second: Params,
    pub ghost periods_stop: { periods ≤ most_periods tag },
    pub ghost begun: { 1 ≤ step },
    pub ghost step_stops: { step ≤ approach_steps },
    pub ghost missed_stop: { missed ≤ fall_from_missed },
}

impl FlatRx {
    ghost use Rattle.std.specs.Prelude.{◌≡◌};
    ghost use Rattle.rx_handler.specs.State.{state_of};
    ghost use Rattle.rx_handler.specs.Flat.{flat_state};

    fn state(&self) -> State
        ensures { state_of result ≡ flat_state self.now }
    {
        match self.tag {
            0 => State::Quiet,
            1 => State::Speech(SinceGood {
                last: self.first,
                periods: self.periods,
            }),
            _ => State::Noise(Pause {
                from: self.first,
                sid: self.second,
                step: self.step,
                fall: Fall {
                    missed_sids: self.missed,
                    periods: self.periods,
                },
            }),
        }
    }
}

impl Rx {
    ghost use Rattle.std.specs.Prelude.{◌≡◌};
    ghost use Rattle.rx_handler.specs.Flat.{flat_memory};

    /// The receive side that plain numbers stand for.
    pub fn of_flat(flat: &FlatRx) -> Rx
        ensures { result ≡ flat_memory flat.now }
    {
        Rx {
            state: flat.state(),
            source: Draw { r: flat.source },
        }
    }

    /// The plain numbers of the receive side. Noise has tag 2.
    pub fn flat(&self) -> FlatRx
        ensures value { flat_memory result ≡ self.now }
        ensures tag { result.tag ≤ 2 }
    {
        let source = self.source.r;
        match &self.state {
            State::Quiet => FlatRx {
                tag: 0,
                periods: 0,
                step: 1,
                missed: 0,
                source,
                first: silence(),
                second: silence(),
            },
            State::Speech(since) => FlatRx {
                tag: 1,
                periods: since.periods,
                step: 1,
                missed: 0,
                source,
                first: since.last,
                second: since.last,
            },
            State::Noise(pause) => FlatRx {
                tag: 2,
                periods: pause.fall.periods,
                step: pause.step,
                missed: pause.fall.missed_sids,
                source,
                first: pause.from,
                second: pause.sid,
            },
        }
    }
}
