//! How a period changes the state.

ghost use Rattle.std.specs.Prelude.{◌≡◌};
ghost use Rattle.trau_params.specs.Fields.{fields_of};
ghost use Rattle.rx_handler.specs.Step.{missed_after, fall_after, state_after_loss, state_after_sid, next_state};
ghost use Rattle.rx_handler.specs.Memory.{Speech};
ghost use Rattle.rx_handler.specs.State.{state_of, heard_fields};

use crate::reception::Reception;
use crate::state::{FALL_FROM_MISSED, Fall, Pause, SinceGood, State};
use rx_noise::{APPROACH_STEPS, SILENT_FROM_FALL, mix};
use rx_subst::SILENT_FROM_LOST;
use trau_params::Params;

/// Changes the state by what a period brings.
pub(crate) fn hear(state: &mut State, y: &Reception)
    ensures { state_of state.new ≡ next_state (state_of state.old) (heard_fields y.now) }
{
    match y {
        Reception::Good(p) => *state = after_speech(*p),
        Reception::Sid(p) => *state = after_sid(state, *p),
        Reception::Idle => *state = State::Quiet,
        Reception::Lost(sid_missed) => count_lost(state, *sid_missed),
    }
}

// Good speech: the count of lost periods starts again.
fn after_speech(last: Params) -> State
    ensures { state_of result ≡ Speech (fields_of last) 0 }
{
    State::Speech(SinceGood { last, periods: 0 })
}

// A silence descriptor. In noise, this period is step 1 of the approach. It starts at the noise of the period before,
// or at the descriptor itself if the level of that noise has begun to fall. After speech or quiet nothing is
// approached, so all steps are done.
fn after_sid(before: &State, sid: Params) -> State
    ensures { state_of result ≡ state_after_sid (state_of before.now) (fields_of sid) }
{
    let fall = Fall {
        missed_sids: 0,
        periods: 0,
    };
    match before {
        State::Quiet | State::Speech(_) => State::Noise(Pause {
            from: sid,
            sid,
            step: APPROACH_STEPS,
            fall,
        }),
        State::Noise(pause) => {
            let from = if pause.fall.periods == 0 {
                mix(&pause.from, &pause.sid, pause.step)
            } else {
                sid
            };
            State::Noise(Pause {
                from,
                sid,
                step: 1,
                fall,
            })
        }
    }
}

// A lost period. `sid_missed`: it brought an unusable speech frame where a silence descriptor was due.
fn count_lost(state: &mut State, sid_missed: bool)
    ensures { state_of state.new ≡ state_after_loss (state_of state.old) sid_missed }
{
    match state {
        State::Quiet => {}
        State::Speech(since) => since.periods = (since.periods + 1).min(SILENT_FROM_LOST),
        State::Noise(pause) => {
            pause.step = (pause.step + 1).min(APPROACH_STEPS);
            pause.fall = next_fall(pause.fall, sid_missed);
        }
    }
}

// The fall after one more lost period: it begins in the period of the second missed descriptor.
fn next_fall(fall: Fall, sid_missed: bool) -> Fall
    ensures missed { result.missed_sids ≡ missed_after fall.missed_sids sid_missed }
    ensures periods { result.periods ≡ fall_after result.missed_sids fall.periods }
{
    let count = (fall.missed_sids + u8::from(sid_missed)).min(FALL_FROM_MISSED);
    let periods = if count == FALL_FROM_MISSED {
        (fall.periods + 1).min(SILENT_FROM_FALL)
    } else {
        fall.periods
    };
    Fall {
        missed_sids: count,
        periods,
    }
}
