//! The effective frame of a period, from the state after it.

ghost use Rattle.std.specs.Prelude.{◌≡◌};
ghost use Rattle.rx_muting.specs.Draws.{state_after, draw_of};
ghost use Rattle.rx_handler.specs.Origin.{draws_of, frame_of};
ghost use Rattle.trau_params.specs.Fields.{fields_of};
ghost use Rattle.rx_handler.specs.Step.{origin_by};
ghost use Rattle.rx_handler.specs.Memory.{Speech};
ghost use Rattle.rx_handler.specs.State.{state_of, effective_fields};

use crate::effective::Effective;
use crate::state::{SinceGood, State};
use rx_noise::{mix, noise_frame};
use rx_subst::lost_frame;
use trau_num::Draw;

/// The effective frame of the period that led to this state. Its random parts are drawn from `draw`.
#[tactic(auto, unfolding(rx_muting::specs::Draws::state_after))]
pub(crate) fn frame(state: &State, draw: &mut Draw) -> Effective
    ensures frame { effective_fields result ≡
        frame_of (origin_by (state_of state.now)) (draw_of draw.old.r) }
    ensures source { draw.new.r ≡
        state_after draw.old.r (draws_of (origin_by (state_of state.now))) }
{
    match state {
        State::Quiet => Effective::Quiet,
        State::Speech(since) => speech_frame(since, draw),
        State::Noise(pause) => {
            let sid = mix(&pause.from, &pause.sid, pause.step);
            Effective::Made(noise_frame(&sid, pause.fall.periods, draw))
        }
    }
}

// In its own period the good frame; in each later one the frame that replaces lost speech.
#[tactic(auto, unfolding(rx_muting::specs::Draws::state_after))]
fn speech_frame(since: &SinceGood, draw: &mut Draw) -> Effective
    ensures frame { effective_fields result ≡
        frame_of (origin_by (Speech (fields_of since.now.last) since.now.periods))
        (draw_of draw.old.r) }
    ensures source { draw.new.r ≡ state_after draw.old.r
        (draws_of (origin_by (Speech (fields_of since.now.last) since.now.periods))) }
{
    if since.periods == 0 {
        return Effective::Speech(since.last);
    }
    Effective::Made(lost_frame(&since.last, since.periods, draw))
}
