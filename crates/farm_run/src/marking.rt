//! The calls of a mark.

ghost use Rattle.std.specs.Prelude.{◌≡◌, ℕ, map, is_some, IfOk};
ghost use Rattle.call_number.specs.CallNumber.{IsCallNumber};
ghost use Rattle.farm_rounds.specs.Calls.{call_in};
ghost use Rattle.farm_rounds.specs.Numbers.{IsRising, is_among};
ghost use Rattle.farm_run.specs.Stages.{IsStage};
ghost use Rattle.farm_run.specs.Marking.{entry_of};

use crate::stage::Stage;
use farm_checkpoint::MarkCall;
use std::alloc::{AllocError, Global};
use trau_io::{Line, Side};

// What a mark says of a call.
fn mark_call(stage: &Stage, call: u32) -> MarkCall
    requires { IsCallNumber call }
    ensures { result ≡ entry_of stage.now call }
{
    MarkCall {
        call,
        from: stage.board.from(call),
        out: stage.outgoing.sum(Line {
            call,
            side: Side::Out,
        }),
        down: stage.outgoing.sum(Line {
            call,
            side: Side::Down,
        }),
    }
}

/// The calls that are live at a clock of a run, each with its first period and the sums of its outgoing lines so far.
pub(crate) fn mark_calls(alloc: Global, stage: &Stage) -> Result<Vec<MarkCall>, AllocError>
    requires { IsStage stage.now }
    ensures calls { IfOk result (λ calls.
        calls.items ≡ map (entry_of stage.now) stage.now.farm.live) }

    // They are the farm's, in rising order of their numbers.
    ensures live { (c : ℕ) →
        is_among stage.now.farm.live c ≡ is_some (call_in stage.now.farm.calls c) }
    ensures rising { IsRising stage.now.farm.live }
{
    let live = stage.farm.live_calls();
    let mut calls = Vec::with_capacity(alloc, live.len())?;
    for call in live {
        calls.push(mark_call(stage, *call))?;
    }
    Ok(calls)
}
