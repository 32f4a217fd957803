//! A whole live drill.

ghost use Rattle.std.specs.Prelude.{◌≡◌, IfOk, string_bytes};
ghost use Rattle.live_run.specs.Size.{IsLiveDrill};
ghost use Rattle.live_run.specs.Text.{live_text};

use crate::posters::post_by_all;
use crate::rest::work_rest;
use crate::shared::Shared;
use crate::size::LiveDrill;
use crate::sums::text_of;
use farm_live::Live;
use pool_run::Gate;
use std::alloc::{AllocError, Global};
use std::sync::Wait;
use std::thread::Threads;

/// Runs a live drill. Each caller has a thread of its own. Caller (C - 1) modulo `callers` posts the periods of
/// call C, which are drawn. A caller that finds an inbox full processes a post of that call; one that finds a call
/// busy yields its thread; both try again. When all have ended, the calling thread processes each call to its last
/// post, and ends the farm. The result is the text: the sums of the octets of each call's outgoing lines, and a
/// last line. It depends only on the seed and the numbers of calls and periods. An error means out of memory.
///
/// For each period of a call its caller calls `gate.before` before it first tries the post, and `gate.after` once
/// the post was accepted. No clause names the gate.
///
/// The callers wait for queues, and for one another at the end. It isn't proved that this function returns.
pub fn run_live<R: Threads + Wait + Sync, G: Gate + Sync>(
    rt: &R,
    alloc: Global,
    drill: &LiveDrill,
    gate: &G,
) -> Result<String, AllocError>
    requires { IsLiveDrill drill.now }
    ensures { IfOk result (λ text. string_bytes text
        ≡ live_text drill.now.seed drill.now.calls drill.now.periods) }
{
    // A law: the octets of a legal history are those of the whole call.
    farm_live::laws::legal_histories_are_whole_calls();
    let (live, callers) = Live::new(rt, alloc, drill.calls, drill.inbox, drill.callers)?;
    let shared = Shared {
        rt,
        alloc,
        live: &live,
        drill: *drill,
        gate,
    };
    let mut callers = post_by_all(&shared, callers)?;
    work_rest(&shared, &mut callers[0])?;
    let closed = live.close(rt, callers);
    text_of(alloc, closed.as_slice(), drill.periods, drill.calls)
}
