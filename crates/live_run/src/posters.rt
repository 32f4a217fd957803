//! The callers of a live drill, each on a thread of its own.

ghost use Rattle.std.specs.Prelude.{◌≡◌, ◌+◌, ◌<◌, ◌≤◌, ℕ, All, IsTrue, length, map, slice_index_or, OnOk, IfOk};
ghost use Rattle.farm_drill.specs.Draws.{draw_state};
ghost use Rattle.farm_drill.specs.declared.draws.Generator.{Generator as TheDraws};
ghost use Rattle.farm_live.specs.Live.{view_of, IsSeated};
ghost use Rattle.live_run.specs.Size.{IsLiveDrill};
ghost use Rattle.live_run.specs.Posts.{Knows, IsDrawn, MovesSeat, IsBehind, HasPosted};
ghost use Rattle.live_run.specs.Posters.{IsReady, HasEnded, Ends, HavePosted, poster_of};

use crate::calls::post_period;
use crate::shared::Shared;
use farm_drill::{Generator, pcm, uplink};
use farm_live::Caller;
use pool_run::Gate;
use std::alloc::{AllocError, Global};
use std::sync::Wait;
use std::thread;
use std::thread::Threads;

// A caller on its thread.
#[derive(Drop)]
struct Poster {
    caller: Caller,
    // Whether all periods were posted. If not, memory ran out.
    done: bool,
}

// Posts a period to the call with this index, if it is one of the caller's own.
fn post_own<R: Wait, G: Gate>(
    shared: &Shared<R, G>,
    period: u32,
    k: u32,
    caller: &mut Caller,
    draws: &mut Generator,
) -> Result<(), AllocError>
    requires size { IsLiveDrill shared.now.drill }
    requires period { period < 1000 }
    requires call { k < length shared.now.live.now.slots.items }
    requires few { k < 256 }
    requires farm { IsSeated shared.now.live.now.inbox shared.now.live.now.slots.items caller.old }
    requires knows { (s : _) →
        Knows shared.now.drill.seed shared.now.drill.callers caller.old.number k period
        (view_of (slice_index_or caller.old.seats.items k s)) }
    requires drawn { IsDrawn shared.now.drill.seed shared.now.drill.callers
        caller.old.number k period draws.old }
    ensures farm { IsSeated shared.now.live.now.inbox shared.now.live.now.slots.items caller.new }
    ensures posted { OnOk result (MovesSeat
        (λ _ w. Knows shared.now.drill.seed shared.now.drill.callers
        caller.old.number k (period + 1) w) k caller.old caller.new) }
    ensures drawn { OnOk result (IsDrawn shared.now.drill.seed shared.now.drill.callers
        caller.old.number k (period + 1) draws.new) }
{
    if k % shared.drill.callers != caller.number() {
        return Ok(());
    }
    let up = uplink(draws, period);
    let pcm = pcm(draws, period);
    post_period(shared, caller, k, &up, &pcm)
}

// Posts a period to each of the caller's calls.
fn post_round<R: Wait, G: Gate>(
    shared: &Shared<R, G>,
    period: u32,
    caller: &mut Caller,
    draws: &mut [Generator],
) -> Result<(), AllocError>
    requires size { IsLiveDrill shared.now.drill }
    requires period { period < 1000 }
    requires calls { length shared.now.live.now.slots.items ≡ shared.now.drill.calls }
    requires farm { IsSeated shared.now.live.now.inbox shared.now.live.now.slots.items caller.old }
    requires behind { IsBehind shared.now.drill.seed shared.now.drill.calls
        shared.now.drill.callers caller.old.number (λ _. period) caller.old draws.old }
    ensures farm { IsSeated shared.now.live.now.inbox shared.now.live.now.slots.items caller.new }
    ensures behind { OnOk result (IsBehind shared.now.drill.seed shared.now.drill.calls
        shared.now.drill.callers caller.old.number (λ _. period + 1) caller.new draws.new) }
{
    for k in 0..shared.drill.calls {
        let own = &mut draws[k as usize];
        post_own(shared, period, k, caller, own)?;
    }
    Ok(())
}

// The generators of all calls, each before its first draw.
fn first_draws(alloc: Global, seed: u32, calls: u32) -> Result<Vec<Generator>, AllocError>
    requires { calls ≤ 256 }
    ensures count { IfOk result (λ gs. length gs.items ≡ calls) }
    ensures each { IfOk result (λ gs. (k : ℕ) (g : TheDraws) → k < calls →
        (slice_index_or gs.items k g).x ≡ draw_state seed (k + 1) 0) }
{
    let mut draws = Vec::with_capacity(alloc, calls as usize)?;
    for k in 0..calls {
        let generator = Generator::new(seed, k + 1);
        draws.push_reserved(generator);
    }
    Ok(draws)
}

// Posts all periods of the caller's calls, one period of each call at a time.
fn post_periods<R: Wait, G: Gate>(
    shared: &Shared<R, G>,
    caller: &mut Caller,
) -> Result<(), AllocError>
    requires size { IsLiveDrill shared.now.drill }
    requires calls { length shared.now.live.now.slots.items ≡ shared.now.drill.calls }
    requires farm { IsSeated shared.now.live.now.inbox shared.now.live.now.slots.items caller.old }
    requires posted { HasPosted shared.now.drill.seed shared.now.drill.calls
        shared.now.drill.callers 0 caller.old.number caller.old }
    ensures farm { IsSeated shared.now.live.now.inbox shared.now.live.now.slots.items caller.new }
    ensures posted { OnOk result (HasPosted shared.now.drill.seed shared.now.drill.calls
        shared.now.drill.callers shared.now.drill.periods caller.old.number caller.new) }
{
    let mut draws = first_draws(shared.alloc, shared.drill.seed, shared.drill.calls)?;
    for period in 0..shared.drill.periods {
        let each = draws.as_mut_slice();
        post_round(shared, period, caller, each)?;
    }
    Ok(())
}

// Posts all periods of a poster's calls, and notes whether that succeeded.
fn post_all<R: Wait, G: Gate>(shared: &Shared<R, G>, poster: &mut Poster)
    requires size { IsLiveDrill shared.now.drill }
    requires calls { length shared.now.live.now.slots.items ≡ shared.now.drill.calls }
    requires ready { (i : ℕ) × IsReady shared.now.drill
        shared.now.live.now.inbox shared.now.live.now.slots.items i poster.old }
    ensures { (i : ℕ) →
        IsReady shared.now.drill
        shared.now.live.now.inbox shared.now.live.now.slots.items i poster.old →
        HasEnded shared.now.drill
        shared.now.live.now.inbox shared.now.live.now.slots.items i poster.new }
{
    let posted = post_periods(shared, &mut poster.caller);
    poster.done = posted.is_ok();
}

// What a thread does.
fn run_poster<R: Wait, G: Gate>(shared: &Shared<R, G>, poster: &mut Poster)
    requires size { IsLiveDrill shared.now.drill }
    requires calls { length shared.now.live.now.slots.items ≡ shared.now.drill.calls }
    requires ready { (i : ℕ) × IsReady shared.now.drill
        shared.now.live.now.inbox shared.now.live.now.slots.items i poster.old }
    ensures { Ends shared.now.drill
        shared.now.live.now.inbox shared.now.live.now.slots.items poster.old poster.new }
{
    post_all(shared, poster);
}

// Runs each poster on a thread of its own, until all have ended.
fn run_posters<R: Threads + Wait + Sync, G: Gate + Sync>(
    shared: &Shared<R, G>,
    posters: &mut [Poster],
)
    requires size { IsLiveDrill shared.now.drill }
    requires calls { length shared.now.live.now.slots.items ≡ shared.now.drill.calls }
    requires some { 0 < length posters.old }
    requires ready { (k : ℕ) (p : _) → k < length posters.old →
        IsReady shared.now.drill shared.now.live.now.inbox shared.now.live.now.slots.items k
        (slice_index_or posters.old k p) }
    ensures { (k : ℕ) (p : _) → k < length posters.old →
        Ends shared.now.drill shared.now.live.now.inbox shared.now.live.now.slots.items
        (slice_index_or posters.old k p) (slice_index_or posters.new k p) }
{
    let threads = posters.len();
    thread::for_each_mut(
        shared.rt,
        posters,
        threads,
        &|_, poster| run_poster(shared, poster),
    );
}

// The callers of a farm, before their threads.
fn posters_of(alloc: Global, callers: Vec<Caller>) -> Result<Vec<Poster>, AllocError>
    ensures { IfOk result (λ ps. ps.items ≡ map poster_of callers.items) }
{
    callers
        .into_iter()
        .map(|caller| Poster {
            caller,
            done: false,
        })
        .collect(alloc)
}

// The callers, if all of them are done.
fn callers_of(alloc: Global, posters: Vec<Poster>) -> Result<Vec<Caller>, AllocError>
    ensures callers { IfOk result (λ cs. cs.items ≡ map (λ p. p.caller) posters.items) }
    ensures done { IfOk result (λ _. All (λ p. IsTrue p.done) posters.items) }
{
    if !posters.iter().all(|poster| poster.done) {
        return Err(AllocError);
    }
    posters
        .into_iter()
        .map(|poster| poster.caller)
        .collect(alloc)
}

/// Lets the callers of a new farm post all periods of their calls, each on a thread of its own, and returns the
/// callers. An error means out of memory.
pub(crate) fn post_by_all<R: Threads + Wait + Sync, G: Gate + Sync>(
    shared: &Shared<R, G>,
    callers: Vec<Caller>,
) -> Result<Vec<Caller>, AllocError>
    requires size { IsLiveDrill shared.now.drill }
    requires calls { length shared.now.live.now.slots.items ≡ shared.now.drill.calls }
    requires callers { HavePosted shared.now.drill 0
        shared.now.live.now.inbox shared.now.live.now.slots.items callers.items }
    ensures { IfOk result (λ cs. HavePosted shared.now.drill shared.now.drill.periods
        shared.now.live.now.inbox shared.now.live.now.slots.items cs.items) }
{
    let mut posters = posters_of(shared.alloc, callers)?;
    run_posters(shared, posters.as_mut_slice());
    callers_of(shared.alloc, posters)
}
