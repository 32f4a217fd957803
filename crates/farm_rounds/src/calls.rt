//! What a round does to all open calls of a farm. The calls are in rising order of their numbers.

ghost use Rattle.std.specs.Prelude.{◌≡◌, ◌≢◌, ◌+◌, ◌-◌, ◌*◌, ◌<◌, ◌≤◌, ◌++◌, ℕ, Some, None, [], length, map, flat_map, filter, IfOk, vec_len, vec_capacity, min};
ghost use Rattle.std.specs.List.{All, filter_map};
ghost use Rattle.call_number.specs.declared.TheConstants.{NUMBERS};
ghost use Rattle.round_lines.specs.Memory.{failed_in_round, line_name};
ghost use Rattle.round_lines.specs.Portions.{Fills, Drains};
ghost use Rattle.round_lines.specs.Rounds.{Rising, Each, KeepsButEach, IsIncoming, IsOutgoing, EndsWithin, portion_end};
ghost use Rattle.farm_rounds.specs.Memory.{tally_in};
ghost use Rattle.farm_rounds.specs.Numbers.{IsRising};
ghost use Rattle.farm_rounds.specs.Opens.{opens_in, portions_of, IsOpenCall, with_job, open_planned, goes_on_open, open_rested};
ghost use Rattle.farm_rounds.specs.Opened.{open_at, same_portions, same_calls, standings, end_beside, all_begun, all_met, TallyKept, HasBuffers, ArePaired, IsReady, OctetsFit, IsTold};
ghost use Rattle.call_pair.specs.Phases.{hear_from, periods_left};
ghost use Rattle.call_pair.specs.declared.call_job.Phase.TheVariants.{First};

use crate::live::index_of;
use crate::open::OpenCall;
use crate::tally::Tally;
use std::alloc::AllocError;
use trau_io::{CallEnd, Line, Trunk};

/// The open calls, what was counted of each ended call, and the lines that have failed. `Farm`, `Round` and `Worked`
/// each have one. What holds of the calls in it differs, so it has no invariant of its own.
#[derive(Drop)]
pub(crate) struct Calls {
    /// In rising order of their numbers, which `live` lists.
    pub(crate) open: Vec<Box<OpenCall>>,
    pub(crate) live: Vec<u32>,
    /// At the index of each call's number.
    pub(crate) tallies: Vec<Tally>,
    /// Each once, in rising order of their indices.
    pub(crate) failed: Vec<Line>,
    /// The first period after the last round; of a round, the first one after it.
    pub(crate) ended: u32,
}

/// Takes the memory of each call for a round of `periods` periods.
pub(crate) fn plan_all(calls: &mut [Box<OpenCall>], periods: u32) -> Result<(), AllocError>
    requires some { 1 ≤ periods }
    requires few { periods ≤ 250 }
    requires time { All (IsOpenCall (4294967295 - periods)) (opens_in calls.old) }
    ensures planned { IfOk result (λ u. opens_in calls.new
        ≡ map (open_planned periods) (opens_in calls.old)) }
{
    for call in calls.iter_mut() {
        call.plan(periods)?;
    }
    Ok(())
}

/// Reads the incoming lines of each call.
pub(crate) fn fill_all<T: Trunk>(trunk: &mut T, calls: &mut [Box<OpenCall>])
    requires rising { Rising (portions_of calls.old) }
    requires fits { All HasBuffers (opens_in calls.old) }
    ensures fills { Each Fills (T.lines trunk.old) (T.lines trunk.new) (portions_of calls.old)
        (portions_of calls.new) (length calls.old) }
    ensures others { KeepsButEach IsIncoming (T.lines trunk.old) (T.lines trunk.new)
        (portions_of calls.old) (length calls.old) }
    ensures kept { same_portions calls.new ≡ same_portions calls.old }
    ensures rising { Rising (portions_of calls.new) }
{
    for call in calls.iter_mut() {
        call.fill(trunk);
    }
}

// How many periods of the round are bridged: those that the lines of both calls gave; 0 without a partner.
fn bridge_end(calls: &[Box<OpenCall>], live: &[u32], at: usize) -> u32
    requires at { at < length calls.now }
    requires paired { ArePaired live.now (standings calls.now) }
    ensures end { result ≡ end_beside (standings calls.now) (open_at calls.now at) }
    ensures within { result ≤ (open_at calls.now at).lines.periods }
{
    match calls[at].partner {
        Some(partner) => {
            let other = index_of(live, partner);
            calls[at].whole().min(calls[other].whole())
        }
        None => 0,
    }
}

/// Begins the first phase of each call.
pub(crate) fn begin_all(calls: &mut [Box<OpenCall>], live: &[u32])
    requires paired { ArePaired live.now (standings calls.old) }
    requires ready { All IsReady (opens_in calls.old) }
    ensures { opens_in calls.new ≡ all_begun (standings calls.old) (opens_in calls.old) }
{
    for at in 0..calls.len() {
        let end = bridge_end(calls, live, at);
        calls[at].begin(end);
    }
}

// Hands a call its partner's frames, and begins its second phase. The partner is at another index.
fn meet(calls: &mut [Box<OpenCall>], at: usize, from: usize)
    requires at { at < length calls.old }
    requires from { from < length calls.old }
    requires apart { at ≢ from }
    requires first { (open_at calls.old at).job.phase ≡ First }
    requires finished { periods_left (open_at calls.old at).job ≡ 0 }
    requires told { (open_at calls.old at).job.bridge_end
        ≤ length (open_at calls.old from).job.notes }
    requires none { (open_at calls.old at).job.partner ≡ [] }
    ensures heard { open_at calls.new at ≡ with_job (open_at calls.old at)
        (hear_from (open_at calls.old from).job (open_at calls.old at).job) }
    ensures others { (k : ℕ) → k ≢ at → open_at calls.new k ≡ open_at calls.old k }
    ensures length { length calls.new ≡ length calls.old }
{
    if at < from {
        let (low, high) = calls.split_at_mut(from);
        low[at].hear_from(&high[0]);
    } else {
        let (low, high) = calls.split_at_mut(at);
        high[0].hear_from(&low[from]);
    }
}

/// Between the phases: hands each bridged call its partner's frames, and begins the second phase of each call.
pub(crate) fn meet_all(calls: &mut [Box<OpenCall>], live: &[u32])
    requires paired { ArePaired live.now (standings calls.old) }
    requires told { All (IsTold (opens_in calls.old)) (opens_in calls.old) }
    ensures { opens_in calls.new ≡ all_met (opens_in calls.old) }
{
    for at in 0..calls.len() {
        match calls[at].partner {
            Some(partner) => meet(calls, at, index_of(live, partner)),
            None => calls[at].begin_second_phase(),
        }
    }
}

/// Writes the outgoing lines of each call.
pub(crate) fn drain_all<T: Trunk>(trunk: &mut T, calls: &mut [Box<OpenCall>])
    requires rising { Rising (portions_of calls.old) }
    requires fits { All HasBuffers (opens_in calls.old) }
    ensures drains { Each Drains (T.lines trunk.old) (T.lines trunk.new) (portions_of calls.old)
        (portions_of calls.new) (length calls.old) }
    ensures others { KeepsButEach IsOutgoing (T.lines trunk.old) (T.lines trunk.new)
        (portions_of calls.old) (length calls.old) }
    ensures kept { same_calls calls.new ≡ same_calls calls.old }
{
    for call in calls.iter_mut() {
        call.drain(trunk);
    }
}

/// Appends the ends of the calls that end in the round that begins at period `start`. `ends` has room for one end per
/// call.
pub(crate) fn list_ends(calls: &[Box<OpenCall>], start: u32, ends: &mut Vec<CallEnd>)
    requires within { EndsWithin start (portions_of calls.now) }
    requires room { vec_len ends.old + length calls.now ≤ vec_capacity ends.old }
    ensures listed { ends.new.items ≡ ends.old.items
        ++ filter_map (portion_end start) (portions_of calls.now) }

    // For the prover: what the types of each call's octets and lines keep true.
    ensures sound { All OctetsFit (opens_in calls.now) }
{
    for call in calls {
        crate::laws::octets_fit(call);
        if let Some(end) = call.lines.end(start) {
            ends.push_reserved(end);
        }
    }
}

/// Appends the lines that failed in the round, each call's in the order Up, Pcm, Down, Out. `failed` has room for four
/// lines per call.
pub(crate) fn list_failed(calls: &[Box<OpenCall>], failed: &mut Vec<Line>)
    requires room { vec_len failed.old + 4 * length calls.now ≤ vec_capacity failed.old }
    ensures { map line_name failed.new.items ≡ map line_name failed.old.items
        ++ flat_map (λ s. failed_in_round s.lines) (portions_of calls.now) }
{
    for call in calls {
        call.lines.list_failed(failed);
    }
}

/// Keeps the tallies of the calls that end.
pub(crate) fn keep_tallies(calls: &[Box<OpenCall>], tallies: &mut [Tally])
    requires rising { IsRising (map (λ o. o.job.io.call) (opens_in calls.now)) }
    requires places { All (λ o. o.lines.call ≡ o.job.io.call) (opens_in calls.now) }
    requires number { length tallies.old ≡ NUMBERS }
    ensures kept { (c : ℕ) →
        TallyKept (opens_in calls.now) c (tally_in tallies.old c) (tally_in tallies.new c) }
    ensures number { length tallies.new ≡ NUMBERS }
{
    for call in calls {
        if !call.goes_on() {
            tallies[call.lines.call() as usize] = call.tally();
        }
    }
}

// Removes the calls that end, in place.
fn keep(calls: &mut Vec<Box<OpenCall>>)
    ensures calls { opens_in calls.new.items ≡ filter goes_on_open (opens_in calls.old.items) }
    ensures number { vec_len calls.new ≤ vec_len calls.old }
{
    calls.retain(|call| call.goes_on());
}

// Lists the numbers of the calls in `live`.
fn list_numbers(calls: &[Box<OpenCall>], live: &mut Vec<u32>)
    requires { length calls.now ≤ vec_capacity live.old }
    ensures { live.new.items ≡ map (λ o. o.lines.call) (opens_in calls.now) }
{
    live.clear();
    for call in calls {
        live.push_reserved(call.lines.call());
    }
}

// Resets each call after a round.
fn rest_all(calls: &mut [Box<OpenCall>], live: &[u32])
    ensures { opens_in calls.new ≡ map (open_rested live.now) (opens_in calls.old) }
{
    for call in calls.iter_mut() {
        call.rest(live);
    }
}

/// Removes the calls that end, lists the numbers of the others in `live`, and resets these after the round.
pub(crate) fn keep_open(calls: &mut Vec<Box<OpenCall>>, live: &mut Vec<u32>)
    requires room { vec_len calls.old ≤ vec_capacity live.old }
    ensures live { live.new.items
        ≡ map (λ o. o.lines.call) (filter goes_on_open (opens_in calls.old.items)) }
    ensures calls { opens_in calls.new.items
        ≡ map (open_rested live.new.items) (filter goes_on_open (opens_in calls.old.items)) }
{
    keep(calls);
    list_numbers(calls, live);
    rest_all(calls, live);
}
