//! A round before its calls are processed.

ghost use Rattle.std.specs.Prelude.{◌≡◌, ℕ, ◌+◌, ◌*◌, ◌<◌, ◌≤◌, [], length, vec_capacity, Option, Some, slice_index, IfOk, map};
ghost use Rattle.std.specs.Option.{option_map};
ghost use Rattle.std.specs.List.{filter_map};
ghost use Rattle.round_lines.specs.Portions.{Fills};
ghost use Rattle.round_lines.specs.Rounds.{Each, KeepsButEach, IsIncoming, Rising, call_at, portion_at, portion_end};
ghost use Rattle.farm_rounds.specs.Calls.{call_in, partner_in};
ghost use Rattle.farm_rounds.specs.Numbers.{IsRising};
ghost use Rattle.farm_rounds.specs.Failed.{AreFailed};
ghost use Rattle.farm_rounds.specs.Histories.{CallHistory, CallsStand};
ghost use Rattle.farm_rounds.specs.Opens.{portion_with};
ghost use Rattle.farm_rounds.specs.Rounds.{EndsShort, IsUnread};
ghost use Rattle.farm_rounds.specs.Finishing.{half_worked};
ghost use Rattle.farm_rounds.specs.RoundHistories.{portion_for, worked_histories, WorkedStand, AreWorked};

use crate::calls::{Calls, begin_all, fill_all, list_ends, meet_all, plan_all};
use crate::farm::Farm;
use crate::open::OpenCall;
use crate::worked::Worked;
use pool_run::{Gate, PoolRoom, run_pool};
use std::alloc::{AllocError, Global};
use std::marker::Model;
use std::sync::Wait;
use std::thread::Threads;
use trau_io::{CallEnd, Line, Trunk};

/// A planned round of the open calls, with all the memory that it needs.
#[derive(Drop)]
pub struct Round {
    start: u32,
    calls: Calls,
    ends: Vec<CallEnd>,
    // The memory of the pools of both phases.
    first: PoolRoom<OpenCall>,
    second: PoolRoom<OpenCall>,
}

impl Model for Round {
    ghost use Rattle.std.specs.Prelude.{◌≡◌, ◌+◌, ◌*◌, ◌≤◌, [], length, vec_capacity};
    ghost use Rattle.call_number.specs.declared.TheConstants.{NUMBERS};
    ghost use Rattle.farm_rounds.specs.Opens.{opens_in, farm_of, portions_of};
    ghost use Rattle.farm_rounds.specs.Working.{RoundMemory, IsRound};
    ghost use Rattle.farm_rounds.specs.Failed.{AreFailedBefore};

    ghost Value = { RoundMemory };

    ghost view = { λ r. record {
      start = r.start;
      farm = farm_of r.calls;
      portions = portions_of r.calls.open.items;
    } };

    ghost invariant = { λ r.
        IsRound r.start r.calls.ended r.calls.live.items (opens_in r.calls.open.items)
        × (r.ends.items ≡ []) × (length r.calls.live.items ≤ vec_capacity r.ends)
        × (length r.calls.live.items ≤ r.first) × (length r.calls.live.items ≤ r.second)
        × (length r.calls.tallies.items ≡ NUMBERS)
        × (length r.calls.failed.items + 4 * length r.calls.live.items
        ≤ vec_capacity r.calls.failed)
        × AreFailedBefore r.calls.failed.items (opens_in r.calls.open.items) };
}

// Takes the memory of a round of `calls` calls: in `failed` for four lines per call, then for an end per call and for
// the pools of both phases.
fn take_memory(
    alloc: Global,
    failed: &mut Vec<Line>,
    calls: usize,
    workers: u32,
) -> Result<(Vec<CallEnd>, PoolRoom<OpenCall>, PoolRoom<OpenCall>), AllocError>
    requires calls { calls ≤ 4096 }
    requires some_workers { 1 ≤ workers }
    requires few_workers { workers ≤ 64 }
    ensures kept { failed.new.items ≡ failed.old.items }
    ensures failed { IfOk result (λ r. length failed.new.items + 4 * calls
        ≤ vec_capacity failed.new) }
    ensures none { IfOk result (λ r. r.0.items ≡ []) }
    ensures ends { IfOk result (λ r. calls ≤ vec_capacity r.0) }
    ensures first { IfOk result (λ r. r.1 ≡ calls) }
    ensures second { IfOk result (λ r. r.2 ≡ calls) }
{
    failed.reserve(4 * calls)?;
    let ends = Vec::with_capacity(alloc, calls)?;
    let first = PoolRoom::reserve(alloc, workers, calls as u32)?;
    let second = PoolRoom::reserve(alloc, workers, calls as u32)?;
    Ok((ends, first, second))
}

impl Round {
    /// Plans a round of `periods` periods, 1 to 250, from period `start` on, for 1 to 64 workers, and takes all its
    /// memory. `start` isn't before the end of the farm's last round, and `start + periods` is at most 4,294,967,295.
    /// On an error the farm is lost.
    pub fn plan(
        alloc: Global,
        farm: Farm,
        start: u32,
        periods: u32,
        workers: u32,
    ) -> Result<Round, AllocError>
        requires some { 1 ≤ periods }
        requires few { periods ≤ 250 }
        requires some_workers { 1 ≤ workers }
        requires few_workers { workers ≤ 64 }
        requires last { start + periods ≤ 4294967295 }
        requires later { farm.ended ≤ start }

        // The round's periods, the farm, and a portion for each open call.
        ensures start { IfOk result (λ r. r.start ≡ start) }
        ensures farm { IfOk result (λ r. r.farm ≡ record farm { ended = start + periods }) }
        ensures number { IfOk result (λ r. length r.portions ≡ length farm.live) }
        ensures portions { IfOk result (λ r. (k : ℕ) → k < length farm.live →
            let c = slice_index farm.live k in
            portion_at r.portions k ≡ portion_for periods c (call_in farm.calls c)) }

        // The calls are in rising order of their numbers.
        ensures order { IfOk result (λ r. IsRising (map (λ k. k.call.number) r.farm.calls)) }

        // Each line that failed before is listed once, and each open call knows which of its lines are.
        ensures known { IfOk result (λ r. AreFailed farm.failed farm.calls) }
    {
        let Farm { mut calls } = farm;
        plan_all(&mut calls.open, periods)?;
        let (ends, first, second) = take_memory(
            alloc,
            &mut calls.failed,
            calls.live.len(),
            workers,
        )?;
        calls.ended = start + periods;
        Ok(Round {
            start,
            calls,
            ends,
            first,
            second,
        })
    }

    /// Reads the incoming lines of each call. Call it once in a round: a second time it would overwrite the octets with
    /// the line's next ones.
    pub fn fill<T: Trunk>(&mut self, trunk: &mut T)
        requires once { (k : ℕ) → k < length self.old.portions →
            IsUnread (portion_at self.old.portions k).lines }
        ensures fills { Each Fills (T.lines trunk.old) (T.lines trunk.new) self.old.portions
            self.new.portions (length self.old.portions) }
        ensures others { KeepsButEach IsIncoming (T.lines trunk.old) (T.lines trunk.new)
            self.old.portions (length self.old.portions) }
        ensures kept { self.new ≡ record self.old { portions = self.new.portions } }
        ensures number { length self.new.portions ≡ length self.old.portions }
        ensures rising { Rising self.new.portions }

        // A line that failed gave fewer octets than the round takes of it.
        ensures short { (k : ℕ) → k < length self.new.portions →
            EndsShort (portion_at self.new.portions k).lines }
    {
        fill_all(trunk, &mut self.calls.open);
    }

    /// Processes the round: the workers of its pool process its calls in slices of `slice` periods, at least 1. Each
    /// slice passes the gate. The function waits for the workers; that it returns isn't proved. Call `fill` before it:
    /// without it no line has given an octet, and each call ends at the round's start for want of its uplink.
    pub fn work<R: Threads + Wait + Sync, G: Gate + Sync>(
        self,
        rt: &R,
        slice: u32,
        gate: &G,
    ) -> Worked
        requires { 1 ≤ slice }

        // Of the farm only the calls change. They keep the state of their lines and their partners. The ends of those
        // that end in the round are listed in call-number order.
        ensures farm { result.farm ≡ record self.farm { calls = result.farm.calls } }
        ensures number { length result.portions ≡ length self.portions }
        ensures places { (k : ℕ) → k < length self.portions → (portion_at result.portions k).lines
            ≡ (portion_at self.portions k).lines }
        ensures calls { (k : ℕ) → k < length self.portions →
            call_at result.portions k ≡ call_at self.portions k }
        ensures rising { Rising result.portions }
        ensures partners { (c : ℕ) → partner_in result.farm.calls c ≡ partner_in self.farm.calls c }
        ensures ends { result.ends ≡ filter_map (portion_end self.start) result.portions }

        // `half_worked` runs a `Job` of call_pair to its end: that of the call alone, or of the call and its partner.
        // Each has the octets of its portion. The call then has the leg and the buffers of its half.
        ensures legs { (k : ℕ) → k < length self.portions → let c = call_at self.portions k in
            option_map (λ x. x.leg) (call_in result.farm.calls c) ≡ Some (half_worked self c).leg }
        ensures buffers { (k : ℕ) → k < length self.portions → let s = portion_at self.portions k in
            portion_at result.portions k ≡ portion_with s.lines (half_worked self s.lines.call).io }

        // For every history `h` that is possible for these calls (`CallsStand h`): after the round they have `h` and
        // the round's periods, and their outgoing buffers begin with the octets of these periods.
        ensures stands { (h : ℕ → Option CallHistory) → CallsStand h self.farm.calls →
            WorkedStand (worked_histories self.portions (partner_in self.farm.calls) h) result }
        ensures octets { (h : ℕ → Option CallHistory) → CallsStand h self.farm.calls →
            AreWorked self.portions (worked_histories self.portions (partner_in self.farm.calls) h)
            result.portions }
    {
        let Round {
            start,
            calls,
            mut ends,
            first,
            second,
        } = self;
        let Calls {
            mut open,
            live,
            tallies,
            failed,
            ended,
        } = calls;
        begin_all(&mut open, &live);
        let mut halfway = run_pool(rt, first, open, slice, gate);
        meet_all(&mut halfway, &live);
        let open = run_pool(rt, second, halfway, slice, gate);
        list_ends(&open, start, &mut ends);
        Worked {
            calls: Calls {
                open,
                live,
                tallies,
                failed,
                ended,
            },
            ends,
        }
    }
}
