//! The farm.

ghost use Rattle.std.specs.Prelude.{◌≡◌, ◌<◌, ◌≢◌, ℕ, false, is_some, Option, Some, None, List, map, IfOk, IfErr};
ghost use Rattle.std.specs.List.Sorted.{IsStrictlyIncreasing};
ghost use Rattle.trau_io.specs.declared.line.Side.{Side};
ghost use Rattle.trau_io.specs.Indices.{index_of_line};
ghost use Rattle.switchboard.specs.declared.act.Act.TheVariants.{Opened, Closed};
ghost use Rattle.switchboard.specs.Open.{partner_after};
ghost use Rattle.call_leg.specs.Periods.{CallPeriod};
ghost use Rattle.call_leg.specs.Settings.{Settings};
ghost use Rattle.call_leg.specs.Counted.{call_counts};
ghost use Rattle.call_leg.specs.Places.{sent_now};
ghost use Rattle.call_leg.specs.Who.{Who};
ghost use Rattle.call_leg.specs.Stands.{Stands};
ghost use Rattle.call_number.specs.CallNumber.{IsCallNumber};
ghost use Rattle.farm_rounds.specs.Calls.{Call, call_in, partner_in};
ghost use Rattle.farm_rounds.specs.Numbers.{IsRising, is_among};
ghost use Rattle.farm_rounds.specs.Memory.{FarmMemory, home_memory, tally_in};
ghost use Rattle.farm_rounds.specs.Acts.{IsOpen, IsOpening, ActFits, Applied, calls_after};
ghost use Rattle.farm_rounds.specs.Failed.{is_listed, NoneListed};
ghost use Rattle.farm_rounds.specs.Opens.{AreMutual};
ghost use Rattle.farm_rounds.specs.Histories.{CallHistory, CallsStand, NoneWaitsIn, histories_after, tallies_after, tally_of};

use crate::acts;
use crate::calls::Calls;
use crate::tally::{NO_TALLY, Tally};
use call_number::NUMBERS;
use std::alloc::{AllocError, Global};
use std::marker::Model;
use switchboard::Act;
use trau_alaw::Law;
use trau_io::{Counts, Line};

/// All open calls, what was counted of each ended call, and the lines that have failed.
#[derive(Drop)]
pub struct Farm {
    pub(crate) calls: Calls,
}

impl Model for Farm {
    ghost use Rattle.std.specs.Prelude.{◌≡◌, length};
    ghost use Rattle.call_number.specs.declared.TheConstants.{NUMBERS};
    ghost use Rattle.farm_rounds.specs.Opens.{opens_in, calls_of, farm_of, AreOpen};
    ghost use Rattle.farm_rounds.specs.Memory.{FarmMemory};
    ghost use Rattle.farm_rounds.specs.Failed.{AreFailed};

    ghost Value = { FarmMemory };

    ghost view = { λ f. farm_of f.calls };

    ghost invariant = { λ f. AreOpen f.calls.ended f.calls.live.items (opens_in f.calls.open.items)
        × (length f.calls.tallies.items ≡ NUMBERS)
        × AreFailed f.calls.failed.items (calls_of f.calls.open.items) };
}

impl Farm {
    /// A farm with no call.
    pub fn new(alloc: Global) -> Result<Farm, AllocError>
        ensures value { IfOk result (λ f. f ≡ home_memory) }
        ensures history { IfOk result (λ f. CallsStand (λ c. None) f.calls) }
    {
        Ok(Farm {
            calls: Calls {
                open: Vec::new(alloc),
                live: Vec::new(alloc),
                tallies: vec![in alloc; NO_TALLY; NUMBERS]?,
                failed: Vec::new(alloc),
                ended: 0,
            },
        })
    }

    /// Applies an accepted order to the calls, before the first round or between two rounds. Only an order that opens a
    /// call takes memory. On an error nothing has changed. `fresh`: no line of a call that is opened may have failed.
    /// The board opens each number once, so none has.
    pub fn apply(&mut self, alloc: Global, act: &Act) -> Result<(), AllocError>
        requires fits { ActFits self.old.calls act.now }
        requires fresh { NoneListed act.now self.old.failed }

        // Each call afterwards, and its partner.
        ensures calls { IfOk result (λ u. (c : ℕ) →
            call_in self.new.calls c ≡ calls_after act.now (call_in self.old.calls) c) }
        ensures partners { IfOk result (λ u. (c : ℕ) →
            partner_in self.new.calls c ≡ partner_after act.now (partner_in self.old.calls) c) }
        ensures failed { self.new.failed ≡ self.old.failed }
        ensures ended { self.new.ended ≡ self.old.ended }
        ensures refused { IfErr result (λ e. self.new ≡ self.old) }
        ensures memory { IfErr result (λ e. IsOpening act.now) }

        // For every history `h` that is possible for these calls (`CallsStand h`): afterwards they have the histories
        // after the act, and the tally of a call that it ends is kept. The premise `NoneWaitsIn`: if the act starts a
        // bridge, no handed frame waits in its two calls.
        ensures history { IfOk result (λ u. (h : ℕ → Option CallHistory) → NoneWaitsIn act.now h →
            CallsStand h self.old.calls → CallsStand (histories_after act.now h) self.new.calls) }
        ensures tallies { IfOk result (λ u. (h : ℕ → Option CallHistory) →
            CallsStand h self.old.calls → (c : ℕ) →
            tally_in self.new.tallies c ≡ tallies_after act.now h (tally_in self.old.tallies) c) }
    {
        match *act {
            Act::Opened { call, law } => return self.open(alloc, call, law),
            Act::Closed { call, .. } => self.close(call),
            Act::Bridged { a, b } => acts::bridge(&mut self.calls.open, &self.calls.live, a, b),
            Act::Unbridged { a, b } => acts::unbridge(&mut self.calls.open, &self.calls.live, a, b),
            Act::LevelSet { call, level } => acts::set_level(
                &mut self.calls.open,
                &self.calls.live,
                call,
                level,
            ),
            Act::DtxSet { call, mode } => acts::set_dtx(
                &mut self.calls.open,
                &self.calls.live,
                call,
                mode,
            ),
        }
        Ok(())
    }

    // Opens a call with this law.
    fn open(&mut self, alloc: Global, call: u32, law: Law) -> Result<(), AllocError>
        requires fits { ActFits self.old.calls (Opened call law) }
        requires fresh { (s : Side) → is_listed self.old.failed call s ≡ false }
        ensures before { AreMutual self.old.calls }
        ensures applied { IfOk result
            (λ u. Applied (Opened call law) self.old.calls self.new.calls) }
        ensures refused { IfErr result (λ e. self.new ≡ self.old) }
        ensures others { self.new ≡ record self.old
            { calls = self.new.calls; live = self.new.live } }
    {
        acts::open(alloc, &mut self.calls.open, &mut self.calls.live, call, law)
    }

    // Ends a call and its bridge. Its partner goes on alone.
    fn close(&mut self, call: u32)
        requires { IsOpen self.old.calls call }
        ensures before { AreMutual self.old.calls }
        ensures applied { Applied (Closed call (partner_in self.old.calls call)) self.old.calls
            self.new.calls }
        ensures others { self.new ≡ record self.old
            { calls = self.new.calls; live = self.new.live; tallies = self.new.tallies } }
        ensures tallies { (c : ℕ) → c ≢ call →
            tally_in self.new.tallies c ≡ tally_in self.old.tallies c }
        ensures tally { (x : Call) (who : Who) (ts : List CallPeriod) (now : Settings) →
            call_in self.old.calls call ≡ Some x → Stands who ts now x.leg →
            tally_in self.new.tallies call ≡ tally_of ts now }
    {
        let tally = acts::close(&mut self.calls.open, &mut self.calls.live, call);
        self.calls.tallies[call as usize] = tally;
    }

    // The tally of an open call so far. Of any other call, the tally that is kept.
    fn tally(&self, call: u32) -> Tally
        requires { call < NUMBERS }
        ensures live { (x : Call) (who : Who) (ts : List CallPeriod) (now : Settings) →
            call_in self.now.calls call ≡ Some x → Stands who ts now x.leg →
            result ≡ tally_of ts now }
        ensures ended { call_in self.now.calls call ≡ None →
            result ≡ tally_in self.now.tallies call }
    {
        match self.calls.live.binary_search(&call) {
            Ok(at) => self.calls.open[at].tally(),
            Err(_) => self.calls.tallies[call as usize],
        }
    }

    /// What was counted of a call so far, or until it ended.
    pub fn counts(&self, call: u32) -> Counts
        requires { IsCallNumber call }
        ensures live { (h : ℕ → Option CallHistory) (x : CallHistory) →
            CallsStand h self.now.calls → h call ≡ Some x → result ≡ call_counts x.periods }
        ensures ended { call_in self.now.calls call ≡ None →
            result ≡ (tally_in self.now.tallies call).counts }
    {
        self.tally(call).counts
    }

    /// How many handed frames of its latest bridge a call sent, so far or until the call ended; 0 before its first
    /// bridge.
    pub fn sent(&self, call: u32) -> u32
        requires { IsCallNumber call }
        ensures live { (h : ℕ → Option CallHistory) (x : CallHistory) →
            CallsStand h self.now.calls → h call ≡ Some x → result ≡ sent_now x.periods x.now }
        ensures ended { call_in self.now.calls call ≡ None →
            result ≡ (tally_in self.now.tallies call).sent }
    {
        self.tally(call).sent
    }

    /// The lines that have failed, each once, in call-number order, and a call's in the order Up, Pcm, Down, Out.
    pub fn failed(&self) -> &[Line]
        ensures value { result.now ≡ self.now.failed }
        ensures once { IsStrictlyIncreasing (map (λ l. index_of_line l.call l.side) result.now) }
    {
        self.calls.failed.as_slice()
    }

    /// The numbers of the open calls, in rising order.
    pub fn live_calls(&self) -> &[u32]
        ensures value { result.now ≡ self.now.live }
        ensures calls { (c : ℕ) → is_among result.now c ≡ is_some (call_in self.now.calls c) }
        ensures rising { IsRising result.now }
    {
        self.calls.live.as_slice()
    }
}
