//! An open call: the halves of its leg with the octets of a round, the state of its lines, and its partner.

ghost use Rattle.std.specs.Prelude.{◌≡◌, ◌≤◌, ◌+◌, ℕ, List, [], Some, None, true, IfOk, length};
ghost use Rattle.call_number.specs.CallNumber.{IsCallNumber};
ghost use Rattle.call_leg.specs.Who.{Who};
ghost use Rattle.call_leg.specs.Periods.{CallPeriod};
ghost use Rattle.call_leg.specs.Settings.{Settings};
ghost use Rattle.call_leg.specs.Stands.{Stands};
ghost use Rattle.call_pair.specs.Phases.{leg_in, hear_from, turn_down, periods_left};
ghost use Rattle.call_pair.specs.declared.call_job.Phase.TheVariants.{First};
ghost use Rattle.round_lines.specs.Transfer.{has_failed};
ghost use Rattle.round_lines.specs.Memory.{whole_in};
ghost use Rattle.round_lines.specs.Portions.{Fits, Fills, Drains, down_given, out_given};
ghost use Rattle.round_lines.specs.Rounds.{KeepsBut, IsIncoming, IsOutgoing};
ghost use Rattle.farm_rounds.specs.Acts.{bridged_call, parted_call};
ghost use Rattle.farm_rounds.specs.Histories.{tally_of};
ghost use Rattle.farm_rounds.specs.Opens.{IsOpenCall, kept_of, portion_with, portion_of_open, new_open, with_job, open_planned, open_begun, goes_on_open, open_rested};
ghost use Rattle.farm_rounds.specs.Opens.{same_portion};
ghost use Rattle.farm_rounds.specs.Opened.{HasBuffers};

use crate::live::contains;
use crate::tally::Tally;
use call_pair::{CallJob, LegIo};
use pool_run::Work;
use round_lines::{CallLines, Outlet};
use std::alloc::{AllocError, Global};
use trau_alaw::Law;
use trau_io::Trunk;

/// An open call.
#[derive(Drop)]
pub(crate) struct OpenCall {
    pub(crate) job: CallJob,
    /// The state of its lines in the round, or between rounds in the last one.
    pub(crate) lines: CallLines,
    /// The number of its partner, if it is bridged.
    pub(crate) partner: Option<u32>,
}

impl Work for OpenCall {
    ghost use Rattle.std.proofs.Common.{ap};
    ghost use Rattle.call_pair.specs.Phases.{after_call_places};
    ghost use Rattle.farm_rounds.specs.Opens.{open_left, open_finished, with_job};
    ghost use Rattle.farm_rounds.specs.declared.open.OpenCall.{OpenCall};

    // The remaining periods of its job's phase.
    ghost left = { open_left };

    // The call with its job's phase finished.
    ghost finish = { open_finished };

    ghost number = { λ (o : OpenCall). o.job.io.call };

    // With no remaining period, the call is finished as it is.
    ghost stays = { λ x e. ap (λ n. with_job x (after_call_places n x.job)) e };

    fn call(&self) -> u32 {
        self.job.call()
    }

    fn slice(&mut self, q: u32) {
        self.job.slice(q);
    }

    fn finished(&self) -> bool {
        self.job.finished()
    }
}

// Whether a line failed before the round or in it.
fn has_failed(outlet: Outlet) -> bool
    ensures { result ≡ has_failed outlet }
{
    match outlet {
        Outlet::Sound => false,
        Outlet::FailedBefore | Outlet::FailedNow => true,
    }
}

// Reads the incoming lines into the buffers.
fn fill_io<T: Trunk>(trunk: &mut T, lines: &mut CallLines, io: &mut LegIo)
    requires { Fits lines.old.periods io.old.up io.old.pcm io.old.down io.old.out }
    ensures fills { Fills (T.lines trunk.old lines.old.call) (T.lines trunk.new lines.old.call)
        (portion_with lines.old io.old) (portion_with lines.new io.new) }
    ensures others { KeepsBut IsIncoming (T.lines trunk.old) (T.lines trunk.new) lines.old.call }
    ensures kept { io.new ≡ record io.old { up = io.new.up; pcm = io.new.pcm } }
{
    lines.fill(trunk, &mut io.up, &mut io.pcm);
}

// Writes the outgoing lines from the buffers.
fn drain_io<T: Trunk>(trunk: &mut T, lines: &mut CallLines, io: &LegIo)
    requires { Fits lines.old.periods io.now.up io.now.pcm io.now.down io.now.out }
    ensures drains { Drains (T.lines trunk.old lines.old.call) (T.lines trunk.new lines.old.call)
        (portion_with lines.old io.now) (portion_with lines.new io.now) }
    ensures others { KeepsBut IsOutgoing (T.lines trunk.old) (T.lines trunk.new) lines.old.call }
{
    lines.drain(trunk, &io.down, &io.out);
}

impl OpenCall {
    /// A call with this law before its first period, in its box.
    pub(crate) fn new(alloc: Global, call: u32, law: Law) -> Result<Box<OpenCall>, AllocError>
        requires { IsCallNumber call }
        ensures { IfOk result (λ b. b.value ≡ new_open call law) }
    {
        let job = CallJob::new(alloc, call, law)?;
        let lines = CallLines::new(call, 1, false, false);
        let opened = OpenCall {
            job,
            lines,
            partner: None,
        };
        Ok(Box::new(alloc, opened)?)
    }

    // ---- between the rounds

    /// Starts its bridge with `partner`.
    pub(crate) fn start_bridge(&mut self, partner: u32)
        requires { self.old.job.phase ≡ First }
        ensures call { (kept_of self.new).call ≡ bridged_call (kept_of self.old).call }
        ensures partner { self.new.partner ≡ Some partner }
        ensures kept { (most : ℕ) → IsOpenCall most self.old → IsOpenCall most self.new }
    {
        self.job.bridge_on();
        self.partner = Some(partner);
    }

    /// Ends its bridge. Both halves of its leg must be bridged.
    pub(crate) fn end_bridge(&mut self)
        requires first { self.old.job.phase ≡ First }
        requires up { self.old.job.up.bridged ≡ true }
        requires down { self.old.job.down.bridged ≡ true }
        ensures call { (kept_of self.new).call ≡ parted_call (kept_of self.old).call }
        ensures partner { self.new.partner ≡ None }
        ensures kept { (most : ℕ) → IsOpenCall most self.old → IsOpenCall most self.new }
    {
        self.job.bridge_off();
        self.partner = None;
    }

    /// Its tally so far.
    pub(crate) fn tally(&self) -> Tally
        ensures { (who : Who) (ts : List CallPeriod) (now : Settings) →
            Stands who ts now (leg_in self.now.job) → result ≡ tally_of ts now }
    {
        Tally {
            counts: self.job.counts(),
            sent: self.job.sent(),
        }
    }

    // ---- in a round

    /// Takes its memory for a round of `periods` periods.
    pub(crate) fn plan(&mut self, periods: u32) -> Result<(), AllocError>
        requires number { IsCallNumber self.old.lines.call }
        requires some { 1 ≤ periods }
        requires few { periods ≤ 250 }
        requires time { self.old.job.up.search.periods + periods ≤ 4294967295 }
        ensures { IfOk result (λ u. self.new ≡ open_planned periods self.old) }
    {
        let (down_failed, out_failed) = (
            has_failed(self.lines.down()),
            has_failed(self.lines.out()),
        );
        self.lines = CallLines::new(self.lines.call(), periods, down_failed, out_failed);
        self.job.plan(periods, self.partner.is_some())
    }

    /// Reads its incoming lines into its buffers.
    pub(crate) fn fill<T: Trunk>(&mut self, trunk: &mut T)
        requires { HasBuffers self.old }
        ensures fills { Fills (T.lines trunk.old self.old.lines.call)
            (T.lines trunk.new self.old.lines.call) (portion_of_open self.old)
            (portion_of_open self.new) }
        ensures others { KeepsBut IsIncoming (T.lines trunk.old) (T.lines trunk.new)
            self.old.lines.call }
        ensures kept { same_portion self.new ≡ same_portion self.old }
    {
        fill_io(trunk, &mut self.lines, &mut self.job.io);
    }

    /// How many whole periods of the round its lines gave.
    pub(crate) fn whole(&self) -> u32
        ensures value { result ≡ whole_in self.now.lines }
        ensures bound { result ≤ self.now.lines.periods }
    {
        self.lines.whole()
    }

    /// Begins its first phase. The first `bridge_end` periods of the round are bridged.
    pub(crate) fn begin(&mut self, bridge_end: u32)
        requires first { self.old.job.phase ≡ First }
        requires none { self.old.job.io.done ≡ 0 }
        requires given { self.old.job.io.given ≡ self.old.lines.periods }
        requires end { bridge_end ≤ self.old.job.bridge_end }
        ensures { self.new ≡ open_begun bridge_end self.old }
    {
        self.job.begin(self.lines.whole(), bridge_end);
    }

    /// Between the phases: takes its partner's frames, and begins its second phase.
    pub(crate) fn hear_from(&mut self, partner: &OpenCall)
        requires first { self.old.job.phase ≡ First }
        requires finished { periods_left self.old.job ≡ 0 }
        requires told { self.old.job.bridge_end ≤ length partner.now.job.notes }
        requires none { self.old.job.partner ≡ [] }
        ensures { self.new ≡ with_job self.old (hear_from partner.now.job self.old.job) }
    {
        self.job.hear_from(&partner.job);
    }

    /// Between the phases: begins the second phase of a call without a partner.
    pub(crate) fn begin_second_phase(&mut self)
        requires first { self.old.job.phase ≡ First }
        requires finished { periods_left self.old.job ≡ 0 }
        requires alone { self.old.job.bridge_end ≡ 0 }
        ensures { self.new ≡ with_job self.old (turn_down self.old.job) }
    {
        self.job.turn_down();
    }

    /// The octets that go out on Down and on Out: 40 and 160 for each whole period.
    pub(crate) fn outgoing(&self) -> (&[u8], &[u8])
        requires { HasBuffers self.now }
        ensures down { result.0.now ≡ down_given (portion_of_open self.now) }
        ensures out { result.1.now ≡ out_given (portion_of_open self.now) }
    {
        let whole = self.lines.whole() as usize;
        let io = &self.job.io;
        (&io.down[..40 * whole], &io.out[..160 * whole])
    }

    /// Writes its outgoing lines.
    pub(crate) fn drain<T: Trunk>(&mut self, trunk: &mut T)
        requires { HasBuffers self.old }
        ensures drains { Drains (T.lines trunk.old self.old.lines.call)
            (T.lines trunk.new self.old.lines.call) (portion_of_open self.old)
            (portion_of_open self.new) }
        ensures others { KeepsBut IsOutgoing (T.lines trunk.old) (T.lines trunk.new)
            self.old.lines.call }
        ensures job { self.new.job ≡ self.old.job }
        ensures partner { self.new.partner ≡ self.old.partner }
    {
        drain_io(trunk, &mut self.lines, &self.job.io);
    }

    // ---- after a round

    /// Whether its lines gave all periods of the round.
    pub(crate) fn goes_on(&self) -> bool
        ensures { result ≡ goes_on_open self.now }
    {
        self.lines.whole() == self.lines.periods()
    }

    /// Resets its job after a round. If its partner isn't in `live`, it has none any more.
    pub(crate) fn rest(&mut self, live: &[u32])
        ensures { self.new ≡ open_rested live.now self.old }
    {
        self.job.rest();
        if let Some(partner) = self.partner {
            if !contains(live, partner) {
                self.partner = None;
            }
        }
    }
}
