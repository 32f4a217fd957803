//! The job of one call, in two phases.

ghost use Rattle.std.specs.Prelude.{◌≡◌, ◌+◌, ◌<◌, ◌≤◌, pos, ◌≤ℤ◌, [], length, map, take, true, vec_capacity, IfOk};
ghost use Rattle.call_number.specs.CallNumber.{IsCallNumber};
ghost use Rattle.rx_handler.specs.State.{effective_fields};
ghost use Rattle.call_leg.specs.Memory.{home_memory, periods_of_leg};
ghost use Rattle.call_leg.specs.Step.{with_down, begin_bridge, bridge_over, set_level, set_mode};
ghost use Rattle.call_pair.specs.Memory.{no_octets};
ghost use Rattle.call_pair.specs.Periods.{has_period};
ghost use Rattle.call_pair.specs.Phases.{note_at, up_place, down_place, call_place, periods_left, turn_down, job_at_start, frames_in};
ghost use Rattle.call_pair.specs.Phases.{leg_in, with_leg, at_rest, plan, begin, hear_from};
ghost use Rattle.call_pair.specs.declared.call_job.Phase.TheVariants.{First, Second};

use crate::io::LegIo;
use crate::turn::{work_down, work_up};
use call_leg::{DownLeg, Leg, UpLeg, UpNote};
use pool_run::Work;
use rx_handler::Effective;
use std::alloc::{AllocError, Global};
use std::marker::Model;
use trau_alaw::Law;
use trau_io::Counts;
use trau_orders::DtxMode;

/// The phases of a round.
#[derive(Clone, Copy)]
pub enum Phase {
    /// All uplink halves.
    First,
    /// All downlink halves.
    Second,
}

/// What a round does for one call: its uplink halves place by place, then its downlink halves. `io.done` counts the
/// finished places of the present phase.
#[derive(Drop)]
pub struct CallJob {
    pub up: UpLeg,
    pub down: DownLeg,
    pub io: LegIo,
    /// The uplink's note of each finished place of the first phase.
    pub notes: Vec<UpNote>,
    /// The partner's effective frames, by place.
    pub partner: Vec<Effective>,
    /// The place at which a bridge ends: the lesser `given` of the two calls; 0 without a bridge.
    pub bridge_end: u32,
    pub phase: Phase,
}

impl Model for CallJob {
    ghost use Rattle.std.specs.Prelude.{map, vec_capacity};
    ghost use Rattle.rx_handler.specs.State.{effective_fields};
    ghost use Rattle.call_pair.specs.Phases.{CallMemory};
    ghost use Rattle.call_pair.specs.Kept.{IsJob};

    ghost Value = { CallMemory };

    ghost view = { λ j. record {
      up = j.up;
      down = j.down;
      io = j.io;
      notes = j.notes.items;
      partner = map effective_fields j.partner.items;
      bridge_end = j.bridge_end;
      phase = j.phase;
    } };

    ghost invariant = { λ j. IsJob j.phase (record {
      up = j.up;
      down = j.down;
      io = j.io;
      notes = j.notes.items;
      partner = map effective_fields j.partner.items;
      bridge_end = j.bridge_end;
      phase = j.phase;
    }) (vec_capacity j.notes) (vec_capacity j.partner) };
}

// What `plan` takes for a place of a bridged call beside its octets: a note, and a frame of its partner.
const _: () = prove!(size_of::<UpNote>() + size_of::<Effective>() <= 256);

impl CallJob {
    /// The job of a new call with this number and law, at rest.
    pub fn new(alloc: Global, call: u32, law: Law) -> Result<CallJob, AllocError>
        requires { IsCallNumber call }
        ensures { IfOk result (λ j. j ≡ job_at_start 0 (record {
          leg = home_memory (record { number = call; law = law });
          io = no_octets call;
        })) }
    {
        let (up, down) = Leg::new(alloc, call, law)?.split();
        Ok(CallJob {
            up,
            down,
            io: LegIo::none(alloc, call),
            notes: Vec::new(alloc),
            partner: Vec::new(alloc),
            bridge_end: 0,
            phase: Phase::First,
        })
    }

    /// Puts the job at its start, without any place. Its buffers stay.
    pub fn rest(&mut self)
        ensures { self.new ≡ at_rest self.old }
    {
        self.up.agree(&self.down);
        self.io.rest();
        self.phase = Phase::First;
        self.bridge_end = 0;
        self.partner.clear();
        self.notes.clear();
    }

    /// Takes the memory for `periods` places, and for a bridged call also for as many frames of its partner. The
    /// job is at its start then, with all these places given.
    pub fn plan(&mut self, periods: u32, bridged: bool) -> Result<(), AllocError>
        requires { periods_of_leg (leg_in self.old) + periods ≤ 4294967295 }
        ensures { IfOk result (λ u. self.new ≡ plan periods bridged self.old) }
    {
        self.rest();
        let heard = if bridged { periods } else { 0 };
        self.notes.reserve(periods as usize)?;
        self.partner.reserve(heard as usize)?;
        self.io.plan(periods)?;
        self.bridge_end = heard;
        Ok(())
    }

    /// Sets how many places are given and where a bridge ends, both at most as planned.
    pub fn begin(&mut self, given: u32, bridge_end: u32)
        requires first { self.old.phase ≡ First }
        requires none { self.old.io.done ≡ 0 }
        requires given { given ≤ self.old.io.given }
        requires end { bridge_end ≤ self.old.bridge_end }
        ensures { self.new ≡ begin given bridge_end self.old }
    {
        self.io.give(given);
        self.bridge_end = bridge_end;
    }

    /// Between the phases, when the first is finished: takes over the partner's frames of the places before the
    /// bridge's end, and begins the second phase.
    pub fn hear_from(&mut self, partner: &CallJob)
        requires first { self.old.phase ≡ First }
        requires finished { periods_left self.old ≡ 0 }
        requires told { self.old.bridge_end ≤ length partner.now.notes }
        requires none { self.old.partner ≡ [] }
        ensures { self.new ≡ hear_from partner.now self.old }
    {
        partner.write_frames(self.bridge_end, &mut self.partner);
        self.turn_down();
    }

    /// A bridge is on from the next period on. No handed frame may wait.
    pub fn bridge_on(&mut self)
        requires { self.old.phase ≡ First }
        ensures { self.new ≡ with_leg (begin_bridge (leg_in self.old)) self.old }
    {
        self.up.bridge_on();
        self.down.bridge_on();
    }

    /// The bridge that both halves have is off from the next period on.
    pub fn bridge_off(&mut self)
        requires first { self.old.phase ≡ First }
        requires up { self.old.up.bridged ≡ true }
        requires down { self.old.down.bridged ≡ true }
        ensures { self.new ≡
            with_leg (with_down (leg_in self.old) (bridge_over self.old.down)) self.old }
    {
        self.up.bridge_off();
        self.down.bridge_off();
    }

    /// Sets the level below which a frame's peak counts as silence, from the next period on.
    pub fn set_level(&mut self, level: i16)
        requires { pos 0 ≤ℤ level }
        ensures { self.new ≡ record self.old { down = set_level level self.old.down } }
    {
        self.down.set_level(level);
    }

    /// Sets when DTX is on, from the next period on.
    pub fn set_dtx(&mut self, mode: DtxMode)
        ensures { self.new ≡ record self.old { down = set_mode mode self.old.down } }
    {
        self.down.set_dtx(mode);
    }

    /// What was counted over the call's periods.
    pub fn counts(&self) -> Counts
        ensures memory { result ≡ record self.now.up.counts { made = self.now.down.made } }
        ensures periods { self.now.up.search.periods ≤ 4294967295 }
    {
        call_leg::laws::periods_are_few(&self.up);
        Counts {
            made: self.down.made(),
            ..self.up.counts()
        }
    }

    /// How many handed frames of the latest bridge were sent.
    pub fn sent(&self) -> u32
        ensures memory { result ≡ self.now.down.sent }
        ensures periods { self.now.up.search.periods ≤ 4294967295 }
    {
        call_leg::laws::periods_are_few(&self.up);
        self.down.sent()
    }

    // The effective frame of place k.
    fn frame(&self, k: usize) -> Effective
        requires { k < length self.now.notes }
        ensures { effective_fields result ≡ (note_at k self.now.notes).eff }
    {
        self.notes[k].eff
    }

    // Appends the effective frames of the first `places` places to an empty list that has room for them.
    fn write_frames(&self, places: u32, frames: &mut Vec<Effective>)
        requires told { places ≤ length self.now.notes }
        requires empty { frames.old.items ≡ [] }
        requires room { places ≤ vec_capacity frames.old }
        ensures frames { map effective_fields frames.new.items
            ≡ take places (frames_in self.now.notes) }
        ensures capacity { vec_capacity frames.new ≡ vec_capacity frames.old }
    {
        for k in 0..places as usize {
            frames.push_reserved(self.frame(k));
        }
    }

    /// Starts the second phase. The first is finished, and `partner` has the frames of all places before the bridge's
    /// end.
    pub fn turn_down(&mut self)
        requires first { self.old.phase ≡ First }
        requires finished { periods_left self.old ≡ 0 }
        requires partner { self.old.bridge_end ≤ length self.old.partner }
        ensures { self.new ≡ turn_down self.old }
    {
        self.io.start_again();
        self.phase = Phase::Second;
    }

    // Processes the next place of the first phase.
    fn turn_first(&mut self)
        requires place { has_period self.old.io ≡ true }
        requires first { self.old.phase ≡ First }
        ensures { self.new ≡ up_place self.old }
    {
        let note = work_up(&mut self.up, &mut self.io, self.bridge_end);
        self.notes.push_reserved(note);
    }

    // Processes the next place of the second phase.
    fn turn_second(&mut self)
        requires place { has_period self.old.io ≡ true }
        requires second { self.old.phase ≡ Second }
        ensures { self.new ≡ down_place self.old }
    {
        work_down(
            &mut self.down,
            &mut self.io,
            &self.notes,
            &self.partner,
            self.bridge_end,
        );
    }

    // Processes the next place of its phase, if there is one.
    fn turn(&mut self)
        ensures { self.new ≡ call_place self.old }
    {
        if self.io.has_period() {
            match self.phase {
                Phase::First => self.turn_first(),
                Phase::Second => self.turn_second(),
            }
        }
    }
}

impl Work for CallJob {
    ghost use Rattle.std.proofs.Common.{ap};
    ghost use Rattle.call_pair.specs.Phases.{CallMemory, periods_left, after_call_places, job_at_phase_end};

    ghost left = { periods_left };

    ghost finish = { job_at_phase_end };

    ghost number = { λ (j : CallMemory). j.io.call };

    ghost stays = { λ x e. ap (λ n. after_call_places n x) e };

    fn call(&self) -> u32 {
        self.io.call
    }

    fn slice(&mut self, q: u32) {
        for _ in 0..q {
            if !self.io.has_period() {
                break;
            }
            self.turn();
        }
    }

    fn finished(&self) -> bool {
        !self.io.has_period()
    }
}
