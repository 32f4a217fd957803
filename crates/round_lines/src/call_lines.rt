//! The state of a call's lines in a round.
ghost use Rattle.std.specs.Prelude.{◌≡◌, if◌then◌else◌, ◌-◌, ◌+◌, ◌*◌, ◌≤◌, ◌<◌, ◌^◌, ◌++◌, map, vec_len, vec_capacity};
ghost use Rattle.call_number.specs.CallNumber.{IsCallNumber};
ghost use Rattle.trau_io.specs.declared.ends.Cause.TheVariants.{End, Fault};
ghost use Rattle.switchboard.specs.Ends.{lack_of};
ghost use Rattle.round_lines.specs.Memory.{outlet_before, fresh_lines, given_in, whole_in, end_in_round, fails_in, failed_in_round, line_name};

use crate::transfer::{Outlet, Taken};
use std::marker::Model;
use trau_io::{CallEnd, Cause, Line, Side};

// The order in which lines are reported.
const SIDES: [Side; 4] = [Side::Up, Side::Pcm, Side::Down, Side::Out];

const NOTHING_TAKEN: Taken = Taken {
    count: 0,
    failed: false,
};

/// The state of a call's lines in a round, with the call's number and the number of the round's periods.
#[derive(Clone, Copy)]
pub struct CallLines {
    call: u32,
    periods: u32,
    up: Taken,
    pcm: Taken,
    down: Outlet,
    out: Outlet,
}

impl Model for CallLines {
    ghost use Rattle.round_lines.specs.Memory.{LinesMemory, AreLines};

    ghost Value = { LinesMemory };

    ghost view = { λ p. record {
      call = p.call;
      periods = p.periods;
      up = p.up;
      pcm = p.pcm;
      down = p.down;
      out = p.out;
    } };

    ghost inverse = { λ m. record {
      call = m.call;
      periods = m.periods;
      up = m.up;
      pcm = m.pcm;
      down = m.down;
      out = m.out;
    } };

    ghost invariant = { λ p. AreLines (record {
      call = p.call;
      periods = p.periods;
      up = p.up;
      pcm = p.pcm;
      down = p.down;
      out = p.out;
    }) };
}

fn outlet_before(failed: bool) -> Outlet
    ensures { result ≡ outlet_before failed }
{
    if failed {
        Outlet::FailedBefore
    } else {
        Outlet::Sound
    }
}

// Why a line without a further whole period ends its call; `whole` is the number of octets of its whole periods.
fn cause_of(side: Side, taken: Taken, whole: usize) -> Cause
    requires within { whole ≤ taken.count }
    requires short { taken.count < whole + 160 }
    ensures { result ≡ (if taken.failed then Fault side else End side (taken.count - whole)) }
{
    if taken.failed {
        Cause::Fault { side }
    } else {
        Cause::End {
            side,
            left: (taken.count - whole) as u32,
        }
    }
}

impl CallLines {
    /// The state before the first read. The flags say which outgoing lines failed in earlier rounds.
    pub fn new(call: u32, periods: u32, down_failed: bool, out_failed: bool) -> CallLines
        requires number { IsCallNumber call }
        requires some { 1 ≤ periods }
        requires few { periods ≤ 250 }
        ensures { result ≡ fresh_lines call periods down_failed out_failed }
    {
        CallLines {
            call,
            periods,
            up: NOTHING_TAKEN,
            pcm: NOTHING_TAKEN,
            down: outlet_before(down_failed),
            out: outlet_before(out_failed),
        }
    }

    /// The call's number, 1 to 4,096.
    pub fn call(&self) -> u32
        ensures value { result ≡ self.now.call }
        ensures number { IsCallNumber result }
    {
        self.call
    }

    /// The number of the round's periods, 1 to 250.
    pub fn periods(&self) -> u32
        ensures value { result ≡ self.now.periods }
        ensures some { 1 ≤ result }
        ensures few { result ≤ 250 }
    {
        self.periods
    }

    /// The state of the Down line.
    pub fn down(&self) -> Outlet
        ensures { result ≡ self.now.down }
    {
        self.down
    }

    /// The state of the Out line.
    pub fn out(&self) -> Outlet
        ensures { result ≡ self.now.out }
    {
        self.out
    }

    /// The number of whole periods that both incoming lines gave, at most the round's.
    pub fn whole(&self) -> u32
        ensures value { result ≡ whole_in self.now }
        ensures bound { result ≤ self.now.periods }
    {
        let up = self.up.count / 40;
        let pcm = self.pcm.count / 160;
        up.min(pcm) as u32
    }

    // Why the lines lack the period after the whole ones.
    fn lack(&self, whole: u32) -> Cause
        requires { whole ≡ whole_in self.now }
        ensures { result ≡ lack_of whole (given_in self.now) }
    {
        let periods = whole as usize;
        if self.up.count < 40 * (periods + 1) {
            cause_of(Side::Up, self.up, 40 * periods)
        } else {
            cause_of(Side::Pcm, self.pcm, 160 * periods)
        }
    }

    /// Where and why the call ends in a round that begins with period `start`; `None` if all its periods were read.
    pub fn end(&self, start: u32) -> Option<CallEnd>
        requires { start + self.now.periods < 2 ^ 32 }
        ensures { result ≡ end_in_round start self.now }
    {
        let whole = self.whole();
        if whole == self.periods {
            None
        } else {
            Some(CallEnd {
                call: self.call,
                at: start + whole,
                cause: self.lack(whole),
            })
        }
    }

    /// Whether a line failed in this round.
    pub fn fails(&self, side: Side) -> bool
        ensures { result ≡ fails_in self.now side }
    {
        match side {
            Side::Up => self.up.failed,
            Side::Pcm => self.pcm.failed,
            Side::Down => self.down == Outlet::FailedNow,
            Side::Out => self.out == Outlet::FailedNow,
        }
    }

    /// The line of its call with this side.
    pub fn line(&self, side: Side) -> Line
        ensures call { result.call ≡ self.now.call }
        ensures side { result.side ≡ side }
    {
        Line {
            call: self.call,
            side,
        }
    }

    /// Appends the lines that failed in this round.
    pub fn list_failed(&self, failed: &mut Vec<Line>)
        requires room { vec_len failed.old + 4 ≤ vec_capacity failed.old }
        ensures listed { map line_name failed.new.items
            ≡ map line_name failed.old.items ++ failed_in_round self.now }
        ensures length { vec_len failed.new ≤ vec_len failed.old + 4 }
        ensures capacity { vec_capacity failed.new ≡ vec_capacity failed.old }
    {
        for side in &SIDES {
            if self.fails(*side) {
                failed.push_reserved(self.line(*side));
            }
        }
    }

    /// Sets what Up gave in this round: at most 40 octets a period.
    pub(crate) fn set_up(&mut self, taken: Taken)
        requires { taken.count ≤ 40 * self.old.periods }
        ensures { self.new ≡ record self.old { up = taken } }
    {
        self.up = taken;
    }

    /// Sets what Pcm gave in this round: at most 160 octets a period.
    pub(crate) fn set_pcm(&mut self, taken: Taken)
        requires { taken.count ≤ 160 * self.old.periods }
        ensures { self.new ≡ record self.old { pcm = taken } }
    {
        self.pcm = taken;
    }

    /// Sets the state of the Down line.
    pub(crate) fn set_down(&mut self, outlet: Outlet)
        ensures { self.new ≡ record self.old { down = outlet } }
    {
        self.down = outlet;
    }

    /// Sets the state of the Out line.
    pub(crate) fn set_out(&mut self, outlet: Outlet)
        ensures { self.new ≡ record self.old { out = outlet } }
    {
        self.out = outlet;
    }
}
