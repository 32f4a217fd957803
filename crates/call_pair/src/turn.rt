//! One place of each half of a call.

ghost use Rattle.std.specs.Prelude.{◌≡◌, ◌==◌, ◌&&◌, ◌+◌, ◌<◌, true, length, map, option_copied, if◌then◌else◌};
ghost use Rattle.trau_bits.specs.Bits.{octets_of};
ghost use Rattle.rx_handler.specs.State.{effective_fields};
ghost use Rattle.call_leg.specs.Step.{bridge_over};
ghost use Rattle.call_leg.specs.Halves.{up_unbridged, item_of};
ghost use Rattle.call_pair.specs.Periods.{with_out, with_period, has_period};
ghost use Rattle.call_pair.specs.Phases.{down_before, item_if, effective_in, next_up, next_down, one_done};

use crate::io::LegIo;
use call_leg::{DownLeg, UpLeg, UpNote};
use rx_handler::Effective;

// Ends the half's bridge, if it has one and `ends` is true.
fn end_up(up: &mut UpLeg, ends: bool)
    ensures up { up.new ≡ (if up.old.bridged && ends then up_unbridged up.old else up.old) }
    ensures periods { up.new.search.periods ≡ up.old.search.periods }
{
    if up.bridged() && ends {
        up.bridge_off();
    }
}

fn end_down(down: &mut DownLeg, ends: bool)
    ensures { down.new ≡ (if down.old.bridged && ends then bridge_over down.old else down.old) }
{
    if down.bridged() && ends {
        down.bridge_off();
    }
}

// The partner's frame of place k, if the half is bridged.
fn item_at(partner: &[Effective], k: usize, on: bool) -> Option<&Effective>
    requires { on ≡ true → k < length partner.now }
    ensures { item_of (option_copied result)
        ≡ item_if on (effective_in k (map effective_fields partner.now)) }
{
    if on { Some(&partner[k]) } else { None }
}

/// Processes the next place of the uplink half.
pub(crate) fn work_up(up: &mut UpLeg, io: &mut LegIo, bridge_end: u32) -> UpNote
    requires place { has_period io.old ≡ true }
    requires periods { up.old.search.periods < 4294967295 }
    ensures note { result ≡ (next_up bridge_end io.old up.old).0 }
    ensures io { io.new ≡ one_done (with_out io.old (next_up bridge_end io.old up.old).1) }
    ensures up { up.new ≡ (next_up bridge_end io.old up.old).2 }
    ensures periods { up.new.search.periods ≡ up.old.search.periods + 1 }
{
    end_up(up, io.done == bridge_end);
    let mut out = [0; 160];
    let note = up.turn(io.up_next(), &mut out);
    io.put_out(&out);
    io.count_place();
    note
}

/// Processes the next place of the downlink half.
pub(crate) fn work_down(
    down: &mut DownLeg,
    io: &mut LegIo,
    notes: &[UpNote],
    partner: &[Effective],
    bridge_end: u32,
)
    requires place { has_period io.old ≡ true }
    requires notes { io.old.done < length notes.now }
    requires partner { (down_before bridge_end io.old.done down.old).bridged ≡ true →
        io.old.done < length partner.now }
    ensures io { io.new ≡ with_period io.old (octets_of
        (next_down bridge_end io.old notes.now (map effective_fields partner.now) down.old).0) }
    ensures down { down.new ≡
        (next_down bridge_end io.old notes.now (map effective_fields partner.now) down.old).1 }
    ensures bridged { down.new.bridged ≡ (down_before bridge_end io.old.done down.old).bridged }
{
    end_down(down, io.done == bridge_end);
    let k = io.done as usize;
    let item = item_at(partner, k, down.bridged());
    let mut octets = [0; 40];
    down.turn(&notes[k], item, io.pcm_next(), &mut octets);
    io.put_down(&octets);
}
