//! What orders do to the open calls. A bridge is started, or ended, in one phone call after the other. In between only
//! one of the two has a partner, which the farm's invariant forbids. So these functions take the lists and not the
//! farm.

ghost use Rattle.std.specs.Prelude.{◌≡◌, ℕ, List, Some, None, true, is_some, IfOk, IfErr, IfSome};
ghost use Rattle.switchboard.specs.declared.act.Act.TheVariants.{Opened, Closed, Bridged, Unbridged, LevelSet, DtxSet};
ghost use Rattle.call_leg.specs.Periods.{CallPeriod};
ghost use Rattle.call_leg.specs.Settings.{Settings};
ghost use Rattle.call_leg.specs.Stands.{Stands};
ghost use Rattle.call_leg.specs.Who.{Who};
ghost use Rattle.farm_rounds.specs.Numbers.{is_among};
ghost use Rattle.farm_rounds.specs.Calls.{Call, call_in, partner_in};
ghost use Rattle.farm_rounds.specs.Acts.{IsOpen, ActFits, Applied, bridged_call, parted_call};
ghost use Rattle.farm_rounds.specs.Histories.{tally_of};
ghost use Rattle.farm_rounds.specs.Opens.{opens_in, calls_of, AreOpen};
ghost use Rattle.farm_rounds.specs.Opened.{AreListed, IsChanged, IsReleased};

use crate::live::{index_of, insertion_index};
use crate::open::OpenCall;
use crate::tally::Tally;
use std::alloc::{AllocError, Global};
use trau_alaw::Law;
use trau_orders::DtxMode;

/// Opens a call with this law. No other act takes memory. On an error nothing has changed.
pub(crate) fn open(
    alloc: Global,
    calls: &mut Vec<Box<OpenCall>>,
    live: &mut Vec<u32>,
    call: u32,
    law: Law,
) -> Result<(), AllocError>
    requires sound { (most : ℕ) × AreOpen most live.old.items (opens_in calls.old.items) }
    requires fits { ActFits (calls_of calls.old.items) (Opened call law) }
    ensures applied { IfOk result
        (λ u. Applied (Opened call law) (calls_of calls.old.items) (calls_of calls.new.items)) }
    ensures sound { (most : ℕ) → AreOpen most live.old.items (opens_in calls.old.items) →
        AreOpen most live.new.items (opens_in calls.new.items) }
    ensures calls { IfErr result (λ e. calls.new.items ≡ calls.old.items) }
    ensures live { IfErr result (λ e. live.new.items ≡ live.old.items) }
{
    live.reserve(1)?;
    calls.reserve(1)?;
    let opened = OpenCall::new(alloc, call, law)?;
    let at = insertion_index(live, call);
    let _ = live.insert(at, call);
    let _ = calls.insert(at, opened);
    Ok(())
}

// Starts a call's bridge.
fn start_bridge(calls: &mut [Box<OpenCall>], live: &[u32], call: u32, partner: u32)
    requires listed { AreListed live.now (opens_in calls.old) }
    requires there { is_among live.now call ≡ true }
    ensures { IsChanged call (λ k. record { call = bridged_call k.call; partner = Some partner })
        (opens_in calls.old) (opens_in calls.new) }
{
    calls[index_of(live, call)].start_bridge(partner);
}

// Ends the bridge of a call that has a partner.
fn end_bridge(calls: &mut [Box<OpenCall>], live: &[u32], call: u32)
    requires listed { AreListed live.now (opens_in calls.old) }
    requires there { is_among live.now call ≡ true }
    requires partner { is_some (partner_in (calls_of calls.old) call) ≡ true }
    ensures { IsChanged call (λ k. record { call = parted_call k.call; partner = None })
        (opens_in calls.old) (opens_in calls.new) }
{
    calls[index_of(live, call)].end_bridge();
}

/// Starts the bridge of two calls.
pub(crate) fn bridge(calls: &mut [Box<OpenCall>], live: &[u32], a: u32, b: u32)
    requires sound { (most : ℕ) × AreOpen most live.now (opens_in calls.old) }
    requires fits { ActFits (calls_of calls.old) (Bridged a b) }
    ensures applied { Applied (Bridged a b) (calls_of calls.old) (calls_of calls.new) }
    ensures sound { (most : ℕ) → AreOpen most live.now (opens_in calls.old) →
        AreOpen most live.now (opens_in calls.new) }
{
    start_bridge(calls, live, a, b);
    start_bridge(calls, live, b, a);
}

/// Ends the bridge of two calls.
pub(crate) fn unbridge(calls: &mut [Box<OpenCall>], live: &[u32], a: u32, b: u32)
    requires sound { (most : ℕ) × AreOpen most live.now (opens_in calls.old) }
    requires fits { ActFits (calls_of calls.old) (Unbridged a b) }
    ensures applied { Applied (Unbridged a b) (calls_of calls.old) (calls_of calls.new) }
    ensures sound { (most : ℕ) → AreOpen most live.now (opens_in calls.old) →
        AreOpen most live.now (opens_in calls.new) }
{
    end_bridge(calls, live, a);
    end_bridge(calls, live, b);
}

/// Sets the level of a call.
pub(crate) fn set_level(calls: &mut [Box<OpenCall>], live: &[u32], call: u32, level: i16)
    requires sound { (most : ℕ) × AreOpen most live.now (opens_in calls.old) }
    requires fits { ActFits (calls_of calls.old) (LevelSet call level) }
    ensures applied { Applied (LevelSet call level) (calls_of calls.old) (calls_of calls.new) }
    ensures sound { (most : ℕ) → AreOpen most live.now (opens_in calls.old) →
        AreOpen most live.now (opens_in calls.new) }
{
    calls[index_of(live, call)].job.set_level(level);
}

/// Sets the DTX mode of a call.
pub(crate) fn set_dtx(calls: &mut [Box<OpenCall>], live: &[u32], call: u32, mode: DtxMode)
    requires sound { (most : ℕ) × AreOpen most live.now (opens_in calls.old) }
    requires fits { ActFits (calls_of calls.old) (DtxSet call mode) }
    ensures applied { Applied (DtxSet call mode) (calls_of calls.old) (calls_of calls.new) }
    ensures sound { (most : ℕ) → AreOpen most live.now (opens_in calls.old) →
        AreOpen most live.now (opens_in calls.new) }
{
    calls[index_of(live, call)].job.set_dtx(mode);
}

// Ends the bridge of the partner of a call that ends, if there is one.
fn release_partner(calls: &mut [Box<OpenCall>], live: &[u32], partner: Option<u32>)
    requires listed { AreListed live.now (opens_in calls.old) }
    requires there { IfSome partner (λ p. is_among live.now p ≡ true) }
    requires back { IfSome partner (λ p. is_some (partner_in (calls_of calls.old) p) ≡ true) }
    ensures { IsReleased partner (opens_in calls.old) (opens_in calls.new) }
{
    if let Some(partner) = partner {
        end_bridge(calls, live, partner);
    }
}

/// Ends a call and its bridge, and returns its tally.
pub(crate) fn close(calls: &mut Vec<Box<OpenCall>>, live: &mut Vec<u32>, call: u32) -> Tally
    requires sound { (most : ℕ) × AreOpen most live.old.items (opens_in calls.old.items) }
    requires fits { IsOpen (calls_of calls.old.items) call }
    ensures applied { Applied (Closed call (partner_in (calls_of calls.old.items) call))
        (calls_of calls.old.items) (calls_of calls.new.items) }
    ensures sound { (most : ℕ) → AreOpen most live.old.items (opens_in calls.old.items) →
        AreOpen most live.new.items (opens_in calls.new.items) }
    ensures tally { (x : Call) (who : Who) (ts : List CallPeriod) (now : Settings) →
        call_in (calls_of calls.old.items) call ≡ Some x → Stands who ts now x.leg →
        result ≡ tally_of ts now }
{
    let at = index_of(live, call);
    let partner = calls[at].partner;
    release_partner(calls, live, partner);
    live.remove(at);
    let closed = calls.remove(at);
    closed.tally()
}
