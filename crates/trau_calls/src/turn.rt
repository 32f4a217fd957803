//! Periods of calls.

ghost use Rattle.std.specs.Prelude.{◌≡◌, true};
ghost use Rattle.rtp_call.specs.Call.{RecordsInput, SpeaksToStation, SpeaksToExchange};
ghost use Rattle.trau_calls.specs.Begun.{IsBegun, FromTo};
ghost use Rattle.trau_calls.specs.Turn.{TurnReplays, PairReplays};

use crate::handle::Handle;
use crate::parts::Parts;
use call_coders::Record;
use rtp_call::{Datagrams, PairDatagrams, Records, turn_pair};
use std::alloc::Global;

/// Processes a period of a call that is in no bridge: writes what is recorded, the datagram to the exchange, and the
/// one to the base station if the result is true.
#[unsafe(no_mangle)]
pub extern "C" fn trau_call_turn(
    heap: Global,
    handle: &mut Handle,
    tick: u32,
    level: i16,
    dtx: bool,
    recorded: &mut Record,
    datagrams: &mut Datagrams,
) -> bool
    requires { IsBegun handle.old.call }
    ensures begun { IsBegun handle.new.call }

    // The recorded Out and Down are those that `trau run` makes of the recorded Up and Pcm, whatever the network
    // brought.
    ensures replay { FromTo handle.old.call handle.new.call (λ old new. TurnReplays old new level dtx recorded.new) }

    // Up and Pcm are what came: what each stream plays at this tick.
    ensures input { FromTo handle.old.call handle.new.call (λ old new. RecordsInput old new tick recorded.new.up recorded.new.pcm) }

    // The base station gets the frame of Down, if the answer says so; the exchange gets the octets of Out.
    ensures gsm { FromTo handle.old.call handle.new.call (λ old new. SpeaksToStation old new tick recorded.new.down datagrams.new.gsm result) }
    ensures pcm { FromTo handle.old.call handle.new.call (λ old new. SpeaksToExchange old new tick recorded.new.out datagrams.new.pcm) }
    ensures law { FromTo handle.old.call handle.new.call (λ old new. new.law ≡ old.law) }
{
    let mut call = handle.take(heap).into_box();
    let is_sent = call.turn(tick, level, dtx, recorded, datagrams);
    handle.put(Parts::of(call));
    is_sent
}

/// Processes a period of the two calls of a bridge, in which each base station hears the other one. The first of
/// `records` and of `datagrams` is of `one`. All datagrams are sent.
#[unsafe(no_mangle)]
pub extern "C" fn trau_call_turn_pair(
    heap: Global,
    one: &mut Handle,
    other: &mut Handle,
    tick: u32,
    records: &mut Records,
    datagrams: &mut PairDatagrams,
)
    requires one { IsBegun one.old.call }
    requires other { IsBegun other.old.call }
    ensures begun { IsBegun one.new.call × IsBegun other.new.call }

    // Each call is handed what the other one's call of `trau run` hands over.
    ensures replay { FromTo one.old.call one.new.call (λ old new. FromTo other.old.call other.new.call (λ other_old other_new.
        PairReplays old new records.new.one other_old other_new records.new.other)) }

    // Up and Pcm of both are what came.
    ensures input { FromTo one.old.call one.new.call (λ old new. RecordsInput old new tick records.new.one.up records.new.one.pcm)
        × FromTo other.old.call other.new.call (λ old new. RecordsInput old new tick records.new.other.up records.new.other.pcm) }

    // Both base stations get the speech that Down carries; the exchange gets the octets of Out.
    ensures gsm { FromTo one.old.call one.new.call (λ old new. SpeaksToStation old new tick records.new.one.down datagrams.new.one.gsm true)
        × FromTo other.old.call other.new.call (λ old new. SpeaksToStation old new tick records.new.other.down datagrams.new.other.gsm true) }
    ensures pcm { FromTo one.old.call one.new.call (λ old new. SpeaksToExchange old new tick records.new.one.out datagrams.new.one.pcm)
        × FromTo other.old.call other.new.call (λ old new. SpeaksToExchange old new tick records.new.other.out datagrams.new.other.pcm) }
    ensures laws { FromTo one.old.call one.new.call (λ old new. new.law ≡ old.law) × FromTo other.old.call other.new.call (λ old new. new.law ≡ old.law) }
{
    let mut first = one.take(heap).into_box();
    let mut second = other.take(heap).into_box();
    turn_pair(&mut first, &mut second, tick, records, datagrams);
    one.put(Parts::of(first));
    other.put(Parts::of(second));
}
