//! Datagrams that come.

ghost use Rattle.std.specs.Prelude.{◌≡◌, ◌≢◌};
ghost use Rattle.rtp_call.specs.Call.{IsReady};
ghost use Rattle.trau_calls.specs.Begun.{IsBegun, FromTo};
ghost use Rattle.trau_calls.specs.Packet.{reason_of, SideTakes, TakesPacket, IsStrangers, SidePlaysTheSame, IsOfSide};

use crate::handle::Handle;
use crate::parts::Parts;
use rtp_call::Call;
use rtp_session::Outcome;
use std::alloc::Global;

// The number of an outcome for C.
fn reason_of(outcome: Outcome) -> u32
    ensures { result ≡ reason_of outcome }
{
    match outcome {
        Outcome::Taken => 0,
        Outcome::NoPacket => 1,
        Outcome::Control => 2,
        Outcome::OtherType => 3,
        Outcome::Empty => 4,
        Outcome::OddSize => 5,
        Outcome::TooLong => 6,
        Outcome::OnProbation => 7,
        Outcome::GivenUp => 8,
        Outcome::Far => 9,
    }
}

// What becomes of a datagram of a side.
fn outcome_of(call: &mut Call, side: u32, datagram: &[u8], tick: u32, behind: u32) -> Outcome
    requires { IsReady call.old }
    ensures takes { SideTakes side call.old call.new datagram.now tick behind result }
    ensures only { IsStrangers side call.old call.new datagram.now tick }
    ensures refused { result ≢ Outcome.Taken → SidePlaysTheSame side call.old call.new }
    ensures others { IsOfSide side call.old call.new }
    ensures ready { IsReady call.new }
{
    if side == 0 {
        call.packet_from_station(datagram, tick, behind)
    } else {
        call.packet_from_exchange(datagram, tick, behind)
    }
}

/// Takes a datagram from a side, 0 the base station, any other number the exchange, that is read at a tick which is
/// late by `behind` periods. 0: it is taken; else why not.
#[unsafe(no_mangle)]
pub extern "C" fn trau_call_packet(
    heap: Global,
    handle: &mut Handle,
    side: u32,
    datagram: &[u8],
    tick: u32,
    behind: u32,
) -> u32
    requires { IsBegun handle.old.call }
    ensures begun { IsBegun handle.new.call }

    // What becomes of it, by its octets, the side's stream and the tick.
    ensures takes { FromTo handle.old.call handle.new.call (λ old new. TakesPacket side old new datagram.now tick behind result) }

    // A stranger's datagram changes nothing but counts, who is on probation, and what came of the source that is heard,
    // of which `takes` says more.
    ensures only { FromTo handle.old.call handle.new.call (λ old new. IsStrangers side old new datagram.now tick) }

    // If it isn't taken, nothing changes of what is played.
    ensures refused { FromTo handle.old.call handle.new.call (λ old new. result ≢ 0 → SidePlaysTheSame side old new) }

    // The other side, both coders and both outgoing streams stay.
    ensures others { FromTo handle.old.call handle.new.call (λ old new. IsOfSide side old new) }
{
    let mut call = handle.take(heap).into_box();
    let outcome = outcome_of(&mut call, side, datagram, tick, behind);
    handle.put(Parts::of(call));
    reason_of(outcome)
}
