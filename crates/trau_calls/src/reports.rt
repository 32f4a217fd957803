//! What a call says of itself.

ghost use Rattle.std.specs.Prelude.{◌≡◌, ℕ, List};
ghost use Rattle.trau_calls.specs.Begun.{IsBegun, FromTo};
ghost use Rattle.trau_calls.specs.Reports.{counts_of, periods_of, is_there, reports_of, side_reports};

use crate::handle::Handle;
use crate::parts::Parts;
use rtp_call::Call;
use rtp_session::{Counts, Incoming, Outgoing};
use std::alloc::Global;

/// What came from a side, and what went there.
#[derive(Clone, Copy)]
#[repr(C)]
pub struct Reports {
    /// Datagrams by their reasons, then periods that came twice or late, then what the stream went through.
    pub counts: [u32; 19],
    /// Periods of the call by what they brought: speech, a silence descriptor, a frame that can't be used, octets that
    /// are no frame, no frame, nothing from the exchange.
    pub periods: [u32; 6],
    /// The source that is heard (RFC 3550), if there is one.
    pub source: u32,
    /// The extended number of its first packet.
    pub first: u32,
    /// The highest extended number that came.
    pub highest: u32,
    /// Its packets that came.
    pub received: u32,
    /// Sixteen times the interarrival jitter, in units of the time stamp.
    pub jitter: u32,
    /// The tick of the latest packet that was taken.
    pub heard: u32,
    /// The time stamp of tick 0 of what is sent.
    pub stamp: u32,
    /// The source of what is sent.
    pub from: u32,
    /// The packets that were sent.
    pub packets: u32,
    /// The octets of their payloads.
    pub octets: u32,
    /// 1 if there is a source that is heard, else 0.
    pub is_known: u8,
    /// The same, for `heard`.
    pub was_heard: u8,
}

// The counts in the order of the header.
fn counts_of(counts: &Counts) -> [u32; 19]
    ensures { result ≡ counts_of counts.now }
{
    [
        0,
        counts.no_packet,
        counts.control,
        counts.other_type,
        counts.empty,
        counts.odd_size,
        counts.too_long,
        counts.on_probation,
        counts.given_up,
        counts.far,
        counts.doubled,
        counts.late,
        counts.new_sources,
        counts.jumps,
        counts.off_the_grid,
        counts.slips_on,
        counts.slips_back,
        counts.received_before,
        counts.missing_before,
    ]
}

// The periods of a call by what they brought.
fn periods_of(call: &Call) -> [u32; 6]
    ensures { result ≡ periods_of call.now.hearing call.now.no_line }
{
    [
        call.hearing.speech,
        call.hearing.descriptors,
        call.hearing.invalid,
        call.hearing.no_frames,
        call.hearing.none,
        call.no_line,
    ]
}

// 1 if there is a source.
fn is_there(source: Option<u32>) -> u8
    ensures { result ≡ is_there source }
{
    match source {
        None => 0,
        Some(_) => 1,
    }
}

// Of the streams of a side.
fn reports_of<const N: usize>(
    incoming: &Incoming<N>,
    outgoing: &Outgoing,
    periods: &[u32; 6],
) -> Reports
    ensures { result ≡ reports_of incoming.now outgoing.now periods.now }
{
    let stream = &incoming.stream;
    Reports {
        counts: counts_of(&incoming.counts),
        periods: *periods,
        source: stream.reception.source,
        first: stream.reception.first,
        highest: stream.reception.highest,
        received: stream.reception.received,
        jitter: stream.reception.jitter,
        heard: stream.heard_at,
        stamp: outgoing.timestamp,
        from: outgoing.source,
        packets: outgoing.packets,
        octets: outgoing.octets,
        is_known: is_there(stream.sources.heard),
        was_heard: is_there(stream.sources.heard),
    }
}

// Of a side.
fn side_reports(call: &Call, side: u32) -> Reports
    ensures { result ≡ side_reports side call.now }
{
    let periods = periods_of(call);
    if side == 0 {
        reports_of(&call.gsm, &call.to_gsm, &periods)
    } else {
        reports_of(&call.pcm, &call.to_pcm, &periods)
    }
}

/// Writes what came from a side, 0 the base station, any other number the exchange, and what went there. The call stays
/// as it is.
#[unsafe(no_mangle)]
pub extern "C" fn trau_call_reports(
    heap: Global,
    handle: &mut Handle,
    side: u32,
    reports: &mut Reports,
)
    requires { IsBegun handle.old.call }
    ensures call { handle.new.call ≡ handle.old.call }
    ensures reports { FromTo handle.old.call handle.new.call (λ old new. reports.new ≡ side_reports side old) }
{
    let call = handle.take(heap).into_box();
    *reports = side_reports(&call, side);
    handle.put(Parts::of(call));
}
