//! The stream that comes into a session, from datagrams that nobody vouches for.

ghost use Rattle.std.specs.Prelude.{◌≡◌, ◌≢◌, ◌<◌, ◌≤◌, ◌*◌, ◌==◌, if◌then◌else◌, ℕ, true, false, length};
ghost use Rattle.rtp_stream.specs.Places.{period_samples};
ghost use Rattle.rtp_stream.specs.Stream.{is_taken, judged_in};
ghost use Rattle.rtp_session.specs.Counts.{with_outcome, with_slip};
ghost use Rattle.rtp_session.specs.Incoming.{IsHeard, IsAdmitted, IsUntouched, KeepsSettings, PlaysTheSame, IsSound, BeginsSession};
ghost use Rattle.rtp_session.specs.Datagram.{longest_payload, refused_by, samples_of, arrival_in, outcome_by, outcome_unless, packet_outcome, unplayed_by, received_by, received_unless, sources_unless, track_by, track_unless, Arrives, octet_of, LaysOver, LaysPayload, with_laid, placed_counts, sourced_counts, TakesDatagram};
ghost use Rattle.rtp_session.specs.Playing.{IsPrepared, IsSlipped, AreHeard, IsTaken, GivesUp};

use crate::counts::Counts;
use rtp_buffer::{Buffer, Octet, Owed, Pace, Slot, Store, Wish};
use rtp_packet::{Header, Reception, Refusal, parse};
use rtp_stream::{Arrival, Sources, Stream, Track, lay};

// The samples of a period of 20 ms.
const PERIOD_SAMPLES: usize = 160;

// The periods of the longest packet, a second.
const MOST_PERIODS: usize = 50;

/// What became of a datagram.
#[derive(Clone, Copy)]
pub enum Outcome {
    /// It is played, as far as it came in time and for the first time.
    Taken,
    /// It is no packet.
    NoPacket,
    /// It seems to be RTCP on the same port.
    Control,
    /// It is of another payload type.
    OtherType,
    /// It has no payload.
    Empty,
    /// Its payload isn't whole frames.
    OddSize,
    /// It is of more than a second.
    TooLong,
    /// Its source isn't heard.
    OnProbation,
    /// It is of time that was given up.
    GivenUp,
    /// It is far away.
    Far,
}

/// An incoming stream. `N`: the octets of a period.
#[derive(Clone, Copy)]
pub struct Incoming<const N: usize> {
    /// The payload type that is played.
    pub payload_type: u8,
    /// Whether a period is a frame; else it is octets of a line, one a sample.
    pub is_framed: bool,
    /// What came of its datagrams.
    pub counts: Counts,
    /// The stream, with its jitter buffer.
    pub stream: Stream<N>,
}

// The memory of a stream.
fn no_stream<const N: usize>() -> Stream<N> {
    let slot = Slot {
        period: 0,
        octets: [Octet::Missing; N],
    };
    Stream {
        depth: 0,
        sources: Sources::home(),
        reception: Reception::home(0, 0),
        track: Track::home(0, 0),
        heard_at: 0,
        buffer: Buffer {
            pace: Pace::home(0, 0),
            newest: 0,
            store: Store { slots: [slot; 256] },
        },
    }
}

impl<const N: usize> Incoming<N> {
    /// A stream before its first packet, which will wait `depth` ticks.
    pub fn home(payload_type: u8, is_framed: bool, depth: u32) -> Incoming<N>
        ensures begins { BeginsSession payload_type is_framed depth result }
        ensures sound { IsSound result.stream }
    {
        let mut incoming = Incoming {
            payload_type,
            is_framed,
            counts: Counts::home(),
            stream: no_stream(),
        };
        let offset = if is_framed { 80 } else { 0 };
        incoming.stream.reset(depth, offset);
        incoming
    }

    // Counts a datagram that isn't taken.
    fn refuse(&mut self, outcome: Outcome) -> Outcome
        ensures outcome { result ≡ outcome }
        ensures value { self.new ≡ record self.old { counts = with_outcome outcome self.old.counts } }
    {
        let counts = &mut self.counts;
        match outcome {
            Outcome::Taken => {}
            Outcome::NoPacket => counts.no_packet = counts.no_packet.wrapping_add(1),
            Outcome::Control => counts.control = counts.control.wrapping_add(1),
            Outcome::OtherType => counts.other_type = counts.other_type.wrapping_add(1),
            Outcome::Empty => counts.empty = counts.empty.wrapping_add(1),
            Outcome::OddSize => counts.odd_size = counts.odd_size.wrapping_add(1),
            Outcome::TooLong => counts.too_long = counts.too_long.wrapping_add(1),
            Outcome::OnProbation => counts.on_probation = counts.on_probation.wrapping_add(1),
            Outcome::GivenUp => counts.given_up = counts.given_up.wrapping_add(1),
            Outcome::Far => counts.far = counts.far.wrapping_add(1),
        }
        outcome
    }

    // Why a packet with a payload of so many octets is never played, if there is a reason.
    fn unplayable(&self, payload_type: u8, size: usize) -> Option<Outcome>
        requires { 0 < N }
        ensures value { result ≡ refused_by self.now payload_type size }
        ensures not_taken { result ≢ Some Outcome.Taken }
        ensures payload_type { result ≡ None → payload_type ≡ self.now.payload_type }
        ensures size { result ≡ None → size ≤ longest_payload * N }
    {
        if payload_type != self.payload_type {
            Some(Outcome::OtherType)
        } else if size == 0 {
            Some(Outcome::Empty)
        } else if self.is_framed && size % N != 0 {
            Some(Outcome::OddSize)
        } else if size > MOST_PERIODS * N {
            Some(Outcome::TooLong)
        } else {
            None
        }
    }

    // A packet that isn't played has come, if it is of the source that is heard: it isn't missing as well.
    fn count_unplayed(&mut self, header: &Header)
        requires { IsSound self.old.stream }
        ensures reception { self.new.stream.reception ≡ unplayed_by self.old.stream.sources.heard self.old.stream.reception header.now }
        ensures others { self.new ≡ record self.old { stream = record self.old.stream { reception = self.new.stream.reception } } }
        ensures sound { IsSound self.new.stream }
    {
        if let Some(source) = self.stream.sources.heard {
            if source == header.source {
                self.stream.reception.count(header.sequence_number, None);
            }
        }
    }

    // The octet of its period at which a payload begins.
    fn octet(&self, sample: u32) -> usize
        requires { 0 < N }
        ensures value { result ≡ octet_of N self.now.is_framed sample }
        ensures within { result < N }
    {
        if self.is_framed {
            0
        } else {
            sample as usize % N
        }
    }

    // Lays a payload from a place on.
    fn lay_at(
        &mut self,
        period: u32,
        sample: u32,
        payload: &[u8],
        tick: u32,
        behind: u32,
    ) -> Outcome
        requires size { length payload.now ≤ longest_payload * N }
        requires period { 0 < N }
        requires sound { IsSound self.old.stream }
        ensures taken { result ≡ Outcome.Taken }
        ensures laid { LaysOver self.old.stream.buffer self.new.stream.buffer tick period (octet_of N self.old.is_framed sample) payload.now (behind == 0) }
        ensures counts { self.new.counts ≡
            with_laid self.old.stream.buffer tick period (octet_of N self.old.is_framed sample) (length payload.now) self.old.counts }
        ensures sound { IsSound self.new.stream }
        ensures others { self.new ≡ record self.old {
          counts = record self.old.counts { late = self.new.counts.late; doubled = self.new.counts.doubled };
          stream = record self.old.stream { buffer = self.new.stream.buffer };
        } }
    {
        let part = self.octet(sample);
        let laid = lay(
            &mut self.stream.buffer,
            period,
            part,
            payload,
            tick,
            behind == 0,
        );
        self.counts.late = self.counts.late.wrapping_add(laid.late);
        self.counts.doubled = self.counts.doubled.wrapping_add(laid.doubled);
        Outcome::Taken
    }

    // Another source is heard: what came of the one before is added up.
    fn note_source(&mut self, before: &Reception, was_heard: bool)
        ensures others { self.new ≡ record self.old { counts = self.new.counts } }
        ensures counts { self.new.counts ≡ sourced_counts was_heard before.now self.old.counts }
    {
        if was_heard {
            let counts = &mut self.counts;
            counts.new_sources = counts.new_sources.wrapping_add(1);
            counts.received_before = counts.received_before.wrapping_add(before.received);
            counts.missing_before = counts.missing_before.wrapping_add(before.missing());
        }
    }

    // A packet belongs at a sample of its period, and the delay may have become longer for it.
    fn note_place(&mut self, sample: u32, shift: u32)
        ensures others { self.new ≡ record self.old { counts = self.new.counts } }
        ensures counts { self.new.counts ≡
            placed_counts self.old.is_framed sample self.old.stream.track.offset shift self.old.stream.buffer.pace.shift self.old.counts }
    {
        let moved = shift.wrapping_sub(self.stream.buffer.pace.shift);
        self.counts.slips_back = self.counts.slips_back.wrapping_add(moved);
        if self.is_framed && sample != self.stream.track.offset {
            self.counts.off_the_grid = self.counts.off_the_grid.wrapping_add(1);
        }
    }

    // Whose packet it is, and where it belongs.
    fn arrive(&mut self, header: &Header, samples: u32, tick: u32, behind: u32) -> Arrival
        requires { IsSound self.old.stream }
        ensures only { (IsHeard self.old.stream header.now tick → ⊥) → (result ≡ Arrival.OnProbation)
            × (self.new ≡ record self.old { stream = record self.old.stream { sources = record self.old.stream.sources { candidate = self.new.stream.sources.candidate } } }) }
        ensures refused { is_taken result ≡ false → PlaysTheSame self.old.stream self.new.stream }
        ensures arrival { result ≡ arrival_in self.old.stream header.now samples tick behind }
        ensures reception { self.new.stream.reception ≡ received_by (judged_in self.old.stream header.now tick).1 self.old.stream header.now tick behind }
        ensures sources { self.new.stream.sources ≡ (judged_in self.old.stream header.now tick).0 }
        ensures track { self.new.stream.track ≡ track_by (judged_in self.old.stream header.now tick).1 self.old.stream header.now samples tick behind }
        ensures offset { self.new.stream.track.offset ≡ self.old.stream.track.offset }
        ensures arrives { Arrives self.old.stream self.new.stream header.now result tick behind }
        ensures sound { IsSound self.new.stream }
        ensures others { self.new ≡ record self.old { stream = record self.old.stream { sources = self.new.stream.sources; reception = self.new.stream.reception; track = self.new.stream.track; heard_at = self.new.stream.heard_at; buffer = self.new.stream.buffer } } }
    {
        self.stream.arrive(header, samples, tick, behind)
    }

    // A packet of the payload type that is played.
    fn take_packet(&mut self, header: &Header, payload: &[u8], tick: u32, behind: u32) -> Outcome
        requires size { length payload.now ≤ longest_payload * N }
        requires period { 0 < N }
        requires most { N ≤ period_samples }
        requires sound { IsSound self.old.stream }
        ensures only { (IsHeard self.old.stream header.now tick → ⊥) → IsUntouched self.old self.new }
        ensures refused { result ≢ Outcome.Taken → PlaysTheSame self.old.stream self.new.stream }
        ensures outcome { result ≡ outcome_by (arrival_in self.old.stream header.now (samples_of N (length payload.now)) tick behind) }
        ensures refusal { result ≢ Outcome.Taken → self.new.counts ≡ with_outcome result self.old.counts }
        ensures reception { self.new.stream.reception ≡ received_by (judged_in self.old.stream header.now tick).1 self.old.stream header.now tick behind }
        ensures sources { self.new.stream.sources ≡ (judged_in self.old.stream header.now tick).0 }
        ensures track { self.new.stream.track ≡
            track_by (judged_in self.old.stream header.now tick).1 self.old.stream header.now (samples_of N (length payload.now)) tick behind }
        ensures lays { result ≡ Outcome.Taken → LaysPayload self.old self.new header.now payload.now tick behind }
        ensures sound { IsSound self.new.stream }
        ensures latest { result ≡ Outcome.Taken → self.new.stream.heard_at ≡ tick }
        ensures settings { KeepsSettings self.old self.new }
    {
        let samples = (payload.len() * PERIOD_SAMPLES / N) as u32;
        let before = self.stream.reception;
        let was_heard = self.stream.sources.heard.is_some();
        let shift = self.stream.buffer.pace.shift;
        match self.arrive(header, samples, tick, behind) {
            Arrival::At(place) => {
                self.note_place(place.sample, shift);
                self.lay_at(place.period, place.sample, payload, tick, behind)
            }
            Arrival::NewSource => {
                self.note_source(&before, was_heard);
                self.lay_at(0, 0, payload, tick, behind)
            }
            Arrival::Jump => {
                self.counts.jumps = self.counts.jumps.wrapping_add(1);
                self.lay_at(0, 0, payload, tick, behind)
            }
            Arrival::OnProbation => self.refuse(Outcome::OnProbation),
            Arrival::GivenUp => self.refuse(Outcome::GivenUp),
            Arrival::Far => self.refuse(Outcome::Far),
        }
    }

    // A packet with this payload.
    fn judge_packet(&mut self, header: &Header, payload: &[u8], tick: u32, behind: u32) -> Outcome
        requires period { 0 < N }
        requires most { N ≤ period_samples }
        requires sound { IsSound self.old.stream }
        ensures only { (header.now.payload_type ≡ self.old.payload_type → IsHeard self.old.stream header.now tick → ⊥) → IsUntouched self.old self.new }
        ensures refused { result ≢ Outcome.Taken → PlaysTheSame self.old.stream self.new.stream }
        ensures outcome { result ≡ packet_outcome self.old header.now (length payload.now) tick behind }
        ensures refusal { result ≢ Outcome.Taken → self.new.counts ≡ with_outcome result self.old.counts }
        ensures reception { self.new.stream.reception ≡ received_unless (refused_by self.old header.now.payload_type (length payload.now)) self.old.stream header.now tick behind }
        ensures sources { self.new.stream.sources ≡
            sources_unless (refused_by self.old header.now.payload_type (length payload.now)) self.old.stream header.now tick }
        ensures track { self.new.stream.track ≡ track_unless (refused_by self.old header.now.payload_type (length payload.now)) self.old.stream header.now
            (samples_of N (length payload.now)) tick behind }
        ensures lays { result ≡ Outcome.Taken → LaysPayload self.old self.new header.now payload.now tick behind }
        ensures sound { IsSound self.new.stream }
        ensures latest { result ≡ Outcome.Taken → self.new.stream.heard_at ≡ tick }
        ensures settings { KeepsSettings self.old self.new }
    {
        match self.unplayable(header.payload_type, payload.len()) {
            None => self.take_packet(header, payload, tick, behind),
            Some(reason) => {
                self.count_unplayed(header);
                self.refuse(reason)
            }
        }
    }

    /// Takes a datagram that is read at a tick, which is late by `behind` periods.
    pub fn packet(&mut self, datagram: &[u8], tick: u32, behind: u32) -> Outcome
        requires period { 0 < N }
        requires most { N ≤ period_samples }
        requires sound { IsSound self.old.stream }

        // What becomes of it, by its octets, the stream and the tick; a payload that is taken is laid over the periods
        // from its place on.
        ensures takes { TakesDatagram self.old self.new datagram.now tick behind result }

        // Unless it is a packet of the payload type whose source is heard, or none is heard yet, nothing changes but
        // counts, who is on probation, and what came of the source that is heard.
        ensures only { (IsAdmitted self.old datagram.now tick → ⊥) → IsUntouched self.old self.new }

        // If it isn't taken, nothing changes of what is played.
        ensures refused { result ≢ Outcome.Taken → PlaysTheSame self.old.stream self.new.stream }
        ensures sound { IsSound self.new.stream }
        ensures framed { self.new.is_framed ≡ self.old.is_framed }
        ensures payload_type { self.new.payload_type ≡ self.old.payload_type }
    {
        match parse(datagram) {
            Err(Refusal::Control) => self.refuse(Outcome::Control),
            Err(_) => self.refuse(Outcome::NoPacket),
            Ok(packet) => {
                let payload = &datagram[packet.from..packet.until];
                self.judge_packet(&packet.header, payload, tick, behind)
            }
        }
    }

    /// Before a period is played: when the next slip that is owed is made.
    pub fn prepare(&mut self, tick: u32) -> Wish
        ensures prepared { IsPrepared self.old.stream.buffer self.new.stream.buffer tick result }
        ensures others { self.new ≡ record self.old { stream = record self.old.stream { buffer = self.new.stream.buffer } } }
    {
        self.stream.buffer.prepare(tick)
    }

    /// What would be played at a tick.
    pub fn look(&self, tick: u32, filler: u8) -> [u8; N]
        ensures { AreHeard self.now.stream.buffer tick filler result }
    {
        self.stream.buffer.look(tick, filler)
    }

    /// Makes a slip that is owed.
    pub fn slip(&mut self, tick: u32)
        ensures slipped { IsSlipped self.old.stream.buffer self.new.stream.buffer tick }
        ensures counts { self.new.counts ≡ with_slip self.old.stream.buffer.pace.owed self.old.counts }
        ensures others { self.new ≡ record self.old { counts = self.new.counts; stream = record self.old.stream { buffer = self.new.stream.buffer } } }
    {
        match self.stream.buffer.pace.owed {
            Owed::Nothing => {}
            Owed::On(_) => self.counts.slips_on = self.counts.slips_on.wrapping_add(1),
            Owed::Back(_) => self.counts.slips_back = self.counts.slips_back.wrapping_add(1),
        }
        self.stream.buffer.slip(tick);
    }

    /// The period that is played at a tick, if something of it came; `filler` for what didn't.
    pub fn take(&mut self, tick: u32, filler: u8) -> Option<[u8; N]>
        ensures taken { IsTaken self.old.stream.buffer self.new.stream.buffer tick filler result }
        ensures others { self.new ≡ record self.old { stream = record self.old.stream { buffer = self.new.stream.buffer } } }
    {
        let period = self.stream.buffer.period_at(tick);
        if self.stream.buffer.store.waits(period) {
            Some(self.stream.buffer.take(tick, filler))
        } else {
            None
        }
    }

    /// The clock has given up so many periods.
    pub fn give_up(&mut self, periods: u32, tick: u32)
        requires { IsSound self.old.stream }
        ensures given_up { GivesUp self.old.stream self.new.stream periods tick }
        ensures others { self.new ≡ record self.old { stream = self.new.stream } }
        ensures sound { IsSound self.new.stream }
    {
        self.stream.give_up(periods, tick);
    }
}
