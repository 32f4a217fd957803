//! One incoming stream with its jitter buffer.

ghost use Rattle.std.specs.Prelude.{◌≡◌, ◌≢◌, ◌<◌, ◌≤◌, ℕ, List, ◌∷◌, if◌then◌else◌, false, min};
ghost use Rattle.rtp_packet.specs.Reception.{most_jitter, reception_home, counted};
ghost use Rattle.rtp_buffer.specs.Octets.{after_leaving_out};
ghost use Rattle.rtp_buffer.specs.Store.{place, is_before};
ghost use Rattle.rtp_buffer.specs.Buffer.{period_at};
ghost use Rattle.rtp_buffer.specs.History.{Deed, LeaveOutBefore, Stands};
ghost use Rattle.rtp_buffer.specs.Watch.{on};
ghost use Rattle.rtp_buffer.specs.Pace.{wait_of, followed, given_up};
ghost use Rattle.rtp_stream.specs.Places.{period_samples};
ghost use Rattle.rtp_stream.specs.Sources.{sources_home};
ghost use Rattle.rtp_stream.specs.Stream.{most_depth, track_home, track_given_up, placed, pace_after, is_still, transit_of, arrival_of, is_taken, judged_in, placed_in, reception_after, BeginsAt};

use crate::place::{PERIOD_SAMPLES, Place};
use crate::source::{Sources, Verdict};
use crate::track::{Placed, Track};
use rtp_buffer::Buffer;
use rtp_packet::{Header, Reception};

// The most ticks that a stream's first packet waits, half a second.
const MOST_DEPTH: u32 = 25;

// Ticks beyond the depth after which a source that brought nothing is still.
const STILL: u32 = 2;

/// What a packet is to a stream.
#[derive(Clone, Copy)]
pub enum Arrival {
    /// It belongs at this place.
    At(Place),
    /// Another source is heard, or the first one: the stream begins with this packet.
    NewSource,
    /// The time stamps have jumped: the stream begins anew with this packet.
    Jump,
    /// Its source isn't heard yet, and it isn't taken.
    OnProbation,
    /// It is of time that was given up, and isn't taken.
    GivenUp,
    /// It is far away, and isn't taken.
    Far,
}

/// One incoming stream. `N`: the octets of a period.
#[derive(Clone, Copy)]
pub struct Stream<const N: usize> {
    /// The ticks that its first packet waits, at most 25.
    pub depth: u32,
    /// Whose packets are taken.
    pub sources: Sources,
    /// What came of the source that is heard.
    pub reception: Reception,
    /// Where its packets belong.
    pub track: Track,
    /// The tick of the latest packet that was taken.
    pub heard_at: u32,
    /// Its jitter buffer.
    pub buffer: Buffer<N>,
}

impl<const N: usize> Stream<N> {
    /// Makes it a stream before its first packet, which will wait `depth` ticks, at most 25: others of its packets,
    /// which wait longer, must not be far away. `offset`: 0, or half a period for frames
    /// (`Track`).
    pub fn reset(&mut self, depth: u32, offset: u32)
        requires { offset < period_samples }
        ensures depth { self.new.depth ≡ min depth most_depth }
        ensures sources { self.new.sources ≡ sources_home }
        ensures track { self.new.track ≡ track_home offset 0 }
        ensures reception { self.new.reception ≡ reception_home 0 0 }
        ensures smooth { self.new.reception.jitter ≤ most_jitter }
        ensures heard_at { self.new.heard_at ≡ 0 }
        ensures begins { BeginsAt self.new (min depth most_depth) 0 }
    {
        self.depth = depth.min(MOST_DEPTH);
        self.sources = Sources::home();
        self.reception = Reception::home(0, 0);
        self.track = Track::home(offset, 0);
        self.begin_buffer(0, 0);
    }

    // Whether the source that is heard has brought nothing for a while, and all that it brought is played.
    fn is_still(&self, tick: u32) -> bool
        ensures { result ≡ is_still self.now.depth self.now.heard_at self.now.buffer.pace self.now.buffer.newest tick }
    {
        tick.wrapping_sub(self.heard_at) > self.depth.saturating_add(STILL)
            && self.buffer.is_played_out(tick)
    }

    // A packet's arrival less its time stamp, unless it is read late.
    fn transit(&self, timestamp: u32, tick: u32, behind: u32) -> Option<u32>
        ensures { result ≡ transit_of self.now.track timestamp tick behind }
    {
        if behind == 0 && self.track.given_up.periods == 0 {
            Some(tick.wrapping_mul(PERIOD_SAMPLES).wrapping_sub(timestamp))
        } else {
            None
        }
    }

    // Counts a packet of the source that is heard.
    fn count(&mut self, header: &Header, tick: u32, behind: u32)
        requires { self.old.reception.jitter ≤ most_jitter }
        ensures reception { self.new.reception ≡ counted self.old.reception header.now.sequence_number (transit_of self.old.track header.now.timestamp tick behind) }
        ensures smooth { self.new.reception.jitter ≤ most_jitter }
        ensures others { self.new ≡ record self.old { reception = self.new.reception } }
    {
        let transit = self.transit(header.timestamp, tick, behind);
        self.reception.count(header.sequence_number, transit);
    }

    // Whatever is played from now on begins at a tick that is late by `behind` periods.
    fn begin_buffer(&mut self, tick: u32, behind: u32)
        ensures begins { BeginsAt self.new self.old.depth (on tick behind) }
        ensures others { self.new ≡ record self.old { heard_at = tick; buffer = self.new.buffer } }
    {
        self.heard_at = tick;
        self.buffer.begin(self.depth, tick.wrapping_add(behind));
    }

    // A packet belongs at a place: the pace follows if it is newer than all before.
    fn take_place(&mut self, period: u32, is_newer: bool, tick: u32)
        ensures pace { self.new.buffer.pace ≡ (if is_newer then followed self.old.buffer.pace (wait_of self.old.buffer.pace period tick) tick else self.old.buffer.pace) }
        ensures store { self.new.buffer.store ≡ self.old.buffer.store }
        ensures newest { self.new.buffer.newest ≡ self.old.buffer.newest }
        ensures others { self.new ≡ record self.old { heard_at = tick; buffer = self.new.buffer } }
    {
        self.heard_at = tick;
        if is_newer {
            let wait = self.buffer.pace.wait(period, tick);
            self.buffer.pace.follow(wait, tick);
        }
    }

    // A packet of the source that is heard, once it is counted.
    fn hear(&mut self, header: &Header, samples: u32, tick: u32, behind: u32) -> Arrival
        requires sample { self.old.track.newest.place.sample < period_samples }
        requires offset { self.old.track.offset < period_samples }
        ensures track { self.new.track ≡ (placed self.old.track self.old.buffer.pace header.now samples tick behind).0 }
        ensures arrival { result ≡ arrival_of (placed self.old.track self.old.buffer.pace header.now samples tick behind).1 }
        ensures others { self.new ≡ record self.old { track = self.new.track; heard_at = self.new.heard_at; buffer = self.new.buffer } }
        ensures at { (p : Place) → result ≡ Arrival.At p → (self.new.buffer.pace ≡ pace_after self.old.track self.old.buffer.pace header.now.timestamp tick)
            × (self.new.buffer.store ≡ self.old.buffer.store) × (self.new.buffer.newest ≡ self.old.buffer.newest) × (self.new.heard_at ≡ tick) }
        ensures jump { result ≡ Arrival.Jump → BeginsAt self.new self.old.depth (on tick behind) × (self.new.heard_at ≡ tick) }
        ensures refused { is_taken result ≡ false → (self.new.buffer ≡ self.old.buffer) × (self.new.heard_at ≡ self.old.heard_at)
            × (self.new.track.newest ≡ self.old.track.newest) }
        ensures not_probation { result ≢ Arrival.OnProbation }
        ensures not_new { result ≢ Arrival.NewSource }
        ensures sample { self.new.track.newest.place.sample < period_samples }
        ensures offset { self.new.track.offset ≡ self.old.track.offset }
    {
        let is_newer = self.track.newest.is_before(header.timestamp);
        match self
            .track
            .place(&self.buffer.pace, header, samples, tick, behind)
        {
            Placed::At(place) => {
                self.take_place(place.period, is_newer, tick);
                Arrival::At(place)
            }
            Placed::Jump => {
                self.begin_buffer(tick, behind);
                Arrival::Jump
            }
            Placed::GivenUp => Arrival::GivenUp,
            Placed::Far => Arrival::Far,
        }
    }

    // Another source is heard from a packet on.
    fn begin_source(&mut self, header: &Header, tick: u32, behind: u32)
        ensures reception { self.new.reception ≡ reception_after self.old (reception_home header.now.source header.now.sequence_number) header.now tick behind }
        ensures track { self.new.track ≡ track_home self.old.track.offset header.now.timestamp }
        ensures begins { BeginsAt self.new self.old.depth (on tick behind) }
        ensures others { self.new ≡ record self.old { reception = self.new.reception; track = self.new.track; heard_at = tick; buffer = self.new.buffer } }
        ensures smooth { self.new.reception.jitter ≤ most_jitter }
    {
        self.reception = Reception::home(header.source, header.sequence_number);
        self.count(header, tick, behind);
        self.track = Track::home(self.track.offset, header.timestamp);
        self.begin_buffer(tick, behind);
    }

    // A packet of the source that is heard.
    fn hear_counted(&mut self, header: &Header, samples: u32, tick: u32, behind: u32) -> Arrival
        requires smooth { self.old.reception.jitter ≤ most_jitter }
        requires sample { self.old.track.newest.place.sample < period_samples }
        requires offset { self.old.track.offset < period_samples }
        ensures reception { self.new.reception ≡ reception_after self.old self.old.reception header.now tick behind }
        ensures track { self.new.track ≡ (placed_in self.old header.now samples tick behind).0 }
        ensures arrival { result ≡ arrival_of (placed_in self.old header.now samples tick behind).1 }
        ensures others { self.new ≡ record self.old { reception = self.new.reception; track = self.new.track; heard_at = self.new.heard_at; buffer = self.new.buffer } }
        ensures at { (p : Place) → result ≡ Arrival.At p → (self.new.buffer.pace ≡ pace_after self.old.track self.old.buffer.pace header.now.timestamp tick)
            × (self.new.buffer.store ≡ self.old.buffer.store) × (self.new.buffer.newest ≡ self.old.buffer.newest) × (self.new.heard_at ≡ tick) }
        ensures jump { result ≡ Arrival.Jump → BeginsAt self.new self.old.depth (on tick behind) × (self.new.heard_at ≡ tick) }
        ensures refused { is_taken result ≡ false → (self.new.buffer ≡ self.old.buffer) × (self.new.heard_at ≡ self.old.heard_at)
            × (self.new.track.newest ≡ self.old.track.newest) }
        ensures not_probation { result ≢ Arrival.OnProbation }
        ensures not_new { result ≢ Arrival.NewSource }
        ensures smooth { self.new.reception.jitter ≤ most_jitter }
        ensures sample { self.new.track.newest.place.sample < period_samples }
        ensures offset { self.new.track.offset ≡ self.old.track.offset }
    {
        self.count(header, tick, behind);
        self.hear(header, samples, tick, behind)
    }

    /// Takes a packet of so many samples by its header, read at a tick that is late by `behind` periods: whether it is
    /// taken, and where its payload belongs. A packet that is never played (another payload type, no whole frames) is
    /// counted by `reception.count` alone, if its source is the one that is heard.
    pub fn arrive(&mut self, header: &Header, samples: u32, tick: u32, behind: u32) -> Arrival
        requires smooth { self.old.reception.jitter ≤ most_jitter }
        requires sample { self.old.track.newest.place.sample < period_samples }
        requires offset { self.old.track.offset < period_samples }
        ensures sources { self.new.sources ≡ (judged_in self.old header.now tick).0 }

        // A stranger's packet changes nothing but who is on probation.
        ensures on_probation { (judged_in self.old header.now tick).1 ≡ Verdict.OnProbation →
            (result ≡ Arrival.OnProbation) × (self.new ≡ record self.old { sources = self.new.sources }) }
        ensures new_source { (judged_in self.old header.now tick).1 ≡ Verdict.Begins → (result ≡ Arrival.NewSource)
            × (self.new.reception ≡ reception_after self.old (reception_home header.now.source header.now.sequence_number) header.now tick behind)
            × (self.new.track ≡ track_home self.old.track.offset header.now.timestamp)
            × BeginsAt self.new self.old.depth (on tick behind) × (self.new.heard_at ≡ tick) }
        ensures heard { (judged_in self.old header.now tick).1 ≡ Verdict.Heard → (result ≡ arrival_of (placed_in self.old header.now samples tick behind).1)
            × (self.new.reception ≡ reception_after self.old self.old.reception header.now tick behind)
            × (self.new.track ≡ (placed_in self.old header.now samples tick behind).0) }
        ensures at { (p : Place) → result ≡ Arrival.At p → (self.new.buffer.pace ≡ pace_after self.old.track self.old.buffer.pace header.now.timestamp tick)
            × (self.new.buffer.store ≡ self.old.buffer.store) × (self.new.buffer.newest ≡ self.old.buffer.newest) × (self.new.heard_at ≡ tick) }
        ensures jump { result ≡ Arrival.Jump → BeginsAt self.new self.old.depth (on tick behind) × (self.new.heard_at ≡ tick) }

        // A packet that isn't taken changes nothing of what is played, nor the newest packet, from which places are
        // counted.
        ensures refused { is_taken result ≡ false → (self.new.buffer ≡ self.old.buffer) × (self.new.heard_at ≡ self.old.heard_at)
            × (self.new.track.newest ≡ self.old.track.newest) }
        ensures others { self.new ≡ record self.old { sources = self.new.sources; reception = self.new.reception; track = self.new.track; heard_at = self.new.heard_at; buffer = self.new.buffer } }
        ensures smooth { self.new.reception.jitter ≤ most_jitter }
        ensures sample { self.new.track.newest.place.sample < period_samples }
        ensures offset { self.new.track.offset ≡ self.old.track.offset }
    {
        let is_still = self.is_still(tick);
        match self
            .sources
            .judge(header.source, header.sequence_number, tick, is_still)
        {
            Verdict::OnProbation => Arrival::OnProbation,
            Verdict::Begins => {
                self.begin_source(header, tick, behind);
                Arrival::NewSource
            }
            Verdict::Heard => self.hear_counted(header, samples, tick, behind),
        }
    }

    /// The clock has given up so many periods: what would have been played in them is left out, and packets of them may
    /// still come.
    pub fn give_up(&mut self, periods: u32, tick: u32)
        ensures track { self.new.track ≡ track_given_up self.old.track periods tick }
        ensures pace { self.new.buffer.pace ≡ given_up self.old.buffer.pace periods }
        ensures newest { self.new.buffer.newest ≡ self.old.buffer.newest }
        ensures left_out { (period k : ℕ) → place self.new.buffer.store.slots period k ≡
            (if is_before period (period_at self.new.buffer.pace tick) then after_leaving_out (place self.old.buffer.store.slots period k) else place self.old.buffer.store.slots period k) }
        ensures ahead { (period k : ℕ) → is_before period (period_at self.new.buffer.pace tick) ≡ false →
            place self.new.buffer.store.slots period k ≡ place self.old.buffer.store.slots period k }
        ensures stands { (deeds : List Deed) → Stands deeds self.old.buffer.store.slots →
            Stands (LeaveOutBefore (period_at self.new.buffer.pace tick) ∷ deeds) self.new.buffer.store.slots }
        ensures others { self.new ≡ record self.old { track = self.new.track; buffer = self.new.buffer } }
    {
        self.track.give_up(periods, tick);
        self.buffer.give_up(periods, tick);
    }
}
