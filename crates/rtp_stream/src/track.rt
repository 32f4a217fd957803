//! Where a packet of the source that is heard belongs, or why it isn't taken.

ghost use Rattle.std.specs.Prelude.{◌≡◌, ◌≢◌, ◌<◌, ◌≤◌, ◌+◌, ◌^◌};
ghost use Rattle.rtp_buffer.specs.Pace.{wait_of};
ghost use Rattle.rtp_stream.specs.Places.{period_samples, place_of};
ghost use Rattle.rtp_stream.specs.Stream.{track_home, still_given_up, is_given_up, is_far, next_of, is_next, placed_far, placed_near, placed_at, placed, track_given_up};

use crate::place::{BEHIND, Newest, Place};
use rtp_buffer::Pace;
use rtp_packet::Header;

/// Periods that a packet may be ahead or behind, a second: one that is further away is a jump.
pub(crate) const LIMIT: u32 = 50;

/// The packet with which a jump goes on.
#[derive(Clone, Copy)]
pub struct Next {
    /// Its sequence number.
    pub number: u16,
    /// Its time stamp.
    pub timestamp: u32,
}

/// Periods that the clock has given up, the packets of which may still come.
#[derive(Clone, Copy)]
pub struct GivenUp {
    /// The periods.
    pub periods: u32,
    /// The tick at which the latest ones were given up.
    pub at: u32,
}

/// Where the packets of a stream belong, by the newest one.
#[derive(Clone, Copy)]
pub struct Track {
    /// The sample of period 0 to which a stream's first packet belongs: 0, or half a period for frames, which belong to
    /// the nearest period. Below 160.
    pub offset: u32,
    /// The newest packet.
    pub newest: Newest,
    /// After a packet that is far away, the one that would follow it.
    pub jump: Option<Next>,
    /// Time that was given up.
    pub given_up: GivenUp,
}

/// Where a packet belongs, or why it isn't taken.
#[derive(Clone, Copy)]
pub enum Placed {
    /// At this place.
    At(Place),
    /// The time stamps have jumped, and the stream begins anew with it.
    Jump,
    /// It is of time that was given up.
    GivenUp,
    /// It is far away, and doesn't follow one that was.
    Far,
}

// Whether a packet that waits so long is far away, read at a tick that is late by `behind` periods.
fn is_far(wait: u32, behind: u32) -> bool
    ensures { result ≡ is_far wait behind }
{
    wait.wrapping_add(LIMIT) > behind.saturating_add(2 * LIMIT)
}

// Whether a packet is the one that would follow.
fn is_next(next: Option<Next>, header: &Header) -> bool
    ensures { result ≡ is_next next header.now }
{
    match next {
        None => false,
        Some(next) => {
            next.number == header.sequence_number && next.timestamp == header.timestamp
        }
    }
}

// The packet that would follow one of so many samples.
fn next_of(header: &Header, samples: u32) -> Next
    ensures { result ≡ next_of header.now samples }
{
    Next {
        number: header.sequence_number.wrapping_add(1),
        timestamp: header.timestamp.wrapping_add(samples),
    }
}

impl GivenUp {
    // What may still come of it, once a packet has come that waits so long.
    fn still(self, wait: u32, tick: u32, behind: u32) -> GivenUp
        ensures { result ≡ still_given_up self wait tick behind }
    {
        let is_in_time = wait < BEHIND && !is_far(wait, behind);
        if is_in_time || tick.wrapping_sub(self.at) >= LIMIT {
            GivenUp {
                periods: 0,
                at: self.at,
            }
        } else {
            self
        }
    }

    // Whether a packet that waits so long is of it.
    fn has(self, wait: u32) -> bool
        ensures { result ≡ is_given_up self.periods wait }
    {
        self.periods > 0
            && wait >= BEHIND
            && 0u32.wrapping_sub(wait) <= self.periods.saturating_add(LIMIT)
    }
}

impl Track {
    /// A stream begins with a packet of this time stamp.
    pub fn home(offset: u32, timestamp: u32) -> Track
        ensures { result ≡ track_home offset timestamp }
    {
        Track {
            offset,
            newest: Newest {
                timestamp,
                place: Place {
                    period: 0,
                    sample: offset,
                },
            },
            jump: None,
            given_up: GivenUp { periods: 0, at: 0 },
        }
    }

    // A packet is far away.
    fn place_far(&mut self, header: &Header, samples: u32) -> Placed
        requires sample { self.old.newest.place.sample < period_samples }
        requires offset { self.old.offset < period_samples }
        ensures value { (self.new, result) ≡ placed_far self.old header.now samples }
        ensures at { (p : Place) → result ≢ Placed.At p }
        ensures far { result ≡ Placed.Far → self.new.newest ≡ self.old.newest }
        ensures sample { self.new.newest.place.sample < period_samples }
        ensures offset { self.new.offset ≡ self.old.offset }
    {
        if is_next(self.jump, header) {
            *self = Track::home(self.offset, header.timestamp);
            return Placed::Jump;
        }
        self.jump = Some(next_of(header, samples));
        Placed::Far
    }

    // A packet belongs at a place.
    fn place_near(&mut self, timestamp: u32, place: Place) -> Placed
        requires old { self.old.newest.place.sample < period_samples }
        requires new { place.sample < period_samples }
        ensures value { (self.new, result) ≡ placed_near self.old timestamp place }
        ensures at { result ≡ Placed.At place }
        ensures sample { self.new.newest.place.sample < period_samples }
        ensures offset { self.new.offset ≡ self.old.offset }
    {
        self.jump = None;
        if self.newest.is_before(timestamp) {
            self.newest = Newest { timestamp, place };
        }
        Placed::At(place)
    }

    // A packet would belong at a place, and waits so long.
    fn place_at(
        &mut self,
        header: &Header,
        samples: u32,
        place: Place,
        wait: u32,
        behind: u32,
    ) -> Placed
        requires old { self.old.newest.place.sample < period_samples }
        requires new { place.sample < period_samples }
        requires offset { self.old.offset < period_samples }
        ensures value { (self.new, result) ≡ placed_at self.old header.now samples place wait behind }
        ensures at { (p : Place) → result ≡ Placed.At p → p ≡ place }
        ensures far { result ≡ Placed.Far → self.new.newest ≡ self.old.newest }
        ensures given_up { result ≡ Placed.GivenUp → self.new ≡ self.old }
        ensures sample { self.new.newest.place.sample < period_samples }
        ensures offset { self.new.offset ≡ self.old.offset }
    {
        if self.given_up.has(wait) {
            Placed::GivenUp
        } else if is_far(wait, behind) {
            self.place_far(header, samples)
        } else {
            self.place_near(header.timestamp, place)
        }
    }

    /// Where a packet of so many samples belongs, read at a tick that is late by `behind` periods.
    pub fn place(
        &mut self,
        pace: &Pace,
        header: &Header,
        samples: u32,
        tick: u32,
        behind: u32,
    ) -> Placed
        requires sample { self.old.newest.place.sample < period_samples }
        requires offset { self.old.offset < period_samples }
        ensures value { (self.new, result) ≡ placed self.old pace.now header.now samples tick behind }
        ensures at { (p : Place) → result ≡ Placed.At p → p ≡ place_of self.old.newest header.now.timestamp }

        // A packet that isn't taken moves nothing.
        ensures far { result ≡ Placed.Far → self.new.newest ≡ self.old.newest }
        ensures given_up { result ≡ Placed.GivenUp → self.new.newest ≡ self.old.newest }
        ensures sample { self.new.newest.place.sample < period_samples }
        ensures offset { self.new.offset ≡ self.old.offset }
    {
        let place = self.newest.place_of(header.timestamp);
        let wait = pace.wait(place.period, tick);
        self.given_up = self.given_up.still(wait, tick, behind);
        self.place_at(header, samples, place, wait, behind)
    }

    /// The clock has given up so many periods more, at a tick.
    pub fn give_up(&mut self, periods: u32, tick: u32)
        ensures { self.new ≡ track_given_up self.old periods tick }
    {
        self.given_up = GivenUp {
            periods: self.given_up.periods.saturating_add(periods),
            at: tick,
        };
    }
}
