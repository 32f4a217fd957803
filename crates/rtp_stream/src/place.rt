//! Where the packets of a stream belong, by their time stamps.

ghost use Rattle.std.specs.Prelude.{◌≡◌, ◌<◌, ◌≤◌, ◌^◌};
ghost use Rattle.rtp_stream.specs.Places.{period_samples, after, before, is_newer, place_of};

/// The samples of a period of 20 ms, at 8,000 a second.
pub const PERIOD_SAMPLES: u32 = 160;

/// Numbers from here on are behind, the nearer way round.
pub(crate) const BEHIND: u32 = 0x8000_0000;

/// A place in a stream.
#[derive(Clone, Copy)]
pub struct Place {
    /// The period, modulo 2 to the 32nd.
    pub period: u32,
    /// The samples of it that are before the place, below 160.
    pub sample: u32,
}

/// The newest packet of a stream.
#[derive(Clone, Copy)]
pub struct Newest {
    /// Its time stamp.
    pub timestamp: u32,
    /// The place of its first sample.
    pub place: Place,
}

impl Place {
    // The place so many samples after this one.
    fn after(self, samples: u32) -> Place
        requires sample { self.sample < period_samples }
        requires samples { samples < 2 ^ 31 }
        ensures value { result ≡ after self samples }
        ensures within { result.sample < period_samples }
    {
        let place = self.sample + samples;
        Place {
            period: self.period.wrapping_add(place / PERIOD_SAMPLES),
            sample: place % PERIOD_SAMPLES,
        }
    }

    // The place so many samples before this one.
    fn before(self, samples: u32) -> Place
        requires sample { self.sample < period_samples }
        requires samples { samples ≤ 2 ^ 31 }
        ensures value { result ≡ before self samples }
        ensures within { result.sample < period_samples }
    {
        let periods = (samples + (PERIOD_SAMPLES - 1) - self.sample) / PERIOD_SAMPLES;
        Place {
            period: self.period.wrapping_sub(periods),
            sample: self.sample + PERIOD_SAMPLES * periods - samples,
        }
    }
}

impl Newest {
    /// Where a packet of this time stamp belongs.
    pub fn place_of(&self, timestamp: u32) -> Place
        requires { self.now.place.sample < period_samples }
        ensures value { result ≡ place_of self.now timestamp }
        ensures within { result.sample < period_samples }
    {
        let ahead = timestamp.wrapping_sub(self.timestamp);
        if ahead < BEHIND {
            self.place.after(ahead)
        } else {
            self.place.before(self.timestamp.wrapping_sub(timestamp))
        }
    }

    /// Whether a packet of this time stamp is newer.
    pub fn is_before(&self, timestamp: u32) -> bool
        ensures { result ≡ is_newer timestamp self.now.timestamp }
    {
        let ahead = timestamp.wrapping_sub(self.timestamp);
        ahead > 0 && ahead < BEHIND
    }
}
